//! Deals the files of a capture.

ghost use Rattle.std.specs.Prelude.{◌≡◌, ◌+◌, ◌-◌, ◌<◌, ◌≤◌, ◌^◌, ℕ, List, [], ◌++◌, length, take, vec_len};
ghost use Rattle.std.specs.Prelude.{IfErr, IfOk, IfSome, OnOk};
ghost use Rattle.std.specs.Io.KnownBytes.{Consumes, IsAtEnd};
ghost use Rattle.pcap_records.specs.FileHeader.{format_of, link_of, number_of};
ghost use Rattle.pcap_records.specs.Record.{BeginsWithRecord};
ghost use Rattle.capture_parts.specs.Files.{order_of};
ghost use Rattle.capture_parts.specs.code.Standing.{IsDealt};
ghost use Rattle.capture_parts.specs.code.Counting.{IsFaultAt, Overflows};
ghost use Rattle.capture_parts.specs.code.Dealing.{Deals, EndsSplit, HasTurned};

use crate::dealer::Dealing;
use crate::fault::SplitFault;
use crate::part::Part;
use std::alloc::{AllocError, Global};
use std::io::{Read, Write};

/// How many bytes are read at a time.
const BUFFER_BYTES: usize = 262_144;

/// A buffer for reads, which is long enough for a packet's front. Fails where memory runs out.
pub fn make_buffer(alloc: Global) -> Result<Vec<u8>, AllocError>
    ensures { IfOk result (λ buffer. vec_len buffer ≡ 262144) }
{
    vec![in alloc; 0; BUFFER_BYTES]
}

/// Reads the header of a file, and returns how many bytes of it there are. Fails where a read does.
pub fn read_header<R: Read>(reader: &mut R, header: &mut [u8]) -> Result<usize, SplitFault>
    ensures within { IfOk result (λ n. n ≤ length header.new) }
    ensures bytes { IfOk result (λ n. Consumes (R.remaining reader.old) (R.remaining reader.new) (take n header.new)) }
    ensures end { IfOk result (λ n. n < length header.new → IsAtEnd (R.remaining reader.new)) }
    ensures fault { IfErr result (IsFaultAt 0) }
{
    let mut filled = 0;
    while filled < header.len() {
        match reader.read(&mut header[filled..]) {
            Ok(0) => return Ok(filled),
            Ok(count) => filled += count,
            Err(_) => return Err(SplitFault::Read),
        }
    }
    Ok(filled)
}

/// A capture that is being split, file by file.
#[derive(Drop)]
pub(crate) struct Splitter<W: Drop> {
    dealing: Dealing<W>,
    /// What was read and is not dealt yet stands at its front.
    buffer: Vec<u8>,
    ghost room: { 98 ≤ vec_len buffer },
}

impl<W: Write + Drop> Splitter<W> {
    /// Nothing is read yet of a capture behind this file header.
    pub(crate) fn behind(header: &[u8], buffer: Vec<u8>, parts: Vec<Part<W>>) -> Splitter<W>
        requires header { 24 ≤ length header.now }
        requires buffer { 98 ≤ vec_len buffer }
        requires some { 0 < vec_len parts }
        ensures order { IfSome (format_of header.now)
            (λ format. order_of result.dealing.dealer.is_little ≡ number_of format.endian) }
        ensures link { IfSome (format_of header.now)
            (λ format. result.dealing.dealer.link ≡ link_of (number_of format.endian) header.now) }
        ensures none { IsDealt W.contents result.dealing.dealer parts.items result.dealing.parts.items [] }
        ensures count { result.dealing.count ≡ 0 }
    {
        Splitter {
            dealing: Dealing::behind(header, parts),
            buffer,
        }
    }

    /// Deals a file of a capture behind which another one comes, from behind its header on. It has to end with a whole
    /// record, else the fault is [`SplitFault::CutRecord`].
    pub(crate) fn split_file<R: Read>(&mut self, reader: &mut R) -> Result<(), SplitFault>
        ensures whole { OnOk result (self.new.dealing.dealer.left ≡ 0) }
        ensures dealt { OnOk result ((given : List ℕ)
            × Consumes (R.remaining reader.old) (R.remaining reader.new) given
            × IsAtEnd (R.remaining reader.new)
            × (self.new.dealing.count ≡ self.old.dealing.count + length given)
            × Deals W.contents self.old.dealing.dealer self.new.dealing.dealer
            self.old.dealing.parts.items self.new.dealing.parts.items given) }
        ensures fault { IfErr result
            (Overflows (R.remaining reader.old) (R.remaining reader.new) self.old.dealing.count) }
    {
        let filled = deal_file(&mut self.dealing, reader, self.buffer.as_mut_slice())?;
        if filled == 0 && self.dealing.is_between() {
            Ok(())
        } else {
            Err(SplitFault::CutRecord)
        }
    }

    /// Deals the last file of a capture, from behind its header on.
    pub(crate) fn finish_file<R: Read>(&mut self, reader: &mut R) -> Result<(), SplitFault>
        ensures ends { OnOk result ((given : List ℕ)
            × Consumes (R.remaining reader.old) (R.remaining reader.new) given
            × IsAtEnd (R.remaining reader.new)
            × EndsSplit W.contents self.old.dealing.dealer self.old.dealing.parts.items
            self.new.dealing.parts.items given) }
        ensures fault { IfErr result
            (Overflows (R.remaining reader.old) (R.remaining reader.new) self.old.dealing.count) }
    {
        let filled = deal_file(&mut self.dealing, reader, self.buffer.as_mut_slice())?;
        self.dealing.finish(&self.buffer[..filled])
    }

    /// The parts, with what they got.
    pub(crate) fn into_parts(self) -> Vec<Part<W>>
        ensures { result ≡ self.dealing.parts }
    {
        self.dealing.parts
    }
}

/// Deals a file to its end, and returns how many bytes of it are left in the buffer: too few to begin a record.
fn deal_file<R: Read, W: Write + Drop>(
    dealing: &mut Dealing<W>,
    reader: &mut R,
    buffer: &mut [u8],
) -> Result<usize, SplitFault>
    requires { 98 ≤ length buffer.old }
    ensures left { IfOk result (λ n. n ≤ length buffer.new) }
    ensures turned { IfOk result (λ n. HasTurned W.contents R.remaining dealing.old.dealer dealing.new.dealer
        dealing.old.count dealing.new.count dealing.old.parts.items dealing.new.parts.items reader.old reader.new
        (take n buffer.new)) }
    ensures end { OnOk result (IsAtEnd (R.remaining reader.new)) }
    ensures fault { IfErr result (Overflows (R.remaining reader.old) (R.remaining reader.new) dealing.old.count) }
{
    let mut filled = 0;
    loop {
        match reader.read(&mut buffer[filled..]) {
            Ok(0) => return Ok(filled),
            Ok(count) => filled = deal_buffer(dealing, buffer, filled + count)?,
            Err(_) => return Err(SplitFault::Read),
        }
    }
}

/// Deals the first `filled` bytes of a buffer, moves the last, too few to begin a record, to its front, and returns how
/// many these are.
fn deal_buffer<W: Write + Drop>(
    dealing: &mut Dealing<W>,
    buffer: &mut [u8],
    filled: usize,
) -> Result<usize, SplitFault>
    requires { filled ≤ length buffer.old }
    ensures left { IfOk result (λ n. (n < 98) × (n ≤ filled)) }
    ensures moved { IfOk result (λ n. take filled buffer.old ≡ take (filled - n) buffer.old ++ take n buffer.new) }
    ensures rest { IfOk result (λ n. 0 < n → (dealing.new.dealer.left ≡ 0)
        × ¬ BeginsWithRecord (order_of dealing.new.dealer.is_little) (take n buffer.new)) }
    ensures dealt { IfOk result (λ n. Deals W.contents dealing.old.dealer dealing.new.dealer
        dealing.old.parts.items dealing.new.parts.items (take (filled - n) buffer.old)) }
    ensures count { IfOk result (λ n. dealing.new.count + n ≡ dealing.old.count + filled) }
    ensures fault { IfErr result (IsFaultAt (dealing.old.count + filled)) }
{
    let dealt = dealing.deal(&buffer[..filled])?;
    buffer.copy_within(dealt..filled, 0);
    Ok(filled - dealt)
}
