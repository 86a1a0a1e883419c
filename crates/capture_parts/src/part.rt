//! A part of a capture that is being written.

ghost use Rattle.std.specs.Prelude.{◌≡◌, ◌<◌, ◌^◌, [], None, OnOk, IfOk, length, max};
ghost use Rattle.std.specs.Io.Buffered.{writer_contents};
ghost use Rattle.std.specs.Io.KnownBytes.{Appends, Keeps};
ghost use Rattle.byteorder.specs.Endian.{big_bytes};
ghost use Rattle.capture_parts.specs.Dealt.{full_at};

use crate::fault::PartFile;
use crate::pair::Endpoints;
use pcap_records::MOST_BYTES;
use std::io::{BufWriter, Write};

/// How many parts are made where so many are asked for: one at least.
pub fn part_count(asked: u32) -> usize
    ensures { result ≡ max asked 1 }
{
    asked.max(1) as usize
}

/// The record that a part has no room for.
#[derive(Clone, Copy)]
pub struct FullPart {
    /// Its endpoints, if it names any.
    pub pair: Option<Endpoints>,
}

/// A part: a capture, and the number of each of its records in the whole.
#[derive(Drop)]
pub struct Part<W: Drop> {
    packets: W,
    numbers: W,
    /// How many bytes the capture has.
    size: u64,
    /// Nothing is written from here on.
    full: Option<FullPart>,
    ghost small: { size < 2 ^ 31 },
}

impl<W: Write + Drop> Part<W> {
    ghost use Rattle.capture_parts.specs.Parts.{Grows};

    /// A part that begins with this file header. Fails where the write does.
    pub fn begin(mut packets: W, numbers: W, header: &[u8]) -> Result<Part<W>, PartFile>
        requires { length header.now < 2 ^ 31 }
        ensures packets { IfOk result (λ part. Appends (W.contents packets) (W.contents part.packets) header.now) }
        ensures numbers { IfOk result (λ part. part.numbers ≡ numbers) }
        ensures size { IfOk result (λ part. part.size ≡ length header.now) }
        ensures full { IfOk result (λ part. part.full ≡ None) }
    {
        if packets.write_all(header).is_err() {
            return Err(PartFile::Packets);
        }
        Ok(Part {
            packets,
            numbers,
            size: header.len() as u64,
            full: None,
        })
    }

    /// Takes the number of a record.
    pub(crate) fn take_number(&mut self, number: u64) -> Result<(), PartFile>
        ensures { OnOk result (Grows W.contents self.old self.new [] (big_bytes 8 number) None) }
    {
        if self.full.is_some() {
            return Ok(());
        }
        match self.numbers.write_all(&number.to_be_bytes()) {
            Ok(()) => Ok(()),
            Err(_) => Err(PartFile::Numbers),
        }
    }

    /// Takes bytes of a record with this pair, where there is room.
    pub(crate) fn take_bytes(
        &mut self,
        bytes: &[u8],
        pair: Option<Endpoints>,
    ) -> Result<(), PartFile>
        ensures { OnOk result (Grows W.contents self.old self.new bytes.now []
            (full_at self.old.size (length bytes.now) pair)) }
    {
        if self.full.is_some() {
            return Ok(());
        }
        let count = bytes.len() as u64;
        if count > MOST_BYTES as u64 - self.size {
            self.full = Some(FullPart { pair });
            return Ok(());
        }
        match self.packets.write_all(bytes) {
            Ok(()) => {
                self.size += count;
                Ok(())
            }
            Err(_) => Err(PartFile::Packets),
        }
    }

    /// Whether it is full, and by which record.
    pub fn full(&self) -> Option<FullPart>
        ensures { result ≡ self.now.full }
    {
        self.full
    }
}

impl<W: Write + Drop> Part<BufWriter<W>> {
    ghost use Rattle.capture_parts.specs.Finished.{IsFlushed};

    /// Flushes both files: nothing is left in their buffers then. Fails where a flush does.
    pub fn flush(&mut self) -> Result<(), PartFile>
        ensures flushed { OnOk result (IsFlushed self.new) }
        ensures packets { Keeps (writer_contents W.contents self.old.packets)
            (writer_contents W.contents self.new.packets) }
        ensures numbers { Keeps (writer_contents W.contents self.old.numbers)
            (writer_contents W.contents self.new.numbers) }
        ensures full { self.new.full ≡ self.old.full }
    {
        if self.packets.flush().is_err() {
            return Err(PartFile::Packets);
        }
        if self.numbers.flush().is_err() {
            return Err(PartFile::Numbers);
        }
        Ok(())
    }
}
