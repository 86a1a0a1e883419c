//! A walk over the records of a capture that is still being read.

ghost use Rattle.std.specs.Prelude.{◌≡◌, ◌<◌, ◌≤◌, ◌+◌, ◌++◌, ◌^◌, List, [], ℕ, IfErr, IfNone, IfOk, OnOk, Some};
ghost use Rattle.std.specs.Prelude.{None, length, drop, take};
ghost use Rattle.pcap_records.specs.FileHeader.{number_of};
ghost use Rattle.pcap_records.specs.Record.{BeginsWithRecord};
ghost use Rattle.pcap_records.specs.Refusal.{refusal};
ghost use Rattle.pcap_records.specs.code.Walk.{AreAll, HasFed, HasGot, HasToppedUp, IsAt, IsSizeOfFirst, wanted};

use crate::cursor::RecordCursor;
use crate::faults::PcapFault;
use crate::format::Endian;
use crate::header::MOST_BYTES;
use crate::rows::{RECORD_HEADER, captured_length};
use crate::visitor::RecordVisitor;
use byteorder::{BigEndian, LittleEndian};
use input_output::FrontWalk;
use std::alloc::{AllocError, Global};

/// The records of a capture, handed to a visitor as they are fed.
///
/// After each feeding the visitor was handed exactly the whole records of all bytes that were fed. The walk keeps no
/// record, and of the bytes those alone that begin a record which is not whole yet.
#[derive(Drop)]
pub struct RecordWalk<V> {
    cursor: RecordCursor,
    /// The bytes from the cursor on that were fed.
    begun: Vec<u8>,
    visitor: V,
}

impl<V> RecordWalk<V> {
    /// The link type of the capture: [`ETHERNET`](crate::ETHERNET) or [`RAW_IP`](crate::RAW_IP).
    pub fn link(&self) -> u16
        ensures { result ≡ self.now.cursor.link }
    {
        self.cursor.link
    }

    /// The visitor, and what the records so far made of it.
    pub fn visitor(&self) -> &V
        ensures { result.now ≡ self.now.visitor }
    {
        &self.visitor
    }

    /// What the records made of the visitor.
    pub fn into_visitor(self) -> V
        ensures { result ≡ self.visitor }
    {
        let RecordWalk { visitor, .. } = self;
        visitor
    }
}

impl<V: RecordVisitor + Drop> RecordWalk<V> {
    /// A walk that begins behind the file header, which it was fed, or the refusal of these bytes.
    pub fn begin(alloc: Global, front: &[u8], visitor: V) -> Result<RecordWalk<V>, PcapFault>
        requires { (link : ℕ) → V.after link [] visitor }
        ensures ok { IfOk result (HasFed V.after (take 24 front.now)) }
        ensures taken { OnOk result (refusal front.now ≡ None) }
        ensures whole { OnOk result (24 ≤ length front.now) }
        ensures short { OnOk result (length front.now < 2 ^ 31) }
        ensures err { IfErr result (λ e. refusal front.now ≡ Some e) }
    {
        match RecordCursor::begin(front) {
            Ok(cursor) => Ok(RecordWalk {
                cursor,
                begun: Vec::new(alloc),
                visitor,
            }),
            Err(fault) => Err(fault),
        }
    }

    /// The number of the record that the end of the capture cuts, if there is one. The walk is to have been fed all of
    /// the capture, and to have handed on so many records.
    pub fn cut(&self, count: u32) -> Option<u32>
        requires { count + 1 < 2 ^ 32 }
        ensures { AreAll V.after self.now count result }
    {
        if self.begun.is_empty() {
            None
        } else {
            Some(count + 1)
        }
    }

    /// Why a capture is refused, if it is, where the walk was fed all of it: its header was taken, so its length alone
    /// decides.
    pub fn refusal(&self) -> Option<PcapFault>
        requires { (capture : List ℕ) × HasFed V.after capture self.now × (length capture ≤ 2 ^ 31) }
        ensures is { (capture : List ℕ) → HasFed V.after capture self.now → result ≡ refusal capture }
        ensures short { (capture : List ℕ) → HasFed V.after capture self.now → IfNone result (length capture < 2 ^ 31) }
    {
        if self.fed() > MOST_BYTES {
            return Some(PcapFault::TooLarge);
        }
        None
    }

    /// How many bytes it was fed.
    fn fed(&self) -> usize
        requires { (front : List ℕ) × HasFed V.after front self.now × (length front ≤ 2 ^ 31) }
        ensures { (front : List ℕ) → HasFed V.after front self.now → result ≡ length front }
    {
        self.cursor.at + self.begun.len()
    }

    /// Adds to the record that is begun what it lacks, as far as these bytes go, and hands it on where it is whole
    /// then. Returns how many bytes it got: all, or else none is begun any more.
    fn complete(&mut self, alloc: Global, more: &[u8]) -> Result<usize, AllocError>
        requires { (front : List ℕ) × HasFed V.after front self.old × (length front + length more.now ≤ 2 ^ 31) }
        ensures within { IfOk result (λ n. n ≤ length more.now) }
        ensures none { IfOk result (λ n. n < length more.now → self.new.begun.items ≡ []) }
        ensures fed { (front : List ℕ) → HasFed V.after front self.old
            → IfOk result (λ n. HasFed V.after (front ++ take n more.now) self.new) }
    {
        if self.begun.is_empty() {
            return Ok(0);
        }
        let used = top_up(self.cursor.format.endian, &mut self.begun, more)?;
        let size = hand_on(alloc, &mut self.cursor, &self.begun, &mut self.visitor)?;
        if size == 0 {
            return Ok(used);
        }
        self.begun.clear();
        Ok(used)
    }

    /// Hands on the whole records of these bytes, where none is begun before them, and keeps the rest.
    fn go_on(&mut self, alloc: Global, more: &[u8]) -> Result<(), AllocError>
        requires fed { (front : List ℕ) × HasFed V.after front self.old × (length front + length more.now ≤ 2 ^ 31) }
        requires none { 0 < length more.now → self.old.begun.items ≡ [] }
        ensures { (front : List ℕ) → HasFed V.after front self.old
            → OnOk result (HasFed V.after (front ++ more.now) self.new) }
    {
        if more.is_empty() {
            return Ok(());
        }
        let passed = hand_on_all(alloc, &mut self.cursor, more, &mut self.visitor)?;
        self.begun.extend_from_slice(&more[passed..])?;
        Ok(())
    }
}

impl<V: RecordVisitor + Drop> FrontWalk for RecordWalk<V> {
    ghost stands = { HasFed V.after };

    fn feed(&mut self, alloc: Global, more: &[u8]) -> Result<(), AllocError> {
        let used = self.complete(alloc, more)?;
        self.go_on(alloc, &more[used..])
    }
}

/// How many bytes the record that begins so is known to take.
fn wanted(endian: Endian, begun: &[u8]) -> usize
    ensures { result ≡ wanted (number_of endian) begun.now }
{
    if begun.len() < RECORD_HEADER {
        return RECORD_HEADER;
    }
    let captured = match endian {
        Endian::Big => captured_length::<BigEndian>(begun),
        Endian::Little => captured_length::<LittleEndian>(begun),
    };
    RECORD_HEADER + captured as usize
}

/// Adds to a record that is begun what it is known to lack, as far as these bytes go, and returns how many it got.
fn add_wanted(endian: Endian, begun: &mut Vec<u8>, more: &[u8]) -> Result<usize, AllocError>
    ensures { IfOk result (HasGot (number_of endian) begun.old.items more.now begun.new.items) }
{
    let count = wanted(endian, begun)
        .saturating_sub(begun.len())
        .min(more.len());
    begun.extend_from_slice(&more[..count])?;
    Ok(count)
}

/// Adds to a record that is begun what it lacks, as far as these bytes go: first of its header, which says how long it
/// is. Returns how many bytes it got.
fn top_up(endian: Endian, begun: &mut Vec<u8>, more: &[u8]) -> Result<usize, AllocError>
    requires { ¬ BeginsWithRecord (number_of endian) begun.old.items }
    ensures { IfOk result (HasToppedUp (number_of endian) begun.old.items more.now begun.new.items) }
{
    let header = add_wanted(endian, begun, more)?;
    let body = add_wanted(endian, begun, &more[header..])?;
    Ok(header + body)
}

/// Hands on the record that these bytes begin with, if a whole one does, and returns how many of them it takes, or 0.
/// They stand where the cursor does.
fn hand_on<V: RecordVisitor>(
    alloc: Global,
    cursor: &mut RecordCursor,
    bytes: &[u8],
    visitor: &mut V,
) -> Result<usize, AllocError>
    requires { (front : List ℕ) × IsAt V.after front bytes.now cursor.old visitor.old × (length front ≤ 2 ^ 31) }
    ensures size { IfOk result (IsSizeOfFirst (number_of cursor.old.format.endian) bytes.now) }
    ensures within { IfOk result (λ n. n ≤ length bytes.now) }
    ensures format { cursor.new.format ≡ cursor.old.format }
    ensures at { (front : List ℕ) → IsAt V.after front bytes.now cursor.old visitor.old
        → IfOk result (λ n. IsAt V.after front (drop n bytes.now) cursor.new visitor.new) }
{
    let link = cursor.link;
    match cursor.next(bytes) {
        Some(row) => {
            let size = RECORD_HEADER + row.length as usize;
            visitor.take(alloc, link, &row, &bytes[RECORD_HEADER..size])?;
            Ok(size)
        }
        None => Ok(0),
    }
}

/// Hands on all whole records that these bytes begin with, and returns how many of them they take.
fn hand_on_all<V: RecordVisitor>(
    alloc: Global,
    cursor: &mut RecordCursor,
    bytes: &[u8],
    visitor: &mut V,
) -> Result<usize, AllocError>
    requires { (front : List ℕ) × IsAt V.after front bytes.now cursor.old visitor.old × (length front ≤ 2 ^ 31) }
    ensures within { IfOk result (λ n. n ≤ length bytes.now) }
    ensures through { IfOk result (λ n. ¬ BeginsWithRecord (number_of cursor.new.format.endian) (drop n bytes.now)) }
    ensures at { (front : List ℕ) → IsAt V.after front bytes.now cursor.old visitor.old
        → IfOk result (λ n. IsAt V.after front (drop n bytes.now) cursor.new visitor.new) }
{
    let mut done = 0;
    loop {
        let size = hand_on(alloc, cursor, &bytes[done..], visitor)?;
        if size == 0 {
            return Ok(done);
        }
        done += size;
    }
}
