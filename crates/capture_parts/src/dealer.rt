//! Which bytes go to which part.

ghost use Rattle.std.specs.Prelude.{◌≡◌, ◌+◌, ◌-◌, ◌*◌, ◌<◌, ◌≤◌, ◌^◌, ℕ, List, [], ◌++◌, false, length, min, take};
ghost use Rattle.std.specs.Prelude.{None, drop, vec_len, IfErr, IfOk, IfSome, OnOk, IsTrue};
ghost use Rattle.std.specs.Bool.{Decides};
ghost use Rattle.byteorder.specs.Endian.{big_bytes};
ghost use Rattle.pcap_records.specs.FileHeader.{format_of, link_of, number_of};
ghost use Rattle.pcap_records.specs.Record.{BeginsWithRecord, captured_length};
ghost use Rattle.capture_parts.specs.Dealt.{full_at};
ghost use Rattle.capture_parts.specs.Parts.{AreSplit};
ghost use Rattle.capture_parts.specs.Files.{order_of};
ghost use Rattle.capture_parts.specs.code.Standing.{IsDealt};
ghost use Rattle.capture_parts.specs.code.Counting.{IsFaultAt};
ghost use Rattle.capture_parts.specs.code.Dealing.{Deals, HasBegun, IsNext, OneGrows};
ghost use Rattle.capture_parts.specs.declared.part.Part.{Part};

use crate::fault::SplitFault;
use crate::header::{is_little, link_type};
use crate::pair::{Endpoints, PORTS, pair_of, part_of};
use crate::part::Part;
use byteorder::{BigEndian, LittleEndian};
use packet_heads::ethernet::TAGGED_HEADER;
use packet_heads::ipv4::LONGEST_HEADER;
use pcap_records::{RECORD_HEADER, captured_length};
use std::io::Write;

/// So many bytes of a packet name its endpoints: an Ethernet header with a VLAN tag, the longest IPv4 header and two
/// ports.
const FRONT: usize = TAGGED_HEADER + LONGEST_HEADER + PORTS;

// Contracts write the length of a record's header and such a front as a number.
const _: () = prove!(RECORD_HEADER + FRONT == 98);

/// What the dealer of a capture knows of the records that it has seen.
#[derive(Clone, Copy)]
pub(crate) struct Dealer {
    is_little: bool,
    link: u16,
    /// How many records were begun.
    number: u64,
    /// The pair and the part of the last of them, and how many of its bytes are still to come.
    pair: Option<Endpoints>,
    part: usize,
    left: u64,
}

impl Dealer {
    /// A dealer that begins behind a file header.
    fn behind(header: &[u8]) -> Dealer
        requires { 24 ≤ length header.now }
        ensures order { IfSome (format_of header.now) (λ format. order_of result.is_little ≡ number_of format.endian) }
        ensures link { IfSome (format_of header.now)
            (λ format. result.link ≡ link_of (number_of format.endian) header.now) }
        ensures number { result.number ≡ 0 }
        ensures part { result.part ≡ 0 }
        ensures left { result.left ≡ 0 }
    {
        Dealer {
            is_little: is_little(header),
            link: link_type(header),
            number: 0,
            pair: None,
            part: 0,
            left: 0,
        }
    }

    /// The dealer at the next record, whose packet has this front and of which so many bytes are to come. There are so
    /// many parts.
    fn at_next(&self, parts: usize, front: &[u8], left: u64) -> Dealer
        requires some { 0 < parts }
        requires room { self.now.number + 1 < 2 ^ 64 }
        ensures next { IsNext parts self.now result front.now }
        ensures within { result.part < parts }
        ensures left { result.left ≡ left }
    {
        let number = self.number + 1;
        let pair = pair_of(self.link, front);
        Dealer {
            is_little: self.is_little,
            link: self.link,
            number,
            pair,
            part: part_of(parts, number, pair),
            left,
        }
    }

    /// The captured length of the record whose header begins these bytes.
    fn captured_length(&self, unread: &[u8]) -> usize
        requires { 16 ≤ length unread.now }
        ensures length { result ≡ captured_length (order_of self.now.is_little) unread.now }
        ensures small { result < 2 ^ 32 }
    {
        if self.is_little {
            captured_length::<LittleEndian>(unread) as usize
        } else {
            captured_length::<BigEndian>(unread) as usize
        }
    }
}

/// A capture that is being dealt to parts.
#[derive(Drop)]
pub(crate) struct Dealing<W: Drop> {
    pub(crate) dealer: Dealer,
    pub(crate) parts: Vec<Part<W>>,
    /// How many bytes were dealt.
    pub(crate) count: u64,
    ghost in_range: { dealer.part < vec_len parts },
    // Each record has 16 bytes at least, so their number does not overflow.
    ghost few: { 16 * dealer.number ≤ count + dealer.left },
    ghost counted: { count < 2 ^ 64 },
}

impl<W: Write + Drop> Dealing<W> {
    /// Nothing is dealt yet of a capture that has this file header.
    pub(crate) fn behind(header: &[u8], parts: Vec<Part<W>>) -> Dealing<W>
        requires header { 24 ≤ length header.now }
        requires some { 0 < vec_len parts }
        ensures order { IfSome (format_of header.now)
            (λ format. order_of result.dealer.is_little ≡ number_of format.endian) }
        ensures link { IfSome (format_of header.now)
            (λ format. result.dealer.link ≡ link_of (number_of format.endian) header.now) }
        ensures number { result.dealer.number ≡ 0 }
        ensures left { result.dealer.left ≡ 0 }
        ensures parts { result.parts ≡ parts }
        ensures count { result.count ≡ 0 }
    {
        Dealing {
            dealer: Dealer::behind(header),
            parts,
            count: 0,
        }
    }

    /// Whether the bytes that were dealt end with a whole record.
    pub(crate) fn is_between(&self) -> bool
        ensures { Decides result (self.now.dealer.left ≡ 0) }
    {
        self.dealer.left == 0
    }

    /// Deals these bytes, but for those at their end that are too few to begin a record.
    pub(crate) fn deal(&mut self, unread: &[u8]) -> Result<usize, SplitFault>
        ensures within { IfOk result (λ n. n ≤ length unread.now) }
        ensures few { IfOk result (λ n. length unread.now < n + 98) }
        ensures rest { IfOk result (λ n. n < length unread.now → (self.new.dealer.left ≡ 0)
            × ¬ BeginsWithRecord (order_of self.new.dealer.is_little) (drop n unread.now)) }
        ensures dealt { IfOk result (λ n. Deals W.contents self.old.dealer self.new.dealer
            self.old.parts.items self.new.parts.items (take n unread.now)) }
        ensures count { IfOk result (λ n. self.new.count ≡ self.old.count + n) }
        ensures fault { IfErr result (IsFaultAt (self.old.count + length unread.now)) }
    {
        let mut at = 0;
        while at < unread.len() {
            if self.dealer.left == 0 && !self.begin(&unread[at..])? {
                break;
            }
            at += self.deal_more(&unread[at..])?;
        }
        Ok(at)
    }

    /// Deals what is there of the record that was begun.
    fn deal_more(&mut self, unread: &[u8]) -> Result<usize, SplitFault>
        requires some { 0 < length unread.now }
        requires begun { 0 < self.old.dealer.left }
        ensures count { IfOk result (λ n. n ≡ min self.old.dealer.left (length unread.now)) }
        ensures some { IfOk result (λ n. 0 < n) }
        ensures left { IfOk result
            (λ n. self.new.dealer ≡ record self.old.dealer { left = self.old.dealer.left - n }) }
        ensures grows { IfOk result (λ n. OneGrows W.contents self.old.parts.items self.new.parts.items
            self.old.dealer.part (take n unread.now) []
            (λ size. full_at size (length (take n unread.now)) self.old.dealer.pair)) }
        ensures sum { IfOk result (λ n. self.new.count ≡ self.old.count + n) }
        ensures fault { IfErr result (IsFaultAt (self.old.count + length unread.now)) }
    {
        let more = self.dealer.left.min(unread.len() as u64) as usize;
        let count = counted(self.count, more)?;
        self.give(self.dealer, &unread[..more])?;
        self.dealer.left -= more as u64;
        self.count = count;
        Ok(more)
    }

    /// Begins the record at the front of these bytes, if enough of it is there to tell its part.
    fn begin(&mut self, unread: &[u8]) -> Result<bool, SplitFault>
        requires { self.old.dealer.left ≡ 0 }
        ensures few { IfOk result (λ begun. begun ≡ false → (self.new.dealer ≡ self.old.dealer)
            × (self.new.parts.items ≡ self.old.parts.items) × (length unread.now < 98)
            × ¬ BeginsWithRecord (order_of self.old.dealer.is_little) unread.now) }
        ensures begun { IfOk result (λ begun. IsTrue begun → HasBegun W.contents self.old.dealer self.new.dealer
            self.old.parts.items self.new.parts.items unread.now) }
        ensures left { IfOk result (λ begun. IsTrue begun
            → self.new.dealer.left ≡ 16 + captured_length (order_of self.old.dealer.is_little) unread.now) }
        ensures count { self.new.count ≡ self.old.count }
        ensures fault { IfErr result (IsFaultAt 0) }
    {
        if unread.len() < RECORD_HEADER {
            return Ok(false);
        }
        let captured = self.dealer.captured_length(unread);
        let front = captured.min(FRONT);
        if unread.len() - RECORD_HEADER < front {
            return Ok(false);
        }
        let packet = &unread[RECORD_HEADER..RECORD_HEADER + front];
        let next = self.dealer.at_next(self.parts.len(), packet, (RECORD_HEADER + captured) as u64);
        self.give_number(next)?;
        self.dealer = next;
        Ok(true)
    }

    /// Gives the number of the record of this dealer to its part.
    fn give_number(&mut self, at: Dealer) -> Result<(), SplitFault>
        requires { at.part < vec_len self.old.parts }
        ensures dealer { self.new.dealer ≡ self.old.dealer }
        ensures parts { vec_len self.new.parts ≡ vec_len self.old.parts }
        ensures length { length self.old.parts.items ≡ vec_len self.old.parts }
        ensures count { self.new.count ≡ self.old.count }
        ensures fault { IfErr result (IsFaultAt 0) }
        ensures grows { OnOk result (OneGrows W.contents self.old.parts.items self.new.parts.items
            at.part [] (big_bytes 8 at.number) (λ size. None)) }
    {
        give_number(self.parts.as_mut_slice(), at.part, at.number)
    }

    /// Gives bytes of the record of this dealer to its part.
    fn give(&mut self, at: Dealer, bytes: &[u8]) -> Result<(), SplitFault>
        requires { at.part < vec_len self.old.parts }
        ensures dealer { self.new.dealer ≡ self.old.dealer }
        ensures count { self.new.count ≡ self.old.count }
        ensures fault { IfErr result (IsFaultAt 0) }
        ensures grows { OnOk result (OneGrows W.contents self.old.parts.items self.new.parts.items
            at.part bytes.now [] (λ size. full_at size (length bytes.now) at.pair)) }
    {
        give_bytes(self.parts.as_mut_slice(), at.part, bytes, at.pair)
    }

    /// Deals the bytes at the end of a capture, which hold no whole record.
    pub(crate) fn finish(&mut self, rest: &[u8]) -> Result<(), SplitFault>
        requires { 0 < length rest.now → self.old.dealer.left ≡ 0 }
        ensures fault { IfErr result (IsFaultAt 0) }
        ensures split { OnOk result ((first : List (Part W)) (bytes : List ℕ)
            → ¬ BeginsWithRecord (order_of self.old.dealer.is_little) rest.now
            → IsDealt W.contents self.old.dealer first self.old.parts.items bytes
            → AreSplit W.contents (order_of self.old.dealer.is_little) self.old.dealer.link (bytes ++ rest.now)
            first self.new.parts.items) }
    {
        if rest.is_empty() {
            return Ok(());
        }
        let header = RECORD_HEADER.min(rest.len());
        let packet = &rest[header..];
        let front = &packet[..FRONT.min(packet.len())];
        let next = self.dealer.at_next(self.parts.len(), front, 0);
        self.give_number(next)?;
        self.give(next, rest)
    }
}

/// So many bytes, and more.
fn counted(count: u64, more: usize) -> Result<u64, SplitFault>
    ensures sum { IfOk result (λ sum. sum ≡ count + more) }
    ensures fault { IfErr result (IsFaultAt (count + more)) }
{
    match count.checked_add(more as u64) {
        Some(sum) => Ok(sum),
        None => Err(SplitFault::TooLong),
    }
}

/// Gives the number of a record to a part.
fn give_number<W: Write + Drop>(
    parts: &mut [Part<W>],
    part: usize,
    number: u64,
) -> Result<(), SplitFault>
    requires { part < length parts.old }
    ensures count { length parts.new ≡ length parts.old }
    ensures fault { IfErr result (IsFaultAt 0) }
    ensures grows { OnOk result (OneGrows W.contents parts.old parts.new part [] (big_bytes 8 number) (λ size. None)) }
{
    match parts[part].take_number(number) {
        Ok(()) => Ok(()),
        Err(file) => Err(SplitFault::Write(part + 1, file)),
    }
}

/// Gives bytes of a record with this pair to a part.
fn give_bytes<W: Write + Drop>(
    parts: &mut [Part<W>],
    part: usize,
    bytes: &[u8],
    pair: Option<Endpoints>,
) -> Result<(), SplitFault>
    requires { part < length parts.old }
    ensures count { length parts.new ≡ length parts.old }
    ensures fault { IfErr result (IsFaultAt 0) }
    ensures grows { OnOk result (OneGrows W.contents parts.old parts.new part bytes.now []
        (λ size. full_at size (length bytes.now) pair)) }
{
    match parts[part].take_bytes(bytes, pair) {
        Ok(()) => Ok(()),
        Err(file) => Err(SplitFault::Write(part + 1, file)),
    }
}
