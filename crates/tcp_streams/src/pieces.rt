ghost use Rattle.std.specs.Prelude.{◌≡◌, ◌+◌, ◌-◌, ◌%◌, ◌<◌, ◌≤◌, ◌^◌, if◌then◌else◌};
ghost use Rattle.tcp_streams.specs.code.Interval.{PayloadsFit, member_piece, piece, stretch};
ghost use Rattle.tcp_streams.specs.Members.{is_sent_by};

use crate::interval::{END_OF_OFFSETS, Interval};
use crate::started_side::StartedSide;
use audit_terms::Side;
use packet_heads::{Segment, segment_at};

/// Sequence numbers wrap at this number (RFC 9293, 3.4).
const MODULUS: u64 = 0x1_0000_0000;

/// The piece of a member, if it is the side's.
pub(crate) fn piece_of_member(of: &StartedSide<'_>, member: u32) -> Option<Interval>
    requires { PayloadsFit of.now.packets.now }
    ensures { result ≡ member_piece of.now member }
{
    let segment = segment_at(of.packets, member.saturating_sub(1) as usize)?;
    if is_sent_by(of, segment) {
        piece_of(of.initial_number, segment)
    } else {
        None
    }
}

/// Is the segment the side's? The opener's segments are the client's.
fn is_sent_by(of: &StartedSide<'_>, segment: &Segment) -> bool
    ensures { result ≡ is_sent_by of.now.connection.now of.now.side segment.now }
{
    let is_openers = segment.from == of.connection.client;
    match of.side {
        Side::Client => is_openers,
        Side::Server => !is_openers,
    }
}

/// The offsets that a segment's payload covers, of those that count.
pub(crate) fn piece_of(initial_number: u32, segment: &Segment) -> Option<Interval>
    requires payload { segment.now.lo ≤ segment.now.hi }
    requires short { segment.now.hi ≤ 2 ^ 31 }
    ensures { result ≡ piece initial_number segment.now }
{
    let start = start_of(initial_number, segment.seq, segment.syn);
    let upto = start + (segment.hi - segment.lo) as u64;
    let end = END_OF_OFFSETS as u64;
    if start < end {
        stretch(segment, 0, start, upto.min(end))
    } else {
        stretch(segment, MODULUS - start, 0, upto.saturating_sub(MODULUS))
    }
}

/// The offset of the first payload byte.
fn start_of(initial_number: u32, seq: u32, syn: bool) -> u64
    ensures start { result ≡ (seq + (if syn then 1 else 0) + (2 ^ 32 - 1 - initial_number)) % 2 ^ 32 }
    ensures within { result < 2 ^ 32 }
{
    (seq as u64 + u64::from(syn) + (MODULUS - 1 - initial_number as u64)) % MODULUS
}

/// The offsets from one up to another, from the payload byte `skipped` on, if there are any.
fn stretch(segment: &Segment, skipped: u64, from: u64, upto: u64) -> Option<Interval>
    requires index { from < upto → segment.now.lo + skipped < 2 ^ 32 }
    requires upto { upto ≤ 2 ^ 31 }
    ensures { result ≡ stretch segment.now skipped from upto }
{
    if from < upto {
        Some(Interval {
            from: from as u32,
            upto: upto as u32,
            index: segment.lo + skipped as u32,
            rec: segment.rec,
            nanos: segment.nanos.get(),
        })
    } else {
        None
    }
}
