//! TCP segments (RFC 9293, 3.1).

ghost use Rattle.std.specs.Prelude.{◌≡◌, ◌*◌, ◌<◌, ◌≤◌, length, IfNone, IfSome};
ghost use Rattle.packet_heads.specs.Tcp.{source_port, destination_port, sequence_number, data_offset, syn, ack};
ghost use Rattle.packet_heads.specs.Tcp.{header_length};
ghost use Rattle.packet_heads.specs.code.Tcp.{tcp_lines, HasHeader};
ghost use Rattle.packet_heads.specs.code.Lines.{first_answer};
ghost use Rattle.packet_heads.specs.code.Standing.{IsPassedOver};

use crate::packets::{Packet, Refusal};
use byteorder::{BigEndian, ByteOrder};

/// The shortest header, in bytes.
const SHORTEST: usize = 20;

const SYN: u8 = 2;

const ACK: u8 = 16;

/// The port of the sender.
#[tactic(auto, unfolding(crate::specs::Tcp::source_port))]
pub fn source_port(segment: &[u8]) -> u16
    requires { 2 ≤ length segment.now }
    ensures { result ≡ source_port segment.now }
{
    BigEndian::read_u16(segment)
}

/// The port of the receiver.
#[tactic(auto, unfolding(crate::specs::Tcp::destination_port))]
pub fn destination_port(segment: &[u8]) -> u16
    requires { 4 ≤ length segment.now }
    ensures { result ≡ destination_port segment.now }
{
    BigEndian::read_u16(&segment[2..])
}

#[tactic(auto, unfolding(crate::specs::Tcp::sequence_number))]
pub(crate) fn sequence_number(segment: &[u8]) -> u32
    requires { 20 ≤ length segment.now }
    ensures { result ≡ sequence_number segment.now }
{
    BigEndian::read_u32(&segment[4..])
}

#[tactic(auto, unfolding(crate::specs::Tcp::data_offset))]
fn data_offset(segment: &[u8]) -> u8
    requires { 20 ≤ length segment.now }
    ensures offset { result ≡ data_offset segment.now }
    ensures small { result < 16 }
{
    segment[12] >> 4
}

/// The length of the header, options included.
pub(crate) fn header_length(segment: &[u8]) -> usize
    requires { 20 ≤ length segment.now }
    ensures length { result ≡ header_length segment.now }
    ensures small { result < 64 }
{
    4 * data_offset(segment) as usize
}

#[tactic(auto, using(crate::proofs::Bits::bit_1_by_mask), unfolding(crate::specs::Tcp::syn))]
pub(crate) fn syn(segment: &[u8]) -> bool
    requires { 20 ≤ length segment.now }
    ensures { result ≡ syn segment.now }
{
    segment[13] & SYN != 0
}

#[tactic(auto, using(crate::proofs::Bits::bit_4_by_mask), unfolding(crate::specs::Tcp::ack))]
pub(crate) fn ack(segment: &[u8]) -> bool
    requires { 20 ≤ length segment.now }
    ensures { result ≡ ack segment.now }
{
    segment[13] & ACK != 0
}

/// Why the packet is passed over, by this header; None where the header is whole.
pub(crate) fn passed_over(segment: &[u8]) -> Option<Packet>
    ensures answer { result ≡ first_answer (tcp_lines segment.now) }
    ensures passed_over { IfSome result IsPassedOver }
    ensures whole { IfNone result (HasHeader segment.now) }
{
    if segment.len() < SHORTEST {
        return Some(Packet::Refused(Refusal::ShortTcp));
    }
    let header = header_length(segment);
    if header < SHORTEST || header > segment.len() {
        return Some(Packet::Refused(Refusal::BadDataOffset));
    }
    None
}
