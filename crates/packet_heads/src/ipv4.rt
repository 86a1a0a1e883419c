//! IPv4 datagrams (RFC 791, 3.1).

ghost use Rattle.std.specs.Prelude.{◌≡◌, ◌*◌, ◌<◌, ◌≤◌, length, IfNone, IfSome};
ghost use Rattle.packet_heads.specs.Ipv4.{version, header_words, header_length, total_length, is_fragment, protocol};
ghost use Rattle.packet_heads.specs.Ipv4.{source_address, destination_address, datagram_end, segment_bytes, is_snapped};
ghost use Rattle.packet_heads.specs.code.Ipv4.{ipv4_lines, HasHeader};
ghost use Rattle.packet_heads.specs.code.Lines.{first_answer};
ghost use Rattle.packet_heads.specs.code.Standing.{IsPassedOver};

use crate::packets::{Packet, Refusal, Skip};
use byteorder::{BigEndian, ByteOrder};

/// The length of the shortest header, in bytes.
pub const IPV4_HEADER: usize = 20;

/// The length of the longest header, in bytes.
pub const LONGEST_HEADER: usize = 60;

/// The version of IPv4.
pub const VERSION_4: u8 = 4;

/// The protocol number of TCP.
pub const TCP_PROTOCOL: u8 = 6;

/// More Fragments and Fragment Offset, in the 16 bits of flags and offset.
const FRAGMENT: u16 = 0x3fff;

/// The version of IP.
#[tactic(auto, unfolding(crate::specs::Ipv4::version))]
pub fn version(datagram: &[u8]) -> u8
    requires { 20 ≤ length datagram.now }
    ensures { result ≡ version datagram.now }
{
    datagram[0] >> 4
}

#[tactic(auto, unfolding(crate::specs::Ipv4::header_words))]
fn header_words(datagram: &[u8]) -> u8
    requires { 20 ≤ length datagram.now }
    ensures words { result ≡ header_words datagram.now }
    ensures small { result < 16 }
{
    datagram[0] & 0x0f
}

/// The length of the header in bytes, options included.
pub fn header_length(datagram: &[u8]) -> usize
    requires { 20 ≤ length datagram.now }
    ensures length { result ≡ header_length datagram.now }
    ensures small { result < 64 }
{
    4 * header_words(datagram) as usize
}

/// The length of header and data.
#[tactic(auto, unfolding(crate::specs::Ipv4::total_length))]
fn total_length(datagram: &[u8]) -> usize
    requires { 20 ≤ length datagram.now }
    ensures { result ≡ total_length datagram.now }
{
    BigEndian::read_u16(&datagram[2..]) as usize
}

#[tactic(auto, unfolding(crate::specs::Ipv4::is_fragment))]
fn is_fragment(datagram: &[u8]) -> bool
    requires { 20 ≤ length datagram.now }
    ensures { result ≡ is_fragment datagram.now }
{
    BigEndian::read_u16(&datagram[6..]) & FRAGMENT != 0
}

/// The number of the protocol that the datagram carries.
#[tactic(auto, unfolding(crate::specs::Ipv4::protocol))]
pub fn protocol(datagram: &[u8]) -> u8
    requires { 20 ≤ length datagram.now }
    ensures { result ≡ protocol datagram.now }
{
    datagram[9]
}

/// The address of the sender.
#[tactic(auto, unfolding(crate::specs::Ipv4::source_address))]
pub fn source_address(datagram: &[u8]) -> u32
    requires { 20 ≤ length datagram.now }
    ensures { result ≡ source_address datagram.now }
{
    BigEndian::read_u32(&datagram[12..])
}

/// The address of the receiver.
#[tactic(auto, unfolding(crate::specs::Ipv4::destination_address))]
pub fn destination_address(datagram: &[u8]) -> u32
    requires { 20 ≤ length datagram.now }
    ensures { result ≡ destination_address datagram.now }
{
    BigEndian::read_u32(&datagram[16..])
}

/// Where the datagram's captured bytes end.
pub(crate) fn end(datagram: &[u8]) -> usize
    requires { 20 ≤ length datagram.now }
    ensures end { result ≡ datagram_end datagram.now }
    ensures within { result ≤ length datagram.now }
{
    let total = total_length(datagram);
    if total == 0 {
        datagram.len()
    } else {
        total.min(datagram.len())
    }
}

/// The captured bytes behind the header.
pub(crate) fn segment(datagram: &[u8]) -> &[u8]
    requires { HasHeader datagram.now }
    ensures { result.now ≡ segment_bytes datagram.now }
{
    &datagram[header_length(datagram)..end(datagram)]
}

/// Was less captured than the datagram holds? `partial` says so of the whole packet.
pub(crate) fn is_snapped(partial: bool, datagram: &[u8]) -> bool
    requires { 20 ≤ length datagram.now }
    ensures { result ≡ is_snapped partial datagram.now }
{
    let total = total_length(datagram);
    total > datagram.len() || total == 0 && partial
}

/// Why the packet is passed over, by this header; None where a TCP segment follows it.
pub(crate) fn passed_over(partial: bool, datagram: &[u8]) -> Option<Packet>
    ensures answer { result ≡ first_answer (ipv4_lines partial datagram.now) }
    ensures passed_over { IfSome result IsPassedOver }
    ensures whole { IfNone result (HasHeader datagram.now) }
{
    if datagram.len() < IPV4_HEADER {
        return Some(Packet::Refused(Refusal::ShortIpv4));
    }
    if version(datagram) != VERSION_4 {
        return Some(Packet::Refused(Refusal::BadVersion));
    }
    let header = header_length(datagram);
    if header < IPV4_HEADER || header > datagram.len() {
        return Some(Packet::Refused(Refusal::BadHeaderLength));
    }
    let total = total_length(datagram);
    if total != 0 && total < header {
        return Some(Packet::Refused(Refusal::BadTotalLength));
    }
    if total > datagram.len() && !partial {
        return Some(Packet::Refused(Refusal::PastEnd));
    }
    if is_fragment(datagram) {
        return Some(Packet::Skipped(Skip::Fragment));
    }
    if protocol(datagram) != TCP_PROTOCOL {
        return Some(Packet::Skipped(Skip::NotTcp));
    }
    None
}
