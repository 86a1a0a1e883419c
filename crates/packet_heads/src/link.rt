//! What stands before a record's datagram, by the link type of the capture.

ghost use Rattle.std.specs.Prelude.{◌≡◌, ◌+◌, ◌≤◌, drop, length, IfNone, IfSome};
ghost use Rattle.packet_heads.specs.code.Lines.{first_answer};
ghost use Rattle.packet_heads.specs.Link.{datagram_start};
ghost use Rattle.packet_heads.specs.code.Link.{raw_lines, link_lines};
ghost use Rattle.packet_heads.specs.code.Standing.{IsPassedOver};

use crate::ethernet;
use crate::packets::{Packet, Refusal, Skip};
use pcap_records::RAW_IP;

/// The version of IP whose datagrams are passed over.
const VERSION_6: u8 = 6;

/// Why a packet of raw IP is passed over, by its first byte; None where that is not known yet.
#[tactic(auto, unfolding(crate::specs::Ipv4::version))]
fn raw_passed_over(packet: &[u8]) -> Option<Packet>
    ensures answer { result ≡ first_answer (raw_lines packet.now) }
    ensures passed_over { IfSome result IsPassedOver }
{
    if packet.is_empty() {
        Some(Packet::Refused(Refusal::ShortIpv4))
    } else if packet[0] >> 4 == VERSION_6 {
        Some(Packet::Skipped(Skip::NotIpv4))
    } else {
        None
    }
}

/// Why a packet is passed over, by what stands before the datagram; None where the datagram begins in the packet.
pub(crate) fn passed_over(link: u16, packet: &[u8]) -> Option<Packet>
    ensures answer { result ≡ first_answer (link_lines link packet.now) }
    ensures passed_over { IfSome result IsPassedOver }
    ensures whole { IfNone result (datagram_start link packet.now ≤ length packet.now) }
{
    if link == RAW_IP {
        raw_passed_over(packet)
    } else {
        ethernet::passed_over(packet)
    }
}

/// Where the datagram begins in a packet that is passed on.
#[tactic(auto, using(crate::proofs::Headers::least))]
pub(crate) fn datagram_start(link: u16, packet: &[u8]) -> usize
    requires { datagram_start link packet.now ≤ length packet.now }
    ensures { result ≡ datagram_start link packet.now }
{
    if link == RAW_IP {
        0
    } else {
        ethernet::header_length(packet)
    }
}

/// The datagram that begins there, and what is captured behind it.
pub(crate) fn datagram(packet: &[u8], start: usize) -> &[u8]
    requires { start ≤ length packet.now }
    ensures datagram { result.now ≡ drop start packet.now }
    ensures len { start + length result.now ≡ length packet.now }
{
    &packet[start..]
}
