//! Ethernet frames (RFC 894), with one VLAN tag or none (IEEE 802.1Q).

ghost use Rattle.std.specs.Prelude.{◌≡◌, ◌≤◌, length, IfNone, IfSome};
ghost use Rattle.packet_heads.specs.Ethernet.{is_tagged, header_length, ether_type};
ghost use Rattle.packet_heads.specs.code.Link.{ethernet_lines};
ghost use Rattle.packet_heads.specs.code.Lines.{first_answer};
ghost use Rattle.packet_heads.specs.code.Standing.{IsPassedOver};

use crate::packets::{Packet, Refusal, Skip};
use byteorder::{BigEndian, ByteOrder};

/// The length of a header without a tag.
const ETHERNET_HEADER: usize = 14;

/// The length of a header with a tag.
pub const TAGGED_HEADER: usize = 18;

/// The type that says that a VLAN tag follows.
const VLAN_TAG: u16 = 0x8100;

/// The type of an IPv4 datagram.
const IPV4: u16 = 0x0800;

#[tactic(auto, unfolding(crate::specs::Ethernet::is_tagged))]
fn is_tagged(frame: &[u8]) -> bool
    requires { 14 ≤ length frame.now }
    ensures { result ≡ is_tagged frame.now }
{
    BigEndian::read_u16(&frame[12..]) == VLAN_TAG
}

/// The length of the header, a tag included.
#[tactic(auto, unfolding(crate::specs::Ethernet::header_length))]
pub fn header_length(frame: &[u8]) -> usize
    requires { 14 ≤ length frame.now }
    ensures length { result ≡ header_length frame.now }
    ensures least { 14 ≤ result }
    ensures most { result ≤ 18 }
{
    if is_tagged(frame) {
        TAGGED_HEADER
    } else {
        ETHERNET_HEADER
    }
}

/// What stands behind a header of this length.
#[tactic(auto, unfolding(crate::specs::Ethernet::ether_type))]
fn ether_type(frame: &[u8], header: usize) -> u16
    requires is { header ≡ header_length frame.now }
    requires least { 14 ≤ header }
    requires whole { header ≤ length frame.now }
    ensures { result ≡ ether_type frame.now }
{
    BigEndian::read_u16(&frame[header - 2..])
}

/// Why the packet of a frame is passed over, by the header; None where an IPv4 datagram follows it.
#[tactic(auto, using(crate::proofs::Headers::least))]
pub(crate) fn passed_over(frame: &[u8]) -> Option<Packet>
    ensures answer { result ≡ first_answer (ethernet_lines frame.now) }
    ensures passed_over { IfSome result IsPassedOver }
    ensures whole { IfNone result (header_length frame.now ≤ length frame.now) }
{
    if frame.len() < ETHERNET_HEADER {
        return Some(Packet::Refused(Refusal::ShortEthernet));
    }
    let header = header_length(frame);
    if frame.len() < header {
        return Some(Packet::Refused(Refusal::ShortEthernet));
    }
    if ether_type(frame, header) != IPV4 {
        return Some(Packet::Skipped(Skip::NotIpv4));
    }
    None
}
