//! From a record to what it holds.

ghost use Rattle.std.specs.Prelude.{◌≡◌, ◌+◌, ◌^◌, ◌<◌, ◌≤◌, length, IsTrue};
ghost use Rattle.pcap_records.specs.LinkType.{is_read};
ghost use Rattle.packet_heads.specs.Decision.{decision_on, segment_of, is_partial};
ghost use Rattle.packet_heads.specs.Ipv4.{segment_bytes};
ghost use Rattle.packet_heads.specs.code.Ipv4 as ipv4_code;
ghost use Rattle.packet_heads.specs.code.Tcp as tcp_code;
ghost use Rattle.packet_heads.specs.code.Standing.{StandsIn};

use crate::packets::{Endpoint, Packet, Segment};
use crate::{ipv4, link, tcp};
use pcap_records::Record;

/// The segment in a datagram whose headers are whole, and which begins at this offset of the capture.
fn segment_of(number: u32, row: &Record, partial: bool, at: usize, datagram: &[u8]) -> Segment
    requires partial_is { partial ≡ is_partial row.now }
    requires place { at + length datagram.now < 2 ^ 32 }
    requires datagram { ipv4_code.HasHeader datagram.now }
    requires segment { tcp_code.HasHeader (segment_bytes datagram.now) }
    ensures segment { result ≡ segment_of number row.now at datagram.now }
    ensures from { at ≤ result.lo }
    ensures payload { result.lo ≤ result.hi }
    ensures upto { result.hi ≤ at + length datagram.now }
{
    let segment = ipv4::segment(datagram);
    Segment {
        rec: number,
        nanos: row.nanos,
        from: Endpoint {
            address: ipv4::source_address(datagram),
            port: tcp::source_port(segment),
        },
        to: Endpoint {
            address: ipv4::destination_address(datagram),
            port: tcp::destination_port(segment),
        },
        seq: tcp::sequence_number(segment),
        syn: tcp::syn(segment),
        ack: tcp::ack(segment),
        lo: (at + ipv4::header_length(datagram) + tcp::header_length(segment)) as u32,
        hi: (at + ipv4::end(datagram)) as u32,
        snapped: ipv4::is_snapped(partial, datagram),
    }
}

/// What a record with these captured bytes holds: the first line of the table that applies.
///
/// `link` is the link type of the capture, 1 (Ethernet) or 101 (raw IP); `number` is the record's.
// In line, since it is called once, for each record: as a call what it decides was copied.
#[inline(always)]
#[tactic(auto, using(crate::proofs::Headers::stands_anywhere))]
pub(crate) fn decision_on(link: u16, number: u32, row: &Record, packet: &[u8]) -> Packet
    requires linked { IsTrue (is_read link) }
    requires captured { length packet.now ≡ row.now.length }
    requires place { row.now.start + row.now.length < 2 ^ 32 }
    ensures decided { result ≡ decision_on link number row.now packet.now }
    ensures placed { StandsIn number row.now result }
{
    if let Some(other) = link::passed_over(link, packet) {
        return other;
    }
    let start = link::datagram_start(link, packet);
    let datagram = link::datagram(packet, start);
    let partial = row.length < row.original;
    if let Some(other) = ipv4::passed_over(partial, datagram) {
        return other;
    }
    if let Some(other) = tcp::passed_over(ipv4::segment(datagram)) {
        return other;
    }
    let at = row.start as usize + start;
    Packet::Segment(segment_of(number, row, partial, at, datagram))
}
