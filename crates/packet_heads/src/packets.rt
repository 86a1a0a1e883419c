ghost use Rattle.std.specs.Prelude.{◌≡◌, IfNone, IfSome, Some, slice_get};
ghost use Rattle.packet_heads.specs.code.Standing.{IsPassedOver};

use pcap_records::Nanos;

/// An IPv4 address and a TCP port.
#[derive(Clone, Copy, Debug, PartialEq, Eq, PartialOrd, Ord)]
pub struct Endpoint {
    /// Its four bytes as a number, the first one highest.
    pub address: u32,
    pub port: u16,
}

/// A TCP segment of a capture. Its payload stands in the capture at `lo..hi`.
///
/// What needs no alignment stands last, so that it takes 44 bytes.
#[derive(Clone, Copy)]
pub struct Segment {
    /// When it was captured, in nanoseconds.
    pub nanos: Nanos,
    pub from: Endpoint,
    pub to: Endpoint,
    /// The offset in the capture at which its payload begins, in bytes.
    pub lo: u32,
    /// The offset at which it ends.
    pub hi: u32,
    /// The number of its record, from 1.
    pub rec: u32,
    /// The sequence number (RFC 9293, 3.1).
    pub seq: u32,
    pub syn: bool,
    pub ack: bool,
    /// Were fewer bytes captured than the datagram holds?
    pub snapped: bool,
}

/// Why a packet is passed over.
#[derive(Clone, Copy)]
pub enum Skip {
    /// A frame of another type than IPv4, or one with two VLAN tags; raw IP of version 6.
    NotIpv4,
    /// A part of a datagram, by its offset or by More Fragments (RFC 791, 3.1).
    Fragment,
    /// Its protocol is another than TCP.
    NotTcp,
}

/// What is wrong with a packet that cannot be read.
#[derive(Clone, Copy)]
pub enum Refusal {
    /// Fewer bytes were captured than an Ethernet header has: 14, or 18 with a VLAN tag.
    ShortEthernet,
    /// Fewer than 20 bytes of the datagram were captured, the least IPv4 header.
    ShortIpv4,
    /// The version is not 4.
    BadVersion,
    /// The header is said to be shorter than 20 bytes, or longer than what was captured.
    BadHeaderLength,
    /// The total length is less than the header's, and not 0.
    BadTotalLength,
    /// The total length goes past the captured bytes of a packet that was captured whole.
    PastEnd,
    /// Fewer than 20 bytes of the segment were captured, the least TCP header.
    ShortTcp,
    /// The data offset is less than 20 bytes, or more than what was captured of the segment.
    BadDataOffset,
}

impl Refusal {
    ghost use Rattle.std.specs.Prelude.{◌≡◌};
    ghost use Rattle.packet_heads.specs.Refusal.{refusal_name};

    /// What a report calls it.
    pub fn name(self) -> &'static str
        ensures { result.now ≡ refusal_name self }
    {
        match self {
            Refusal::ShortEthernet => "short-ethernet",
            Refusal::ShortIpv4 => "short-ipv4",
            Refusal::BadVersion => "bad-version",
            Refusal::BadHeaderLength => "bad-header-length",
            Refusal::BadTotalLength => "bad-total-length",
            Refusal::PastEnd => "past-end",
            Refusal::ShortTcp => "short-tcp",
            Refusal::BadDataOffset => "bad-data-offset",
        }
    }
}

/// What a record holds.
#[derive(Clone, Copy)]
pub enum Packet {
    Segment(Segment),
    Skipped(Skip),
    Refused(Refusal),
}

const _: () = prove!(size_of::<Segment>() == 44);

/// The segment of an index, where it lies, if the packet there is one.
pub fn segment_at(packets: &[Packet], index: usize) -> Option<&Segment>
    ensures some { IfSome result (λ s. slice_get packets.now index ≡ Some (Packet.Segment s.now)) }
    ensures none { IfNone result (IfSome (slice_get packets.now index) IsPassedOver) }
{
    match packets.get(index)? {
        Packet::Segment(segment) => Some(segment),
        Packet::Skipped(_) => None,
        Packet::Refused(_) => None,
    }
}
