//! The words of packets that are refused or passed over, and how faults print.

use crate::Answer;
use audit_report::capture_lines;
use h2audit::AuditFault;
use packet_heads::{Endpoint, Packet, Refusal, Segment, Skip};
use pcap_records::{Nanos, PcapFault};
use std::alloc::{AllocError, Global};
use tcp_streams::Stray;

const CLIENT: Endpoint = Endpoint {
    address: 0x0a000001,
    port: 40000,
};

const SERVER: Endpoint = Endpoint {
    address: 0x0a000002,
    port: 80,
};

/// A segment of the server with no payload.
fn segment(rec: u32, snapped: bool) -> Packet {
    Packet::Segment(Segment {
        rec,
        nanos: Nanos::of(0),
        from: SERVER,
        to: CLIENT,
        seq: 0,
        syn: false,
        ack: true,
        lo: 0,
        hi: 0,
        snapped,
    })
}

const CAPTURE_LINES: &str =
    "capture records 13 segments 2 snapped 1 not-ipv4 1 fragments 1 not-tcp 1 refused 8
record 1 refused short-ethernet
record 3 refused short-ipv4
record 4 refused bad-version
record 5 refused bad-header-length
record 6 refused bad-total-length
record 7 refused past-end
record 8 fragment
record 10 refused short-tcp
record 12 refused bad-data-offset
record 14 cut
unopened 10.0.0.2:80 10.0.0.1:40000 segments 2
";

/// One packet of each kind, in record order.
fn packets() -> [Packet; 13] {
    [
        Packet::Refused(Refusal::ShortEthernet),
        Packet::Skipped(Skip::NotIpv4),
        Packet::Refused(Refusal::ShortIpv4),
        Packet::Refused(Refusal::BadVersion),
        Packet::Refused(Refusal::BadHeaderLength),
        Packet::Refused(Refusal::BadTotalLength),
        Packet::Refused(Refusal::PastEnd),
        Packet::Skipped(Skip::Fragment),
        Packet::Skipped(Skip::NotTcp),
        Packet::Refused(Refusal::ShortTcp),
        segment(11, true),
        Packet::Refused(Refusal::BadDataOffset),
        segment(13, false),
    ]
}

/// A pair of endpoints that the capture did not see open.
fn strays(alloc: Global) -> Result<Vec<Stray>, AllocError> {
    let stray = Stray {
        from: SERVER,
        to: CLIENT,
        segments: 2,
    };
    Vec::from_slice(alloc, &[stray])
}

/// The lines of a capture of these packets, and of the strays.
fn capture_text(alloc: Global) -> Result<Vec<u8>, AllocError> {
    let strays = strays(alloc)?;
    capture_lines(alloc, Some(14), &packets(), strays)
}

/// Which packets are counted where, and which have a line of their own.
pub fn each_kind_of_packet(alloc: Global) -> Answer {
    let text = capture_text(alloc)?;
    Ok(text.as_slice() == CAPTURE_LINES.as_bytes())
}

/// Each fault of a run and each refusal of a capture by its number.
pub fn printed_faults(alloc: Global) -> Answer {
    let faults = [
        AuditFault::Pcap(PcapFault::LinkType),
        AuditFault::Read,
        AuditFault::Write,
        AuditFault::OutOfMemory,
    ];
    let refusals = [
        PcapFault::ShortHeader,
        PcapFault::BadMagic,
        PcapFault::BadVersion,
        PcapFault::LinkType,
        PcapFault::TooLarge,
        PcapFault::OutOfMemory,
    ];
    let mut text = String::new(alloc);
    for fault in faults {
        write!(text, "{fault}, ")?;
    }
    for refusal in refusals {
        write!(text, "{refusal}, ")?;
    }
    let want = "fault 1, fault 2, fault 3, fault 4, \
        fault 1, fault 2, fault 3, fault 4, fault 5, fault 6, ";
    Ok(text.as_str() == want)
}
