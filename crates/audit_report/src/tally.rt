ghost use Rattle.std.specs.Prelude.{◌≡◌, ◌+◌, ◌<◌, ◌^◌, if◌then◌else◌};
ghost use Rattle.audit_report.specs.CaptureLine.{is_segment, is_snapped, is_not_ipv4, is_fragment, is_not_tcp};
ghost use Rattle.audit_report.specs.CaptureLine.{is_refused};

use packet_heads::{Packet, Skip};

/// How many packets there are of each kind.
#[derive(Clone, Copy)]
pub(crate) struct Tally {
    pub(crate) segments: u64,
    pub(crate) snapped: u64,
    pub(crate) not_ipv4: u64,
    pub(crate) fragments: u64,
    pub(crate) not_tcp: u64,
    pub(crate) refused: u64,
}

impl Tally {
    pub(crate) const NONE: Tally = Tally {
        segments: 0,
        snapped: 0,
        not_ipv4: 0,
        fragments: 0,
        not_tcp: 0,
        refused: 0,
    };

    /// Counts one packet more.
    #[inline(always)]
    pub(crate) fn add(&mut self, packet: &Packet)
        requires segments { self.old.segments + 1 < 2 ^ 64 }
        requires snapped { self.old.snapped + 1 < 2 ^ 64 }
        requires not_ipv4 { self.old.not_ipv4 + 1 < 2 ^ 64 }
        requires fragments { self.old.fragments + 1 < 2 ^ 64 }
        requires not_tcp { self.old.not_tcp + 1 < 2 ^ 64 }
        requires refused { self.old.refused + 1 < 2 ^ 64 }
        ensures segments { self.new.segments ≡ self.old.segments + (if is_segment packet.now then 1 else 0) }
        ensures snapped { self.new.snapped ≡ self.old.snapped + (if is_snapped packet.now then 1 else 0) }
        ensures not_ipv4 { self.new.not_ipv4 ≡ self.old.not_ipv4 + (if is_not_ipv4 packet.now then 1 else 0) }
        ensures fragments { self.new.fragments ≡ self.old.fragments + (if is_fragment packet.now then 1 else 0) }
        ensures not_tcp { self.new.not_tcp ≡ self.old.not_tcp + (if is_not_tcp packet.now then 1 else 0) }
        ensures refused { self.new.refused ≡ self.old.refused + (if is_refused packet.now then 1 else 0) }
    {
        match packet {
            Packet::Segment(segment) => {
                self.segments += 1;
                if segment.snapped {
                    self.snapped += 1;
                }
            }
            Packet::Skipped(Skip::NotIpv4) => self.not_ipv4 += 1,
            Packet::Skipped(Skip::Fragment) => self.fragments += 1,
            Packet::Skipped(Skip::NotTcp) => self.not_tcp += 1,
            Packet::Refused(_) => self.refused += 1,
        }
    }
}
