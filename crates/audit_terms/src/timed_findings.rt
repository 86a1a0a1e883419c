ghost use Rattle.std.specs.Prelude.{◌≡◌, length, map, position, take};
ghost use Rattle.audit_terms.specs.Finding.{stops, upto_stop};
ghost use Rattle.audit_terms.specs.code.TimedFindings.{finding_in, timed_by};

use crate::findings::Finding;
use crate::frames::Frame;
use crate::kinds::Kind;
use crate::places::Place;
use crate::sides::Side;

/// A finding, with the record and the time of its frame: what a line of a report tells. Its fields are those of
/// [`Finding`], so that it takes no more than 32 bytes.
#[derive(Clone, Copy)]
pub struct TimedFinding {
    pub place: Place,
    pub value: i64,
    /// When the record of the frame's last byte was captured, in nanoseconds.
    pub nanos: u64,
    /// The number of that record.
    pub rec: u32,
    pub kind: Kind,
    pub side: Side,
}

// A hostile capture shows something at each of its frames.
const _: () = prove!(size_of::<TimedFinding>() <= 32);

impl TimedFinding {
    /// What a frame shows.
    pub fn of(finding: &Finding, frame: &Frame) -> Self
        ensures { result ≡ timed_by frame.now finding.now }
    {
        TimedFinding {
            place: finding.place,
            value: finding.value,
            nanos: frame.nanos,
            rec: frame.rec,
            kind: finding.kind,
            side: finding.side,
        }
    }

    /// The finding itself.
    pub fn finding(&self) -> Finding
        ensures { result ≡ finding_in self.now }
    {
        Finding {
            place: self.place,
            side: self.side,
            kind: self.kind,
            value: self.value,
        }
    }

    /// Is it a connection error (RFC 9113, 5.4.1)?
    fn stops(&self) -> bool
        ensures { result ≡ stops (finding_in self.now) }
    {
        self.kind.is_connection_error()
    }
}

/// The index of the first finding that stops.
fn first_stop_index(found: &[TimedFinding]) -> Option<usize>
    ensures { result ≡ position (λ one. stops (finding_in one)) found.now }
{
    found.iter().position(|one| one.stops())
}

/// Drops the findings after the first that stops.
pub fn cut_timed_at_stop(found: &mut Vec<TimedFinding>)
    ensures { found.new.items ≡ take (length (upto_stop (map finding_in found.old.items))) found.old.items }
{
    if let Some(last) = first_stop_index(found) {
        found.truncate(last + 1);
    }
}
