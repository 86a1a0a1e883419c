//! A record and a time, spelled once for all lines that have them: those of one frame, and of all frames that end in
//! one record.

ghost use Rattle.std.specs.Prelude.{◌≡◌, ◌+◌, ◌≤◌, drop, length};
ghost use Rattle.audit_report.specs.code.Findings.{IsSpelled, moment_text};

use crate::lines::{LINE_ROOM, put_field};

/// A record and a time, and both as a line has them.
#[derive(Drop)]
pub(crate) struct Moment {
    pub(crate) rec: u32,
    pub(crate) nanos: u64,
    /// The spelling, from index `begin` on.
    pub(crate) spelled: [u8; LINE_ROOM],
    pub(crate) begin: usize,
}

impl Moment {
    /// Record 0 and time 0.
    pub(crate) fn first() -> Moment
        ensures { IsSpelled result }
    {
        let mut spelled = [0; LINE_ROOM];
        let begin = spell(&mut spelled, 0, 0);
        Moment {
            rec: 0,
            nanos: 0,
            spelled,
            begin,
        }
    }

    /// Goes to a record and a time, which are spelled anew where one of them is another.
    pub(crate) fn go_to(&mut self, rec: u32, nanos: u64)
        requires { IsSpelled self.old }
        ensures spelled { IsSpelled self.new }
        ensures rec { self.new.rec ≡ rec }
        ensures nanos { self.new.nanos ≡ nanos }
    {
        if self.rec != rec || self.nanos != nanos {
            self.begin = spell(&mut self.spelled, rec, nanos);
            self.rec = rec;
            self.nanos = nanos;
        }
    }

    /// Both, as a line has them.
    pub(crate) fn text(&self) -> &[u8]
        requires { IsSpelled self.now }
        ensures text { result.now ≡ moment_text self.now.rec self.now.nanos }
        ensures short { length result.now ≤ 54 }
    {
        &self.spelled[self.begin..]
    }
}

/// Puts a record and a time at the end of a line, and returns where they begin.
fn spell(line: &mut [u8; LINE_ROOM], rec: u32, nanos: u64) -> usize
    ensures begins { (result ≤ 512) × (512 ≤ result + 54) }
    ensures put { drop result line.new ≡ moment_text rec nanos }
{
    let end = put_field(line, LINE_ROOM, " time ", nanos);
    put_field(line, end, " record ", rec as u64)
}
