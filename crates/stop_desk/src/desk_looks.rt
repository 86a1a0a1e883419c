//! The looks of a job at the stop of its connection.

ghost use Rattle.std.specs.Prelude.{◌≡◌};
ghost use Rattle.stop_desk.specs.code.Desk.{IsConnection};

use crate::desks::Desk;
use crate::passes::Pass;
use audit_terms::{Finding, Look, Place};

/// Looks at the desk, for one connection. It owns the pass while a job runs.
#[derive(Drop)]
pub(crate) struct DeskLook<'a> {
    pub(crate) pass: Pass,
    pub(crate) desk: &'a Desk,
    pub(crate) connection: usize,
    ghost own: { pass.desk ≡ desk.now.id },
    ghost there: { IsConnection desk.now.id connection },
}

impl Look for DeskLook<'_> {
    ghost use Rattle.stop_desk.specs.code.Calls.{IsLook};

    ghost answers = { λ before found answer after. (after.connection ≡ before.connection)
        × (after.desk.now ≡ before.desk.now) × IsLook before.connection before.pass answer after.pass };

    fn look(&mut self, _found: &[Finding]) -> Option<Place> {
        self.pass.look(self.desk, self.connection)
    }
}
