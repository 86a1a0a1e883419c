//! The plain pass over the frames of a connection, with all that it says.

ghost use Rattle.std.specs.Prelude.{◌≡◌, IfOk, map};
ghost use Rattle.audit_terms.specs.Pass.{pass};
ghost use Rattle.audit_terms.specs.code.TimedFindings.{finding_in};
ghost use Rattle.audit_terms.specs.code.runs.Orderly.{IsOrderly};

use crate::found_passes::FoundPass;
use audit_terms::laws::streams_are_those_met;
use audit_terms::{Finding, Frame, TimedFinding, cut_at_stop};
use std::alloc::{AllocError, Global};

/// All findings of a connection's frames in capture order, of every kind, up to and including the first connection
/// error (RFC 9113, 5.4.1).
pub fn one_pass(alloc: Global, frames: &[Frame]) -> Result<Vec<Finding>, AllocError>
    requires { IsOrderly frames.now }
    ensures { IfOk result (λ found. found.items ≡ pass frames.now) }
{
    streams_are_those_met();
    let mut machine = FoundPass::begin(alloc, true);
    machine.meet_all(alloc, frames)?;
    let mut found = untimed(alloc, machine.found.as_slice())?;
    cut_at_stop(&mut found);
    Ok(found)
}

/// The findings alone.
fn untimed(alloc: Global, timed: &[TimedFinding]) -> Result<Vec<Finding>, AllocError>
    ensures { IfOk result (λ found. found.items ≡ map finding_in timed.now) }
{
    let mut found = Vec::with_capacity(alloc, timed.len())?;
    for one in timed {
        found.push(one.finding())?;
    }
    Ok(found)
}
