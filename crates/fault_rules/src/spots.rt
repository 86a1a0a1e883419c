//! Where a finding stands before its rank is known.

ghost use Rattle.std.specs.Prelude.{◌≡◌, ◌-◌, ◌^◌, ◌<◌, ◌≤◌, ◌++◌, pos, OnOk};
ghost use Rattle.audit_terms.specs.Finding.{finding_at, say};
ghost use Rattle.audit_terms.specs.code.runs.Orderly.{IsInRange};
ghost use Rattle.fault_rules.specs.code.Said.{said_by};

use audit_terms::{Finding, Frame, Kind, Place, Side, say_if};
use std::alloc::AllocError;

/// A side, a frame's number, and a stream or 0: what findings of one window, or of one frame, have in common.
#[derive(Clone, Copy)]
pub(crate) struct Spot {
    pub(crate) side: Side,
    pub(crate) number: u32,
    pub(crate) stream: u32,
    // Within what a `Place` holds.
    pub(crate) ghost numbered: { number ≤ 2 ^ 28 - 2 },
    pub(crate) ghost streamed: { stream < 2 ^ 31 },
}

/// Where a fault of a frame's sender stands.
pub(crate) fn spot_of(frame: &Frame) -> Spot
    requires { IsInRange frame.now }
    ensures side { result.side ≡ frame.now.side }
    ensures number { result.number ≡ frame.now.number }
    ensures stream { result.stream ≡ frame.now.stream }
{
    Spot {
        side: frame.side,
        number: frame.number,
        stream: frame.stream,
    }
}

/// Adds the finding of a kind at a spot, where a test holds.
// In line, as is `say_each`: measured, with calls the findings with credits took a fifth longer.
#[inline(always)]
pub(crate) fn say_at(
    found: &mut Vec<Finding>,
    holds: bool,
    kind: Kind,
    spot: Spot,
    value: u32,
) -> Result<(), AllocError>
    ensures { OnOk result (found.new.items
        ≡ found.old.items ++ say holds (finding_at kind spot.number spot.stream spot.side (pos value))) }
{
    let finding = Finding::at(kind, spot.number, spot.stream, spot.side, value);
    say_if(found, holds, finding)
}

/// Adds the finding of each kind whose test holds, in turn, all at one spot and with one value.
#[inline(always)]
pub(crate) fn say_each(
    found: &mut Vec<Finding>,
    tests: &[(bool, Kind)],
    spot: Spot,
    value: &i64,
) -> Result<(), AllocError>
    ensures { OnOk result (found.new.items
        ≡ found.old.items ++ said_by (λ kind. finding_at kind spot.number spot.stream spot.side value.now) tests.now) }
{
    for (holds, kind) in tests {
        if *holds {
            found.push(Finding {
                place: Place::of(spot.number, kind.rank(), spot.stream),
                side: spot.side,
                kind: *kind,
                value: *value,
            })?;
        }
    }
    Ok(())
}
