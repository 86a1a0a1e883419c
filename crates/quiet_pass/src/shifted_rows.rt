//! Rows that hold credits less a shift: what a change shows of them, and how rows begin to hold credits so.

ghost use Rattle.std.specs.Prelude.{◌≡◌, ◌<◌, ◌≤◌, ◌-◌, ◌^◌, ◌++◌, Bool, ℕ, None, IfOk, OnOk, drop, length};
ghost use Rattle.std.specs.Bool.{OnTrue, OnFalse};
ghost use Rattle.std.specs.List.{flat_map};
ghost use Rattle.std.specs.Option.{ForSome};
ghost use Rattle.audit_terms.specs.Finding.{shown};
ghost use Rattle.quiet_pass.specs.code.HeldStreams.{held};
ghost use Rattle.quiet_pass.specs.code.Rows.{AreLowered, AreOfParity, AreRising, IsLowered, IsPut};
ghost use Rattle.quiet_pass.specs.code.ShiftSteps.{IsShiftStep, said_at};
ghost use Rattle.quiet_pass.specs.code.Shifts.{AreCovered, AreRowsQuiet, raised};

use crate::held_streams::{held, hold};
use crate::opened_rows::{Row, put};
use crate::row_groups::{RowGroups, end_of};
use crate::shift_ranges::{QuietShifts, lowered, raised};
use audit_terms::{Finding, Sides, Step, Stream};
use fault_rules::say_stream;
use std::alloc::{AllocError, Global};

/// A step without a frame, whose change moves the shift that rows hold credits less than.
#[derive(Clone, Copy)]
pub(crate) struct ShiftStep<'a> {
    pub(crate) frames_shown: bool,
    pub(crate) step: &'a Step,
    /// The initial windows in force before it.
    pub(crate) before: &'a Sides<u32>,
    pub(crate) shift: Sides<u32>,
    /// The shift after it.
    pub(crate) next: Sides<u32>,
}

impl Row {
    /// Adds what a step shows of the row's stream.
    fn say_shifted(
        &self,
        found: &mut Vec<Finding>,
        moving: &ShiftStep<'_>,
    ) -> Result<(), AllocError>
        requires moving { IsShiftStep moving.now }
        requires small { self.now.stream < 2 ^ 31 }
        ensures { OnOk result (shown moving.now.frames_shown found.new.items
            ≡ shown moving.now.frames_shown found.old.items
            ++ shown moving.now.frames_shown (said_at moving.now self.now)) }
    {
        let entry = held(&self.standings);
        let quiet = QuietShifts::of(moving.frames_shown, &entry, &moving.shift);
        if quiet.have(&moving.shift) && quiet.have(&moving.next) {
            return Ok(());
        }
        let mut entry = raised(&entry, &moving.shift);
        say_stream(found, &mut entry, self.stream, moving.before, moving.step)?;
        Ok(())
    }

    /// The row that holds the same stream less a shift, if it can.
    fn lowered(&self, shift: &Sides<u32>) -> Option<Row>
        ensures { ForSome result (IsLowered shift.now self.now) }
    {
        let entry = held(&self.standings);
        let low = lowered(&entry, shift)?;
        Some(Row {
            standings: hold(&low)?,
            ..*self
        })
    }
}

/// Adds what a step shows of the streams of all rows.
pub(crate) fn say_shifted(
    rows: &[Row],
    groups: &mut RowGroups,
    found: &mut Vec<Finding>,
    moving: &ShiftStep<'_>,
) -> Result<(), AllocError>
    requires moving { IsShiftStep moving.now }
    requires own { (remainder : ℕ) × AreOfParity remainder rows.now }
    ensures said { OnOk result (AreCovered moving.now.frames_shown groups.old rows.now
        → shown moving.now.frames_shown found.new.items ≡ shown moving.now.frames_shown found.old.items
        ++ shown moving.now.frames_shown (flat_map (said_at moving.now) rows.now)) }
    ensures covered { OnOk result (AreCovered moving.now.frames_shown groups.old rows.now
        → AreCovered moving.now.frames_shown groups.new rows.now) }
{
    let mut at = 0;
    while at < rows.len() {
        let quiet = groups.quiet_from(at, &moving.shift, &moving.next);
        at = say_from(rows, at, quiet, found, moving)?;
        groups.learn_before(moving.frames_shown, rows, at, &moving.next);
    }
    Ok(())
}

/// Adds what the step shows of the stream of one row, or passes over so many rows of which it shows nothing, if there
/// are some; returns the next row.
fn say_from(
    rows: &[Row],
    at: usize,
    quiet: usize,
    found: &mut Vec<Finding>,
    moving: &ShiftStep<'_>,
) -> Result<usize, AllocError>
    requires inside { at < length rows.now }
    requires moving { IsShiftStep moving.now }
    requires own { (remainder : ℕ) × AreOfParity remainder rows.now }
    ensures past { IfOk result (λ to. (at < to) × (to ≤ length rows.now)) }
    ensures said { IfOk result (λ to. AreRowsQuiet moving.now.frames_shown moving.now.shift moving.now.next at quiet
        rows.now → shown moving.now.frames_shown found.new.items
        ++ shown moving.now.frames_shown (flat_map (said_at moving.now) (drop to rows.now))
        ≡ shown moving.now.frames_shown found.old.items
        ++ shown moving.now.frames_shown (flat_map (said_at moving.now) (drop at rows.now))) }
{
    if 0 < quiet {
        return Ok(end_of(at, quiet, rows.len()));
    }
    rows[at].say_shifted(found, moving)?;
    Ok(at + 1)
}

/// Brings all rows to hold their streams less a shift, and returns groups of them of which nothing is known. Nothing,
/// if a row cannot hold its stream so.
pub(crate) fn lower_all(
    alloc: Global,
    rows: &mut Vec<Row>,
    shift: &Sides<u32>,
) -> Result<Option<RowGroups>, AllocError>
    ensures lowered { IfOk result (λ made. ForSome made (λ groups.
        AreLowered shift.now rows.old.items rows.new.items)) }
    ensures covered { IfOk result (λ made. ForSome made (λ groups.
        (frames_shown : Bool) → AreCovered frames_shown groups rows.new.items)) }
{
    let mut groups = RowGroups::new(alloc);
    for at in 0..rows.len() {
        let row = rows[at];
        let Some(low) = row.lowered(shift) else {
            return Ok(None);
        };
        rows[at] = low;
        groups.forget(at)?;
    }
    Ok(Some(groups))
}

/// Says in the row of a stream what it holds of it now, and forgets what is known of the row's groups; returns false if
/// no row can hold it: then all stays.
pub(crate) fn put_shifted(
    rows: &mut Vec<Row>,
    groups: &mut RowGroups,
    stream: u32,
    low: &Stream,
) -> Result<bool, AllocError>
    ensures put { IfOk result (λ done. OnTrue done (AreRising rows.old.items
        → IsPut stream low.now rows.old.items rows.new.items)) }
    ensures covered { IfOk result (λ done. OnTrue done ((frames_shown : Bool)
        → AreCovered frames_shown groups.old rows.old.items → AreCovered frames_shown groups.new rows.new.items)) }
    ensures rows { IfOk result (λ done. OnFalse done (rows.new ≡ rows.old)) }
    ensures groups { IfOk result (λ done. OnFalse done (groups.new ≡ groups.old)) }
{
    let Some(at) = put(rows, stream, low)? else {
        return Ok(false);
    };
    groups.forget(at)?;
    Ok(true)
}
