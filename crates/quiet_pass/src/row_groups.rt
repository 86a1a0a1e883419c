//! Groups of rows, and for which shifts nothing is shown of any row of one. So a change goes only through the groups of
//! which something may be shown, and through those of which a row was put since they were gone through.

ghost use Rattle.std.specs.Prelude.{◌≡◌, ◌<◌, ◌≤◌, ◌≢◌, ◌+◌, true, Bool, List, ℕ, Some, OnOk, length};
ghost use Rattle.std.specs.Prelude.{slice_get};
ghost use Rattle.std.specs.Bool.{OnTrue};
ghost use Rattle.audit_terms.specs.declared.sides.Sides.{Sides as SidesTerm};
ghost use Rattle.quiet_pass.specs.code.HeldStreams.{held};
ghost use Rattle.quiet_pass.specs.code.Shifts.{AreCovered, AreRowsQuiet, IsCovered, IsGroupQuiet, IsRowQuietFor};
ghost use Rattle.quiet_pass.specs.code.Shifts.{are_within, knows};
ghost use Rattle.quiet_pass.specs.declared.opened_rows.Row.{Row as RowTerm};

use crate::held_streams::held;
use crate::opened_rows::Row;
use crate::shift_ranges::QuietShifts;
use audit_terms::Sides;
use std::alloc::{AllocError, Global};

/// How many rows the groups of each level have. With 64 in 64 in 64 a change that a group has to be gone through for
/// takes some 200 steps, and one step more for each 2^18 rows.
const SMALL: usize = 1 << 6;

const MIDDLE: usize = 1 << 12;

const LARGE: usize = 1 << 18;

/// Groups of one size.
#[derive(Drop)]
struct Level {
    /// How many rows a group has.
    width: usize,
    /// For which shifts nothing is shown of a group's rows, as far as is known.
    known: Vec<QuietShifts>,
}

impl Level {
    fn new(alloc: Global, width: usize) -> Self
        ensures { (frames_shown : Bool) (rows : List RowTerm) → IsCovered frames_shown result rows }
    {
        Level {
            width,
            known: Vec::new(alloc),
        }
    }

    /// Are these shifts among those that are known for a group?
    fn knows(&self, group: usize, shift: &Sides<u32>) -> bool
        ensures { result ≡ knows self.now group shift.now }
    {
        match self.known.get(group) {
            Some(quiet) => quiet.have(shift),
            None => false,
        }
    }

    /// Does a group begin at a row, of which nothing is shown where one shift follows another?
    fn is_quiet_from(&self, at: usize, shift: &Sides<u32>, next: &Sides<u32>) -> bool
        ensures { OnTrue result ((frames_shown : Bool) (rows : List RowTerm) → IsCovered frames_shown self.now rows
            → AreRowsQuiet frames_shown shift.now next.now at self.now.width rows) }
    {
        if self.width == 0 || at % self.width != 0 {
            return false;
        }
        let group = at / self.width;
        self.knows(group, shift) && self.knows(group, next)
    }

    /// Forgets what is known of the group of a row.
    fn forget(&mut self, at: usize) -> Result<(), AllocError>
        ensures { OnOk result ((frames_shown : Bool) (old new : List RowTerm) → IsCovered frames_shown self.old old
            → ((other : ℕ) → other ≢ at → slice_get new other ≡ slice_get old other)
            → IsCovered frames_shown self.new new) }
    {
        if self.width == 0 {
            return Ok(());
        }
        let group = at / self.width;
        if group < self.known.len() {
            self.known[group] = QuietShifts::none();
        } else if group == self.known.len() {
            self.known.push(QuietShifts::none())?;
        }
        Ok(())
    }

    /// Keeps what is known of a group.
    fn learn(&mut self, group: usize, quiet: QuietShifts)
        ensures same { self.new.width ≡ self.old.width }
        ensures covered { (frames_shown : Bool) (rows : List RowTerm) → IsCovered frames_shown self.old rows
            → IsGroupQuiet frames_shown self.old.width group quiet rows → IsCovered frames_shown self.new rows }
    {
        if group < self.known.len() {
            self.known[group] = quiet;
        }
    }

    /// The shifts that are known for all groups from the first to the last.
    fn known_of(&self, first: usize, last: usize) -> QuietShifts
        ensures { (group : ℕ) → first ≤ group → group ≤ last → (shift : SidesTerm ℕ)
            → are_within result shift ≡ true → knows self.now group shift ≡ true }
    {
        if self.known.len() <= last {
            return QuietShifts::none();
        }
        let mut quiet = QuietShifts::every();
        for group in first..last + 1 {
            quiet = quiet.both(&self.known[group]);
        }
        quiet
    }
}

/// The shifts for which nothing is shown of the rows of a range, these among them.
fn quiet_of(
    frames_shown: bool,
    rows: &[Row],
    first: usize,
    end: usize,
    shift: &Sides<u32>,
) -> QuietShifts
    requires { end ≤ length rows.now }
    ensures { (at : ℕ) (row : RowTerm) → first ≤ at → at < end → slice_get rows.now at ≡ Some row
        → IsRowQuietFor frames_shown result row }
{
    let mut quiet = QuietShifts::every();
    for at in first..end {
        let entry = held(&rows[at].standings);
        quiet = quiet.both(&QuietShifts::of(frames_shown, &entry, shift));
    }
    quiet
}

/// The rows of a connection's odd streams, or of its even ones, in groups of three sizes.
#[derive(Drop)]
pub(crate) struct RowGroups {
    small: Level,
    middle: Level,
    large: Level,
}

impl RowGroups {
    /// Nothing is known of any group.
    pub(crate) fn new(alloc: Global) -> Self
        ensures { (frames_shown : Bool) (rows : List RowTerm) → AreCovered frames_shown result rows }
    {
        RowGroups {
            small: Level::new(alloc, SMALL),
            middle: Level::new(alloc, MIDDLE),
            large: Level::new(alloc, LARGE),
        }
    }

    /// How many rows from one on are known to show nothing where one shift follows another.
    pub(crate) fn quiet_from(&self, at: usize, shift: &Sides<u32>, next: &Sides<u32>) -> usize
        ensures { (frames_shown : Bool) (rows : List RowTerm) → AreCovered frames_shown self.now rows
            → AreRowsQuiet frames_shown shift.now next.now at result rows }
    {
        if at % SMALL != 0 || !self.small.is_quiet_from(at, shift, next) {
            return 0;
        }
        if !self.middle.is_quiet_from(at, shift, next) {
            return self.small.width;
        }
        if !self.large.is_quiet_from(at, shift, next) {
            return self.middle.width;
        }
        self.large.width
    }

    /// Forgets what is known of the groups of a row, which is another one now.
    pub(crate) fn forget(&mut self, at: usize) -> Result<(), AllocError>
        ensures { OnOk result ((frames_shown : Bool) (old new : List RowTerm) → AreCovered frames_shown self.old old
            → ((other : ℕ) → other ≢ at → slice_get new other ≡ slice_get old other)
            → AreCovered frames_shown self.new new) }
    {
        self.small.forget(at)?;
        self.middle.forget(at)?;
        self.large.forget(at)?;
        Ok(())
    }

    /// Learns for which shifts, these among them, the rows of the groups are quiet that end before a row, unless these
    /// are known already.
    pub(crate) fn learn_before(
        &mut self,
        frames_shown: bool,
        rows: &[Row],
        end: usize,
        shift: &Sides<u32>,
    )
        ensures { AreCovered frames_shown self.old rows.now → AreCovered frames_shown self.new rows.now }
    {
        if end % SMALL != 0 && end < rows.len() {
            return;
        }
        learn_rows(&mut self.small, frames_shown, rows, end, shift);
        learn_groups(&mut self.middle, &self.small, rows, end, shift);
        learn_groups(&mut self.large, &self.middle, rows, end, shift);
    }
}

/// Learns for which shifts the rows of the group are quiet that ends before a row, or with the last one.
fn learn_rows(small: &mut Level, frames_shown: bool, rows: &[Row], end: usize, shift: &Sides<u32>)
    ensures { IsCovered frames_shown small.old rows.now → IsCovered frames_shown small.new rows.now }
{
    if small.width == 0 || end == 0 {
        return;
    }
    let group = (end - 1) / small.width;
    if small.knows(group, shift) {
        return;
    }
    let first = (end - 1) - (end - 1) % small.width;
    let past = end_of(first, small.width, rows.len());
    let quiet = quiet_of(frames_shown, rows, first, past, shift);
    small.learn(group, quiet);
}

/// The same, by the groups below, if a group ends there.
fn learn_groups(level: &mut Level, below: &Level, rows: &[Row], end: usize, shift: &Sides<u32>)
    ensures { (frames_shown : Bool) → IsCovered frames_shown below.now rows.now
        → IsCovered frames_shown level.old rows.now → IsCovered frames_shown level.new rows.now }
{
    if level.width == 0 || below.width == 0 || end == 0 {
        return;
    }
    if end % level.width != 0 && end < rows.len() {
        return;
    }
    let group = (end - 1) / level.width;
    if level.knows(group, shift) {
        return;
    }
    let first = (end - 1) - (end - 1) % level.width;
    let past = end_of(first, level.width, rows.len());
    if past == 0 {
        return;
    }
    let quiet = below.known_of(first / below.width, (past - 1) / below.width);
    level.learn(group, quiet);
}

/// Past the last of so many rows from one on, or of all.
pub(crate) fn end_of(first: usize, width: usize, rows: usize) -> usize
    ensures short { result ≤ first + width }
    ensures each { (at : ℕ) → at < first + width → at < rows → at < result }
    ensures within { result ≤ rows }
{
    first.saturating_add(width).min(rows)
}
