//! All streams of a connection, in rows.

ghost use Rattle.std.specs.Prelude.{◌≡◌, ℕ, ◌<◌, ◌≤◌, ◌-◌, ◌^◌, true, false, [], None, Option, is_some, IfOk, OnOk};
ghost use Rattle.std.specs.Bool.{OnTrue, OnFalse};
ghost use Rattle.std.specs.Option.{ForSome};
ghost use Rattle.audit_terms.specs.declared.sides.Sides.{Sides as SidesTerm};
ghost use Rattle.audit_terms.specs.declared.stream_state.Stream.{Stream as StreamTerm};
ghost use Rattle.audit_terms.specs.code.Room.{WindowHasRoom};
ghost use Rattle.audit_terms.specs.Frame.{is_server_promise};
ghost use Rattle.audit_terms.specs.code.runs.Orderly.{IsInRange};
ghost use Rattle.quiet_pass.specs.code.Rows.{AreRising, IsMetOn};
ghost use Rattle.quiet_pass.specs.code.Streams.{AreRowsOf, AreStreams, AreMetOn, ArePut, IsChangeSaid, IsShiftFor};
ghost use Rattle.quiet_pass.specs.code.Streams.{shift_of};
ghost use Rattle.quiet_pass.specs.code.WholeStreams.{AreListed};

use crate::opened_rows::{Row, copied, entry_of, meet, new_row, open, put_plain, say_all};
use crate::row_groups::RowGroups;
use crate::shift_ranges::{lowered, raised_in, shift_after};
use crate::shifted_rows::{ShiftStep, lower_all, put_shifted, say_shifted};
use crate::whole_streams::{WholeStreams, add_rows};
use audit_terms::{Finding, Frame, Sides, Step, Stream, initial_after, row_of};
use std::alloc::{AllocError, Global};

/// The rows of the streams that were opened.
#[derive(Drop)]
pub(crate) struct Streams {
    /// The odd ones, which the client opens.
    opened: Vec<Row>,
    /// The even ones, which the server promises.
    promised: Vec<Row>,
    /// What rows hold credits less than, where changes have moved many: a change then moves no row.
    shifted: Option<Shifted>,
}

/// A shift of all rows, and what is known of groups of them, in boxes: most connections have no shift.
#[derive(Drop)]
struct Shifted {
    /// Are credits shown? It is known for this alone.
    frames_shown: bool,
    shift: Sides<u32>,
    opened: Box<RowGroups>,
    promised: Box<RowGroups>,
}

/// How a stream meets a frame. Streams change at quiet frames alone.
#[derive(Clone, Copy)]
pub(crate) enum Meeting {
    /// Nothing is shown.
    Quiet,
    /// The stream has no row, but is to have one.
    WithoutRow,
    /// Something may be shown.
    Shown,
}

impl Streams {
    pub(crate) fn new(alloc: Global) -> Self
        ensures opened { result.opened.items ≡ [] }
        ensures promised { result.promised.items ≡ [] }
        ensures shifted { result.shifted ≡ Option.None }
    {
        Streams {
            opened: Vec::new(alloc),
            promised: Vec::new(alloc),
            shifted: None,
        }
    }

    /// Do rows hold credits less a shift?
    pub(crate) fn are_shifted(&self) -> bool
        ensures { result ≡ is_some self.now.shifted }
    {
        self.shifted.is_some()
    }

    /// Meets a frame on a stream that is no promise of the server, if the stream has a row or needs none.
    pub(crate) fn meet(&mut self, frame: &Frame) -> Meeting
        requires range { IsInRange frame.now }
        requires streamed { 0 < frame.now.stream }
        requires unpromised { is_server_promise frame.now ≡ false }
        ensures quiet { result ≡ Meeting.Quiet → (initial : SidesTerm ℕ) (streams : ℕ → StreamTerm)
            → AreStreams streams self.old
            → AreMetOn initial frame.now false streams (λ next. AreStreams next self.new) }
        ensures left { (result ≡ Meeting.Quiet → ⊥) → self.new ≡ self.old }
    {
        if self.shifted.is_some() {
            return Meeting::Shown;
        }
        if frame.stream % 2 == 1 {
            meet_on(&mut self.opened, frame)
        } else {
            meet_on(&mut self.promised, frame)
        }
    }

    /// Opens the stream of such a frame, one without a row; returns false if the frame does not open it, or may show
    /// something.
    pub(crate) fn open(&mut self, initial: &Sides<u32>, frame: &Frame) -> Result<bool, AllocError>
        requires range { IsInRange frame.now }
        requires unpromised { is_server_promise frame.now ≡ false }
        ensures quiet { IfOk result (λ opened. OnTrue opened ((streams : ℕ → StreamTerm)
            → AreStreams streams self.old
            → AreMetOn initial.now frame.now true streams (λ next. AreStreams next self.new))) }
        ensures left { IfOk result (λ opened. OnFalse opened (self.new ≡ self.old)) }
    {
        if self.shifted.is_some() || frame.stream % 2 == 0 {
            return Ok(false);
        }
        open(&mut self.opened, frame.stream, initial, frame)
    }

    /// The stream of an identifier other than 0.
    pub(crate) fn entry_of(&self, stream: u32) -> Stream
        ensures same { 0 < stream → (streams : ℕ → StreamTerm) → AreStreams streams self.now
            → streams stream ≡ result }
        ensures client { WindowHasRoom (2 ^ 60) result.window.client }
        ensures server { WindowHasRoom (2 ^ 60) result.window.server }
    {
        raised_in(&self.held_of(stream), &self.shift())
    }

    /// What rows hold credits less than, if they do.
    fn shift(&self) -> Option<Sides<u32>>
        ensures { result ≡ shift_of self.now }
    {
        match &self.shifted {
            Some(shifted) => Some(shifted.shift),
            None => None,
        }
    }

    /// What rows hold credits less than, if they do, and what is known of groups of them is for this.
    fn shift_for(&self, frames_shown: bool) -> Option<Sides<u32>>
        ensures { ForSome result (IsShiftFor frames_shown self.now) }
    {
        match &self.shifted {
            Some(shifted) if shifted.frames_shown == frames_shown => Some(shifted.shift),
            _ => None,
        }
    }

    /// What a row holds of the stream of an identifier other than 0.
    fn held_of(&self, stream: u32) -> Stream
        ensures same { 0 < stream → (base : ℕ → StreamTerm) → AreRowsOf base self.now → base stream ≡ result }
        ensures client { WindowHasRoom (2 ^ 32) result.window.client }
        ensures server { WindowHasRoom (2 ^ 32) result.window.server }
    {
        if stream % 2 == 1 {
            entry_of(self.opened.as_slice(), stream)
        } else {
            entry_of(self.promised.as_slice(), stream)
        }
    }

    /// Says what a stream is now, and returns false if no row can say so: then all stays.
    pub(crate) fn put(&mut self, stream: u32, entry: &Stream) -> Result<bool, AllocError>
        requires { stream < 2 ^ 31 }
        ensures put { IfOk result (λ done. OnTrue done (ArePut stream entry.now self.old self.new)) }
        ensures left { IfOk result (λ done. OnFalse done (self.new ≡ self.old)) }
    {
        if self.shifted.is_some() {
            return self.put_shifted(stream, entry);
        }
        if stream % 2 == 1 {
            put_plain(&mut self.opened, stream, entry)
        } else {
            put_plain(&mut self.promised, stream, entry)
        }
    }

    /// The same, where rows hold credits less a shift: what is known of the groups of its row is forgotten.
    fn put_shifted(&mut self, stream: u32, entry: &Stream) -> Result<bool, AllocError>
        requires { stream < 2 ^ 31 }
        ensures put { IfOk result (λ done. OnTrue done (ArePut stream entry.now self.old self.new)) }
        ensures left { IfOk result (λ done. OnFalse done (self.new ≡ self.old)) }
    {
        let Some(shift) = self.shift() else {
            return Ok(false);
        };
        let Some(low) = lowered(entry, &shift) else {
            return Ok(false);
        };
        let Some(mut shifted) = self.shifted.take() else {
            return Ok(false);
        };
        if stream % 2 == 1 {
            let is_put = put_shifted(&mut self.opened, &mut *shifted.opened, stream, &low)?;
            self.shifted = Some(shifted);
            return Ok(is_put);
        }
        let is_put = put_shifted(&mut self.promised, &mut *shifted.promised, stream, &low)?;
        self.shifted = Some(shifted);
        Ok(is_put)
    }

    /// Meets a promise of the server, which opens the promised stream, and returns false if that may show something
    /// (RFC 9113, 6.6).
    pub(crate) fn promise(
        &mut self,
        initial: &Sides<u32>,
        frame: &Frame,
    ) -> Result<bool, AllocError>
        requires range { IsInRange frame.now }
        requires promised { is_server_promise frame.now ≡ true }
        ensures quiet { IfOk result (λ quiet. OnTrue quiet ((streams : ℕ → StreamTerm) → AreStreams streams self.old
            → AreMetOn initial.now frame.now false streams (λ next. AreStreams next self.new))) }
        ensures left { IfOk result (λ quiet. OnFalse quiet (self.new ≡ self.old)) }
    {
        if self.shifted.is_some() {
            return Ok(false);
        }
        if frame.stream % 2 == 0 {
            return Ok(false);
        }
        let promised = frame.body.promised();
        let Some(row) = new_row(self.promised.as_slice(), promised, initial, frame) else {
            return Ok(false);
        };
        if !meet_opened(&mut self.opened, frame) {
            return Ok(false);
        }
        self.promised.push(row)?;
        Ok(true)
    }

    /// How many streams were opened.
    pub(crate) fn count(&self) -> usize {
        self.opened.len().saturating_add(self.promised.len())
    }

    /// Meets a step without a frame, and adds what it shows of all streams; returns false if rows cannot hold all
    /// streams after it: then all stays.
    pub(crate) fn say_change(
        &mut self,
        alloc: Global,
        frames_shown: bool,
        found: &mut Vec<Finding>,
        initial: &Sides<u32>,
        step: &Step,
    ) -> Result<bool, AllocError>
        requires alone { step.now.frame ≡ None }
        requires numbered { step.now.number ≤ 2 ^ 28 - 2 }
        requires kept { (streams : ℕ → StreamTerm) × AreStreams streams self.old }
        ensures said { IfOk result (λ said. OnTrue said (IsChangeSaid frames_shown initial.now step.now
            (λ streams. AreStreams streams self.old) (λ streams. AreStreams streams self.new)
            found.old.items found.new.items)) }
        ensures left { IfOk result (λ said. OnFalse said (self.new ≡ self.old)) }
        ensures found { IfOk result (λ said. OnFalse said (found.new ≡ found.old)) }
    {
        if self.shifted.is_some() {
            return self.say_shifted(frames_shown, found, initial, step);
        }
        let mut own = Vec::new(alloc);
        let mut opened = copied(alloc, self.opened.as_slice())?;
        let odd = say_all(frames_shown, &mut opened, &mut own, initial, step)?;
        let mut promised = copied(alloc, self.promised.as_slice())?;
        let even = say_all(frames_shown, &mut promised, &mut own, initial, step)?;
        if !(odd & even) {
            return Ok(false);
        }
        found.append(&mut own)?;
        self.opened = opened;
        self.promised = promised;
        Ok(true)
    }

    /// The same, where rows hold credits less a shift, and the step moves that alone; returns false if rows cannot hold
    /// credits less the next one: then all stays.
    fn say_shifted(
        &mut self,
        frames_shown: bool,
        found: &mut Vec<Finding>,
        initial: &Sides<u32>,
        step: &Step,
    ) -> Result<bool, AllocError>
        requires alone { step.now.frame ≡ None }
        requires numbered { step.now.number ≤ 2 ^ 28 - 2 }
        requires kept { (streams : ℕ → StreamTerm) × AreStreams streams self.old }
        ensures said { IfOk result (λ said. OnTrue said (IsChangeSaid frames_shown initial.now step.now
            (λ streams. AreStreams streams self.old) (λ streams. AreStreams streams self.new)
            found.old.items found.new.items)) }
        ensures left { IfOk result (λ said. OnFalse said (self.new ≡ self.old)) }
        ensures found { IfOk result (λ said. OnFalse said (found.new ≡ found.old)) }
    {
        let Some(shift) = self.shift_for(frames_shown) else {
            return Ok(false);
        };
        let after = initial_after(&step.change, initial);
        let Some(next) = shift_after(&shift, initial, &after) else {
            return Ok(false);
        };
        let Some(mut shifted) = self.shifted.take() else {
            return Ok(false);
        };
        let moving = ShiftStep {
            frames_shown,
            step,
            before: initial,
            shift,
            next,
        };
        let odd = self.opened.as_slice();
        say_shifted(odd, &mut *shifted.opened, found, &moving)?;
        let even = self.promised.as_slice();
        say_shifted(even, &mut *shifted.promised, found, &moving)?;
        shifted.shift = next;
        self.shifted = Some(shifted);
        Ok(true)
    }

    /// All of them in full.
    pub(crate) fn whole(&self, alloc: Global) -> Result<WholeStreams, AllocError>
        ensures { IfOk result (λ whole. (streams : ℕ → StreamTerm) → AreStreams streams self.now
            → AreListed streams whole.list.items) }
    {
        let shift = self.shift();
        let mut list = Vec::with_capacity(alloc, self.count())?;
        add_rows(&mut list, self.opened.as_slice(), &shift)?;
        add_rows(&mut list, self.promised.as_slice(), &shift)?;
        Ok(WholeStreams { list })
    }

    /// Brings all rows to hold credits less the initial windows in force, so that changes move no row. Where a row
    /// cannot, they stay, which costs time alone.
    pub(crate) fn shift_by(
        &mut self,
        alloc: Global,
        frames_shown: bool,
        initial: &Sides<u32>,
    ) -> Result<(), AllocError>
        requires { is_some self.old.shifted ≡ false }
        ensures { OnOk result ((streams : ℕ → StreamTerm) → AreStreams streams self.old
            → AreStreams streams self.new) }
    {
        let mut odd = copied(alloc, self.opened.as_slice())?;
        let Some(opened) = lower_all(alloc, &mut odd, initial)? else {
            return Ok(());
        };
        let mut even = copied(alloc, self.promised.as_slice())?;
        let Some(promised) = lower_all(alloc, &mut even, initial)? else {
            return Ok(());
        };
        let shifted = Shifted {
            frames_shown,
            shift: *initial,
            opened: Box::new(alloc, opened)?,
            promised: Box::new(alloc, promised)?,
        };
        self.opened = odd;
        self.promised = even;
        self.shifted = Some(shifted);
        Ok(())
    }
}

/// Meets a frame on a stream that has to be opened, and returns false if that may show something.
fn meet_opened(rows: &mut Vec<Row>, frame: &Frame) -> bool
    ensures quiet { OnTrue result (AreRising rows.old.items → (initial : SidesTerm ℕ)
        → IsMetOn frame.now.stream initial frame.now false rows.old.items rows.new.items) }
    ensures left { OnFalse result (rows.new ≡ rows.old) }
{
    match row_of(rows.as_slice(), frame.stream) {
        Some(at) => meet(rows, at, frame),
        None => false,
    }
}

/// Meets a frame on a stream, one of those in the rows. Frames that need no opened stream do nothing to one without a
/// row.
#[inline]
fn meet_on(rows: &mut Vec<Row>, frame: &Frame) -> Meeting
    requires { is_server_promise frame.now ≡ false }
    ensures quiet { result ≡ Meeting.Quiet → AreRising rows.old.items → (initial : SidesTerm ℕ)
        → IsMetOn frame.now.stream initial frame.now false rows.old.items rows.new.items }
    ensures left { (result ≡ Meeting.Quiet → ⊥) → rows.new ≡ rows.old }
{
    if let Some(at) = row_of(rows.as_slice(), frame.stream) {
        if meet(rows, at, frame) {
            return Meeting::Quiet;
        }
        return Meeting::Shown;
    }
    if frame.needs_opening() {
        Meeting::WithoutRow
    } else {
        Meeting::Quiet
    }
}
