//! All streams of a connection: in rows, and in full from the first stream on that no row holds.

ghost use Rattle.std.specs.Prelude.{◌≡◌, ℕ, ◌<◌, ◌≤◌, ◌-◌, ◌^◌, true, false, None, IfOk, OnOk};
ghost use Rattle.std.specs.Bool.{OnTrue, OnFalse};
ghost use Rattle.audit_terms.specs.declared.sides.Sides.{Sides as SidesTerm};
ghost use Rattle.audit_terms.specs.declared.stream_state.Stream.{Stream as StreamTerm};
ghost use Rattle.audit_terms.specs.code.Room.{WindowHasRoom};
ghost use Rattle.audit_terms.specs.Frame.{is_server_promise};
ghost use Rattle.audit_terms.specs.Stream.{idle_stream};
ghost use Rattle.audit_terms.specs.code.runs.Orderly.{IsInRange};
ghost use Rattle.quiet_pass.specs.code.AllStreams.{AreKept, HoldRoom, IsKeptNow, moves_none};
ghost use Rattle.quiet_pass.specs.code.Streams.{AreMetOn, IsChangeSaid};

use crate::kept_streams::{Meeting, Streams};
use crate::whole_streams::WholeStreams;
use audit_terms::{Finding, Frame, Sides, Step, Stream};
use std::alloc::{AllocError, Global};

/// All streams of a connection.
#[derive(Drop)]
pub(crate) enum AllStreams {
    Rows(Streams),
    /// A row could not hold one of them.
    Whole(WholeStreams),
}

impl AllStreams {
    /// None is opened.
    pub(crate) fn new(alloc: Global) -> Self
        ensures { AreKept (λ _. idle_stream) result }
    {
        AllStreams::Rows(Streams::new(alloc))
    }

    /// Meets a frame on a stream that is no promise of the server, if the stream has a row or needs none.
    #[inline]
    pub(crate) fn meet(&mut self, frame: &Frame) -> Meeting
        requires range { IsInRange frame.now }
        requires streamed { 0 < frame.now.stream }
        requires unpromised { is_server_promise frame.now ≡ false }
        ensures quiet { result ≡ Meeting.Quiet → (initial : SidesTerm ℕ) (streams : ℕ → StreamTerm)
            → AreKept streams self.old → AreMetOn initial frame.now false streams (λ next. AreKept next self.new) }
        ensures left { (result ≡ Meeting.Quiet → ⊥) → self.new ≡ self.old }
    {
        match self {
            AllStreams::Rows(rows) => rows.meet(frame),
            AllStreams::Whole(_) => Meeting::Shown,
        }
    }

    /// Opens the stream of such a frame, one without a row; returns false if the frame does not open it, or may show
    /// something.
    pub(crate) fn open(&mut self, initial: &Sides<u32>, frame: &Frame) -> Result<bool, AllocError>
        requires range { IsInRange frame.now }
        requires unpromised { is_server_promise frame.now ≡ false }
        ensures quiet { IfOk result (λ opened. OnTrue opened ((streams : ℕ → StreamTerm) → AreKept streams self.old
            → AreMetOn initial.now frame.now true streams (λ next. AreKept next self.new))) }
        ensures left { IfOk result (λ opened. OnFalse opened (self.new ≡ self.old)) }
    {
        match self {
            AllStreams::Rows(rows) => {
                let opened = rows.open(initial, frame)?;
                Ok(opened)
            }
            AllStreams::Whole(_) => Ok(false),
        }
    }

    /// Meets a promise of the server, which opens the promised stream, and returns false if that may show something
    /// (RFC 9113, 6.6).
    pub(crate) fn promise(
        &mut self,
        initial: &Sides<u32>,
        frame: &Frame,
    ) -> Result<bool, AllocError>
        requires range { IsInRange frame.now }
        requires promised { is_server_promise frame.now ≡ true }
        ensures quiet { IfOk result (λ quiet. OnTrue quiet ((streams : ℕ → StreamTerm) → AreKept streams self.old
            → AreMetOn initial.now frame.now false streams (λ next. AreKept next self.new))) }
        ensures left { IfOk result (λ quiet. OnFalse quiet (self.new ≡ self.old)) }
    {
        match self {
            AllStreams::Rows(rows) => {
                let quiet = rows.promise(initial, frame)?;
                Ok(quiet)
            }
            AllStreams::Whole(_) => Ok(false),
        }
    }

    /// The stream of an identifier other than 0.
    pub(crate) fn entry_of(&self, stream: u32) -> Stream
        requires { HoldRoom self.now }
        ensures same { 0 < stream → (streams : ℕ → StreamTerm) → AreKept streams self.now
            → streams stream ≡ result }
        ensures client { WindowHasRoom (2 ^ 60) result.window.client }
        ensures server { WindowHasRoom (2 ^ 60) result.window.server }
    {
        if stream == 0 {
            return Stream::idle();
        }
        match self {
            AllStreams::Rows(rows) => rows.entry_of(stream),
            AllStreams::Whole(whole) => whole.entry_of(stream),
        }
    }

    /// Says what a stream is now. Stream 0 is none.
    pub(crate) fn put(
        &mut self,
        alloc: Global,
        stream: u32,
        entry: &Stream,
    ) -> Result<(), AllocError>
        requires { stream < 2 ^ 31 }
        ensures { OnOk result (IsKeptNow stream entry.now self.old self.new) }
    {
        if stream == 0 {
            return Ok(());
        }
        match self {
            AllStreams::Rows(rows) => {
                if rows.put(stream, entry)? {
                    return Ok(());
                }
                let mut whole = rows.whole(alloc)?;
                whole.put(stream, entry)?;
                *self = AllStreams::Whole(whole);
                Ok(())
            }
            AllStreams::Whole(whole) => {
                whole.put(stream, entry)?;
                Ok(())
            }
        }
    }

    /// How many streams were opened.
    pub(crate) fn count(&self) -> usize {
        match self {
            AllStreams::Rows(rows) => rows.count(),
            AllStreams::Whole(whole) => whole.count(),
        }
    }

    /// Meets a step without a frame, and adds what it shows of all streams.
    pub(crate) fn say_change(
        &mut self,
        alloc: Global,
        frames_shown: bool,
        found: &mut Vec<Finding>,
        initial: &Sides<u32>,
        step: &Step,
    ) -> Result<(), AllocError>
        requires alone { step.now.frame ≡ None }
        requires numbered { step.now.number ≤ 2 ^ 28 - 2 }
        requires room { HoldRoom self.old }
        ensures { OnOk result (IsChangeSaid frames_shown initial.now step.now (λ streams. AreKept streams self.old)
            (λ streams. AreKept streams self.new) found.old.items found.new.items) }
    {
        match self {
            AllStreams::Rows(rows) => {
                if rows.say_change(alloc, frames_shown, found, initial, step)? {
                    return Ok(());
                }
                let mut whole = rows.whole(alloc)?;
                whole.say_change(alloc, found, initial, step)?;
                *self = AllStreams::Whole(whole);
                Ok(())
            }
            AllStreams::Whole(whole) => {
                whole.say_change(alloc, found, initial, step)?;
                Ok(())
            }
        }
    }

    /// Do changes move no row?
    pub(crate) fn are_shifted(&self) -> bool
        ensures { result ≡ moves_none self.now }
    {
        match self {
            AllStreams::Rows(rows) => rows.are_shifted(),
            AllStreams::Whole(_) => true,
        }
    }

    /// Brings rows to hold credits less the initial windows in force, so that changes move none.
    pub(crate) fn shift_by(
        &mut self,
        alloc: Global,
        frames_shown: bool,
        initial: &Sides<u32>,
    ) -> Result<(), AllocError>
        requires { moves_none self.old ≡ false }
        ensures { OnOk result ((streams : ℕ → StreamTerm) → AreKept streams self.old → AreKept streams self.new) }
    {
        match self {
            AllStreams::Rows(rows) => {
                rows.shift_by(alloc, frames_shown, initial)?;
                Ok(())
            }
            AllStreams::Whole(_) => Ok(()),
        }
    }
}
