ghost use Rattle.std.specs.Prelude.{◌≡◌, ◌∷◌, true, List, OnOk, IfOk};
ghost use Rattle.std.specs.Bool.{MatchBool, OnTrue, OnFalse};
ghost use Rattle.audit_terms.specs.declared.frames.Frame.{Frame as FrameTerm};
ghost use Rattle.audit_terms.specs.code.runs.Streams.{change_step};
ghost use Rattle.audit_terms.specs.code.Watch.{GoesOn, HasMetBefore};
ghost use Rattle.stream_credit.specs.code.Looks.{is_live};
ghost use Rattle.stream_credit.specs.code.Merged.{frame_with};
ghost use Rattle.stream_credit.specs.code.Walk.{CanCount, CanMeetBefore, HasStopped, IsBegun, HasCounted, IsSound};
ghost use Rattle.stream_credit.specs.code.Walk.{MeetsBefore, WholeRun};

use crate::changes::{Changes, FIRST_WINDOWS, met_after};
use crate::quiet_changes::{is_quiet_move, window_after_change};
use crate::quiet_moves::{move_of, move_quietly};
use audit_terms::{
    Change, Finding, Frame, Look, Sides, Step, Stream, Watch, initial_after, keep_shown,
    put_in_order,
};
use fault_rules::say_stream;
use std::alloc::{AllocError, Global};

/// One stream between two of its steps, and what was found of it.
#[derive(Drop)]
pub(crate) struct Walk {
    stream: u32,
    frames_shown: bool,
    pub(crate) watch: Watch,
    pub(crate) entry: Stream,
    /// The initial windows in force.
    initial: Sides<u32>,
    /// How many of the connection's changes it has met.
    met: u32,
    pub(crate) found: Vec<Finding>,
    /// What one step shows: kept, so that its room serves the next.
    said: Vec<Finding>,
}

impl Walk {
    /// A stream that no step has met, after the first look.
    pub(crate) fn idle<L: Look>(
        alloc: Global,
        stream: u32,
        frames_shown: bool,
        look: &mut L,
    ) -> Self
        ensures { IsBegun L.answers look.old look.new stream frames_shown result }
    {
        let watch = Watch::begin(look);
        Walk {
            stream,
            frames_shown,
            watch,
            entry: Stream::idle(),
            initial: FIRST_WINDOWS,
            met: 0,
            found: Vec::new(alloc),
            said: Vec::new(alloc),
        }
    }

    /// Does a window of the stream live?
    fn is_live(&self) -> bool
        ensures { result ≡ is_live self.now.entry }
    {
        self.entry.window.client.is_some() || self.entry.window.server.is_some()
    }

    /// Counts a change, and adds what it shows.
    fn count_change(&mut self, change: Change) -> Result<(), AllocError>
        requires { CanCount self.old (change_step change) }
        ensures { OnOk result (HasCounted self.old (change_step change) self.new) }
    {
        let step = Step {
            number: change.number,
            frame: None,
            change: Some(change),
        };
        if self.count_quiet_change(&step) {
            return Ok(());
        }
        self.count_shown(&step)
    }

    /// Counts a quiet change, if the step is one, and returns whether it is.
    fn count_quiet_change(&mut self, step: &Step) -> bool
        requires { CanCount self.old step.now }
        ensures counted { OnTrue result (HasCounted self.old step.now self.new) }
        ensures otherwise { OnFalse result (self.new ≡ self.old) }
    {
        if self.frames_shown || step.frame.is_some() {
            return false;
        }
        let initial = initial_after(&step.change, &self.initial);
        let Sides { client, server } = self.entry.window;
        let next_client = window_after_change(&client, self.initial.client, initial.client);
        let next_server = window_after_change(&server, self.initial.server, initial.server);
        if !is_quiet_move(&client, &next_client) || !is_quiet_move(&server, &next_server) {
            return false;
        }
        self.entry.window = Sides {
            client: next_client,
            server: next_server,
        };
        self.initial = initial;
        true
    }

    /// Counts a step that may show something.
    fn count_shown(&mut self, step: &Step) -> Result<(), AllocError>
        requires { CanCount self.old step.now }
        ensures { OnOk result (HasCounted self.old step.now self.new) }
    {
        self.said.clear();
        say_stream(
            &mut self.said,
            &mut self.entry,
            self.stream,
            &self.initial,
            step,
        )?;
        put_in_order(&mut self.said)?;
        keep_shown(&mut self.said, self.frames_shown);
        self.found.extend_from_slice(self.said.as_slice())?;
        self.initial = initial_after(&step.change, &self.initial);
        Ok(())
    }

    /// Whether the walk goes on to a step of this number, before which it looks if that is due. The look is handed all
    /// that the steps before show.
    fn goes_on<L: Look>(&mut self, look: &mut L, number: u32) -> bool
        requires { HasMetBefore number self.old.watch }
        ensures kept { self.new ≡ record self.old { watch = self.new.watch } }
        ensures goes_on { GoesOn L.answers look.old look.new self.old.found.items number self.old.watch self.new.watch
            result }
    {
        let found = self.found.as_slice();
        self.watch.goes_on(look, found, number)
    }

    /// Meets the changes before a number, and returns whether it met them all. Where no window lives it has none of
    /// them to meet.
    pub(crate) fn meet_changes<L: Look>(
        &mut self,
        look: &mut L,
        changes: &Changes<'_>,
        number: u32,
    ) -> Result<bool, AllocError>
        requires { CanMeetBefore L.answers look.old self.old changes.now number }
        ensures { IfOk result (MeetsBefore L.answers look.old look.new self.old self.new changes.now number) }
    {
        if self.is_live() {
            return self.meet_each(look, changes, number);
        }
        let met = changes.passed(self.met, number);
        self.pass(met, &changes.initial_at(met));
        Ok(true)
    }

    /// Skips changes, and has met so many then: only what they leave in force counts.
    fn pass(&mut self, met: u32, initial: &Sides<u32>)
        ensures { self.new ≡ record self.old { initial = initial.now; met = met } }
    {
        self.met = met;
        self.initial = *initial;
    }

    /// Meets them one by one.
    fn meet_each<L: Look>(
        &mut self,
        look: &mut L,
        changes: &Changes<'_>,
        number: u32,
    ) -> Result<bool, AllocError>
        requires live { is_live self.old.entry ≡ true }
        requires sound { CanMeetBefore L.answers look.old self.old changes.now number }
        ensures { IfOk result (MeetsBefore L.answers look.old look.new self.old self.new changes.now number) }
    {
        while let Some(change) = changes.before(self.met, number) {
            if !self.goes_on(look, change.number) {
                return Ok(false);
            }
            self.count_change(change)?;
            self.met += 1;
        }
        Ok(true)
    }

    /// Meets the next frame of the stream, and the changes before it, and returns whether it met them all.
    pub(crate) fn meet_frame<L: Look>(
        &mut self,
        look: &mut L,
        changes: &Changes<'_>,
        frame: &Frame,
    ) -> Result<bool, AllocError>
        requires { (run : WholeRun L) × (frames : List FrameTerm)
            × IsSound L.answers run look.old self.old changes.now (frame.now ∷ frames) }
        ensures { IfOk result (λ goes_on. (run : WholeRun L) (frames : List FrameTerm)
            → IsSound L.answers run look.old self.old changes.now (frame.now ∷ frames)
            → MatchBool goes_on (IsSound L.answers run look.new self.new changes.now frames)
            (HasStopped L.answers run look.new self.new)) }
    {
        if !self.meet_changes(look, changes, frame.number)? {
            return Ok(false);
        }
        let change = changes.at(self.met, frame.number);
        if !self.goes_on(look, frame.number) {
            return Ok(false);
        }
        self.count_frame(frame, &change)?;
        self.met = met_after(self.met, &change);
        Ok(true)
    }

    /// Counts a frame and the change that it brings, if it brings one, and adds what they show.
    fn count_frame(&mut self, frame: &Frame, change: &Option<Change>) -> Result<(), AllocError>
        requires { CanCount self.old (frame_with frame.now change.now) }
        ensures { OnOk result (HasCounted self.old (frame_with frame.now change.now) self.new) }
    {
        if self.count_quiet_frame(frame, change) {
            return Ok(());
        }
        self.count_shown(&Step {
            number: frame.number,
            frame: Some(*frame),
            change: *change,
        })
    }

    /// Counts a frame that is quiet and brings no change, if it is one, and returns whether it is.
    fn count_quiet_frame(&mut self, frame: &Frame, change: &Option<Change>) -> bool
        requires { CanCount self.old (frame_with frame.now change.now) }
        ensures counted { OnTrue result (HasCounted self.old (frame_with frame.now change.now) self.new) }
        ensures otherwise { OnFalse result (self.new ≡ self.old) }
    {
        if self.frames_shown || change.is_some() {
            return false;
        }
        let Some(one) = move_of(self.stream, &self.entry.life, frame) else {
            return false;
        };
        move_quietly(&mut self.entry.window, &one)
    }
}
