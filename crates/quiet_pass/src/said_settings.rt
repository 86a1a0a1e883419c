//! What SETTINGS and acknowledgements show, and the machine after them.

ghost use Rattle.std.specs.Prelude.{◌≡◌, ◌≤◌, ◌-◌, ◌^◌, false, IfOk, OnOk};
ghost use Rattle.std.specs.Bool.{OnFalse, OnTrue};
ghost use Rattle.audit_terms.specs.code.runs.Orderly.{IsInRange};
ghost use Rattle.audit_terms.specs.Pass.{PassState};
ghost use Rattle.audit_terms.specs.Frame.{is_server_promise};
ghost use Rattle.quiet_pass.specs.code.AllStreams.{HoldRoom};
ghost use Rattle.quiet_pass.specs.code.Connection.{IsConnectionAfter};
ghost use Rattle.quiet_pass.specs.code.QuietPass.{HasBrought, HasRoomKept, IsQuietStep, MovesNoStream};
ghost use Rattle.quiet_pass.specs.code.QuietPass.{StandsFor};
ghost use Rattle.audit_terms.specs.code.runs.Streams.{initial_after};
ghost use Rattle.quiet_pass.specs.code.SaidFrames.{HasCountedMoves, IsBroughtSaying, IsSaidStep};
ghost use Rattle.quiet_pass.specs.declared.passes.QuietPass.{QuietPass as PassTerm};

use crate::passes::{QuietPass, is_unmatched, keep_last};
use crate::quiet_frames::is_followed;
use crate::said_frames::shows_stop;
use audit_terms::{Change, Finding, Frame, Step, initial_after};
use fault_rules::say_unmatched;
use std::alloc::{AllocError, Global};

/// How many rows changes may move for each frame so far: a change that moves windows updates all of them.
const MOST_MOVES: u64 = 64;

impl QuietPass {
    /// Meets SETTINGS or an acknowledgement beside what its settings met, which bring this change or none. Returns
    /// false if that may show something or moves windows of streams: then the machine is as it was.
    pub(crate) fn meet_still(&mut self, frame: &Frame, change: &Option<Change>) -> bool
        requires { MovesNoStream frame.now }
        ensures quiet { OnTrue result ((before : PassTerm) → HasBrought frame.now change.now before self.old
            → (state : PassState) → StandsFor before state → IsQuietStep state frame.now self.new) }
        ensures left { OnFalse result (self.new ≡ self.old) }
    {
        if frame.stream != 0 || is_unmatched(frame, change) {
            return false;
        }
        if !is_followed(self.last.of(frame.side), frame) || !self.meet_change(frame, change) {
            return false;
        }
        keep_last(&mut self.last, frame);
        true
    }

    /// Meets the change that such a frame brings, or none, and returns false if that may show something of the
    /// connection or moves windows of streams.
    #[inline]
    fn meet_change(&mut self, frame: &Frame, change: &Option<Change>) -> bool
        requires { is_server_promise frame.now ≡ false }
        ensures windows { OnTrue result (self.old.initial ≡ initial_after change.now self.old.initial) }
        ensures connection { OnTrue result (IsConnectionAfter frame.now false change.now self.old.connection
            self.new.connection) }
        ensures rest { self.new ≡ record self.old { connection = self.new.connection } }
        ensures left { OnFalse result (self.new ≡ self.old) }
    {
        if change.is_none() {
            return self.connection.meet_lone(frame);
        }
        if !self.leaves_windows(change) {
            return false;
        }
        self.connection.meet(frame, change)
    }

    /// What SETTINGS or an acknowledgement show, in order, where its settings have met it, which bring this change or
    /// none; then the machine is past it, unless the audit stops there.
    pub(crate) fn say_settings(
        &mut self,
        alloc: Global,
        frames_shown: bool,
        frame: &Frame,
        change: &Option<Change>,
    ) -> Result<Vec<Finding>, AllocError>
        requires range { IsInRange frame.now }
        requires unmoved { MovesNoStream frame.now }
        requires room { HasRoomKept self.old }
        ensures { IfOk result (λ found. (before : PassTerm) → HasBrought frame.now change.now before self.old
            → (state : PassState) → StandsFor before state
            → IsSaidStep frames_shown state frame.now found.items self.new) }
    {
        let mut found = Vec::new(alloc);
        say_unmatched(&mut found, frame, change)?;
        let connection = self.say_alone(&mut found, frame, false, change)?;
        self.say_change(alloc, frames_shown, &mut found, frame, change)?;
        if shows_stop(frames_shown, &mut found)? {
            return Ok(found);
        }
        self.keep_connection(frame, &connection);
        Ok(found)
    }

    /// Are the initial windows in force the same after a change?
    fn leaves_windows(&self, change: &Option<Change>) -> bool
        ensures { OnTrue result (self.now.initial ≡ initial_after change.now self.now.initial) }
    {
        let after = initial_after(change, &self.initial);
        after.client == self.initial.client && after.server == self.initial.server
    }

    /// Brings the initial windows of a frame's change into force, and adds what that shows of all streams (RFC 9113,
    /// 6.9.2).
    fn say_change(
        &mut self,
        alloc: Global,
        frames_shown: bool,
        found: &mut Vec<Finding>,
        frame: &Frame,
        change: &Option<Change>,
    ) -> Result<(), AllocError>
        requires numbered { frame.now.number ≤ 2 ^ 28 - 2 }
        requires room { HoldRoom self.old.streams }
        ensures { OnOk result (IsBroughtSaying frames_shown frame.now change.now self.old self.new found.old.items
            found.new.items) }
    {
        if self.leaves_windows(change) {
            return Ok(());
        }
        let after = initial_after(change, &self.initial);
        self.count_moves(alloc, frames_shown, frame)?;
        let step = Step {
            number: frame.number,
            frame: None,
            change: *change,
        };
        self.streams
            .say_change(alloc, frames_shown, found, &self.initial, &step)?;
        self.initial = after;
        Ok(())
    }

    /// Counts the rows that a change moves. Where those are too many, all rows are brought to hold credits less a
    /// shift, so that a change moves that alone.
    fn count_moves(
        &mut self,
        alloc: Global,
        frames_shown: bool,
        frame: &Frame,
    ) -> Result<(), AllocError>
        ensures { OnOk result (HasCountedMoves self.old self.new) }
    {
        if self.streams.are_shifted() {
            return Ok(());
        }
        let Some(moves) = self.moves_with(frame) else {
            self.streams.shift_by(alloc, frames_shown, &self.initial)?;
            return Ok(());
        };
        self.moves = moves;
        Ok(())
    }

    /// How many rows changes have moved, if a frame moves all of them, and may do so.
    fn moves_with(&self, frame: &Frame) -> Option<u64> {
        let moves = self.moves.saturating_add(self.streams.count() as u64);
        let most = (u64::from(frame.number) + 1) * MOST_MOVES;
        (moves <= most).then_some(moves)
    }
}
