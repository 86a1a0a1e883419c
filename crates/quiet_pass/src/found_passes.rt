//! The machine that meets a connection's frames one by one, and says what they show.

ghost use Rattle.std.specs.Prelude.{◌≡◌, false, [], ◌∷◌, ◌++◌, List, Option, IfOk, OnOk};
ghost use Rattle.std.specs.Bool.{OnFalse, OnTrue};
ghost use Rattle.audit_terms.specs.declared.frames.Frame.{Frame as FrameTerm};
ghost use Rattle.audit_terms.specs.code.runs.Orderly.{IsInRange, IsOrderly};
ghost use Rattle.quiet_pass.specs.code.FoundPass.{HasFoundAmong, HasSaid, IsAdded, IsFoundAfter};
ghost use Rattle.audit_terms.specs.Pass.{PassState};
ghost use Rattle.quiet_pass.specs.code.QuietPass.{BringsNothing, HasBrought, HasRoomKept, IsQuietStep, MovesLittle};
ghost use Rattle.quiet_pass.specs.code.QuietPass.{MovesNoStream, StandsFor};
ghost use Rattle.quiet_pass.specs.declared.passes.QuietPass.{QuietPass as PassTerm};

use crate::passes::{QuietPass, is_of_settings};
use crate::quiet_frames::moves_little;
use crate::said_frames::has_stop;
use audit_terms::{Change, Finding, Frame, TimedFinding};
use std::alloc::{AllocError, Global};

/// A connection between two of its frames, with what they show.
#[derive(Drop)]
pub(crate) struct FoundPass {
    /// Are credits shown? Then each frame is met in full.
    pub(crate) frames_shown: bool,
    pass: QuietPass,
    /// What was shown so far, in order.
    pub(crate) found: Vec<TimedFinding>,
    /// Did the audit stop? Then nothing more is shown.
    has_stopped: bool,
}

impl FoundPass {
    /// A connection before any frame.
    pub(crate) fn begin(alloc: Global, frames_shown: bool) -> Self
        ensures after { IsFoundAfter [] result }
        ensures shown { result.frames_shown ≡ frames_shown }
    {
        FoundPass {
            frames_shown,
            pass: QuietPass::begin(alloc),
            found: Vec::new(alloc),
            has_stopped: false,
        }
    }

    /// Meets the next frame.
    pub(crate) fn meet(&mut self, alloc: Global, frame: &Frame) -> Result<(), AllocError>
        requires { (frames : List FrameTerm) × IsFoundAfter frames self.old
            × IsOrderly (frames ++ frame.now ∷ []) }
        ensures after { OnOk result ((frames : List FrameTerm) → IsFoundAfter frames self.old
            → IsOrderly (frames ++ frame.now ∷ []) → IsFoundAfter (frames ++ frame.now ∷ []) self.new) }
        ensures same { OnOk result (self.new.frames_shown ≡ self.old.frames_shown) }
    {
        if self.has_stopped {
            return Ok(());
        }
        moves_little(frame);
        if is_of_settings(frame) {
            return self.meet_settings(alloc, frame);
        }
        let is_quiet = self.step(frame)?;
        if is_quiet {
            return Ok(());
        }
        self.say(alloc, frame)?;
        Ok(())
    }

    /// Meets a frame that brings no change, and returns false if that may show something: then the machine is as it
    /// was.
    fn step(&mut self, frame: &Frame) -> Result<bool, AllocError>
        requires range { IsInRange frame.now }
        requires plain { BringsNothing frame.now }
        ensures hidden { IfOk result (λ met. OnTrue met (self.old.frames_shown ≡ false)) }
        ensures quiet { IfOk result (λ met. OnTrue met ((state : PassState) → StandsFor self.old.pass state
            → IsQuietStep state frame.now self.new.pass)) }
        ensures rest { IfOk result (λ met. self.new ≡ record self.old { pass = self.new.pass }) }
        ensures left { IfOk result (λ met. OnFalse met (self.new.pass ≡ self.old.pass)) }
    {
        if self.frames_shown {
            return Ok(false);
        }
        let is_quiet = self.pass.step(frame)?;
        Ok(is_quiet)
    }

    /// Meets SETTINGS or an acknowledgement, before the audit stopped. What they show is said only where that may be
    /// something, or where windows of streams move.
    #[inline(never)]
    fn meet_settings(&mut self, alloc: Global, frame: &Frame) -> Result<(), AllocError>
        requires range { IsInRange frame.now }
        requires little { MovesLittle frame.now }
        requires unmoved { MovesNoStream frame.now }
        requires room { HasRoomKept self.old.pass }
        requires on { self.old.has_stopped ≡ false }
        ensures after { OnOk result ((frames : List FrameTerm) → IsFoundAfter frames self.old
            → IsOrderly (frames ++ frame.now ∷ []) → IsFoundAfter (frames ++ frame.now ∷ []) self.new) }
        ensures same { OnOk result (self.new.frames_shown ≡ self.old.frames_shown) }
    {
        let change = self.pass.pending.meet(frame)?;
        if self.meet_still(frame, &change) {
            return Ok(());
        }
        let said = self
            .pass
            .say_settings(alloc, self.frames_shown, frame, &change)?;
        self.add(said.as_slice(), frame)?;
        Ok(())
    }

    /// Meets SETTINGS or an acknowledgement beside what its settings met, and returns false if that may show something
    /// or moves windows of streams: then the machine is as it was.
    fn meet_still(&mut self, frame: &Frame, change: &Option<Change>) -> bool
        requires { MovesNoStream frame.now }
        ensures hidden { OnTrue result (self.old.frames_shown ≡ false) }
        ensures quiet { OnTrue result ((before : PassTerm) → HasBrought frame.now change.now before self.old.pass
            → (state : PassState) → StandsFor before state → IsQuietStep state frame.now self.new.pass) }
        ensures rest { self.new ≡ record self.old { pass = self.new.pass } }
        ensures left { OnFalse result (self.new.pass ≡ self.old.pass) }
    {
        if self.frames_shown {
            return false;
        }
        self.pass.meet_still(frame, change)
    }

    /// Meets more frames.
    pub(crate) fn meet_all(&mut self, alloc: Global, frames: &[Frame]) -> Result<(), AllocError>
        requires { (before : List FrameTerm) × IsFoundAfter before self.old × IsOrderly (before ++ frames.now) }
        ensures after { OnOk result ((before : List FrameTerm) → IsFoundAfter before self.old
            → IsOrderly (before ++ frames.now) → IsFoundAfter (before ++ frames.now) self.new) }
        ensures same { OnOk result (self.new.frames_shown ≡ self.old.frames_shown) }
    {
        for frame in frames {
            self.meet(alloc, frame)?;
        }
        Ok(())
    }

    /// Meets more frames, if nothing was found, for as long as nothing is. Returns false if something was.
    pub(crate) fn meet_silent(
        &mut self,
        alloc: Global,
        frames: &[Frame],
    ) -> Result<bool, AllocError>
        requires { (before : List FrameTerm) × IsFoundAfter before self.old × IsOrderly (before ++ frames.now) }
        ensures after { IfOk result (λ met. OnTrue met ((before : List FrameTerm) → IsFoundAfter before self.old
            → IsOrderly (before ++ frames.now) → IsFoundAfter (before ++ frames.now) self.new)) }
        ensures found { IfOk result (λ met. OnFalse met ((before : List FrameTerm) → IsFoundAfter before self.old
            → IsOrderly (before ++ frames.now) → HasFoundAmong before frames.now self.new)) }
        ensures same { OnOk result (self.new.frames_shown ≡ self.old.frames_shown) }
    {
        for frame in frames {
            if !self.found.is_empty() {
                return Ok(false);
            }
            self.meet(alloc, frame)?;
        }
        Ok(true)
    }

    /// Did the audit stop?
    pub(crate) fn has_stopped(&self) -> bool {
        self.has_stopped
    }

    /// Meets a frame that may show something and brings no change, and says what it does.
    // Measured, in line it made the walk over quiet frames a tenth longer.
    #[cold]
    #[inline(never)]
    fn say(&mut self, alloc: Global, frame: &Frame) -> Result<(), AllocError>
        requires range { IsInRange frame.now }
        requires plain { BringsNothing frame.now }
        requires room { HasRoomKept self.old.pass }
        ensures { OnOk result (HasSaid frame.now self.old self.new) }
    {
        let said = self.pass.say(alloc, self.frames_shown, frame)?;
        self.add(said.as_slice(), frame)?;
        Ok(())
    }

    /// Adds what a frame shows.
    fn add(&mut self, said: &[Finding], frame: &Frame) -> Result<(), AllocError>
        ensures added { OnOk result (IsAdded frame.now said.now self.old self.new) }
        ensures pass { OnOk result (self.new.pass ≡ self.old.pass) }
    {
        self.has_stopped = has_stop(said);
        for one in said {
            self.found.push(TimedFinding::of(one, frame))?;
        }
        Ok(())
    }
}
