//! Quiet streams, of which nothing is shown where credits are not: most are quiet. Such a stream is told by its frames
//! in capture order, beside all others, and needs no run of its own.

ghost use Rattle.std.specs.Prelude.{◌≡◌, ℕ, ◌+◌, ◌^◌, ◌<◌, ◌≤◌, List, [], ◌∷◌, drop, length};
ghost use Rattle.std.specs.Bool.{OnTrue};
ghost use Rattle.std.specs.Option.{ForSome};
ghost use Rattle.audit_terms.specs.declared.frames.Frame.{Frame as FrameTerm};
ghost use Rattle.audit_terms.specs.declared.items.Change.{Change as ChangeTerm};
ghost use Rattle.audit_terms.specs.code.runs.Orderly.{IsOrderly};
ghost use Rattle.audit_terms.specs.code.runs.Changes.{AreOrderly, AreAcknowledged};
ghost use Rattle.stream_credit.specs.code.Changes.{AreFrom, initial_at};
ghost use Rattle.stream_credit.specs.code.Standings.{IsNext};
ghost use Rattle.stream_credit.specs.code.QuietStream.{CanMeet, HasMetChanges, IsAhead, IsAheadIfQuiet};
ghost use Rattle.stream_credit.specs.code.QuietStream.{IsPassed, IsQuietToEnd};

use crate::changes::{Changes, windows_after};
use crate::stream_standings::Standings;
use audit_terms::{Frame, Length, Sides};

/// The most changes that a stream is followed through: more do not fit the three bytes of its count.
const MOST_CHANGES_MET: u32 = 0xff_ffff;

/// A stream between two of its frames, for as long as it is quiet. A connection keeps many: it takes 16 bytes, what
/// needs no alignment last.
#[derive(Clone, Copy)]
pub struct QuietStream {
    pub standings: Standings,
    /// How many of the connection's changes it has met.
    pub met: Length,
    /// Is it known to be quiet so far? If not, the rest says nothing of it.
    pub is_quiet: bool,
}

const _: () = prove!(size_of::<QuietStream>() == 16);

/// A number of changes as it is kept, if it fits.
fn kept_met(met: u32) -> Option<Length>
    ensures { ForSome result (λ kept. kept ≡ met) }
{
    if met > MOST_CHANGES_MET {
        return None;
    }
    Some(Length::of(met))
}

impl QuietStream {
    /// A stream that no frame has met.
    pub fn idle() -> Self
        ensures { (stream : ℕ) (changes : List ChangeTerm) (all : List FrameTerm) → stream < 2 ^ 31 → IsOrderly all
            → AreOrderly changes → AreAcknowledged all changes → IsAheadIfQuiet stream changes all all result }
    {
        QuietStream {
            standings: Standings::idle(),
            met: Length::of(0),
            is_quiet: true,
        }
    }

    /// Meets a change that moves its windows from one initial window to another, and returns false if that may show
    /// something.
    fn meet_change(&mut self, before: &Sides<u32>, after: &Sides<u32>) -> bool
        requires { self.old.met < 2 ^ 28 }
        ensures { OnTrue result (IsPassed before.now after.now self.old self.new) }
    {
        let (Some(next), Some(met)) = (
            self.standings.after_change(before, after),
            kept_met(self.met.get() + 1),
        ) else {
            return false;
        };
        self.standings = next;
        self.met = met;
        true
    }

    /// Meets the changes before a number while a window lives, one by one, and returns false if they may show
    /// something.
    fn meet_each(&mut self, changes: &Changes<'_>, number: u32) -> bool
        requires { CanMeet number changes.now self.old }
        ensures { OnTrue result (HasMetChanges number changes.now self.old self.new) }
    {
        while let Some(change) = changes.before(self.met.get(), number) {
            let initial = changes.initial_at(self.met.get());
            if !self.meet_change(&initial, &windows_after(&change, &initial)) {
                return false;
            }
        }
        true
    }

    /// Meets the changes before a number, and returns false if they may show something. A change that finds no live
    /// window is skipped.
    fn meet_changes(&mut self, changes: &Changes<'_>, number: u32) -> bool
        requires { CanMeet number changes.now self.old }
        ensures { OnTrue result (HasMetChanges number changes.now self.old self.new) }
    {
        if self.standings.is_live() {
            return self.meet_each(changes, number);
        }
        let Some(met) = kept_met(changes.passed(self.met.get(), number)) else {
            return false;
        };
        self.met = met;
        true
    }

    /// Meets its next frame, behind the changes before it, and returns false if it may show something.
    fn meet_frame(&mut self, stream: u32, changes: &Changes<'_>, frame: &Frame) -> bool
        requires ahead { (all rest : List FrameTerm) × IsAhead stream changes.now all (frame.now ∷ rest) self.old }
        requires passed { AreFrom frame.now.number (drop self.old.met changes.now) }
        ensures { OnTrue result ((all rest : List FrameTerm)
            → IsAhead stream changes.now all (frame.now ∷ rest) self.old
            → IsAhead stream changes.now all rest self.new) }
    {
        if let Some(_) = changes.at(self.met.get(), frame.number) {
            return false;
        }
        let Some(next) = self.standings_after(stream, changes, frame) else {
            return false;
        };
        self.standings = next;
        true
    }

    /// How it stands after a frame without a change, if that shows nothing.
    fn standings_after(
        &self,
        stream: u32,
        changes: &Changes<'_>,
        frame: &Frame,
    ) -> Option<Standings>
        requires { self.now.met ≤ length changes.now }
        ensures { ForSome result (IsNext stream (initial_at self.now.met changes.now) frame.now self.now.standings) }
    {
        if self.standings.is_idle() {
            let initial = changes.initial_at(self.met.get());
            return Standings::first(stream, &initial, frame);
        }
        self.standings.met(stream, frame)
    }

    /// The stream after its next frame and the changes before it.
    pub fn meet(&mut self, stream: u32, changes: &Changes<'_>, frame: &Frame)
        requires { (all rest : List FrameTerm) × IsAheadIfQuiet stream changes.now all (frame.now ∷ rest) self.old }
        ensures { (all rest : List FrameTerm)
            → IsAheadIfQuiet stream changes.now all (frame.now ∷ rest) self.old
            → IsAheadIfQuiet stream changes.now all rest self.new }
    {
        if !self.is_quiet {
            return;
        }
        if !self.meet_changes(changes, frame.number) {
            self.is_quiet = false;
            return;
        }
        self.is_quiet = self.meet_frame(stream, changes, frame);
    }

    /// The stream after the changes behind its last frame.
    pub fn finish(&mut self, stream: u32, changes: &Changes<'_>)
        requires { (all : List FrameTerm) × IsAheadIfQuiet stream changes.now all [] self.old }
        ensures { (all : List FrameTerm) → IsAheadIfQuiet stream changes.now all [] self.old
            → OnTrue self.new.is_quiet (IsQuietToEnd stream changes.now all self.new.standings.opened) }
    {
        if self.is_quiet {
            self.is_quiet = self.meet_changes(changes, u32::MAX);
        }
    }
}
