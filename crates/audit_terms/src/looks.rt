//! When a run looks for the stop of its connection.

ghost use Rattle.std.specs.Prelude.{◌≡◌, ℕ, List, [], Option};
ghost use Rattle.audit_terms.specs.declared.findings.Finding.{Finding as FindingTerm};
ghost use Rattle.audit_terms.specs.code.runs.Look.{is_past};
ghost use Rattle.audit_terms.specs.code.Watch.{GoesOn, HasMetBefore, NeverFallFrom, Watches};

use crate::findings::Finding;
use crate::places::Place;

/// Tells a run where its connection stops, as far as is known by now.
///
/// An implementor states how its state before, what it is handed, its answer and its state after are related.
pub trait Look {
    ghost use Rattle.audit_terms.specs.declared.findings.Finding.{Finding};

    ghost answers: { Self → List Finding → Option ℕ → Self → Type 0 };

    /// The place of the least connection error that is known, if one is. `found` is what the run found so far.
    fn look(&mut self, found: &[Finding]) -> Option<Place>
        ensures { answers self.old found.now result self.new };
}

/// How many steps a run makes from one look to the next, as `specs/code/runs/Look.antt` says. It bounds the work past a
/// stop, and spreads the cost of a look, which loads a word that other threads write.
const STEPS_BETWEEN: u32 = 256;

/// A run that looks, between two of its steps: the last answer, how often it looked, and when it is to look again.
#[derive(Clone, Copy)]
pub struct Watch {
    /// The last answer.
    pub stop: Option<Place>,
    /// How often the run looked.
    pub looks: u32,
    /// How many steps come before the next look.
    pub left: u32,
}

impl Watch {
    /// Looks before the first step.
    pub fn begin<L: Look>(look: &mut L) -> Self
        ensures { (whole : List FindingTerm) (numbers : List ℕ) → NeverFallFrom 0 numbers
            → Watches L.answers look.old look.new whole [] numbers result }
    {
        Watch {
            stop: look.look(&[]),
            looks: 1,
            left: STEPS_BETWEEN,
        }
    }

    /// Does a step at a frame of this number lie past the last answer?
    pub fn is_past(&self, number: u32) -> bool
        ensures { result ≡ is_past self.now.stop number }
    {
        match &self.stop {
            Some(place) => place.number() < number,
            None => false,
        }
    }

    /// Whether the run goes on to a step at a frame of this number, before which it looks if that is due. `found` is
    /// what was found at the frames before.
    pub fn goes_on<L: Look>(&mut self, look: &mut L, found: &[Finding], number: u32) -> bool
        requires { HasMetBefore number self.old }
        ensures { GoesOn L.answers look.old look.new found.now number self.old self.new result }
    {
        if self.is_past(number) {
            return false;
        }
        if self.left == 0 {
            self.stop = look.look(found);
            self.looks += 1;
            self.left = STEPS_BETWEEN;
            if self.is_past(number) {
                return false;
            }
        }
        self.left -= 1;
        true
    }
}
