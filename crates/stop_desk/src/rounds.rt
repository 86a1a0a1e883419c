ghost use Rattle.std.specs.Prelude.{◌≡◌, ℕ, ◌-◌, ◌^◌, ◌<◌, ◌≤◌, All, IfOk, length, slice_get, Option, Some};
ghost use Rattle.audit_terms.specs.declared.findings.Finding.{Finding as FindingTerm};
ghost use Rattle.audit_terms.specs.Place.{place_number};
ghost use Rattle.stop_desk.specs.code.Board.{Job, IsCut};
ghost use Rattle.stop_desk.specs.code.Heeding.{Heeds};

use audit_terms::{Finding, Look, Place};
use std::alloc::{AllocError, Global};

/// What a job found, and what it made.
#[derive(Drop)]
pub struct Work<M> {
    /// In order, and those at or before `upto` are all there.
    pub findings: Vec<Finding>,
    /// The place up to which the job went, or none where it is whole.
    pub upto: Option<Place>,
    pub made: M,
}

/// The jobs of one round, numbered from 0.
///
/// An implementor states its jobs, as if nothing stopped them, what may be made of each, and which looks a job has to
/// make that went up to a place.
pub trait Round: Sync {
    type Made: Drop + Send;

    ghost use Rattle.std.specs.Prelude.{ℕ, List, Option};
    ghost use Rattle.audit_terms.specs.code.runs.Look.{Asked};
    ghost use Rattle.stop_desk.specs.code.Board.{Job};

    ghost jobs: { Self → List Job };

    ghost makes: { Self → ℕ → Option ℕ → Self.Made → Type 0 };

    ghost looks: { Self → ℕ → List Asked → Option ℕ → Type 0 };

    /// How many jobs there are.
    fn count(&self) -> u32
        ensures { result ≡ length (jobs self.now) };

    /// The connection of a job.
    fn connection(&self, job: u32) -> usize
        requires { job < length (jobs self.now) }
        ensures { (one : Job) → slice_get (jobs self.now) job ≡ Some one → result ≡ one.connection };

    /// Does a job. It looks as it goes, as often as it has to, and may stop past the place that a look answered.
    fn work<L: Look>(
        &self,
        alloc: Global,
        job: u32,
        look: &mut L,
    ) -> Result<Work<Self::Made>, AllocError>
        requires { job < length (jobs self.now) }
        ensures cut { IfOk result (λ work. (one : Job) → slice_get (jobs self.now) job ≡ Some one
            → IsCut one.findings work.upto work.findings.items) }
        ensures made { IfOk result (λ work. makes self.now job work.upto work.made) }
        ensures numbered { IfOk result (λ work. All (λ (found : FindingTerm). place_number found.place ≤ 2 ^ 28 - 2)
            work.findings.items) }
        ensures looks { IfOk result (λ work. Heeds L.answers (looks self.now job) look.old look.new work.upto) };
}
