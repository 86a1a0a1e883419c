//! Worked examples of a round of workers, by proof: one that finishes, with what it leaves, and steps that no worker
//! may take. The functions do nothing; each contract is an example.
ghost use Rattle.stop_desk.specs.examples.Rounds.{TwoWorkersFinish, TwoWorkersSettle, TwoWorkersMerge, DrawnTwice};
ghost use Rattle.stop_desk.specs.examples.Rounds.{LookInvents, CutUnseen, AllSkipped, OverrunLowered};
ghost use Rattle.stop_desk.specs.examples.Rounds.{ErrorNotLowered};

/// A worker meets an error of the connection, and another sees that and leaves out what it found past it.
#[tactic(auto, using(crate::proofs::RoundExamples::two_workers))]
pub fn withdrawn_findings()
    ensures finish { TwoWorkersFinish }
    ensures settle { TwoWorkersSettle }
    ensures merge { TwoWorkersMerge }
{}

/// What no worker may do.
#[tactic(auto, using(crate::proofs::RoundExamples::refused))]
pub fn refused_steps()
    ensures drawn_twice { DrawnTwice }
    ensures look_invents { LookInvents }
    ensures cut_unseen { CutUnseen }
    ensures all_skipped { AllSkipped }
    ensures overrun_lowered { OverrunLowered }
    ensures error_not_lowered { ErrorNotLowered }
{}
