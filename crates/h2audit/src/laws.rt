//! Laws of the definitions. The functions do nothing; their contracts are the laws.

ghost use Rattle.h2audit.specs.laws.OneReport.{OneReport};
ghost use Rattle.h2audit.specs.laws.Run.{FaultsAreSilent, RunsLeave};

/// The bytes of a capture, and whether credits are shown, determine the report's text and the verdict.
pub fn one_report()
    ensures { OneReport }
{}

/// What a run leaves in a writer that tells its bytes, where its reader tells them too: clauses `leaves` and `judged`
/// that `run` need not have, since they follow from `tells`, `given` and `taken`.
pub fn runs_leave<R, W>()
    ensures { RunsLeave R W }
{}

/// After a fault other than a failed write the writer holds what it held before the run.
pub fn faults_are_silent<R, W>()
    ensures { FaultsAreSilent R W }
{}
