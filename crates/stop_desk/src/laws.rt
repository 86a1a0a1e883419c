//! Laws of a round in which workers draw jobs and share the stops of connections. The functions do nothing; each
//! contract is a law of the definitions in `specs/`.

ghost use Rattle.stop_desk.specs.laws.Rounds.{RunSettles, BoardMerges};

/// However workers draw jobs, look at stops, lower them and finish jobs: once each job is finished, the board is
/// settled. Every job was drawn by one worker and so has one part, and a stop is only ever an opening stop or an error
/// of a job.
#[tactic(auto, using(crate::proofs::RoundSteps::run_settles_lem))]
pub fn run_settles()
    ensures { RunSettles }
{}

/// The parts of a settled board give the findings of a connection that its whole jobs would give, up to its stop, and
/// the stop is the least error of all. Each place seen is a real error, so none lies below the least error; each part
/// has everything up to a place that was seen, and so up to the least error; so that error was found, lowered and kept,
/// and what is left out lies past it.
pub fn board_merges()
    ensures { BoardMerges }
{}

ghost use Rattle.stop_desk.specs.laws.Cuts.{FrontIsCut, WholeIsCut, CutsJoin};

/// What a part may be: a front of what its job finds or all of it, and parts of such lists put together, as where a job
/// has several streams, each of which went up to a place of its own.
pub fn cuts_join()
    ensures front { FrontIsCut }
    ensures whole { WholeIsCut }
    ensures join { CutsJoin }
{}

ghost use Rattle.stop_desk.specs.laws.Cuts.{StopsJoin};

/// What a round gives up to its stop may stand for what its whole jobs would give when further rounds add to it.
#[tactic(auto, using(crate::proofs::RoundCuts::stops_join_lem))]
pub fn rounds_join()
    ensures { StopsJoin }
{}
