//! Laws of the definitions in `specs/`. The functions do nothing; each contract is a law.

ghost use Rattle.audit_rounds.specs.laws.Openings.{OpeningsAreFound};
ghost use Rattle.audit_rounds.specs.laws.Items.{ItemsAreFound};
ghost use Rattle.audit_rounds.specs.laws.Rounds.{RoundsMakePass};
ghost use Rattle.audit_rounds.specs.laws.Settling.{RoundsSettle, OpeningsAreTold};

/// What the rounds of a divided audit show makes what is shown of the pass, however the frames are divided into blocks.
pub fn rounds_make_the_pass()
    ensures { RoundsMakePass }
{}

/// They do so as well where the round over streams has left out what lies past the stop, and the blocks are those of
/// the frames up to it: what lies past a stop does not count, and the openings up to it are known.
pub fn rounds_settle()
    ensures { RoundsSettle }
{}

/// The frames that open their streams in the pass are the HEADERS whose numbers the streams by themselves tell.
#[tactic(auto, using(crate::proofs::Openings::openings_are_found_lem))]
pub fn openings_are_found()
    ensures { OpeningsAreFound }
{}

/// So the items of the pass are found from those numbers and the connection's changes.
#[tactic(auto, using(crate::proofs::Items::items_are_found_lem))]
pub fn items_are_found()
    ensures { ItemsAreFound }
{}

/// The run of a stream that went up to some place tells its opening if that stands there, so the runs of all streams,
/// each of which reached the stop, tell the openings up to the stop.
pub fn openings_are_told()
    ensures { OpeningsAreTold }
{}
