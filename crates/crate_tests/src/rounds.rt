//! A round whose jobs tell what their look answered.

ghost use Rattle.std.specs.Prelude.{◌-◌, ◌^◌, ◌≤◌, [], ◌∷◌};
ghost use Rattle.audit_terms.specs.Place.{place_number};

use crate::Answer;
use crate::fakes::TestGate;
use audit_terms::{Finding, Kind, Look, Place, Side};
use std::alloc::{AllocError, Global};
use std::thread::Threads;
use stop_desk::{AuditRound, Round, Settled, Team, Work, settle};

/// Two jobs of one connection, which both find this error, whatever their look answers.
#[derive(Drop)]
struct TwoJobs {
    error: Finding,
    ghost numbered: { place_number error.place ≤ 2 ^ 28 - 2 },
}

impl Round for TwoJobs {
    type Made = Option<Place>;

    ghost jobs = { λ round. record { connection = 0; findings = round.error ∷ [] }
        ∷ record { connection = 0; findings = round.error ∷ [] } ∷ [] };

    ghost makes = { λ round job upto made. Unit {0} };

    ghost looks = { λ round job asked upto. Unit {0} };

    fn count(&self) -> u32 {
        2
    }

    fn connection(&self, _job: u32) -> usize {
        0
    }

    fn work<L: Look>(
        &self,
        alloc: Global,
        _job: u32,
        look: &mut L,
    ) -> Result<Work<Option<Place>>, AllocError> {
        let made = look.look(&[]);
        Ok(Work {
            findings: Vec::from_slice(alloc, &[self.error])?,
            upto: None,
            made,
        })
    }
}

/// What one worker makes of both jobs, which find an error at frame 5.
fn settled(
    rt: &(impl Sync + Threads),
    alloc: Global,
) -> Result<Settled<Option<Place>>, AllocError> {
    let round = TwoJobs {
        error: Finding::at(Kind::NotOpened, 5, 9, Side::Server, 3),
    };
    let team = Team {
        rt,
        alloc,
        workers: 1,
        gate: &TestGate::holding(0),
    };
    settle(&team, AuditRound::Streams, &[None], &round)
}

/// The jobs are done in turn: the first one finds the error, and the second one sees it.
pub fn later_job_sees_stop(rt: &(impl Sync + Threads), alloc: Global) -> Answer {
    let settled = settled(rt, alloc)?;
    let stop = Some(Place::of(5, Kind::NotOpened.rank(), 9));
    let [first, second] = settled.parts.as_slice() else {
        return Ok(false);
    };
    let made = [first.made, second.made];
    Ok(made == [None, stop] && settled.stops.as_slice() == [stop].as_slice())
}
