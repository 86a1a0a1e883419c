ghost use Rattle.std.specs.Prelude.{◌≡◌, ◌+◌, ◌<◌, All, Contains, IfOk, length};
ghost use Rattle.std.specs.List.Sorted.{IsPermutation, IsNonDecreasingBy};
ghost use Rattle.stop_desk.specs.code.Stop.{IsStop};
ghost use Rattle.stop_desk.specs.code.Board.{Job};
ghost use Rattle.stop_desk.specs.declared.parts.Part.{Part as PartTerm};
ghost use Rattle.stop_desk.specs.code.Crew.{last_stops};
ghost use Rattle.stop_desk.specs.code.Settling.{HasSettled};

use crate::audit_round::AuditRound;
use crate::closing::Closed;
use crate::crews::crew;
use crate::desks::Desk;
use crate::gate::Gate;
use crate::parts::Part;
use crate::rounds::Round;
use crate::teams::Team;
use audit_terms::Place;
use std::alloc::{AllocError, Global};
use std::thread::Threads;

/// A part for each job of a round, in the order of the jobs, and where each connection stops, if it does.
#[derive(Drop)]
pub struct Settled<M> {
    pub parts: Vec<Part<M>>,
    pub stops: Vec<Option<Place>>,
}

/// Puts parts in the order of their jobs.
fn put_in_job_order<M>(parts: &mut Vec<Part<M>>)
    ensures same { IsPermutation parts.old.items parts.new.items }
    ensures sorted { IsNonDecreasingBy (λ (part : PartTerm M). part.job) parts.new.items }
{
    parts.sort_unstable_by_key(|part| part.job);
}

/// The last stop of each connection, where `opening` is the stop that it had first.
fn stops_of(
    alloc: Global,
    closed: &Closed,
    opening: &[Option<Place>],
) -> Result<Vec<Option<Place>>, AllocError>
    requires { length closed.now.desk.opened ≡ length opening.now + 1 }
    ensures { IfOk result (λ stops. stops.items ≡ last_stops closed.now) }
{
    let mut stops = Vec::with_capacity(alloc, opening.len())?;
    for connection in 0..opening.len() {
        stops.push(closed.stop(connection))?;
    }
    Ok(stops)
}

/// Has workers do all jobs of a round, given where some connections are known to stop.
///
/// `Err` only where memory runs out. There are at most as many workers as jobs.
pub fn settle<R: Threads + Sync, G: Gate, P: Round>(
    team: &Team<'_, R, G>,
    round: AuditRound,
    stops: &[Option<Place>],
    plan: &P,
) -> Result<Settled<P::Made>, AllocError>
    requires places { All IsStop stops.now }
    requires connections { All (λ (job : Job). job.connection < length stops.now) (P.jobs plan.now) }
    ensures settled { IfOk result (λ settled. HasSettled (P.makes plan.now) (P.jobs plan.now) stops.now settled) }
    ensures round { IfOk result (λ settled. (part : PartTerm P.Made) → Contains settled.parts.items part
        → part.round ≡ round) }
{
    let jobs = plan.count();
    let workers = team.workers.min(jobs).max(1);
    let (desk, pass) = Desk::make(team.alloc, jobs, stops, workers)?;
    let (mut parts, closed) = crew(&team.with_workers(workers), desk, pass, round, plan)?;
    put_in_job_order(&mut parts);
    let stops = stops_of(team.alloc, &closed, stops)?;
    Ok(Settled { parts, stops })
}
