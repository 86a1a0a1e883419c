//! Workers on threads of their own, over one desk.

ghost use Rattle.std.specs.Prelude.{◌≡◌, ◌+◌, ◌-◌, ◌<◌, [], ◌++◌, All, IfOk, MatchResult, length};
ghost use Rattle.std.specs.Thread.{IsSend, IsSync};
ghost use Rattle.stop_desk.specs.code.Desk.{pass_of, unused, all_draws, IsConnection};
ghost use Rattle.stop_desk.specs.code.Board.{Job};
ghost use Rattle.stop_desk.specs.code.Crew.{IsDone};
ghost use Rattle.stop_desk.specs.code.Worked.{AreAllWorked};

use crate::audit_round::AuditRound;
use crate::closing::Closed;
use crate::desks::Desk;
use crate::gate::Gate;
use crate::parts::Part;
use crate::passes::Pass;
use crate::rounds::Round;
use crate::teams::Team;
use crate::workers::{Shift, work};
use std::alloc::{AllocError, Global};
use std::thread::{Threads, join};

/// Gives some of the workers of an unused pass a pass of their own.
fn split_pass(desk: &Desk, pass: Pass, workers: u32, given: u32) -> (Pass, Pass)
    requires fresh { pass ≡ unused desk.now workers }
    requires some { 0 < given }
    requires fewer { given < workers }
    ensures kept { result.0 ≡ unused desk.now (workers - given) }
    ensures given { result.1 ≡ unused desk.now given }
{
    pass.split(desk, u64::from(given) * (u64::from(desk.jobs()) + 1))
}

/// Joins what two groups of workers laid down, and their passes, where both had memory.
fn both_worked<M: Drop>(
    desk: &Desk,
    mine: Result<(Vec<Part<M>>, Pass), AllocError>,
    theirs: Result<(Vec<Part<M>>, Pass), AllocError>,
) -> Result<(Vec<Part<M>>, Pass), AllocError>
    requires mine { IfOk mine (λ m. m.1.desk ≡ desk.now.id) }
    requires theirs { IfOk theirs (λ t. t.1.desk ≡ desk.now.id) }
    ensures { IfOk result (λ r. MatchResult mine (λ m. MatchResult theirs (λ t. (r.0.items ≡ m.0.items ++ t.0.items)
        × (r.1 ≡ pass_of m.1.desk (m.1.allowance + t.1.allowance) (m.1.drawn ++ t.1.drawn)
        (m.1.seen ++ t.1.seen) (m.1.lowered ++ t.1.lowered))) (λ _. ⊥)) (λ _. ⊥)) }
{
    let (mut parts, pass) = mine?;
    let (mut more, other) = theirs?;
    parts.append(&mut more)?;
    Ok((parts, pass.join(other, desk)))
}

/// Has one worker do jobs until none is left.
fn work_alone<G: Gate, P: Round>(
    alloc: Global,
    shift: &Shift<'_, G, P>,
    pass: Pass,
) -> Result<(Vec<Part<P::Made>>, Pass), AllocError>
    requires { pass ≡ unused shift.now.desk.now 1 }
    ensures { IfOk result (λ r. AreAllWorked (P.makes shift.now.plan.now) (P.jobs shift.now.plan.now)
        shift.now.desk.now shift.now.round 1 r.0.items r.1) }
{
    work(alloc, shift, pass)
}

/// Has one worker do jobs on a thread of its own, while this one waits.
fn work_apart<R: Threads, G: Gate, P: Round>(
    rt: &R,
    alloc: Global,
    shift: &Shift<'_, G, P>,
    pass: Pass,
) -> Result<(Vec<Part<P::Made>>, Pass), AllocError>
    requires { pass ≡ unused shift.now.desk.now 1 }
    ensures { IfOk result (λ r. AreAllWorked (P.makes shift.now.plan.now) (P.jobs shift.now.plan.now)
        shift.now.desk.now shift.now.round 1 r.0.items r.1) }
{
    let (done, ()) = join(
        rt,
        || -> Result<(Vec<Part<P::Made>>, Pass), AllocError>
            requires { IsSend P.Made.row × IsSync G.row × IsSync P.row × (pass ≡ unused shift.now.desk.now 1) }
            ensures { IfOk result (λ r. AreAllWorked (P.makes shift.entry.now.plan.now)
                (P.jobs shift.entry.now.plan.now) shift.entry.now.desk.now shift.entry.now.round 1 r.0.items r.1) }
        { work_alone(alloc, shift, pass) },
        || (),
    );
    done
}

/// Has workers do all jobs, each on a thread of its own, while this one starts them and waits.
///
/// Linux starts about every third thread on the processor of the one that starts it: there it would wait for as long as
/// this one works, though others idle (docs/DECISIONS.md, D-121). Measured with bare threads, four that work for a
/// millisecond each take 1.4 times as long where this one works too, and 1.9 times where halves start each other.
fn fork<R: Threads + Sync, G: Gate, P: Round>(
    rt: &R,
    alloc: Global,
    workers: u32,
    shift: &Shift<'_, G, P>,
    pass: Pass,
) -> Result<(Vec<Part<P::Made>>, Pass), AllocError>
    requires some { 0 < workers }
    requires fresh { pass ≡ unused shift.now.desk.now workers }
    ensures { IfOk result (λ r. AreAllWorked (P.makes shift.now.plan.now) (P.jobs shift.now.plan.now)
        shift.now.desk.now shift.now.round workers r.0.items r.1) }
{
    if workers == 1 {
        return work_apart(rt, alloc, shift, pass);
    }
    let rest = workers - 1;
    let (kept, given) = split_pass(shift.desk, pass, workers, 1);
    let (mine, theirs) = join(
        rt,
        || -> Result<(Vec<Part<P::Made>>, Pass), AllocError>
            requires { IsSend P.Made.row × IsSync G.row × IsSync P.row × (given ≡ unused shift.now.desk.now 1) }
            ensures { IfOk result (λ r. AreAllWorked (P.makes shift.entry.now.plan.now)
                (P.jobs shift.entry.now.plan.now) shift.entry.now.desk.now shift.entry.now.round 1 r.0.items r.1) }
        { work_alone(alloc, shift, given) },
        || -> Result<(Vec<Part<P::Made>>, Pass), AllocError>
            requires { IsSend P.Made.row × IsSync R.row × IsSync G.row × IsSync P.row × (0 < rest)
                × (kept ≡ unused shift.now.desk.now rest) }
            ensures { IfOk result (λ r. AreAllWorked (P.makes shift.entry.now.plan.now)
                (P.jobs shift.entry.now.plan.now) shift.entry.now.desk.now shift.entry.now.round rest r.0.items r.1) }
        { fork(rt, alloc, rest, shift, kept) },
    );
    both_worked(shift.desk, mine, theirs)
}

/// Has workers do all jobs: a sole one on this thread.
fn work_by<R: Threads + Sync, G: Gate, P: Round>(
    rt: &R,
    alloc: Global,
    workers: u32,
    shift: &Shift<'_, G, P>,
    pass: Pass,
) -> Result<(Vec<Part<P::Made>>, Pass), AllocError>
    requires some { 0 < workers }
    requires fresh { pass ≡ unused shift.now.desk.now workers }
    ensures { IfOk result (λ r. AreAllWorked (P.makes shift.now.plan.now) (P.jobs shift.now.plan.now)
        shift.now.desk.now shift.now.round workers r.0.items r.1) }
{
    if workers == 1 {
        work_alone(alloc, shift, pass)
    } else {
        fork(rt, alloc, workers, shift, pass)
    }
}

/// A worker's share of the jobs with a little over, since some draw more than others; for a sole worker, all jobs.
///
/// Measured, a list that doubles instead takes 1.3 times the memory with very many jobs: it leaves its former places in
/// the C library's heap.
fn share_of(jobs: u32, workers: u32) -> usize
    requires { 0 < workers }
{
    let even = u64::from(jobs / workers);
    (even + even / 8 + 1).min(u64::from(jobs)) as usize
}

/// Has workers do all jobs of a round, and closes the desk. `Err` only where memory runs out.
///
/// Each worker passes the gate before each of its jobs.
pub fn crew<R: Threads + Sync, G: Gate, P: Round>(
    team: &Team<'_, R, G>,
    desk: Desk,
    pass: Pass,
    round: AuditRound,
    plan: &P,
) -> Result<(Vec<Part<P::Made>>, Closed), AllocError>
    requires workers { desk.workers ≡ team.now.workers }
    requires jobs { desk.jobs ≡ length (P.jobs plan.now) }
    requires first { pass ≡ pass_of desk.id (all_draws desk) [] [] [] }
    requires connections { All (λ (job : Job). IsConnection desk.id job.connection) (P.jobs plan.now) }
    ensures { IfOk result (λ done. IsDone (P.makes plan.now) (P.jobs plan.now) desk.id round done.0.items done.1) }
{
    let shift = Shift {
        desk: &desk,
        gate: team.gate,
        round,
        plan,
        share: share_of(desk.jobs(), team.workers),
    };
    let (parts, last) = work_by(team.rt, team.alloc, team.workers, &shift, pass)?;
    Ok((parts, desk.close(last)))
}
