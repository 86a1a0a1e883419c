//! What one worker does: it draws jobs until none is left.

ghost use Rattle.std.specs.Prelude.{◌≡◌, ◌+◌, ◌-◌, ◌^◌, ◌<◌, ◌≤◌, [], ◌++◌, All, IfOk, length};
ghost use Rattle.audit_terms.specs.declared.findings.Finding.{Finding as FindingTerm};
ghost use Rattle.audit_terms.specs.Place.{place_number};
ghost use Rattle.stop_desk.specs.code.Desk.{pass_of, IsConnection};
ghost use Rattle.stop_desk.specs.code.Board.{Job};
ghost use Rattle.stop_desk.specs.code.Worked.{stops_on, DoesJob, IsAllWorked};

use crate::audit_round::AuditRound;
use crate::claims::Claim;
use crate::desk_looks::DeskLook;
use crate::desks::Desk;
use crate::gate::Gate;
use crate::parts::Part;
use crate::passes::Pass;
use crate::rounds::Round;
use audit_terms::Finding;
use std::alloc::{AllocError, Global};

/// What the workers of a round share.
#[derive(Drop)]
pub(crate) struct Shift<'a, G: Gate, P: Round> {
    pub(crate) desk: &'a Desk,
    pub(crate) gate: &'a G,
    pub(crate) round: AuditRound,
    pub(crate) plan: &'a P,
    /// For how many parts each worker makes room before it draws.
    pub(crate) share: usize,
    ghost counted: { desk.now.jobs ≡ length (P.jobs plan.now) },
    ghost there: { All (λ (job : Job). IsConnection desk.now.id job.connection) (P.jobs plan.now) },
}

/// Lowers the stop of a connection to the place of each of these findings that ends it.
fn lower_stops(desk: &Desk, pass: &mut Pass, connection: usize, findings: &[Finding])
    requires desk { pass.old.desk ≡ desk.now.id }
    requires connection { IsConnection desk.now.id connection }
    requires numbered { All (λ (found : FindingTerm). place_number found.place ≤ 2 ^ 28 - 2) findings.now }
    ensures { pass.new ≡ pass_of pass.old.desk pass.old.allowance pass.old.drawn pass.old.seen
        (pass.old.lowered ++ stops_on connection findings.now) }
{
    for found in findings {
        if found.stops() {
            pass.lower(desk, connection, found.place);
        }
    }
}

/// Does a job that was drawn, and returns its part and the pass.
fn do_job<G: Gate, P: Round>(
    alloc: Global,
    shift: &Shift<'_, G, P>,
    job: u32,
    pass: Pass,
) -> Result<(Part<P::Made>, Pass), AllocError>
    requires desk { pass.desk ≡ shift.now.desk.now.id }
    requires job { job < length (P.jobs shift.now.plan.now) }
    ensures { IfOk result (λ r. DoesJob (P.makes shift.now.plan.now) (P.jobs shift.now.plan.now) shift.now.round job
        pass r.0 r.1) }
{
    let connection = shift.plan.connection(job);
    let mut look = DeskLook {
        pass,
        desk: shift.desk,
        connection,
    };
    let work = shift.plan.work(alloc, job, &mut look)?;
    let DeskLook { mut pass, .. } = look;
    lower_stops(shift.desk, &mut pass, connection, work.findings.as_slice());
    let part = Part {
        round: shift.round,
        job,
        connection,
        upto: work.upto,
        findings: work.findings,
        made: work.made,
    };
    Ok((part, pass))
}

/// Draws jobs and does them, each after the gate, until none is left.
pub(crate) fn work<G: Gate, P: Round>(
    alloc: Global,
    shift: &Shift<'_, G, P>,
    mine: Pass,
) -> Result<(Vec<Part<P::Made>>, Pass), AllocError>
    requires { mine ≡ pass_of shift.now.desk.now.id (shift.now.desk.now.jobs + 1) [] [] [] }
    ensures { IfOk result (λ r. IsAllWorked (P.makes shift.now.plan.now) (P.jobs shift.now.plan.now)
        shift.now.desk.now.id shift.now.round (shift.now.desk.now.jobs + 1) r.0.items r.1) }
{
    let mut pass = mine;
    let mut parts = Vec::with_capacity(alloc, shift.share)?;
    while let Claim::Job(job) = pass.claim(shift.desk) {
        shift.gate.enter(shift.round.number(), job);
        let (part, rest) = do_job(alloc, shift, job, pass)?;
        pass = rest;
        parts.push(part)?;
    }
    Ok((parts, pass))
}
