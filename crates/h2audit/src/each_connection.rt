//! The audits of all connections of a capture: what their flows hold, and what is found in the frames.

ghost use Rattle.std.specs.Prelude.{◌≡◌, ◌<◌, ◌^◌, ◌∷◌, All, Bool, IfOk, List, length, map};
ghost use Rattle.std.specs.Vec.Iter.{into_iter_items};
ghost use Rattle.h2audit.specs.code.Flows.{AreMadeOf, AreToldHeld, IsMadeOf, IsToldHeld};
ghost use Rattle.h2audit.specs.code.Listed.{HasFlows};
ghost use Rattle.h2audit.specs.declared.listed_connections.HeldFlows.{HeldFlows as HeldTerm};
ghost use Rattle.audit_terms.specs.code.runs.Orderly.{IsOrderly};
ghost use Rattle.std.specs.Bool.{Decides};
ghost use Rattle.std.specs.List.{flat_map};
ghost use Rattle.std.specs.Option.{option_to_list};
ghost use Rattle.h2audit.specs.code.KeptFrames.{AreFound, AreToldWith, IsOutcomeWith, IsToldWith, kept_frames};
ghost use Rattle.h2audit.specs.code.KeptFrames.{left_after};
ghost use Rattle.report_pages.specs.declared.told.Outcome.{Outcome as OutcomeTerm};
ghost use Rattle.report_pages.specs.code.Told.{HasOrderlyOutcome};
ghost use Rattle.report_pages.specs.declared.told.Told.{Told as ToldTerm};

use crate::flow_round::{FlowRound, outcome_in};
use crate::listed_connections::HeldFlows;
use audit_report::stall_pairs;
use audit_rounds::{Division, findings_of_each};
use audit_terms::{Finding, Frame, Place};
use report_pages::{AuditedFrames, Outcome, Told};
use split_merge::Findings;
use std::alloc::{AllocError, Global};
use std::thread::Threads;
use std::vec::IntoIter;
use stop_desk::{AuditRound, Gate, Part, Team, settle};

/// The least average of frames per connection at which workers share the connections out. With mere openings it takes
/// longer to share such jobs out, and to sort what they made, than to do them: measured, several workers took a fifth
/// longer than one.
const SHARED_FRAMES_PER_CONNECTION: usize = 2;

/// What is told of each connection whose flows are held, in order, with nothing found yet where all frames are kept.
pub(crate) fn told_each<R: Threads + Sync, G: Gate>(
    team: &Team<'_, R, G>,
    division: &Division,
    held: Vec<HeldFlows>,
) -> Result<Vec<Told>, AllocError>
    requires few { length held.items < 2 ^ 32 }
    requires flows { All HasFlows held.items }
    ensures { IfOk result (λ told. AreToldHeld division.now.frames_shown held.items told.items) }
{
    let parts = flows_each(team, division, held.as_slice())?;
    all_with_outcomes(team.alloc, held, parts)
}

/// What is shown of each connection, where that is told at once.
fn flows_each<R: Threads + Sync, G: Gate>(
    team: &Team<'_, R, G>,
    division: &Division,
    held: &[HeldFlows],
) -> Result<Vec<Part<Option<Outcome>>>, AllocError>
    requires few { length held.now < 2 ^ 32 }
    requires flows { All HasFlows held.now }
    ensures { IfOk result (λ parts. AreMadeOf division.now.frames_shown held.now parts.items) }
{
    let mut stops: Vec<Option<Place>> = Vec::new(team.alloc);
    stops.resize(held.len(), None)?;
    let round = FlowRound {
        frames_shown: division.frames_shown,
        // A connection that is one block is not divided.
        undivided: division.block as usize,
        held,
    };
    let team = team.with_workers(sharers(team.workers, held));
    let settled = settle(&team, AuditRound::Flows, stops.as_slice(), &round)?;
    Ok(settled.parts)
}

/// How many of the workers share out connections whose flows hold this.
fn sharers(workers: u32, held: &[HeldFlows]) -> u32
    requires { 0 < workers }
    ensures { 0 < result }
{
    let mut frames = 0usize;
    for one in held {
        frames = frames.saturating_add(one.frames());
    }
    let is_worth = held.len() <= frames / SHARED_FRAMES_PER_CONNECTION;
    if is_worth { workers } else { 1 }
}

/// What is told of each connection: what is told at once, or what its flows hold.
fn all_with_outcomes(
    alloc: Global,
    held: Vec<HeldFlows>,
    parts: Vec<Part<Option<Outcome>>>,
) -> Result<Vec<Told>, AllocError>
    requires { (frames_shown : Bool) × AreMadeOf frames_shown held.items parts.items }
    ensures { (frames_shown : Bool) → AreMadeOf frames_shown held.items parts.items
        → IfOk result (λ told. AreToldHeld frames_shown held.items told.items) }
{
    let mut all = Vec::with_capacity(alloc, held.len())?;
    let mut rest = parts.into_iter();
    for one in held {
        let made = next_made(&mut rest);
        all.push(with_outcome(alloc, one, made)?)?;
    }
    Ok(all)
}

/// What is told at once of the next connection, if it is.
fn next_made(parts: &mut IntoIter<Part<Option<Outcome>>>) -> Option<Outcome>
    ensures { (frames_shown : Bool) (held : HeldTerm) (later : List HeldTerm)
        → AreMadeOf frames_shown (held ∷ later) (into_iter_items parts.old)
        → IsMadeOf frames_shown held result × AreMadeOf frames_shown later (into_iter_items parts.new) }
{
    let part = parts.next()?;
    part.made
}

/// What is told of a connection: what is told at once, or what its flows hold.
fn with_outcome(alloc: Global, held: HeldFlows, made: Option<Outcome>) -> Result<Told, AllocError>
    requires { (frames_shown : Bool) × IsMadeOf frames_shown held made }
    ensures { (frames_shown : Bool) → IsMadeOf frames_shown held made
        → IfOk result (IsToldHeld frames_shown held) }
{
    let HeldFlows { reach, cut } = held;
    let outcome = match made {
        Some(outcome) => outcome,
        None => outcome_in(alloc, cut)?,
    };
    Ok(Told { reach, outcome })
}

/// What is told of each connection, in order: what its flows hold, with what is found where all frames are kept.
pub(crate) fn audit_each<R: Threads + Sync, G: Gate>(
    team: &Team<'_, R, G>,
    division: &Division,
    told: Vec<Told>,
) -> Result<Vec<Told>, AllocError>
    requires { All (λ (one : ToldTerm). HasOrderlyOutcome one.outcome) told.items }
    ensures { IfOk result (λ all. AreFound division.now.frames_shown told.items all.items) }
{
    let found = {
        let kept = kept_frames(team.alloc, told.as_slice())?;
        findings_of_each(team, division, kept.as_slice())?
    };
    all_with_findings(team.alloc, told, found)
}

/// All frames of each connection of which they are kept.
fn kept_frames<'a>(alloc: Global, told: &'a [Told]) -> Result<Vec<&'a [Frame]>, AllocError>
    ensures { IfOk result (λ kept. map (λ frames. frames.now) kept.items ≡ kept_frames told.now) }
{
    let mut kept = Vec::new(alloc);
    for one in told {
        if let Outcome::Audited(audited) = &one.outcome {
            kept.push(audited.frames.as_slice())?;
        }
    }
    Ok(kept)
}

/// What is told of each connection: what its flows hold, with what was found in the frames that are kept.
fn all_with_findings(
    alloc: Global,
    told: Vec<Told>,
    found: Vec<Findings>,
) -> Result<Vec<Told>, AllocError>
    requires { All (λ (one : ToldTerm). HasOrderlyOutcome one.outcome) told.items }
    ensures { IfOk result (λ all. AreToldWith told.items found.items all.items) }
{
    let mut all = Vec::with_capacity(alloc, told.len())?;
    let mut rest = found.into_iter();
    for one in told {
        all.push(with_next_findings(alloc, one, &mut rest)?)?;
    }
    Ok(all)
}

/// What is told of a connection, with the next findings and their stalls where its frames are kept.
fn with_next_findings(
    alloc: Global,
    told: Told,
    found: &mut IntoIter<Findings>,
) -> Result<Told, AllocError>
    requires { HasOrderlyOutcome told.outcome }
    ensures with { IfOk result (IsToldWith told (into_iter_items found.old)) }
    ensures left { into_iter_items found.new ≡ left_after told.outcome (into_iter_items found.old) }
{
    let Told { reach, outcome } = told;
    match outcome {
        Outcome::Audited(audited) => {
            let outcome = Outcome::Audited(with_findings(alloc, audited, found.next())?);
            Ok(Told { reach, outcome })
        }
        outcome => Ok(Told { reach, outcome }),
    }
}

/// The frames of a connection with these findings, or none, and their stalls.
fn with_findings(
    alloc: Global,
    audited: Box<AuditedFrames>,
    findings: Option<Findings>,
) -> Result<Box<AuditedFrames>, AllocError>
    requires { IsOrderly audited.value.frames.items }
    ensures { IfOk result (λ with_them. IsOutcomeWith (OutcomeTerm.Audited audited) (option_to_list findings)
        (OutcomeTerm.Audited with_them)) }
{
    let mut audited = audited;
    let findings = match findings {
        Some(findings) => findings,
        None => Findings::none(alloc),
    };
    // So many do not fit into memory.
    if !are_few(findings.lists.as_slice()) {
        return Err(AllocError);
    }
    audited.stalls = stall_pairs(alloc, findings.lists.as_slice(), audited.frames.as_slice())?;
    audited.findings = findings;
    Ok(audited)
}

/// Are there fewer findings in all than a list can have?
fn are_few(lists: &[Vec<Finding>]) -> bool
    ensures { Decides result (length (flat_map (λ list. list.items) lists.now) < 2 ^ 63) }
{
    let mut count = 0usize;
    for list in lists {
        let Some(more) = count.checked_add(list.len()) else {
            return false;
        };
        count = more;
    }
    count <= isize::MAX as usize
}
