//! The round over connections: what is shown of each, where that is told at once.

ghost use Rattle.std.specs.Prelude.{◌≡◌, ◌<◌, ◌^◌, All, IfOk, IfSome};
ghost use Rattle.h2audit.specs.code.Flows.{IsMadeOf, KeepsCut, KeepsFound};
ghost use Rattle.h2audit.specs.code.Listed.{HasFlows};

use crate::listed_connections::HeldFlows;
use audit_report::timed_stalls;
use audit_terms::Look;
use h2_frames::Cut;
use quiet_pass::{FoundConnection, QuietConnection, found_in};
use report_pages::{AuditedFrames, FoundFrames, Outcome};
use split_merge::Findings;
use std::alloc::{AllocError, Global};
use std::marker::Model;
use stop_desk::{Round, Work};

/// The connections of a capture: a job for each.
#[derive(Drop)]
pub(crate) struct FlowRound<'a> {
    /// Are credits shown?
    pub(crate) frames_shown: bool,
    /// A connection of no more frames than so many is told at once, if something is shown of it.
    pub(crate) undivided: usize,
    pub(crate) held: &'a [HeldFlows],
}

impl<'a> Model for FlowRound<'a> {
    ghost use Rattle.h2audit.specs.code.Flows.{FlowView, IsFlowView};

    ghost Value = { FlowView };

    ghost view = { λ r. record {
      frames_shown = r.frames_shown;
      held = r.held.now;
    } };

    ghost invariant = { λ r. IsFlowView (record {
      frames_shown = r.frames_shown;
      held = r.held.now;
    }) };
}

impl Round for FlowRound<'_> {
    type Made = Option<Outcome>;

    ghost use Rattle.std.specs.Prelude.{◌≡◌, [], slice_get, Some};
    ghost use Rattle.h2audit.specs.code.Flows.{IsMadeOf, flow_jobs};
    ghost use Rattle.h2audit.specs.declared.listed_connections.HeldFlows.{HeldFlows};

    ghost jobs = { λ s. flow_jobs s.held };

    ghost makes = { λ s job upto made. (held : HeldFlows) → slice_get s.held job ≡ Some held
        → IsMadeOf s.frames_shown held made };

    ghost looks = { λ s job asked upto. asked ≡ [] };

    fn count(&self) -> u32 {
        self.held.len() as u32
    }

    fn connection(&self, job: u32) -> usize {
        job as usize
    }

    fn work<L: Look>(
        &self,
        alloc: Global,
        job: u32,
        _look: &mut L,
    ) -> Result<Work<Option<Outcome>>, AllocError> {
        let held = &self.held[job as usize];
        let made = outcome_at_once(alloc, self.frames_shown, self.undivided, held)?;
        Ok(Work {
            findings: Vec::new(alloc),
            upto: None,
            made,
        })
    }
}

/// What is shown of a connection, if it is told at once: where nothing is shown, frames are few or an error is early.
fn outcome_at_once(
    alloc: Global,
    frames_shown: bool,
    undivided: usize,
    held: &HeldFlows,
) -> Result<Option<Outcome>, AllocError>
    requires { HasFlows held.now }
    ensures { IfOk result (IsMadeOf frames_shown held.now) }
{
    let Cut::Http2 { frames, tails } = &held.cut else {
        return Ok(None);
    };
    let Some(found) = found_in(alloc, frames_shown, undivided, frames.as_slice(), *tails)? else {
        return Ok(None);
    };
    Ok(Some(outcome_found(alloc, found)?))
}

/// What was found of a connection, with its stalls.
pub(crate) fn outcome_found(alloc: Global, found: FoundConnection) -> Result<Outcome, AllocError>
    requires { All (λ one. one.nanos < 2 ^ 63) found.findings.items }
    ensures { IfOk result (λ outcome. KeepsFound outcome found) }
{
    let FoundConnection {
        frames,
        tails,
        findings,
    } = found;
    if findings.is_empty() {
        return Ok(Outcome::Quiet(QuietConnection { frames, tails }));
    }
    let stalls = timed_stalls(alloc, findings.as_slice())?;
    let found = FoundFrames {
        count: frames,
        tails,
        findings,
        stalls,
    };
    Ok(Outcome::Found(Box::new(alloc, found)?))
}

/// What a cut holds, with nothing found yet.
pub(crate) fn outcome_in(alloc: Global, cut: Cut) -> Result<Outcome, AllocError>
    ensures { IfOk result (λ outcome. KeepsCut outcome cut) }
{
    match cut {
        Cut::Http2 { frames, tails } => {
            let audited = AuditedFrames {
                frames,
                tails,
                findings: Findings::none(alloc),
                stalls: Vec::new(alloc),
            };
            Ok(Outcome::Audited(Box::new(alloc, audited)?))
        }
        Cut::NotHttp2 => Ok(Outcome::NotHttp2),
        Cut::NoPreface => Ok(Outcome::NoPreface),
        Cut::NoHandshake => Ok(Outcome::NoHandshake),
    }
}
