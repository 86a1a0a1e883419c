//! The connections' own findings, by blocks of frames: one round sums the blocks of all connections, and another runs
//! them, each from the state to which the sums of the blocks before it lead.

ghost use Rattle.std.specs.Prelude.{◌≡◌, ◌^◌, ◌<◌, All, IfOk, length, map};
ghost use Rattle.audit_terms.specs.Finding.{shown};
ghost use Rattle.audit_terms.specs.Pass.{pass};
ghost use Rattle.split_merge.specs.code.Findings.{findings_in};
ghost use Rattle.stop_desk.specs.code.Stop.{IsStop};
ghost use Rattle.audit_rounds.specs.code.Blocks.{AreShort, AreSums};
ghost use Rattle.audit_rounds.specs.code.Few.{FramesAreFew};
ghost use Rattle.audit_rounds.specs.code.PerConnection.{IsThroughStreams, wholes};
ghost use Rattle.audit_rounds.specs.code.Plans.{BlocksHaveSettled, IsPlan, shown_at};

use crate::block_plans::{ReadyBlock, plan_of};
use crate::block_round::{BlockRound, SumRound};
use crate::connection_blocks::{ConnectionBlock, in_blocks};
use crate::division::Division;
use crate::gathering::{gathered, merged_each};
use crate::per_connection::{PerConnection, stops_of};
use audit_terms::Place;
use conn_scan::ConnSum;
use split_merge::Findings;
use std::alloc::{AllocError, Global};
use std::thread::Threads;
use stop_desk::{AuditRound, Gate, Part, Settled, Team, settle};

/// The summaries that parts hold.
fn sums_in(alloc: Global, parts: &[Part<ConnSum>]) -> Result<Vec<ConnSum>, AllocError>
    ensures { IfOk result (λ sums. sums.items ≡ map (λ part. part.made) parts.now) }
{
    let mut sums = Vec::with_capacity(alloc, parts.len())?;
    for part in parts {
        sums.push(part.made)?;
    }
    Ok(sums)
}

/// The summary of each block.
fn sums_of<R: Threads + Sync, G: Gate>(
    team: &Team<'_, R, G>,
    division: &Division,
    stops: &[Option<Place>],
    blocks: &[ConnectionBlock<'_>],
) -> Result<Vec<ConnSum>, AllocError>
    requires places { All IsStop stops.now }
    requires short { AreShort blocks.now }
    requires few { length blocks.now < 2 ^ 32 }
    requires within { All (λ one. one.connection < length stops.now) blocks.now }
    ensures { IfOk result (λ sums. AreSums blocks.now sums.items) }
{
    let round = SumRound { blocks };
    let settled = settle(team, AuditRound::Sums, stops, &round)?;
    sums_in(team.alloc, settled.parts.as_slice())
}

/// The blocks of all connections that may show anything, each with the connection before it.
fn planned<'a, R: Threads + Sync, G: Gate>(
    team: &Team<'_, R, G>,
    division: &Division,
    stops: &[Option<Place>],
    connections: &'a [PerConnection<'_>],
) -> Result<Vec<ReadyBlock<'a>>, AllocError>
    requires stops { stops.now ≡ map (λ one. one.stop) connections.now }
    requires through { All (IsThroughStreams division.now.frames_shown) connections.now }
    requires few { FramesAreFew connections.now }
    ensures plan { IfOk result (λ plan. IsPlan division.now.frames_shown (length connections.now)
        (shown_at division.now.frames_shown 0 (wholes connections.now)) plan.items) }
    ensures few { IfOk result (λ plan. length plan.items < 2 ^ 32) }
{
    let blocks = in_blocks(team.alloc, division, connections)?;
    let blocks = blocks.as_slice();
    let sums = sums_of(team, division, stops, blocks)?;
    plan_of(team.alloc, division.frames_shown, blocks, sums.as_slice())
}

/// What the blocks of connections show, up to where each is known to stop.
fn settled_blocks<R: Threads + Sync, G: Gate>(
    team: &Team<'_, R, G>,
    division: &Division,
    connections: &[PerConnection<'_>],
) -> Result<Settled<()>, AllocError>
    requires through { All (IsThroughStreams division.now.frames_shown) connections.now }
    requires few { FramesAreFew connections.now }
    ensures { IfOk result (BlocksHaveSettled division.now.frames_shown connections.now) }
{
    let stops = stops_of(team.alloc, connections)?;
    let stops = stops.as_slice();
    let plan = planned(team, division, stops, connections)?;
    let round = BlockRound {
        plan: plan.as_slice(),
        frames_shown: division.frames_shown,
    };
    settle(team, AuditRound::Blocks, stops, &round)
}

/// What each connection shows, given what the round over streams left of it.
pub(crate) fn rounds_over_blocks<R: Threads + Sync, G: Gate>(
    team: &Team<'_, R, G>,
    division: &Division,
    connections: Vec<PerConnection<'_>>,
) -> Result<Vec<Findings>, AllocError>
    requires through { All (IsThroughStreams division.now.frames_shown) connections.items }
    requires few { FramesAreFew connections.items }
    ensures { IfOk result (λ last. map findings_in last.items
        ≡ map (λ one. shown division.now.frames_shown (pass one.prepared.frames.now)) connections.entry.items) }
{
    let settled = settled_blocks(team, division, connections.as_slice())?;
    let all = gathered(connections, settled.parts)?;
    merged_each(team, all)
}
