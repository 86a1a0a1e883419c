//! The round over streams: each job is a group of the streams of one connection.

ghost use Rattle.std.specs.Prelude.{All, IfOk};
ghost use Rattle.audit_rounds.specs.code.Few.{FramesAreFew};
ghost use Rattle.audit_rounds.specs.code.PerConnection.{BeginsRounds};
ghost use Rattle.audit_rounds.specs.code.StreamRound.{AreThroughStreams, StreamsHaveSettled};

use crate::connection_streams::streams_each;
use crate::division::Division;
use crate::gathering::{closed, gathered};
use crate::per_connection::{PerConnection, stops_of};
use crate::stream_jobs::{StreamsRound, stream_plan};
use std::alloc::AllocError;
use std::thread::Threads;
use stop_desk::{AuditRound, Gate, Settled, Team, settle};

/// What the streams of connections show, in groups.
fn settled_streams<R: Threads + Sync, G: Gate>(
    team: &Team<'_, R, G>,
    division: &Division,
    connections: &[PerConnection<'_>],
) -> Result<Settled<Vec<u32>>, AllocError>
    requires ready { All (BeginsRounds division.now.frames_shown) connections.now }
    requires few { FramesAreFew connections.now }
    ensures { IfOk result (StreamsHaveSettled division.now.frames_shown division.now.groups connections.now) }
{
    let stops = stops_of(team.alloc, connections)?;
    let streams = streams_each(team.alloc, connections)?;
    let streams = streams.as_slice();
    let plan = stream_plan(team.alloc, division.groups as usize, streams)?;
    let round = StreamsRound {
        connections: streams,
        plan: plan.as_slice(),
        frames_shown: division.frames_shown,
    };
    settle(team, AuditRound::Streams, stops.as_slice(), &round)
}

/// Runs the streams of all connections.
pub(crate) fn round_over_streams<'a, R: Threads + Sync, G: Gate>(
    team: &Team<'_, R, G>,
    division: &Division,
    connections: Vec<PerConnection<'a>>,
) -> Result<Vec<PerConnection<'a>>, AllocError>
    requires ready { All (BeginsRounds division.now.frames_shown) connections.items }
    requires few { FramesAreFew connections.items }
    ensures { IfOk result (λ all. AreThroughStreams division.now.frames_shown connections.entry.items all.items) }
{
    let settled = settled_streams(team, division, connections.as_slice())?;
    let all = closed(
        connections,
        settled.parts.as_slice(),
        settled.stops.as_slice(),
    )?;
    gathered(all, settled.parts)
}
