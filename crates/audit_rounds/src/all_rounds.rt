//! The audit of whole connections: all are made ready, and the rounds run over all of them.

ghost use Rattle.std.specs.Prelude.{IfOk};
ghost use Rattle.audit_rounds.specs.code.Batch.{AreShown, IsBatch};

use crate::block_rounds::rounds_over_blocks;
use crate::division::Division;
use crate::prepared::prepare_each;
use crate::stream_round::round_over_streams;
use audit_terms::Frame;
use split_merge::Findings;
use std::alloc::AllocError;
use std::thread::Threads;
use stop_desk::{Gate, Team};

/// What each connection shows.
pub(crate) fn shown_of_each<R: Threads + Sync, G: Gate>(
    team: &Team<'_, R, G>,
    division: &Division,
    connections: &[&[Frame]],
) -> Result<Vec<Findings>, AllocError>
    requires { IsBatch connections.now }
    ensures { IfOk result (λ found. AreShown division.now.frames_shown connections.now found.items) }
{
    let ready = prepare_each(team, division, connections)?;
    let through = round_over_streams(team, division, ready)?;
    rounds_over_blocks(team, division, through)
}
