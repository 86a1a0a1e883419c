//! The rounds that sum blocks and that run them.

ghost use Rattle.std.specs.Prelude.{◌≡◌, ◌-◌, ◌<◌, ◌^◌, [], length, map, slice_index_or, ⊤};
ghost use Rattle.std.proofs.Props.{props};
ghost use Rattle.audit_rounds.specs.declared.connection_blocks.ConnectionBlock.{ConnectionBlock as BlockTerm};
ghost use Rattle.audit_rounds.specs.code.Blocks.{AreShort, IsSum};
ghost use Rattle.audit_rounds.specs.code.Plans.{block_job, sum_job, AreReady, BlockLooks};
ghost use Rattle.audit_rounds.specs.code.Props.{frames-prop, changes-prop, numbers-prop};

use crate::block_plans::ReadyBlock;
use crate::connection_blocks::ConnectionBlock;
use audit_terms::Look;
use conn_scan::{ConnSum, block_findings, block_sum};
use std::alloc::{AllocError, Global};
use stop_desk::{Round, Work};

/// Blocks to be summed, each a job.
///
/// A sole block is summed too: the sum says whether it is clear, and a clear block shows nothing without credits.
#[derive(Drop)]
pub(crate) struct SumRound<'a> {
    pub(crate) blocks: &'a [ConnectionBlock<'a>],
    ghost few: { length blocks.now < 2 ^ 32 },
    ghost short: { AreShort blocks.now } by { Prim.hlevel (props, frames-prop, changes-prop, numbers-prop) },
}

impl Round for SumRound<'_> {
    type Made = ConnSum;

    ghost jobs = { λ round. map sum_job round.blocks.now };

    ghost makes = { λ round job upto made.
        (one : BlockTerm) → IsSum (slice_index_or round.blocks.now job one).block made };

    ghost looks = { λ round job asked upto. asked ≡ [] };

    fn count(&self) -> u32 {
        self.blocks.len() as u32
    }

    fn connection(&self, job: u32) -> usize {
        self.blocks[job as usize].connection
    }

    fn work<L: Look>(
        &self,
        alloc: Global,
        job: u32,
        look: &mut L,
    ) -> Result<Work<ConnSum>, AllocError> {
        Ok(Work {
            findings: Vec::new(alloc),
            upto: None,
            made: block_sum(&self.blocks[job as usize].block),
        })
    }
}

/// Blocks to be run, each a job.
#[derive(Drop)]
pub(crate) struct BlockRound<'a> {
    pub(crate) plan: &'a [ReadyBlock<'a>],
    pub(crate) frames_shown: bool,
    ghost few: { length plan.now < 2 ^ 32 },
    ghost ready: { AreReady plan.now } by { Prim.hlevel (props, frames-prop, changes-prop, numbers-prop) },
}

impl Round for BlockRound<'_> {
    type Made = ();

    ghost jobs = { λ round. map (block_job round.frames_shown) round.plan.now };

    ghost makes = { λ round job upto made. ⊤ };

    ghost looks = { λ round job. BlockLooks round.frames_shown round.plan.now job };

    fn count(&self) -> u32 {
        self.plan.len() as u32
    }

    fn connection(&self, job: u32) -> usize {
        self.plan[job as usize].connection
    }

    fn work<L: Look>(&self, alloc: Global, job: u32, look: &mut L) -> Result<Work<()>, AllocError> {
        let ready = &self.plan[job as usize];
        let run = block_findings(alloc, &ready.before, &ready.block, self.frames_shown, look)?;
        Ok(Work {
            findings: run.findings,
            upto: run.upto,
            made: (),
        })
    }
}
