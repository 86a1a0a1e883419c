//! The jobs of the round over streams: groups of the streams of each connection.

ghost use Rattle.std.specs.Prelude.{◌≡◌, ◌^◌, ◌<◌, ◌≤◌, ◌++◌, All, IfOk, OnOk, length, map};
ghost use Rattle.std.proofs.Props.{props};
ghost use Rattle.split_merge.specs.code.Groups.{groups};
ghost use Rattle.audit_rounds.specs.code.Few.{RowsAreFew};
ghost use Rattle.audit_rounds.specs.code.StreamJobs.{IsReady, IsJobOf, JobLooks, Makes, job_at, job_of, plan_from};
ghost use Rattle.audit_rounds.specs.code.Props.{frames-prop, changes-prop};

use crate::connection_streams::{Streams, run_of_rows};
use audit_terms::Look;
use split_merge::groups;
use std::alloc::{AllocError, Global};
use stop_desk::{Round, Work};

/// Consecutive rows of a connection's split, from the first up to the first of the next job.
#[derive(Clone, Copy)]
pub(crate) struct StreamJob {
    pub(crate) connection: usize,
    pub(crate) from: usize,
    pub(crate) to: usize,
}

/// Adds at most so many groups of a connection's streams.
fn add_groups(
    plan: &mut Vec<StreamJob>,
    alloc: Global,
    count: usize,
    connection: usize,
    rows: usize,
) -> Result<(), AllocError>
    requires some { 1 ≤ count }
    requires rows { rows < 2 ^ 32 }
    ensures { OnOk result (plan.new.items ≡ plan.old.items ++ map (job_at connection) (groups rows count)) }
{
    let ranges = groups(alloc, rows, count)?;
    for range in ranges.as_slice() {
        plan.push(StreamJob {
            connection,
            from: range.0,
            to: range.1,
        })?;
    }
    Ok(())
}

/// At most so many groups of each connection's streams, one connection after the other.
pub(crate) fn stream_plan(
    alloc: Global,
    count: usize,
    connections: &[Streams<'_>],
) -> Result<Vec<StreamJob>, AllocError>
    requires some { 1 ≤ count }
    requires ready { All IsReady connections.now }
    requires few { RowsAreFew connections.now }
    ensures plan { IfOk result (λ plan. plan.items ≡ plan_from count 0 connections.now) }
    ensures numbered { IfOk result (λ plan. length plan.items < 2 ^ 32) }
{
    let mut plan = Vec::new(alloc);
    for (connection, streams) in connections.iter().enumerate() {
        let rows = streams.of.split.rows.len();
        add_groups(&mut plan, alloc, count, connection, rows)?;
    }
    Ok(plan)
}

/// A round in which each job is a group of one connection's streams.
#[derive(Drop)]
pub(crate) struct StreamsRound<'a> {
    pub(crate) connections: &'a [Streams<'a>],
    pub(crate) plan: &'a [StreamJob],
    pub(crate) frames_shown: bool,
    ghost ready: { All IsReady connections.now } by { Prim.hlevel (props, frames-prop, changes-prop) },
    ghost planned: { All (IsJobOf connections.now) plan.now },
    ghost counted: { length plan.now < 2 ^ 32 },
}

impl Round for StreamsRound<'_> {
    /// The numbers of the frames that open the streams.
    type Made = Vec<u32>;

    ghost jobs = { λ round. map (job_of round.frames_shown round.connections.now) round.plan.now };

    ghost makes = { λ round job upto made. Makes round.connections.now round.plan.now job upto made.items };

    ghost looks = { λ round job. JobLooks round.frames_shown round.connections.now round.plan.now job };

    fn count(&self) -> u32 {
        self.plan.len() as u32
    }

    fn connection(&self, job: u32) -> usize {
        self.plan[job as usize].connection
    }

    fn work<L: Look>(
        &self,
        alloc: Global,
        job: u32,
        look: &mut L,
    ) -> Result<Work<Vec<u32>>, AllocError> {
        let job = &self.plan[job as usize];
        let streams = &self.connections[job.connection];
        let rows = &streams.of.split.rows[job.from..job.to];
        run_of_rows(alloc, streams, rows, self.frames_shown, look)
    }
}
