//! Connections made ready for the rounds.

ghost use Rattle.std.specs.Prelude.{◌≡◌, ◌<◌, IfOk};
ghost use Rattle.std.specs.Thread.{IsSync};
ghost use Rattle.audit_terms.specs.code.runs.Orderly.{IsOrderly};
ghost use Rattle.audit_terms.specs.code.runs.LocalFaults.{local_run};
ghost use Rattle.split_merge.specs.code.Split.{IsSplit};
ghost use Rattle.audit_rounds.specs.code.Batch.{AreReady, IsBatch};
ghost use Rattle.audit_rounds.specs.code.PerConnection.{BeginsRounds};
ghost use Rattle.audit_rounds.specs.code.Prepared.{AreForSplit};

use crate::division::Division;
use crate::per_connection::{PerConnection, first_stop_in};
use crate::shares::{both, first_share};
use audit_terms::{Change, Finding, Frame};
use fault_rules::{local_faults, pair};
use input_output::TableHash;
use split_merge::{Findings, SplitFrames, split};
use std::alloc::{AllocError, Global};
use std::thread::{Threads, join};
use stop_desk::{Gate, Team};

/// Several threads make a connection of so many frames or more ready. (Measured: bench/README.md, Thresholds.)
const LONG_FRAMES: usize = 4_096;

/// The frames of a connection, with what its rounds need beside them.
#[derive(Drop)]
pub(crate) struct Prepared<'a> {
    pub(crate) frames: &'a [Frame],
    /// What its acknowledgements bring into force, in order.
    pub(crate) changes: Vec<Change>,
    /// Its frames by stream, but for the quiet streams.
    pub(crate) split: SplitFrames,
}

/// The faults of single frames, and the frames by stream: side by side, where there are many frames and workers.
fn faults_and_split<R: Threads + Sync, G: Gate>(
    team: &Team<'_, R, G>,
    division: &Division,
    changes: &[Change],
    frames: &[Frame],
) -> (
    Result<Vec<Finding>, AllocError>,
    Result<SplitFrames, AllocError>,
)
    requires frames { AreForSplit frames.now changes.now }
    ensures faults { IfOk result.0 (λ found. found.items ≡ local_run frames.now) }
    ensures split { IfOk result.1 (IsSplit division.now.frames_shown changes.now frames.now) }
{
    let (rt, alloc) = (team.rt, team.alloc);
    let (hash, frames_shown) = (division.hash, division.frames_shown);
    if team.workers == 1 || frames.len() < LONG_FRAMES {
        return (
            local_faults(rt, alloc, 1, frames),
            split(alloc, hash, frames_shown, changes, frames),
        );
    }
    let others = team.workers as usize - 1;
    join(
        rt,
        || -> Result<Vec<Finding>, AllocError>
            requires { IsSync R.row × (0 < others) × IsOrderly frames.now }
            ensures { IfOk result (λ found. found.items ≡ local_run frames.entry.now) }
        { local_faults(rt, alloc, others, frames) },
        || -> Result<SplitFrames, AllocError>
            requires { AreForSplit frames.now changes.now }
            ensures { IfOk result (IsSplit frames_shown changes.entry.now frames.entry.now) }
        { split_apart(rt, alloc, hash, frames_shown, changes, frames) },
    )
}

/// The frames by stream, split on a thread of its own, while this one waits (docs/DECISIONS.md, D-121).
fn split_apart<R: Threads>(
    rt: &R,
    alloc: Global,
    hash: TableHash,
    frames_shown: bool,
    changes: &[Change],
    frames: &[Frame],
) -> Result<SplitFrames, AllocError>
    requires { AreForSplit frames.now changes.now }
    ensures { IfOk result (IsSplit frames_shown changes.now frames.now) }
{
    let (made, ()) = join(
        rt,
        || -> Result<SplitFrames, AllocError>
            requires { AreForSplit frames.now changes.now }
            ensures { IfOk result (IsSplit frames_shown changes.entry.now frames.entry.now) }
        { split(alloc, hash, frames_shown, changes, frames) },
        || (),
    );
    made
}

/// Makes a connection ready. The faults of its single frames are found, then its unmatched acknowledgements.
fn prepare<'a, R: Threads + Sync, G: Gate>(
    team: &Team<'_, R, G>,
    division: &Division,
    frames: &'a [Frame],
) -> Result<PerConnection<'a>, AllocError>
    requires { IsOrderly frames.now }
    ensures frames { IfOk result (λ one. one.prepared.frames.now ≡ frames.now) }
    ensures ready { IfOk result (BeginsRounds division.now.frames_shown) }
{
    let pairs = pair(team.alloc, frames)?;
    let (faults, split) = faults_and_split(team, division, pairs.changes.as_slice(), frames);
    let mut found = Findings::of(team.alloc, faults?)?;
    let split = split?;
    found.add(pairs.findings)?;
    let stop = first_stop_in(&found);
    Ok(PerConnection {
        prepared: Prepared {
            frames,
            changes: pairs.changes,
            split,
        },
        found,
        stop,
        opened: Vec::new(team.alloc),
    })
}

/// Makes each connection ready, one after the other.
fn prepare_one_by_one<'a, R: Threads + Sync, G: Gate>(
    team: &Team<'_, R, G>,
    division: &Division,
    connections: &[&'a [Frame]],
) -> Result<Vec<PerConnection<'a>>, AllocError>
    requires { IsBatch connections.now }
    ensures { IfOk result (λ made. AreReady division.now.frames_shown connections.now made.items) }
{
    let mut made = Vec::with_capacity(team.alloc, connections.len())?;
    for frames in connections {
        made.push(prepare(team, division, *frames)?)?;
    }
    Ok(made)
}

/// Makes each connection ready, shares of them side by side where there are workers.
pub(crate) fn prepare_each<'a, R: Threads + Sync, G: Gate>(
    team: &Team<'_, R, G>,
    division: &Division,
    connections: &[&'a [Frame]],
) -> Result<Vec<PerConnection<'a>>, AllocError>
    requires { IsBatch connections.now }
    ensures { IfOk result (λ made. AreReady division.now.frames_shown connections.now made.items) }
{
    if team.workers == 1 || connections.len() < 2 {
        return prepare_one_by_one(team, division, connections);
    }
    let (front, back) = first_share(team.workers, connections);
    // `join` passes on no contract of a closure that holds a team, which has a lifetime and an invariant.
    let (rt, alloc, gate) = (team.rt, team.alloc, team.gate);
    let others = team.workers - 1;
    let (one, other) = join(
        rt,
        || -> Result<Vec<PerConnection<'_>>, AllocError>
            requires { IsSync R.row × IsSync G.row × IsBatch front.now }
            ensures { IfOk result (λ made. AreReady division.entry.now.frames_shown front.entry.now made.items) }
        {
            let team = Team {
                rt,
                alloc,
                workers: 1,
                gate,
            };
            prepare_each(&team, division, front)
        },
        || -> Result<Vec<PerConnection<'_>>, AllocError>
            requires { IsSync R.row × IsSync G.row × (0 < others) × IsBatch back.now }
            ensures { IfOk result (λ made. AreReady division.entry.now.frames_shown back.entry.now made.items) }
        {
            let team = Team {
                rt,
                alloc,
                workers: others,
                gate,
            };
            prepare_each(&team, division, back)
        },
    );
    both(one, other)
}
