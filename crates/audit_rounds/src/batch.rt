//! A batch of connections. Many short ones are audited in shares, side by side: then no part of the work is left to one
//! thread, and threads start once.

ghost use Rattle.std.specs.Prelude.{◌≡◌, ◌<◌, ◌≤◌, All, IfOk, length, take};
ghost use Rattle.std.specs.Bool.{OnTrue};
ghost use Rattle.std.specs.Thread.{IsSync};
ghost use Rattle.audit_terms.specs.code.runs.Orderly.{IsOrderly};
ghost use Rattle.audit_rounds.specs.code.Batch.{AreShown, IsBatch};

use crate::all_rounds::shown_of_each;
use crate::division::Division;
use crate::shares::{both, first_share, total_frames};
use audit_terms::Frame;
use split_merge::Findings;
use std::alloc::AllocError;
use std::thread::{Threads, join};
use stop_desk::{Gate, Team};

/// The most frames of a batch of more than one connection. What the rounds need beside the frames is in memory for one
/// batch at a time, and so many frames keep all workers at work.
/// (Measured: bench/README.md, Thresholds.)
const BATCH_FRAMES: usize = 1 << 22;

/// The next batch: the first of these connections, one at least.
pub(crate) fn next_batch<'a, 'b>(connections: &'b [&'a [Frame]]) -> &'b [&'a [Frame]]
    requires some { 0 < length connections.now }
    requires frames { All (λ frames. IsOrderly frames.now) connections.now }
    ensures some { 0 < length result.now }
    ensures within { length result.now ≤ length connections.now }
    ensures front { result.now ≡ take (length result.now) connections.now }
    ensures batch { IsBatch result.now }
{
    let mut count = 1;
    let mut total = connections[0].len();
    while count < connections.len() && total + connections[count].len() <= BATCH_FRAMES {
        total += connections[count].len();
        count += 1;
    }
    let (batch, _) = connections.split_at(count);
    batch
}

/// So many connections or more are shared: then shares of as many frames are about as much work.
/// (Measured: bench/README.md, Thresholds.)
const SHARED_CONNECTIONS: usize = 64;

/// Is each connection short beside a worker's share? Else jobs that are drawn divide the work better.
fn are_short(workers: u32, connections: &[&[Frame]]) -> bool
    requires { 0 < workers }
{
    let most = total_frames(connections) / workers as usize / 4;
    connections.iter().all(|frames| frames.len() <= most)
}

/// Is it worth while to audit shares of these connections side by side?
fn are_shared(workers: u32, connections: &[&[Frame]]) -> bool
    ensures { OnTrue result ((2 ≤ workers) × (2 ≤ length connections.now)) }
{
    if workers < 2 || connections.len() < 2 {
        return false;
    }
    SHARED_CONNECTIONS <= connections.len() && are_short(workers, connections)
}

/// What each connection of a batch shows. Each worker but one has a share on a thread of its own; this thread starts
/// them, one after the other, and has the last share (docs/DECISIONS.md, D-121).
pub(crate) fn by_shares<R: Threads + Sync, G: Gate>(
    team: &Team<'_, R, G>,
    division: &Division,
    connections: &[&[Frame]],
) -> Result<Vec<Findings>, AllocError>
    requires { IsBatch connections.now }
    ensures { IfOk result (λ found. AreShown division.now.frames_shown connections.now found.items) }
{
    if !are_shared(team.workers, connections) {
        return shown_of_each(team, division, connections);
    }
    let (front, back) = first_share(team.workers, connections);
    // `join` passes on no contract of a closure that holds a team, which has a lifetime and an invariant.
    let (rt, alloc, gate) = (team.rt, team.alloc, team.gate);
    let others = team.workers - 1;
    let (one, other) = join(
        rt,
        || -> Result<Vec<Findings>, AllocError>
            requires { IsSync R.row × IsSync G.row × IsBatch front.now }
            ensures { IfOk result (λ found. AreShown division.entry.now.frames_shown front.entry.now found.items) }
        {
            let team = Team {
                rt,
                alloc,
                workers: 1,
                gate,
            };
            by_shares(&team, division, front)
        },
        || -> Result<Vec<Findings>, AllocError>
            requires { IsSync R.row × IsSync G.row × (0 < others) × IsBatch back.now }
            ensures { IfOk result (λ found. AreShown division.entry.now.frames_shown back.entry.now found.items) }
        {
            let team = Team {
                rt,
                alloc,
                workers: others,
                gate,
            };
            by_shares(&team, division, back)
        },
    );
    both(one, other)
}
