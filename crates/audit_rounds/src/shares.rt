//! The shares of a batch, which are audited side by side.

ghost use Rattle.std.specs.Prelude.{◌≡◌, ◌≤◌, ◌++◌, IfOk, length};
ghost use Rattle.audit_rounds.specs.code.Batch.{AreBoth, IsBatch};

use audit_terms::Frame;
use std::alloc::AllocError;

/// How many frames connections have in all.
pub(crate) fn total_frames(connections: &[&[Frame]]) -> usize {
    let mut total = 0usize;
    for frames in connections {
        total = total.saturating_add(frames.len());
    }
    total
}

/// One worker's share of the connections, with about as many frames as each of the other workers has, and the rest.
pub(crate) fn first_share<'a, 'b>(
    workers: u32,
    connections: &'b [&'a [Frame]],
) -> (&'b [&'a [Frame]], &'b [&'a [Frame]])
    requires number { 2 ≤ length connections.now }
    requires batch { IsBatch connections.now }
    ensures whole { result.0.now ++ result.1.now ≡ connections.now }
    ensures one { IsBatch result.0.now }
    ensures other { IsBatch result.1.now }
{
    let share = total_frames(connections) / workers.max(1) as usize;
    let mut before = connections[0].len();
    let mut count = 1;
    while count < connections.len() - 1 && before < share {
        before = before.saturating_add(connections[count].len());
        count += 1;
    }
    connections.split_at(count)
}

/// What was made of a share, and behind it what was made of the rest.
pub(crate) fn both<T: Drop>(
    one: Result<Vec<T>, AllocError>,
    other: Result<Vec<T>, AllocError>,
) -> Result<Vec<T>, AllocError>
    ensures { IfOk result (λ all. AreBoth one other all.items) }
{
    let mut all = one?;
    let mut more = other?;
    all.append(&mut more)?;
    Ok(all)
}
