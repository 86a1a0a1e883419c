//! The blocks that are run, each with the connection before it.

ghost use Rattle.std.specs.Prelude.{◌≡◌, ℕ, ◌<◌, ◌≤◌, [], All, List, IfOk, length};
ghost use Rattle.std.specs.Bool.{OnFalse};
ghost use Rattle.audit_terms.specs.declared.items.Item.{Item as ItemTerm};
ghost use Rattle.audit_terms.specs.Connection.{connection_start};
ghost use Rattle.audit_terms.specs.code.runs.Blocks.{block_run};
ghost use Rattle.audit_terms.specs.Finding.{shown};
ghost use Rattle.conn_scan.specs.code.ConnSum.{conn_sum_of};
ghost use Rattle.audit_rounds.specs.declared.connection_blocks.ConnectionBlock.{ConnectionBlock as BlockTerm};
ghost use Rattle.audit_rounds.specs.code.Blocks.{AreFit, AreShort, AreSums, before_of};
ghost use Rattle.audit_rounds.specs.code.Plans.{IsPlan, shown_from};

use crate::connection_blocks::ConnectionBlock;
use audit_terms::ConnectionState;
use conn_scan::{Block, ConnSum, Summary, clear};
use std::alloc::{AllocError, Global};

/// A block with the connection before it.
#[derive(Clone, Copy)]
pub(crate) struct ReadyBlock<'a> {
    pub(crate) connection: usize,
    pub(crate) block: Block<'a>,
    pub(crate) before: ConnectionState,
}

/// May a block show anything, by its summary? A clear block shows only credits.
fn may_show(frames_shown: bool, before: &ConnectionState, sum: &ConnSum) -> bool
    ensures { OnFalse result ((items : List ItemTerm) → sum.now ≡ conn_sum_of items
        → shown frames_shown (block_run before.now items) ≡ []) }
{
    frames_shown || !clear(before, sum)
}

/// The connection before a block: as the last block leaves it, if that is of the same connection.
fn before_of(last: usize, now: &ConnectionState, one: &ConnectionBlock<'_>) -> ConnectionState
    ensures { result ≡ before_of last now.now one.now }
{
    if one.connection == last {
        *now
    } else {
        ConnectionState::start()
    }
}

/// The blocks of all connections that may show anything.
pub(crate) fn plan_of<'a>(
    alloc: Global,
    frames_shown: bool,
    blocks: &[ConnectionBlock<'a>],
    sums: &[ConnSum],
) -> Result<Vec<ReadyBlock<'a>>, AllocError>
    requires short { AreShort blocks.now }
    requires sums { AreSums blocks.now sums.now }
    requires fits { AreFit 0 connection_start blocks.now }
    ensures plan { IfOk result (λ plan. (connections : ℕ)
        → All (λ (one : BlockTerm). one.connection < connections) blocks.now
        → IsPlan frames_shown connections (shown_from frames_shown 0 connection_start blocks.now) plan.items) }
    ensures few { IfOk result (λ plan. length plan.items ≤ length blocks.now) }
{
    let mut plan = Vec::new(alloc);
    let mut last = 0;
    let mut now = ConnectionState::start();
    for at in 0..blocks.len() {
        let one = blocks[at];
        let before = before_of(last, &now, &one);
        if may_show(frames_shown, &before, &sums[at]) {
            plan.push(ReadyBlock {
                connection: one.connection,
                block: one.block,
                before,
            })?;
        }
        last = one.connection;
        now = ConnSum::advance(&before, &sums[at]);
    }
    Ok(plan)
}
