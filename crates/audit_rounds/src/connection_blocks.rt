//! The blocks of the frames of connections.

ghost use Rattle.std.specs.Prelude.{◌^◌, ◌<◌, All, IfOk, OnOk, length};
ghost use Rattle.conn_scan.specs.code.Items.{IsBlock};
ghost use Rattle.audit_rounds.specs.code.Blocks.{AddsBlocks, AreBlocksOf, AreShort};
ghost use Rattle.audit_rounds.specs.code.Few.{FramesAreFew};
ghost use Rattle.audit_rounds.specs.code.PerConnection.{IsThroughStreams, wholes};

use crate::division::Division;
use crate::per_connection::PerConnection;
use conn_scan::{Block, changes_not_below, numbers_not_below};
use std::alloc::{AllocError, Global};

/// A block, and its connection.
#[derive(Clone, Copy)]
pub(crate) struct ConnectionBlock<'a> {
    pub(crate) connection: usize,
    pub(crate) block: Block<'a>,
}

/// Adds the frames of a connection in blocks of at most so many, each with the numbers and the changes from its first
/// frame on.
fn add_blocks<'a>(
    blocks: &mut Vec<ConnectionBlock<'a>>,
    size: usize,
    connection: usize,
    whole: &Block<'a>,
) -> Result<(), AllocError>
    requires size { 0 < size }
    requires whole { IsBlock whole.now }
    ensures { OnOk result (AddsBlocks connection whole.now blocks.old.items blocks.new.items) }
{
    let mut rest = *whole;
    while let Some((first, _)) = rest.frames.split_first() {
        let (front, back) = rest.frames.split_at(size.min(rest.frames.len()));
        rest.opened = numbers_not_below(rest.opened, first.number);
        rest.changes = changes_not_below(rest.changes, first.number);
        rest.frames = front;
        blocks.push(ConnectionBlock {
            connection,
            block: rest,
        })?;
        rest.frames = back;
    }
    Ok(())
}

/// What is left of all connections in blocks, one connection's after the other's.
pub(crate) fn in_blocks<'a>(
    alloc: Global,
    division: &Division,
    connections: &'a [PerConnection<'_>],
) -> Result<Vec<ConnectionBlock<'a>>, AllocError>
    requires through { All (IsThroughStreams division.now.frames_shown) connections.now }
    requires few { FramesAreFew connections.now }
    ensures of { IfOk result (λ blocks. AreBlocksOf (wholes connections.now) blocks.items) }
    ensures short { IfOk result (λ blocks. AreShort blocks.items) }
    ensures few { IfOk result (λ blocks. length blocks.items < 2 ^ 32) }
{
    let mut blocks = Vec::new(alloc);
    for (n, one) in connections.iter().enumerate() {
        let whole = one.rest();
        add_blocks(&mut blocks, division.block as usize, n, &whole)?;
    }
    Ok(blocks)
}
