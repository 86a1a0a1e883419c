ghost use Rattle.std.specs.Prelude.{◌≡◌, ◌+◌, ◌-◌, ◌^◌, ◌≤◌, ◌++◌, All, map, IfOk, OnOk};
ghost use Rattle.audit_terms.specs.declared.findings.Finding.{Finding as FindingTerm};
ghost use Rattle.audit_terms.specs.declared.frames.Frame.{Frame as FrameTerm};
ghost use Rattle.audit_terms.specs.Place.{place_number};
ghost use Rattle.audit_terms.specs.code.runs.Look.{IsRun};
ghost use Rattle.audit_terms.specs.code.Watch.{GoesOn, HasMetBefore};
ghost use Rattle.audit_terms.specs.code.runs.Orderly.{IsInRange};
ghost use Rattle.audit_terms.specs.Connection.{connection_said, connection_after};
ghost use Rattle.audit_terms.specs.code.runs.Blocks.{block_run};
ghost use Rattle.audit_terms.specs.Finding.{in_order, shown};
ghost use Rattle.audit_terms.specs.code.Room.{HaveRoom, HaveMovedLittle};
ghost use Rattle.conn_scan.specs.code.Items.{items_in, IsBlock};
ghost use Rattle.conn_scan.specs.code.Block.{BlockFits};

use crate::block_items::Block;
use audit_terms::{
    ConnectionState, Finding, Item, Look, Place, Watch, keep_shown, keep_up_to, put_in_order,
};
use fault_rules::say_connection;
use std::alloc::{AllocError, Global};

/// What a block of frames shows of its connection, up to where the run stopped.
#[derive(Drop)]
pub struct BlockRun {
    /// In the order of the audit.
    pub findings: Vec<Finding>,
    /// The last answer, where a frame of the block lies past it: what was found stands at or before this place.
    pub upto: Option<Place>,
    /// The last answer to a look.
    pub last_look: Option<Place>,
    /// How often the run looked.
    pub looks: u32,
}

/// What a block of frames shows of its connection, from the state before it, up to where `look` says that the
/// connection stops: over-long frames, promises that are not allowed, openings out of order, and what becomes of both
/// connection windows (RFC 9113, 4.2, 5.1.1, 6.9, 8.4). Credits are left out unless they are shown.
pub fn block_findings<L: Look>(
    alloc: Global,
    before: &ConnectionState,
    block: &Block,
    frames_shown: bool,
    look: &mut L,
) -> Result<BlockRun, AllocError>
    requires block { IsBlock block.now }
    requires fits { BlockFits before.now (items_in block.now) }
    ensures run { IfOk result (λ run. IsRun L.answers look.old look.new
        (map (λ (frame : FrameTerm). frame.number) block.now.frames.now)
        (shown frames_shown (block_run before.now (items_in block.now)))
        run.findings.items run.upto run.last_look run.looks) }
    ensures numbered { IfOk result (λ run.
        All (λ (found : FindingTerm). place_number found.place ≤ 2 ^ 28 - 2) run.findings.items) }
{
    let mut state = *before;
    let mut findings = Vec::new(alloc);
    let mut said = Vec::new(alloc);
    let mut watch = Watch::begin(look);
    for item in block.items() {
        if !goes_on(&mut watch, look, findings.as_slice(), &item) {
            keep_up_to(&mut findings, &watch.stop);
            return Ok(BlockRun {
                findings,
                upto: watch.stop,
                last_look: watch.stop,
                looks: watch.looks,
            });
        }
        add_item(&mut findings, &mut said, &mut state, &item, frames_shown)?;
    }
    Ok(BlockRun {
        findings,
        upto: None,
        last_look: watch.stop,
        looks: watch.looks,
    })
}

/// Whether the run goes on to an item, before which it looks if that is due. `found` is what the items before show.
fn goes_on<L: Look>(watch: &mut Watch, look: &mut L, found: &[Finding], item: &Item) -> bool
    requires { HasMetBefore item.now.frame.number watch.old }
    ensures { GoesOn L.answers look.old look.new found.now item.now.frame.number watch.old watch.new result }
{
    watch.goes_on(look, found, item.frame.number)
}

/// Adds what an item shows, in order, and brings the connection to its state after the item. `said` is scratch: only
/// its memory is kept.
fn add_item(
    found: &mut Vec<Finding>,
    said: &mut Vec<Finding>,
    state: &mut ConnectionState,
    item: &Item,
    frames_shown: bool,
) -> Result<(), AllocError>
    requires frame { IsInRange item.now.frame }
    requires room { HaveRoom (2 ^ 60) state.old.credit }
    ensures found { OnOk result (found.new.items
        ≡ found.old.items ++ shown frames_shown (in_order (connection_said state.old item.now))) }
    ensures after { OnOk result (state.new ≡ connection_after state.old item.now) }
    ensures little { HaveMovedLittle state.old.credit state.new.credit }
{
    said.clear();
    say_connection(said, state, item)?;
    put_in_order(said)?;
    keep_shown(said, frames_shown);
    found.extend_from_slice(said.as_slice())
}
