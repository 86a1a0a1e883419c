ghost use Rattle.std.specs.Prelude.{◌≡◌, ℕ, ◌^◌, ◌<◌, ◌++◌, IfOk, List, length, set};
ghost use Rattle.audit_terms.specs.code.runs.Orderly.{IsOrderly};
ghost use Rattle.audit_terms.specs.code.runs.Changes.{AreOrderly, AreAcknowledged};
ghost use Rattle.split_merge.specs.code.Split.{IsRange, IsSplit, row_positions};
ghost use Rattle.split_merge.specs.code.Loud.{CanPlace, IsLaid, IsPlacing, loud_of, opened_in};
ghost use Rattle.split_merge.specs.code.Visits.{AreFilled, IsTableOf, laid_out, longer, noted, notes_from, streams_in};
ghost use Rattle.split_merge.specs.code.Visits.{total_of};

use crate::loud::{Loud, place_of, places_of};
use crate::visits::{Visited, Visits};
use audit_terms::{Change, Frame};
use input_output::TableHash;
use std::alloc::{AllocError, Global};
use stream_credit::Changes;

/// A stream, and the range of its frames' positions in the list of a split.
#[derive(Clone, Copy)]
pub struct StreamRow {
    pub stream: u32,
    pub from: u32,
    pub to: u32,
}

/// The frames of a connection by stream. No frame is copied.
#[derive(Drop)]
pub struct SplitFrames {
    /// A row for each stream other than 0 that meets a frame and is not quiet, in order of first frames.
    pub rows: Vec<StreamRow>,
    /// The positions of the rows' frames in the list of all frames, stream after stream.
    pub positions: Vec<u32>,
    /// The numbers of the frames that open the quiet streams.
    pub opened: Vec<u32>,
}

impl SplitFrames {
    /// The positions of a row's frames in the list of all frames, in order.
    pub fn positions_of(&self, row: &StreamRow) -> &[u32]
        requires { IsRange self.now row.now }
        ensures { result.now ≡ row_positions self.now row.now }
    {
        &self.positions[row.from as usize..row.to as usize]
    }
}

/// The frames of a connection by stream: each is with its own stream and with the one that it promises. A stream is
/// quiet where it shows nothing by itself; with credits none is.
pub fn split(
    alloc: Global,
    hash: TableHash,
    frames_shown: bool,
    changes: &[Change],
    frames: &[Frame],
) -> Result<SplitFrames, AllocError>
    requires length { length frames.now < 2 ^ 28 }
    requires frames { IsOrderly frames.now }
    requires changes { AreOrderly changes.now }
    requires acknowledged { AreAcknowledged frames.now changes.now }
    ensures { IfOk result (IsSplit frames_shown changes.now frames.now) }
{
    let changes = Changes::of(alloc, changes)?;
    let mut table = Visits::ended(alloc, hash, frames_shown, &changes, frames)?;
    laid(alloc, &mut table, frames)
}

/// The rows of the loud streams, with the positions of the frames that they meet. Where there is none, no frame is
/// looked at.
fn laid(alloc: Global, table: &mut Visits, frames: &[Frame]) -> Result<SplitFrames, AllocError>
    requires length { length frames.now < 2 ^ 28 }
    requires table { IsTableOf (notes_from 0 frames.now) table.old }
    requires long { length table.old.quiets.items ≡ length table.old.rows.items }
    ensures { IfOk result (IsLaid (loud_of (streams_in table.old.rows.items) table.old.quiets.items)
        (opened_in table.old.quiets.items) (notes_from 0 frames.now)) }
{
    let loud = Loud::of(alloc, table)?;
    if loud.rows.is_empty() {
        return Ok(SplitFrames {
            rows: Vec::new(alloc),
            positions: Vec::new(alloc),
            opened: loud.opened,
        });
    }
    let places = places_of(alloc, table.quiets.as_slice())?;
    let (mut rows, total) = lay_out(alloc, loud.rows.as_slice())?;
    let positions = place(alloc, &mut rows, places.as_slice(), table, frames, total)?;
    Ok(SplitFrames {
        rows,
        positions,
        opened: loud.opened,
    })
}

/// Gives each row its range, empty as yet, with room for the visits that it counts, and returns the room in all.
fn lay_out(alloc: Global, loud: &[Visited]) -> Result<(Vec<StreamRow>, u32), AllocError>
    requires { total_of loud.now < 2 ^ 32 }
    ensures rows { IfOk result (λ made. made.0.items ≡ laid_out 0 loud.now) }
    ensures total { IfOk result (λ made. made.1 ≡ total_of loud.now) }
{
    let mut rows = Vec::with_capacity(alloc, loud.len())?;
    let mut total = 0;
    for row in loud {
        rows.push(StreamRow {
            stream: row.stream,
            from: total,
            to: total,
        })?;
        total += row.count;
    }
    Ok((rows, total))
}

/// Appends the position of each frame to the ranges of the streams that meet it, if these have rows.
fn place(
    alloc: Global,
    rows: &mut [StreamRow],
    places: &[Option<u32>],
    table: &mut Visits,
    frames: &[Frame],
    total: u32,
) -> Result<Vec<u32>, AllocError>
    requires length { length frames.now < 2 ^ 28 }
    requires room { (loud : List ℕ) × CanPlace loud (notes_from 0 frames.now) places.now table.old rows.old total }
    ensures { IfOk result (λ positions. (loud : List ℕ)
        → CanPlace loud (notes_from 0 frames.now) places.now table.old rows.old total
        → AreFilled 0 loud (notes_from 0 frames.now) (notes_from 0 frames.now) rows.new positions.items) }
{
    let mut positions = vec![in alloc; 0; total as usize]?;
    let mut position = 0;
    for frame in frames {
        visit(&mut positions, rows, places, table, frame.stream, position);
        visit(
            &mut positions,
            rows,
            places,
            table,
            frame.promised_by(),
            position,
        );
        position += 1;
    }
    Ok(positions)
}

/// Appends a position to a stream's range, if it is a loud stream.
fn visit(
    positions: &mut Vec<u32>,
    rows: &mut [StreamRow],
    places: &[Option<u32>],
    table: &mut Visits,
    stream: u32,
    position: u32,
)
    requires { (loud : List ℕ) × (came left : List (ℕ × ℕ)) × IsPlacing loud came (noted stream position ++ left)
        places.now table.old rows.old positions.old.items }
    ensures { (loud : List ℕ) (came left : List (ℕ × ℕ))
        → IsPlacing loud came (noted stream position ++ left) places.now table.old rows.old positions.old.items
        → IsPlacing loud (came ++ noted stream position) left places.now table.new rows.new positions.new.items }
{
    if let Some(row) = place_of(table, places, stream) {
        put(positions, &mut rows[row as usize], position);
    }
}

/// Appends a position to a row's range.
fn put(positions: &mut Vec<u32>, row: &mut StreamRow, position: u32)
    requires within { row.old.to < length positions.old.items }
    requires short { length positions.old.items < 2 ^ 32 }
    ensures positions { positions.new.items ≡ set positions.old.items row.old.to position }
    ensures row { row.new ≡ longer row.old }
{
    positions[row.to as usize] = position;
    row.to += 1;
}
