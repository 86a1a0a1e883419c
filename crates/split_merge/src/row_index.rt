//! The index by which rows of streams are found.

ghost use Rattle.std.specs.Prelude.{◌≡◌, ◌≢◌, ◌+◌, ◌^◌, ◌<◌, [], IfOk, MatchOption, Some, length, slice_get};
ghost use Rattle.std.specs.Bool.{OnTrue};
ghost use Rattle.split_merge.specs.code.Visits.{AreBelow, IsIndex, IsRowOf, NotAmong, NotBefore, streams_in};

use crate::visits::Visited;
use audit_terms::row_of;
use indexmap::IndexSet;
use input_output::TableHash;
use std::alloc::{AllocError, Global};

/// Finds the row of a stream. Streams are numbered upwards (RFC 9113, 5.1.1): while they are met in that order, their
/// rows are found as they stand, and nothing is kept beside them. From the first stream on that is met out of order,
/// they are in a table.
#[derive(Drop)]
pub(crate) struct RowIndex {
    /// How many rows at the front stand in order of their streams.
    pub(crate) rising: u32,
    /// The streams of the rows behind them, row by row.
    pub(crate) others: IndexSet<u32, TableHash>,
}

impl RowIndex {
    /// An index of no rows.
    pub(crate) fn new(alloc: Global, hash: TableHash) -> RowIndex
        ensures { IsIndex [] result }
    {
        RowIndex {
            rising: 0,
            others: IndexSet::with_hasher(alloc, hash),
        }
    }

    /// Where the row of a stream is among these, if it has one.
    pub(crate) fn find(&self, rows: &[Visited], stream: u32) -> Option<u32>
        requires index { IsIndex (streams_in rows.now) self.now }
        requires room { length rows.now < 2 ^ 31 }
        ensures { MatchOption result (NotAmong stream (streams_in rows.now))
            (λ row. slice_get (streams_in rows.now) row ≡ Some stream) }
    {
        if let Some(row) = self.rising_row(rows, stream) {
            return Some(row);
        }
        let (place, _) = self.others.get_full(&stream)?;
        Some(self.rising + place as u32)
    }

    /// Where the row of a stream is among these, or is to be appended: then the second value is true.
    pub(crate) fn insert(
        &mut self,
        rows: &[Visited],
        stream: u32,
    ) -> Result<(u32, bool), AllocError>
        requires index { IsIndex (streams_in rows.now) self.old }
        requires room { length rows.now < 2 ^ 31 }
        requires above { stream ≢ 0 }
        ensures { IfOk result (λ found. IsRowOf found.1 stream found.0 (streams_in rows.now) self.new) }
    {
        if self.is_above(rows, stream) {
            self.rising += 1;
            return Ok((rows.len() as u32, true));
        }
        if let Some(row) = self.rising_row(rows, stream) {
            return Ok((row, false));
        }
        let (place, added) = self.others.insert_full(stream)?;
        Ok((self.rising + place as u32, added))
    }

    /// Do the streams of all rows rise, up to below this one?
    fn is_above(&self, rows: &[Visited], stream: u32) -> bool
        requires { IsIndex (streams_in rows.now) self.now }
        ensures rising { OnTrue result (self.now.rising ≡ length rows.now) }
        ensures above { OnTrue result (AreBelow stream (streams_in rows.now)) }
    {
        if self.rising as usize != rows.len() {
            return false;
        }
        match rows.last() {
            Some(last) => is_below(last, stream),
            None => true,
        }
    }

    /// Where the row of a stream is among those at the front.
    fn rising_row(&self, rows: &[Visited], stream: u32) -> Option<u32>
        requires index { IsIndex (streams_in rows.now) self.now }
        requires room { length rows.now < 2 ^ 31 }
        ensures { MatchOption result (NotBefore self.now.rising stream (streams_in rows.now))
            (λ row. slice_get (streams_in rows.now) row ≡ Some stream) }
    {
        let row = row_of(&rows[..self.rising as usize], stream)?;
        Some(row as u32)
    }
}

/// Is the stream of a row below this one?
fn is_below(row: &Visited, stream: u32) -> bool
    ensures { OnTrue result (row.now.stream < stream) }
{
    row.stream < stream
}
