//! The loud streams, of which something may be shown, apart from the quiet ones.

ghost use Rattle.std.specs.Prelude.{◌≡◌, ℕ, ◌^◌, ◌<◌, ◌++◌, ◌∷◌, [], List, IfOk, MatchOption, OnOk, Some, length};
ghost use Rattle.std.specs.Prelude.{slice_get};
ghost use Rattle.split_merge.specs.code.Visits.{IsIndex, NotAmong, streams_in};
ghost use Rattle.split_merge.specs.code.Loud.{ArePlaces, IsKept, loud_of, opened_in, places_from};

use crate::visits::{Visited, Visits};
use std::alloc::{AllocError, Global};
use stream_credit::QuietStream;

/// The loud streams among all of a table.
#[derive(Drop)]
pub(crate) struct Loud {
    /// Their rows, in order.
    pub(crate) rows: Vec<Visited>,
    /// The numbers of the frames that open the others.
    pub(crate) opened: Vec<u32>,
}

impl Loud {
    /// The loud streams of a table.
    pub(crate) fn of(alloc: Global, table: &Visits) -> Result<Loud, AllocError>
        requires { length table.now.quiets.items ≡ length table.now.rows.items }
        ensures rows { IfOk result (λ loud. loud.rows.items
            ≡ loud_of table.now.rows.items table.now.quiets.items) }
        ensures opened { IfOk result (λ loud. loud.opened.items ≡ opened_in table.now.quiets.items) }
    {
        let none = Vec::new(alloc);
        let opened = Vec::new(alloc);
        let mut loud = Loud { rows: none, opened };
        for row in 0..table.rows.len() {
            loud.add(&table.rows[row], &table.quiets[row])?;
        }
        Ok(loud)
    }

    /// Adds the next row of the table.
    fn add(&mut self, row: &Visited, quiet: &QuietStream) -> Result<(), AllocError>
        ensures rows { OnOk result (self.new.rows.items
            ≡ self.old.rows.items ++ loud_of (row.now ∷ []) (quiet.now ∷ [])) }
        ensures opened { OnOk result (self.new.opened.items ≡ self.old.opened.items ++ opened_in (quiet.now ∷ [])) }
    {
        if !quiet.is_quiet {
            self.rows.push(*row)?;
            return Ok(());
        }
        if let Some(number) = quiet.standings.opened_at() {
            self.opened.push(number)?;
        }
        Ok(())
    }
}

/// For each row of a table the row among those of the loud streams, if its stream is loud.
pub(crate) fn places_of(
    alloc: Global,
    quiets: &[QuietStream],
) -> Result<Vec<Option<u32>>, AllocError>
    requires { length quiets.now < 2 ^ 31 }
    ensures { IfOk result (λ places. places.items ≡ places_from 0 quiets.now) }
{
    let mut places = Vec::with_capacity(alloc, quiets.len())?;
    let mut next = 0;
    for quiet in quiets {
        let is_loud = !quiet.is_quiet;
        places.push(is_loud.then_some(next))?;
        next += u32::from(is_loud);
    }
    Ok(places)
}

/// The index of a stream's row among those of the loud ones, if it is one of them.
pub(crate) fn place_of(table: &mut Visits, places: &[Option<u32>], stream: u32) -> Option<u32>
    requires index { IsIndex (streams_in table.old.rows.items) table.old.index }
    requires room { length table.old.rows.items < 2 ^ 31 }
    requires long { length places.now ≡ length table.old.rows.items }
    ensures place { (loud : List ℕ) → ArePlaces (streams_in table.old.rows.items) places.now loud
        → MatchOption result (NotAmong stream loud) (λ row. slice_get loud row ≡ Some stream) }
    ensures kept { IsKept table.old table.new }
{
    let row = table.known_row(stream)?;
    places[row as usize]
}
