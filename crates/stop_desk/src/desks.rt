ghost use Rattle.std.specs.Prelude.{◌≡◌, ◌<◌, [], ◌∷◌, map, drop, All, IfOk};
ghost use Rattle.audit_terms.specs.code.Places.{place_at};
ghost use Rattle.stop_desk.specs.code.Stop.{IsStop, stop_word};
ghost use Rattle.stop_desk.specs.code.Desk.{desk_of, pass_of, closed_of, all_draws, pass_draws};
ghost use Rattle.stop_desk.specs.code.Settled.{IsDeskSettled};

use crate::closing::Closed;
use crate::passes::Pass;
use crate::rule::{DeskRule, Knows, Opening};
use crate::stop_words::word_of;
use atomic_table::Table;
use audit_terms::Place;
use std::alloc::{AllocError, Global};
use std::marker::Model;
use std::snapshot::Snapshot;

/// The jobs that are left to deal and the stop of each connection, for all workers.
///
/// A contract sees which desk it is, with the words that it was opened with, and its jobs and workers.
#[derive(Drop)]
pub struct Desk {
    pub(crate) table: Table<(), Knows, Opening, DeskRule, Global>,
    jobs: u32,
    workers: u32,
}

impl Model for Desk {
    ghost use Rattle.std.specs.Prelude.{◌≡◌, ◌+◌, ◌*◌, ◌<◌, length};
    ghost use Rattle.stop_desk.specs.code.Desk.{DeskView, desk_of};

    ghost Value = { DeskView };

    ghost view = { λ d. desk_of (record { table = d.table.shared.table_id; opened = d.table.shared.key.words.items })
        d.jobs d.workers };

    ghost invariant = { λ d. (d.table.shared.table_id.words ≡ length d.table.shared.key.words.items)
        × (d.table.shared.table_id.slots ≡ 0) × (0 < d.table.shared.table_id.words)
        × (d.table.shared.key.whole ≡ d.workers * (d.jobs + 1)) };
}

// The words that a desk is opened with: the next number to draw, and the stops.
fn opening_words(alloc: Global, stops: &[Option<Place>]) -> Result<Vec<u64>, AllocError>
    ensures { IfOk result (λ v. v.items ≡ 0 ∷ map stop_word stops.now) }
{
    let mut words = Vec::with_capacity(alloc, stops.len() + 1)?;
    words.push(0)?;
    for stop in stops {
        words.push(word_of(stop))?;
    }
    Ok(words)
}

impl Desk {
    /// A desk for jobs numbered from 0, with a stop for each connection, and the first pass, which has all draws: each
    /// worker may draw as often as there are jobs, and once more. `Err` only where memory runs out.
    #[tactic(auto, using(crate::proofs::PassViews::stops_made))]
    pub fn make(
        alloc: Global,
        jobs: u32,
        stops: &[Option<Place>],
        workers: u32,
    ) -> Result<(Desk, Pass), AllocError>
        requires workers { 0 < workers }
        requires places { All IsStop stops.now }
        ensures desk { IfOk result (λ r. r.0 ≡ desk_of r.0.id jobs workers) }
        ensures words { IfOk result (λ r. r.0.id.opened ≡ 0 ∷ map stop_word stops.now) }
        ensures stops { IfOk result (λ r. map place_at (drop 1 r.0.id.opened) ≡ stops.now) }
        ensures first { IfOk result (λ r. r.1 ≡ pass_of r.0.id (all_draws r.0) [] [] []) }
    {
        let opening = Opening {
            whole: u64::from(workers) * (u64::from(jobs) + 1),
            words: opening_words(alloc, stops)?,
        };
        let (table, seat) = Table::of_words(alloc, opening.words.as_slice(), &opening)?;
        let desk = Desk {
            table,
            jobs,
            workers,
        };
        let first = Pass {
            seat,
            allowance: opening.whole,
        };
        Ok((desk, first))
    }

    /// The number of jobs.
    pub fn jobs(&self) -> u32
        ensures { result ≡ self.now.jobs }
    {
        self.jobs
    }

    /// Closes the desk with the pass that all others were joined into.
    pub fn close(self, last: Pass) -> Closed
        requires desk { last.desk ≡ self.id }
        requires all { pass_draws last ≡ all_draws self }
        ensures lists { result ≡ closed_of self.id result.words last.drawn last.seen last.lowered }
        ensures settled { IsDeskSettled result }
    {
        let known = Snapshot::of(&last);
        let Desk { table, .. } = self;
        let Pass { seat, .. } = last;
        Closed {
            table: table.close_with(seat),
            last: known,
        }
    }
}
