ghost use Rattle.std.specs.Prelude.{◌≡◌, length};
ghost use Rattle.stop_desk.specs.code.Desk.{IsConnection, final_stop};

use crate::passes::Pass;
use audit_terms::Place;
use std::alloc::Global;
use std::marker::Model;
use std::snapshot::Snapshot;

/// A desk that no worker shares any more.
///
/// A contract sees its last words, and the lists of the pass that it was closed with.
pub struct Closed {
    pub(crate) table: atomic_table::Closed<(), Global>,
    pub(crate) last: Snapshot<Pass>,
}

impl Model for Closed {
    ghost use Rattle.std.specs.Prelude.{◌≡◌, ◌<◌, length, slice_index};
    ghost use Rattle.std.specs.Slots.{slots_items, slots_len, IsFull};
    ghost use Rattle.stop_desk.specs.code.Desk.{ClosedView, closed_of};

    ghost Value = { ClosedView };

    ghost view = { λ k. closed_of k.last.value.desk (slots_items k.table.words)
        k.last.value.drawn k.last.value.seen k.last.value.lowered };

    ghost invariant = { λ k. IsFull k.table.words × (slots_len k.table.slots ≡ 0)
        × (0 < slots_len k.table.words) × (slots_len k.table.words ≡ length k.last.value.desk.opened)
        × (slice_index (slots_items k.table.words) 0 ≡ length k.last.value.drawn) };
}

impl Closed {
    /// How many numbers were drawn in all.
    #[tactic(auto, using(crate::proofs::PassViews::word_at))]
    pub fn drawn(&self) -> u64
        ensures { result ≡ length self.now.drawn }
    {
        self.table.word(0)
    }

    /// The stop of a connection: the least of its opening stop and of the places lowered for it.
    #[tactic(auto, using(crate::proofs::PassViews::word_at))]
    pub fn stop(&self, connection: usize) -> Option<Place>
        requires { IsConnection self.now.desk connection }
        ensures { result ≡ final_stop self.now connection }
    {
        Place::at_word(self.table.word(connection + 1))
    }
}

impl Drop for Closed {
    fn drop(self) {
        let Self { table, last: _ } = self;
        table.free();
    }
}
