//! Whoever is handed the records of a capture.

ghost use Rattle.std.specs.Prelude.{◌∷◌, ◌++◌, [], ℕ, List, OnOk};
ghost use Rattle.pcap_records.specs.code.Walk.{Captured, IsNext};

use crate::pcap_record::Record;
use std::alloc::{AllocError, Global};

/// Whoever is handed the records of a capture, each once, in order, with its captured bytes.
pub trait RecordVisitor {
    /// The visitor is what these records of a capture of this link type made of it.
    ghost after: { ℕ → List Captured → Self → Type 0 };

    /// Takes the next record of a capture of this link type. Where memory runs out, nothing is known of the visitor.
    fn take(
        &mut self,
        alloc: Global,
        link: u16,
        row: &Record,
        packet: &[u8],
    ) -> Result<(), AllocError>
        requires { (seen : List Captured) × after link seen self.old × IsNext link seen row.now packet.now }
        ensures { (seen : List Captured) → after link seen self.old → IsNext link seen row.now packet.now
            → OnOk result (after link (seen ++ (row.now, packet.now) ∷ []) self.new) };
}
