//! Whoever is handed the segments of a connection.

ghost use Rattle.std.specs.Prelude.{◌∷◌, ◌++◌, [], ℕ, IfOk, List, OnOk};
ghost use Rattle.packet_heads.specs.declared.packets.Segment.{Segment as Shown};
ghost use Rattle.tcp_streams.specs.code.Side.{IsSent, Sent};
ghost use Rattle.tcp_streams.specs.code.Taken.{IsNextSent};

use packet_heads::Segment;
use std::alloc::{AllocError, Global};

/// Whoever is handed the segments of a connection of a capture, each once, in order, with its payload.
pub trait ConnectionVisitor: Drop {
    /// The visitor is what these segments, none of a record above the number, made of it: they belong to the connection
    /// that this SYN opened.
    ghost after: { Shown → List Sent → ℕ → Self → Type 0 };

    /// A visitor of the connection that a SYN opens, before any segment: the SYN is to be its first.
    fn begin(alloc: Global, opening: &Segment) -> Result<Self, AllocError>
        ensures { IfOk result (after opening.now [] 0) };

    /// Takes the connection's next segment, with its payload. Where memory runs out, nothing is known of the visitor.
    fn take(&mut self, alloc: Global, segment: &Segment, payload: &[u8]) -> Result<(), AllocError>
        requires sent { IsSent segment.now payload.now }
        requires next { (opening : Shown) × (sent : List Sent) × (last : ℕ) × after opening sent last self.old
            × IsNextSent sent last segment.now }
        ensures { (opening : Shown) (sent : List Sent) (last : ℕ) → after opening sent last self.old
            → IsNextSent sent last segment.now
            → OnOk result (after opening (sent ++ (segment.now, payload.now) ∷ []) segment.now.rec self.new) };
}
