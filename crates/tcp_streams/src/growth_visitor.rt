//! Whoever is handed the flows of a connection.

ghost use Rattle.std.specs.Prelude.{◌∷◌, ◌++◌, [], List, OnOk};
ghost use Rattle.tcp_streams.specs.code.Grown.{Growth, IsNextGrowth};

use audit_terms::Side;
use std::alloc::{AllocError, Global};

/// Whoever is handed the flows of a connection's two sides, each byte once, in its side's order, and what came with an
/// earlier record first.
pub trait GrowthVisitor {
    /// The visitor is what these growths made of it.
    ghost after: { List Growth → Self → Type 0 };

    /// Takes bytes that follow those which the side sent before: they are there with this record, captured at this time
    /// in nanoseconds. Where memory runs out, nothing is known of the visitor.
    fn take(
        &mut self,
        alloc: Global,
        side: Side,
        bytes: &[u8],
        rec: u32,
        nanos: u64,
    ) -> Result<(), AllocError>
        requires { (grown : List Growth) × after grown self.old
            × IsNextGrowth grown (record { side = side; bytes = bytes.now; rec = rec; nanos = nanos }) }
        ensures { (grown : List Growth) → after grown self.old
            → IsNextGrowth grown (record { side = side; bytes = bytes.now; rec = rec; nanos = nanos })
            → OnOk result (after (grown ++ record { side = side; bytes = bytes.now; rec = rec; nanos = nanos } ∷ [])
            self.new) };
}
