ghost use Rattle.std.specs.Prelude.{◌≡◌, ℕ, ◌==◌, ◌&&◌, OnOk, None, Some, if◌then◌else◌};
ghost use Rattle.audit_terms.specs.declared.sides.Side.{Side};
ghost use Rattle.audit_terms.specs.Side.{is_side};
ghost use Rattle.audit_terms.specs.Place.{place_stream};

use audit_terms::{Side, Sides, TimedFinding};
use std::alloc::{AllocError, Global};
use std::collections::BTreeMap;

/// An end of a stall for each window, by the side that sends through it and the stream, 0 being the connection. Ordered
/// maps, in which no streams collide.
#[derive(Drop)]
pub(crate) struct Ends {
    pub(crate) by_side: Sides<BTreeMap<u32, TimedFinding>>,
}

impl Ends {
    ghost use Rattle.audit_report.specs.code.Ends.{end_in};

    pub(crate) fn new(alloc: Global) -> Ends
        ensures { (side : Side) (stream : ℕ) → end_in result side stream ≡ None }
    {
        Ends {
            by_side: Sides {
                client: BTreeMap::new(alloc),
                server: BTreeMap::new(alloc),
            },
        }
    }

    /// The end that is kept for this window.
    pub(crate) fn of(&self, side: Side, stream: u32) -> Option<TimedFinding>
        ensures { result ≡ end_in self.now side stream }
    {
        match side {
            Side::Client => self.by_side.client.get(&stream).copied(),
            Side::Server => self.by_side.server.get(&stream).copied(),
        }
    }

    /// Keeps this end for its window, in place of the one before.
    pub(crate) fn put(&mut self, end: TimedFinding) -> Result<(), AllocError>
        ensures { OnOk result ((side : Side) (stream : ℕ) → end_in self.new side stream
            ≡ (if is_side side end.side && (place_stream end.place == stream)
            then Some end
            else end_in self.old side stream)) }
    {
        let stream = end.place.stream();
        match end.side {
            Side::Client => self.by_side.client.insert(stream, end)?,
            Side::Server => self.by_side.server.insert(stream, end)?,
        };
        Ok(())
    }
}
