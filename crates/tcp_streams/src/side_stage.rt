//! The flow of one side, handed on while its segments come.

ghost use Rattle.std.specs.Prelude.{◌≡◌, ◌++◌, ◌∷◌, [], ℕ, List, None, Option, OnOk, map};
ghost use Rattle.tcp_streams.specs.code.Grown.{Growth, of_side};
ghost use Rattle.tcp_streams.specs.Sequence.{Source};
ghost use Rattle.tcp_streams.specs.code.Content.{AreBytesIn};
ghost use Rattle.tcp_streams.specs.code.Side.{AreOfRecord, ComesNext, HasGrown, IsNextPiece, IsSent, IsSideStage, Sent};

use crate::growth_visitor::GrowthVisitor;
use crate::interval::Interval;
use crate::pieces::piece_of;
use crate::side_flow::SideFlow;
use audit_terms::Side;
use packet_heads::Segment;
use std::alloc::{AllocError, Global};

/// A side whose initial sequence number is known. It keeps only those bytes of its segments that lie behind a hole.
#[derive(Drop)]
pub(crate) struct SideStage {
    pub side: Side,
    pub initial_number: u32,
    pub flow: SideFlow<Vec<u8>>,
}

impl SideStage {
    /// The side before any segment.
    pub fn new(alloc: Global, side: Side, initial_number: u32) -> SideStage
        ensures stage { IsSideStage [] [] result }
        ensures side { result.side ≡ side }
        ensures initial { result.initial_number ≡ initial_number }
    {
        SideStage {
            side,
            initial_number,
            flow: SideFlow::new(alloc),
        }
    }

    /// Takes the side's next segment, and hands on by what its flow grows.
    pub fn take<V: GrowthVisitor>(
        &mut self,
        alloc: Global,
        segment: &Segment,
        payload: &[u8],
        visitor: &mut V,
    ) -> Result<(), AllocError>
        requires sent { IsSent segment.now payload.now }
        requires next { (sent : List Sent) × (grown : List Growth) × V.after grown visitor.old
            × IsSideStage sent (of_side self.old.side grown) self.old × ComesNext self.old.side sent grown segment.now }
        ensures taken { OnOk result ((sent : List Sent) → (grown : List Growth) → V.after grown visitor.old
            → IsSideStage sent (of_side self.old.side grown) self.old → ComesNext self.old.side sent grown segment.now
            → ((more : List Growth) × V.after (grown ++ more) visitor.new
            × AreOfRecord self.old.side segment.now more
            × IsSideStage (sent ++ (segment.now, payload.now) ∷ []) (of_side self.old.side grown ++ more) self.new)) }
        ensures side { OnOk result (self.new.side ≡ self.old.side) }
        ensures initial { OnOk result (self.new.initial_number ≡ self.old.initial_number) }
    {
        match piece_of(self.initial_number, segment) {
            Some(x) => {
                let from = (x.index - segment.lo) as usize;
                let upto = from + (x.upto - x.from) as usize;
                self.take_piece(alloc, &x, &payload[from..upto], visitor)
            }
            None => Ok(()),
        }
    }

    /// Takes what a segment covers, and hands on by what the flow grows.
    fn take_piece<V: GrowthVisitor>(
        &mut self,
        alloc: Global,
        x: &Interval,
        payload: &[u8],
        visitor: &mut V,
    ) -> Result<(), AllocError>
        requires given { AreBytesIn None x.now payload.now }
        requires next { (sources : ℕ → Option Source) × (grown : List Growth) × V.after grown visitor.old
            × IsNextPiece sources self.old.side grown self.old.flow x.now }
        ensures taken { OnOk result ((sources : ℕ → Option Source) → (grown : List Growth) → V.after grown visitor.old
            → IsNextPiece sources self.old.side grown self.old.flow x.now
            → ((more : List Growth) × V.after (grown ++ more) visitor.new
            × HasGrown sources self.old.side x.now payload.now self.old.flow self.new.flow more)) }
        ensures side { OnOk result (self.new.side ≡ self.old.side) }
        ensures initial { OnOk result (self.new.initial_number ≡ self.old.initial_number) }
    {
        if let Some(new) = self.flow.extend(x) {
            let from = (new.from - x.from) as usize;
            let upto = (x.upto - x.from) as usize;
            return visitor.take(alloc, self.side, &payload[from..upto], x.rec, x.nanos);
        }
        self.flow.keep(alloc, x, payload)?;
        while let Some(piece) = self.flow.next() {
            visitor.take(alloc, self.side, &piece.content, x.rec, x.nanos)?;
        }
        Ok(())
    }
}
