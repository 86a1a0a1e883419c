//! Segments that wait until the server's number is known.

ghost use Rattle.std.specs.Prelude.{◌++◌, ◌∷◌, [], List, OnOk};
ghost use Rattle.tcp_streams.specs.code.Side.{Sent};

use packet_heads::Segment;
use std::alloc::{AllocError, Global};

/// Segments of a connection, in order, and their payloads, one after the other.
#[derive(Drop)]
pub(crate) struct WaitingSegments {
    pub segments: Vec<Segment>,
    pub bytes: Vec<u8>,
}

impl WaitingSegments {
    ghost use Rattle.tcp_streams.specs.code.Flows.{HasSegments};

    /// None.
    fn new(alloc: Global) -> WaitingSegments
        ensures { HasSegments [] result }
    {
        WaitingSegments {
            segments: Vec::new(alloc),
            bytes: Vec::new(alloc),
        }
    }

    /// One more waits.
    fn push(&mut self, segment: &Segment, payload: &[u8]) -> Result<(), AllocError>
        ensures { (sent : List Sent) → HasSegments sent self.old
            → OnOk result (HasSegments (sent ++ (segment.now, payload.now) ∷ []) self.new) }
    {
        self.segments.push(*segment)?;
        self.bytes.extend_from_slice(payload)?;
        Ok(())
    }
}

/// The segments of a connection that wait, in a box: in most connections none does.
#[derive(Drop)]
pub(crate) struct Waiting {
    pub kept: Option<Box<WaitingSegments>>,
}

impl Waiting {
    ghost use Rattle.std.specs.Prelude.{◌≡◌};
    ghost use Rattle.tcp_streams.specs.code.Flows.{AreWaiting, is_none_sent};

    /// None.
    pub fn none() -> Waiting
        ensures { AreWaiting [] result }
    {
        Waiting { kept: None }
    }

    /// Does none wait?
    pub fn is_empty(&self) -> bool
        ensures { (sent : List Sent) → AreWaiting sent self.now → result ≡ is_none_sent sent }
    {
        match &self.kept {
            Some(kept) => kept.segments.is_empty(),
            None => true,
        }
    }

    /// One more waits.
    pub fn push(
        &mut self,
        alloc: Global,
        segment: &Segment,
        payload: &[u8],
    ) -> Result<(), AllocError>
        ensures { (sent : List Sent) → AreWaiting sent self.old
            → OnOk result (AreWaiting (sent ++ (segment.now, payload.now) ∷ []) self.new) }
    {
        if let Some(kept) = &mut self.kept {
            return kept.push(segment, payload);
        }
        let mut first = WaitingSegments::new(alloc);
        first.push(segment, payload)?;
        self.kept = Some(Box::new(alloc, first)?);
        Ok(())
    }
}
