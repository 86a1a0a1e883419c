//! Both sides of a connection, handed on while its segments come.

ghost use Rattle.std.specs.Prelude.{◌++◌, ◌∷◌, [], ℕ, List, OnOk};
ghost use Rattle.tcp_streams.specs.code.Side.{IsSent, Sent};
ghost use Rattle.tcp_streams.specs.code.Taken.{AreSameSides, AreTaken, IsNextSent};

use crate::growth_visitor::GrowthVisitor;
use crate::side_stage::SideStage;
use packet_heads::{Endpoint, Segment};
use std::alloc::{AllocError, Global};

/// Both sides of a connection, as far as their initial numbers are known, and who is handed their flows.
#[derive(Drop)]
pub(crate) struct BothSides<V> {
    /// Who sent the opening SYN.
    pub client: Endpoint,
    pub client_side: SideStage,
    /// The server's side, where its SYN ACK came.
    pub server_side: Option<SideStage>,
    pub visitor: V,
}

impl<V: GrowthVisitor> BothSides<V> {
    /// Takes the next segment of either side. What a server sends whose number is not known counts for nothing.
    pub fn take(
        &mut self,
        alloc: Global,
        segment: &Segment,
        payload: &[u8],
    ) -> Result<(), AllocError>
        requires sent { IsSent segment.now payload.now }
        requires next { (sent : List Sent) × (last : ℕ) × AreTaken V.after sent last self.old
            × IsNextSent sent last segment.now }
        ensures taken { OnOk result ((sent : List Sent) → (last : ℕ) → AreTaken V.after sent last self.old
            → IsNextSent sent last segment.now
            → AreTaken V.after (sent ++ (segment.now, payload.now) ∷ []) segment.now.rec self.new) }
        ensures same { OnOk result (AreSameSides self.old self.new) }
    {
        if segment.from == self.client {
            return self
                .client_side
                .take(alloc, segment, payload, &mut self.visitor);
        }
        match &mut self.server_side {
            Some(server) => server.take(alloc, segment, payload, &mut self.visitor),
            None => Ok(()),
        }
    }
}
