//! The frames of a connection, handed on while its segments come.

ghost use Rattle.std.specs.Prelude.{◌∷◌, ◌++◌, [], ℕ, List, IfOk, OnOk};
ghost use Rattle.packet_heads.specs.declared.packets.Segment.{Segment as Opening};
ghost use Rattle.tcp_streams.specs.code.SentFlows.{HaveFlows};
ghost use Rattle.tcp_streams.specs.code.Side.{IsSent, Sent};
ghost use Rattle.tcp_streams.specs.code.Taken.{IsNextSent};
ghost use Rattle.h2_frames.specs.code.ConnectionFrames.{HasHandedAll, HasTakenSent};

use crate::connection::{ConnectionCutter, Ending};
use crate::visitor::FrameVisitor;
use packet_heads::Segment;
use std::alloc::{AllocError, Global};
use tcp_streams::laws::flow_is_unique;
use tcp_streams::{ConnectionFlows, FlowEnd};

/// A connection while its segments come, whose frames are handed to a visitor in capture order as soon as their bytes
/// are there.
///
/// It keeps what its two stages keep: bytes behind holes, segments that wait for the server's number
/// ([`ConnectionFlows`]), and what begins a frame ([`ConnectionCutter`]).
#[derive(Drop)]
pub struct ConnectionFrames<V> {
    flows: ConnectionFlows<ConnectionCutter<V>>,
}

/// What all segments of a connection made of a visitor of its frames.
#[derive(Drop)]
pub struct HandedFrames<V> {
    pub visitor: V,
    /// Which kind of [`crate::Cut`] the two flows have.
    pub ending: Ending,
    pub client: FlowEnd,
    pub server: FlowEnd,
}

impl<V: FrameVisitor + Drop> ConnectionFrames<V> {
    /// The connection that a SYN opens, before any segment: the SYN is to be its first.
    pub fn begin(alloc: Global, opening: &Segment, visitor: V) -> ConnectionFrames<V>
        requires { V.after [] visitor }
        ensures { HasTakenSent V.after opening.now [] 0 result }
    {
        ConnectionFrames {
            flows: ConnectionFlows::begin(alloc, opening, ConnectionCutter::new(alloc, visitor)),
        }
    }

    /// Takes the connection's next segment, and hands on the frames that it completes.
    ///
    /// Records are to come in order, and the payloads of a connection to be shorter than 2^31 bytes together, as those
    /// of a capture are which is shorter (`tcp_streams::laws::sides_fit`). Where memory runs out, nothing is known of
    /// the stage.
    pub fn take(
        &mut self,
        alloc: Global,
        segment: &Segment,
        payload: &[u8],
    ) -> Result<(), AllocError>
        requires sent { IsSent segment.now payload.now }
        requires next { (opening : Opening) × (sent : List Sent) × (last : ℕ)
            × HasTakenSent V.after opening sent last self.old × IsNextSent sent last segment.now }
        ensures { (opening : Opening) (sent : List Sent) (last : ℕ) → HasTakenSent V.after opening sent last self.old
            → IsNextSent sent last segment.now → OnOk result (HasTakenSent V.after opening
            (sent ++ (segment.now, payload.now) ∷ []) segment.now.rec self.new) }
    {
        self.flows.take(alloc, segment, payload)
    }

    /// What all its segments made of the visitor, and which kind of cut its two flows have.
    ///
    /// The flows, which there are (`HaveFlows`), are those that `tcp_streams::assemble` gives of a capture in which the
    /// payloads stand (`tcp_streams::laws::flows_are_those_sent`), and of these the cut is the one that `cut` finds
    /// (`laws::ending_tells_the_cut`).
    pub fn finish(self, alloc: Global) -> Result<HandedFrames<V>, AllocError>
        requires { (opening : Opening) × (sent : List Sent) × (last : ℕ) × HasTakenSent V.after opening sent last self }
        ensures handed { (opening : Opening) (sent : List Sent) (last : ℕ) → HasTakenSent V.after opening sent last self
            → IfOk result (HasHandedAll V.after opening sent) }
        ensures flows { (opening : Opening) (sent : List Sent) (last : ℕ) → HasTakenSent V.after opening sent last self
            → OnOk result (HaveFlows opening sent) }
    {
        flow_is_unique();
        let handed = self.flows.finish(alloc)?;
        let started = handed.server_number.is_some();
        let (visitor, ending) = handed.visitor.finish(started);
        Ok(HandedFrames {
            visitor,
            ending,
            client: handed.client,
            server: handed.server,
        })
    }
}
