//! What is shown of a connection, said while its segments come.

ghost use Rattle.std.specs.Prelude.{ℕ, List, IfOk, OnOk};
ghost use Rattle.packet_heads.specs.declared.packets.Segment.{Segment as Opening};
ghost use Rattle.quiet_pass.specs.code.FoundFlows.{HasMetSent, IsFoundOfSent};
ghost use Rattle.tcp_streams.specs.code.SentFlows.{HaveFlows};
ghost use Rattle.tcp_streams.specs.code.Side.{Sent};

use crate::found_visitor::{FoundCut, FoundVisitor};
use crate::showing::{Showing, WithoutCredits};
use h2_frames::ConnectionFrames;
use packet_heads::Segment;
use std::alloc::{AllocError, Global};
use tcp_streams::{ConnectionVisitor, FlowEnd};

/// A connection while its segments come, whose frames are met as soon as their bytes are there. `S` says whether
/// credits are shown.
///
/// It keeps what [`ConnectionFrames`] and the machine keep: of bytes those alone that are behind a hole, that wait for
/// the server's number, or that begin a frame.
#[derive(Drop)]
pub struct ConnectionFindings<S> {
    frames: ConnectionFrames<FoundVisitor<S>>,
}

// A capture may open a connection with every second packet.
const _: () = prove!(size_of::<ConnectionFindings<WithoutCredits>>() <= 520);

/// What all segments of a connection tell.
#[derive(Drop)]
pub struct FoundFlows {
    pub cut: FoundCut,
    pub client: FlowEnd,
    pub server: FlowEnd,
}

impl<S: Showing> ConnectionVisitor for ConnectionFindings<S> {
    ghost use Rattle.std.specs.Prelude.{[], IfOk, IsOk};
    ghost use Rattle.quiet_pass.specs.code.FoundFlows.{HasMetSent};

    ghost after = { HasMetSent S.frames_shown };

    /// Takes no memory, so none is wanting.
    fn begin(alloc: Global, opening: &Segment) -> Result<ConnectionFindings<S>, AllocError>
        ensures begun { IfOk result (HasMetSent S.frames_shown opening.now [] 0) }
        ensures answered { IsOk result }
    {
        Ok(ConnectionFindings {
            frames: ConnectionFrames::begin(alloc, opening, FoundVisitor::begin(alloc)),
        })
    }

    /// Meets the frames that the segment completes.
    fn take(&mut self, alloc: Global, segment: &Segment, payload: &[u8]) -> Result<(), AllocError> {
        self.frames.take(alloc, segment, payload)
    }
}

impl<S: Showing> ConnectionFindings<S> {
    /// What all its segments tell: which kind of cut the two flows have, where they end, and what is shown.
    ///
    /// The flows, which there are (`HaveFlows`), are those that `tcp_streams::assemble` gives of a capture in which the
    /// payloads stand (`tcp_streams::laws::flows_are_those_sent`): so it answers what [`crate::found_in`] does of all
    /// frames of these, without a list of them.
    pub fn finish(self, alloc: Global) -> Result<FoundFlows, AllocError>
        requires { (opening : Opening) × (sent : List Sent) × (last : ℕ)
            × HasMetSent S.frames_shown opening sent last self }
        ensures found { (opening : Opening) (sent : List Sent) (last : ℕ)
            → HasMetSent S.frames_shown opening sent last self
            → IfOk result (IsFoundOfSent S.frames_shown opening sent) }
        ensures flows { (opening : Opening) (sent : List Sent) (last : ℕ)
            → HasMetSent S.frames_shown opening sent last self
            → OnOk result (HaveFlows opening sent) }
    {
        let handed = self.frames.finish(alloc)?;
        Ok(FoundFlows {
            cut: handed.visitor.found(handed.ending),
            client: handed.client,
            server: handed.server,
        })
    }
}
