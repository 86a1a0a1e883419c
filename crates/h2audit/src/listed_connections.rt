//! Connections of which all frames are kept, as they come.

ghost use Rattle.std.specs.Prelude.{ℕ, IfOk, List, OnOk};
ghost use Rattle.packet_heads.specs.code.Order.{AreNumberedFrom};
ghost use Rattle.packet_heads.specs.declared.packets.Packet.{Packet};
ghost use Rattle.packet_heads.specs.declared.packets.Segment.{Segment as Opening};
ghost use Rattle.report_pages.specs.code.Reach.{HasGapAtEnd};
ghost use Rattle.tcp_streams.specs.code.Opened.{AreVisited, IsVisited};
ghost use Rattle.tcp_streams.specs.code.SentFlows.{HaveFlows};
ghost use Rattle.tcp_streams.specs.code.Side.{Sent};
ghost use Rattle.h2audit.specs.code.Listed.{HasListed, IsHeldOfOpening, IsListedOfSent};
ghost use Rattle.h2audit.specs.code.Met.{AreMadeOfOpenings, HasMetSegments};

use crate::met_connections::MetConnection;
use audit_report::SectionHeading;
use audit_terms::Sides;
use h2_frames::{ConnectionFrames, Cut, FrameList, HandedFrames};
use packet_heads::Segment;
use report_pages::Reach;
use std::alloc::{AllocError, Global};
use tcp_streams::ConnectionVisitor;
use tcp_streams::laws::flows_are_those_sent;

/// A connection while its segments come, whose frames are kept.
#[derive(Drop)]
pub(crate) struct ListedConnection {
    frames: ConnectionFrames<FrameList>,
}

/// How far the flows of a connection reach, and what they hold.
#[derive(Drop)]
pub(crate) struct HeldFlows {
    pub(crate) reach: Sides<Reach>,
    pub(crate) cut: Cut,
}

impl HeldFlows {
    /// How many frames they hold.
    pub(crate) fn frames(&self) -> usize {
        match &self.cut {
            Cut::Http2 { frames, tails: _ } => frames.len(),
            _ => 0,
        }
    }
}

impl ConnectionVisitor for ListedConnection {
    ghost use Rattle.h2audit.specs.code.Listed.{HasListed};

    ghost after = { HasListed };

    fn begin(alloc: Global, opening: &Segment) -> Result<ListedConnection, AllocError> {
        let frames = ConnectionFrames::begin(alloc, opening, FrameList::new(alloc));
        Ok(ListedConnection { frames })
    }

    fn take(&mut self, alloc: Global, segment: &Segment, payload: &[u8]) -> Result<(), AllocError> {
        self.frames.take(alloc, segment, payload)
    }
}

impl ListedConnection {
    /// What all its segments tell of both its flows.
    fn finish(self, alloc: Global) -> Result<HandedFrames<FrameList>, AllocError>
        requires { (opening : Opening) × (sent : List Sent) × (last : ℕ) × HasListed opening sent last self }
        ensures handed { (opening : Opening) (sent : List Sent) (last : ℕ) → HasListed opening sent last self
            → IfOk result (IsListedOfSent opening sent) }
        ensures flows { (opening : Opening) (sent : List Sent) (last : ℕ) → HasListed opening sent last self
            → OnOk result (HaveFlows opening sent) }
    {
        self.frames.finish(alloc)
    }
}

/// The headings of all connections of a capture, and what the flows of each hold, in order of opening.
pub(crate) fn held_of_each(
    alloc: Global,
    opened: Vec<MetConnection<ListedConnection>>,
) -> Result<(Vec<SectionHeading>, Vec<HeldFlows>), AllocError>
    requires { (capture : List ℕ) × (packets : List Packet)
        × AreVisited (HasMetSegments HasListed) capture packets opened.items }
    ensures { (capture : List ℕ) (packets : List Packet) → AreNumberedFrom 1 packets
        → AreVisited (HasMetSegments HasListed) capture packets opened.items
        → IfOk result (λ r. AreMadeOfOpenings IsHeldOfOpening capture packets r.0.items r.1.items) }
{
    let mut headings = Vec::with_capacity(alloc, opened.len())?;
    let mut held = Vec::with_capacity(alloc, opened.len())?;
    for connection in opened {
        headings.push(connection.heading())?;
        held.push(held_of(alloc, connection)?)?;
    }
    Ok((headings, held))
}

/// What the flows of a connection hold, all of whose segments came.
fn held_of(
    alloc: Global,
    connection: MetConnection<ListedConnection>,
) -> Result<HeldFlows, AllocError>
    requires { (capture : List ℕ) × (packets : List Packet) × (opening : Opening)
        × IsVisited (HasMetSegments HasListed) capture packets opening connection }
    ensures { (capture : List ℕ) (packets : List Packet) (opening : Opening) → AreNumberedFrom 1 packets
        → IsVisited (HasMetSegments HasListed) capture packets opening connection
        → IfOk result (IsHeldOfOpening capture packets opening) }
{
    flows_are_those_sent();
    let listed = connection.into_visitor(alloc)?;
    let handed = listed.finish(alloc)?;
    Ok(HeldFlows {
        reach: Reach::of_ends(handed.client, handed.server),
        cut: handed.visitor.cut(handed.ending),
    })
}
