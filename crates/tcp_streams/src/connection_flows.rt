//! The flows of a connection, handed on while its segments come.

ghost use Rattle.std.specs.Prelude.{◌≡◌, ◌++◌, ◌∷◌, [], ℕ, List, None, Some, IfOk, OnOk, true};
ghost use Rattle.tcp_streams.specs.code.Flows.{AreWaiting, HasHandedOn, HasSegments, HasTakenAll, MayFollow};
ghost use Rattle.tcp_streams.specs.code.Flows.{IsEndOf, IsServerEnd, has_to_wait, is_answered, last_of};
ghost use Rattle.packet_heads.specs.declared.packets.Segment.{Segment as Opening};
ghost use Rattle.tcp_streams.specs.code.Past.{answers};
ghost use Rattle.tcp_streams.specs.code.SentFlows.{HaveFlows};
ghost use Rattle.tcp_streams.specs.code.Side.{IsSent, Sent};
ghost use Rattle.tcp_streams.specs.code.Taken.{AreSameSides, AreTaken, IsNextSent, number_of};

use crate::both_sides::BothSides;
use crate::growth_visitor::GrowthVisitor;
use crate::members::is_answer;
use crate::side_stage::SideStage;
use crate::waiting::{Waiting, WaitingSegments};
use audit_terms::Side;
use packet_heads::Segment;
use std::alloc::{AllocError, Global};

/// A connection while its segments come, whose flows are handed to a visitor as they grow.
///
/// It keeps what lies behind holes, and, until the server's number is known, what came from the first payload of the
/// server on: until then its SYN ACK is captured no byte of the server has an offset (RFC 9293, 3.4), and frames of
/// the client may have to stand behind some of the server's.
#[derive(Drop)]
pub struct ConnectionFlows<V> {
    both: BothSides<V>,
    waiting: Waiting,
}

/// What all segments of a connection made of a visitor.
#[derive(Drop)]
pub struct HandedFlows<V> {
    pub visitor: V,
    /// The server's initial sequence number, where its SYN ACK was captured.
    pub server_number: Option<u32>,
    pub client: FlowEnd,
    /// Where the server's number is not known, none of its bytes was handed on.
    pub server: FlowEnd,
}

/// Where a flow ends that was handed on.
#[derive(Clone, Copy)]
pub struct FlowEnd {
    /// How many bytes it has.
    pub length: u32,
    /// The offset at which bytes are missing, where later ones were captured.
    pub gap: Option<u64>,
}

impl<V: GrowthVisitor + Drop> ConnectionFlows<V> {
    /// The connection that a SYN opens, before any segment: the SYN is to be its first.
    pub fn begin(alloc: Global, opening: &Segment, visitor: V) -> ConnectionFlows<V>
        requires { V.after [] visitor }
        ensures { HasTakenAll V.after opening.now [] 0 result }
    {
        ConnectionFlows {
            both: BothSides {
                client: opening.from,
                client_side: SideStage::new(alloc, Side::Client, opening.seq),
                server_side: None,
                visitor,
            },
            waiting: Waiting::none(),
        }
    }

    /// Takes the connection's next segment, and hands on by what its flows grow.
    ///
    /// The payloads of a connection are to be shorter than 2^31 bytes together, as those of a capture are which is
    /// shorter (`laws::sides_fit`): so are both flows together, which the visitor may rely on.
    pub fn take(
        &mut self,
        alloc: Global,
        segment: &Segment,
        payload: &[u8],
    ) -> Result<(), AllocError>
        requires sent { IsSent segment.now payload.now }
        requires next { (opening : Opening) × (sent : List Sent) × (last : ℕ)
            × HasTakenAll V.after opening sent last self.old × IsNextSent sent last segment.now }
        ensures { (opening : Opening) (sent : List Sent) (last : ℕ) → HasTakenAll V.after opening sent last self.old
            → IsNextSent sent last segment.now → OnOk result (HasTakenAll V.after opening
            (sent ++ (segment.now, payload.now) ∷ []) segment.now.rec self.new) }
    {
        if self.has_to_wait(segment, payload) {
            return self.waiting.push(alloc, segment, payload);
        }
        if self.is_answered_by(segment) {
            return self.take_answer(alloc, segment, payload);
        }
        self.both.take(alloc, segment, payload)
    }

    /// What all its segments made of the visitor.
    pub fn finish(self, alloc: Global) -> Result<HandedFlows<V>, AllocError>
        requires { (opening : Opening) × (sent : List Sent) × (last : ℕ) × HasTakenAll V.after opening sent last self }
        ensures handed { (opening : Opening) (sent : List Sent) (last : ℕ) → HasTakenAll V.after opening sent last self
            → IfOk result (HasHandedOn V.after opening sent) }
        ensures flows { (opening : Opening) (sent : List Sent) (last : ℕ) → HasTakenAll V.after opening sent last self
            → OnOk result (HaveFlows opening sent) }
    {
        let ConnectionFlows { mut both, waiting } = self;
        replay(alloc, &waiting, &mut both)?;
        let client = flow_end(&both.client_side);
        let (server_number, server) = server_end(&both.server_side);
        let BothSides { visitor, .. } = both;
        Ok(HandedFlows {
            visitor,
            server_number,
            client,
            server,
        })
    }

    /// Does a segment have to wait until the server's number is known?
    fn has_to_wait(&self, segment: &Segment, payload: &[u8]) -> bool
        ensures { (waiting : List Sent) → AreWaiting waiting self.now.waiting
            → result ≡ has_to_wait self.now.both.client self.now.both.server_side waiting segment.now payload.now }
    {
        if self.both.server_side.is_some() || is_answer(&self.both.client, segment) {
            return false;
        }
        !self.waiting.is_empty() || (segment.from != self.both.client && !payload.is_empty())
    }

    /// Does a segment tell the server's number, which is not known yet?
    fn is_answered_by(&self, segment: &Segment) -> bool
        ensures { result ≡ is_answered self.now.both.client self.now.both.server_side segment.now }
    {
        self.both.server_side.is_none() && is_answer(&self.both.client, segment)
    }

    /// Takes the server's SYN ACK, after what waited for it.
    fn take_answer(
        &mut self,
        alloc: Global,
        segment: &Segment,
        payload: &[u8],
    ) -> Result<(), AllocError>
        requires sent { IsSent segment.now payload.now }
        requires unknown { self.old.both.server_side ≡ None }
        requires answers { answers self.old.both.client segment.now ≡ true }
        requires next { (opening : Opening) × (sent : List Sent) × (last : ℕ)
            × HasTakenAll V.after opening sent last self.old × IsNextSent sent last segment.now }
        ensures { (opening : Opening) (sent : List Sent) (last : ℕ) → HasTakenAll V.after opening sent last self.old
            → IsNextSent sent last segment.now → OnOk result (HasTakenAll V.after opening
            (sent ++ (segment.now, payload.now) ∷ []) segment.now.rec self.new) }
    {
        self.answer(alloc, segment.seq)?;
        self.both.take(alloc, segment, payload)
    }

    /// The server's number is known from now on: takes what waits.
    fn answer(&mut self, alloc: Global, number: u32) -> Result<(), AllocError>
        requires unknown { self.old.both.server_side ≡ None }
        requires next { (opening : Opening) × (sent : List Sent) × (last : ℕ)
            × HasTakenAll V.after opening sent last self.old }
        ensures taken { OnOk result ((opening : Opening) (sent : List Sent) (last : ℕ)
            → HasTakenAll V.after opening sent last self.old → AreTaken V.after sent last self.new.both) }
        ensures waiting { OnOk result (AreWaiting [] self.new.waiting) }
        ensures client { OnOk result (self.new.both.client ≡ self.old.both.client) }
        ensures client_number { OnOk result
            (self.new.both.client_side.initial_number ≡ self.old.both.client_side.initial_number) }
        ensures number { OnOk result (number_of self.new.both.server_side ≡ Some number) }
    {
        self.both.server_side = Some(SideStage::new(alloc, Side::Server, number));
        replay(alloc, &self.waiting, &mut self.both)?;
        self.waiting = Waiting::none();
        Ok(())
    }
}

/// Where a side's flow ends.
fn flow_end(side: &SideStage) -> FlowEnd
    ensures { IsEndOf side.now.flow result }
{
    FlowEnd {
        length: side.flow.end,
        gap: side.flow.gap(),
    }
}

/// The server's number, where it is known, and where its flow ends.
fn server_end(server: &Option<SideStage>) -> (Option<u32>, FlowEnd)
    ensures { IsServerEnd server.now result.0 result.1 }
{
    match server {
        Some(side) => (Some(side.initial_number), flow_end(side)),
        None => (
            None,
            FlowEnd {
                length: 0,
                gap: None,
            },
        ),
    }
}

/// Takes the segments that waited, if any did.
fn replay<V: GrowthVisitor>(
    alloc: Global,
    waiting: &Waiting,
    both: &mut BothSides<V>,
) -> Result<(), AllocError>
    requires { (taken : List Sent) × (low : ℕ) × (sent : List Sent) × AreTaken V.after taken low both.old
        × AreWaiting sent waiting.now × MayFollow taken low sent }
    ensures taken { OnOk result ((taken : List Sent) → (low : ℕ) → (sent : List Sent)
        → AreTaken V.after taken low both.old → AreWaiting sent waiting.now → MayFollow taken low sent
        → AreTaken V.after (taken ++ sent) (last_of low sent) both.new) }
    ensures same { OnOk result (AreSameSides both.old both.new) }
{
    match &waiting.kept {
        Some(kept) => replay_each(alloc, kept, both),
        None => Ok(()),
    }
}

/// Takes segments that waited.
fn replay_each<V: GrowthVisitor>(
    alloc: Global,
    waiting: &WaitingSegments,
    both: &mut BothSides<V>,
) -> Result<(), AllocError>
    requires { (taken : List Sent) × (low : ℕ) × (sent : List Sent) × AreTaken V.after taken low both.old
        × HasSegments sent waiting.now × MayFollow taken low sent }
    ensures taken { OnOk result ((taken : List Sent) → (low : ℕ) → (sent : List Sent)
        → AreTaken V.after taken low both.old → HasSegments sent waiting.now → MayFollow taken low sent
        → AreTaken V.after (taken ++ sent) (last_of low sent) both.new) }
    ensures same { OnOk result (AreSameSides both.old both.new) }
{
    let mut rest = waiting.bytes.as_slice();
    for segment in &waiting.segments {
        let (payload, later) = rest.split_at((segment.hi - segment.lo) as usize);
        both.take(alloc, segment, payload)?;
        rest = later;
    }
    Ok(())
}
