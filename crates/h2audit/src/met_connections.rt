//! Connections whose segments are met as they come.

ghost use Rattle.std.specs.Prelude.{◌≡◌, ◌++◌, ◌∷◌, [], ℕ, IfOk, IfSome, List};
ghost use Rattle.packet_heads.specs.declared.packets.Segment.{Segment as Opening};
ghost use Rattle.tcp_streams.specs.code.Side.{IsSent, Sent};
ghost use Rattle.tcp_streams.specs.code.Taken.{IsNextSent};
ghost use Rattle.h2audit.specs.code.Met.{AreMet, HasMetSegments, IsFirst, first_sent, heading_by, last_first};

use audit_report::SectionHeading;
use packet_heads::Segment;
use std::alloc::{AllocError, Global};
use tcp_streams::ConnectionVisitor;

/// A connection while its segments come, with a visitor of them.
///
/// A capture may open a connection with every packet, and what meets frames is large: so it is made for the first
/// segment with payload, or for the second one.
#[derive(Drop)]
pub(crate) struct MetConnection<V> {
    opening: Segment,
    met: Met<V>,
}

/// What came of the segments so far.
#[derive(Drop)]
pub(crate) enum Met<V> {
    /// No frame can have been met: this is the only segment, without payload, if there was one.
    Waits(Option<Segment>),
    /// They were met.
    Begun(Box<V>),
}

impl<V: ConnectionVisitor> ConnectionVisitor for MetConnection<V> {
    ghost use Rattle.h2audit.specs.code.Met.{HasMetSegments};

    ghost after = { HasMetSegments V.after };

    fn begin(_alloc: Global, opening: &Segment) -> Result<MetConnection<V>, AllocError> {
        Ok(MetConnection {
            opening: *opening,
            met: Met::Waits(None),
        })
    }

    fn take(&mut self, alloc: Global, segment: &Segment, payload: &[u8]) -> Result<(), AllocError> {
        match &mut self.met {
            Met::Begun(visitor) => visitor.take(alloc, segment, payload),
            Met::Waits(first) => {
                self.met = met_after(alloc, &self.opening, *first, segment, payload)?;
                Ok(())
            }
        }
    }
}

/// What came of the next segment of a connection of which no frame can have been met.
// Measured, in line it cleared the visitor's place on the stack for each segment.
#[inline(never)]
fn met_after<V: ConnectionVisitor>(
    alloc: Global,
    opening: &Segment,
    first: Option<Segment>,
    segment: &Segment,
    payload: &[u8],
) -> Result<Met<V>, AllocError>
    requires sent { IsSent segment.now payload.now }
    requires first { IfSome first IsFirst }
    requires next { IsNextSent (first_sent first) (last_first first) segment.now }
    ensures { IfOk result (AreMet V.after opening.now (first_sent first ++ (segment.now, payload.now) ∷ [])
        segment.now.rec) }
{
    if first.is_none() && payload.is_empty() {
        return Ok(Met::Waits(Some(*segment)));
    }
    let mut visitor: V = begun(alloc, opening, first)?;
    visitor.take(alloc, segment, payload)?;
    Ok(Met::Begun(Box::new(alloc, visitor)?))
}

/// The visitor of the connection that a SYN opens, after this segment without payload, if there was one.
fn begun<V: ConnectionVisitor>(
    alloc: Global,
    opening: &Segment,
    first: Option<Segment>,
) -> Result<V, AllocError>
    requires { IfSome first IsFirst }
    ensures { IfOk result (V.after opening.now (first_sent first) (last_first first)) }
{
    let mut visitor = V::begin(alloc, opening)?;
    if let Some(segment) = first {
        visitor.take(alloc, &segment, &[])?;
    }
    Ok(visitor)
}

impl<V: ConnectionVisitor> MetConnection<V> {
    /// The heading of its section.
    pub(crate) fn heading(&self) -> SectionHeading
        ensures { result ≡ heading_by self.now.opening }
    {
        SectionHeading {
            client: self.opening.from,
            server: self.opening.to,
            rec: self.opening.rec,
        }
    }

    /// What all its segments made of the visitor.
    pub(crate) fn into_visitor(self, alloc: Global) -> Result<V, AllocError>
        requires { (opening : Opening) × (sent : List Sent) × (last : ℕ)
            × HasMetSegments V.after opening sent last self }
        ensures { (opening : Opening) (sent : List Sent) (last : ℕ) → HasMetSegments V.after opening sent last self
            → IfOk result (V.after opening sent last) }
    {
        let MetConnection { opening, met } = self;
        match met {
            Met::Begun(visitor) => Ok(Box::into_inner(visitor)),
            Met::Waits(first) => begun(alloc, &opening, first),
        }
    }
}
