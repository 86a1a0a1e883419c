//! Laws of the definitions. These calls do nothing; their contracts are what they are for.

ghost use Rattle.tcp_streams.specs.laws.Flows.{ByteHasOffset, FlowIsUnique, FlowsAreThoseSent, FlowsFit, SidesFit};
ghost use Rattle.tcp_streams.specs.laws.Growth.{FlowGrows, NewBytesArrive, SourceGrows, SourceStays};

/// A side's sources have one flow: no other bytes, arrivals or gap meet the definition.
pub fn flow_is_unique()
    ensures { FlowIsUnique }
{}

/// The payloads of a connection's two sides together are no longer than the capture.
#[tactic(auto, using(crate::proofs::FlowLemmas::laws))]
pub fn sides_fit()
    ensures { SidesFit }
{}

/// The flows of all connections of a capture together are no longer than the capture: [`assemble`]
/// promises that each is no longer than its side's payloads, and these fit in the capture.
///
/// [`assemble`]: crate::assemble
pub fn flows_fit()
    ensures { FlowsFit }
{}

/// The flow of a side of an opening's connection, which [`assemble`] gives, is the flow of the segments that belong to
/// the opening as [`ConnectionFlows`] takes them, one by one, and the other way round: so what is promised of the one
/// holds of what is handed on.
///
/// [`assemble`]: crate::assemble
/// [`ConnectionFlows`]: crate::ConnectionFlows
pub fn flows_are_those_sent()
    ensures { FlowsAreThoseSent }
{}

/// Payload byte k of a segment has the offset that RFC 9293, 3.4 gives it.
#[tactic(auto, using(crate::proofs::PieceLemmas::laws))]
pub fn byte_has_offset()
    ensures { ByteHasOffset }
{}

/// A segment of a later record adds bytes where none were, at the end of the flow or behind a hole. What is there
/// stays, and what the flow gains arrives with the segment: so bytes may be handed on while segments come.
pub fn flow_grows()
    ensures source_grows { SourceGrows }
    ensures source_stays { SourceStays }
    ensures new_bytes_arrive { NewBytesArrive }
    ensures flow_grows { FlowGrows }
{}
