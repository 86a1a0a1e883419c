//! The TCP connections of a capture, and the bytes that each side sent (RFC 9293).
//!
//! - [`connections`] says which SYNs open a connection, which segments belong to which opening (RFC 9293, 3.5), and
//!   which are strays. `specs/Membership.antt` gives each segment its opening by one fold over the capture, and defines
//!   connections and strays by that; `specs/code/Past.antt` says what the table keeps of it.
//! - [`ConnectionStage`] visits the packets of a capture while they come (`packet_heads::PacketVisitor`), and hands
//!   each segment with its payload to a [`ConnectionVisitor`], one for each opening. At the end each was handed exactly
//!   the segments that belong to its opening, in order, with their payloads as they stand in the capture
//!   (`IsVisited` of `specs/code/Opened.antt`).
//! - [`assemble`] returns a side's bytes from its initial sequence number on (RFC 9293, 3.4), whatever order, loss or
//!   repetition the capture shows. `IsFlow` of `specs/Flow.antt` is the longest covered run from offset 0: its bytes,
//!   the record by which each byte was there, and a gap where bytes are missing before later ones. Where several
//!   records cover an offset, the first wins (`source` of `specs/Sequence.antt`), as a receiver discards bytes that it
//!   has. A side whose initial number was not captured has an empty flow, which always succeeds. No byte is copied: a
//!   flow's pieces are slices of the capture, and its bytes (`bytes_of` of `specs/Bytes.antt`) are these joined.
//! - A flow is orderly, as frame reading requires: shorter than 2^31, its arrivals rising in offset and record, times
//!   below 2^63. It is no longer than the payloads of its side.
//! - [`laws`]: a source has one flow; each payload byte has the offset that the RFC's arithmetic gives it; all flows
//!   together fit in the capture; one segment more adds to a flow and changes nothing that is there; the flow of a
//!   connection's members, which [`assemble`] gives, is that of its segments taken one by one.
//! - A flow grows segment by segment (`SideFlow`), as those laws allow: after each one it knows how many bytes there
//!   are without a hole, keeps disjoint intervals of what lies behind one, and hands on by what the flow grew. A
//!   segment takes steps in the logarithm of how many intervals are kept, and as many more for each that it covers.
//! - [`ConnectionFlows`] takes a connection's segments with their payloads, one by one, and hands both sides' bytes to
//!   a [`GrowthVisitor`] as the flows grow: all by which a flow grows at a record arrive with it. It keeps what lies
//!   behind holes, disjoint, and from the first payload of the server on all segments until its SYN ACK tells its
//!   number. At the end what was handed on is both flows (`HasHandedOn` of `specs/code/Flows.antt`), of whatever
//!   capture the payloads stand in, and how long they are is told. Payloads that are shorter than 2^31 together make
//!   flows that are, which the visitor may rely on (`IsNextGrowth`). One engine, `SideFlow`, serves this and
//!   [`assemble`], which keeps no bytes (`Content`).
//! - Pairs of endpoints are looked up by a hash (`TableHash` of `input_output`), and the contract of [`connections`]
//!   holds for every key of it.
//! - The prover refuses: a last retransmission that wins, a SYN of any number that repeats an opening, a segment that
//!   is handed to another connection, a client that overtakes what waits for the server's number.
//! - [`worked_examples`] go from packets to a flow, and compute openings, strays and offsets that wrap.
//! - `crate_tests` tests that keys are drawn; whole reports test interleaved connections; reports of random captures,
//!   compared with the definitions, test segments that overlap, come late or not at all.
#![tactic(auto)]

mod assembly;
mod both_sides;
mod connection_flows;
mod connection_stage;
mod connection_visitor;
mod content;
mod flows;
mod growth_visitor;
mod interval;
pub mod laws;
mod members;
mod membership;
mod pair;
mod pieces;
mod side_flow;
mod side_stage;
mod standings;
mod started_side;
mod table;
mod waiting;
pub mod worked_examples;

pub use assembly::assemble;
pub use connection_flows::{ConnectionFlows, FlowEnd, HandedFlows};
pub use connection_stage::ConnectionStage;
pub use connection_visitor::ConnectionVisitor;
pub use flows::{Arrival, Flow};
pub use growth_visitor::GrowthVisitor;
pub use members::{Connection, Connections, Stray};
pub use membership::connections;
