//! What the records of a capture hold: IPv4 and TCP headers (RFC 791, RFC 9293), in Ethernet frames with one VLAN tag
//! or none (RFC 894, IEEE 802.1Q) or in raw IP, by the link type of the capture.
//!
//! - [`PacketWalk`] is fed the bytes of a capture in turn, makes a packet of each record as soon as that is whole, and
//!   hands it to a [`PacketVisitor`], a segment with its payload. It keeps none. At the end, [`PacketWalk::end`]
//!   returns what the packets of the whole capture made of the visitor, or why the capture is refused. Nobody need have
//!   kept the bytes.
//! - A record holds a TCP segment, or something that is passed over and named ([`Skip`]), or a packet that cannot be
//!   read ([`Refusal`]). The first that applies of twelve lines in a fixed order decides. `specs/Decision.antt` lists
//!   them, the twelfth being the segment; `specs/Ethernet.antt`, `specs/Ipv4.antt` (RFC 791, 3.1) and `specs/Tcp.antt`
//!   (RFC 9293, 3.1) define the fields that they name.
//! - The contract equates each answer with this decision, field by field. [`worked_examples`] compute it for headers at
//!   each bound, one less and one more, and the names of the refusals byte for byte.
//! - [`ethernet`], [`ipv4`] and [`tcp`] read the header fields that name endpoints, for a reader of a packet's front
//!   alone.
//! - Packet n is record n's, there are fewer than 2^32 of them, and times are below 2^63 nanoseconds.
//! - Payloads lie in the capture in order and apart, as a visitor may rely on while packets come (`IsNextPacket`). For
//!   one packet the code proves only that it lies in its record (`specs/code/Standing.antt`); the order of all follows.
//! - After each feeding the visitor was handed exactly the packets of all bytes so far (`specs/code/Walk.antt`). So the
//!   packets do not depend on how the capture was read.
//! - Checksums have no effect: a sender's own capture has them unfilled where the network card computes them. FIN, RST,
//!   windows, options and urgent pointers have none: sequence numbers alone decide a flow. Bytes past the total length
//!   are not of the datagram; a total length of 0, which segmentation offload leaves, means all captured bytes.
//! - The prover refuses: a fragment judged before its end, the segment of another packet, a cut record that is never
//!   told.
//! - Whole reports test that a walk succeeds where there is memory.
#![tactic(auto)]

mod decoding;
pub mod ethernet;
pub mod ipv4;
mod link;
mod packets;
mod stage;
pub mod tcp;
mod visitor;
mod walk;
pub mod worked_examples;

pub use packets::{Endpoint, Packet, Refusal, Segment, Skip, segment_at};
pub use visitor::PacketVisitor;
pub use walk::PacketWalk;
