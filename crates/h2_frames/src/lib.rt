//! The HTTP/2 frames of the two flows of a connection (RFC 9113): whether it is HTTP/2, by the client's connection
//! preface (3.4), and which frames each side sent: nine header bytes, and the payload whose length they give (4.1).
//!
//! - [`cut`] returns the frames of both sides in one list, in capture order and numbered from 1: a frame is there
//!   when its last byte arrives. Type and flags decide how a frame's body is read (6.1 to 6.10): padding, the fields
//!   before a field block, settings with the first value out of range, increments, promised streams. A payload of a
//!   wrong size or with bad padding makes a frame with an unreadable body. The bytes at the end of a flow that hold no
//!   whole frame are its tail.
//! - The contract of [`cut`] is exactly this: `specs/Spelling.antt` defines which bytes spell a frame,
//!   `specs/Body.antt` what its payload says, `specs/CaptureOrder.antt` the order, and `specs/Cut.antt` puts them
//!   together.
//! - No other answer meets the contract for the same flows (`only` in `specs/code/Cutting.antt`). [`laws`] say so
//!   without the code: one list of bytes has one spelling, two flows have one cut, frames that are told record by
//!   record, as each completes them, are told in capture order, and bytes that are fed arrive with the record that
//!   brings them.
//! - [`cut`] copies the bytes of each flow, so that they lie together, and reads the frames of each side out of them,
//!   each with the record that brings its last byte (`specs/code/Sent.antt`). It then takes the earlier frame of
//!   what is left of both sides, until none is left. Its flows may name one record for both sides: frames then
//!   alternate, which a stage that is told record by record could not know.
//! - [`ConnectionCutter`] cuts frames out of bytes as they come. It is told as a `tcp_streams::GrowthVisitor` by which
//!   bytes the flow of a side grows, and with which record, and hands each frame that they complete to a
//!   [`FrameVisitor`], numbered in capture order: a record is of one side, so a frame that is there follows all that
//!   were there before. [`ConnectionCutter::finish`] says which kind of cut the two flows have. Its contract holds for
//!   whatever the visitor was handed before (`specs/code/Connection.antt`), so the stage keeps no frame; and of the
//!   bytes it keeps those alone that begin a frame which is not whole yet: its header, and of its payload what its body
//!   is read from, which is all of SETTINGS and at most five bytes of any other (`needed` in `specs/code/Steps.antt`).
//!   Whether the server's number is known, and so whether the connection is HTTP/2, is told at the end: what was handed
//!   on counts only then.
//! - [`ConnectionFrames`] goes from segments to frames: behind `tcp_streams::ConnectionFlows` it has such a cutter. It
//!   takes a connection's segments one by one, with their payloads, and its `finish` says of both flows, as `assemble`
//!   has them of whatever capture the payloads stand in, which kind of cut they have, and where they end
//!   (`HasHandedFrames` of `specs/code/ConnectionFrames.antt`). By [`laws::ending_tells_the_cut`] that is the cut which
//!   [`cut`] finds. The programs take this way. [`FrameList`] is a visitor that keeps the frames, and makes them a cut.
//! - A frame that is numbered within its side has a type of its own (`SideFrame`), and becomes a frame of the
//!   connection where it gets its number there.
//! - Frames are orderly, as calls on frames require: numbers rise, streams have 31 bits and lengths 24, times are below
//!   2^63.
//! - The one error is want of memory, and only for a connection that is HTTP/2. The two flows together are shorter than
//!   2^31 bytes, so frame numbers stay below 2^28 - 1.
//! - The definition of a spelling is a grammar by cases on the list of frames, and that of the order an insertion sort.
//!   The code is different: [`cut`] merges two lists that are in order, and the stage puts none in order, and reads
//!   bytes in place. No call starts threads.
//! - [`worked_examples`] compute bodies, headers and order on small inputs, by proof: each type's payload at the
//!   lengths where its answer changes, padding, settings at the ends of their ranges.
//! - The prover refuses: a value out of range left out, an order by first bytes, exchanged tails, one tail told for
//!   both, a stage that takes each connection for one with a handshake, passes over segments without payload, takes the
//!   server for the client or tells one end of both flows, a wrong preface that is waited for, a list that leaves out
//!   frames without payload.
//! - Whole reports test that the stage succeeds where there is memory, on connections of each of the four kinds.
//!   Nothing tests that of [`cut`], which no program calls.
#![tactic(auto)]

mod beginning;
mod bodies;
mod connection;
mod connection_frames;
mod cuts;
mod cutter;
mod cutting;
mod frame_list;
mod greeting;
mod headers;
pub mod laws;
mod numbering;
mod order;
mod settings;
mod side_frames;
mod spelling;
mod visitor;
pub mod worked_examples;

pub use connection::{ConnectionCutter, Ending};
pub use connection_frames::{ConnectionFrames, HandedFrames};
pub use cuts::Cut;
pub use cutting::cut;
pub use frame_list::FrameList;
pub use visitor::FrameVisitor;
