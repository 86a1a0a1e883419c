//! Splits a capture of any size into parts, each of which is a capture that h2audit reads.
//!
//! - The unordered pair of endpoints that a packet names decides the part of its record, so a TCP connection lies in
//!   one part, in order. [`split_capture`] splits a capture from behind its file header on, in one file or in several,
//!   which it opens by name. It reads bytes once, into a buffer of at least 98, and writes them as they come: of a
//!   record it keeps only which part it goes to.
//! - Behind the file header are records, one after the other, and a rest that holds no whole one (`AreRecords` of
//!   `specs/Dealt.antt`). Part i gets `part_bytes`: the bytes of its own records, and of a cut one, in their order;
//!   `part_numbers` are the numbers of these records in the whole, each in 8 bytes.
//! - The first 82 bytes of a packet decide the part of its record (`part_at`): its endpoints, where those of an IPv4
//!   datagram of TCP are there (`specs/Pair.antt`), else the record's number, which spreads all other traffic.
//! - The contract of `split_capture` (`AreSplit` of `specs/Parts.antt`) holds for any readers and writers that tell
//!   their bytes: the readers gave some bytes to their ends, in the order of the files (`HaveHeld` of
//!   `specs/Inputs.antt`), and each part that is not full grew by its own of these. A part that would reach 2^31 bytes
//!   is full and gets nothing more. `part_full` of `specs/Dealt.antt` says which one is: by the first of its own
//!   records that has no room. [`Part::full`] returns the endpoints that this record names. No contract can say what a
//!   file gives or takes.
//! - A split opens later files by an [`Outside`], and where it fails, its contract tells which of them were opened and
//!   what they gave (`HasStopped` of `specs/Inputs.antt`). A later file has the format and the link type of the first
//!   one. A capture is too long only from 2^64 bytes on.
//! - After [`flush_parts`], the buffers of parts that are not full are empty.
//! - [`part_count`] is the number of parts for what was asked, and [`make_buffer`] makes a buffer that is long enough
//!   for a packet's front.
//! - [`laws`]: a record goes to one part, whole; a packet in which `packet_heads` finds a segment names that segment's
//!   endpoints in its front; either order of two endpoints goes to the same part; the records are those that the reader
//!   of the whole capture finds.
//! - The prover refuses: a pair of a sender alone, a part that gets another part's bytes, one number for all records, a
//!   full part that names no endpoints, another file than the one that is named, a later file with another link type,
//!   a capture that is too long by its records, a flush that failed and is not reported.
//! - `tests/` at the root compares the parts of whole captures with a model, and merges reports of parts.
//!   `tools/tests/core/splitter_test.py` tests that no part is called full, and no capture too long, before its time.
#![tactic(auto)]

mod dealer;
mod fault;
mod files;
mod finishing;
mod header;
pub mod laws;
mod outside;
mod pair;
mod part;
mod splitting;

pub use fault::{FileFault, PartFile, SplitFault};
pub use files::split_capture;
pub use finishing::{FlushFault, flush_parts};
pub use outside::Outside;
pub use pair::Endpoints;
pub use part::{FullPart, Part, part_count};
pub use splitting::{make_buffer, read_header};
