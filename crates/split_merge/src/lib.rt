//! A connection by stream and back (RFC 9113, 5 and 5.2).
//!
//! - [`split`] tells the quiet streams from the others. Nothing is shown of a quiet one, and most are. One walk over
//!   all frames in order finds them (`stream_credit::QuietStream`), and returns only the frame that opens each. Where
//!   credits are shown, no stream is quiet. While streams are met in order of their numbers, as they have to be opened
//!   (5.1.1), a binary search finds the row of one; the others are in a table.
//! - [`split`] gives each other stream its frames, as positions in the list of all frames: one row for each, in order
//!   of first frames, promises of it included. A second walk finds them, if there are such streams. [`groups`] deals
//!   the rows out in consecutive ranges. A row names a range of one list of positions, so no frame is copied, and a
//!   stream of three frames costs no list of its own.
//! - [`merge_by`] puts the findings of lists in order, up to the least connection error (5.4.1). It asks for neither
//!   sorted nor distinct findings, since their order is total. If there are many, each of several workers makes the
//!   list of a range of places, and the lists follow each other ([`Findings`]): none is copied behind another.
//! - [`worked_examples`] shows splits, quiet streams, groups, and where a merge ends.
//! - Refused by the prover: a rest of streams left out, a stream that is called quiet before its last changes, a cut at
//!   the first reported error.
//! - Tested by whole reports: that the calls succeed where there is memory.
//! - Trusted: the ports of `indexmap` and `itertools`.
#![tactic(auto)]

mod findings;
mod grouping;
mod loud;
mod merging;
mod ranges;
mod row_index;
mod splits;
mod visits;
pub mod worked_examples;

pub use findings::Findings;
pub use grouping::groups;
pub use ranges::merge_by;
pub use splits::{SplitFrames, StreamRow, split};
