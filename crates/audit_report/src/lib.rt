//! The text of an audit's report, byte for byte: what a capture holds, its connections, and what was found in them.
//!
//! - The whole text is `report_text` of `specs/ReportText.antt`: the lines on the capture, then a section for each
//!   connection, with its findings, the stalls that they tell of, and how its audit ended. Each kind of line has a
//!   definition of its own in `specs/`; `specs/Line.antt` and `specs/Endpoint.antt` say how a line is spelled.
//! - [`CaptureLines`] begins it, from the packets, as they come, and the strays; [`capture_lines`] from those that are
//!   held.
//! - Sections are written page by page. A page is a `Vec` whose room the caller reserves, [`LINE_ROOM`] bytes a line;
//!   it is filled, written, cleared and filled again. Each call that fills it asks for room for so many lines, says
//!   what it added and how much of that room it took (`specs/code/Pages.antt`), and cannot fail.
//! - [`add_opening`] begins a section, by a [`SectionHeading`], the [`Extent`]s of both flows and their [`Contents`].
//!   For HTTP/2, [`add_finding_lines`] goes on, page after page, from the frames and what was found in them; then come
//!   [`add_stall_lines`] and [`add_end_line`]. Where nothing was found, only the end line follows, and no frames are
//!   needed.
//! - A line is made of a finding that has the record and the time of its frame: [`add_timed_lines`] and
//!   [`timed_stalls`] take such findings, and no frames; [`add_finding_lines`] and [`stall_pairs`] look the frames up.
//! - Definitions of whole reports are over a list of [`Audited`], one for each connection.
//! - The definition of stalls (`specs/Stalls.antt`) looks forward from each beginning for the first end of the same
//!   side and stream; [`stall_pairs`] and [`timed_stalls`] read the findings once, from the back, and keep the nearest
//!   end of each window in a table.
//! - The contracts have every word, number, sign, space and line end, the order of lines, and which findings are shown:
//!   credits are left out by their kind, unless they are asked for. Counts are over packets, one for each record, so
//!   they add up. The last finding alone decides how an audit ended. Want of memory is the one error, and only of the
//!   calls that take an allocator.
//! - Asked of the caller: orderly frames, and room; of the findings only that the times that [`timed_stalls`] takes are
//!   below 2^63. A finding whose frame is missing would have record 0 and time 0, which no report meets. A finding's
//!   frame is looked up near the one before it, for lines, then at its own number, since frame n has index n - 1, then
//!   by binary search. A line is made backwards from its end, in one buffer for all (`lines`), and then appended to the
//!   page at once.
//! - [`worked_examples`] shows stalls: of both sides, of several windows, without an end, by a clock that went back.
//! - Refused by the prover: the cut record left out, a packet that counts twice, a sign left out, an end of a stall
//!   that has none.
//! - Tested: in `crate_tests` the lines on one packet of each kind, and by whole reports that the calls succeed where
//!   there is memory.
//! - Trusted: what `itoa` states of the digits that it writes.
#![tactic(auto)]

mod audited;
mod capture;
mod contents;
mod endings;
mod endpoints;
mod ends;
mod extents;
mod findings;
mod headings;
mod lines;
mod lookup;
mod moments;
mod numbered;
mod opening_lines;
mod stalls;
mod tally;
mod unopened;
mod words;
pub mod worked_examples;

pub use audited::Audited;
pub use capture::{CaptureLines, capture_lines};
pub use contents::Contents;
pub use endings::{add_end_line, add_stall_lines};
pub use extents::Extent;
pub use findings::{add_finding_lines, add_timed_lines};
pub use headings::SectionHeading;
pub use lines::LINE_ROOM;
pub use opening_lines::add_opening;
pub use stalls::{Stall, stall_pairs, timed_stalls};
