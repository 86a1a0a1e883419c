//! The report of a capture, spelled page by page while it is written.
//!
//! - A [`Report`] is the text, as contracts see it: the lines on the capture, and behind them the sections of all
//!   connections, `told_text` of `specs/code/Sections.antt`. Only the lines, what the sections tell, and the pages are
//!   in memory. [`Report::into_bytes`] alone makes the text whole.
//! - What is [`Told`] of a connection is small: how far its flows reach ([`Reach`]), and its [`Outcome`], which has
//!   findings only where something is shown. Where these were found as the frames were met, each has the record and the
//!   time of its frame, and no frame is kept ([`FoundFrames`]); else all frames are ([`AuditedFrames`]). It stands for
//!   an audit, of which it has all that a report tells (`AreToldOf` of `specs/code/Told.antt`).
//! - The sections are a sequence of entries: the opening of a section, with its three lines, or one line of a finding,
//!   of a stall or of the end of an audit; the line of a credit that is not shown is an empty entry. Entries of one
//!   kind that follow each other make a stretch (`specs/code/Entries.antt`). A cursor points at an entry, and skips
//!   whole stretches.
//! - A page has so many entries. All pages are reserved before the first write, and what fills them cannot fail: so
//!   nothing after the first write fails for want of memory. With one worker there is one page. With several, and
//!   entries enough, there is one for each: a thread fills it from a cursor of its own, while the caller waits. When
//!   all are full, they are written in order and filled again.
//! - [`Report::write`] writes the text and flushes once: each write took a part of it, in order, and no call follows
//!   one that failed (`specs/code/Written.antt`; `input_output` has the calls). This holds for every writer. Each write
//!   is offered all that is left of a page, or of the lines on the capture.
//! - Refused by the prover: a page of which a write took a part and that is then left, the next connection under the
//!   number of the last, a page that begins an entry further, a flush after a failed write, as many frames as there are
//!   findings.
//! - Tested: in `crate_tests` which calls writers get, and that several workers write what one does; by whole reports
//!   that the calls succeed where there is memory.
#![tactic(auto)]

mod cursors;
mod filling;
mod pages;
mod reach;
mod report;
mod stretches;
mod told;
mod writing;

pub use reach::Reach;
pub use report::Report;
pub use told::{AuditedFrames, FoundFrames, Outcome, Told};
