//! The vocabulary of an audit of HTTP/2 flow control (RFC 9113, sections 4 to 6): frames, places and findings, and the
//! definitions that every part of the audit cites.
//!
//! - `specs/` holds the rules, each beside its section of the RFC: what a frame shows by itself (`LocalFault`),
//!   settings in force (`InForce`, 6.5.3), the life of a stream (`Life`, 5.1), both sides' windows (`Connection` and
//!   `Stream`, 6.9), and the pass over all frames of a connection and where it ends (`Pass`, 5.4.1). `specs/code/runs/`
//!   has what parts of a pass show by themselves, and when a run looks for the stop of its connection; `specs/laws/`
//!   what laws say, as credit in closed form. The contracts of the program's calls rest on neither.
//! - [`Frame`], [`Change`], [`Item`] and [`Step`] are what an audit reads: frames, what they bring, and tests of one.
//!   [`frame_types`] has the type bytes and the flags; [`change_by`], [`new_initial`] and their neighbours say what an
//!   acknowledgement brings into force.
//! - [`Stream`], [`StreamLife`] and [`ConnectionState`] are a stream and a connection between two frames. The calls of
//!   `fault_rules` say what a frame shows of them, and makes of them; a life goes on by itself.
//! - [`Count`] is what a step does to the credit of a window, with its tests: stalls, an overrun, an overflow; and what
//!   is left of a window that a grant overflows.
//! - [`LastFrame`] is what the next frame of a side needs of the last one.
//! - [`standings`]: how a side stands on a quiet stream, in one number, and what content, grants and changes do to it.
//!   The quiet pass and the split keep streams so.
//! - [`row_of`] finds what is kept of a stream ([`OfStream`]) in a list in the order of identifiers.
//! - [`PackedSettings`], [`Word`] and [`Length`] need no alignment, so that a frame takes fewer bytes; contracts see
//!   the settings and the numbers that they hold.
//! - [`Place`], [`Kind`] and [`Finding`] say where a finding stands, what it says and whether it stops the audit;
//!   [`put_in_order`], [`cut_at_stop`], [`keep_up_to`] and [`keep_shown`] order findings, end them and drop credits;
//!   [`first_stop_place`] says where they stop, and [`lesser_place`] which of two places comes first.
//! - [`TimedFinding`] is a finding with the record and the time of its frame; [`cut_timed_at_stop`] ends a list of
//!   them.
//! - [`Look`] and [`Watch`]: a run asks where its connection stops, and hands each look what the steps before it show.
//!   `specs/code/runs/Look.antt` says when a look is due, and so does docs/ARCHITECTURE.md ("How the work is divided").
//! - [`laws`]: places stand in the order of frame number, rank and stream, and none is all ones.
//! - Each contract gives exactly what its definition says. The order of findings goes on from the place to side, kind
//!   and value, so it is total, and sorting needs no condition.
//! - Refused by the prover: a cut by the frame, an order with the server first, an overflowing grant that is added,
//!   padding that does not count, a place with four bits for the rank, a quiet credit that is used up, another row than
//!   the stream's, a frame's number in the place of its record. The calls above test that these succeed where there is
//!   memory.
#![tactic(auto)]

mod connection_state;
mod counts;
mod findings;
pub mod frame_types;
mod frames;
mod in_force;
mod items;
mod kinds;
mod last_frames;
pub mod laws;
mod lives;
mod looks;
mod places;
mod settings;
mod sides;
pub mod standings;
mod stops;
mod stream_rows;
mod stream_state;
mod timed_findings;
mod widths;
mod windows;

pub use connection_state::{ConnectionState, FIRST_LIMIT};
pub use counts::Count;
pub use findings::{Finding, cut_at_stop, keep_shown, keep_up_to, put_in_order, say_if};
pub use frames::{Body, Frame};
pub use in_force::{change_by, initial_after, limit_after, new_initial, new_limit, new_push};
pub use items::{Change, Item, Step};
pub use kinds::Kind;
pub use last_frames::LastFrame;
pub use lives::StreamLife;
pub use looks::{Look, Watch};
pub use places::Place;
pub use settings::{PackedSettings, Settings};
pub use sides::{Side, Sides};
pub use stops::{first_stop_place, lesser_place};
pub use stream_rows::{OfStream, row_of};
pub use stream_state::Stream;
pub use timed_findings::{TimedFinding, cut_timed_at_stop};
pub use widths::{Length, Word};
pub use windows::{FIRST_WINDOW, LARGEST_WINDOW};
