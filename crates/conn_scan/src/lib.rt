//! What a block of frames does to a connection (RFC 9113, 4.2, 5.1.1, 6.9), in a form that can be joined.
//!
//! - A [`Summary`] says what some items do to a state, in a form that can be joined: blocks of a list are summed apart,
//!   by workers that draw them, and a state is then moved past whole blocks. Each instance proves the laws of
//!   `specs/code/Summary.antt` as a ghost member: joining has a unit and is associative, the summary of two lists is
//!   their summaries joined, and advancing by no item, by one and twice is what the steps do. So a state carried past
//!   blocks is what the plain fold has there. The laws hold for states and items that fit, as the instance says:
//!   credits of 64 bits add up only within bounds.
//! - [`Credit`] is what changes do to one window. It has the greatest and the least prefix sum beside the sum: by the
//!   sum alone, a block that falls below 0 and rises again would look clear.
//! - [`Rising`] is what is known of the streams that items open, [`Latest`] are the settings that they bring and the
//!   lengths of their frames.
//! - [`Block`] is a range of frames with the numbers of those that open streams and the changes of settings: its items
//!   are walked one by one, and no list of them is made. A number counts as an opening on HEADERS alone, and numbers of
//!   no frame are skipped. [`numbers_not_below`] and [`changes_not_below`] are what a later block needs of both.
//! - [`ConnSum`] is all of these, a lawful [`Summary`] whose steps are those of the connection, and
//!   [`block_sum`] that of a block. It counts each item in place, and joins no summary of one item: most frames move a
//!   credit or nothing.
//! - [`block_findings`] is what a block shows, from the connection before it, up to the place at which its look ends
//!   it, with the looks made in time (`IsRun` of `audit_terms`).
//! - [`clear`] tells by a summary that a block shows nothing but connection credit ([`laws::clear_shows_credit`]). It
//!   is exact for `is_clear` of `specs/code/Clear.antt`, both ways.
//! - [`laws`] say too that the items of a connection are those of the pass and that those of consecutive blocks join,
//!   and that each block fits where all blocks fit the first connection: `block_findings` asks for credits that its
//!   items cannot bring beyond 2^60, and `block_sum` says that an item moves each by at most 2^32.
//! - [`worked_examples`]: credit used up, granted and used again, in states and sums, and a stall in blocks of one, of
//!   two and at once.
//! - Refused by the prover: a block that forgets the streams opened before it, a credit that begins at 65,535 with each
//!   block, a block called clear by the sum of its changes alone, a run that looks only once.
//! - Tested, in `crate_tests`: that the calls succeed where there is memory, within rounds over random frames; and, in
//!   numbers, how often a run over 1,000 frames looks, and what it is handed and keeps.
#![tactic(auto)]

mod block_items;
mod block_runs;
mod cleared;
mod credits;
mod ids;
mod latest;
pub mod laws;
mod rising;
mod summaries;
mod sums;
pub mod worked_examples;

pub use block_items::{Block, changes_not_below, numbers_not_below};
pub use block_runs::{BlockRun, block_findings};
pub use cleared::clear;
pub use credits::Credit;
pub use latest::Latest;
pub use rising::Rising;
pub use summaries::Summary;
pub use sums::{ConnSum, block_sum};
