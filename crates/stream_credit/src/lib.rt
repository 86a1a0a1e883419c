//! What one stream shows by itself (RFC 9113, 5.1, 5.2, 6.9): its use before the opening and after a side's end, grants
//! of 0, and the credit, overruns, overflows and stalls of its two windows.
//!
//! - [`StreamPart`] points at the frames that one stream meets: those on it, and the server's promises of it. Settings
//!   change the windows of every stream, so [`stream_run`] takes all [`Changes`] of the connection beside them (RFC
//!   9113, 6.9.2); a frame and a change of one number are one step.
//! - The findings are the run of the stream as `audit_terms` defines it, in order, credits only where they are shown,
//!   up to the place at which its [`audit_terms::Look`] ends it; and the opening, if that does not lie past the place.
//! - `step_numbers` of `specs/code/Looks.antt` says which steps a run has. A change that is none of them costs nothing:
//!   a binary search skips all of these.
//! - A run makes the looks that are due, and no other (`IsRun` of `audit_terms`). One that meets all its steps says
//!   that it is whole, and keeps all. One that ends early keeps what lies up to its last answer; it cuts once, since a
//!   later answer may be lower than what was found before it.
//! - [`Standings`] are a stream that is quiet so far: its opening, and for each side a number, as `audit_terms` has it.
//!   A frame or a change leads to the next ones, unless it may show something. The rows of `quiet_pass` hold these too.
//! - A [`QuietStream`] is such a stream with the changes that it has met. It meets the stream's frames one by one,
//!   beside all other streams. A stream that is quiet after its last frame shows nothing, and its opening is known: so
//!   it needs no run.
//! - No sum wraps, for any increments and settings that a frame can hold: 2^28 steps of less than 2^32 fit a signed
//!   word.
//! - [`worked_examples`] are short runs of the definitions: ends of both sides, resets, promises and where they stand
//!   wrongly, windows below zero, settings that reach open and later streams, windows that open at 0, overruns, both
//!   overflows, a promised stream, a run that ends at a stop.
//! - Asked of the caller: rising numbers, and that a frame with the number of a change is an acknowledgement, as
//!   `fault_rules` gives them.
//! - Refused by the prover: settings that reach open streams only, a run that never looks, looks once or looks ahead of
//!   its work, one that leaves out all once it is stopped, one that counts a side's last DATA as any other, initial
//!   windows that another setting puts back, a stream that frame 0 opens kept as one that no frame opens.
//! - Tested, in `crate_tests`: that `stream_run` succeeds where there is memory, and, in numbers, when it looks and
//!   what it keeps.
//! - Neither proved nor tested: that a stream which shows nothing stays quiet. One that does not has a run, which finds
//!   nothing.
#![tactic(auto)]

mod changes;
mod quiet_changes;
mod quiet_moves;
mod quiet_streams;
mod run_ends;
mod runs;
mod stream_parts;
mod stream_standings;
mod walks;
pub mod worked_examples;

pub use changes::Changes;
pub use quiet_streams::QuietStream;
pub use runs::stream_run;
pub use stream_parts::{StreamPart, StreamRun};
pub use stream_standings::Standings;
