//! Audits the HTTP/2 flow control (RFC 9113) of a classic pcap capture.
//!
//! ```rust
//! let options = Options::of(4, 16, 4096, false).ok_or("out of range")?;
//! let (report, verdict) = audit(&rt, rt.alloc(), &options, capture.as_slice(), &NoGate)?;
//! ```
//!
//! - [`audit`] returns the report and verdict of every capture, or why there is none: the first refusal that applies,
//!   or want of memory. The report is `IsReport` of `specs/Report.antt`, which names no function of the crates below,
//!   no workers, groups or blocks; [`laws::one_report`] says that there is no second one.
//! - [`run`] reads a capture to its end, audits it, writes the report and flushes once. It never holds the whole text,
//!   which [`audit`] returns, and no want of memory ends it once writing begins. The calls that a [`CaptureReader`]
//!   and a [`ReportWriter`] made tell what the reads gave and the writes took, and that a failure of either is answered
//!   only where a call failed (clause `tells`, `Tells` of `specs/Account.antt`), for every reader and writer, also of
//!   files and pipes. Where these tell their bytes themselves, they are those of the calls (`given`, `taken`); what a
//!   run then leaves in the writer follows ([`laws::runs_leave`], [`laws::faults_are_silent`]).
//! - A capture is audited as it is read, 256 KiB at a time (`met_captures`): what is kept is the file header, the front
//!   of a record, what each connection waits for, and what it has found (`found_connections`); with several workers, or
//!   where credits are shown, its frames (`listed_connections`), of which round 0 (`flow_round`) tells what it can at
//!   once.
//! - [`run_program`] is the program, over its words and what it is lent ([`Outside`]): a way to open FILE and to say a
//!   line, and the accounts of standard input, of FILE and of standard output. It does what the words ask for and
//!   nothing else (`Ends` of `specs/Program.antt`). [`program_words`] leaves out the program's name.
//! - [`parse`] says what the words of a command line ask for, by `clap`'s own definition of the command (`Asks` of
//!   `specs/Asked.antt`): an audit with its [`Options`], help, the version or why the words are refused. [`Options`]
//!   refuses numbers out of range. [`worked_examples`] compute eight command lines. [`ending`] is status and line.
//! - Reading stops at 2^31 bytes, which are refused as the whole is. Where the file header refuses a capture, only it
//!   is kept (`brief`), since what follows changes no answer (`pcap_records::laws::header_refuses`).
//! - docs/ARCHITECTURE.md follows the data all the way through the crates, and says how workers divide the work.
//! - What is kept of a connection in the end is small, and has all that the text tells of its audit
//!   (`report_pages::Told`): how far the flows reach, and the number of frames where nothing is shown of them; else
//!   what was found, the stalls, and frames: where all was found as they were met, those that findings name, else all
//!   of them. It is kept until the report is written.
//! - Refused by the prover: an empty report, a verdict by errors alone, one that does not ask what was found as frames
//!   were met, standard input read beside FILE, FILE left out, an option's number given up, a word after the program's
//!   name left out, the ends of a connection exchanged, a first segment that is not met.
//! - Tested, in `crate_tests`: the texts of faults; in `tests/` at the root: what the program answers to words, the
//!   texts of help and of refused words, whole reports, long captures.
#![tactic(auto)]

mod auditing;
mod command_line;
mod each_connection;
mod fault;
mod flow_round;
mod found_connections;
pub mod laws;
mod listed_connections;
mod met_captures;
mod met_connections;
mod program;
mod reading;
mod running;
mod status;
mod verdict;
pub mod worked_examples;

pub use auditing::audit;
pub use command_line::{Options, Parsed, parse};
pub use fault::AuditFault;
pub use input_output::{CaptureReader, ReportWriter};
pub use program::{Outside, program_words, run_program};
pub use running::run;
pub use status::ending;
pub use stop_desk::{AuditRound, Gate, NoGate};
pub use verdict::Verdict;
