//! The plain pass of an HTTP/2 flow-control audit over a connection's frames (RFC 9113, sections 4 to 6), and the laws
//! of the definitions of `audit_terms` that it follows.
//!
//! - [`one_pass`] gives the findings of the pass: all, of every kind, in order, up to and including the first that
//!   stops. It is for tests: the machine of `quiet_pass` meets all frames, with credits shown.
//! - [`laws`] say what follows from the definitions, and nothing of code. Each credit is the closed sum of RFC 9113,
//!   6.9, and a live window belongs to an opened stream that its side has not ended. The streams of a connection are
//!   those that its frames meet, each once, and the steps of a stream are its frames and the changes, in order. The
//!   pass ends at its first error, which is the least; no two findings share place and side, and no two errors a place.
//!   All findings are those of the local faults, the settings, the streams and the blocks, however streams are grouped
//!   and frames divided into blocks.
//! - [`worked_examples`] are equations, computed by proof, between what the pass gives for a script of frames and the
//!   findings that a reader expects, typed from the rules; some cover all findings, past the stop. They write out the
//!   table of kinds.
//! - The state of the pass is four machines that step side by side: the last frame of each side, settings in force, the
//!   connection, and the streams. So the state of one is its own run along the frames. Sorting a joined list is a
//!   commutative sum, so all findings split by machine; and a stream that has no frame and no change at a number says
//!   nothing there. From this the law on parts follows.
//! - Refused by the prover in other crates, on the same definitions: content of a reset stream that the connection does
//!   not count, in `quiet_pass`; and wrong bodies of the calls that it makes with these, as a change that counts before
//!   its acknowledgement in `fault_rules`.
//! - Tested, in `crate_tests`: that the rounds show what `one_pass` does of random frames, and that it succeeds where
//!   there is memory.
#![tactic(auto)]

pub mod laws;
pub mod worked_examples;

pub use quiet_pass::one_pass;
