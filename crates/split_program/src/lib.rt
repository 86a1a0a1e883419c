//! The splitter's program, over what it is lent: a capture of any size becomes parts, each of which is a capture that
//! h2audit reads.
//!
//! - [`run_program`] does what its words ask for, by an [`Outside`](capture_parts::Outside) and standard input. Its
//!   contract (`Does` of `specs/Program.antt`) tells the calls that it makes, in their order, and the exit status, for
//!   every answer: which files it opens, makes and removes, which parts it refuses, and which lines it says.
//! - The paths of all files are made before the folder, so that their removal needs no memory.
//! - Its words ask for as many parts as the word spells that clap finds for `--parts` (`Asks` of `specs/Asked.antt`).
//! - Not told: what else words ask for, and the texts of most lines.
//! - The prover refuses: a refused part with status 0, parts that are left after a failure, another number of parts,
//!   another folder, buffers of another size.
//! - Tested at the root: `tests/split_test.py` and `tools/tests/core/splitter_test.py`.
#![tactic(auto)]

mod asked;
mod command;
mod failure;
mod finishing;
mod inputs;
mod outputs;
mod paths;
mod printable;
mod program;

pub use failure::{Ending, Failure};
pub use program::run_program;
