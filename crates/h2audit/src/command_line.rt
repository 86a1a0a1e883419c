//! What the words of the command line ask for.

mod command;
mod options;
mod words;

pub use options::Options;
pub use words::{Parsed, parse};
