//! How the program ends.

ghost use Rattle.std.specs.Prelude.{◌≡◌};
ghost use Rattle.split_program.specs.declared.failure.Failure.TheVariants.{OutOfMemory};
ghost use Rattle.split_program.specs.Ending.{IsToldAs, told_of};

use crate::printable::printable;
use pcap_records::PcapFault;
use std::alloc::{AllocError, AllocFailed, Global};

/// What a split did.
#[derive(Drop)]
pub enum Ending {
    /// Every part was written.
    Split,
    /// Some part was refused, as was said.
    PartsRefused,
}

/// Why the program split nothing, or not all, as a line to be said. Names of files in it are printable.
#[derive(Drop)]
pub enum Failure {
    /// The words do not parse.
    Words(String),
    /// The capture or a file is refused.
    Refused(String),
    /// A read or a write failed, or what else was to be done with a file.
    Failed(String),
    OutOfMemory,
}

const OUT_OF_MEMORY: &str = "h2audit-split: out of memory";

impl Failure {
    /// What failed.
    pub(crate) fn of(alloc: Global, what: &str) -> Failure
        ensures { IsToldAs 4 result }
    {
        match format!(in alloc; "h2audit-split: {what}") {
            Ok(line) => Failure::Failed(line),
            Err(_) => Failure::OutOfMemory,
        }
    }

    /// What could not be done with the file or the folder of this path.
    pub(crate) fn at(alloc: Global, what: &str, path: &str) -> Failure
        ensures { IsToldAs 4 result }
    {
        match told_at(alloc, what, path) {
            Ok(line) => Failure::Failed(line),
            Err(_) => Failure::OutOfMemory,
        }
    }

    /// The capture is refused by this name.
    pub(crate) fn of_capture(alloc: Global, name: &str) -> Failure
        ensures { IsToldAs 3 result }
    {
        match format!(in alloc; "h2audit-split: capture refused: {name}") {
            Ok(line) => Failure::Refused(line),
            Err(_) => Failure::OutOfMemory,
        }
    }

    /// The file with this path is refused by this name.
    pub(crate) fn of_file(alloc: Global, path: &str, name: &str) -> Failure
        ensures { IsToldAs 3 result }
    {
        match told_of_file(alloc, path, name) {
            Ok(line) => Failure::Refused(line),
            Err(_) => Failure::OutOfMemory,
        }
    }

    /// The capture is refused for this, unless memory was wanting.
    pub(crate) fn of_fault(alloc: Global, fault: PcapFault) -> Failure
        ensures { IsToldAs 3 result }
    {
        match fault {
            PcapFault::OutOfMemory => Failure::OutOfMemory,
            fault => Failure::of_capture(alloc, fault.name()),
        }
    }

    /// The exit status, and the line that is said.
    pub(crate) fn told(&self) -> (u8, &str)
        ensures status { result.0 ≡ (told_of self.now).0 }
        ensures line { result.1.now ≡ (told_of self.now).1 }
    {
        match self {
            Failure::Words(text) => (2, text.as_str().trim_end()),
            Failure::Refused(line) => (3, line.as_str()),
            Failure::Failed(line) => (4, line.as_str()),
            Failure::OutOfMemory => (5, OUT_OF_MEMORY),
        }
    }
}

fn told_at(alloc: Global, what: &str, path: &str) -> Result<String, AllocError> {
    let path = printable(alloc, path)?;
    format!(in alloc; "h2audit-split: {what}: {path}")
}

fn told_of_file(alloc: Global, path: &str, name: &str) -> Result<String, AllocError> {
    let path = printable(alloc, path)?;
    format!(in alloc; "h2audit-split: {path} refused: {name}")
}

impl From<AllocError> for Failure {
    ghost from_gives = { λ _ failure. failure ≡ OutOfMemory };

    fn from(_error: AllocError) -> Failure {
        Failure::OutOfMemory
    }
}

impl<T: Drop> From<AllocFailed<T>> for Failure {
    ghost from_gives = { λ _ failure. failure ≡ OutOfMemory };

    fn from(_error: AllocFailed<T>) -> Failure {
        Failure::OutOfMemory
    }
}
