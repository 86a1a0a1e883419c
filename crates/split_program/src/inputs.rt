//! The files that the program reads.

ghost use Rattle.std.specs.Prelude.{◌≡◌, ◌⊎◌, ℕ, IfErr, IfOk, List, None, is_some, length, true};
ghost use Rattle.pcap_records.specs.Refusal.{refusal};
ghost use Rattle.split_program.specs.Ending.{IsToldAs, status_at};
ghost use Rattle.split_program.specs.Program.{HasHeader};

use crate::failure::Failure;
use crate::paths::Paths;
use capture_parts::{FileFault, SplitFault, read_header};
use pcap_records::{FILE_HEADER, PcapFault, refusal};
use std::alloc::Global;
use std::io::Read;

/// A file header.
pub type Header = [u8; FILE_HEADER];

/// The header of the first of these files, or of standard input where there is none, or why the capture is refused.
pub fn begin<R: Read>(alloc: Global, files: &[String], reader: &mut R) -> Result<Header, Failure>
    ensures long { IfOk result (λ header. length header ≡ 24) }
    ensures taken { IfOk result (λ header. refusal header ≡ None) }
    ensures read { IfOk result (HasHeader (R.remaining reader.old) (R.remaining reader.new)) }
    ensures failed { IfErr result (λ e. IsToldAs 4 e ⊎ ((header : List ℕ)
        × HasHeader (R.remaining reader.old) (R.remaining reader.new) header × (is_some (refusal header) ≡ true)
        × IsToldAs 3 e)) }
{
    let mut header = [0; FILE_HEADER];
    let Ok(count) = read_header(reader, &mut header) else {
        return Err(unread(alloc, files, 0));
    };
    match refusal(&header[..count]) {
        Some(fault) => Err(Failure::of_fault(alloc, fault)),
        None => Ok(header),
    }
}

/// The file of this index could not be read, or standard input where no file is named.
fn unread(alloc: Global, files: &[String], index: usize) -> Failure
    ensures { IsToldAs 4 result }
{
    match files.get(index) {
        Some(path) => Failure::at(alloc, "cannot read", path.as_str()),
        None => Failure::of(alloc, "read failed"),
    }
}

/// Tells what is wrong with these files, which are split into the parts of these paths.
pub fn split_failure(alloc: Global, files: &[String], paths: &Paths, wrong: FileFault) -> Failure
    ensures { IsToldAs (status_at wrong.fault) result }
{
    let path = path_of(files, wrong.file);
    match wrong.fault {
        SplitFault::Open => Failure::at(alloc, "cannot open", path),
        SplitFault::Refused(PcapFault::OutOfMemory) => Failure::OutOfMemory,
        SplitFault::Refused(fault) => Failure::of_file(alloc, path, fault.name()),
        SplitFault::AnotherFormat => Failure::of_file(alloc, path, "another-format"),
        SplitFault::AnotherLinkType => Failure::of_file(alloc, path, "another-link-type"),
        SplitFault::CutRecord => Failure::of_file(alloc, path, "cut-record"),
        SplitFault::Read => unread(alloc, files, wrong.file),
        SplitFault::Write(number, file) => paths.unwritten(alloc, number, file),
        SplitFault::TooLong => Failure::of_capture(alloc, "too-long"),
    }
}

fn path_of(files: &[String], index: usize) -> &str {
    match files.get(index) {
        Some(path) => path.as_str(),
        None => "standard input",
    }
}
