//! The end of a split: whole parts are flushed, and full ones refused.

ghost use Rattle.std.specs.Prelude.{◌≡◌, IfErr, IfOk, OnErr, OnOk, Some, is_ok, length, map, if◌then◌else◌};
ghost use Rattle.std.specs.List.{All};
ghost use Rattle.capture_parts.specs.Finished.{IsFlushedOrFull, has_full};
ghost use Rattle.capture_parts.specs.Outside.{RemovedFile};
ghost use Rattle.split_program.specs.Calls.{DidOnly};
ghost use Rattle.split_program.specs.Ending.{IsToldAs};
ghost use Rattle.split_program.specs.Program.{AreRefused, Finishes, IsFinishing, IsRefused};
ghost use Rattle.split_program.specs.code.Finishing.{IsRefusal, IsRemoval};

use crate::failure::{Ending, Failure};
use crate::outputs::FilePart;
use crate::paths::{PartPaths, Paths};
use capture_parts::{FlushFault, FullPart, Outside, flush_parts};
use packet_heads::Endpoint;
use std::alloc::{AllocError, Global};
use std::io::{Read, Write};
use std::net::{Ipv4Addr, SocketAddrV4};

/// Completes the files, and writes down how the split ended. Full parts are refused, written down and removed; says
/// whether there are any.
pub fn finish_parts<F: Read + Write + Drop, O: Outside<F>>(
    alloc: Global,
    paths: &Paths,
    parts: &mut [FilePart<F>],
    outside: &mut O,
) -> Result<Ending, Failure>
    requires { length paths.now.parts.items ≡ length parts.old }
    ensures finished { IfOk result (λ ending. Finishes O.does outside.old paths.now
        (map (λ part. part.full) parts.old) ending outside.new) }
    ensures flushed { OnOk result (All IsFlushedOrFull parts.new) }
    ensures failed { OnErr result (DidOnly O.does (IsFinishing paths.now) outside.old outside.new) }
    ensures told { IfErr result (IsToldAs 4) }
{
    flush(alloc, paths, parts)?;
    let mut summary = begin_summary(alloc, parts.len())?;
    let any = refuse_full(alloc, paths.parts.as_slice(), parts, &mut summary, outside)?;
    match outside.write(paths.summary.as_str(), summary.as_str()) {
        Ok(()) => Ok(ending(any)),
        Err(_) => Err(Failure::at(alloc, "cannot write", paths.summary.as_str())),
    }
}

fn flush<F: Read + Write + Drop>(
    alloc: Global,
    paths: &Paths,
    parts: &mut [FilePart<F>],
) -> Result<(), Failure>
    ensures flushed { OnOk result (All IsFlushedOrFull parts.new) }
    ensures full { map (λ part. part.full) parts.new ≡ map (λ part. part.full) parts.old }
    ensures told { IfErr result (IsToldAs 4) }
{
    match flush_parts(parts) {
        Ok(()) => Ok(()),
        Err(FlushFault { number, file }) => Err(paths.unwritten(alloc, number, file)),
    }
}

fn begin_summary(alloc: Global, count: usize) -> Result<String, AllocError> {
    format!(in alloc; "h2audit-split 1\nparts {count}\n")
}

fn ending(are_refused: bool) -> Ending
    ensures { result ≡ (if are_refused then Ending.PartsRefused else Ending.Split) }
{
    if are_refused {
        Ending::PartsRefused
    } else {
        Ending::Split
    }
}

/// Refuses each full part, in turn, and returns whether there is one. Fails where a refusal does, at once.
fn refuse_full<F: Read + Write + Drop, O: Outside<F>>(
    alloc: Global,
    paths: &[PartPaths],
    parts: &[FilePart<F>],
    summary: &mut String,
    outside: &mut O,
) -> Result<bool, Failure>
    requires { length paths.now ≡ length parts.now }
    ensures refused { OnOk result (AreRefused O.does outside.old paths.now (map (λ part. part.full) parts.now)
        outside.new) }
    ensures any { IfOk result (λ any. any ≡ has_full (map (λ part. part.full) parts.now)) }
    ensures only { DidOnly O.does (IsRefusal paths.now) outside.old outside.new }
    ensures told { IfErr result (IsToldAs 4) }
{
    let mut any = false;
    for index in 0..parts.len() {
        let files = &paths[index];
        if let Some(full) = parts[index].full() {
            refuse_part(alloc, index + 1, files, full, summary, outside)?;
            any = true;
        }
    }
    Ok(any)
}

/// Says why a part is refused, writes it down, and removes the part.
fn refuse_part<F, O: Outside<F>>(
    alloc: Global,
    number: usize,
    paths: &PartPaths,
    full: FullPart,
    summary: &mut String,
    outside: &mut O,
) -> Result<(), Failure>
    ensures refused { OnOk result (IsRefused O.does outside.old paths.now (Some full) outside.new) }
    ensures only { DidOnly O.does (IsRemoval paths.now) outside.old outside.new }
    ensures told { IfErr result (IsToldAs 4) }
{
    let reason = full_reason(alloc, full)?;
    writeln!(summary, "part {number} refused {reason}")?;
    let line = format!(in alloc; "h2audit-split: part {number} refused: {reason}")?;
    outside.say(line.as_str());
    remove_file(alloc, paths.packets.as_str(), outside)?;
    remove_file(alloc, paths.numbers.as_str(), outside)
}

fn remove_file<F, O: Outside<F>>(alloc: Global, path: &str, outside: &mut O) -> Result<(), Failure>
    ensures called { O.does outside.old (RemovedFile path.now (is_ok result)) outside.new }
    ensures told { IfErr result (IsToldAs 4) }
{
    match outside.remove_file(path) {
        Ok(()) => Ok(()),
        Err(_) => Err(Failure::at(alloc, "cannot remove", path)),
    }
}

/// Why a part is refused: the connection of the record that had no room, or a record of none.
fn full_reason(alloc: Global, full: FullPart) -> Result<String, AllocError> {
    match full.pair {
        Some(pair) => {
            let from = shown(pair.from);
            let to = shown(pair.to);
            format!(in alloc; "connection-too-large {from} {to}")
        }
        None => String::from_str(alloc, "too-large"),
    }
}

/// An endpoint, which is written as a report writes it.
fn shown(endpoint: Endpoint) -> SocketAddrV4 {
    SocketAddrV4::new(Ipv4Addr::from_bits(endpoint.address), endpoint.port)
}
