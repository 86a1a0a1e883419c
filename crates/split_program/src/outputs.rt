//! The files that the program makes, and those that it removes.

ghost use Rattle.std.specs.Prelude.{◌≡◌, ◌+◌, ◌∷◌, ◌++◌, [], IfErr, IfOk, Ok, OnErr, OnOk, length, vec_len};
ghost use Rattle.std.specs.Prelude.{Result as ResultTerm};
ghost use Rattle.std.specs.declared.io.Error.{Error as IoError};
ghost use Rattle.capture_parts.specs.Outside.{Created};
ghost use Rattle.split_program.specs.Ending.{IsToldAs};
ghost use Rattle.split_program.specs.Program.{FailsPart, FailsParts, IsOver, MakesPart, MakesParts, RemovesAll};
ghost use Rattle.split_program.specs.Program.{RemovesParts};

use crate::failure::Failure;
use crate::inputs::Header;
use crate::paths::{PartPaths, Paths};
use capture_parts::{Outside, Part};
use std::alloc::Global;
use std::io::{BufWriter, Read, Write};

/// How many bytes of a part's capture are gathered for one write.
const PACKETS_BUFFER_BYTES: usize = 32_768;

/// How many bytes of its record numbers are, eight for each.
const NUMBERS_BUFFER_BYTES: usize = 4_096;

pub type FilePart<F> = Part<BufWriter<F>>;

/// Makes the files of the parts, which begin with this file header.
pub fn create_parts<F: Read + Write + Drop, O: Outside<F>>(
    alloc: Global,
    paths: &[PartPaths],
    header: &Header,
    outside: &mut O,
) -> Result<Vec<FilePart<F>>, Failure>
    ensures made { IfOk result (λ parts. MakesParts O.does F.contents header.now outside.old paths.now parts.items
        outside.new) }
    ensures count { IfOk result (λ parts. vec_len parts ≡ length paths.now) }
    ensures failed { OnErr result (FailsParts O.does F.contents header.now outside.old paths.now outside.new) }
    ensures told { IfErr result (IsToldAs 4) }
{
    let mut parts = Vec::new(alloc);
    for part in paths {
        add(&mut parts, create_part(alloc, part, header, outside))?;
    }
    Ok(parts)
}

/// Adds what was made, if it was.
fn add<T: Drop>(list: &mut Vec<T>, made: Result<T, Failure>) -> Result<(), Failure>
    ensures added { OnOk result ((value : T) × (made ≡ Ok value) × (list.new.items ≡ list.old.items ++ value ∷ [])) }
    ensures count { OnOk result (vec_len list.new ≡ vec_len list.old + 1) }
    ensures told { IfErr made (IsToldAs 4) → IfErr result (IsToldAs 4) }
{
    list.push(made?)?;
    Ok(())
}

/// Makes the files of a part.
fn create_part<F: Read + Write + Drop, O: Outside<F>>(
    alloc: Global,
    paths: &PartPaths,
    header: &Header,
    outside: &mut O,
) -> Result<FilePart<F>, Failure>
    ensures made { IfOk result (λ part. MakesPart O.does F.contents header.now outside.old paths.now part
        outside.new) }
    ensures failed { FailsPart O.does outside.old paths.now outside.new }
    ensures told { IfErr result (IsToldAs 4) }
{
    let packets = create_file(alloc, paths.packets.as_str(), PACKETS_BUFFER_BYTES, outside)?;
    let numbers = create_file(alloc, paths.numbers.as_str(), NUMBERS_BUFFER_BYTES, outside)?;
    match Part::begin(packets, numbers, header) {
        Ok(part) => Ok(part),
        Err(file) => Err(Failure::at(alloc, "cannot write", paths.of(file))),
    }
}

fn create_file<F: Read + Write + Drop, O: Outside<F>>(
    alloc: Global,
    path: &str,
    buffer: usize,
    outside: &mut O,
) -> Result<BufWriter<F>, Failure>
    ensures called { (answer : ResultTerm F IoError) × O.does outside.old (Created path.now answer) outside.new
        × IfOk result (λ writer. (file : F) × (answer ≡ Ok file) × IsOver file buffer writer) }
    ensures told { IfErr result (IsToldAs 4) }
{
    match outside.create(path) {
        Ok(file) => buffered(alloc, buffer, file),
        Err(_) => Err(Failure::at(alloc, "cannot create", path)),
    }
}

fn buffered<W: Write + Drop>(alloc: Global, buffer: usize, file: W) -> Result<BufWriter<W>, Failure>
    ensures over { IfOk result (IsOver file buffer) }
    ensures told { IfErr result (IsToldAs 4) }
{
    match BufWriter::with_capacity(alloc, buffer, file) {
        Ok(writer) => Ok(writer),
        Err(_) => Err(Failure::OutOfMemory),
    }
}

/// Removes the files of a split, and its folder, after a failure. What cannot be removed stays: the failure before is
/// told.
pub fn remove_all<F, O: Outside<F>>(folder: &str, paths: &Paths, outside: &mut O)
    ensures { RemovesAll O.does outside.old folder.now paths.now outside.new }
{
    remove_parts(paths.parts.as_slice(), outside);
    let _ = outside.remove_file(paths.summary.as_str());
    let _ = outside.remove_folder(folder);
}

fn remove_parts<F, O: Outside<F>>(paths: &[PartPaths], outside: &mut O)
    ensures { RemovesParts O.does outside.old paths.now outside.new }
{
    for part in paths {
        let _ = outside.remove_file(part.packets.as_str());
        let _ = outside.remove_file(part.numbers.as_str());
    }
}
