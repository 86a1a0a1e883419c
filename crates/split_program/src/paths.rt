//! The files that the program makes, by their paths.

ghost use Rattle.std.specs.Prelude.{◌≡◌, ◌∷◌, ◌++◌, [], IfOk, OnOk, length, string_bytes};
ghost use Rattle.split_program.specs.Ending.{IsToldAs};
ghost use Rattle.split_program.specs.Paths as words;
ghost use Rattle.split_program.specs.Paths.{AreNamed, IsNamed, path_of, summary_path};
ghost use Rattle.split_program.specs.declared.paths.PartPaths.{PartPaths as PartPathsTerm};

use crate::failure::Failure;
use capture_parts::PartFile;
use std::alloc::{AllocError, Global};

/// The paths of the two files of a part.
#[derive(Drop)]
pub struct PartPaths {
    pub packets: String,
    pub numbers: String,
}

impl PartPaths {
    /// The path of one of them.
    pub fn of(&self, file: PartFile) -> &str {
        match file {
            PartFile::Packets => self.packets.as_str(),
            PartFile::Numbers => self.numbers.as_str(),
        }
    }
}

/// The paths of all files of a split. They are made before any of the files, so that the removal of these needs no
/// memory.
#[derive(Drop)]
pub struct Paths {
    pub parts: Vec<PartPaths>,
    pub summary: String,
}

impl Paths {
    /// This file of the part of this number could not be written. The first part has number 1.
    pub fn unwritten(&self, alloc: Global, number: usize, file: PartFile) -> Failure
        ensures { IsToldAs 4 result }
    {
        match self.parts.get(number.saturating_sub(1)) {
            Some(paths) => Failure::at(alloc, "cannot write", paths.of(file)),
            None => Failure::of(alloc, "write failed"),
        }
    }

    /// The paths for so many parts in this folder.
    pub fn within(alloc: Global, folder: &str, count: usize) -> Result<Paths, AllocError>
        ensures parts { IfOk result (λ paths. AreNamed folder.now 1 paths.parts.items) }
        ensures count { IfOk result (λ paths. length paths.parts.items ≡ count) }
        ensures summary { IfOk result (λ paths. string_bytes paths.summary ≡ summary_path folder.now) }
    {
        let parts = part_paths(alloc, folder, count)?;
        let summary = format!(in alloc; "{folder}/split.txt")?;
        Ok(Paths { parts, summary })
    }
}

fn part_paths(alloc: Global, folder: &str, count: usize) -> Result<Vec<PartPaths>, AllocError>
    ensures named { IfOk result (λ paths. AreNamed folder.now 1 paths.items) }
    ensures count { IfOk result (λ paths. length paths.items ≡ count) }
{
    let mut paths = Vec::new(alloc);
    for index in 0..count {
        push_paths(alloc, folder, index + 1, &mut paths)?;
    }
    Ok(paths)
}

/// Adds the paths of the part of this number.
fn push_paths(
    alloc: Global,
    folder: &str,
    number: usize,
    paths: &mut Vec<PartPaths>,
) -> Result<(), AllocError>
    ensures { OnOk result ((added : PartPathsTerm) × (paths.new.items ≡ paths.old.items ++ added ∷ [])
        × IsNamed folder.now number added) }
{
    let packets = part_path(alloc, folder, number, "pcap")?;
    let numbers = part_path(alloc, folder, number, "records")?;
    paths.push(PartPaths { packets, numbers })?;
    Ok(())
}

/// The path of a file of the part of this number.
fn part_path(alloc: Global, folder: &str, number: usize, kind: &str) -> Result<String, AllocError>
    ensures { IfOk result (λ path. string_bytes path ≡ path_of folder.now number kind.now) }
{
    let zeros = zeros(number);
    format!(in alloc; "{folder}/part-{zeros}{number}.{kind}")
}

/// The zeros before a number of fewer than three digits.
fn zeros(number: usize) -> &'static str
    ensures { result.now ≡ words.zeros number }
{
    match number {
        ..10 => "00",
        10..100 => "0",
        _ => "",
    }
}
