ghost use Rattle.std.specs.Prelude.{IfOk, List, [], codes, map, option_map, string_bytes, ◌≡◌, ◌≤◌};
ghost use Rattle.clap.specs.Words.{HasKind, Text, fault_of, first_of, found_of, matches_of, rows_of};
ghost use Rattle.h2audit.specs.Asked.{Asks, IsFound, IsNumberOf};
ghost use Rattle.h2audit.specs.CommandLine.{app};
ghost use Rattle.h2audit.specs.code.Numbers.{HasNumber, HasNumbers};

use crate::command_line::command::{BLOCK, FILE, FRAMES, GROUPS, WORKERS, matches};
use crate::command_line::options::Options;
use clap::error::ErrorKind;
use clap::{ArgMatches, Error};
use std::alloc::{AllocError, Global};

/// What the words of the command line ask for.
#[derive(Drop)]
pub enum Parsed {
    /// An audit, with the path of the capture; without one standard input is read.
    Run(Options, Option<String>),
    /// The help text, for standard output.
    Help(String),
    /// The program's name and version, for standard output.
    Version(String),
    /// The words do not parse: why, for standard error.
    Refused(String),
}

/// Reads the words of the command line, without the program's name:
/// `[--workers N] [--groups N] [--block N] [--frames] [FILE]`.
///
/// Without a word for them there are 4 workers, 16 groups and blocks of 4096 frames. A number out of its range is
/// refused. An error is want of memory.
pub fn parse(alloc: Global, words: &[&str]) -> Result<Parsed, AllocError>
    ensures { IfOk result (Asks (map (λ w. w.now) words.now)) }
{
    match matches(alloc, words) {
        Ok(found) => audit_asked(alloc, &found),
        Err(error) => unparsed(alloc, &error),
    }
}

/// The audit that words ask for in which clap finds no fault.
fn audit_asked(alloc: Global, found: &ArgMatches<'_>) -> Result<Parsed, AllocError>
    requires { HasNumbers (found_of found.now) }
    ensures { (words : List Text) → fault_of app words ≡ [] → rows_of (found_of found.now) ≡ matches_of app words
        → IfOk result (Asks words) }
{
    Ok(Parsed::Run(options_in(found), file_in(alloc, found)?))
}

/// What words ask for that clap reads as no audit: help, the version, or why they are refused.
fn unparsed(alloc: Global, error: &Error) -> Result<Parsed, AllocError>
    ensures { (words : List Text) → HasKind (fault_of app words) error.now → IfOk result (Asks words) }
{
    let kind = error.kind();
    if kind == ErrorKind::OutOfMemory {
        return Err(AllocError);
    }
    let text = error.to_string(alloc)?;
    Ok(match kind {
        ErrorKind::DisplayHelp => Parsed::Help(text),
        ErrorKind::DisplayVersion => Parsed::Version(text),
        _ => Parsed::Refused(text),
    })
}

/// The options that clap found. It gives each number a default, and refuses one out of range.
fn options_in(found: &ArgMatches<'_>) -> Options
    requires { HasNumbers (found_of found.now) }
    ensures { IsFound (rows_of (found_of found.now)) result }
{
    let workers = number_in(found, WORKERS, Options::MOST_WORKERS);
    let groups = number_in(found, GROUPS, Options::MOST_GROUPS);
    let block = number_in(found, BLOCK, Options::LONGEST_BLOCK);
    let frames_shown = found.get_one(FRAMES).unwrap_or(false);
    Options::of(workers, groups, block, frames_shown).unwrap()
}

/// The number of this name.
fn number_in(found: &ArgMatches<'_>, name: &str, most: u32) -> u32
    requires { HasNumber (found_of found.now) name.now most }
    ensures range { (1 ≤ result) × (result ≤ most) }
    ensures value { IsNumberOf name.now (rows_of (found_of found.now)) result }
{
    found.get_one::<u32>(name).unwrap()
}

/// The path of the capture, if a word gives one.
fn file_in(alloc: Global, found: &ArgMatches<'_>) -> Result<Option<String>, AllocError>
    ensures { IfOk result (λ file.
        option_map string_bytes file ≡ first_of (codes "FILE") (rows_of (found_of found.now))) }
{
    match found.get_str(FILE) {
        Some(path) => Ok(Some(String::from_str(alloc, path)?)),
        None => Ok(None),
    }
}
