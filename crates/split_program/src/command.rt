//! The command line of the program.

ghost use Rattle.std.specs.Prelude.{◌≡◌, ◌<◌, IfErr, IfOk, List, Some, codes, false, map, pos, true};
ghost use Rattle.clap.specs.Lexer.{usize_max};
ghost use Rattle.clap.specs.Simple.{on_top};
ghost use Rattle.clap.specs.Words.{Text, app_of, found_of, matches_of, new_app, new_rule, rows_of, rule_of};
ghost use Rattle.clap.specs.declared.builder.action.ArgAction.TheVariants.{Append};
ghost use Rattle.clap.specs.declared.builder.value_parser.ValueParser.TheVariants as value;
ghost use Rattle.split_program.specs.Asked.{Asks};
ghost use Rattle.split_program.specs.CommandLine.{app, option_rule};
ghost use Rattle.split_program.specs.Ending.{IsToldAs};
ghost use Rattle.split_program.specs.code.Parts.{ArePartsOf, HasParts};

use crate::asked::{Asked, Words};
use crate::failure::Failure;
use crate::printable::printable_lines;
use capture_parts::part_count;
use clap::builder::ValueParser;
use clap::error::ErrorKind;
use clap::{Arg, ArgAction, ArgMatches, Command, Error};
use std::alloc::{AllocError, Global};

/// The most parts: two files of each are open at a time.
const MOST_PARTS: i64 = 500;

/// The version of the program.
const VERSION: &str = "1.1.0";

const ABOUT: &str =
    "Splits a capture of any size into captures that h2audit reads, by pairs of endpoints";

const STATUS: &str = concat!(
    "Exit status: 0 where all parts stand; 2 for wrong words; 3 for a refused capture or part; 4 for a failed read\n",
    "or write; 5 for want of memory.",
);

/// Reads the words of the command line, without the program's name.
pub fn parse_words(alloc: Global, words: &[&str]) -> Result<Asked, Failure>
    ensures asked { IfOk result (Asks (map (λ w. w.now) words.now)) }
    ensures told { IfErr result (IsToldAs 2) }
{
    match matches(alloc, words) {
        Ok(found) => split_asked(alloc, &found),
        Err(error) => unparsed(alloc, &error),
    }
}

/// The split that words ask for in which clap finds no fault.
fn split_asked(alloc: Global, found: &ArgMatches<'_>) -> Result<Asked, Failure>
    requires { HasParts (found_of found.now) }
    ensures asked { (words : List Text) → rows_of (found_of found.now) ≡ matches_of app words
        → IfOk result (Asks words) }
    ensures told { IfErr result (IsToldAs 2) }
{
    let folder = String::from_str(alloc, found.get_str("output").unwrap_or(""))?;
    let files = copies(alloc, found.get_strs("FILE").unwrap_or(&[]))?;
    let parts = parts_in(found);
    Ok(Asked::Split(Words {
        parts,
        folder,
        files,
    }))
}

/// The number of parts. It has to be there, and clap refuses one out of range.
fn parts_in(found: &ArgMatches<'_>) -> usize
    requires { HasParts (found_of found.now) }
    ensures some { 0 < result }
    ensures value { ArePartsOf (found_of found.now) result }
{
    part_count(found.get_one::<u32>("parts").unwrap())
}

fn unparsed(alloc: Global, error: &Error) -> Result<Asked, Failure>
    ensures asked { (words : List Text) → IfOk result (Asks words) }
    ensures told { IfErr result (IsToldAs 2) }
{
    let kind = error.kind();
    if kind == ErrorKind::OutOfMemory {
        return Err(Failure::OutOfMemory);
    }
    let text = printable_lines(alloc, error.to_string(alloc)?.as_str())?;
    match kind {
        ErrorKind::DisplayHelp | ErrorKind::DisplayVersion => Ok(Asked::Text(text)),
        _ => Err(Failure::Words(text)),
    }
}

fn copies(alloc: Global, texts: &[&str]) -> Result<Vec<String>, AllocError> {
    let mut copies = Vec::new(alloc);
    for text in texts {
        copies.push(String::from_str(alloc, text)?)?;
    }
    Ok(copies)
}

/// What clap finds in the program's words, which do not begin with the program's name.
fn matches<'a>(alloc: Global, words: &'a [&'a str]) -> Result<ArgMatches<'a>, Error>
    ensures rows { IfOk result (λ m. rows_of (found_of m) ≡ matches_of app (map (λ w. w.now) words.entry.now)) }
    ensures parts { IfOk result (λ m. HasParts (found_of m)) }
{
    command(alloc)?.try_get_matches_from(words)
}

/// The command line of the program.
fn command<'a>(alloc: Global) -> Result<Command<'a>, AllocError>
    ensures { IfOk result (λ c. app_of c ≡ app) }
{
    let arguments = vec![in alloc;
        parts_option(alloc),
        output_option(alloc),
        file_words(alloc),
    ]?;
    described(alloc).args(arguments)
}

fn described<'a>(alloc: Global) -> Command<'a>
    ensures { app_of result ≡ on_top (λ shape. record shape { has_version = true; no_binary_name = true })
        (new_app (codes "h2audit-split")) }
{
    Command::new(alloc, "h2audit-split")
        .version(VERSION)
        .about(ABOUT)
        .after_help(STATUS)
        .no_binary_name(true)
}

fn parts_option<'a>(alloc: Global) -> Arg<'a>
    ensures rule { rule_of result ≡ record (option_rule (codes "parts")) {
      parser = Some (value.Signed (pos 1) (pos 500));
    } }
    ensures local { result.global ≡ false }
{
    option(alloc, "parts", "N")
        .value_parser(ValueParser::Signed(1, MOST_PARTS))
        .help("How many parts to make, from 1 to 500")
}

fn output_option<'a>(alloc: Global) -> Arg<'a>
    ensures rule { rule_of result ≡ record (option_rule (codes "output")) { short = Some 111 } }
    ensures local { result.global ≡ false }
{
    option(alloc, "output", "DIR")
        .short('o')
        .help("The folder for the parts, which must not exist")
}

fn file_words<'a>(alloc: Global) -> Arg<'a>
    ensures rule { rule_of result ≡ record (new_rule (codes "FILE")) {
      action = Some Append;
      range = Some (record { start_inclusive = 0; end_inclusive = usize_max });
    } }
    ensures local { result.global ≡ false }
{
    Arg::new(alloc, "FILE")
        .action(ArgAction::Append)
        .num_args(0..)
        .help("The files of the capture, in order; standard input is read without them")
}

/// `--NAME VALUE`, which has to be there.
fn option<'a>(alloc: Global, name: &'a str, value: &'a str) -> Arg<'a>
    ensures rule { rule_of result ≡ option_rule name.entry.now }
    ensures local { result.global ≡ false }
{
    Arg::new(alloc, name)
        .long(name)
        .action(ArgAction::Set)
        .value_name(value)
        .required(true)
}
