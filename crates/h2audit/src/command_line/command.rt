ghost use Rattle.std.specs.Prelude.{◌≡◌, IfOk, false, map};
ghost use Rattle.clap.specs.Words.{app_of, fault_of, found_of, matches_of, rows_of, rule_of, FailsBy};
ghost use Rattle.h2audit.specs.CommandLine.{app, command_start, file_rule, frames_rule, number_rule};
ghost use Rattle.h2audit.specs.code.Arguments.{AreArguments};
ghost use Rattle.h2audit.specs.code.Numbers.{HasNumbers};

use crate::command_line::options::Options;
use clap::builder::ValueParser;
use clap::{Arg, ArgAction, ArgMatches, Command, Error};
use std::alloc::{AllocError, Global};

/// The names of the arguments.
pub(crate) const WORKERS: &str = "workers";

pub(crate) const GROUPS: &str = "groups";

pub(crate) const BLOCK: &str = "block";

pub(crate) const FRAMES: &str = "frames";

pub(crate) const FILE: &str = "FILE";

/// What clap finds in the program's words, which do not begin with the program's name.
pub(crate) fn matches<'a>(alloc: Global, words: &'a [&'a str]) -> Result<ArgMatches<'a>, Error>
    ensures rows { IfOk result (λ m. rows_of (found_of m) ≡ matches_of app (map (λ w. w.now) words.entry.now)) }
    ensures numbers { IfOk result (λ m. HasNumbers (found_of m)) }
    ensures fails { FailsBy (fault_of app (map (λ w. w.now) words.entry.now)) result }
{
    command(alloc)?.try_get_matches_from(words)
}

/// The command line of the program.
fn command<'a>(alloc: Global) -> Result<Command<'a>, AllocError>
    ensures { IfOk result (λ c. app_of c ≡ app) }
{
    bare_command(alloc).args(arguments(alloc)?)
}

/// The arguments, in the order in which help shows them.
// They are one list: a function that hands on one of clap's wide values costs the proof some ten seconds.
fn arguments<'a>(alloc: Global) -> Result<Vec<Arg<'a>>, AllocError>
    ensures { IfOk result (λ args. AreArguments args.items) }
{
    let workers = numbered(alloc, WORKERS, Options::MOST_WORKERS, "4", WORKERS_HELP);
    let groups = numbered(alloc, GROUPS, Options::MOST_GROUPS, "16", GROUPS_HELP);
    let block = numbered(alloc, BLOCK, Options::LONGEST_BLOCK, "4096", BLOCK_HELP);
    Ok(vec![in alloc;
        workers,
        groups,
        block,
        frames_flag(alloc),
        file_word(alloc),
    ]?)
}

/// The version of the program and of its report.
const VERSION: &str = "1.1.0";

const STATUS_AND_BLAME: &str = concat!(
    "Exit status: 0 without a fault, also where nothing was audited; 1 with a fault; 2 for wrong words; ",
    "3 for a refused\ncapture; 4 for a failed read or write; 5 for want of memory.\n\n",
    "Overflow lines name the victim: see \"Who is to blame\" in README.md, or \"Who broke the rule\" in h2audit(1).",
);

const ABOUT: &str =
    "Audits the HTTP/2 flow control of a classic pcap capture (Ethernet or raw IP, IPv4)";

const WORKERS_HELP: &str = "Threads that share the work, from 1 to 64";

const GROUPS_HELP: &str = "Groups that each connection's streams are dealt to, from 1 to 1024";

const BLOCK_HELP: &str = "Frames in a block of the work, from 1 to 1048576";

const FRAMES_HELP: &str = "Show each change of a window's credit";

const FILE_HELP: &str = "The capture; standard input is read without it";

fn bare_command<'a>(alloc: Global) -> Command<'a>
    ensures { app_of result ≡ command_start }
{
    Command::new(alloc, "h2audit")
        .version(VERSION)
        .about(ABOUT)
        .after_help(STATUS_AND_BLAME)
        .no_binary_name(true)
}

/// `--NAME N`, a number from 1 to `most`.
fn numbered<'a>(alloc: Global, name: &'a str, most: u32, default: &'a str, help: &'a str) -> Arg<'a>
    ensures rule { rule_of result ≡ number_rule name.entry.now most default.entry.now }
    ensures local { result.global ≡ false }
{
    Arg::new(alloc, name)
        .long(name)
        .action(ArgAction::Set)
        .value_name("N")
        .value_parser(ValueParser::Signed(1, i64::from(most)))
        .default_value(default)
        .help(help)
}

fn frames_flag<'a>(alloc: Global) -> Arg<'a>
    ensures rule { rule_of result ≡ frames_rule }
    ensures local { result.global ≡ false }
{
    Arg::new(alloc, FRAMES)
        .long(FRAMES)
        .action(ArgAction::SetTrue)
        .help(FRAMES_HELP)
}

fn file_word<'a>(alloc: Global) -> Arg<'a>
    ensures rule { rule_of result ≡ file_rule }
    ensures local { result.global ≡ false }
{
    Arg::new(alloc, FILE).help(FILE_HELP)
}
