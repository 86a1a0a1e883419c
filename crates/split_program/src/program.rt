//! What the program does.

ghost use Rattle.std.specs.Prelude.{◌≡◌, ◌<◌, ◌≤◌, IfErr, IfOk, MatchResult, None, Result as ResultTerm, drop};
ghost use Rattle.std.specs.Prelude.{length, map, string_bytes, vec_len};
ghost use Rattle.std.specs.Process.{exit_status};
ghost use Rattle.std.specs.Result.{IsOkAnd};
ghost use Rattle.std.specs.Vec.Iter.{into_iter_items};
ghost use Rattle.pcap_records.specs.Refusal.{refusal};
ghost use Rattle.split_program.specs.Asked.{Asks};
ghost use Rattle.split_program.specs.Ending.{IsToldAs};
ghost use Rattle.split_program.specs.Program.{Does, EndsWith, IsShown, RemovesAll, Runs, Works, WorksIn};
ghost use Rattle.split_program.specs.declared.asked.Asked.{Asked as AskedTerm};
ghost use Rattle.split_program.specs.declared.failure.Failure.{Failure as FailureTerm};

use crate::asked::{Asked, Words};
use crate::command::parse_words;
use crate::failure::{Ending, Failure};
use crate::finishing::finish_parts;
use crate::inputs::{Header, begin, split_failure};
use crate::outputs::{create_parts, remove_all};
use crate::paths::Paths;
use capture_parts::{Outside, make_buffer, split_capture};
use std::alloc::{AllocError, Global};
use std::env::Args;
use std::io::{self, Read, Write};
use std::process::ExitCode;

/// The program `h2audit-split --parts N -o DIR [FILE..]`, with these words, of which the first is its name.
pub fn run_program<I: Read, F: Read + Write + Drop, O: Outside<F>>(
    alloc: Global,
    words: io::Result<Args>,
    input: &mut I,
    outside: &mut O,
) -> ExitCode
    ensures { (asked : ResultTerm AskedTerm FailureTerm)
        × IfOk asked (λ asked. IsOkAnd words (λ words. Asks (map string_bytes (drop 1 (into_iter_items words))) asked))
        × Does O.does F.contents F.remaining (I.remaining input.old) (I.remaining input.new) outside.old outside.new
        (exit_status result) asked }
{
    match words_asked(alloc, words) {
        Ok(Asked::Text(text)) => show(text.as_str(), outside),
        Ok(Asked::Split(words)) => {
            let answer = split(alloc, &words, input, outside);
            end(&answer, outside)
        }
        Err(failure) => end(&Err(failure), outside),
    }
}

fn words_asked(alloc: Global, words: io::Result<Args>) -> Result<Asked, Failure>
    ensures asked { IfOk result (λ asked.
        IsOkAnd words (λ words. Asks (map string_bytes (drop 1 (into_iter_items words))) asked)) }
    ensures told { IfErr result (IsToldAs 2) }
{
    match words {
        Ok(words) => asked_by(alloc, words),
        Err(_) => Err(words_not_text(alloc)),
    }
}

fn asked_by(alloc: Global, words: Args) -> Result<Asked, Failure>
    ensures asked { IfOk result (Asks (map string_bytes (drop 1 (into_iter_items words)))) }
    ensures told { IfErr result (IsToldAs 2) }
{
    let words = behind_name(alloc, words)?;
    let texts = texts_of(alloc, words.as_slice())?;
    parse_words(alloc, texts.as_slice())
}

/// The words of the command line, without the program's name.
fn behind_name(alloc: Global, mut words: Args) -> Result<Vec<String>, AllocError>
    ensures { IfOk result (λ behind. behind.items ≡ drop 1 (into_iter_items words)) }
{
    words.next();
    let mut behind = Vec::new(alloc);
    for word in words {
        behind.push(word)?;
    }
    Ok(behind)
}

fn words_not_text(alloc: Global) -> Failure
    ensures { IsToldAs 2 result }
{
    match String::from_str(alloc, "error: a word is not text") {
        Ok(text) => Failure::Words(text),
        Err(_) => Failure::OutOfMemory,
    }
}

fn texts_of<'a>(alloc: Global, words: &'a [String]) -> Result<Vec<&'a str>, AllocError>
    ensures { IfOk result (λ texts. map (λ text. text.now) texts.items ≡ map string_bytes words.now) }
{
    words.iter().map(|word| word.as_str()).collect(alloc)
}

/// Writes a text to standard output.
fn show<F, O: Outside<F>>(text: &str, outside: &mut O) -> ExitCode
    ensures { IsShown O.does outside.old text.now outside.new (exit_status result) }
{
    match outside.print(text) {
        Ok(()) => ExitCode::from(0),
        Err(_) => {
            outside.say("h2audit-split: write failed");
            ExitCode::from(4)
        }
    }
}

/// Says why nothing was split, or not all, and gives the exit status.
fn end<F, O: Outside<F>>(answer: &Result<Ending, Failure>, outside: &mut O) -> ExitCode
    ensures { EndsWith O.does outside.old outside.new (exit_status result) answer.now }
{
    match answer {
        Ok(Ending::Split) => ExitCode::from(0),
        Ok(Ending::PartsRefused) => ExitCode::from(3),
        Err(failure) => {
            let (status, line) = failure.told();
            outside.say(line);
            ExitCode::from(status)
        }
    }
}

/// Splits the capture that the words name: files, or standard input.
fn split<I: Read, F: Read + Write + Drop, O: Outside<F>>(
    alloc: Global,
    words: &Words,
    input: &mut I,
    outside: &mut O,
) -> Result<Ending, Failure>
    ensures { Runs O.does F.contents F.remaining (I.remaining input.old) (I.remaining input.new) outside.old words.now
        words.now.files.items outside.new result }
{
    match words.files.as_slice().split_first() {
        Some((first, later)) => match outside.open(first.as_str()) {
            Ok(mut file) => split_from(alloc, words, &mut file, later, outside),
            Err(_) => Err(Failure::at(alloc, "cannot open", first.as_str())),
        },
        None => split_from(alloc, words, input, &[], outside),
    }
}

/// Splits the capture that this reader begins, and that these files continue.
fn split_from<I: Read, F: Read + Write + Drop, O: Outside<F>>(
    alloc: Global,
    words: &Words,
    reader: &mut I,
    later: &[String],
    outside: &mut O,
) -> Result<Ending, Failure>
    ensures { WorksIn O.does F.contents F.remaining (I.remaining reader.old) (I.remaining reader.new) outside.old
        words.now later.now outside.new result }
{
    let folder = words.folder.as_str();
    let buffer = make_buffer(alloc)?;
    let paths = Paths::within(alloc, folder, words.parts)?;
    let header = begin(alloc, words.files.as_slice(), reader)?;
    if outside.make_folder(folder).is_err() {
        return Err(Failure::at(alloc, "cannot make folder", folder));
    }
    let files = words.files.as_slice();
    let answer = split_behind(
        alloc, files, &paths, reader, later, &header, buffer, outside,
    );
    cleaned(folder, &paths, answer, outside)
}

/// The answer; after a failure nothing is left.
fn cleaned<F, O: Outside<F>>(
    folder: &str,
    paths: &Paths,
    answer: Result<Ending, Failure>,
    outside: &mut O,
) -> Result<Ending, Failure>
    ensures same { result ≡ answer }
    ensures removed { MatchResult answer (λ end. outside.new ≡ outside.old)
        (λ e. RemovesAll O.does outside.old folder.now paths.now outside.new) }
{
    match answer {
        Ok(ending) => Ok(ending),
        Err(failure) => {
            remove_all(folder, paths, outside);
            Err(failure)
        }
    }
}

/// Splits it from behind its header on, into parts that it makes.
fn split_behind<I: Read, F: Read + Write + Drop, O: Outside<F>>(
    alloc: Global,
    files: &[String],
    paths: &Paths,
    reader: &mut I,
    later: &[String],
    header: &Header,
    buffer: Vec<u8>,
    outside: &mut O,
) -> Result<Ending, Failure>
    requires buffer { 98 ≤ vec_len buffer }
    requires some { 0 < length paths.now.parts.items }
    requires long { length header.now ≡ 24 }
    requires taken { refusal header.now ≡ None }
    ensures { Works O.does F.contents F.remaining header.now (I.remaining reader.old) (I.remaining reader.new)
        outside.old paths.now later.now outside.new result }
{
    let parts = create_parts(alloc, paths.parts.as_slice(), header, outside)?;
    match split_capture(header, reader, later, outside, buffer, parts) {
        Ok(mut parts) => finish_parts(alloc, paths, parts.as_mut_slice(), outside),
        Err(wrong) => Err(split_failure(alloc, files, paths, wrong)),
    }
}
