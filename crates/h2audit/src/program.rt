ghost use Rattle.std.specs.Prelude.{◌≡◌, ◌≢◌, [], drop, map, IfErr, IfOk, IfSome, None, Some, string_bytes};
ghost use Rattle.std.specs.Fn.{CalledAt};
ghost use Rattle.std.specs.Io.KnownBytes.{Appends};
ghost use Rattle.std.specs.IoError.{error_kind};
ghost use Rattle.std.specs.Process.{exit_status};
ghost use Rattle.std.specs.Vec.Iter.{into_iter_items};
ghost use Rattle.input_output.specs.declared.capture_reader.CaptureReader.{CaptureReader as CaptureReaderTerm};
ghost use Rattle.input_output.specs.Account.{IsUnread, IsUnwritten, written};
ghost use Rattle.h2audit.specs.Asked.{Asks};
ghost use Rattle.h2audit.specs.Account.{HasGiven, Tells};
ghost use Rattle.h2audit.specs.Ending.{ending_of};
ghost use Rattle.h2audit.specs.Program.{AreAsked, AreBehindName, Ends, IsShown, IsUnopened};
ghost use Rattle.h2audit.specs.code.Inputs.{HasAuditedFile, HasAuditedInput};

use crate::command_line::{Options, Parsed, parse};
use crate::fault::{AuditFault, NotText};
use crate::running::{run, write_out};
use crate::status::ending;
use crate::verdict::Verdict;
use input_output::{CaptureReader, ReportWriter};
use report_pages::Report;
use std::alloc::{AllocError, Global};
use std::env::Args;
use std::io::{self, ErrorKind, Read, Write};
use std::process::ExitCode;
use std::random::RandomSource;
use std::thread::Threads;
use stop_desk::NoGate;

/// The exit status for words that do not parse.
const WORDS_REFUSED: u8 = 2;

/// The words of the command line after the first, which is the program's name. An error is a word that is not text, or
/// want of memory.
pub fn program_words(alloc: Global, words: io::Result<Args>) -> io::Result<Vec<String>>
    ensures { AreBehindName words result }
{
    match behind_name(alloc, words?) {
        Ok(words) => Ok(words),
        Err(_) => Err(io::Error::from(ErrorKind::OutOfMemory)),
    }
}

fn behind_name(alloc: Global, mut words: Args) -> Result<Vec<String>, AllocError>
    ensures { IfOk result (λ behind. behind.items ≡ drop 1 (into_iter_items words)) }
{
    words.next();
    let mut behind = Vec::new(alloc);
    for word in words {
        behind.push(word)?;
    }
    Ok(behind)
}

/// What the program is lent: ways to open FILE and to say a line on standard error, and accounts of reads and writes.
#[derive(Drop)]
pub struct Outside<O, S, I, F, W> {
    pub open_file: O,
    pub say: S,
    /// The account of standard input.
    pub input: CaptureReader<I>,
    /// The account of FILE, once it is opened.
    pub file: Option<CaptureReader<F>>,
    /// The account of standard output.
    pub output: ReportWriter<W>,
}

/// The program: `h2audit [--workers N] [--groups N] [--block N] [--frames] [FILE]`, with these words.
///
/// The report goes to standard output, and so does help; a fault is one line on standard error. The words are judged
/// before FILE is opened. `ending` says which exit status an audit has; words that do not parse have status 2. Unless
/// the status is 0, 1 or 4 nothing is written to standard output. By the words, at most one of standard input and FILE
/// is read.
pub fn run_program<
    O: FnMut(&str) -> io::Result<F>,
    S: FnMut(&str),
    I: Read,
    F: Read + Drop,
    W: Write,
>(
    rt: &(impl AllocGlobal + Threads + Sync + RandomSource),
    words: io::Result<Vec<String>>,
    outside: &mut Outside<O, S, I, F, W>,
) -> ExitCode
    requires unread { IsUnread outside.old.input }
    requires unwritten { IsUnwritten outside.old.output }
    requires opens { O.IsAlwaysCallable outside.old.open_file }
    requires says { S.IsAlwaysCallable outside.old.say }
    ensures ends { Ends (CalledAt O.FnMut) (λ say line. CalledAt S.FnMut say line tt) I.remaining F.remaining
        outside.old outside.new (exit_status result) (AreAsked words) }
    ensures taken { Appends (W.contents outside.old.output.writer) (W.contents outside.new.output.writer)
        (written outside.new.output) }
{
    match asked(rt.alloc(), words) {
        Ok(Parsed::Run(options, path)) => {
            let answer = audit_input(rt, &options, path, outside);
            end(&answer, &mut outside.say)
        }
        Ok(Parsed::Help(text)) => end(&show(rt, text, &mut outside.output), &mut outside.say),
        Ok(Parsed::Version(text)) => end(&show(rt, text, &mut outside.output), &mut outside.say),
        Ok(Parsed::Refused(text)) => {
            (outside.say)(text.as_str().trim_end());
            ExitCode::from(WORDS_REFUSED)
        }
        Err(_) => end(&Err(AuditFault::OutOfMemory), &mut outside.say),
    }
}

/// What the program's words ask for. Words that are not text are refused.
fn asked(alloc: Global, words: io::Result<Vec<String>>) -> Result<Parsed, AllocError>
    ensures { IfOk result (AreAsked words) }
{
    match words {
        Ok(words) => parse_strings(alloc, words.as_slice()),
        Err(error) if error.kind() == ErrorKind::OutOfMemory => Err(AllocError),
        Err(_) => Ok(Parsed::Refused(NotText.to_string(alloc)?)),
    }
}

fn parse_strings(alloc: Global, words: &[String]) -> Result<Parsed, AllocError>
    ensures { IfOk result (Asks (map string_bytes words.now)) }
{
    let words = texts(alloc, words)?;
    parse(alloc, words.as_slice())
}

fn texts<'a>(alloc: Global, words: &'a [String]) -> Result<Vec<&'a str>, AllocError>
    ensures { IfOk result (λ texts. map (λ text. text.now) texts.items ≡ map string_bytes words.now) }
{
    words.iter().map(|word| word.as_str()).collect(alloc)
}

/// Audits FILE, where its path is given, and else standard input, and gives the answer. The other is not read.
fn audit_input<O: FnMut(&str) -> io::Result<F>, S, I: Read, F: Read + Drop, W: Write>(
    rt: &(impl AllocGlobal + Threads + Sync + RandomSource),
    options: &Options,
    path: Option<String>,
    outside: &mut Outside<O, S, I, F, W>,
) -> Result<Verdict, AuditFault>
    requires unread { IsUnread outside.old.input }
    requires unwritten { IsUnwritten outside.old.output }
    requires opens { O.IsAlwaysCallable outside.old.open_file }
    ensures file { IfSome path (λ path. HasAuditedFile (CalledAt O.FnMut) F.remaining outside.old outside.new
        (string_bytes path) options.now.frames_shown result) }
    ensures file_alone { IfSome path (λ path. outside.new.input ≡ outside.old.input) }
    ensures input { path ≡ None → HasAuditedInput I.remaining outside.old outside.new options.now.frames_shown result }
    ensures silent { outside.new.say ≡ outside.old.say }
    ensures taken { Appends (W.contents outside.old.output.writer) (W.contents outside.new.output.writer)
        (written outside.new.output) }
{
    match path {
        Some(path) => {
            let opened = open(path.as_str(), outside);
            audit_file(rt, options, opened, &mut outside.file, &mut outside.output)
        }
        None => run(
            rt,
            rt.alloc(),
            options,
            &mut outside.input,
            &mut outside.output,
            &NoGate,
        ),
    }
}

/// Opens FILE. All else that is lent stays as it was.
fn open<O: FnMut(&str) -> io::Result<F>, S, I, F, W>(
    path: &str,
    outside: &mut Outside<O, S, I, F, W>,
) -> io::Result<F>
    requires { O.IsAlwaysCallable outside.old.open_file }
    ensures opened { CalledAt O.FnMut outside.old.open_file path.now result outside.new.open_file }
    ensures same { outside.new ≡ record outside.old { open_file = outside.new.open_file } }
{
    (outside.open_file)(path)
}

/// What the audit of FILE returns, and the account of its reads. Not opened, it is a failed read, or want of memory.
fn audit_file<F: Read + Drop, W: Write>(
    rt: &(impl AllocGlobal + Threads + Sync + RandomSource),
    options: &Options,
    opened: io::Result<F>,
    file: &mut Option<CaptureReader<F>>,
    output: &mut ReportWriter<W>,
) -> Result<Verdict, AuditFault>
    requires { IsUnwritten output.old }
    ensures opened { IfOk opened (λ opened. (reader : CaptureReaderTerm F) × (file.new ≡ Some reader)
        × HasGiven (F.remaining opened) reader × Tells reader output.new options.now.frames_shown result) }
    ensures unopened { IfErr opened (λ e. (file.new ≡ file.old) × (output.new ≡ output.old)
        × IsUnopened (error_kind e) result) }
    ensures taken { Appends (W.contents output.old.writer) (W.contents output.new.writer) (written output.new) }
{
    match opened {
        Ok(opened) => {
            let mut reader = CaptureReader::new(rt.alloc(), opened);
            let audited = run(rt, rt.alloc(), options, &mut reader, output, &NoGate);
            *file = Some(reader);
            audited
        }
        Err(error) if error.kind() == ErrorKind::OutOfMemory => Err(AuditFault::OutOfMemory),
        Err(_) => Err(AuditFault::Read),
    }
}

/// Writes a text in place of a report.
fn show<W: Write>(
    rt: &(impl AllocGlobal + Threads + Sync),
    text: String,
    output: &mut ReportWriter<W>,
) -> Result<Verdict, AuditFault>
    requires { IsUnwritten output.old }
    ensures shown { IsShown (string_bytes text) output.new result }
    ensures taken { Appends (W.contents output.old.writer) (W.contents output.new.writer) (written output.new) }
{
    let text = Report::of_text(rt.alloc(), text.into_bytes());
    write_out(rt, text, Verdict::Clean, output)
}

/// Says what `ending` says of the answer, and gives its exit status.
fn end<S: FnMut(&str)>(answer: &Result<Verdict, AuditFault>, say: &mut S) -> ExitCode
    requires { S.IsAlwaysCallable say.old }
    ensures status { exit_status result ≡ (ending_of answer.now).0 }
    ensures line { (ending_of answer.now).1 ≢ [] → CalledAt S.FnMut say.old (ending_of answer.now).1 tt say.new }
    ensures silent { (ending_of answer.now).1 ≡ [] → say.new ≡ say.old }
{
    let (status, line) = ending(answer);
    if line.is_empty() {
        return ExitCode::from(status);
    }
    say(line);
    ExitCode::from(status)
}
