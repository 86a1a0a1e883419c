ghost use Rattle.std.specs.Prelude.{ℕ, ◌^◌, ◌≤◌, IfErr, IfOk, List, length};
ghost use Rattle.std.specs.Io.KnownBytes.{Appends};
ghost use Rattle.input_output.specs.Account.{IsReadToEnd, IsUnread, IsUnwritten, written};
ghost use Rattle.quiet_pass.specs.code.FoundFlows.{HasMetSent};
ghost use Rattle.h2audit.specs.Account.{HasGiven, IsBrief, Tells};
ghost use Rattle.h2audit.specs.Report.{IsNoReport, IsReport};
ghost use Rattle.h2audit.specs.code.Listed.{HasListed};
ghost use Rattle.h2audit.specs.code.Reading.{IsMetHeaderOf};
ghost use Rattle.h2audit.specs.code.Writing.{IsAnswered, IsWritten};

use crate::auditing::{report_found, report_listed, team_of};
use crate::command_line::Options;
use crate::fault::AuditFault;
use crate::listed_connections::ListedConnection;
use crate::met_captures::MetCapture;
use crate::reading::{FileHeader, read_and_let_go};
use crate::verdict::Verdict;
use input_output::{CaptureReader, ReportWriter, TableHash};
use packet_heads::PacketWalk;
use quiet_pass::{ConnectionFindings, Showing, WithCredits, WithoutCredits};
use report_pages::Report;
use std::alloc::Global;
use std::io::{Read, Write};
use std::random::RandomSource;
use std::thread::Threads;
use stop_desk::{Gate, Team};

/// Reads a capture to its end, audits it, writes its report and flushes once.
///
/// For any reader and writer, also a file or a pipe, their calls then tell which bytes the reads gave and the writes
/// took: the report that was written is that of the capture that was read. If its file header refuses a capture, only
/// that header is kept, and the bytes after it are read and passed over.
///
/// No capture is refused before reading is over, so a failure to read comes before a refusal of the capture. After
/// `Write` a front of the report was written, possibly all of it; after any other fault nothing was. An error of any
/// kind from the reader or the writer is a fault: no call is tried again.
pub fn run<R: Read, W: Write>(
    rt: &(impl Threads + Sync + RandomSource),
    alloc: Global,
    options: &Options,
    reader: &mut CaptureReader<R>,
    writer: &mut ReportWriter<W>,
    gate: &impl Gate,
) -> Result<Verdict, AuditFault>
    requires unread { IsUnread reader.old }
    requires unwritten { IsUnwritten writer.old }
    ensures tells { Tells reader.new writer.new options.now.frames_shown result }
    ensures given { HasGiven (R.remaining reader.old.source.reader) reader.new }
    ensures brief { IsReadToEnd reader.new → IsBrief reader.new }
    ensures taken { Appends (W.contents writer.old.writer) (W.contents writer.new.writer) (written writer.new) }
{
    let hash = TableHash::drawn(rt);
    if options.workers() == 1 {
        if options.frames_shown() {
            return run_found::<WithCredits, _, _>(rt, alloc, hash, reader, writer);
        }
        return run_found::<WithoutCredits, _, _>(rt, alloc, hash, reader, writer);
    }
    let header = read_and_let_go(alloc, hash, reader)?;
    let team = team_of(rt, alloc, options, gate);
    let answer = report_listed_behind(&team, options, hash, header);
    write_answer(rt, answer, writer)
}

/// The same, where frames are met as they come.
fn run_found<S: Showing, R: Read, W: Write>(
    rt: &(impl Threads + Sync),
    alloc: Global,
    hash: TableHash,
    reader: &mut CaptureReader<R>,
    writer: &mut ReportWriter<W>,
) -> Result<Verdict, AuditFault>
    requires unread { IsUnread reader.old }
    requires unwritten { IsUnwritten writer.old }
    ensures tells { Tells reader.new writer.new S.frames_shown result }
    ensures given { HasGiven (R.remaining reader.old.source.reader) reader.new }
    ensures brief { IsReadToEnd reader.new → IsBrief reader.new }
    ensures taken { Appends (W.contents writer.old.writer) (W.contents writer.new.writer) (written writer.new) }
{
    let header = read_and_let_go::<_, ConnectionFindings<S>>(alloc, hash, reader)?;
    write_answer(rt, report_found_behind(alloc, header), writer)
}

/// The report of a capture that was met as it was read, or the refusal that was read.
fn report_found_behind<S: Showing>(
    alloc: Global,
    header: FileHeader<PacketWalk<MetCapture<ConnectionFindings<S>>>>,
) -> Result<(Report, Verdict), AuditFault>
    requires { (capture : List ℕ) × IsMetHeaderOf (HasMetSent S.frames_shown) capture header
        × (length capture ≤ 2 ^ 31) }
    ensures report { (capture : List ℕ) → IsMetHeaderOf (HasMetSent S.frames_shown) capture header
        → IfOk result (λ r. IsReport capture S.frames_shown r.0 r.1) }
    ensures refused { (capture : List ℕ) → IsMetHeaderOf (HasMetSent S.frames_shown) capture header
        → IfErr result (λ e. IsNoReport capture e) }
{
    match header {
        FileHeader::Taken(walk) => report_found(alloc, walk.end()),
        FileHeader::Refused(refusal) => Err(AuditFault::Pcap(refusal)),
    }
}

/// The report of a capture whose frames were kept as it was read, or the refusal that was read.
fn report_listed_behind<R: Threads + Sync, G: Gate>(
    team: &Team<'_, R, G>,
    options: &Options,
    hash: TableHash,
    header: FileHeader<PacketWalk<MetCapture<ListedConnection>>>,
) -> Result<(Report, Verdict), AuditFault>
    requires { (capture : List ℕ) × IsMetHeaderOf HasListed capture header × (length capture ≤ 2 ^ 31) }
    ensures report { (capture : List ℕ) → IsMetHeaderOf HasListed capture header
        → IfOk result (λ r. IsReport capture options.now.frames_shown r.0 r.1) }
    ensures refused { (capture : List ℕ) → IsMetHeaderOf HasListed capture header
        → IfErr result (λ e. IsNoReport capture e) }
{
    match header {
        FileHeader::Taken(walk) => report_listed(team, options, hash, walk.end()),
        FileHeader::Refused(refusal) => Err(AuditFault::Pcap(refusal)),
    }
}

/// Writes a report, if there is one, and flushes once; returns its verdict where that went well, or why there is none.
fn write_answer<R: Threads + Sync, W: Write>(
    rt: &R,
    audited: Result<(Report, Verdict), AuditFault>,
    writer: &mut ReportWriter<W>,
) -> Result<Verdict, AuditFault>
    requires { IsUnwritten writer.old }
    ensures answered { IsAnswered audited writer.old writer.new result }
    ensures taken { Appends (W.contents writer.old.writer) (W.contents writer.new.writer) (written writer.new) }
{
    let (text, verdict) = audited?;
    write_out(rt, text, verdict, writer)
}

/// Writes a text as it is spelled and flushes once, and returns this verdict where that went well.
pub(crate) fn write_out<R: Threads + Sync, W: Write>(
    rt: &R,
    text: Report,
    verdict: Verdict,
    writer: &mut ReportWriter<W>,
) -> Result<Verdict, AuditFault>
    requires { IsUnwritten writer.old }
    ensures written { IsWritten text verdict writer.new result }
    ensures taken { Appends (W.contents writer.old.writer) (W.contents writer.new.writer) (written writer.new) }
{
    match text.write(rt, writer) {
        Ok(()) => Ok(verdict),
        Err(_) => Err(AuditFault::Write),
    }
}
