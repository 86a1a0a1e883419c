//! Runs over readers and writers that go in steps or fail: which calls they get, and what the accounts tell. One worker
//! lets go of what comes behind the file header, several keep it.

ghost use Rattle.input_output.specs.Account.{IsUnread, IsUnwritten};

use crate::Answer;
use crate::captures::FILE_HEADER;
use crate::fakes::{Failure, Pieces, Slow, TestGate};
use h2audit::{AuditFault, CaptureReader, Options, ReportWriter, Verdict, run};
use pcap_records::PcapFault;
use std::alloc::Global;
use std::random::RandomSource;
use std::thread::Threads;

/// The report of a capture with no record, of 82 bytes.
const REPORT: &str =
    "capture records 0 segments 0 snapped 0 not-ipv4 0 fragments 0 not-tcp 0 refused 0\n";

/// The answer to a capture that its file header refuses.
const BAD_MAGIC: Result<Verdict, AuditFault> = Err(AuditFault::Pcap(PcapFault::BadMagic));

/// What a run is to come to: its answer; how many reads, writes and flushes it makes; how many bytes of the report it
/// writes.
type Wanted = (Result<Verdict, AuditFault>, [u32; 3], usize);

/// A reader of the file header in steps.
fn reader(step: usize, interrupted_at: u32) -> Pieces<'static> {
    Pieces::of(&FILE_HEADER, step, interrupted_at)
}

/// A writer that takes the report in steps.
fn writer(alloc: Global, step: usize, failure: Failure) -> Slow {
    Slow::new(alloc, step, REPORT.len(), failure)
}

/// A writer that takes the report at once.
fn whole(alloc: Global) -> Slow {
    writer(alloc, 1000, Failure::Never)
}

/// The calls that a reader and a writer got, where no read was made past the end and each write was offered all.
fn calls_of(reader: &Pieces, writer: &Slow) -> Option<[u32; 3]> {
    if reader.reads_past_end > 0 || writer.short_offers > 0 {
        return None;
    }
    Some([reader.reads, writer.writes, writer.flushes])
}

/// Whether the account has as many of these bytes as the reader gave: the front that is kept, of at most 24, and how
/// many came after it.
fn is_read(reader: &CaptureReader<Pieces>, whole: &[u8]) -> bool {
    let read = whole.len() - reader.reader().left.len().min(whole.len());
    let kept = read.min(24);
    reader.passed() == read - kept && reader.kept() == &whole[..kept]
}

/// What a run answers.
fn answer_of(
    rt: &(impl Sync + Threads + RandomSource),
    alloc: Global,
    workers: u32,
    reader: &mut CaptureReader<Pieces>,
    writer: &mut ReportWriter<Slow>,
) -> Option<Result<Verdict, AuditFault>>
    requires unread { IsUnread reader.old }
    requires unwritten { IsUnwritten writer.old }
{
    let options = Options::of(workers, 16, 4096, false)?;
    let gate = TestGate::holding(0);
    Some(run(rt, alloc, &options, reader, writer, &gate))
}

/// Whether a run by so many workers comes to what is wanted.
fn goes_so(
    rt: &(impl Sync + Threads + RandomSource),
    alloc: Global,
    workers: u32,
    reader: Pieces,
    writer: Slow,
    (wanted, calls, written): Wanted,
) -> bool {
    let whole = reader.left;
    let mut reader = CaptureReader::new(alloc, reader);
    let mut writer = ReportWriter::new(writer);
    let report = &REPORT.as_bytes()[..written.min(REPORT.len())];
    answer_of(rt, alloc, workers, &mut reader, &mut writer) == Some(wanted)
        && calls_of(reader.reader(), writer.writer()) == Some(calls)
        && is_read(&reader, whole)
        && writer.writer().taken.as_slice() == report
}

/// 24 bytes in steps of 5 are five reads, and one more finds the end.
pub fn slow_steps(rt: &(impl Sync + Threads + RandomSource), alloc: Global) -> Answer {
    for (workers, step, writes) in [(4, 1, 82), (4, 3, 28), (4, 1000, 1), (1, 3, 28)] {
        let writer = writer(alloc, step, Failure::Never);
        let wanted = (Ok(Verdict::Clean), [6, writes, 1], 82);
        if !goes_so(rt, alloc, workers, reader(5, 0), writer, wanted) {
            return Ok(false);
        }
    }
    Ok(true)
}

/// The read that fails is the last call: that the next would go on is not tried.
pub fn interrupted_reader(rt: &(impl Sync + Threads + RandomSource), alloc: Global) -> Answer {
    for workers in [1, 4] {
        for failing in 1..=6 {
            let wanted = (Err(AuditFault::Read), [failing, 0, 0], 0);
            if !goes_so(rt, alloc, workers, reader(5, failing), whole(alloc), wanted) {
                return Ok(false);
            }
        }
    }
    Ok(true)
}

/// Neither a write that was interrupted nor one that took no byte is tried again, and nothing is flushed.
pub fn failing_writer(rt: &(impl Sync + Threads + RandomSource), alloc: Global) -> Answer {
    for at in 1..=28u32 {
        let written = 3 * (at as usize - 1);
        for failure in [Failure::Interrupted(at), Failure::TakesNone(at)] {
            let wanted = (Err(AuditFault::Write), [2, at, 0], written);
            if !goes_so(
                rt,
                alloc,
                4,
                reader(24, 0),
                writer(alloc, 3, failure),
                wanted,
            ) {
                return Ok(false);
            }
        }
    }
    let slow = writer(alloc, 10, Failure::Interrupted(2));
    let wanted = (Err(AuditFault::Write), [2, 2, 0], 10);
    Ok(goes_so(rt, alloc, 1, reader(24, 0), slow, wanted))
}

pub fn failing_flush(rt: &(impl Sync + Threads + RandomSource), alloc: Global) -> Answer {
    let slow = writer(alloc, 1000, Failure::Flush);
    let wanted = (Err(AuditFault::Write), [2, 1, 1], 82);
    Ok(goes_so(rt, alloc, 1, reader(24, 0), slow, wanted))
}

pub fn refused_capture(rt: &(impl Sync + Threads + RandomSource), alloc: Global) -> Answer {
    for workers in [1, 4] {
        let reader = Pieces::of(&FILE_HEADER[..23], 24, 0);
        let refused = Err(AuditFault::Pcap(PcapFault::ShortHeader));
        let wanted = (refused, [2, 0, 0], 0);
        if !goes_so(rt, alloc, workers, reader, whole(alloc), wanted) {
            return Ok(false);
        }
    }
    Ok(true)
}

/// 100,000 bytes come in steps of 9: the first 24 take three reads and are kept; the rest is read and passed over.
pub fn refused_header(rt: &(impl Sync + Threads + RandomSource), alloc: Global) -> Answer {
    let mut capture: Vec<u8> = Vec::new(alloc);
    capture.resize(100_000, 7)?;
    for workers in [1, 4] {
        let reader = Pieces::of(capture.as_slice(), 9, 0);
        let wanted = (BAD_MAGIC, [11_113, 0, 0], 0);
        if !goes_so(rt, alloc, workers, reader, whole(alloc), wanted) {
            return Ok(false);
        }
    }
    Ok(true)
}
