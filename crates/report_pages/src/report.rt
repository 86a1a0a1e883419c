//! The report of a capture, by what it is made of.

ghost use Rattle.std.specs.Prelude.{◌≡◌, ◌++◌, ℕ, IfOk, OnErr, OnOk, take};
ghost use Rattle.std.specs.Io.KnownBytes.{Appends};
ghost use Rattle.input_output.specs.Account.{HasWriteFailed, IsFlushed, IsUnwritten, written};

use crate::cursors::Cursor;
use crate::pages::{empty_pages, pages_for};
use crate::told::Told;
use crate::writing::write_text;
use audit_report::SectionHeading;
use input_output::{ReportWriter, WriteFault};
use std::alloc::{AllocError, Global};
use std::io::Write;
use std::marker::Model;
use std::thread::Threads;

/// The report of a capture. It is spelled while it is written, on pages that are filled again: so its text is never in
/// memory as a whole, and takes no memory that may be wanting once the first byte is written.
#[derive(Drop)]
pub struct Report {
    /// The lines on the capture.
    lines: Vec<u8>,
    headings: Vec<SectionHeading>,
    told: Vec<Told>,
    frames_shown: bool,
    pages: Vec<Vec<u8>>,
    /// How many entries a page has room for.
    entries: usize,
}

impl Model for Report {
    ghost use Rattle.std.specs.Prelude.{ℕ, List, ◌++◌};
    ghost use Rattle.report_pages.specs.code.Pages.{AreParts};
    ghost use Rattle.report_pages.specs.code.Sections.{told_text};

    ghost Value = { List ℕ };

    ghost view = { λ r. r.lines.items ++ told_text r.frames_shown 1 r.headings.items r.told.items };

    ghost invariant = { λ r. AreParts r.headings.items r.told.items r.entries r.pages.items };
}

impl Report {
    ghost use Rattle.report_pages.specs.code.Written.{HasWritten};
    ghost use Rattle.report_pages.specs.code.Sections.{AreHeaded, told_text};

    /// A text that is no report, or the lines of one without connections.
    pub fn of_text(alloc: Global, text: Vec<u8>) -> Report
        ensures { result ≡ text.items }
    {
        Report {
            lines: text,
            headings: Vec::new(alloc),
            told: Vec::new(alloc),
            frames_shown: false,
            pages: Vec::new(alloc),
            entries: 0,
        }
    }

    /// The lines on a capture, and behind them sections of connections under these headings. So many workers spell
    /// them.
    pub fn new(
        alloc: Global,
        workers: u32,
        frames_shown: bool,
        lines: Vec<u8>,
        headings: Vec<SectionHeading>,
        told: Vec<Told>,
    ) -> Result<Report, AllocError>
        requires { AreHeaded 1 headings.items told.items }
        ensures { IfOk result (λ report. report
            ≡ lines.items ++ told_text frames_shown 1 headings.items told.items) }
    {
        let (count, entries) = pages_for(workers, told.as_slice());
        let pages = empty_pages(alloc, count, entries)?;
        Ok(Report {
            lines,
            headings,
            told,
            frames_shown,
            pages,
            entries,
        })
    }

    /// Writes the whole text and flushes once.
    ///
    /// An error is a write or the flush that failed. Then a prefix of the text was written, possibly all of it, and no
    /// call follows.
    pub fn write<R: Threads + Sync, W: Write>(
        self,
        rt: &R,
        writer: &mut ReportWriter<W>,
    ) -> Result<(), WriteFault>
        requires { IsUnwritten writer.old }
        ensures bytes { Appends (W.contents writer.old.writer) (W.contents writer.new.writer) (written writer.new) }
        ensures ok { OnOk result (written writer.new ≡ self) }
        ensures flushed { OnOk result (IsFlushed writer.new) }
        ensures err { OnErr result ((n : ℕ) × (written writer.new ≡ take n self)) }
        ensures failed { OnErr result (HasWriteFailed writer.new) }
    {
        self.write_all(rt, writer)?;
        writer.flush()
    }

    /// Writes the text.
    fn write_all<R: Threads + Sync, W: Write>(
        self,
        rt: &R,
        writer: &mut ReportWriter<W>,
    ) -> Result<(), WriteFault>
        ensures { HasWritten W.contents writer.old writer.new self result }
    {
        let mut report = self;
        let from = Cursor {
            frames_shown: report.frames_shown,
            k: 1,
            headings: report.headings.as_slice(),
            told: report.told.as_slice(),
            stretch: 0,
            at: 0,
        };
        write_text(
            rt,
            writer,
            report.lines.as_slice(),
            from,
            report.entries,
            report.pages.as_mut_slice(),
        )
    }

    /// The text, in memory as a whole.
    pub fn into_bytes<R: Threads + Sync>(self, rt: &R, alloc: Global) -> Result<Vec<u8>, AllocError>
        ensures { IfOk result (λ bytes. bytes.items ≡ self) }
    {
        let mut writer = ReportWriter::new(Vec::new(alloc));
        match self.write_all(rt, &mut writer) {
            Ok(()) => Ok(writer.into_writer()),
            Err(_) => Err(AllocError),
        }
    }
}
