//! How a text is written.

ghost use Rattle.std.specs.Prelude.{◌≡◌, ◌++◌, All, length};
ghost use Rattle.std.specs.List.{concat, flat_map};
ghost use Rattle.report_pages.specs.code.Entries.{IsCursor, entries_at};
ghost use Rattle.report_pages.specs.code.Pages.{ArePages, HoldsEntries};
ghost use Rattle.report_pages.specs.code.Written.{HasWritten};

use crate::cursors::Cursor;
use crate::filling::fill_pages;
use input_output::{ReportWriter, WriteFault};
use std::io::Write;
use std::thread::Threads;

/// Writes bytes. No write comes after one that failed.
fn write_bytes<W: Write>(writer: &mut ReportWriter<W>, bytes: &[u8]) -> Result<(), WriteFault>
    ensures { HasWritten W.contents writer.old writer.new bytes.now result }
{
    let mut at = 0;
    while at < bytes.len() {
        let (_, left) = bytes.split_at(at);
        at += writer.write(left)?;
    }
    Ok(())
}

/// Writes pages, one after the other.
fn write_pages<W: Write>(writer: &mut ReportWriter<W>, pages: &[Vec<u8>]) -> Result<(), WriteFault>
    ensures { HasWritten W.contents writer.old writer.new (flat_map (λ page. page.items) pages.now) result }
{
    for page in pages {
        write_bytes(writer, page.as_slice())?;
    }
    Ok(())
}

/// Writes the entries from a cursor on: fills and writes all pages, and fills them again.
pub(crate) fn write_entries<R: Threads + Sync, W: Write>(
    rt: &R,
    writer: &mut ReportWriter<W>,
    from: Cursor<'_>,
    entries: usize,
    pages: &mut [Vec<u8>],
) -> Result<(), WriteFault>
    requires cursor { IsCursor from }
    requires pages { ArePages entries from.told.now pages.old }
    ensures written { HasWritten W.contents writer.old writer.new (concat (entries_at from.entry)) result }
    ensures room { All (HoldsEntries entries) pages.new }
    ensures same { length pages.new ≡ length pages.old }
{
    let mut cursor = from;
    while !cursor.is_done() {
        fill_pages(rt, cursor, entries, pages);
        write_pages(writer, pages)?;
        cursor = cursor.skip(entries * pages.len());
    }
    Ok(())
}

/// Writes a text, and then the entries from a cursor on.
pub(crate) fn write_text<R: Threads + Sync, W: Write>(
    rt: &R,
    writer: &mut ReportWriter<W>,
    text: &[u8],
    from: Cursor<'_>,
    entries: usize,
    pages: &mut [Vec<u8>],
) -> Result<(), WriteFault>
    requires cursor { IsCursor from }
    requires pages { ArePages entries from.told.now pages.old }
    ensures written { HasWritten W.contents writer.old writer.new (text.now ++ concat (entries_at from.entry)) result }
    ensures room { All (HoldsEntries entries) pages.new }
    ensures same { length pages.new ≡ length pages.old }
{
    write_bytes(writer, text)?;
    write_entries(rt, writer, from, entries, pages)
}
