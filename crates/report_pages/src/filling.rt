//! Pages, and how workers fill them with entries side by side.

ghost use Rattle.std.specs.Prelude.{All, take};
ghost use Rattle.std.specs.List.{concat};
ghost use Rattle.audit_report.specs.code.Pages.{Adds, HasRoom};
ghost use Rattle.report_pages.specs.code.Entries.{IsCursor, entries_at};
ghost use Rattle.report_pages.specs.code.Pages.{AreFilled, HoldsEntries, IsFilled};

use crate::cursors::Cursor;
use crate::stretches::{Piece, add_piece};
use std::mem;
use std::thread::{Threads, join_mut};

/// Appends at most so many entries, from a cursor on, to a page.
pub(crate) fn fill(page: &mut Vec<u8>, from: Cursor<'_>, entries: usize)
    requires cursor { IsCursor from }
    requires room { HasRoom entries page.old }
    ensures { Adds entries (concat (take entries (entries_at from.entry))) page.old page.new }
{
    let frames_shown = from.frames_shown;
    let mut cursor = from;
    let mut left = entries;
    while 0 < left && !cursor.is_done() {
        let (piece, behind) = cursor.step(left);
        let Piece { stretch, from, to } = piece;
        left -= to - from;
        add_piece(page, frames_shown, stretch, from, to);
        cursor = behind;
    }
}

/// Fills a page with the entries from a cursor on, in place of what it had.
fn fill_page(page: &mut Vec<u8>, from: Cursor<'_>, entries: usize)
    requires cursor { IsCursor from }
    requires room { HoldsEntries entries page.old }
    ensures { IsFilled from.entry entries page.new }
{
    // Pages lie side by side: several processors would share a cache line of their lengths, which change with each
    // line. Measured, four workers then took as long as one.
    let mut own = Vec::new(*page.allocator());
    mem::swap(page, &mut own);
    own.clear();
    fill(&mut own, from, entries);
    mem::swap(page, &mut own);
}

/// Fills pages with the entries from a cursor on, so many each, in place of what they had. If there are several, a
/// thread fills each of them.
pub(crate) fn fill_pages<R: Threads>(
    rt: &R,
    from: Cursor<'_>,
    entries: usize,
    pages: &mut [Vec<u8>],
)
    requires cursor { IsCursor from }
    requires room { All (HoldsEntries entries) pages.old }
    ensures { AreFilled from.entry entries pages.old pages.new }
{
    let Some((page, others)) = pages.split_first_mut() else {
        return;
    };
    if others.is_empty() {
        fill_page(page, from, entries);
    } else {
        fill_beside(rt, entries, from, page, from.skip(entries), others);
    }
}

/// Fills each of these pages by a thread of its own, while this one starts them and waits (docs/DECISIONS.md, D-121).
#[cycle(pages)]
fn fill_apart<R: Threads>(rt: &R, from: Cursor<'_>, entries: usize, pages: &mut [Vec<u8>])
    requires cursor { IsCursor from }
    requires room { All (HoldsEntries entries) pages.old }
    ensures { AreFilled from.entry entries pages.old pages.new }
{
    let Some((page, others)) = pages.split_first_mut() else {
        return;
    };
    fill_beside(rt, entries, from, page, from.skip(entries), others);
}

/// Fills a page by a thread, and those behind it each by another one.
#[cycle(pages)]
fn fill_beside<R: Threads>(
    rt: &R,
    entries: usize,
    from: Cursor<'_>,
    page: &mut Vec<u8>,
    behind: Cursor<'_>,
    others: &mut [Vec<u8>],
)
    requires from { IsCursor from }
    requires page { HoldsEntries entries page.old }
    requires behind { IsCursor behind }
    requires others { All (HoldsEntries entries) others.old }
    ensures page { IsFilled from.entry entries page.new }
    ensures others { AreFilled behind.entry entries others.old others.new }
{
    let mut first = ||
        requires { IsCursor from × HoldsEntries entries page.now }
        ensures { IsFilled from.entry entries page.exit.now }
    { fill_page(page, from, entries) };
    let mut rest = ||
        requires { IsCursor behind × All (HoldsEntries entries) others.now }
        ensures { AreFilled behind.entry entries others.entry.now others.exit.now }
    { fill_apart(rt, behind, entries, others) };
    join_mut(rt, &mut first, &mut rest);
}
