//! How many pages there are, and what they have room for.

ghost use Rattle.std.specs.Prelude.{◌≡◌, ◌<◌, ◌^◌, All, IfOk, length};
ghost use Rattle.report_pages.specs.code.Pages.{HoldsEntries};

use crate::told::{AuditedFrames, Outcome, Told};
use audit_report::LINE_ROOM;
use std::alloc::{AllocError, Global};

/// How many entries a page has with one worker: some 100 kilobytes of text, which stay in the processor's cache.
///
/// Measured, a quarter or four times as many took as long, within 2 % for a report of 1.5 million lines.
const ENTRIES_OF_ONE: usize = 1 << 10;

/// How many entries a page has with several workers, each of which fills one at a time: a thread is started for each.
///
/// Measured, half as many took 2 to 6 % longer with four workers, and twice or four times as many as long. Memory is
/// reserved for each entry.
const ENTRIES_OF_EACH: usize = 1 << 12;

/// So many entries or more are worth a thread: its start takes as long as to spell some hundred lines.
const ENTRIES_WORTH_A_THREAD: usize = 1 << 10;

/// How many entries all sections have, or as many as can be counted.
fn count_entries(told: &[Told]) -> usize {
    let mut all = 0usize;
    for one in told {
        all = all.saturating_add(count_of(&one.outcome));
    }
    all
}

/// How many entries the section of a connection has.
fn count_of(outcome: &Outcome) -> usize {
    match outcome {
        Outcome::Quiet(_) => 2,
        Outcome::Found(found) => found
            .stalls
            .len()
            .saturating_add(found.findings.len())
            .saturating_add(2),
        Outcome::Audited(audited) => count_in(audited),
        _ => 1,
    }
}

/// How many entries the section of a connection has of which this was found.
fn count_in(audited: &AuditedFrames) -> usize {
    let mut count = audited.stalls.len().saturating_add(2);
    for list in &audited.findings.lists {
        count = count.saturating_add(list.len());
    }
    count
}

/// How many pages so many workers fill side by side with the entries of all sections, and how many entries each has.
pub(crate) fn pages_for(workers: u32, told: &[Told]) -> (usize, usize)
    ensures some { (0 < result.0) × (0 < result.1) }
    ensures few { (result.0 < 2 ^ 32) × (result.1 < 2 ^ 13) }
{
    let all = count_entries(told);
    let pages = (workers as usize).min(all / ENTRIES_WORTH_A_THREAD);
    if pages < 2 {
        return (1, all.clamp(1, ENTRIES_OF_ONE));
    }
    (pages, (all / pages + 1).min(ENTRIES_OF_EACH))
}

/// So many empty pages, with room for so many entries each.
pub(crate) fn empty_pages(
    alloc: Global,
    count: usize,
    entries: usize,
) -> Result<Vec<Vec<u8>>, AllocError>
    requires { entries < 2 ^ 13 }
    ensures room { IfOk result (λ pages. All (HoldsEntries entries) pages.items) }
    ensures count { IfOk result (λ pages. length pages.items ≡ count) }
{
    let mut pages = Vec::with_capacity(alloc, count)?;
    for _ in 0..count {
        pages.push(Vec::with_capacity(alloc, entries * LINE_ROOM)?)?;
    }
    Ok(pages)
}
