//! Entries: what a page has whole or not at all. These are the opening of a section with its three lines, and each line
//! of a finding, of a stall or of the end of an audit. Those of one kind that follow each other make a stretch.

ghost use Rattle.std.specs.Prelude.{◌≡◌, ◌<◌, ◌≤◌, ◌+◌, ◌-◌, ◌∷◌, ◌++◌, [], ℕ, Bool, List, drop, length, slice_get};
ghost use Rattle.std.specs.Prelude.{map, slice_index_or, take};
ghost use Rattle.std.specs.List.{concat, flat_map};
ghost use Rattle.audit_report.specs.code.Pages.{Adds, HasRoom};
ghost use Rattle.audit_terms.specs.code.TimedFindings.{finding_in};
ghost use Rattle.audit_terms.specs.code.runs.Orderly.{IsOrderly};
ghost use Rattle.audit_terms.specs.declared.findings.Finding.{Finding as FindingTerm};
ghost use Rattle.report_pages.specs.code.Entries.{IsOrderlyStretch, IsPiece, audited_stretches};
ghost use Rattle.report_pages.specs.code.Entries.{entries_of, found_stretches, section_stretches};
ghost use Rattle.audit_report.specs.EndLine.{end_line_after};
ghost use Rattle.audit_report.specs.code.Contents.{opening_text};
ghost use Rattle.report_pages.specs.code.Reach.{extents_in};
ghost use Rattle.report_pages.specs.code.Told.{HasOrderlyOutcome, contents_in};

use crate::reach::Reach;
use crate::told::{AuditedFrames, FoundFrames, Outcome, Told, contents_in};
use audit_report::{
    SectionHeading, Stall, add_end_line, add_finding_lines, add_opening, add_stall_lines,
    add_timed_lines,
};
use audit_terms::{Finding, Frame, TimedFinding};

/// Entries of one kind that follow each other.
#[derive(Clone, Copy)]
pub(crate) enum Stretch<'a> {
    /// The opening of a connection's section: its number, counted from 1, and what is told of it.
    Opening(u64, &'a SectionHeading, &'a Told),
    /// A line for each of these findings in these frames, if it is shown.
    Findings(&'a [Finding], &'a [Frame]),
    /// A line for each of these findings, if it is shown.
    Timed(&'a [TimedFinding]),
    /// A line for each stall.
    Stalls(&'a [Stall]),
    /// The line on the end of an audit with these findings, list after list.
    End(&'a [Vec<Finding>]),
    /// The line on the end of an audit with these findings.
    TimedEnd(&'a [TimedFinding]),
}

impl Stretch<'_> {
    /// How many entries it has.
    pub(crate) fn len(&self) -> usize
        ensures { (frames_shown : Bool) → result ≡ length (entries_of frames_shown self.now) }
    {
        match self {
            Stretch::Findings(findings, _) => findings.len(),
            Stretch::Timed(findings) => findings.len(),
            Stretch::Stalls(stalls) => stalls.len(),
            _ => 1,
        }
    }
}

/// How many stretches the section of a connection has.
pub(crate) fn count_stretches(told: &Told) -> usize
    ensures { (frames_shown : Bool) (k : ℕ) (heading : _)
        → result ≡ length (section_stretches frames_shown k heading told.now) }
{
    match &told.outcome {
        Outcome::Quiet(_) => 2,
        Outcome::Found(_) => 4,
        Outcome::Audited(audited) => count_with(audited),
        _ => 1,
    }
}

/// How many stretches the section of a connection has of which this was found.
fn count_with(audited: &AuditedFrames) -> usize
    ensures { (frames_shown : Bool) → result ≡ length (audited_stretches frames_shown audited.now) + 1 }
{
    audited.findings.lists.len() + 3
}

/// One stretch of the section of a connection.
pub(crate) fn stretch_of<'a>(
    k: u64,
    heading: &'a SectionHeading,
    told: &'a Told,
    index: usize,
) -> Stretch<'a>
    requires orderly { HasOrderlyOutcome told.now.outcome }
    requires within { (frames_shown : Bool) → index < length (section_stretches frames_shown k heading.now told.now) }
    ensures entries { (frames_shown : Bool) → entries_of frames_shown result
        ≡ slice_index_or (section_stretches frames_shown k heading.now told.now) index
        (entries_of frames_shown result) }
    ensures orderly { IsOrderlyStretch result }
{
    if index == 0 {
        return Stretch::Opening(k, heading, told);
    }
    match &told.outcome {
        Outcome::Found(found) => found_stretch(found, index - 1),
        Outcome::Audited(audited) => audited_stretch(audited, index - 1),
        _ => Stretch::End(&[]),
    }
}

/// One stretch behind the opening of a section of HTTP/2 of which this was found.
fn found_stretch(found: &FoundFrames, index: usize) -> Stretch<'_>
    requires within { (frames_shown : Bool) → index < length (found_stretches frames_shown found.now) }
    ensures entries { (frames_shown : Bool) → entries_of frames_shown result
        ≡ slice_index_or (found_stretches frames_shown found.now) index (entries_of frames_shown result) }
    ensures orderly { IsOrderlyStretch result }
{
    match index {
        0 => Stretch::Timed(found.findings.as_slice()),
        1 => Stretch::Stalls(found.stalls.as_slice()),
        _ => Stretch::TimedEnd(found.findings.as_slice()),
    }
}

/// The last of these findings.
fn last_found(findings: &[TimedFinding]) -> Option<Finding>
    ensures { result ≡ slice_get (map finding_in findings.now) (length (map finding_in findings.now) - 1) }
{
    let last = findings.last()?;
    Some(last.finding())
}

/// One stretch behind the opening of a section of HTTP/2.
fn audited_stretch<'a>(audited: &'a AuditedFrames, index: usize) -> Stretch<'a>
    requires orderly { IsOrderly audited.now.frames.items }
    requires within { (frames_shown : Bool) → index < length (audited_stretches frames_shown audited.now) }
    ensures entries { (frames_shown : Bool) → entries_of frames_shown result
        ≡ slice_index_or (audited_stretches frames_shown audited.now) index (entries_of frames_shown result) }
    ensures orderly { IsOrderlyStretch result }
{
    let lists = audited.findings.lists.as_slice();
    if let Some(list) = lists.get(index) {
        return Stretch::Findings(list.as_slice(), audited.frames.as_slice());
    }
    if index == lists.len() {
        Stretch::Stalls(audited.stalls.as_slice())
    } else {
        Stretch::End(lists)
    }
}

/// The last finding of lists that follow each other.
fn last_of(lists: &[Vec<Finding>]) -> Option<Finding>
    ensures { result ≡ slice_get (flat_map (λ list. list.items) lists.now)
        (length (flat_map (λ list. list.items) lists.now) - 1) }
{
    let mut last = None;
    for list in lists {
        last = last_behind(last, list.as_slice());
    }
    last
}

/// The last finding, where this is the last of those before a list.
#[tactic(auto, using(crate::proofs::Standing::last_of_both))]
fn last_behind(last: Option<Finding>, list: &[Finding]) -> Option<Finding>
    ensures { (before : List FindingTerm) → last ≡ slice_get before (length before - 1)
        → result ≡ slice_get (before ++ list.now) (length (before ++ list.now) - 1) }
{
    if list.is_empty() {
        return last;
    }
    list.last().copied()
}

/// Consecutive entries of a stretch, from one index up to another.
#[derive(Clone, Copy)]
pub(crate) struct Piece<'a> {
    pub(crate) stretch: Stretch<'a>,
    pub(crate) from: usize,
    pub(crate) to: usize,
}

/// Appends the entries of a stretch, from one index up to another, to a page.
pub(crate) fn add_piece(
    page: &mut Vec<u8>,
    frames_shown: bool,
    stretch: Stretch<'_>,
    from: usize,
    to: usize,
)
    requires piece { IsPiece frames_shown (record { stretch = stretch; from = from; to = to }) }
    requires room { HasRoom (to - from) page.old }
    ensures { Adds (to - from) (concat (take (to - from) (drop from (entries_of frames_shown stretch.entry))))
        page.old page.new }
{
    match stretch {
        Stretch::Findings(findings, frames) => {
            add_finding_lines(page, &findings[from..to], frames, frames_shown);
        }
        Stretch::Timed(findings) => add_timed_lines(page, &findings[from..to], frames_shown),
        Stretch::Stalls(stalls) => add_stall_lines(page, &stalls[from..to]),
        Stretch::Opening(k, heading, told) => {
            add_opening_from(page, k, heading, told, from, to);
        }
        Stretch::End(lists) => add_end_from(page, last_of(lists), from, to),
        Stretch::TimedEnd(findings) => add_end_from(page, last_found(findings), from, to),
    }
}

/// Appends the opening of the k-th connection's section to a page, if it is among the entries from one index up to
/// another.
fn add_opening_from(
    page: &mut Vec<u8>,
    k: u64,
    heading: &SectionHeading,
    told: &Told,
    from: usize,
    to: usize,
)
    requires within { (from ≤ to) × (to ≤ 1) }
    requires room { HasRoom (to - from) page.old }
    ensures { Adds (to - from) (concat (take (to - from) (drop from
        (opening_text k heading.now (extents_in told.now.reach) (contents_in told.now.outcome) ∷ []))))
        page.old page.new }
{
    if from == to {
        return;
    }
    let extents = Reach::extents(&told.reach);
    add_opening(page, k, *heading, &extents, contents_in(&told.outcome));
}

/// Appends the line on the end of an audit, if it is among the entries from one index up to another.
fn add_end_from(page: &mut Vec<u8>, last: Option<Finding>, from: usize, to: usize)
    requires within { (from ≤ to) × (to ≤ 1) }
    requires room { HasRoom (to - from) page.old }
    ensures { Adds (to - from) (concat (take (to - from) (drop from (end_line_after last ∷ []))))
        page.old page.new }
{
    if from == to {
        return;
    }
    add_end_line(page, last);
}
