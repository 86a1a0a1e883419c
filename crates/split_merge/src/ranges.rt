//! Several workers merge many findings: each sorts those of a range of places. In a list that is in order, the findings
//! of a range are a slice; with any other list, the ranges are found not to follow each other, and then one worker
//! sorts all.

ghost use Rattle.std.specs.Prelude.{◌≡◌, ◌<◌, ◌≤◌, ◌++◌, if◌then◌else◌, IfOk, Some, length};
ghost use Rattle.std.specs.List.{flat_map};
ghost use Rattle.audit_terms.specs.declared.findings.Finding.{Finding as FindingTerm};
ghost use Rattle.audit_terms.specs.Finding.{in_order, upto_stop};
ghost use Rattle.split_merge.specs.code.Findings.{findings_in};
ghost use Rattle.split_merge.specs.code.Ranges.{AreInTurn, AreMerged, AreParted, BeginsWith, EndsWith, all_in};

use crate::findings::Findings;
use crate::merging::merge;
use audit_terms::{Finding, Place, cut_at_stop, put_in_order};
use std::alloc::{AllocError, Global};
use std::thread::{Threads, join};

/// One worker merges fewer findings: for these a thread costs more than it spares. Measured, with a million credits of
/// one connection their merge by one worker took a fifth of the whole time.
const SHARED_FINDINGS: usize = 1 << 14;

/// One in so many findings of a list is sampled, to tell where ranges end. (Measured: bench/README.md, Thresholds.)
const FINDINGS_PER_SAMPLE: usize = 1 << 8;

/// The findings of all lists in order, up to and including the least that stops (RFC 9113, 5.4.1), by so many workers.
///
/// If there are many, each worker makes one list, that of a range of places. Where a list is not in order itself, one
/// worker may have to sort all.
pub fn merge_by<R: Threads>(
    rt: &R,
    alloc: Global,
    workers: u32,
    lists: Vec<Vec<Finding>>,
) -> Result<Findings, AllocError>
    ensures { IfOk result (λ all. findings_in all
        ≡ upto_stop (in_order (flat_map (λ list. list.items) lists.items))) }
{
    if workers < 2 || are_few(lists.as_slice()) {
        return merge(alloc, lists);
    }
    let slices = slices_of(alloc, lists.as_slice())?;
    in_ranges(rt, alloc, workers, slices.as_slice())
}

/// Are there so few findings that one worker merges them?
fn are_few(lists: &[Vec<Finding>]) -> bool {
    let mut count: usize = 0;
    for list in lists {
        count = count.saturating_add(list.len());
    }
    count < SHARED_FINDINGS
}

/// The lists as slices.
fn slices_of<'a>(alloc: Global, lists: &'a [Vec<Finding>]) -> Result<Vec<&'a [Finding]>, AllocError>
    ensures { IfOk result (λ slices. all_in slices.items ≡ flat_map (λ list. list.items) lists.now) }
{
    let mut slices = Vec::with_capacity(alloc, lists.len())?;
    for list in lists {
        slices.extend_from_slice(&[list.as_slice()])?;
    }
    Ok(slices)
}

/// All findings of slices, in order and up to the least that stops, by so many workers: each on a thread of its own,
/// while this one starts them and waits (docs/DECISIONS.md, D-121).
fn in_ranges<R: Threads>(
    rt: &R,
    alloc: Global,
    workers: u32,
    slices: &[&[Finding]],
) -> Result<Findings, AllocError>
    ensures { IfOk result (λ all. findings_in all ≡ upto_stop (in_order (all_in slices.now))) }
{
    let rest = workers.saturating_sub(1);
    if rest == 0 {
        return in_range_apart(rt, alloc, slices);
    }
    let Some(last) = place_within(alloc, slices, workers)? else {
        return in_one_range(alloc, slices);
    };
    let (fronts, backs) = parted(alloc, slices, last)?;
    let (fronts, backs) = (fronts.as_slice(), backs.as_slice());
    let (one, other) = join(
        rt,
        || -> Result<Findings, AllocError>
            ensures { IfOk result (λ all. findings_in all ≡ upto_stop (in_order (all_in fronts.entry.now))) }
        { in_one_range(alloc, fronts) },
        || -> Result<Findings, AllocError>
            requires { 0 < rest }
            ensures { IfOk result (λ all. findings_in all ≡ upto_stop (in_order (all_in backs.entry.now))) }
        { in_ranges(rt, alloc, rest, backs) },
    );
    both_ranges(alloc, one?, other?)
}

/// [`in_one_range`] on a thread of its own, while this one waits.
fn in_range_apart<R: Threads>(
    rt: &R,
    alloc: Global,
    slices: &[&[Finding]],
) -> Result<Findings, AllocError>
    ensures { IfOk result (λ all. findings_in all ≡ upto_stop (in_order (all_in slices.now))) }
{
    let (all, ()) = join(
        rt,
        || -> Result<Findings, AllocError>
            ensures { IfOk result (λ all. findings_in all ≡ upto_stop (in_order (all_in slices.entry.now))) }
        { in_one_range(alloc, slices) },
        || (),
    );
    all
}

/// The place of a finding up to which about one in so many of the findings lie, if there are findings.
fn place_within(
    alloc: Global,
    slices: &[&[Finding]],
    parts: u32,
) -> Result<Option<Place>, AllocError> {
    let mut places = Vec::new(alloc);
    for slice in slices {
        for chunk in slice.chunks(FINDINGS_PER_SAMPLE) {
            if let Some(first) = chunk.first() {
                places.push(first.place)?;
            }
        }
    }
    places.sort_unstable();
    let at = places.len() / parts.max(1) as usize;
    Ok(places.get(at).copied())
}

/// Each slice in two: the findings up to a place, and those behind it.
fn parted<'a>(
    alloc: Global,
    slices: &[&'a [Finding]],
    last: Place,
) -> Result<(Vec<&'a [Finding]>, Vec<&'a [Finding]>), AllocError>
    ensures { IfOk result (AreParted slices.now) }
{
    let mut fronts = Vec::with_capacity(alloc, slices.len())?;
    let mut backs = Vec::with_capacity(alloc, slices.len())?;
    for slice in slices {
        let (front, back) = slice.split_at(count_up_to(*slice, last));
        fronts.extend_from_slice(&[front])?;
        backs.extend_from_slice(&[back])?;
    }
    Ok((fronts, backs))
}

/// How many findings of a slice stand at a place or before it.
fn count_up_to(slice: &[Finding], last: Place) -> usize
    ensures { result ≤ length slice.now }
{
    slice.partition_point(|one| one.place <= last)
}

/// All findings of slices in one list, in order and up to the least that stops.
fn in_one_range(alloc: Global, slices: &[&[Finding]]) -> Result<Findings, AllocError>
    ensures { IfOk result (λ all. findings_in all ≡ upto_stop (in_order (all_in slices.now))) }
{
    let mut all = Vec::with_capacity(alloc, count_in(slices))?;
    for slice in slices {
        all.extend_from_slice(*slice)?;
    }
    put_in_order(&mut all)?;
    cut_at_stop(&mut all);
    Findings::of(alloc, all)
}

/// How many findings there are in slices.
fn count_in(slices: &[&[Finding]]) -> usize {
    let mut count: usize = 0;
    for slice in slices {
        count = count.saturating_add(slice.len());
    }
    count
}

/// The findings of two ranges. Where those of the second stand behind those of the first, no finding is moved.
fn both_ranges(alloc: Global, one: Findings, other: Findings) -> Result<Findings, AllocError>
    requires one { AreMerged (findings_in one) }
    requires other { AreMerged (findings_in other) }
    ensures { IfOk result (λ all. findings_in all
        ≡ upto_stop (in_order (findings_in one ++ findings_in other))) }
{
    let Some(last) = last_in_turn(&one, &other) else {
        let both = behind(one, other, false)?;
        return merge(alloc, both.lists);
    };
    behind(one, other, last.stops())
}

/// The findings of the first range, and those of the second behind them unless the first has ended the audit.
fn behind(one: Findings, mut other: Findings, has_ended: bool) -> Result<Findings, AllocError>
    ensures { IfOk result (λ all. findings_in all
        ≡ (if has_ended then findings_in one else findings_in one ++ findings_in other)) }
{
    let mut all = one;
    if !has_ended {
        all.lists.append(&mut other.lists)?;
    }
    Ok(all)
}

/// The last finding of the first range, if it does not stand behind the first one of the second.
fn last_in_turn(one: &Findings, other: &Findings) -> Option<Finding>
    ensures { (last : FindingTerm) → result ≡ Some last
        → AreInTurn (findings_in one.now) last (findings_in other.now) }
{
    let last = last_in(one)?;
    let first = first_in(other)?;
    (!last.compare(&first).is_gt()).then_some(last)
}

/// The last finding, if its list is not empty.
fn last_in(found: &Findings) -> Option<Finding>
    ensures { (last : FindingTerm) → result ≡ Some last → EndsWith (findings_in found.now) last }
{
    let (list, _) = found.lists.split_last()?;
    let (last, _) = list.split_last()?;
    Some(*last)
}

/// The first finding, if its list is not empty.
fn first_in(found: &Findings) -> Option<Finding>
    ensures { (first : FindingTerm) → result ≡ Some first → BeginsWith (findings_in found.now) first }
{
    let (list, _) = found.lists.split_first()?;
    let (first, _) = list.split_first()?;
    Some(*first)
}
