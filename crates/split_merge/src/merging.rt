ghost use Rattle.std.specs.Prelude.{◌≡◌, ◌++◌, IfOk, not};
ghost use Rattle.std.specs.List.{flat_map};
ghost use Rattle.itertools.specs.List.{merge_by};
ghost use Rattle.audit_terms.specs.Finding.{comes_after, in_order, upto_stop};
ghost use Rattle.split_merge.specs.code.Findings.{findings_in};

use crate::findings::Findings;
use audit_terms::{Finding, cut_at_stop, put_in_order};
use itertools::Itertools;
use std::alloc::{AllocError, Global};

/// The findings of all lists in one, in order, up to and including the least that stops (RFC 9113, 5.4.1). Each list's
/// memory goes once its findings are taken.
pub(crate) fn merge(alloc: Global, lists: Vec<Vec<Finding>>) -> Result<Findings, AllocError>
    ensures { IfOk result (λ all. findings_in all
        ≡ upto_stop (in_order (flat_map (λ list. list.items) lists.items))) }
{
    let mut all = merged(alloc, lists)?;
    cut_at_stop(&mut all);
    Findings::of(alloc, all)
}

/// The findings of all lists in one, in order: those of one half of the lists, merged with those of the other half.
// A sort merges the rising runs of a half in a third of the instructions that merging them two by two takes.
fn merged(alloc: Global, mut lists: Vec<Vec<Finding>>) -> Result<Vec<Finding>, AllocError>
    ensures { IfOk result (λ all. all.items ≡ in_order (flat_map (λ list. list.items) lists.items)) }
{
    let half = lists.len() / 2;
    if half == 0 {
        return in_one_run(alloc, lists);
    }
    let others = in_one_run(alloc, lists.split_off(half)?)?;
    merged_runs(alloc, in_one_run(alloc, lists)?, others)
}

/// The findings of two runs that are in order: always the one next that stands first of both.
fn merged_runs(
    alloc: Global,
    found: Vec<Finding>,
    more: Vec<Finding>,
) -> Result<Vec<Finding>, AllocError>
    ensures { IfOk result (λ all. all.items ≡ merge_by (λ x y. not (comes_after x y)) found.items more.items) }
{
    found
        .into_iter()
        .merge_by(more, |x, y| !x.compare(y).is_gt())
        .collect(alloc)
}

/// The findings of lists, put in order in one.
fn in_one_run(alloc: Global, lists: Vec<Vec<Finding>>) -> Result<Vec<Finding>, AllocError>
    ensures { IfOk result (λ all. all.items ≡ in_order (flat_map (λ list. list.items) lists.items)) }
{
    let mut all = Vec::new(alloc);
    for list in lists {
        all = joined(all, list)?;
    }
    put_in_order(&mut all)?;
    Ok(all)
}

/// The findings of two lists. The second is not copied where the first is empty.
fn joined(mut all: Vec<Finding>, mut more: Vec<Finding>) -> Result<Vec<Finding>, AllocError>
    ensures { IfOk result (λ both. both.items ≡ all.items ++ more.items) }
{
    if all.is_empty() {
        return Ok(more);
    }
    all.append(&mut more)?;
    Ok(all)
}
