ghost use Rattle.std.specs.Prelude.{◌≡◌, ◌&&◌, ℤ, pos, neg_ℤ, ◌-ℤ◌, ◌<ℤ◌, ◌≤ℤ◌, int_lt, int_le, List};
ghost use Rattle.std.specs.Bool.{OnTrue};
ghost use Rattle.audit_terms.specs.Window.{largest_window};
ghost use Rattle.audit_terms.specs.declared.items.Item.{Item};
ghost use Rattle.conn_scan.specs.code.ConnSum.{conn_sum_of};
ghost use Rattle.conn_scan.specs.code.Clear.{is_usable, is_clear};
ghost use Rattle.conn_scan.specs.code.Cleared.{credit_clear, ids_clear, push_clear, length_clear, sum_clear};

use crate::credits::Credit;
use crate::latest::Latest;
use crate::rising::Rising;
use crate::sums::ConnSum;
use audit_terms::{ConnectionState, LARGEST_WINDOW};

/// Can a block show nothing but connection credit, by its summary? Both credits stay above 0 and at most 2^31 - 1 on
/// entry and after every item; no increment of 0 stands on stream 0; opened streams rise past those before; promises
/// are allowed and rise; no frame is longer than the least limit of its side (RFC 9113, 4.2, 5.1.1, 6.9, 8.4).
#[tactic(auto, using(crate::proofs::ClearLemmas::clear_same))]
pub fn clear(before: &ConnectionState, sum: &ConnSum) -> bool
    ensures { (items : List Item) → sum.now ≡ conn_sum_of items → result ≡ is_clear before.now items }
{
    is_sum_clear(before, sum)
}

/// Do the numbers of a summary tell that its block shows nothing but connection credit?
fn is_sum_clear(before: &ConnectionState, sum: &ConnSum) -> bool
    ensures { result ≡ sum_clear before.now sum.now }
{
    let latest = &sum.latest;
    let credits = keeps_credit(before.credit.client, &sum.credit.client)
        & keeps_credit(before.credit.server, &sum.credit.server);
    let openings = !latest.zero_grant & rise_past(before.opened, &sum.opened);
    let promises = allows_promises(before.push, latest)
        & (rise_past(before.promised, &sum.promised) & !latest.odd_promise);
    let lengths = is_length_kept(
        before.limit.client,
        latest.longest.client,
        latest.least.client,
    ) & is_length_kept(
        before.limit.server,
        latest.longest.server,
        latest.least.server,
    );
    (credits & openings) & (promises & lengths)
}

/// Is the credit above 0 and at most 2^31 - 1 before the changes of a summary and after each of them?
fn keeps_credit(credit: i64, changes: &Credit) -> bool
    ensures { result ≡ credit_clear credit changes.now }
{
    is_usable(credit) && extremes_usable(credit, changes)
}

/// Is a credit above 0 and at most 2^31 - 1?
fn is_usable(credit: i64) -> bool
    ensures value { result ≡ is_usable credit }
    ensures above { OnTrue result (pos 0 <ℤ credit) }
    ensures below { OnTrue result (credit ≤ℤ largest_window) }
{
    credit > 0 && credit <= i64::from(LARGEST_WINDOW)
}

/// Is the least credit that the changes of a summary reach above 0, and the greatest at most 2^31 - 1?
fn extremes_usable(credit: i64, changes: &Credit) -> bool
    requires above { pos 0 <ℤ credit }
    requires below { credit ≤ℤ largest_window }
    ensures { result ≡ (int_lt (neg_ℤ credit) changes.now.low && int_le changes.now.high (largest_window -ℤ credit)) }
{
    least_usable(credit, changes) && greatest_usable(credit, changes)
}

#[tactic(auto, using(std::proofs::lemmas::Int::ints))]
fn least_usable(credit: i64, changes: &Credit) -> bool
    requires { pos 0 <ℤ credit }
    ensures { result ≡ int_lt (neg_ℤ credit) changes.now.low }
{
    -credit < changes.low
}

#[tactic(auto, using(std::proofs::lemmas::Int::ints))]
fn greatest_usable(credit: i64, changes: &Credit) -> bool
    requires above { pos 0 <ℤ credit }
    requires below { credit ≤ℤ largest_window }
    ensures { result ≡ int_le changes.now.high (largest_window -ℤ credit) }
{
    changes.high <= i64::from(LARGEST_WINDOW) - credit
}

/// Do the identifiers rise, and all stand above one?
fn rise_past(before: u32, ids: &Rising) -> bool
    ensures { result ≡ ids_clear before ids.now }
{
    ids.none || (before < ids.least && ids.rises)
}

/// Does no promise stand where ENABLE_PUSH is 0, in force before or brought by the items?
fn allows_promises(push: u32, latest: &Latest) -> bool
    ensures { result ≡ push_clear push latest.now }
{
    !(latest.early_promise && push == 0) && !latest.barred_promise
}

/// Is a length at most the limit before, and at most the least that comes, if one does?
fn is_length_kept(limit: u32, longest: u32, least: Option<u32>) -> bool
    ensures { result ≡ length_clear limit longest least }
{
    longest <= limit
        && match least {
            Some(least) => longest <= least,
            None => true,
        }
}
