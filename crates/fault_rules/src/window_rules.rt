//! What a step shows of one side's window on a stream, and what it makes of it (RFC 9113, 6.9).

ghost use Rattle.std.specs.Prelude.{◌≡◌, ℕ, ◌+◌, ◌-◌, ◌^◌, ◌<◌, ◌≤◌, ◌++◌, pos, ◌+ℤ◌, ◌-ℤ◌, nat_lt, ◌&&◌, None};
ghost use Rattle.std.specs.Prelude.{if◌then◌else◌, IfOk, OnOk};
ghost use Rattle.std.specs.Bool.{OnTrue};
ghost use Rattle.audit_terms.specs.Change.{new_initial};
ghost use Rattle.audit_terms.specs.Finding.{say_of};
ghost use Rattle.audit_terms.specs.Frame.{content_by, grant_to};
ghost use Rattle.audit_terms.specs.Window.{is_used_up, overflows};
ghost use Rattle.audit_terms.specs.Stream.{step_amount, window_after, window_at_opening, window_step, live_window_said};
ghost use Rattle.audit_terms.specs.Stream.{opened_window_said};
ghost use Rattle.audit_terms.specs.code.runs.Streams.{IsAcknowledged};
ghost use Rattle.audit_terms.specs.code.Room.{HasRoom, WindowHasRoom};
ghost use Rattle.fault_rules.specs.code.StreamSteps.{credit_after_step};
ghost use Rattle.fault_rules.specs.code.Unmoved.{LeavesStream, LeavesWindow};

use crate::spots::{Spot, say_each};
use audit_terms::{Count, Finding, Frame, Kind, Side, Sides, Step, new_initial};
use std::alloc::AllocError;

/// A step as the window of one side on a stream meets it.
#[derive(Clone, Copy)]
pub(crate) struct WindowStep<'a> {
    pub(crate) side: Side,
    pub(crate) stream: u32,
    /// The initial windows in force before the step.
    pub(crate) initial: &'a Sides<u32>,
    pub(crate) step: &'a Step,
    // Within what a `Place` holds.
    pub(crate) ghost numbered: { step.now.number ≤ 2 ^ 28 - 2 },
    pub(crate) ghost streamed: { stream < 2 ^ 31 },
}

impl WindowStep<'_> {
    /// Where its findings stand.
    fn spot(&self) -> Spot
        ensures side { result.side ≡ self.now.side }
        ensures number { result.number ≡ self.now.step.now.number }
        ensures stream { result.stream ≡ self.now.stream }
    {
        Spot {
            side: self.side,
            number: self.step.number,
            stream: self.stream,
        }
    }
}

/// Says what a step shows of a window, and brings the window to its state after the step: `None` is a window that is
/// not live. `opens` tells whether the step opens the stream.
pub(crate) fn say_window(
    found: &mut Vec<Finding>,
    window: &mut Option<i64>,
    opens: bool,
    met: &WindowStep<'_>,
) -> Result<(), AllocError>
    requires acknowledged { IsAcknowledged met.now.step.now }
    requires room { WindowHasRoom (2 ^ 60) window.old }
    ensures said { OnOk result (found.new.items ≡ found.old.items
        ++ (if opens
        then say_of (opened_window_said met.now.side met.now.stream met.now.step.now)
        (window_at_opening met.now.side met.now.stream met.now.initial.now met.now.step.now)
        else say_of (λ before. live_window_said met.now.side met.now.stream met.now.step.now
        (window_step met.now.side met.now.stream met.now.initial.now met.now.step.now before))
        window.old)) }
    ensures window { OnOk result (window.new
        ≡ (if opens then window_at_opening met.now.side met.now.stream met.now.initial.now met.now.step.now
        else window_after met.now.side met.now.stream met.now.initial.now met.now.step.now window.old)) }
    ensures room { OnOk result ((bound : ℕ) → WindowHasRoom bound window.old
        → WindowHasRoom (bound + 2 ^ 32) window.new) }
{
    if opens {
        *window = at_opening(met);
        say_opened(found, window, met)?;
    } else if let Some(before) = *window {
        *window = say_live(found, &before, met)?;
    }
    Ok(())
}

/// The window at the opening: the initial window in force, unless the side sends nothing more.
fn at_opening(met: &WindowStep<'_>) -> Option<i64>
    ensures window { result ≡ window_at_opening met.now.side met.now.stream met.now.initial.now met.now.step.now }
    ensures room { WindowHasRoom (2 ^ 32) result }
{
    if met.step.is_last_of(met.side, met.stream) {
        None
    } else {
        Some(i64::from(met.initial.of(met.side)))
    }
}

/// Says what a step shows of a window that it makes live.
fn say_opened(
    found: &mut Vec<Finding>,
    window: &Option<i64>,
    met: &WindowStep<'_>,
) -> Result<(), AllocError>
    ensures { OnOk result (found.new.items
        ≡ found.old.items ++ say_of (opened_window_said met.now.side met.now.stream met.now.step.now) window.now) }
{
    let Some(credit) = *window else {
        return Ok(());
    };
    let tests = [
        (is_used_up(&credit), Kind::StreamStallBegin),
        (true, Kind::StreamCredit),
    ];
    say_each(found, &tests, met.spot(), &credit)
}

/// Is no credit left, or less than none?
fn is_used_up(credit: &i64) -> bool
    ensures { result ≡ is_used_up credit.now }
{
    *credit <= 0
}

/// Does a step leave a live window as it is? It brings no change, and its frame leaves it, if it has one.
#[inline]
fn leaves_window(met: &WindowStep<'_>) -> bool
    ensures { OnTrue result (LeavesWindow met.now.side met.now.stream met.now.step.now) }
{
    if met.step.change.is_some() {
        return false;
    }
    match &met.step.frame {
        Some(frame) => leaves_stream(met.side, frame),
        None => true,
    }
}

/// Does a frame leave a live window of a side as it is? It sends nothing through it, grants nothing to it, and does not
/// end it.
#[inline]
fn leaves_stream(side: Side, frame: &Frame) -> bool
    ensures { OnTrue result ((stream : ℕ) → LeavesStream side stream frame.now) }
{
    if frame.ends_window(side) {
        return false;
    }
    if frame.side == side {
        !frame.body.is_content()
    } else {
        !frame.body.is_update()
    }
}

/// Says what a step shows of a live window, and gives the window after it.
fn say_live(
    found: &mut Vec<Finding>,
    before: &i64,
    met: &WindowStep<'_>,
) -> Result<Option<i64>, AllocError>
    requires acknowledged { IsAcknowledged met.now.step.now }
    requires room { HasRoom (2 ^ 60) before.now }
    ensures said { OnOk result (found.new.items
        ≡ found.old.items ++ live_window_said met.now.side met.now.stream met.now.step.now
        (window_step met.now.side met.now.stream met.now.initial.now met.now.step.now before.now)) }
    ensures window { IfOk result (λ after.
        after ≡ window_after met.now.side met.now.stream met.now.initial.now met.now.step.now (Some before.now)) }
    ensures room { IfOk result
        (λ after. (bound : ℕ) → HasRoom bound before.now → WindowHasRoom (bound + 2 ^ 32) after) }
{
    if leaves_window(met) {
        return Ok(Some(*before));
    }
    let live = LiveStep::of(before, met);
    let spot = met.spot();
    let by_setting = met.step.change.is_some() & live.count.overflows();
    let faults = [
        (by_setting, Kind::SettingOverflow),
        (live.count.overruns(), Kind::StreamOverrun),
        (live.is_overflowing, Kind::StreamOverflow),
    ];
    say_each(found, &faults, spot, &live.count.after)?;
    let stalls = [
        (live.stall_ends(), Kind::StreamStallEnd),
        (live.stall_begins(), Kind::StreamStallBegin),
        (live.last.moves(), Kind::StreamCredit),
    ];
    say_each(found, &stalls, spot, &live.last.after)?;
    Ok(live.after)
}

/// What a step makes of a live window.
#[derive(Clone, Copy)]
struct LiveStep {
    /// The credit before the step, and after the step is counted.
    count: Count,
    /// The credit before the step, and the last that is known of the window: an overflowing grant is not added.
    last: Count,
    /// Does a grant bring the window above the largest?
    is_overflowing: bool,
    /// The credit after the step, if the window still lives.
    after: Option<i64>,
}

impl LiveStep {
    ghost use Rattle.audit_terms.specs.Stream.{step_amount, window_after, live_window_said, is_stalled};
    ghost use Rattle.fault_rules.specs.code.StreamSteps.{credit_after_step, is_overflowing_grant, last_credit};
    ghost use Rattle.std.specs.Prelude.{◌&&◌, not, is_some};
    ghost use Rattle.audit_terms.specs.Frame.{content_by, grant_to};
    ghost use Rattle.audit_terms.specs.Window.{overflows, overruns};
    ghost use Rattle.audit_terms.specs.declared.kinds.Kind.TheVariants.{SettingOverflow, StreamOverrun, StreamOverflow};
    ghost use Rattle.audit_terms.specs.declared.kinds.Kind.TheVariants.{StreamStallEnd, StreamStallBegin, StreamCredit};

    fn of(before: &i64, met: &WindowStep<'_>) -> Self
        requires acknowledged { IsAcknowledged met.now.step.now }
        requires room { HasRoom (2 ^ 60) before.now }
        ensures before { result.count.before ≡ before.now }
        ensures counted { result.count.after
            ≡ credit_after_step met.now.side met.now.stream met.now.initial.now met.now.step.now before.now }
        ensures content { result.count.content ≡ step_amount (content_by met.now.side) met.now.step.now }
        ensures last_before { result.last.before ≡ before.now }
        ensures last { result.last.after
            ≡ last_credit met.now.side met.now.stream met.now.initial.now met.now.step.now before.now }
        ensures overflowing { result.is_overflowing
            ≡ is_overflowing_grant met.now.side met.now.stream met.now.initial.now met.now.step.now before.now }
        ensures after { result.after
            ≡ window_after met.now.side met.now.stream met.now.initial.now met.now.step.now (Some before.now) }
        ensures room { (bound : ℕ) → HasRoom bound before.now → WindowHasRoom (bound + 2 ^ 32) result.after }
    {
        let count = count_of_step(before, met);
        let is_overflowing = is_overflowing_grant(&count, met);
        LiveStep {
            last: count.last_known(is_overflowing),
            is_overflowing,
            after: count.left_live(met.step.ends_window(met.side), is_overflowing),
            count,
        }
    }

    /// Is the window live and its credit used up after the step?
    fn is_stalled(&self) -> bool
        ensures { result ≡ is_stalled self.now.after }
    {
        match self.after {
            Some(credit) => is_used_up(&credit),
            None => false,
        }
    }

    fn stall_ends(&self) -> bool
        ensures { result ≡ (is_used_up self.now.count.before && not (is_stalled self.now.after)) }
    {
        is_used_up(&self.count.before) && !self.is_stalled()
    }

    fn stall_begins(&self) -> bool
        ensures { result ≡ (not (is_used_up self.now.count.before) && is_stalled self.now.after) }
    {
        !is_used_up(&self.count.before) && self.is_stalled()
    }
}

/// Does a grant of the step bring the window above the largest?
fn is_overflowing_grant(count: &Count, met: &WindowStep<'_>) -> bool
    ensures { result ≡ (nat_lt 0 (step_amount (grant_to met.now.side met.now.stream) met.now.step.now)
        && overflows count.now.before count.now.after) }
{
    met.step.grant_to(met.side, met.stream) > 0 && count.overflows()
}

/// What a step does to the credit of a live window: less the content, plus the grant, plus the new initial window
/// minus the old.
fn count_of_step(before: &i64, met: &WindowStep<'_>) -> Count
    requires acknowledged { IsAcknowledged met.now.step.now }
    requires room { HasRoom (2 ^ 60) before.now }
    ensures before { result.before ≡ before.now }
    ensures after { result.after
        ≡ credit_after_step met.now.side met.now.stream met.now.initial.now met.now.step.now before.now }
    ensures content { result.content ≡ step_amount (content_by met.now.side) met.now.step.now }
    ensures room { (bound : ℕ) → HasRoom bound before.now → HasRoom (bound + 2 ^ 32) result.after }
{
    let content = met.step.content_by(met.side);
    let granted = met.step.grant_to(met.side, met.stream);
    let old = met.initial.of(met.side);
    let new = new_initial(&met.step.change, met.side, old);
    Count {
        before: *before,
        after: *before + step_difference(granted, content, new, old),
        content,
    }
}

/// What a step moves a live window by, in bytes: what is granted, less what is sent, and the new initial window minus
/// the old.
fn step_difference(granted: u32, content: u32, new: u32, old: u32) -> i64
    ensures { result ≡ (pos granted -ℤ pos content) +ℤ (pos new -ℤ pos old) }
{
    i64::from(granted) - i64::from(content) + (i64::from(new) - i64::from(old))
}
