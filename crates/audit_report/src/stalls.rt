ghost use Rattle.std.specs.Prelude.{◌≡◌, ℕ, ◌++◌, ◌<◌, ◌^◌, if◌then◌else◌, All, IfOk, IfSome, List, OnOk, Some, map};
ghost use Rattle.std.specs.List.{flat_map};
ghost use Rattle.audit_terms.specs.code.runs.Orderly.{IsOrderly};
ghost use Rattle.audit_terms.specs.Place.{place_stream};
ghost use Rattle.audit_terms.specs.Timed.{timed};
ghost use Rattle.audit_report.specs.Stalls.{is_end_of, stall_of, stalls, timed_stalls};
ghost use Rattle.audit_report.specs.code.Ends.{AreEndsInTime, HasSweptTo, end_in, begun_by};
ghost use Rattle.audit_terms.specs.declared.timed_findings.TimedFinding.{TimedFinding as TimedTerm};
ghost use Rattle.audit_terms.specs.declared.sides.Side.{Side};

use crate::ends::Ends;
use crate::lookup::timed_in;
use audit_terms::{Finding, Frame, Side, TimedFinding};
use std::alloc::{AllocError, Global};

/// A time during which a window had no credit.
#[derive(Clone, Copy)]
pub struct Stall {
    /// The side that sends through the window.
    pub(crate) side: Side,
    /// The window's stream; 0 is the connection.
    pub(crate) stream: u32,
    /// The number of the frame that used the credit up.
    pub(crate) from: u32,
    /// The number of the frame from which there is credit again.
    pub(crate) to: Option<u32>,
    /// The time between the two frames in nanoseconds, below zero where the capture's clock went back; 0 without an
    /// end.
    pub(crate) nanos: i64,
}

/// The stalls that findings of one connection tell of, in the order in which they begin. The findings come in lists,
/// one after the other. Each stall ends with the first later end of its window. `frames` has the times; a missing frame
/// counts as time 0.
pub fn stall_pairs(
    alloc: Global,
    findings: &[Vec<Finding>],
    frames: &[Frame],
) -> Result<Vec<Stall>, AllocError>
    requires { IsOrderly frames.now }
    ensures { IfOk result (λ v. v.items ≡ stalls frames.now (flat_map (λ list. list.items) findings.now)) }
{
    let mut ends = Ends::new(alloc);
    let mut stalls = Vec::new(alloc);
    let mut left = findings.len();
    while left > 0 {
        left -= 1;
        sweep(findings[left].as_slice(), frames, &mut ends, &mut stalls)?;
    }
    stalls.reverse();
    Ok(stalls)
}

/// The same of findings that have their times, in one list. The times fit the signed type, as those of frames do.
pub fn timed_stalls(alloc: Global, findings: &[TimedFinding]) -> Result<Vec<Stall>, AllocError>
    requires in_time { All (λ one. one.nanos < 2 ^ 63) findings.now }
    ensures { IfOk result (λ v. v.items ≡ timed_stalls findings.now) }
{
    let mut ends = Ends::new(alloc);
    let mut stalls = Vec::new(alloc);
    let mut left = findings.len();
    while left > 0 {
        left -= 1;
        take_in(&findings[left], &mut ends, &mut stalls)?;
    }
    stalls.reverse();
    Ok(stalls)
}

/// Sweeps one list more, from the back. `ends` has the first end of each window among the findings after it.
fn sweep(
    findings: &[Finding],
    frames: &[Frame],
    ends: &mut Ends,
    stalls: &mut Vec<Stall>,
) -> Result<(), AllocError>
    requires frames { IsOrderly frames.now }
    requires in_time { AreEndsInTime ends.old }
    ensures in_time { OnOk result (AreEndsInTime ends.new) }
    ensures swept { OnOk result ((later : List TimedTerm) → HasSweptTo later ends.old stalls.old.items
        → HasSweptTo (map (timed frames.now) findings.now ++ later) ends.new stalls.new.items) }
{
    let mut left = findings.len();
    while left > 0 {
        left -= 1;
        look_at(&findings[left], frames, ends, stalls)?;
    }
    Ok(())
}

/// One step of the sweep from the back. The frame is looked up only of a finding that begins or ends a stall.
fn look_at(
    found: &Finding,
    frames: &[Frame],
    ends: &mut Ends,
    stalls: &mut Vec<Stall>,
) -> Result<(), AllocError>
    requires frames { IsOrderly frames.now }
    requires in_time { AreEndsInTime ends.old }
    ensures begun { OnOk result (stalls.new.items
        ≡ stalls.old.items ++ begun_by ends.old (timed frames.now found.now)) }
    ensures ended { OnOk result ((side : Side) (stream : ℕ) → end_in ends.new side stream
        ≡ (if is_end_of side stream (timed frames.now found.now)
        then Some (timed frames.now found.now)
        else end_in ends.old side stream)) }
{
    if found.kind.begins_stall() || found.kind.ends_stall() {
        take_in(&timed_in(frames, found), ends, stalls)?;
    }
    Ok(())
}

/// One step of the sweep from the back: `ends` has the first end of each window among the findings after this one.
fn take_in(found: &TimedFinding, ends: &mut Ends, stalls: &mut Vec<Stall>) -> Result<(), AllocError>
    requires found { found.now.nanos < 2 ^ 63 }
    requires in_time { AreEndsInTime ends.old }
    ensures begun { OnOk result (stalls.new.items ≡ stalls.old.items ++ begun_by ends.old found.now) }
    ensures ended { OnOk result ((side : Side) (stream : ℕ) → end_in ends.new side stream
        ≡ (if is_end_of side stream found.now then Some found.now else end_in ends.old side stream)) }
{
    if found.kind.begins_stall() {
        stalls.push(begun_stall(*found, ends))?;
    }
    if found.kind.ends_stall() {
        ends.put(*found)?;
    }
    Ok(())
}

/// The stall that the finding begins.
fn begun_stall(found: TimedFinding, ends: &Ends) -> Stall
    requires found { found.nanos < 2 ^ 63 }
    requires in_time { AreEndsInTime ends.now }
    ensures { result ≡ stall_of found (end_in ends.now found.side (place_stream found.place)) }
{
    stall_between(found, ends.of(found.side, found.place.stream()))
}

fn stall_between(begin: TimedFinding, end: Option<TimedFinding>) -> Stall
    requires begin { begin.nanos < 2 ^ 63 }
    requires end { IfSome end (λ one. one.nanos < 2 ^ 63) }
    ensures { result ≡ stall_of begin end }
{
    let open = Stall {
        side: begin.side,
        stream: begin.place.stream(),
        from: begin.place.number(),
        to: None,
        nanos: 0,
    };
    let Some(end) = end else {
        return open;
    };
    Stall {
        to: Some(end.place.number()),
        nanos: end.nanos as i64 - begin.nanos as i64,
        ..open
    }
}
