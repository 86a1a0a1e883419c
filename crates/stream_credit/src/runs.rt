ghost use Rattle.std.specs.Prelude.{◌≡◌, ℕ, ◌-◌, ◌^◌, ◌<◌, ◌≤◌, ◌++◌, All, List, IfOk, OnOk, length};
ghost use Rattle.std.specs.Bool.{MatchBool};
ghost use Rattle.audit_terms.specs.declared.frames.Frame.{Frame as FrameTerm};
ghost use Rattle.audit_terms.specs.declared.findings.Finding.{Finding};
ghost use Rattle.audit_terms.specs.Place.{place_number};
ghost use Rattle.audit_terms.specs.Finding.{shown};
ghost use Rattle.audit_terms.specs.code.runs.Look.{IsRun};
ghost use Rattle.audit_terms.specs.code.runs.Streams.{stream_run, stream_at_end};
ghost use Rattle.audit_terms.specs.code.runs.Changes.{AreOrderly, AreAcknowledged};
ghost use Rattle.stream_credit.specs.code.Looks.{step_numbers, opened_up_to};
ghost use Rattle.stream_credit.specs.code.StreamPart.{IsStreamPart, frames_at, frames_met};
ghost use Rattle.stream_credit.specs.code.Walk.{WholeRun, IsSound, HasEnded, HasStopped};

use crate::changes::Changes;
use crate::run_ends::run_of;
use crate::stream_parts::{StreamPart, StreamRun};
use crate::walks::Walk;
use audit_terms::{Frame, Look};
use std::alloc::{AllocError, Global};

/// How many frames of a stream are gathered at once: 1,280 bytes, which stay in the nearest cache until they are met.
/// (Measured: bench/README.md, Thresholds.)
const NEAR_FRAMES: usize = 32;

/// Fills `near` with the frames at some positions. They lie far from one another, and loads that do not depend on each
/// other overlap.
fn gather(near: &mut Vec<Frame>, frames: &[Frame], positions: &[u32]) -> Result<(), AllocError>
    requires { All (λ (position : ℕ). position < length frames.now) positions.now }
    ensures { OnOk result (near.new.items ≡ frames_at frames.now positions.now) }
{
    near.clear();
    for position in positions {
        near.extend_from_slice(&[frames[*position as usize]])?;
    }
    Ok(())
}

/// Meets frames, and the changes before them, and returns whether it met them all.
fn meet_frames<L: Look>(
    walk: &mut Walk,
    look: &mut L,
    changes: &Changes<'_>,
    frames: &[Frame],
) -> Result<bool, AllocError>
    requires { (run : WholeRun L) × (rest : List FrameTerm)
        × IsSound L.answers run look.old walk.old changes.now (frames.now ++ rest) }
    ensures { IfOk result (λ goes_on. (run : WholeRun L) (rest : List FrameTerm)
        → IsSound L.answers run look.old walk.old changes.now (frames.now ++ rest)
        → MatchBool goes_on (IsSound L.answers run look.new walk.new changes.now rest)
        (HasStopped L.answers run look.new walk.new)) }
{
    for frame in frames {
        if !walk.meet_frame(look, changes, frame)? {
            return Ok(false);
        }
    }
    Ok(true)
}

/// Meets all frames of a stream, some at a time, and all changes of its connection, and returns whether it met them
/// all. `near` is a buffer for these.
fn meet_all<L: Look>(
    near: &mut Vec<Frame>,
    walk: &mut Walk,
    look: &mut L,
    own: &StreamPart<'_>,
    changes: &Changes<'_>,
) -> Result<bool, AllocError>
    requires own { IsStreamPart own.now }
    requires sound { (run : WholeRun L) × IsSound L.answers run look.old walk.old changes.now (frames_met own.now) }
    ensures { IfOk result (λ goes_on. (run : WholeRun L)
        → IsSound L.answers run look.old walk.old changes.now (frames_met own.now)
        → MatchBool goes_on (HasEnded L.answers run look.new walk.new) (HasStopped L.answers run look.new walk.new)) }
{
    let mut rest = own.positions;
    while !rest.is_empty() {
        let (some, later) = rest.split_at(rest.len().min(NEAR_FRAMES));
        gather(near, own.frames, some)?;
        if !meet_frames(walk, look, changes, near.as_slice())? {
            return Ok(false);
        }
        rest = later;
    }
    walk.meet_changes(look, changes, u32::MAX)
}

/// The findings of one stream, from its frames and all changes of its connection, and its opening.
///
/// The kinds are `NotOpened`, `SettingOverflow`, `AfterEnd`, `StreamOverrun`, `ZeroStreamGrant`, `StreamOverflow`, the
/// stalls of the stream's windows and, where credits are shown, `StreamCredit`. The run's steps are the stream's frames
/// and the changes that find a live window of it. It looks where its connection stops before its first step and again
/// before the next one after each 256 steps; it stops before a step past the last answer, and leaves out what lies past
/// it. Nothing else stops it: what follows a connection error of its own is there too. Credits, in bytes, stay below
/// 2^60 in size.
pub fn stream_run<L: Look>(
    alloc: Global,
    own: &StreamPart<'_>,
    changes: &Changes<'_>,
    frames_shown: bool,
    look: &mut L,
) -> Result<StreamRun, AllocError>
    requires own { IsStreamPart own.now }
    requires changes { AreOrderly changes.now }
    requires acknowledged { AreAcknowledged (frames_met own.now) changes.now }
    ensures run { IfOk result (λ run. IsRun L.answers look.old look.new
        (step_numbers own.now.stream (frames_met own.now) changes.now)
        (shown frames_shown (stream_run own.now.stream (frames_met own.now) changes.now))
        run.findings.items run.upto run.last_look run.looks) }
    ensures opened { IfOk result (λ run. run.opened_at ≡ opened_up_to run.upto
        (stream_at_end own.now.stream (frames_met own.now) changes.now).life.opened) }
    ensures numbered { IfOk result (λ run.
        All (λ (found : Finding). place_number found.place ≤ 2 ^ 28 - 2) run.findings.items) }
{
    let mut near = Vec::with_capacity(alloc, own.positions.len().min(NEAR_FRAMES))?;
    let mut walk = Walk::idle(alloc, own.stream, frames_shown, look);
    let is_whole = meet_all(&mut near, &mut walk, look, own, changes)?;
    Ok(run_of(walk, is_whole))
}
