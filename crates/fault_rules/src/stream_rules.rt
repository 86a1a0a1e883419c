//! What a step shows of one stream, and what it makes of it (RFC 9113, 5.1 and 6.9).

ghost use Rattle.std.specs.Prelude.{◌≡◌, ℕ, ◌+◌, ◌-◌, ◌^◌, ◌<◌, ◌≤◌, ◌++◌, OnOk};
ghost use Rattle.std.specs.Bool.{OnTrue};
ghost use Rattle.audit_terms.specs.Finding.{say_of};
ghost use Rattle.audit_terms.specs.Stream.{opens, frame_said, stream_said, stream_after, life_at};
ghost use Rattle.audit_terms.specs.code.Room.{WindowHasRoom};
ghost use Rattle.audit_terms.specs.code.runs.Streams.{IsAcknowledged};
ghost use Rattle.fault_rules.specs.code.Plain.{IsPlainStep, MovesAlone};

use crate::spots::{Spot, say_at, say_each};
use crate::window_rules::{WindowStep, say_window};
use audit_terms::{Body, Finding, Frame, Kind, Side, Sides, Step, Stream, StreamLife};
use std::alloc::AllocError;

/// Adds what a step shows of a stream, and brings the stream to its state after the step; `initial` are the initial
/// windows in force before it. Without memory the stream may be between the two states, and some findings may have been
/// added.
pub fn say_stream(
    found: &mut Vec<Finding>,
    entry: &mut Stream,
    stream: u32,
    initial: &Sides<u32>,
    step: &Step,
) -> Result<(), AllocError>
    requires numbered { step.now.number ≤ 2 ^ 28 - 2 }
    requires streamed { stream < 2 ^ 31 }
    requires acknowledged { IsAcknowledged step.now }
    requires client { WindowHasRoom (2 ^ 60) entry.old.window.client }
    requires server { WindowHasRoom (2 ^ 60) entry.old.window.server }
    ensures said { OnOk result (found.new.items
        ≡ found.old.items ++ stream_said stream initial.now entry.old step.now) }
    ensures after { OnOk result (entry.new ≡ stream_after stream initial.now entry.old step.now) }
    ensures client { OnOk result ((bound : ℕ) → WindowHasRoom bound entry.old.window.client
        → WindowHasRoom (bound + 2 ^ 32) entry.new.window.client) }
    ensures server { OnOk result ((bound : ℕ) → WindowHasRoom bound entry.old.window.server
        → WindowHasRoom (bound + 2 ^ 32) entry.new.window.server) }
{
    let client = WindowStep {
        side: Side::Client,
        stream,
        initial,
        step,
    };
    let server = WindowStep {
        side: Side::Server,
        stream,
        initial,
        step,
    };
    if is_plain_step(entry, step) {
        say_window(found, &mut entry.window.client, false, &client)?;
        return say_window(found, &mut entry.window.server, false, &server);
    }
    let opening = opens(stream, entry, step);
    let life = life_at(stream, entry, step);
    say_step(found, entry, &client)?;
    say_window(found, &mut entry.window.client, opening, &client)?;
    say_window(found, &mut entry.window.server, opening, &server)?;
    entry.life = life;
    Ok(())
}

/// Has a step a frame that only moves credit of the stream? Most have.
#[inline]
fn is_plain_step(entry: &Stream, step: &Step) -> bool
    ensures { OnTrue result ((stream : ℕ) → IsPlainStep stream entry.now step.now) }
{
    match &step.frame {
        Some(frame) => moves_alone(&entry.life, frame),
        None => false,
    }
}

/// Does a frame only move credit of a stream? The stream is opened, and the frame is content of a side that has not
/// ended it, nor does so, or a grant of more than 0.
#[inline]
fn moves_alone(life: &StreamLife, frame: &Frame) -> bool
    ensures { OnTrue result (MovesAlone life.now frame.now) }
{
    if life.opened.is_none() {
        return false;
    }
    match frame.body {
        Body::Content => !frame.sends_end(frame.side) && !life.ended.of(frame.side),
        Body::WindowUpdate(amount) => amount.get() > 0,
        _ => false,
    }
}

/// Does a step open the stream (RFC 9113, 5.1.1)?
fn opens(stream: u32, entry: &Stream, step: &Step) -> bool
    ensures { result ≡ opens stream entry.now step.now }
{
    match &step.frame {
        Some(frame) => entry.life.is_opening(stream, frame),
        None => false,
    }
}

/// The life of the stream after a step.
fn life_at(stream: u32, entry: &Stream, step: &Step) -> StreamLife
    ensures { result ≡ life_at stream entry.now step.now }
{
    match &step.frame {
        Some(frame) => entry.life.after(stream, frame),
        None => entry.life,
    }
}

/// Adds what a step's frame shows of the stream: use before the opening, use after the sender's end, a grant of 0.
fn say_frame(
    found: &mut Vec<Finding>,
    entry: &Stream,
    met: &WindowStep<'_>,
    frame: &Frame,
) -> Result<(), AllocError>
    ensures { OnOk result (found.new.items
        ≡ found.old.items ++ frame_said met.now.stream entry.now met.now.step.now frame.now) }
{
    let spot = Spot {
        side: frame.side,
        number: met.step.number,
        stream: met.stream,
    };
    let tests = [
        (entry.life.is_not_opened(met.stream, frame), Kind::NotOpened),
        (entry.life.is_after_end(frame), Kind::AfterEnd),
    ];
    say_each(found, &tests, spot, &i64::from(frame.code))?;
    let is_zero = frame.body.is_zero_grant() && entry.life.opened.is_some();
    say_at(found, is_zero, Kind::ZeroStreamGrant, spot, 0)
}

/// Adds what a step shows of the stream by its frame, if it has one. Either window of the stream may meet the step: the
/// side does not matter.
fn say_step(
    found: &mut Vec<Finding>,
    entry: &Stream,
    met: &WindowStep<'_>,
) -> Result<(), AllocError>
    ensures { OnOk result (found.new.items ≡ found.old.items
        ++ say_of (frame_said met.now.stream entry.now met.now.step.now) met.now.step.now.frame) }
{
    match &met.step.frame {
        Some(frame) => say_frame(found, entry, met, frame),
        None => Ok(()),
    }
}
