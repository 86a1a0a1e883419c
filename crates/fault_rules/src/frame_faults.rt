//! What a frame shows by itself and beside the frame of its side just before it (RFC 9113, 3.4, 4.3, 6).

ghost use Rattle.std.specs.Prelude.{◌≡◌, ◌++◌, OnOk, Option};
ghost use Rattle.audit_terms.specs.code.runs.Orderly.{IsInRange};
ghost use Rattle.audit_terms.specs.LocalFault.{reading_fault, body_said, local_said, fault};
ghost use Rattle.audit_terms.specs.code.LastFrame.{last_of};
ghost use Rattle.audit_terms.specs.declared.frames.Frame.{Frame as FrameTerm};
ghost use Rattle.audit_terms.specs.Finding.{say};

use crate::previous::is_of;
use crate::spots::{say_at, spot_of};
use audit_terms::frame_types::PUSH_PROMISE;
use audit_terms::{Body, Finding, Frame, Kind, LastFrame, Side};
use std::alloc::AllocError;

/// Adds what a frame shows by itself and beside the frame of its side just before it (RFC 9113, 3.4, 4.3, 6): a side
/// that does not begin with SETTINGS, a field block that is broken, a frame on the wrong stream, a payload that cannot
/// be read, a setting out of range, a promise of the client.
pub fn say_local(
    found: &mut Vec<Finding>,
    previous: &Option<Frame>,
    frame: &Frame,
) -> Result<(), AllocError>
    requires { IsInRange frame.now }
    ensures { OnOk result (found.new.items ≡ found.old.items ++ local_said previous.now frame.now) }
{
    say_local_after(found, LastFrame::of_last(previous), frame)
}

/// What `say_local` adds, by what is kept of the frame of its side just before it.
pub fn say_local_after(
    found: &mut Vec<Finding>,
    last: LastFrame,
    frame: &Frame,
) -> Result<(), AllocError>
    requires { IsInRange frame.now }
    ensures { OnOk result ((previous : Option FrameTerm) → last ≡ last_of previous
        → found.new.items ≡ found.old.items ++ local_said previous frame.now) }
{
    let code = u32::from(frame.code);
    let bad_preface = last.is_missing() & !frame.is_settings();
    say_fault(found, bad_preface, Kind::BadPreface, frame, code)?;
    let broken_block = last.breaks(frame);
    say_fault(found, broken_block, Kind::BrokenBlock, frame, code)?;
    let wrong_stream = frame.is_on_wrong_stream();
    say_fault(found, wrong_stream, Kind::WrongStream, frame, code)?;
    say_body(found, frame)?;
    let client_push = (frame.code == PUSH_PROMISE) & is_of(Side::Client, frame);
    say_fault(found, client_push, Kind::Push, frame, 0)
}

/// Adds a fault of the frame's sender where a test holds.
pub(crate) fn say_fault(
    found: &mut Vec<Finding>,
    holds: bool,
    kind: Kind,
    frame: &Frame,
    value: u32,
) -> Result<(), AllocError>
    requires { IsInRange frame.now }
    ensures { OnOk result (found.new.items ≡ found.old.items ++ say holds (fault kind frame.now value)) }
{
    say_at(found, holds, kind, spot_of(frame), value)
}

/// Adds what the body shows: a payload that cannot be read, or a setting out of range (6.5.2).
fn say_body(found: &mut Vec<Finding>, frame: &Frame) -> Result<(), AllocError>
    requires { IsInRange frame.now }
    ensures { OnOk result (found.new.items ≡ found.old.items ++ body_said frame.now frame.now.body) }
{
    match frame.body {
        Body::Unreadable(kind, value) => say_unreadable(found, kind, frame, value.get()),
        Body::Settings(settings) => match settings.bad() {
            Some(identifier) => {
                say_fault(found, true, Kind::BadSetting, frame, u32::from(identifier))
            }
            None => Ok(()),
        },
        _ => Ok(()),
    }
}

/// Adds a payload that cannot be read, if the kind is one for this (4.2, 6).
fn say_unreadable(
    found: &mut Vec<Finding>,
    kind: Kind,
    frame: &Frame,
    value: u32,
) -> Result<(), AllocError>
    requires { IsInRange frame.now }
    ensures { OnOk result (found.new.items ≡ found.old.items ++ reading_fault kind frame.now value) }
{
    let is_reading_fault = matches!(kind, Kind::WrongSize | Kind::BadPadding | Kind::BadPriority);
    say_fault(found, is_reading_fault, kind, frame, value)
}
