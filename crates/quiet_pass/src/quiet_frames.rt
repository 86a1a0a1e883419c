//! What a frame shows by itself and beside the frame of its side just before it (RFC 9113, 3.4, 4.3, 6).

ghost use Rattle.std.specs.Prelude.{◌≡◌, [], Option};
ghost use Rattle.std.specs.Bool.{OnTrue};
ghost use Rattle.audit_terms.specs.declared.frames.Frame.{Frame as FrameTerm};
ghost use Rattle.audit_terms.specs.LocalFault.{body_said, local_said};
ghost use Rattle.audit_terms.specs.code.LastFrame.{last_of};
ghost use Rattle.quiet_pass.specs.code.QuietPass.{MovesLittle};

use audit_terms::frame_types::PUSH_PROMISE;
use audit_terms::{Body, Frame, LastFrame, Side};

/// Does the next frame of a side show nothing by itself, after what is kept of the last one? If it may, the answer is
/// no.
pub(crate) fn is_followed(last: LastFrame, frame: &Frame) -> bool
    ensures { OnTrue result ((previous : Option FrameTerm) → last ≡ last_of previous
        → local_said previous frame.now ≡ []) }
{
    let begins = matches!(last, LastFrame::Missing);
    if begins && !frame.is_settings() {
        return false;
    }
    if last.breaks(frame) || frame.is_on_wrong_stream() {
        return false;
    }
    is_readable(frame) && !(frame.code == PUSH_PROMISE && frame.side == Side::Client)
}

/// Can the body be read, with no setting out of range (6.5.2)?
fn is_readable(frame: &Frame) -> bool
    ensures { OnTrue result (body_said frame.now frame.now.body ≡ []) }
{
    match frame.body {
        Body::Unreadable(_, _) => false,
        Body::Settings(settings) => settings.bad().is_none(),
        _ => true,
    }
}

/// What a frame grants, and the initial window that its settings say, are of 32 bits.
// Its callers learn this by a call, since it follows from types alone.
#[inline(always)]
pub(crate) fn moves_little(frame: &Frame)
    ensures { MovesLittle frame.now }
{
    let _grant = frame.body.increment();
    if let Body::Settings(settings) = frame.body {
        let _initial = settings.settings().initial;
    }
}
