//! Frames of scripts, and whether they are in range and in order.

ghost use Rattle.std.specs.Prelude.{◌≡◌, ◌<◌, ◌^◌, true};
ghost use Rattle.audit_terms.specs.code.runs.Orderly.{IsInRange, IsOrderly};

use audit_terms::frame_types::{
    ACK_FLAG, DATA, END_HEADERS_FLAG, HEADERS, PUSH_PROMISE, RST_STREAM, SETTINGS, WINDOW_UPDATE,
};
use audit_terms::{Body, Frame, Length, PackedSettings, Settings, Side, Word};

/// A frame of a script, without flags.
fn frame(number: u32, side: Side, code: u8, stream: u32, length: u32, body: Body) -> Frame
    requires { length < 2 ^ 24 }
{
    Frame {
        number,
        side,
        rec: 0,
        nanos: 0,
        code,
        flags: 0,
        stream,
        length: Length::of(length),
        body,
    }
}

/// HEADERS that end their block.
pub fn headers(number: u32, side: Side, stream: u32) -> Frame {
    Frame {
        flags: END_HEADERS_FLAG,
        ..frame(number, side, HEADERS, stream, 0, Body::Headers)
    }
}

/// DATA of some bytes.
pub fn data(number: u32, side: Side, stream: u32, length: u32) -> Frame
    requires { length < 2 ^ 24 }
{
    frame(number, side, DATA, stream, length, Body::Content)
}

/// SETTINGS with an initial window, where there is one.
pub fn initial_window(number: u32, side: Side, initial: Option<u32>) -> Frame {
    let values = PackedSettings::of(&Settings {
        initial,
        ..Settings::none()
    });
    frame(number, side, SETTINGS, 0, 0, Body::Settings(values))
}

/// The acknowledgement of a SETTINGS.
pub fn acknowledgement(number: u32, side: Side) -> Frame {
    Frame {
        flags: ACK_FLAG,
        ..frame(number, side, SETTINGS, 0, 0, Body::SettingsAck)
    }
}

/// RST_STREAM.
pub fn reset(number: u32, side: Side, stream: u32) -> Frame {
    frame(number, side, RST_STREAM, stream, 4, Body::RstStream)
}

/// WINDOW_UPDATE of some bytes.
pub fn grant(number: u32, side: Side, stream: u32, amount: u32) -> Frame {
    let body = Body::WindowUpdate(Word::of(amount));
    frame(number, side, WINDOW_UPDATE, stream, 4, body)
}

/// PUSH_PROMISE of the server, which ends its block.
pub fn promise(number: u32, stream: u32, promised: u32) -> Frame {
    let body = Body::PushPromise(Word::of(promised));
    Frame {
        flags: END_HEADERS_FLAG,
        ..frame(number, Side::Server, PUSH_PROMISE, stream, 4, body)
    }
}

fn is_in_range(frame: &Frame) -> bool
    ensures { result ≡ true → IsInRange frame.now }
{
    frame.number < 0x0fff_ffff
        && frame.body.promised() < 0x8000_0000
        && frame.stream < 0x8000_0000
        && frame.length.get() < 0x0100_0000
        && frame.nanos < 0x8000_0000_0000_0000
}

/// Are the frames in range and their numbers rising?
pub fn are_orderly(frames: &[Frame]) -> bool
    ensures { result ≡ true → IsOrderly frames.now }
{
    let mut low = 0;
    for frame in frames {
        if !is_in_range(frame) || frame.number < low {
            return false;
        }
        low = frame.number + 1;
    }
    true
}
