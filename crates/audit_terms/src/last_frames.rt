ghost use Rattle.std.specs.Prelude.{◌≡◌, Option, is_none};
ghost use Rattle.audit_terms.specs.declared.frames.Frame.{Frame as FrameTerm};
ghost use Rattle.audit_terms.specs.code.LastFrame.{last_of, breaks};

use crate::frame_types::CONTINUATION;
use crate::frames::Frame;

/// What the next frame of a side needs of the last one (RFC 9113, 4.3).
#[derive(Clone, Copy)]
pub enum LastFrame {
    /// The side sent none so far.
    Missing,
    /// No field block goes on after it.
    Closed,
    /// The field block of this stream goes on after it.
    Open(u32),
}

impl LastFrame {
    /// What is kept of a frame.
    pub fn of(frame: &Frame) -> Self
        ensures { result ≡ last_of (Option.Some frame.now) }
    {
        if frame.leaves_block_open() {
            LastFrame::Open(frame.stream)
        } else {
            LastFrame::Closed
        }
    }

    /// What is kept of the last frame of a side, if it sent one.
    pub fn of_last(previous: &Option<Frame>) -> Self
        ensures { result ≡ last_of previous.now }
    {
        match previous {
            Some(frame) => LastFrame::of(frame),
            None => LastFrame::Missing,
        }
    }

    /// Did the side send no frame so far?
    pub fn is_missing(self) -> bool
        ensures { (previous : Option FrameTerm) → self ≡ last_of previous → result ≡ is_none previous }
    {
        matches!(self, LastFrame::Missing)
    }

    /// Does the next frame of the side break a field block, or go on with one that is not open (4.3, 6.10)?
    pub fn breaks(self, frame: &Frame) -> bool
        ensures { result ≡ breaks self frame.now }
    {
        let goes_on = frame.code == CONTINUATION;
        match self {
            LastFrame::Open(stream) => !(goes_on && frame.stream == stream),
            _ => goes_on,
        }
    }
}
