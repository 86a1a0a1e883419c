ghost use Rattle.std.specs.Prelude.{◌≡◌};

use crate::frames::Frame;
use crate::sides::Side;

/// What an acknowledgement of settings brings into force for the side that acknowledges (RFC 9113, 6.5.3).
#[derive(Clone, Copy)]
pub struct Change {
    /// The number of the acknowledging frame.
    pub number: u32,
    /// The side that acknowledges, whose frames the values govern.
    pub side: Side,
    pub initial: Option<u32>,
    pub max_frame: Option<u32>,
    pub push: Option<u32>,
}

/// A frame with what the audit of the connection needs beside it.
#[derive(Clone, Copy)]
pub struct Item {
    pub frame: Frame,
    /// Does the frame open its stream?
    pub opens: bool,
    /// The change that the frame brings, where it is an acknowledgement that takes a SETTINGS frame.
    pub change: Option<Change>,
}

/// What one stream meets at a frame's number: a frame on it, a change of settings, or both.
#[derive(Clone, Copy)]
pub struct Step {
    /// The number of the frame, or of the acknowledging frame.
    pub number: u32,
    pub frame: Option<Frame>,
    pub change: Option<Change>,
}

impl Item {
    ghost use Rattle.audit_terms.specs.code.runs.Streams.{step_at};

    /// What a stream meets at this item.
    pub fn step_at(&self, stream: u32) -> Step
        ensures { result ≡ step_at self.now stream }
    {
        Step {
            number: self.frame.number,
            frame: self.frame.meets(stream).then_some(self.frame),
            change: self.change,
        }
    }
}

impl Step {
    ghost use Rattle.audit_terms.specs.Frame.{content_by, grant_to};
    ghost use Rattle.audit_terms.specs.Life.{is_last_of, ends_window};
    ghost use Rattle.audit_terms.specs.Stream.{step_test, step_amount};

    /// The flow-controlled length in bytes that a side sends at this step (RFC 9113, 6.9.1), 0 where there is no frame.
    pub fn content_by(&self, side: Side) -> u32
        ensures { result ≡ step_amount (content_by side) self.now }
    {
        match self.frame {
            Some(frame) => frame.content_by(side),
            None => 0,
        }
    }

    /// What this step grants to a side on a stream, in bytes (6.9), 0 where there is no frame.
    pub fn grant_to(&self, side: Side, stream: u32) -> u32
        ensures { result ≡ step_amount (grant_to side stream) self.now }
    {
        match self.frame {
            Some(frame) => frame.grant_to(side, stream),
            None => 0,
        }
    }

    /// Does a side send nothing more on the stream from this step on (5.1)?
    pub fn is_last_of(&self, side: Side, stream: u32) -> bool
        ensures { result ≡ step_test (is_last_of side stream) self.now }
    {
        match self.frame {
            Some(frame) => frame.is_last_of(side, stream),
            None => false,
        }
    }

    /// Does this step's frame end a side's window (5.1)?
    pub fn ends_window(&self, side: Side) -> bool
        ensures { result ≡ step_test (ends_window side) self.now }
    {
        match self.frame {
            Some(frame) => frame.ends_window(side),
            None => false,
        }
    }
}
