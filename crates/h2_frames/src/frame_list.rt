//! The frames of a connection, kept as they come.

ghost use Rattle.std.specs.Prelude.{[]};
ghost use Rattle.h2_frames.specs.code.Connection.{IsEnding};
ghost use Rattle.h2_frames.specs.code.Listed.{AreListed, IsListedCut};
ghost use Rattle.tcp_streams.specs.declared.flows.Flow.{Flow};

use crate::connection::Ending;
use crate::cuts::Cut;
use crate::visitor::FrameVisitor;
use audit_terms::Frame;
use std::alloc::{AllocError, Global};
use std::slice;

/// The frames of a connection so far, in capture order.
#[derive(Drop)]
pub struct FrameList {
    frames: Vec<Frame>,
}

impl FrameVisitor for FrameList {
    ghost use Rattle.h2_frames.specs.code.Listed.{AreListed};

    ghost after = { AreListed };

    fn take(&mut self, _alloc: Global, frame: &Frame) -> Result<(), AllocError> {
        self.frames.extend_from_slice(slice::from_ref(frame))?;
        Ok(())
    }
}

impl FrameList {
    /// No frame.
    pub fn new(alloc: Global) -> FrameList
        ensures { AreListed [] result }
    {
        FrameList {
            frames: Vec::new(alloc),
        }
    }

    /// The cut of two flows that end so, where these were their frames.
    pub fn cut(self, ending: Ending) -> Cut
        ensures { (client server : Flow) → IsEnding AreListed client server self ending
            → IsListedCut client server result }
    {
        match ending {
            Ending::Http2 { count: _, tails } => Cut::Http2 {
                frames: self.frames,
                tails,
            },
            Ending::NotHttp2 => Cut::NotHttp2,
            Ending::NoPreface => Cut::NoPreface,
            Ending::NoHandshake => Cut::NoHandshake,
        }
    }
}
