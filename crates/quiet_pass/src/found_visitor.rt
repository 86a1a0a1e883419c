//! The machine as a visitor of a connection's frames.

ghost use Rattle.std.specs.Prelude.{[]};
ghost use Rattle.h2_frames.specs.code.Connection.{IsEnding};
ghost use Rattle.quiet_pass.specs.code.FoundFlows.{HaveBeenMet, IsFoundCut};
ghost use Rattle.tcp_streams.specs.declared.flows.Flow.{Flow};

use crate::found_connections::{FoundConnection, found_after};
use crate::found_passes::FoundPass;
use crate::showing::Showing;
use audit_terms::Frame;
use h2_frames::{Ending, FrameVisitor};
use std::alloc::{AllocError, Global};
use std::marker::PhantomData;

/// A machine that is handed a connection's frames.
#[derive(Drop)]
pub(crate) struct FoundVisitor<S> {
    pass: FoundPass,
    showing: PhantomData<S>,
}

/// What the two flows of a connection hold, and what is shown of it.
#[derive(Drop)]
pub enum FoundCut {
    /// HTTP/2, of which this is shown.
    Http2(FoundConnection),
    /// The client's bytes do not begin with the connection preface.
    NotHttp2,
    /// The client's bytes end within the connection preface.
    NoPreface,
    /// The server's SYN ACK was not captured.
    NoHandshake,
}

impl<S: Showing> FrameVisitor for FoundVisitor<S> {
    ghost use Rattle.quiet_pass.specs.code.FoundFlows.{HaveBeenMet};

    ghost after = { HaveBeenMet S.frames_shown };

    fn take(&mut self, alloc: Global, frame: &Frame) -> Result<(), AllocError> {
        self.pass.meet(alloc, frame)?;
        Ok(())
    }
}

impl<S: Showing> FoundVisitor<S> {
    /// A machine that was handed no frame.
    pub(crate) fn begin(alloc: Global) -> Self
        ensures { HaveBeenMet S.frames_shown [] result }
    {
        FoundVisitor {
            pass: FoundPass::begin(alloc, S::frames_shown()),
            showing: PhantomData,
        }
    }

    /// What is told of two flows that end so, where these were their frames.
    pub(crate) fn found(self, ending: Ending) -> FoundCut
        ensures { (client server : Flow) → IsEnding (HaveBeenMet S.frames_shown) client server self ending
            → IsFoundCut S.frames_shown client server result }
    {
        match ending {
            Ending::Http2 { count, tails } => {
                FoundCut::Http2(found_after(self.pass, count, tails))
            }
            Ending::NotHttp2 => FoundCut::NotHttp2,
            Ending::NoPreface => FoundCut::NoPreface,
            Ending::NoHandshake => FoundCut::NoHandshake,
        }
    }
}
