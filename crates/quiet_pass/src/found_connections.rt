//! Connections of which little is shown: what is shown is said as frames are met, and no list of all frames is made.

ghost use Rattle.std.specs.Prelude.{◌≡◌, ◌≢◌, ◌<◌, ◌≤◌, [], IfNone, IfOk, IfSome, IsTrue, List, length};
ghost use Rattle.audit_terms.specs.Finding.{shown};
ghost use Rattle.audit_terms.specs.Pass.{pass};
ghost use Rattle.audit_terms.specs.code.runs.Orderly.{IsOrderly};
ghost use Rattle.audit_terms.specs.declared.frames.Frame.{Frame as FrameTerm};
ghost use Rattle.h2_frames.specs.Cut.{IsHttp2};
ghost use Rattle.quiet_pass.specs.code.FoundConnections.{AreAllFrames, IsFoundOf};
ghost use Rattle.quiet_pass.specs.code.FoundPass.{IsFoundAfter};
ghost use Rattle.tcp_streams.specs.declared.flows.Flow.{Flow};

use crate::found_passes::FoundPass;
use audit_terms::laws::streams_are_those_met;
use audit_terms::{Frame, Sides, TimedFinding, cut_timed_at_stop};
use std::alloc::{AllocError, Global};

/// What is shown of a connection of HTTP/2.
#[derive(Drop)]
pub struct FoundConnection {
    /// How many frames the two sides sent together.
    pub frames: u32,
    /// How many bytes each side's flow has after its last frame.
    pub tails: Sides<u32>,
    /// What is shown, in order, up to and including the first connection error.
    pub findings: Vec<TimedFinding>,
}

/// A front has one in so many frames of its connection. Where it shows something and no end, only so small a part is
/// met for nothing.
///
/// Measured, without fronts an early error took several workers 1.25 times as long, and where each frame after it
/// changes all windows, a thousand times.
const FRAMES_PER_FRONT_FRAME: usize = 32;

/// What these frames of a connection show, where credits are shown or are not, if that is nothing, if they are no more
/// than so many, or if the audit ends within the first thirty-second of them (RFC 9113, 5.4.1).
///
/// They are met by a machine that keeps none of them. Where they are more than so many, and something is shown before
/// the last of them but no end in that front, there is no answer.
pub fn found_in(
    alloc: Global,
    frames_shown: bool,
    most_frames: usize,
    frames: &[Frame],
    tails: Sides<u32>,
) -> Result<Option<FoundConnection>, AllocError>
    requires { IsOrderly frames.now }
    ensures found { (client server : Flow) → IsTrue server.started → IsHttp2 client server frames.now tails
        → IfOk result (λ found. IfSome found (IsFoundOf frames_shown client server)) }
    ensures none { IfOk result (λ found. IfNone found
        ((most_frames < length frames.now) × (shown frames_shown (pass frames.now) ≢ []))) }
{
    streams_are_those_met();
    let (front, rest) = frames.split_at(front_length(most_frames, frames.len()));
    let mut pass = FoundPass::begin(alloc, frames_shown);
    pass.meet_all(alloc, front)?;
    if pass.has_stopped() {
        pass.meet_all(alloc, rest)?;
        return Ok(Some(found_after(pass, frames.len() as u32, tails)));
    }
    if !pass.meet_silent(alloc, rest)? {
        return Ok(None);
    }
    Ok(Some(found_after(pass, frames.len() as u32, tails)))
}

/// How many frames are met whatever they show: all, where they are no more than so many, and else a front.
fn front_length(most_frames: usize, frames: usize) -> usize
    ensures within { result ≤ frames }
    ensures all { frames ≤ most_frames → result ≡ frames }
{
    if frames <= most_frames {
        return frames;
    }
    frames / FRAMES_PER_FRONT_FRAME
}

/// What is told of a connection of so many frames, and of these tails, whose frames were all met.
pub(crate) fn found_after(pass: FoundPass, frames: u32, tails: Sides<u32>) -> FoundConnection
    ensures { (client server : Flow) → (all : List FrameTerm) → IsTrue server.started
        → AreAllFrames client server all frames tails → IsFoundAfter all pass
        → IsFoundOf pass.frames_shown client server result }
{
    streams_are_those_met();
    let mut findings = pass.found;
    cut_timed_at_stop(&mut findings);
    FoundConnection {
        frames,
        tails,
        findings,
    }
}
