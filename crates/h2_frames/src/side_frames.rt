ghost use Rattle.std.specs.Prelude.{◌≡◌, ◌+◌, ◌<◌, ◌^◌, IfOk, length};
ghost use Rattle.tcp_streams.specs.Arrivals.{Rises};
ghost use Rattle.tcp_streams.specs.code.Orderly.{AreTimely};
ghost use Rattle.h2_frames.specs.CaptureOrder.{comes_after};
ghost use Rattle.h2_frames.specs.code.Brought.{frame_of};
ghost use Rattle.h2_frames.specs.code.Sent.{AreSent};
ghost use Rattle.h2_frames.specs.code.Steps.{arrivals_from};

use crate::headers::HEADER_LENGTH;
use crate::spelling::{Spelled, first_frame};
use audit_terms::{Frame, Length, Side};
use std::alloc::{AllocError, Global};
use tcp_streams::Arrival;

/// Who sent bytes, and the record that brings them.
#[derive(Clone, Copy)]
pub struct Source {
    pub side: Side,
    /// The record, from 1.
    pub rec: u32,
    /// When it was captured, in nanoseconds.
    pub nanos: u64,
}

/// A frame numbered within its side, from 1. It is no [`Frame`] before it has its number in the connection.
#[derive(Clone, Copy)]
pub(crate) struct SideFrame {
    frame: Frame,
}

impl SideFrame {
    /// Does it come after another: by record, then by number within its side, then Client before Server?
    pub fn comes_after(&self, other: &SideFrame) -> bool
        ensures { result ≡ comes_after self.now other.now }
    {
        let (x, y) = (&self.frame, &other.frame);
        (x.rec, x.number, x.side) > (y.rec, y.number, y.side)
    }

    /// The frame of the connection, which has this number there.
    #[inline(always)]
    pub fn numbered(self, number: u32) -> Frame
        ensures { result ≡ record self.frame { number = number } }
    {
        let mut frame = self.frame;
        frame.number = number;
        frame
    }
}

impl Spelled {
    /// The frame of this number that the last byte which a source brings completes.
    #[inline(always)]
    pub(crate) fn brought(self, source: Source, number: u32) -> Frame
        requires { self.header.length < 2 ^ 24 }
        ensures { result ≡ frame_of source number self }
    {
        Frame {
            number,
            rec: source.rec,
            stream: self.header.stream,
            length: Length::of(self.header.length),
            nanos: source.nanos,
            body: self.body,
            side: source.side,
            code: self.header.code,
            flags: self.header.flags,
        }
    }
}

/// The frames that one side sent.
#[derive(Drop)]
pub(crate) struct SentFrames {
    pub frames: Vec<SideFrame>,
    /// How many bytes follow them.
    pub tail: u32,
}

/// The frames in a side's bytes from this offset of its flow on, and the flow's arrivals.
pub(crate) fn sent_frames(
    alloc: Global,
    side: Side,
    bytes: &[u8],
    offset: u64,
    arrivals: &[Arrival],
) -> Result<SentFrames, AllocError>
    requires short { offset + length bytes.now < 2 ^ 31 }
    requires rises { Rises 0 0 arrivals.now (offset + length bytes.now) }
    requires timely { AreTimely arrivals.now }
    ensures { IfOk result (AreSent side arrivals.now offset bytes.now) }
{
    let mut frames = Vec::new(alloc);
    let mut rest = bytes;
    let mut upto = offset;
    let mut to_come = arrivals;
    while let Some((spelled, later)) = first_frame(rest) {
        upto += HEADER_LENGTH as u64 + spelled.header.length as u64;
        to_come = arrivals_from(to_come, upto - 1);
        let arrival = to_come[0];
        let source = Source {
            side,
            rec: arrival.rec,
            nanos: arrival.nanos,
        };
        let frame = spelled.brought(source, frames.len() as u32 + 1);
        frames.push(SideFrame { frame })?;
        rest = later;
    }
    Ok(SentFrames {
        frames,
        tail: rest.len() as u32,
    })
}

/// The arrivals, from the one that brings the byte at this offset.
fn arrivals_from(arrivals: &[Arrival], offset: u64) -> &[Arrival]
    ensures { result.now ≡ arrivals_from offset arrivals.now }
{
    let mut rest = arrivals;
    while let Some((first, later)) = rest.split_first() {
        if offset < first.upto as u64 {
            return rest;
        }
        rest = later;
    }
    rest
}
