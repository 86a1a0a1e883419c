//! Segments of connections in disorder: some come late, bring bytes again, or are lost.

use crate::captures::{
    ACK, CLIENT_INITIAL, Capture, PREFACE, SERVER_INITIAL, SYN, SYN_ACK, bytes_of,
};
use audit_terms::{Frame, Side};
use rand_core::Rng;
use rand_pcg::Pcg32;
use std::alloc::{AllocError, Global};

/// A segment that a capture is to have.
#[derive(Drop)]
struct Planned {
    /// Segments of a low turn come first.
    turn: u32,
    client_port: u16,
    side: Side,
    seq: u32,
    flags: u8,
    payload: Vec<u8>,
}

/// The segments of some connections, and what the sides of the last of these sent.
#[derive(Drop)]
pub struct Disorder {
    alloc: Global,
    rng: Pcg32,
    planned: Vec<Planned>,
    client_port: u16,
    turn: u32,
    is_lossy: bool,
    client: Vec<u8>,
    server: Vec<u8>,
}

/// The number of a side's SYN.
fn initial_of(side: Side) -> u32 {
    match side {
        Side::Client => CLIENT_INITIAL,
        Side::Server => SERVER_INITIAL,
    }
}

impl Disorder {
    /// No segment.
    pub fn new(alloc: Global, rng: Pcg32) -> Disorder {
        Disorder {
            alloc,
            rng,
            planned: Vec::new(alloc),
            client_port: 0,
            turn: 0,
            is_lossy: false,
            client: Vec::new(alloc),
            server: Vec::new(alloc),
        }
    }

    /// Plans a connection of this client, from a turn on, whose sides send these frames. A lossy one loses some
    /// segments.
    pub fn plan(
        &mut self,
        client_port: u16,
        turn: u32,
        is_lossy: bool,
        frames: &[Frame],
    ) -> Result<(), AllocError> {
        self.client_port = client_port;
        self.turn = turn;
        self.is_lossy = is_lossy;
        self.client.clear();
        self.server.clear();
        let payload = Vec::new(self.alloc);
        self.plan_at(turn, Side::Client, initial_of(Side::Client), SYN, payload)?;
        let payload = Vec::new(self.alloc);
        self.plan_next(Side::Server, initial_of(Side::Server), SYN_ACK, payload)?;
        self.send(Side::Client, &PREFACE)?;
        for frame in frames {
            let bytes = bytes_of(self.alloc, frame)?;
            self.send(frame.side, bytes.as_slice())?;
        }
        Ok(())
    }

    /// The next bytes of a side, in two segments.
    fn send(&mut self, side: Side, bytes: &[u8]) -> Result<(), AllocError> {
        let (front, back) = bytes.split_at(self.any_size().min(bytes.len()));
        self.send_part(side, front)?;
        self.send_part(side, back)
    }

    /// A segment with the next bytes of a side. One in four brings bytes again that came before.
    fn send_part(&mut self, side: Side, part: &[u8]) -> Result<(), AllocError> {
        let again = if self.is_one_of(4) {
            self.any_size()
        } else {
            0
        };
        let alloc = self.alloc;
        let sent = match side {
            Side::Client => &mut self.client,
            Side::Server => &mut self.server,
        };
        let from = sent.len().saturating_sub(again);
        sent.extend_from_slice(part)?;
        let payload = Vec::from_slice(alloc, &sent.as_slice()[from..])?;
        let offset = u32::try_from(from).unwrap_or(u32::MAX);
        let seq = initial_of(side).wrapping_add(1).wrapping_add(offset);
        self.plan_next(side, seq, ACK, payload)
    }

    /// Plans the next segment, unless it is lost. One in four comes late.
    fn plan_next(
        &mut self,
        side: Side,
        seq: u32,
        flags: u8,
        payload: Vec<u8>,
    ) -> Result<(), AllocError> {
        self.turn = self.turn.wrapping_add(1);
        if self.is_lossy && self.is_one_of(32) {
            return Ok(());
        }
        let late = if self.is_one_of(4) {
            self.rng.next_u32() % 12
        } else {
            0
        };
        let turn = self.turn.wrapping_add(late);
        self.plan_at(turn, side, seq, flags, payload)
    }

    fn plan_at(
        &mut self,
        turn: u32,
        side: Side,
        seq: u32,
        flags: u8,
        payload: Vec<u8>,
    ) -> Result<(), AllocError> {
        let client_port = self.client_port;
        self.planned.push(Planned {
            turn,
            client_port,
            side,
            seq,
            flags,
            payload,
        })?;
        Ok(())
    }

    /// Whether a draw of 256 falls to one of so many.
    fn is_one_of(&mut self, parts: u32) -> bool {
        (self.rng.next_u32() % 256).saturating_mul(parts) < 256
    }

    /// A number of up to 16 bits that is as likely small as large.
    fn any_size(&mut self) -> usize {
        let places = self.rng.next_u32() % 16;
        ((self.rng.next_u32() % 65_536) >> places) as usize
    }

    /// The capture of all segments, by turn.
    pub fn captured(mut self) -> Result<Capture, AllocError> {
        self.planned.sort_by_key(|one| one.turn)?;
        let mut capture = Capture::empty(self.alloc)?;
        for one in &self.planned {
            capture.client_port = one.client_port;
            capture.record(one.side, one.seq, one.flags, one.payload.as_slice())?;
        }
        Ok(capture)
    }
}
