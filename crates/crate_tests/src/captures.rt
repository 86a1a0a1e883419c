//! Captures that tests build, of connections of 10.0.0.1 to 10.0.0.2:80.

use crate::frames::{acknowledgement, initial_window};
use audit_terms::{Body, Frame, Side};
use std::alloc::{AllocError, Global};

/// The file header: little-endian numbers, microseconds, version 2.4, a snapshot length of 262,144, Ethernet.
pub const FILE_HEADER: [u8; 24] = [
    0xd4, 0xc3, 0xb2, 0xa1, 2, 0, 4, 0, 0, 0, 0, 0, 0, 0, 0, 0, 0, 0, 4, 0, 1, 0, 0, 0,
];

/// An Ethernet header of 12 zero bytes and the type IPv4, and the first two bytes of an IPv4 header.
const ETHERNET: [u8; 16] = [0, 0, 0, 0, 0, 0, 0, 0, 0, 0, 0, 0, 0x08, 0x00, 0x45, 0];

/// What stands between the total length and the addresses: no fragment, a time to live of 64, TCP.
const TCP: [u8; 8] = [0, 0, 0, 0, 0x40, 6, 0, 0];

/// The bytes of the headers of IPv4 and TCP.
const HEADERS: usize = 40;

/// Flags of a segment.
pub const SYN: u8 = 0x02;

pub const SYN_ACK: u8 = 0x12;

pub const ACK: u8 = 0x10;

/// The sides' initial sequence numbers.
pub const CLIENT_INITIAL: u32 = 1000;

pub const SERVER_INITIAL: u32 = 5000;

/// The 24 bytes that a client begins with.
pub const PREFACE: [u8; 24] = *b"PRI * HTTP/2.0\r\n\r\nSM\r\n\r\n";

/// A capture that grows record by record; each side keeps the sequence number of its next byte. An `Err` leaves a
/// capture that may end within a record.
#[derive(Drop)]
pub struct Capture {
    alloc: Global,
    pub bytes: Vec<u8>,
    /// The port of the client whose connection the next records belong to.
    pub client_port: u16,
    records: u32,
    client_next: u32,
    server_next: u32,
}

impl Capture {
    /// No record.
    pub fn empty(alloc: Global) -> Result<Capture, AllocError> {
        Ok(Capture {
            alloc,
            bytes: Vec::from_slice(alloc, &FILE_HEADER)?,
            client_port: 40_000,
            records: 0,
            client_next: CLIENT_INITIAL + 1,
            server_next: SERVER_INITIAL + 1,
        })
    }

    /// Records 1 and 2: the handshake.
    fn opened(alloc: Global) -> Result<Capture, AllocError> {
        let mut capture = Capture::empty(alloc)?;
        capture.record(Side::Client, CLIENT_INITIAL, SYN, &[])?;
        capture.record(Side::Server, SERVER_INITIAL, SYN_ACK, &[])?;
        Ok(capture)
    }

    /// Records 1 to 7: the handshake and the client's preface; a SETTINGS of the client (frame 1) and of the server
    /// (frame 2); their acknowledgements by the client (frame 3) and the server (frame 4). Then these frames.
    pub fn of_frames(alloc: Global, frames: &[Frame]) -> Result<Capture, AllocError> {
        let mut capture = Capture::opened(alloc)?;
        capture.send(Side::Client, &PREFACE)?;
        let opening = [
            initial_window(1, Side::Client, None),
            initial_window(2, Side::Server, None),
            acknowledgement(3, Side::Client),
            acknowledgement(4, Side::Server),
        ];
        capture.send_frames(&opening)?;
        capture.send_frames(frames)?;
        Ok(capture)
    }

    /// The next record, whose time in microseconds is its number: of a segment without options.
    pub fn record(
        &mut self,
        side: Side,
        seq: u32,
        flags: u8,
        payload: &[u8],
    ) -> Result<(), AllocError> {
        let total = payload.len().saturating_add(HEADERS);
        self.begin_record(total)?;
        let [high, low] = self.client_port.to_be_bytes();
        let ends = match side {
            Side::Client => [10, 0, 0, 1, 10, 0, 0, 2, high, low, 0, 80],
            Side::Server => [10, 0, 0, 2, 10, 0, 0, 1, 0, 80, high, low],
        };
        let parts: [&[u8]; 7] = [
            &ETHERNET,
            &u16::try_from(total).unwrap_or(0).to_be_bytes(),
            &TCP,
            &ends,
            &seq.to_be_bytes(),
            &[0, 0, 0, 0, 0x50, flags, 0, 0, 0, 0, 0, 0],
            payload,
        ];
        for part in parts {
            self.bytes.extend_from_slice(part)?;
        }
        Ok(())
    }

    /// The header of the next record, of a packet of this length behind its Ethernet header.
    fn begin_record(&mut self, total: usize) -> Result<(), AllocError> {
        self.records = self.records.saturating_add(1);
        let length = u32::try_from(total.saturating_add(14)).unwrap_or(u32::MAX);
        for number in [0, self.records, length, length] {
            self.bytes.extend_from_slice(&number.to_le_bytes())?;
        }
        Ok(())
    }

    /// The next bytes of a side.
    fn send(&mut self, side: Side, payload: &[u8]) -> Result<(), AllocError> {
        let next = match side {
            Side::Client => &mut self.client_next,
            Side::Server => &mut self.server_next,
        };
        let seq = *next;
        *next = seq.wrapping_add(u32::try_from(payload.len()).unwrap_or(u32::MAX));
        self.record(side, seq, ACK, payload)
    }

    /// The next frames, each in a record.
    fn send_frames(&mut self, frames: &[Frame]) -> Result<(), AllocError> {
        for frame in frames {
            let payload = bytes_of(self.alloc, frame)?;
            self.send(frame.side, payload.as_slice())?;
        }
        Ok(())
    }
}

/// The bytes of a frame (RFC 9113, 4.1).
pub fn bytes_of(alloc: Global, frame: &Frame) -> Result<Vec<u8>, AllocError> {
    let payload = payload_of(alloc, frame)?;
    let length = u32::try_from(payload.len()).unwrap_or(u32::MAX);
    let [_, high, middle, low] = length.to_be_bytes();
    let mut bytes = Vec::new(alloc);
    bytes.extend_from_slice(&[high, middle, low, frame.code, frame.flags])?;
    bytes.extend_from_slice(&frame.stream.to_be_bytes())?;
    bytes.extend_from_slice(payload.as_slice())?;
    Ok(bytes)
}

/// The payload of a frame: an increment, a promised stream, an initial window where there is one, or zeros.
fn payload_of(alloc: Global, frame: &Frame) -> Result<Vec<u8>, AllocError> {
    let mut payload = Vec::new(alloc);
    match frame.body {
        Body::WindowUpdate(increment) => {
            payload.extend_from_slice(&increment.get().to_be_bytes())?;
        }
        Body::PushPromise(stream) => payload.extend_from_slice(&stream.get().to_be_bytes())?,
        Body::Settings(values) => {
            if let Some(initial) = values.settings().initial {
                payload.extend_from_slice(&[0, 4])?;
                payload.extend_from_slice(&initial.to_be_bytes())?;
            }
        }
        _ => payload.resize(frame.length.get() as usize, 0)?,
    }
    Ok(payload)
}
