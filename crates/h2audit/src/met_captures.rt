//! Captures whose packets are met as they come.

ghost use Rattle.std.specs.Prelude.{[]};
ghost use Rattle.h2audit.specs.code.Met.{HasMetPackets};

use crate::met_connections::MetConnection;
use audit_report::CaptureLines;
use input_output::TableHash;
use packet_heads::{Packet, PacketVisitor};
use std::alloc::{AllocError, Global};
use tcp_streams::{ConnectionStage, ConnectionVisitor};

/// What comes of the packets of a capture, while they come: no packet or payload is kept, but by the connections that
/// wait for others.
#[derive(Drop)]
pub(crate) struct MetCapture<V> {
    pub(crate) lines: CaptureLines,
    pub(crate) connections: ConnectionStage<MetConnection<V>>,
}

impl<V: ConnectionVisitor> PacketVisitor for MetCapture<V> {
    ghost use Rattle.h2audit.specs.code.Met.{HasMetPackets};

    ghost after = { HasMetPackets V.after };

    fn take(&mut self, alloc: Global, packet: &Packet, payload: &[u8]) -> Result<(), AllocError> {
        self.connections.take(alloc, packet, payload)?;
        self.lines.take(packet)
    }
}

impl<V: ConnectionVisitor> MetCapture<V> {
    /// No packet came.
    pub(crate) fn new(alloc: Global, hash: TableHash) -> MetCapture<V>
        ensures { HasMetPackets V.after [] result }
    {
        MetCapture {
            lines: CaptureLines::new(alloc),
            connections: ConnectionStage::new(alloc, hash),
        }
    }
}
