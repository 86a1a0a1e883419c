//! Whoever is handed the packets of a capture.

ghost use Rattle.std.specs.Prelude.{◌∷◌, ◌++◌, [], List, OnOk};
ghost use Rattle.packet_heads.specs.code.Handed.{Handed, IsNextPacket};

use crate::packets::Packet;
use std::alloc::{AllocError, Global};

/// Whoever is handed the packets of a capture, each once, in order, and with each segment its payload.
pub trait PacketVisitor {
    /// The visitor is what these packets, with their payloads, made of it.
    ghost after: { List Handed → Self → Type 0 };

    /// Takes the next packet, and its payload if it is a segment. Where memory runs out, nothing is known of the
    /// visitor.
    fn take(&mut self, alloc: Global, packet: &Packet, payload: &[u8]) -> Result<(), AllocError>
        requires { (handed : List Handed) × after handed self.old × IsNextPacket handed packet.now payload.now }
        ensures { (handed : List Handed) → after handed self.old → IsNextPacket handed packet.now payload.now
            → OnOk result (after (handed ++ (packet.now, payload.now) ∷ []) self.new) };
}
