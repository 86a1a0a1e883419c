//! From records to packets.

ghost use Rattle.std.specs.Prelude.{◌≡◌, ℕ, length};
ghost use Rattle.packet_heads.specs.code.Handed.{payload_in};
ghost use Rattle.packet_heads.specs.code.Standing.{StandsIn};

use crate::decoding::decision_on;
use crate::packets::Packet;
use crate::visitor::PacketVisitor;
use pcap_records::{Record, RecordVisitor};
use std::alloc::{AllocError, Global};

/// Whoever is handed records, makes a packet of each, and hands it on.
#[derive(Drop)]
pub(crate) struct PacketStage<V> {
    /// How many records it was handed.
    pub count: u32,
    pub visitor: V,
}

impl<V: PacketVisitor> RecordVisitor for PacketStage<V> {
    ghost use Rattle.packet_heads.specs.code.Walk.{HasDecoded};

    ghost after = { HasDecoded V.after };

    fn take(
        &mut self,
        alloc: Global,
        link: u16,
        row: &Record,
        packet: &[u8],
    ) -> Result<(), AllocError> {
        self.count += 1;
        let decided = decision_on(link, self.count, row, packet);
        let payload = payload_in(self.count, row, packet, &decided);
        self.visitor.take(alloc, &decided, payload)
    }
}

/// The payload of the packet of a record with this number and these captured bytes: that of a segment, or none.
fn payload_in<'a>(number: u32, row: &Record, packet: &'a [u8], decided: &Packet) -> &'a [u8]
    requires size { length packet.now ≡ row.now.length }
    requires stands { StandsIn number row.now decided.now }
    ensures { result.now ≡ payload_in row.now packet.now decided.now }
{
    match decided {
        Packet::Segment(segment) => {
            let from = segment.lo - row.start;
            let upto = segment.hi - row.start;
            &packet[from as usize..upto as usize]
        }
        _ => &[],
    }
}
