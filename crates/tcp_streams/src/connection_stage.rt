//! The connections of a capture, while its packets come.

ghost use Rattle.std.specs.Prelude.{◌≡◌, ◌∷◌, ◌<◌, ◌^◌, [], ℕ, IfOk, List, OnOk};
ghost use Rattle.packet_heads.specs.code.Handed.{ArePayloadsOf, Handed, packets_among};
ghost use Rattle.tcp_streams.specs.Membership.{strays_of};
ghost use Rattle.tcp_streams.specs.Sequence.{payload_length};
ghost use Rattle.tcp_streams.specs.code.Opened.{AreOpened, AreVisited, HasOpened, IsNextOf, IsNextPacketOf};
ghost use Rattle.tcp_streams.specs.code.Opened.{with_handed};
ghost use Rattle.tcp_streams.specs.code.Side.{IsSent, Sent};

use crate::connection_visitor::ConnectionVisitor;
use crate::members::Stray;
use crate::table::{Table, Turn};
use input_output::TableHash;
use packet_heads::{Packet, PacketVisitor, Segment};
use std::alloc::{AllocError, Global};

/// The connections of the packets so far, each as what its segments made of a visitor, and the strays.
///
/// Each segment is handed on with its payload to the visitor of the connection that it belongs to: the last opening of
/// its pair at or before it.
#[derive(Drop)]
pub struct ConnectionStage<V> {
    table: Table,
    opened: Vec<V>,
}

impl<V: ConnectionVisitor> ConnectionStage<V> {
    /// No connection.
    pub fn new(alloc: Global, hash: TableHash) -> ConnectionStage<V>
        ensures { HasOpened V.after [] result }
    {
        ConnectionStage {
            table: Table::new(alloc, hash),
            opened: Vec::new(alloc),
        }
    }

    /// What is kept of each connection, in order of opening, and the strays, in order of first sight.
    pub fn into_parts(self) -> (Vec<V>, Vec<Stray>)
        // The visitor of each opening of a capture was handed exactly the segments that belong to it, in order, with
        // their payloads as they stand in the capture.
        ensures opened { (capture : List ℕ) (handed : List Handed) → HasOpened V.after handed self
            → ArePayloadsOf capture handed → AreVisited V.after capture (packets_among handed) result.0.items }
        ensures strays { (handed : List Handed) → HasOpened V.after handed self
            → result.1.items ≡ strays_of (packets_among handed) }
    {
        let ConnectionStage { table, opened } = self;
        (opened, table.into_strays())
    }

    /// Takes the next packet, which counts for nothing if it is no segment.
    fn take_packet(
        &mut self,
        alloc: Global,
        packet: &Packet,
        payload: &[u8],
    ) -> Result<(), AllocError>
        requires { (past : List Sent) × AreOpened V.after past self.old × IsNextPacketOf past packet.now payload.now }
        ensures { (past : List Sent) → AreOpened V.after past self.old → IsNextPacketOf past packet.now payload.now
            → OnOk result (AreOpened V.after (with_handed past (packet.now, payload.now)) self.new) }
    {
        match packet {
            Packet::Segment(segment) => self.hand_on(alloc, segment, payload),
            Packet::Skipped(_) => Ok(()),
            Packet::Refused(_) => Ok(()),
        }
    }

    /// Hands the next segment on to the visitor of its connection, if it belongs to one.
    fn hand_on(
        &mut self,
        alloc: Global,
        segment: &Segment,
        payload: &[u8],
    ) -> Result<(), AllocError>
        requires sent { IsSent segment.now payload.now }
        requires next { (past : List Sent) × AreOpened V.after past self.old × IsNextOf past segment.now }
        ensures { (past : List Sent) → AreOpened V.after past self.old → IsNextOf past segment.now
            → OnOk result (AreOpened V.after ((segment.now, payload.now) ∷ past) self.new) }
    {
        let turn = self.table.add(segment)?;
        match turn {
            Turn::Opens => {
                let visitor = begun(alloc, segment, payload)?;
                self.opened.push(visitor)?;
                Ok(())
            }
            Turn::Joins(k) => self.opened[k].take(alloc, segment, payload),
            Turn::Counts(_) => Ok(()),
            Turn::Begins => Ok(()),
        }
    }
}

impl<V: ConnectionVisitor> PacketVisitor for ConnectionStage<V> {
    ghost after = { HasOpened V.after };

    fn take(&mut self, alloc: Global, packet: &Packet, payload: &[u8]) -> Result<(), AllocError> {
        self.take_packet(alloc, packet, payload)
    }
}

/// A visitor that was handed the SYN which opens its connection.
fn begun<V: ConnectionVisitor>(
    alloc: Global,
    segment: &Segment,
    payload: &[u8],
) -> Result<V, AllocError>
    requires sent { IsSent segment.now payload.now }
    requires short { payload_length segment.now < 2 ^ 31 }
    ensures { IfOk result (V.after segment.now ((segment.now, payload.now) ∷ []) segment.now.rec) }
{
    let mut visitor = V::begin(alloc, segment)?;
    visitor.take(alloc, segment, payload)?;
    Ok(visitor)
}
