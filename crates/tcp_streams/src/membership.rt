ghost use Rattle.std.specs.Prelude.{◌≡◌, ◌+◌, ◌<◌, ◌^◌, [], ◌∷◌, List, length, All, IfOk, OnOk};
ghost use Rattle.tcp_streams.specs.code.Orderly.{AreMembers};
ghost use Rattle.tcp_streams.specs.code.Past.{past_of};
ghost use Rattle.tcp_streams.specs.code.Table.{AreConnectionsOf, IsTableOf, RecordsDescend};
ghost use Rattle.tcp_streams.specs.Membership.{AreConnections, strays_of};
ghost use Rattle.packet_heads.specs.code.Order.{AreNumberedFrom};
ghost use Rattle.packet_heads.specs.declared.packets.Segment.{Segment as Shown};

use crate::members::{Connection, Connections};
use crate::table::{Table, Turn};
use input_output::TableHash;
use packet_heads::{Packet, Segment, segment_at};
use std::alloc::{AllocError, Global};

/// Says which segments belong to which opening, and which to none.
///
/// A SYN without ACK opens a connection of its pair, unless its sender and sequence number are those of
/// the pair's last opening (RFC 9293, 3.5). Each segment belongs to the last opening of its pair at or
/// before it; one without such an opening is a stray.
///
/// `packets` are to be those of a capture, as `packet_heads::PacketWalk` gives them.
pub fn connections(
    alloc: Global,
    hash: TableHash,
    packets: &[Packet],
) -> Result<Connections, AllocError>
    requires few { length packets.now < 2 ^ 32 }
    requires numbered { AreNumberedFrom 1 packets.now }
    ensures opened { IfOk result (λ found. AreConnections packets.now found.opened.items) }
    ensures strays { IfOk result (λ found. found.strays.items ≡ strays_of packets.now) }
    ensures members { IfOk result (λ found. All (λ c. AreMembers 0 packets.now c.members.items) found.opened.items) }
{
    let mut table = Table::new(alloc, hash);
    let mut opened = Vec::new(alloc);
    take_in(alloc, packets, &mut table, &mut opened)?;
    Ok(Connections {
        opened,
        strays: table.into_strays(),
    })
}

/// Takes all packets into a table, and their segments into the connections that these belong to.
fn take_in(
    alloc: Global,
    packets: &[Packet],
    table: &mut Table,
    opened: &mut Vec<Connection>,
) -> Result<(), AllocError>
    requires few { length packets.now < 2 ^ 32 }
    requires numbered { AreNumberedFrom 1 packets.now }
    requires table { IsTableOf [] table.old }
    requires opened { opened.old.items ≡ [] }
    ensures { OnOk result (IsTableOf (past_of packets.now) table.new
        × AreConnectionsOf (past_of packets.now) opened.new.items) }
{
    for index in 0..packets.len() {
        if let Some(segment) = segment_at(packets, index) {
            add(alloc, table, opened, segment)?;
        }
    }
    Ok(())
}

/// Takes the next segment into the connection that it belongs to, if there is one.
fn add(
    alloc: Global,
    table: &mut Table,
    opened: &mut Vec<Connection>,
    segment: &Segment,
) -> Result<(), AllocError>
    requires { (past : List Shown) × IsTableOf past table.old × AreConnectionsOf past opened.old.items
        × (length past + 1 < 2 ^ 32) }
    ensures { (past : List Shown) → IsTableOf past table.old → AreConnectionsOf past opened.old.items
        → RecordsDescend segment.now.rec past → OnOk result (IsTableOf (segment.now ∷ past) table.new
        × AreConnectionsOf (segment.now ∷ past) opened.new.items) }
{
    let turn = table.add(segment)?;
    match turn {
        Turn::Opens => {
            let connection = Connection::opened_by(alloc, segment)?;
            opened.push(connection)?;
            Ok(())
        }
        Turn::Joins(k) => opened[k].join(segment),
        Turn::Counts(_) => Ok(()),
        Turn::Begins => Ok(()),
    }
}
