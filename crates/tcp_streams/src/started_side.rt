use crate::members::Connection;
use audit_terms::Side;
use packet_heads::Packet;

/// A side of a connection whose initial sequence number is known, among the packets of its capture.
#[derive(Clone, Copy)]
pub(crate) struct StartedSide<'a> {
    pub packets: &'a [Packet],
    pub connection: &'a Connection,
    pub side: Side,
    pub initial_number: u32,
}
