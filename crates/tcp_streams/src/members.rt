ghost use Rattle.std.specs.Prelude.{◌≡◌, ◌<◌, IfOk, OnOk};
ghost use Rattle.tcp_streams.specs.code.Past.{answers};

use audit_terms::Side;
use packet_heads::{Endpoint, Segment};
use std::alloc::{AllocError, Global};

/// A TCP connection that the capture saw open.
#[derive(Drop)]
pub struct Connection {
    /// Who sent the opening SYN.
    pub client: Endpoint,
    pub server: Endpoint,
    /// The record of the opening SYN.
    pub rec: u32,
    /// The client's initial sequence number (RFC 9293, 3.4).
    pub client_isn: u32,
    /// The server's, where its SYN ACK was captured.
    pub server_isn: Option<u32>,
    /// The records of both sides' segments, rising.
    pub members: Vec<u32>,
}

/// Is it a server's SYN with ACK (RFC 9293, 3.5), to this client?
pub(crate) fn is_answer(client: &Endpoint, segment: &Segment) -> bool
    ensures { result ≡ answers client.now segment.now }
{
    segment.from != *client && segment.syn && segment.ack
}

/// How many members a connection has room for at first: the least block of memory holds as many.
const FIRST_MEMBERS: usize = 6;

impl Connection {
    ghost use Rattle.tcp_streams.specs.Members.{initial_of};
    ghost use Rattle.std.specs.Prelude.{◌∷◌, []};
    ghost use Rattle.tcp_streams.specs.code.Past.{connection_with, membership};
    ghost use Rattle.tcp_streams.specs.code.Table.{joined};

    /// The connection that a SYN opens, without any segment.
    fn of(alloc: Global, opening: &Segment) -> Result<Connection, AllocError>
        ensures { IfOk result (λ c. membership c ≡ connection_with opening.now []) }
    {
        Ok(Connection {
            client: opening.from,
            server: opening.to,
            rec: opening.rec,
            client_isn: opening.seq,
            server_isn: None,
            members: Vec::with_capacity(alloc, FIRST_MEMBERS)?,
        })
    }

    /// The connection that a SYN opens, with it.
    pub(crate) fn opened_by(alloc: Global, opening: &Segment) -> Result<Connection, AllocError>
        ensures { IfOk result (λ c. membership c ≡ connection_with opening.now (opening.now ∷ [])) }
    {
        let mut connection = Connection::of(alloc, opening)?;
        connection.join(opening)?;
        Ok(connection)
    }

    /// A side's initial sequence number, where the capture shows it.
    pub(crate) fn initial_of(&self, side: Side) -> Option<u32>
        ensures { result ≡ initial_of self.now side }
    {
        match side {
            Side::Client => Some(self.client_isn),
            Side::Server => self.server_isn,
        }
    }

    /// Takes in one more segment of either side.
    pub(crate) fn join(&mut self, segment: &Segment) -> Result<(), AllocError>
        ensures { OnOk result (membership self.new ≡ joined (membership self.old) segment.now) }
    {
        self.members.push(segment.rec)?;
        if is_answer(&self.client, segment) && self.server_isn.is_none() {
            self.server_isn = Some(segment.seq);
        }
        Ok(())
    }
}

/// The segments of a pair of endpoints before any opening of that pair.
#[derive(Clone, Copy)]
pub struct Stray {
    /// The sender of the first of them.
    pub from: Endpoint,
    pub to: Endpoint,
    /// How many there are.
    pub segments: u32,
}

/// The connections of a capture, in order of opening, and its strays, in order of first sight.
#[derive(Drop)]
pub struct Connections {
    pub opened: Vec<Connection>,
    pub strays: Vec<Stray>,
}
