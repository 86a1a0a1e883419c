ghost use Rattle.std.specs.Prelude.{◌≡◌, ◌≤◌, length};

/// An endpoint of a connection (RFC 9113, 2.2): the client opened it.
#[derive(Clone, Copy, PartialEq, Eq, PartialOrd)]
pub enum Side {
    Client,
    Server,
}

impl Side {
    ghost use Rattle.audit_terms.specs.Side.{other, side_order, side_name};

    /// The endpoint at the other end.
    pub fn other(self) -> Side
        ensures { result ≡ other self }
    {
        match self {
            Side::Client => Side::Server,
            Side::Server => Side::Client,
        }
    }

    /// The client stands before the server.
    pub(crate) fn order(self) -> u8
        ensures { result ≡ side_order self }
    {
        self as u8
    }

    /// The word that a report prints.
    pub fn name(self) -> &'static str
        ensures name { result.now ≡ side_name self }
        ensures short { length result.now ≤ 6 }
    {
        match self {
            Side::Client => "client",
            Side::Server => "server",
        }
    }
}

/// A value for each endpoint.
#[derive(Clone, Copy)]
pub struct Sides<T> {
    pub client: T,
    pub server: T,
}

impl<T: Copy> Sides<T> {
    ghost use Rattle.audit_terms.specs.Sides.{side_of};
    ghost use Rattle.audit_terms.specs.code.Sides.{lends_side};
    ghost use Rattle.std.specs.Borrow.{sem};

    /// The same value for both endpoints.
    pub fn both(value: T) -> Self
        ensures { result ≡ record { client = value; server = value } }
    {
        Sides {
            client: value,
            server: value,
        }
    }

    /// The value of one endpoint.
    pub fn of(&self, side: Side) -> T
        ensures { result ≡ side_of side self.now }
    {
        match side {
            Side::Client => self.client,
            Side::Server => self.server,
        }
    }
}

impl<T> Sides<T> {
    ghost use Rattle.audit_terms.specs.Sides.{side_of};
    ghost use Rattle.audit_terms.specs.code.Sides.{lends_side};
    ghost use Rattle.std.specs.Borrow.{sem};

    /// The value of one endpoint, lent.
    pub fn of_ref(&self, side: Side) -> &T
        ensures { result.now ≡ side_of side self.now }
    {
        match side {
            Side::Client => &self.client,
            Side::Server => &self.server,
        }
    }

    /// The value of one endpoint, to be changed.
    pub fn of_mut(&mut self, side: Side) -> &mut T
        ensures* writes_back { sem 𝓛 (lends_side T.row self.entry side result) }
        ensures value { result.now ≡ side_of side self.old }
    {
        match side {
            Side::Client => &mut self.client,
            Side::Server => &mut self.server,
        }
    }
}
