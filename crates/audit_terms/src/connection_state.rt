ghost use Rattle.std.specs.Prelude.{◌≡◌};
ghost use Rattle.audit_terms.specs.Connection.{connection_start};

use crate::sides::Sides;
use crate::windows::FIRST_WINDOW;

/// The greatest length in bytes of a frame at the start (RFC 9113, 4.2 and 6.5.2).
pub const FIRST_LIMIT: u32 = 16_384;

/// A connection between two frames (RFC 9113, 4.2, 5.1.1, 6.9).
#[derive(Clone, Copy)]
pub struct ConnectionState {
    /// The credit in bytes of each side's connection window.
    pub credit: Sides<i64>,
    /// The greatest stream, an odd one, that the client opened so far, or 0.
    pub opened: u32,
    /// The greatest even stream that the server promised so far, or 0.
    pub promised: u32,
    /// ENABLE_PUSH of the client, in force for the server (6.5.2): 0 where it may promise nothing.
    pub push: u32,
    /// The greatest length in bytes of a frame that each side may send.
    pub limit: Sides<u32>,
}

impl ConnectionState {
    /// The connection before any frame.
    pub fn start() -> Self
        ensures { result ≡ connection_start }
    {
        ConnectionState {
            credit: Sides::both(i64::from(FIRST_WINDOW)),
            opened: 0,
            promised: 0,
            push: 1,
            limit: Sides::both(FIRST_LIMIT),
        }
    }
}
