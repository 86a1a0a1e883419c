ghost use Rattle.std.specs.Prelude.{◌≡◌};
ghost use Rattle.audit_report.specs.code.Contents.{tail_in};

use audit_terms::{Side, Sides};

/// What the lines of a connection and of its flows say that these hold.
#[derive(Clone, Copy)]
pub enum Contents {
    /// HTTP/2.
    Http2 {
        /// How many frames the two sides sent together.
        frames: u64,
        /// How many bytes each side's flow has after its last frame.
        tails: Sides<u32>,
    },
    /// The client's bytes do not begin with the connection preface.
    NotHttp2,
    /// The client's bytes end within the connection preface.
    NoPreface,
    /// The server's SYN ACK was not captured.
    NoHandshake,
}

/// How many bytes of the side are left over after its last frame.
pub(crate) fn tail_in(contents: Contents, side: Side) -> u32
    ensures { result ≡ tail_in side contents }
{
    match contents {
        Contents::Http2 { tails, .. } => tails.of(side),
        _ => 0,
    }
}
