ghost use Rattle.std.specs.Prelude.{◌≡◌};
ghost use Rattle.audit_terms.specs.Stream.{idle_stream};

use crate::lives::StreamLife;
use crate::sides::Sides;

/// One stream between two frames (RFC 9113, 5.1 and 6.9).
#[derive(Clone, Copy)]
pub struct Stream {
    /// Its opening and its ends.
    pub life: StreamLife,
    /// The credit in bytes of each side's window, while that window is live.
    pub window: Sides<Option<i64>>,
}

impl Stream {
    /// A stream that is not opened.
    pub fn idle() -> Self
        ensures { result ≡ idle_stream }
    {
        Stream {
            life: StreamLife::idle(),
            window: Sides::both(None),
        }
    }
}
