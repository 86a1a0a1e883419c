ghost use Rattle.std.specs.Prelude.{◌≡◌};
ghost use Rattle.conn_scan.specs.code.Ids.{opened_id, promise_of};

use audit_terms::{Frame, Item};

/// The stream that the HEADERS of an item open, an odd one of the client (RFC 9113, 5.1.1).
pub(crate) fn opened_id(item: &Item) -> Option<u32>
    ensures { result ≡ opened_id item.now }
{
    if item.opens && item.frame.body.is_headers() {
        Some(item.frame.stream)
    } else {
        None
    }
}

/// The even stream that the server promises by a frame.
pub(crate) fn promise_of(frame: &Frame) -> Option<u32>
    ensures { result ≡ promise_of frame.now }
{
    let promised = frame.body.promised();
    if frame.is_server_promise() && promised % 2 == 0 {
        Some(promised)
    } else {
        None
    }
}
