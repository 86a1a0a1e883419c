ghost use Rattle.std.specs.Prelude.{◌≡◌};

use crate::frames::Frame;
use crate::sides::{Side, Sides};

/// What the frames that a stream met have made of it (RFC 9113, 5.1).
///
/// ```text
///                               +--------------+
///               PUSH_PROMISE    |     idle     |    HEADERS
///               of the server   |  not opened  |    of the client
///                   ,-----------|              |-----------.
///                   |           +--------------+           |
///                   v                                      v
///           +--------------+                       +--------------+
///           | half-closed  |   END_STREAM or       |     open     |   END_STREAM or
///           | or reserved  |   RST_STREAM          |  ended by    |   RST_STREAM
///           |  ended by    |   of the client       |  neither     |   of the server
///           |  the client  |<----------------------|              |-----------.
///           +--------------+                       +--------------+           |
///                   |                                                         v
///                   |  END_STREAM or                                  +--------------+
///                   |  RST_STREAM                                     | half-closed  |
///                   |  of the server                                  |  ended by    |
///                   v                                                 |  the server  |
///           +--------------+                                          +--------------+
///           |    closed    |   END_STREAM or RST_STREAM of the client         |
///           |  ended by    |<-------------------------------------------------'
///           |  both        |
///           +--------------+
/// ```
///
/// A RST_STREAM closes a stream for both sides, and both windows end with it. The life tells its sender alone: what the
/// other side sends after it may have been under way, and is no finding. A promised stream is reserved until the
/// server's HEADERS, which the life does not tell.
#[derive(Clone, Copy)]
pub struct StreamLife {
    /// The number of the frame that opened it.
    pub opened: Option<u32>,
    /// Has this side ended it?
    pub ended: Sides<bool>,
}

impl StreamLife {
    ghost use Rattle.std.specs.Prelude.{◌&&◌, ◌||◌, is_some};
    ghost use Rattle.audit_terms.specs.Sides.{side_of};
    ghost use Rattle.audit_terms.specs.Life.{idle_life, is_opening, is_last_of, life_after, is_misplaced_promise};
    ghost use Rattle.audit_terms.specs.Life.{is_not_opened, is_after_end};

    /// A stream that no frame has met.
    pub fn idle() -> Self
        ensures { result ≡ idle_life }
    {
        StreamLife {
            opened: None,
            ended: Sides::both(false),
        }
    }

    /// Does the frame open the stream? The first HEADERS of the client opens one of an odd identifier, the first
    /// promise of the server one of an even identifier (RFC 9113, 5.1.1).
    pub fn is_opening(&self, stream: u32, frame: &Frame) -> bool
        ensures { result ≡ is_opening stream self.now frame.now }
    {
        self.opened.is_none()
            && ((stream % 2 == 1 && frame.is_client_headers()) || frame.promises(stream))
    }

    /// The life of the stream after a frame that it meets.
    pub fn after(&self, stream: u32, frame: &Frame) -> Self
        ensures { result ≡ life_after stream self.now frame.now }
    {
        let opening = self.is_opening(stream, frame);
        StreamLife {
            opened: if opening {
                Some(frame.number)
            } else {
                self.opened
            },
            ended: Sides {
                client: self.ended_after(Side::Client, stream, frame),
                server: self.ended_after(Side::Server, stream, frame),
            },
        }
    }

    /// Has a side ended the stream after a frame? Only an opened stream ends.
    fn ended_after(&self, side: Side, stream: u32, frame: &Frame) -> bool
        ensures { result ≡ (side_of side self.now.ended
            || ((is_opening stream self.now frame.now || is_some self.now.opened)
            && is_last_of side stream frame.now)) }
    {
        self.ended.of(side)
            || ((self.is_opening(stream, frame) || self.opened.is_some())
                && frame.is_last_of(side, stream))
    }

    /// Is it a promise of the server on a stream on which it can promise nothing (6.6)?
    fn is_misplaced_promise(&self, stream: u32, frame: &Frame) -> bool
        ensures { result ≡ is_misplaced_promise stream self.now frame.now }
    {
        frame.is_server_promise()
            && frame.stream == stream
            && (stream % 2 == 0 || self.opened.is_none() || self.ended.server)
    }

    /// Does the frame need an opened stream, where this one is not?
    pub fn is_not_opened(&self, stream: u32, frame: &Frame) -> bool
        ensures { result ≡ is_not_opened stream self.now frame.now }
    {
        (frame.needs_opening() && self.opened.is_none() && !self.is_opening(stream, frame))
            || self.is_misplaced_promise(stream, frame)
    }

    /// Is it DATA or HEADERS of a side that has ended the stream (5.1)?
    pub fn is_after_end(&self, frame: &Frame) -> bool
        ensures { result ≡ is_after_end self.now frame.now }
    {
        (frame.body.is_content() || frame.body.is_headers())
            && self.opened.is_some()
            && self.ended.of(frame.side)
    }
}
