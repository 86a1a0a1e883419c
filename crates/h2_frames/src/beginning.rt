ghost use Rattle.tcp_streams.specs.Bytes.{joined};
ghost use Rattle.h2_frames.specs.code.Greeting.{IsBeginning};

use crate::greeting::{Greeting, greeting_of};

/// How a client's bytes begin, which lie in these pieces.
pub(crate) fn beginning_of(pieces: &[&[u8]]) -> Greeting
    ensures { IsBeginning (joined pieces.now) result }
{
    let mut count = 0;
    for piece in pieces {
        match greeting_of(count, piece).0 {
            Greeting::CutShort(matched) => count = matched,
            greeting => return greeting,
        }
    }
    Greeting::CutShort(count)
}
