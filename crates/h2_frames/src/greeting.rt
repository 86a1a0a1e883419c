//! How a client's bytes begin, while they come.

ghost use Rattle.std.specs.Prelude.{◌≤◌, ◌++◌, take};
ghost use Rattle.h2_frames.specs.Preface.{preface};
ghost use Rattle.h2_frames.specs.code.Greeting.{IsGreeted};

/// The connection preface of a client (RFC 9113, 3.4).
pub(crate) const PREFACE: [u8; 24] = *b"PRI * HTTP/2.0\r\n\r\nSM\r\n\r\n";

/// How a client's bytes begin, as far as they came (RFC 9113, 3.4).
#[derive(Clone, Copy)]
pub(crate) enum Greeting {
    /// They are so many bytes of the preface, and not all of it.
    CutShort(usize),
    /// Otherwise than with the preface, whatever comes behind them.
    Other,
    /// With the preface.
    Whole,
}

/// How a client's bytes begin that are so many bytes of the preface, and then these; and those of them behind it.
pub(crate) fn greeting_of(matched: usize, more: &[u8]) -> (Greeting, &[u8])
    requires { matched ≤ 24 }
    ensures { IsGreeted (take matched preface ++ more.now) result.1.now result.0 }
{
    let mut count = matched;
    let mut rest = more;
    while count < PREFACE.len() {
        let Some((byte, later)) = rest.split_first() else {
            return (Greeting::CutShort(count), rest);
        };
        if *byte != PREFACE[count] {
            return (Greeting::Other, rest);
        }
        count += 1;
        rest = later;
    }
    (Greeting::Whole, rest)
}
