//! What a row holds of a stream: all of it, in 12 bytes. Mostly each live window has credit, and `Standings` says how
//! the stream stands. Where a window has none left, the number of the opening frame is marked, and such credits stand
//! where `Standings` has no meaning. So one comparison tells whether a row may be met quietly.

ghost use Rattle.std.specs.Prelude.{◌≡◌, ◌^◌, ◌≤ℤ◌, pos, true, false, Option};
ghost use Rattle.std.specs.Option.{ForSome};
ghost use Rattle.audit_terms.specs.code.Room.{HasRoom, WindowHasRoom};
ghost use Rattle.audit_terms.specs.code.Standing.{credit_after_change};
ghost use Rattle.quiet_pass.specs.code.HeldStreams.{held, is_low, low_stream, low_window};
ghost use Rattle.quiet_pass.specs.code.HeldStreams.{IsCreditMoved, IsEntryMoved, IsLowMoved, IsLowStanding};

use audit_terms::standings::{ENDED, has_credit, kept, without_window};
use audit_terms::{LARGEST_WINDOW, Sides, Stream};
use stream_credit::Standings;

/// What is added to the number of the opening frame where a window has no credit left. No frame has such a number.
const LOW: u32 = 1 << 31;

/// Has a live window no credit left?
#[inline(always)]
pub(crate) fn is_low(standings: &Standings) -> bool
    ensures { result ≡ is_low standings.now }
{
    LOW <= standings.opened
}

/// The stream that is held so.
pub(crate) fn held(standings: &Standings) -> Stream
    ensures same { result ≡ held standings.now }
    ensures client { WindowHasRoom (2 ^ 32) result.window.client }
    ensures server { WindowHasRoom (2 ^ 32) result.window.server }
{
    if is_low(standings) {
        low_stream(standings)
    } else {
        standings.stream()
    }
}

/// The stream that is held so where a window has no credit left.
fn low_stream(standings: &Standings) -> Stream
    requires { is_low standings.now ≡ true }
    ensures same { result ≡ low_stream standings.now }
    ensures client { WindowHasRoom (2 ^ 32) result.window.client }
    ensures server { WindowHasRoom (2 ^ 32) result.window.server }
{
    let unmarked = Standings {
        opened: standings.opened - LOW,
        ..*standings
    };
    Stream {
        life: unmarked.stream().life,
        window: Sides {
            client: low_window(standings.client),
            server: low_window(standings.server),
        },
    }
}

/// The window of a side where a window has no credit left.
fn low_window(standing: u32) -> Option<i64>
    ensures same { result ≡ low_window standing }
    ensures room { WindowHasRoom (2 ^ 32) result }
{
    if ENDED < standing {
        return Some(i64::from(standing) - i64::from(u32::MAX));
    }
    if has_credit(standing) {
        Some(i64::from(standing))
    } else {
        None
    }
}

/// How a stream is held, if its credits and the number of its opening frame are in range: those of a capture are.
pub(crate) fn hold(stream: &Stream) -> Option<Standings>
    ensures { ForSome result (λ standings. held standings ≡ stream.now) }
{
    match Standings::of(stream) {
        Some(standings) if !is_low(&standings) => Some(standings),
        _ => hold_low(stream),
    }
}

/// How a stream is held where a window has no credit left, if a row can hold it.
fn hold_low(stream: &Stream) -> Option<Standings>
    ensures { ForSome result (λ standings. held standings ≡ stream.now) }
{
    let opened = match stream.life.opened {
        Some(0) => return None,
        Some(number) => number,
        None => 0,
    };
    if LOW <= opened {
        return None;
    }
    Some(Standings {
        opened: opened + LOW,
        client: low_standing(stream.window.client, stream.life.ended.client)?,
        server: low_standing(stream.window.server, stream.life.ended.server)?,
    })
}

/// How a side stands that has this window, and has ended the stream or not, where a window has no credit left.
fn low_standing(window: Option<i64>, is_ended: bool) -> Option<u32>
    ensures { ForSome result (IsLowStanding window is_ended) }
{
    match window {
        Some(_) if is_ended => None,
        Some(credit) if credit <= 0 => used_up(credit),
        Some(credit) => kept(credit),
        None => Some(without_window(is_ended)),
    }
}

/// How a side stands whose window has this credit, 0 or less.
fn used_up(credit: i64) -> Option<u32>
    requires { credit ≤ℤ pos 0 }
    ensures { ForSome result (IsLowStanding (Option.Some credit) false) }
{
    if credit <= -i64::from(LARGEST_WINDOW) {
        return None;
    }
    Some((credit + i64::from(u32::MAX)) as u32)
}

/// How a stream is held after a change of the initial windows in force, if that shows nothing (RFC 9113, 6.9.2).
pub(crate) fn held_after_change(
    standings: &Standings,
    before: &Sides<u32>,
    after: &Sides<u32>,
) -> Option<Standings>
    ensures { ForSome result (λ next. IsEntryMoved before.now after.now (held standings.now) (held next)) }
{
    if !is_low(standings) {
        return standings.after_change(before, after);
    }
    Some(Standings {
        opened: standings.opened,
        client: low_after_change(standings.client, before.client, after.client)?,
        server: low_after_change(standings.server, before.server, after.server)?,
    })
}

/// How a side stands after that, where a window has no credit left.
fn low_after_change(standing: u32, before: u32, after: u32) -> Option<u32>
    ensures { ForSome result (IsLowMoved before after standing) }
{
    let Some(credit) = low_window(standing) else {
        return Some(standing);
    };
    let moved = moved_credit(credit, before, after)?;
    low_standing(Some(moved), false)
}

/// A credit after a change of the initial window, if no stall begins or ends, and it is no more than the largest.
fn moved_credit(credit: i64, before: u32, after: u32) -> Option<i64>
    requires { HasRoom (2 ^ 32) credit }
    ensures { ForSome result (IsCreditMoved before after credit) }
{
    let moved = moved_by(credit, before, after);
    if (credit <= 0) != (moved <= 0) || i64::from(LARGEST_WINDOW) < moved {
        return None;
    }
    Some(moved)
}

/// A credit after a change of the initial window.
fn moved_by(credit: i64, before: u32, after: u32) -> i64
    requires { HasRoom (2 ^ 32) credit }
    ensures { result ≡ credit_after_change before after credit }
{
    credit + i64::from(after) - i64::from(before)
}
