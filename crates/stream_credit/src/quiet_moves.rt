//! Frames that show nothing of a stream where credits are not shown: DATA, HEADERS and grants that move one window of
//! an open stream, and no more. Most frames are of this kind, so a run meets them without a step.

ghost use Rattle.std.specs.Prelude.{◌≡◌, ◌^◌, ◌<◌, false};
ghost use Rattle.std.specs.Bool.{OnTrue, OnFalse};
ghost use Rattle.std.specs.Option.{ForSome};
ghost use Rattle.audit_terms.specs.Side.{other};
ghost use Rattle.audit_terms.specs.Frame.{sends_end};
ghost use Rattle.audit_terms.specs.Life.{is_after_end};
ghost use Rattle.audit_terms.specs.code.Room.{HasRoom, WindowHasRoom};
ghost use Rattle.stream_credit.specs.code.Quiet.{sent, granted, IsMove, IsRaised, IsCredit, IsMovedQuietly};

use audit_terms::{Body, Frame, LARGEST_WINDOW, Side, Sides, StreamLife};

/// What a frame does to one window.
#[derive(Clone, Copy)]
pub(crate) struct Move {
    /// Whose window it is.
    pub(crate) side: Side,
    /// What the credit rises by, in bytes: below 0 for content.
    pub(crate) amount: i64,
}

/// What a frame moves, if it is DATA, HEADERS or a grant that does nothing else to an open stream.
pub(crate) fn move_of(stream: u32, life: &StreamLife, frame: &Frame) -> Option<Move>
    ensures { ForSome result (IsMove stream life.now frame.now) }
{
    if life.opened.is_none() {
        return None;
    }
    match frame.body {
        Body::Content | Body::Headers => sent(life, frame),
        Body::WindowUpdate(increment) => granted(stream, frame, increment.get()),
        _ => None,
    }
}

/// What DATA moves, and HEADERS by 0, unless it is its side's last or comes after that (RFC 9113, 5.1).
fn sent(life: &StreamLife, frame: &Frame) -> Option<Move>
    ensures moves { ForSome result (λ one. one ≡ sent frame.now) }
    ensures small { ForSome result (λ one. HasRoom (2 ^ 32) one.amount) }
    ensures in_time { ForSome result (λ _. is_after_end life.now frame.now ≡ false) }
    ensures goes_on { ForSome result (λ _. sends_end frame.now.side frame.now ≡ false) }
{
    if life.is_after_end(frame) || frame.sends_end(frame.side) {
        return None;
    }
    Some(Move {
        side: frame.side,
        amount: -i64::from(frame.content_by(frame.side)),
    })
}

/// What a WINDOW_UPDATE moves, if it is on the stream itself and grants more than 0 (6.9).
fn granted(stream: u32, frame: &Frame, increment: u32) -> Option<Move>
    ensures moves { ForSome result (λ one. one ≡ granted frame.now increment) }
    ensures small { ForSome result (λ one. HasRoom (2 ^ 32) one.amount) }
    ensures own { ForSome result (λ _. frame.now.stream ≡ stream) }
    ensures grants { ForSome result (λ _. 0 < increment) }
{
    if frame.stream != stream || increment == 0 {
        return None;
    }
    Some(Move {
        side: frame.side.other(),
        amount: i64::from(increment),
    })
}

/// Moves a window, if there is credit before and after the move, and no more than the largest window (6.9.1); and
/// returns whether it did.
pub(crate) fn move_quietly(windows: &mut Sides<Option<i64>>, one: &Move) -> bool
    requires amount { HasRoom (2 ^ 32) one.now.amount }
    requires client { WindowHasRoom (2 ^ 60) windows.old.client }
    requires server { WindowHasRoom (2 ^ 60) windows.old.server }
    ensures moved { OnTrue result (IsMovedQuietly windows.old one.now windows.new) }
    ensures otherwise { OnFalse result (windows.new ≡ windows.old) }
{
    let Some(after) = credit_after_move(&windows.of(one.side), one) else {
        return false;
    };
    *windows.of_mut(one.side) = Some(after);
    true
}

/// The credit of one window after a move, if there is credit before and after it, and no more than the largest window.
fn credit_after_move(window: &Option<i64>, one: &Move) -> Option<i64>
    requires amount { HasRoom (2 ^ 32) one.now.amount }
    requires room { WindowHasRoom (2 ^ 60) window.now }
    ensures { ForSome result (IsCredit window.now one.now) }
{
    match window {
        Some(before) => raised(before, &one.amount),
        None => None,
    }
}

/// A credit that rises by some bytes, if there is credit before and after it, and no more than the largest window.
fn raised(before: &i64, amount: &i64) -> Option<i64>
    requires amount { HasRoom (2 ^ 32) amount.now }
    requires room { HasRoom (2 ^ 60) before.now }
    ensures { ForSome result (IsRaised before.now amount.now) }
{
    let after = *before + *amount;
    if *before <= 0 || after <= 0 || after > i64::from(LARGEST_WINDOW) {
        return None;
    }
    Some(after)
}
