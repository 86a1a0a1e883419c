//! The connection between two frames. A frame is met quietly if the window that it moves has credit before it and
//! after it.

ghost use Rattle.std.specs.Prelude.{◌≡◌, true, false, Option};
ghost use Rattle.std.specs.Bool.{OnTrue, OnFalse};
ghost use Rattle.std.specs.Option.{ForSome};
ghost use Rattle.audit_terms.specs.Frame.{is_server_promise};
ghost use Rattle.audit_terms.specs.Connection.{connection_start};
ghost use Rattle.quiet_pass.specs.code.Connection.{AreCreditsAfter, IsConnectionAfter};
ghost use Rattle.quiet_pass.specs.code.Connection.{HasCredits, IsCountedCredit, IsCreditAfter, IsOpenedAfter};
ghost use Rattle.quiet_pass.specs.code.Connection.{IsPromisedAfter, LeavesCredit};

use audit_terms::standings::{balance, kept};
use audit_terms::{Change, ConnectionState, Frame, Side, Sides, limit_after, new_limit, new_push};

/// The connection between two frames (RFC 9113, 4.2, 5.1.1, 6.9).
#[derive(Clone, Copy)]
pub(crate) struct KeptConnection {
    pub(crate) state: ConnectionState,
}

impl KeptConnection {
    /// The connection before any frame.
    pub(crate) fn start() -> Self
        ensures { result.state ≡ connection_start }
    {
        KeptConnection {
            state: ConnectionState::start(),
        }
    }

    /// Meets a frame, which opens no stream by HEADERS and may bring a change, and returns false if that may show
    /// something.
    pub(crate) fn meet(&mut self, frame: &Frame, change: &Option<Change>) -> bool
        ensures quiet { OnTrue result (IsConnectionAfter frame.now false change.now self.old self.new) }
        ensures left { OnFalse result (self.new ≡ self.old) }
    {
        let longest = new_limit(change, frame.side, self.state.limit.of(frame.side));
        if longest < frame.length.get() {
            return false;
        }
        let (Some(promised), Some(credit)) = (self.promised_after(frame), self.credits_after(frame))
        else {
            return false;
        };
        self.state = ConnectionState {
            credit,
            opened: self.state.opened,
            promised,
            push: new_push(change, self.state.push),
            limit: limit_after(change, &self.state.limit),
        };
        true
    }

    /// The credits of both sides after a frame, if they and its length show nothing: most frames bring the connection
    /// nothing else.
    #[inline(always)]
    pub(crate) fn credit_after_lone(&self, frame: &Frame) -> Option<Sides<i64>>
        ensures { ForSome result (HasCredits frame.now self.now) }
    {
        if self.state.limit.of(frame.side) < frame.length.get() {
            return None;
        }
        self.credits_after(frame)
    }

    /// The connection after a frame that leaves these credits, opens its stream and promises none, if that shows
    /// nothing.
    pub(crate) fn opened_by(&self, frame: &Frame, credit: Sides<i64>) -> Option<KeptConnection>
        requires unpromised { is_server_promise frame.now ≡ false }
        requires credit { HasCredits frame.now self.now credit }
        ensures { ForSome result (IsConnectionAfter frame.now true Option.None self.now) }
    {
        let opened = self.opened_after(frame)?;
        Some(KeptConnection {
            state: ConnectionState {
                credit,
                opened,
                ..self.state
            },
        })
    }

    /// Meets a frame that opens no stream, promises none and brings no change, and returns false if that may show
    /// something.
    #[inline]
    pub(crate) fn meet_lone(&mut self, frame: &Frame) -> bool
        requires { is_server_promise frame.now ≡ false }
        ensures quiet { OnTrue result (IsConnectionAfter frame.now false Option.None self.old self.new) }
        ensures left { OnFalse result (self.new ≡ self.old) }
    {
        let Some(credit) = self.credit_after_lone(frame) else {
            return false;
        };
        self.state.credit = credit;
        true
    }

    /// The credits of both sides after a frame, if that shows nothing but credits.
    #[inline(always)]
    fn credits_after(&self, frame: &Frame) -> Option<Sides<i64>>
        ensures { ForSome result (AreCreditsAfter frame.now self.now.state.credit) }
    {
        let Some(side) = moved_side(frame) else {
            return Some(self.state.credit);
        };
        let moved = credit_after(self.state.credit.of(side), side, frame)?;
        let mut credit = self.state.credit;
        *credit.of_mut(side) = moved;
        Some(credit)
    }

    /// The greatest stream that the client opened, after a frame that opens its stream, if that is in order (5.1.1).
    fn opened_after(&self, frame: &Frame) -> Option<u32>
        ensures { ForSome result (IsOpenedAfter frame.now true self.now.state.opened) }
    {
        if !frame.body.is_headers() {
            return Some(self.state.opened);
        }
        if frame.stream <= self.state.opened {
            return None;
        }
        Some(frame.stream)
    }

    /// The greatest even stream that the server promised, after a frame, if that is in order and allowed (5.1.1, 8.4).
    fn promised_after(&self, frame: &Frame) -> Option<u32>
        ensures { ForSome result (IsPromisedAfter frame.now self.now.state.push self.now.state.promised) }
    {
        if !frame.is_server_promise() {
            return Some(self.state.promised);
        }
        let promised = frame.body.promised();
        if self.state.push == 0 || promised % 2 == 1 || promised <= self.state.promised {
            return None;
        }
        Some(promised)
    }
}

/// The side whose credit a frame may move: it moves no other.
#[inline]
fn moved_side(frame: &Frame) -> Option<Side>
    ensures client { (result ≡ Option.Some Side.Client → ⊥) → LeavesCredit Side.Client frame.now }
    ensures server { (result ≡ Option.Some Side.Server → ⊥) → LeavesCredit Side.Server frame.now }
{
    if frame.body.is_content() {
        return Some(frame.side);
    }
    if frame.stream == 0 && frame.body.is_update() {
        return Some(frame.side.other());
    }
    None
}

/// A credit after a frame, if some is left before and after it, and no more than the largest window (6.9.1).
fn balance_after(credit: i64, side: Side, frame: &Frame) -> Option<i64>
    ensures { ForSome result (IsCountedCredit side frame.now credit) }
{
    let before = kept(credit)?;
    let after = balance(before, frame.grant_to(side, 0), frame.content_by(side))?;
    if after == 0 {
        return None;
    }
    Some(i64::from(after))
}

/// A credit after a frame, if that shows nothing but credit (6.9, 6.9.1).
fn credit_after(credit: i64, side: Side, frame: &Frame) -> Option<i64>
    ensures { ForSome result (IsCreditAfter side frame.now credit) }
{
    if frame.grants_nothing(side, 0) {
        return None;
    }
    balance_after(credit, side, frame)
}
