//! How a quiet stream stands, as most are. Each of its live windows has credit, so one number says how a side stands,
//! as `audit_terms::standings` has it.

ghost use Rattle.std.specs.Prelude.{◌≡◌, ℕ, true};
ghost use Rattle.std.specs.Bool.{OnTrue};
ghost use Rattle.std.specs.Option.{ForSome};
ghost use Rattle.audit_terms.specs.declared.sides.Sides.{Sides as SidesTerm};
ghost use Rattle.audit_terms.specs.code.Standing.{has_credit, window_of};
ghost use Rattle.audit_terms.specs.Stream.{idle_stream};
ghost use Rattle.stream_credit.specs.code.Looks.{is_live};
ghost use Rattle.stream_credit.specs.code.Standings.{IsStandingAfter, IsOpeningStanding, opened_of, life_of, stream_of};
ghost use Rattle.stream_credit.specs.code.Standings.{IsNext, IsNextOpened, IsOpenedBy, IsStandingOf, AreMovedBy};
ghost use Rattle.stream_credit.specs.code.Standings.{of_side, sided};

use audit_terms::standings::{
    ENDED, balance, has_credit, has_ended, kept, standing_after_change, without_window,
};
use audit_terms::{Frame, Side, Sides, Stream, StreamLife};

/// A stream between two of its frames, for as long as it is quiet: 12 bytes.
#[derive(Clone, Copy)]
pub struct Standings {
    /// The number of the frame that opened it; 0 where none did.
    pub opened: u32,
    /// How the client stands.
    pub client: u32,
    /// How the server stands.
    pub server: u32,
}

impl Standings {
    /// A stream that is not opened.
    pub fn idle() -> Self
        ensures { stream_of result ≡ idle_stream }
    {
        Standings {
            opened: 0,
            client: 0,
            server: 0,
        }
    }

    /// The number of the frame that opened it.
    pub fn opened_at(&self) -> Option<u32>
        ensures { result ≡ opened_of self.now.opened }
    {
        if self.opened == 0 {
            None
        } else {
            Some(self.opened)
        }
    }

    /// Its opening and its ends.
    fn life(&self) -> StreamLife
        ensures { result ≡ life_of self.now }
    {
        StreamLife {
            opened: self.opened_at(),
            ended: Sides {
                client: has_ended(self.client),
                server: has_ended(self.server),
            },
        }
    }

    /// The stream that stands so.
    pub fn stream(&self) -> Stream
        ensures { result ≡ stream_of self.now }
    {
        Stream {
            life: self.life(),
            window: Sides {
                client: window_of(self.client),
                server: window_of(self.server),
            },
        }
    }

    /// How a stream stands, if each window that lives has credit, no more than the largest, and no side has one that
    /// has ended the stream.
    pub fn of(stream: &Stream) -> Option<Self>
        ensures { ForSome result (λ standings. stream_of standings ≡ stream.now) }
    {
        let opened = match stream.life.opened {
            Some(0) => return None,
            Some(number) => number,
            None => 0,
        };
        Some(Standings {
            opened,
            client: standing_of(stream.window.client, stream.life.ended.client)?,
            server: standing_of(stream.window.server, stream.life.ended.server)?,
        })
    }

    /// Is it a stream that is not opened?
    pub(crate) fn is_idle(&self) -> bool
        ensures { OnTrue result (stream_of self.now ≡ idle_stream) }
    {
        self.opened == 0 && self.client == 0 && self.server == 0
    }

    /// Does a window of it live?
    pub(crate) fn is_live(&self) -> bool
        ensures { result ≡ is_live (stream_of self.now) }
    {
        has_credit(self.client) || has_credit(self.server)
    }

    /// The stream that a frame opens, if it does and shows nothing but credits.
    pub fn opened(stream: u32, initial: &Sides<u32>, frame: &Frame) -> Option<Self>
        ensures { ForSome result (IsOpenedBy stream initial.now frame.now) }
    {
        let idle = StreamLife::idle();
        if frame.number == 0
            || !idle.is_opening(stream, frame)
            || idle.is_not_opened(stream, frame)
        {
            return None;
        }
        let client_ends = frame.is_last_of(Side::Client, stream);
        let server_ends = frame.is_last_of(Side::Server, stream);
        Some(Standings {
            opened: frame.number,
            client: opening_standing(initial.client, client_ends)?,
            server: opening_standing(initial.server, server_ends)?,
        })
    }

    /// The stream after a frame on it, if it is opened and the frame shows nothing.
    // In line, since it is called for each frame, as `Pending::meet` is.
    #[inline(always)]
    pub fn after(&self, frame: &Frame) -> Option<Self>
        ensures { ForSome result (IsNextOpened frame.now self.now) }
    {
        let life = self.life();
        if self.opened == 0
            || life.is_not_opened(frame.stream, frame)
            || life.is_after_end(frame)
            || frame.body.is_zero_grant()
        {
            return None;
        }
        // Of the sender and the receiver most questions answer themselves, whichever the client is.
        let sender = frame.side;
        let sent = standing_after(self.of_side(sender), sender, frame)?;
        let heard = standing_after(self.of_side(sender.other()), sender.other(), frame)?;
        Some(Self::sided(self.opened, sender, sent, heard))
    }

    /// How a side stands.
    fn of_side(&self, side: Side) -> u32
        ensures { result ≡ of_side side self.now }
    {
        match side {
            Side::Client => self.client,
            Side::Server => self.server,
        }
    }

    /// A stream on which a side stands so, and the other one so.
    fn sided(opened: u32, side: Side, own: u32, other: u32) -> Self
        ensures { result ≡ sided side opened own other }
    {
        let (client, server) = match side {
            Side::Client => (own, other),
            Side::Server => (other, own),
        };
        Standings {
            opened,
            client,
            server,
        }
    }

    /// The stream after a frame that it meets, if it is opened and the frame shows nothing.
    pub(crate) fn met(&self, stream: u32, frame: &Frame) -> Option<Self>
        ensures { ForSome result (λ next. (initial : SidesTerm ℕ) → IsNext stream initial frame.now self.now next) }
    {
        if frame.stream == stream {
            return self.after(frame);
        }
        // The server promised it before, and does so again.
        if self.opened != 0 && frame.is_server_promise() && has_ended(self.client) {
            return Some(*self);
        }
        None
    }

    /// A stream that is not opened, after a frame that it meets, if that shows nothing.
    pub(crate) fn first(stream: u32, initial: &Sides<u32>, frame: &Frame) -> Option<Self>
        ensures { ForSome result (λ next. (idle : Standings) → stream_of idle ≡ idle_stream
            → IsNext stream initial.now frame.now idle next) }
    {
        let idle = StreamLife::idle();
        if idle.is_opening(stream, frame) {
            return Self::opened(stream, initial, frame);
        }
        if idle.is_not_opened(stream, frame) {
            return None;
        }
        Some(Self::idle())
    }

    /// The stream after a change of the initial windows in force, if that shows nothing (RFC 9113, 6.9.2).
    pub fn after_change(&self, before: &Sides<u32>, after: &Sides<u32>) -> Option<Self>
        ensures { ForSome result (AreMovedBy before.now after.now self.now) }
    {
        Some(Standings {
            opened: self.opened,
            client: standing_after_change(self.client, before.client, after.client)?,
            server: standing_after_change(self.server, before.server, after.server)?,
        })
    }
}

/// The window of a side that stands so.
fn window_of(standing: u32) -> Option<i64>
    ensures { result ≡ window_of standing }
{
    if has_credit(standing) {
        Some(i64::from(standing))
    } else {
        None
    }
}

/// How a side stands that has this window, and has ended the stream or not, if one number says so.
fn standing_of(window: Option<i64>, is_ended: bool) -> Option<u32>
    ensures { ForSome result (IsStandingOf window is_ended) }
{
    match window {
        Some(_) if is_ended => None,
        Some(credit) => kept(credit),
        None => Some(without_window(is_ended)),
    }
}

/// How a side stands after a frame on the stream, which is opened, if nothing of that is shown (RFC 9113, 5.1, 6.9.1).
#[inline(always)]
fn standing_after(standing: u32, side: Side, frame: &Frame) -> Option<u32>
    ensures { ForSome result (IsStandingAfter side frame.now standing) }
{
    if has_credit(standing) {
        return live_after(standing, side, frame);
    }
    let is_last = frame.is_last_of(side, frame.stream);
    Some(if is_last { ENDED } else { standing })
}

/// How it stands where its window is live: the frame does not send more than there is, and grants no more than the
/// largest window holds.
#[inline(always)]
fn live_after(credit: u32, side: Side, frame: &Frame) -> Option<u32>
    requires { has_credit credit ≡ true }
    ensures { ForSome result (IsStandingAfter side frame.now credit) }
{
    let granted = frame.grant_to(side, frame.stream);
    let after = balance(credit, granted, frame.content_by(side))?;
    if frame.ends_window(side) {
        return Some(without_window(frame.is_last_of(side, frame.stream)));
    }
    if after == 0 {
        return None;
    }
    Some(after)
}

/// How a side stands on a stream that a frame opens, by the initial window in force and whether the side sends nothing
/// more, if no stall is shown (6.9.2).
fn opening_standing(initial: u32, is_last: bool) -> Option<u32>
    ensures { ForSome result (IsOpeningStanding initial is_last) }
{
    if is_last {
        return Some(ENDED);
    }
    if has_credit(initial) {
        Some(initial)
    } else {
        None
    }
}
