ghost use Rattle.std.specs.Prelude.{◌≡◌};

use crate::frame_types::{
    ACK_FLAG, CONTINUATION, DATA, END_HEADERS_FLAG, END_STREAM_FLAG, GOAWAY, HEADERS, PING,
    PRIORITY, PUSH_PROMISE, RST_STREAM, SETTINGS,
};
use crate::kinds::Kind;
use crate::settings::PackedSettings;
use crate::sides::Side;
use crate::widths::{Length, Word};

/// What a frame carries, by its type (RFC 9113, 6.1 to 6.10).
#[derive(Clone, Copy)]
pub enum Body {
    /// DATA: flow-controlled content, padding included.
    Content,
    Headers,
    Priority,
    RstStream,
    Settings(PackedSettings),
    SettingsAck,
    /// PUSH_PROMISE, with the promised stream.
    PushPromise(Word),
    Ping,
    GoAway,
    /// WINDOW_UPDATE, with the increment in bytes.
    WindowUpdate(Word),
    Continuation,
    /// A frame of a type that RFC 9113 does not define.
    Unknown,
    /// A frame whose payload cannot be read: wrong-size, bad-padding or bad-priority, with the finding's value.
    Unreadable(Kind, Word),
}

impl Body {
    ghost use Rattle.audit_terms.specs.Frame.{is_content, is_headers, is_reset, is_ack, is_update, increment};
    ghost use Rattle.audit_terms.specs.Frame.{is_zero_grant, is_promise, promised_in};

    pub fn is_content(&self) -> bool
        ensures { result ≡ is_content self.now }
    {
        matches!(self, Body::Content)
    }

    pub fn is_headers(&self) -> bool
        ensures { result ≡ is_headers self.now }
    {
        matches!(self, Body::Headers)
    }

    pub(crate) fn is_reset(&self) -> bool
        ensures { result ≡ is_reset self.now }
    {
        matches!(self, Body::RstStream)
    }

    pub fn is_ack(&self) -> bool
        ensures { result ≡ is_ack self.now }
    {
        matches!(self, Body::SettingsAck)
    }

    pub fn is_update(&self) -> bool
        ensures { result ≡ is_update self.now }
    {
        matches!(self, Body::WindowUpdate(_))
    }

    /// The increment of a WINDOW_UPDATE in bytes, 0 of any other frame.
    pub fn increment(&self) -> u32
        ensures { result ≡ increment self.now }
    {
        match self {
            Body::WindowUpdate(amount) => amount.get(),
            _ => 0,
        }
    }

    pub(crate) fn is_promise(&self) -> bool
        ensures { result ≡ is_promise self.now }
    {
        matches!(self, Body::PushPromise(_))
    }

    /// The promised stream of a PUSH_PROMISE, 0 of any other frame.
    pub fn promised(&self) -> u32
        ensures { result ≡ promised_in self.now }
    {
        match self {
            Body::PushPromise(stream) => stream.get(),
            _ => 0,
        }
    }

    /// Is it a WINDOW_UPDATE whose increment is 0 (RFC 9113, 6.9)?
    pub fn is_zero_grant(&self) -> bool
        ensures { result ≡ is_zero_grant self.now }
    {
        self.is_update() && self.increment() == 0
    }
}

/// A frame of one connection, in capture order. What needs no alignment stands last, so that it takes 40 bytes.
#[derive(Clone, Copy)]
pub struct Frame {
    /// Its number in the connection, from 1.
    pub number: u32,
    /// The record at which its last byte arrived.
    pub rec: u32,
    /// When its record was captured, in nanoseconds.
    pub nanos: u64,
    /// The stream identifier, 31 bits; 0 is the connection.
    pub stream: u32,
    /// The length of the payload in bytes.
    pub length: Length,
    pub body: Body,
    /// Who sent it.
    pub side: Side,
    /// The type byte (RFC 9113, 4.1).
    pub code: u8,
    /// The flags byte.
    pub flags: u8,
}

const _: () = prove!(size_of::<Frame>() == 40);

impl Frame {
    ghost use Rattle.audit_terms.specs.Frame.{content_by, grant_to, grants_nothing, sends_end, sends_reset};
    ghost use Rattle.audit_terms.specs.Frame.{is_server_promise, is_client_headers, promises, promised_by, meets};
    ghost use Rattle.audit_terms.specs.Frame.{needs_opening};
    ghost use Rattle.audit_terms.specs.Life.{is_last_of, ends_window};
    ghost use Rattle.audit_terms.specs.LocalFault.{is_settings, leaves_block_open, is_on_wrong_stream};
    ghost use Rattle.audit_terms.specs.Connection.{is_length_fatal};

    /// The flow-controlled length in bytes that a side sends with this frame (RFC 9113, 6.9.1): all of a DATA frame,
    /// padding included; 0 of any other frame, and of a frame of the other side.
    pub fn content_by(&self, side: Side) -> u32
        ensures { result ≡ content_by side self.now }
    {
        if side == self.side && self.body.is_content() {
            self.length.get()
        } else {
            0
        }
    }

    /// What this frame grants to a side on a stream, in bytes, or on the connection where the stream is 0 (6.9).
    pub fn grant_to(&self, side: Side, stream: u32) -> u32
        ensures { result ≡ grant_to side stream self.now }
    {
        if side.other() == self.side && self.stream == stream {
            self.body.increment()
        } else {
            0
        }
    }

    /// Does this frame grant 0 to a side on a stream, or on the connection where the stream is 0 (6.9)?
    pub fn grants_nothing(&self, side: Side, stream: u32) -> bool
        ensures { result ≡ grants_nothing side stream self.now }
    {
        side.other() == self.side && self.stream == stream && self.body.is_zero_grant()
    }

    /// Does a side end its side of the stream with this DATA or HEADERS (5.1)?
    pub fn sends_end(&self, side: Side) -> bool
        ensures { result ≡ sends_end side self.now }
    {
        side == self.side
            && (self.body.is_content() || self.body.is_headers())
            && self.flags & END_STREAM_FLAG != 0
    }

    /// Does a side reset the stream with this frame (6.4)?
    pub(crate) fn sends_reset(&self, side: Side) -> bool
        ensures { result ≡ sends_reset side self.now }
    {
        side == self.side && self.body.is_reset()
    }

    /// Is it a promise of the server that can be read (6.6)?
    pub fn is_server_promise(&self) -> bool
        ensures { result ≡ is_server_promise self.now }
    {
        Side::Server == self.side && self.body.is_promise()
    }

    /// Is it a HEADERS of the client (6.2)?
    pub(crate) fn is_client_headers(&self) -> bool
        ensures { result ≡ is_client_headers self.now }
    {
        Side::Client == self.side && self.body.is_headers()
    }

    /// Does the server promise this stream, an even one, by a frame on another stream (5.1.1, 6.6)?
    pub(crate) fn promises(&self, stream: u32) -> bool
        ensures { result ≡ promises stream self.now }
    {
        self.is_server_promise()
            && self.body.promised() == stream
            && stream % 2 == 0
            && self.stream != stream
    }

    /// The stream that this frame promises, 0 where it promises none.
    pub fn promised_by(&self) -> u32
        ensures { result ≡ promised_by self.now }
    {
        let promised = self.body.promised();
        if self.promises(promised) { promised } else { 0 }
    }

    /// Does the stream meet this frame: is it on the stream, or does it promise the stream?
    pub fn meets(&self, stream: u32) -> bool
        ensures { result ≡ meets stream self.now }
    {
        self.stream == stream || self.promises(stream)
    }

    /// Is it a frame that only an opened stream carries (5.1)?
    pub fn needs_opening(&self) -> bool
        ensures { result ≡ needs_opening self.now }
    {
        let body = &self.body;
        body.is_content() || body.is_headers() || body.is_reset() || body.is_update()
    }

    /// Does a side send nothing more on the stream: its END_STREAM or RST_STREAM, or the promise of a stream, on which
    /// the client never sends (5.1)?
    pub fn is_last_of(&self, side: Side, stream: u32) -> bool
        ensures { result ≡ is_last_of side stream self.now }
    {
        self.sends_end(side)
            || self.sends_reset(side)
            || (Side::Client == side && self.promises(stream))
    }

    /// Does this frame end a side's window on the stream: the side's END_STREAM, or a RST_STREAM of either (5.1)?
    pub fn ends_window(&self, side: Side) -> bool
        ensures { result ≡ ends_window side self.now }
    {
        self.sends_end(side) || self.body.is_reset()
    }

    /// Is it a SETTINGS frame that is no acknowledgement?
    pub fn is_settings(&self) -> bool
        ensures { result ≡ is_settings self.now }
    {
        self.code == SETTINGS && self.flags & ACK_FLAG == 0
    }

    /// Does a field block go on with CONTINUATION frames after this one (4.3)?
    pub fn leaves_block_open(&self) -> bool
        ensures { result ≡ leaves_block_open self.now }
    {
        (self.code == HEADERS || self.code == PUSH_PROMISE || self.code == CONTINUATION)
            && self.flags & END_HEADERS_FLAG == 0
    }

    /// Is it a frame of a stream on stream 0, or one of the connection on another?
    pub fn is_on_wrong_stream(&self) -> bool
        ensures { result ≡ is_on_wrong_stream self.now }
    {
        if self.stream == 0 {
            needs_stream(self.code)
        } else {
            needs_connection(self.code)
        }
    }

    /// Is the excess length of such a frame an error of the connection (4.2)?
    pub fn is_length_fatal(&self) -> bool
        ensures { result ≡ is_length_fatal self.now }
    {
        self.code == HEADERS
            || self.code == SETTINGS
            || self.code == PUSH_PROMISE
            || self.code == CONTINUATION
            || self.stream == 0
    }
}

ghost use Rattle.audit_terms.specs.LocalFault.{needs_stream, needs_connection};

/// Are frames of this type of a stream (6.1 to 6.4, 6.6, 6.10)?
fn needs_stream(code: u8) -> bool
    ensures { result ≡ needs_stream code }
{
    code == DATA
        || code == HEADERS
        || code == PRIORITY
        || code == RST_STREAM
        || code == PUSH_PROMISE
        || code == CONTINUATION
}

/// Are frames of this type of the connection (6.5, 6.7, 6.8)?
fn needs_connection(code: u8) -> bool
    ensures { result ≡ needs_connection code }
{
    code == SETTINGS || code == PING || code == GOAWAY
}
