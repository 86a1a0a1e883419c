//! The machine that meets a connection's frames one by one.

ghost use Rattle.std.specs.Prelude.{◌≡◌, ◌<◌, ◌&&◌, if◌then◌else◌, true, false, [], ◌∷◌, ◌++◌, List, Option, is_none};
ghost use Rattle.std.specs.Prelude.{IfOk};
ghost use Rattle.std.specs.Bool.{OnTrue, OnFalse};
ghost use Rattle.audit_terms.specs.Pass.{PassState, pass_start};
ghost use Rattle.audit_terms.specs.Side.{is_side};
ghost use Rattle.audit_terms.specs.Frame.{is_ack, is_server_promise};
ghost use Rattle.audit_terms.specs.code.LastFrame.{last_of};
ghost use Rattle.audit_terms.specs.code.runs.Orderly.{IsInRange};
ghost use Rattle.quiet_pass.specs.code.Connection.{HasCredits};
ghost use Rattle.quiet_pass.specs.code.QuietPass.{BringsNothing, IsQuietStep, IsRestMet, MovesNoStream};
ghost use Rattle.quiet_pass.specs.code.QuietPass.{StandsFor};

use crate::all_streams::AllStreams;
use crate::kept_connection::KeptConnection;
use crate::kept_streams::Meeting;
use crate::quiet_frames::is_followed;
use audit_terms::{Body, Change, FIRST_WINDOW, Frame, LastFrame, Side, Sides};
use fault_rules::Pending;
use std::alloc::{AllocError, Global};

/// A connection between two of its frames, for as long as it is quiet.
#[derive(Drop)]
pub(crate) struct QuietPass {
    /// What is kept of the last frame of each side.
    pub(crate) last: Sides<LastFrame>,
    /// The SETTINGS sent.
    pub(crate) pending: Pending,
    /// The initial windows in force, in bytes.
    pub(crate) initial: Sides<u32>,
    pub(crate) connection: KeptConnection,
    pub(crate) streams: AllStreams,
    /// How many rows changes have moved.
    pub(crate) moves: u64,
}

impl QuietPass {
    /// A connection before any frame.
    pub(crate) fn begin(alloc: Global) -> Self
        ensures { StandsFor result pass_start }
    {
        QuietPass {
            last: Sides::both(LastFrame::Missing),
            pending: Pending::new(alloc),
            initial: Sides::both(FIRST_WINDOW),
            connection: KeptConnection::start(),
            streams: AllStreams::new(alloc),
            moves: 0,
        }
    }

    /// Meets the next frame, one that brings no change: from one state of the pass to the next. Returns false if that
    /// may show something: then the machine is as it was.
    pub(crate) fn step(&mut self, frame: &Frame) -> Result<bool, AllocError>
        requires range { IsInRange frame.now }
        requires plain { BringsNothing frame.now }
        ensures quiet { IfOk result (λ met. OnTrue met ((state : PassState) → StandsFor self.old state
            → IsQuietStep state frame.now self.new)) }
        ensures left { IfOk result (λ met. OnFalse met (self.new ≡ self.old)) }
    {
        if !is_followed(self.last.of(frame.side), frame) {
            return Ok(false);
        }
        let is_quiet = self.meet_rest(frame)?;
        if is_quiet {
            keep_last(&mut self.last, frame);
        }
        Ok(is_quiet)
    }

    /// Meets a frame beside what it shows by itself, and returns false if that may show something.
    fn meet_rest(&mut self, frame: &Frame) -> Result<bool, AllocError>
        requires range { IsInRange frame.now }
        requires plain { BringsNothing frame.now }
        ensures quiet { IfOk result (λ met. OnTrue met (IsRestMet frame.now self.old self.new)) }
        ensures left { IfOk result (λ met. OnFalse met (self.new ≡ self.old)) }
    {
        if frame.stream == 0 {
            return Ok(self.meet_connection(frame));
        }
        self.meet_stream(frame)
    }

    /// Meets a frame on a stream, one that brings no change, and returns false if that may show something.
    fn meet_stream(&mut self, frame: &Frame) -> Result<bool, AllocError>
        requires range { IsInRange frame.now }
        requires streamed { 0 < frame.now.stream }
        requires plain { BringsNothing frame.now }
        ensures quiet { IfOk result (λ met. OnTrue met (IsRestMet frame.now self.old self.new)) }
        ensures left { IfOk result (λ met. OnFalse met (self.new ≡ self.old)) }
    {
        if frame.is_server_promise() {
            return self.meet_promise(frame);
        }
        let Some(credit) = self.connection.credit_after_lone(frame) else {
            return Ok(false);
        };
        match self.streams.meet(frame) {
            Meeting::Quiet => {
                self.connection.state.credit = credit;
                Ok(true)
            }
            Meeting::WithoutRow => self.meet_opening(frame, credit),
            Meeting::Shown => Ok(false),
        }
    }

    /// Meets a frame on a stream that has no row, but is to have one, where it leaves these credits of the connection,
    /// and returns false if that may show something.
    // The connection is asked first, so that a refusal leaves the machine as it was.
    fn meet_opening(&mut self, frame: &Frame, credit: Sides<i64>) -> Result<bool, AllocError>
        requires range { IsInRange frame.now }
        requires unpromised { is_server_promise frame.now ≡ false }
        requires credit { HasCredits frame.now self.old.connection credit }
        requires plain { BringsNothing frame.now }
        ensures quiet { IfOk result (λ met. OnTrue met (IsRestMet frame.now self.old self.new)) }
        ensures left { IfOk result (λ met. OnFalse met (self.new ≡ self.old)) }
    {
        let Some(connection) = self.connection.opened_by(frame, credit) else {
            return Ok(false);
        };
        if !self.streams.open(&self.initial, frame)? {
            return Ok(false);
        }
        self.connection = connection;
        Ok(true)
    }

    /// Meets a promise of the server, on a stream, and returns false if that may show something.
    fn meet_promise(&mut self, frame: &Frame) -> Result<bool, AllocError>
        requires range { IsInRange frame.now }
        requires promised { is_server_promise frame.now ≡ true }
        requires plain { BringsNothing frame.now }
        ensures quiet { IfOk result (λ met. OnTrue met (IsRestMet frame.now self.old self.new)) }
        ensures left { IfOk result (λ met. OnFalse met (self.new ≡ self.old)) }
    {
        let mut connection = self.connection;
        if !connection.meet(frame, &None) {
            return Ok(false);
        }
        if !self.streams.promise(&self.initial, frame)? {
            return Ok(false);
        }
        self.connection = connection;
        Ok(true)
    }

    /// Meets a frame on stream 0 that brings no change, and returns false if that may show something.
    fn meet_connection(&mut self, frame: &Frame) -> bool
        requires streamed { frame.now.stream ≡ 0 }
        requires plain { BringsNothing frame.now }
        ensures quiet { OnTrue result (IsRestMet frame.now self.old self.new) }
        ensures left { OnFalse result (self.new ≡ self.old) }
    {
        if frame.is_server_promise() {
            return false;
        }
        self.connection.meet_lone(frame)
    }
}

/// Is it a SETTINGS or an acknowledgement? These move no stream but by a change, and other frames bring none.
pub(crate) fn is_of_settings(frame: &Frame) -> bool
    ensures settings { OnTrue result (MovesNoStream frame.now) }
    ensures others { OnFalse result (BringsNothing frame.now) }
{
    matches!(frame.body, Body::Settings(_) | Body::SettingsAck)
}

/// Is it an acknowledgement that takes no SETTINGS (RFC 9113, 6.5.3)?
pub(crate) fn is_unmatched(frame: &Frame, change: &Option<Change>) -> bool
    ensures { result ≡ (is_ack frame.now.body && is_none change.now) }
{
    frame.body.is_ack() && change.is_none()
}

/// Keeps what the next frame of its side asks of a frame.
pub(crate) fn keep_last(last: &mut Sides<LastFrame>, frame: &Frame)
    ensures client { last.new.client ≡ (if is_side Side.Client frame.now.side then last_of (Option.Some frame.now)
        else last.old.client) }
    ensures server { last.new.server ≡ (if is_side Side.Server frame.now.side then last_of (Option.Some frame.now)
        else last.old.server) }
{
    *last.of_mut(frame.side) = LastFrame::of(frame);
}
