//! What a frame shows that is not quiet, and the connection and its streams after it.

ghost use Rattle.std.specs.Prelude.{◌≡◌, ◌<◌, ◌^◌, false, IfOk, OnOk};
ghost use Rattle.std.specs.List.{list_any};
ghost use Rattle.audit_terms.specs.code.Room.{HaveRoom, WindowHasRoom};
ghost use Rattle.audit_terms.specs.code.runs.Orderly.{IsInRange};
ghost use Rattle.audit_terms.specs.Finding.{in_order, shown, stops};
ghost use Rattle.audit_terms.specs.Pass.{PassState};
ghost use Rattle.quiet_pass.specs.code.QuietPass.{BringsNothing, HasRoomKept, StandsFor};
ghost use Rattle.quiet_pass.specs.code.SaidFrames.{IsConnectionKept, IsConnectionSaid, IsEntrySaid, IsKeptAfter};
ghost use Rattle.quiet_pass.specs.code.SaidFrames.{IsSaidStep};

use crate::passes::{QuietPass, keep_last};
use audit_terms::{
    Change, ConnectionState, Finding, Frame, Item, Step, Stream, keep_shown, put_in_order,
};
use fault_rules::{say_connection, say_local_after, say_stream};
use std::alloc::{AllocError, Global};

impl QuietPass {
    /// What a frame shows that brings no change, in order: by itself, of the connection, and of its stream and the one
    /// that it promises. Then the machine is past it, unless the audit stops there.
    pub(crate) fn say(
        &mut self,
        alloc: Global,
        frames_shown: bool,
        frame: &Frame,
    ) -> Result<Vec<Finding>, AllocError>
        requires range { IsInRange frame.now }
        requires plain { BringsNothing frame.now }
        requires room { HasRoomKept self.old }
        ensures { IfOk result (λ found. (state : PassState) → StandsFor self.old state
            → IsSaidStep frames_shown state frame.now found.items self.new) }
    {
        let mut found = Vec::new(alloc);
        let mut own = self.streams.entry_of(frame.stream);
        let other = frame.promised_by();
        let mut promised = self.streams.entry_of(other);
        let opens = own.life.is_opening(frame.stream, frame);
        let connection = self.say_alone(&mut found, frame, opens, &None)?;
        self.say_entry(&mut found, &mut own, frame.stream, frame)?;
        self.say_entry(&mut found, &mut promised, other, frame)?;
        if shows_stop(frames_shown, &mut found)? {
            return Ok(found);
        }
        self.keep_after(alloc, frame, &connection, &own, &promised)?;
        Ok(found)
    }

    /// Adds what a frame shows by itself and of the connection, and gives the connection after it.
    pub(crate) fn say_alone(
        &self,
        found: &mut Vec<Finding>,
        frame: &Frame,
        opens: bool,
        change: &Option<Change>,
    ) -> Result<ConnectionState, AllocError>
        requires range { IsInRange frame.now }
        requires room { HaveRoom (2 ^ 60) self.now.connection.state.credit }
        ensures { IfOk result (IsConnectionSaid self.now frame.now opens change.now found.old.items found.new.items) }
    {
        say_local_after(found, self.last.of(frame.side), frame)?;
        let mut connection = self.connection.state;
        let item = Item {
            frame: *frame,
            opens,
            change: *change,
        };
        say_connection(found, &mut connection, &item)?;
        Ok(connection)
    }

    /// Adds what a frame shows of a stream that meets it, and brings the stream to its state after it. Stream 0 is
    /// none.
    fn say_entry(
        &self,
        found: &mut Vec<Finding>,
        entry: &mut Stream,
        stream: u32,
        frame: &Frame,
    ) -> Result<(), AllocError>
        requires range { IsInRange frame.now }
        requires small { stream < 2 ^ 31 }
        requires client { WindowHasRoom (2 ^ 60) entry.old.window.client }
        requires server { WindowHasRoom (2 ^ 60) entry.old.window.server }
        ensures { OnOk result (IsEntrySaid stream self.now.initial frame.now entry.old entry.new found.old.items
            found.new.items) }
    {
        if stream == 0 {
            return Ok(());
        }
        let step = Step {
            number: frame.number,
            frame: Some(*frame),
            change: None,
        };
        say_stream(found, entry, stream, &self.initial, &step)?;
        Ok(())
    }

    /// Keeps the connection as it is after a frame.
    pub(crate) fn keep_connection(&mut self, frame: &Frame, connection: &ConnectionState)
        ensures kept { IsConnectionKept frame.now connection.now self.old self.new }
        ensures streams { self.new.streams ≡ self.old.streams }
    {
        self.connection.state = *connection;
        keep_last(&mut self.last, frame);
    }

    /// Keeps the connection, the frame's stream and the one that it promises as they are after the frame.
    fn keep_after(
        &mut self,
        alloc: Global,
        frame: &Frame,
        connection: &ConnectionState,
        own: &Stream,
        promised: &Stream,
    ) -> Result<(), AllocError>
        requires { IsInRange frame.now }
        ensures { OnOk result (IsKeptAfter frame.now connection.now own.now promised.now self.old self.new) }
    {
        self.keep_connection(frame, connection);
        self.streams.put(alloc, frame.stream, own)?;
        self.streams.put(alloc, frame.promised_by(), promised)?;
        Ok(())
    }
}

/// Puts what a frame shows in order, without credits unless they are shown, and returns whether the audit stops at it.
pub(crate) fn shows_stop(frames_shown: bool, found: &mut Vec<Finding>) -> Result<bool, AllocError>
    ensures shown { OnOk result (found.new.items ≡ shown frames_shown (in_order found.old.items)) }
    ensures stops { IfOk result (λ ends. ends ≡ list_any stops found.new.items) }
{
    put_in_order(found)?;
    keep_shown(found, frames_shown);
    Ok(has_stop(found.as_slice()))
}

/// Does the audit stop at one of these findings?
pub(crate) fn has_stop(found: &[Finding]) -> bool
    ensures { result ≡ list_any stops found.now }
{
    found.iter().any(|one| one.stops())
}
