//! A row for each stream that was opened, in the order of identifiers, which is that of openings (RFC 9113, 5.1.1).

ghost use Rattle.std.specs.Prelude.{◌≡◌, ◌<◌, ◌≤◌, ◌-◌, ◌^◌, ℕ, true, false, [], ◌∷◌, ◌++◌, None, IfNone, IfOk};
ghost use Rattle.std.specs.Bool.{OnTrue, OnFalse};
ghost use Rattle.std.specs.Option.{ForSome};
ghost use Rattle.audit_terms.specs.Stream.{idle_stream};
ghost use Rattle.audit_terms.specs.code.Room.{WindowHasRoom};
ghost use Rattle.audit_terms.specs.declared.sides.Sides.{Sides as SidesTerm};
ghost use Rattle.quiet_pass.specs.code.Rows.{IsRowOf, IsRowAfter, IsOpened, AreRising, IsMetOn};
ghost use Rattle.quiet_pass.specs.code.Rows.{AreRowsSaid, IsAboveAll, IsPut, IsPutAt, IsRowMoved};
ghost use Rattle.quiet_pass.specs.code.Rows.{AreOfParity};
ghost use Rattle.quiet_pass.specs.code.Rows.{IsRowSaid, entry_in};
ghost use Rattle.quiet_pass.specs.code.HeldStreams.{held};

use crate::held_streams::{held, held_after_change, hold, is_low};
use audit_terms::{Finding, Frame, OfStream, Sides, Step, Stream, initial_after, row_of};
use fault_rules::say_stream;
use std::alloc::{AllocError, Global};
use stream_credit::Standings;

/// A stream that is opened, between two frames: 16 bytes.
#[derive(Clone, Copy)]
pub(crate) struct Row {
    /// Its identifier.
    pub(crate) stream: u32,
    pub(crate) standings: Standings,
}

const _: () = prove!(size_of::<Row>() == 16);

impl OfStream for Row {
    ghost stream_of = { λ row. row.stream };

    #[inline]
    fn stream(&self) -> u32 {
        self.stream
    }
}

impl Row {
    /// The row after a frame on its stream, if that shows nothing and each live window has credit.
    #[inline]
    fn after(&self, frame: &Frame) -> Option<Row>
        ensures { ForSome result (IsRowAfter frame.now self.now) }
    {
        if is_low(&self.standings) {
            return None;
        }
        Some(Row {
            standings: self.standings.after(frame)?,
            ..*self
        })
    }

    /// The row of a stream that a frame opens, if it does and shows nothing but credits.
    fn opened(stream: u32, initial: &Sides<u32>, frame: &Frame) -> Option<Row>
        ensures { ForSome result (IsOpened stream initial.now frame.now) }
    {
        let standings = Standings::opened(stream, initial, frame)?;
        if is_low(&standings) {
            return None;
        }
        Some(Row { stream, standings })
    }

    /// Is its stream not opened?
    fn is_idle(&self) -> bool
        ensures { OnTrue result (held self.now.standings ≡ idle_stream) }
    {
        let Standings {
            opened,
            client,
            server,
        } = self.standings;
        opened == 0 && client == 0 && server == 0
    }

    /// The row after a change of the initial windows in force, if that shows nothing (RFC 9113, 6.9.2). Where credits
    /// are shown, each move of a window is.
    fn after_change(
        &self,
        frames_shown: bool,
        before: &Sides<u32>,
        after: &Sides<u32>,
    ) -> Option<Row>
        ensures moved { ForSome result (IsRowMoved before.now after.now self.now) }
        ensures still { ForSome result (λ next. frames_shown ≡ true → next.standings ≡ self.now.standings) }
    {
        let next = Row {
            standings: held_after_change(&self.standings, before, after)?,
            ..*self
        };
        if frames_shown && !next.holds_as(self) {
            return None;
        }
        Some(next)
    }

    /// Do both rows hold their streams alike?
    fn holds_as(&self, other: &Row) -> bool
        ensures { OnTrue result (self.now.standings ≡ other.now.standings) }
    {
        self.standings.opened == other.standings.opened
            && self.standings.client == other.standings.client
            && self.standings.server == other.standings.server
    }

    /// Adds what a step without a frame shows of the row's stream, and brings the row past the step; returns false if
    /// no row can say the stream then.
    fn say_change(
        &mut self,
        frames_shown: bool,
        found: &mut Vec<Finding>,
        initial: &Sides<u32>,
        step: &Step,
    ) -> Result<bool, AllocError>
        requires alone { step.now.frame ≡ None }
        requires numbered { step.now.number ≤ 2 ^ 28 - 2 }
        requires small { self.old.stream < 2 ^ 31 }
        ensures { IfOk result (λ kept. IsRowSaid frames_shown initial.now step.now kept self.old self.new
            found.old.items found.new.items) }
    {
        let after = initial_after(&step.change, initial);
        if let Some(next) = self.after_change(frames_shown, initial, &after) {
            *self = next;
            return Ok(true);
        }
        let mut entry = held(&self.standings);
        say_stream(found, &mut entry, self.stream, initial, step)?;
        let Some(standings) = hold(&entry) else {
            return Ok(false);
        };
        self.standings = standings;
        Ok(true)
    }
}

/// The stream of an identifier, by its row; without one it is not opened.
pub(crate) fn entry_of(rows: &[Row], stream: u32) -> Stream
    ensures same { AreRising rows.now → entry_in rows.now stream ≡ result }
    ensures client { WindowHasRoom (2 ^ 32) result.window.client }
    ensures server { WindowHasRoom (2 ^ 32) result.window.server }
{
    match row_of(rows, stream) {
        Some(at) => entry_at(rows, stream, at),
        None => Stream::idle(),
    }
}

/// The stream of a row.
fn entry_at(rows: &[Row], stream: u32, at: usize) -> Stream
    requires { IsRowOf rows.now stream at }
    ensures same { AreRising rows.now → entry_in rows.now stream ≡ result }
    ensures client { WindowHasRoom (2 ^ 32) result.window.client }
    ensures server { WindowHasRoom (2 ^ 32) result.window.server }
{
    let row = rows[at];
    held(&row.standings)
}

/// Says in the row of a stream what it is now, and returns where that row stands; nothing, if no row can say so: then
/// the rows stay. A stream past all others gets a new row, if it is opened.
pub(crate) fn put(
    rows: &mut Vec<Row>,
    stream: u32,
    entry: &Stream,
) -> Result<Option<usize>, AllocError>
    ensures put { IfOk result (λ done. ForSome done (λ at. IsPutAt stream entry.now at rows.old.items rows.new.items)) }
    ensures left { IfOk result (λ done. IfNone done (rows.new ≡ rows.old)) }
{
    let Some(standings) = hold(entry) else {
        return Ok(None);
    };
    put_row(rows, Row { stream, standings })
}

/// The same; returns false if no row can say so.
pub(crate) fn put_plain(
    rows: &mut Vec<Row>,
    stream: u32,
    entry: &Stream,
) -> Result<bool, AllocError>
    ensures put { IfOk result (λ done. OnTrue done (AreRising rows.old.items
        → IsPut stream entry.now rows.old.items rows.new.items)) }
    ensures left { IfOk result (λ done. OnFalse done (rows.new ≡ rows.old)) }
{
    let Some(_) = put(rows, stream, entry)? else {
        return Ok(false);
    };
    Ok(true)
}

/// Puts a row in the place of its stream's, or past all others.
fn put_row(rows: &mut Vec<Row>, row: Row) -> Result<Option<usize>, AllocError>
    ensures put { IfOk result (λ done. ForSome done (λ at. IsPutAt row.stream (held row.standings) at
        rows.old.items rows.new.items)) }
    ensures left { IfOk result (λ done. IfNone done (rows.new ≡ rows.old)) }
{
    match row_of(rows.as_slice(), row.stream) {
        Some(at) => {
            put_at(rows, at, row);
            Ok(Some(at))
        }
        None => put_new(rows, row),
    }
}

/// Other rows that are the same.
pub(crate) fn copied(alloc: Global, rows: &[Row]) -> Result<Vec<Row>, AllocError>
    ensures { IfOk result (λ made. made.items ≡ rows.now) }
{
    let mut made = Vec::with_capacity(alloc, rows.len())?;
    made.extend_from_slice(rows)?;
    Ok(made)
}

/// Puts a row in the place of its stream's.
fn put_at(rows: &mut Vec<Row>, at: usize, row: Row)
    requires { IsRowOf rows.old.items row.stream at }
    ensures { IsPutAt row.stream (held row.standings) at rows.old.items rows.new.items }
{
    rows[at] = row;
}

/// Adds the row of a stream that has none, unless it is not opened; nothing, if it is not past all others.
fn put_new(rows: &mut Vec<Row>, row: Row) -> Result<Option<usize>, AllocError>
    requires { AreRising rows.old.items → entry_in rows.old.items row.stream ≡ idle_stream }
    ensures put { IfOk result (λ done. ForSome done (λ at. IsPutAt row.stream (held row.standings) at
        rows.old.items rows.new.items)) }
    ensures left { IfOk result (λ done. IfNone done (rows.new ≡ rows.old)) }
{
    let at = rows.len();
    if row.is_idle() {
        return Ok(Some(at));
    }
    if !is_above_all(rows.as_slice(), row.stream) {
        return Ok(None);
    }
    rows.push(row)?;
    Ok(Some(at))
}

/// Meets a frame on the stream of a row, and returns false if that may show something.
#[inline]
pub(crate) fn meet(rows: &mut Vec<Row>, at: usize, frame: &Frame) -> bool
    requires { IsRowOf rows.old.items frame.now.stream at }
    ensures left { OnFalse result (rows.new ≡ rows.old) }
    ensures quiet { OnTrue result (AreRising rows.old.items → (initial : SidesTerm ℕ)
        → IsMetOn frame.now.stream initial frame.now false rows.old.items rows.new.items) }
{
    let Some(next) = rows[at].after(frame) else {
        return false;
    };
    rows[at] = next;
    true
}

/// Is a stream above those of all rows?
fn is_above_all(rows: &[Row], stream: u32) -> bool
    ensures { OnTrue result (AreRising rows.now → IsAboveAll rows.now stream) }
{
    match rows.last() {
        Some(row) => row.stream < stream,
        None => 0 < stream,
    }
}

/// The row of a stream that a frame opens, if that is above those of all rows, and shows nothing but credits.
pub(crate) fn new_row(rows: &[Row], stream: u32, initial: &Sides<u32>, frame: &Frame) -> Option<Row>
    ensures { ForSome result (λ row. AreRising rows.now
        → IsMetOn stream initial.now frame.now true rows.now (rows.now ++ row ∷ [])) }
{
    if !is_above_all(rows, stream) {
        return None;
    }
    Row::opened(stream, initial, frame)
}

/// Adds that row, if there is one; returns whether it did.
pub(crate) fn open(
    rows: &mut Vec<Row>,
    stream: u32,
    initial: &Sides<u32>,
    frame: &Frame,
) -> Result<bool, AllocError>
    ensures quiet { IfOk result (λ opened. OnTrue opened (AreRising rows.old.items
        → IsMetOn stream initial.now frame.now true rows.old.items rows.new.items)) }
    ensures left { IfOk result (λ opened. OnFalse opened (rows.new ≡ rows.old)) }
{
    match new_row(rows.as_slice(), stream, initial, frame) {
        Some(row) => {
            rows.push(row)?;
            Ok(true)
        }
        None => Ok(false),
    }
}

/// Adds what a step without a frame shows of the streams of all rows, and brings the rows past the step; returns
/// whether rows can say all streams then.
pub(crate) fn say_all(
    frames_shown: bool,
    rows: &mut Vec<Row>,
    found: &mut Vec<Finding>,
    before: &Sides<u32>,
    step: &Step,
) -> Result<bool, AllocError>
    requires alone { step.now.frame ≡ None }
    requires numbered { step.now.number ≤ 2 ^ 28 - 2 }
    requires own { (remainder : ℕ) × AreOfParity remainder rows.old.items }
    ensures { IfOk result (λ kept. AreRowsSaid frames_shown before.now step.now kept rows.old.items rows.new.items
        found.old.items found.new.items) }
{
    let mut are_kept = true;
    for at in 0..rows.len() {
        let mut row = rows[at];
        let is_kept = row.say_change(frames_shown, found, before, step)?;
        are_kept = are_kept & is_kept;
        rows[at] = row;
    }
    Ok(are_kept)
}
