ghost use Rattle.std.specs.Prelude.{◌≡◌, ℕ, ◌^◌, ◌<◌, ◌++◌, [], List, IfOk, MatchOption, OnOk, Some};
ghost use Rattle.std.specs.Prelude.{length, slice_get};
ghost use Rattle.std.specs.Bool.{OnTrue};
ghost use Rattle.std.specs.Option.{ForSome};
ghost use Rattle.audit_terms.specs.declared.frames.Frame.{Frame as FrameTerm};
ghost use Rattle.audit_terms.specs.declared.items.Change.{Change as ChangeTerm};
ghost use Rattle.audit_terms.specs.code.runs.Orderly.{IsOrderly};
ghost use Rattle.audit_terms.specs.code.runs.Changes.{AreOrderly, AreAcknowledged};
ghost use Rattle.stream_credit.specs.code.QuietStream.{IsAheadIfQuiet};
ghost use Rattle.split_merge.specs.code.Visits.{AreVisits, IsEmpty, IsIndex, IsTableOf, NotAmong, counted, noted};
ghost use Rattle.audit_terms.specs.code.SeenStreams.{with_stream};
ghost use Rattle.split_merge.specs.code.Visits.{streams_in};
ghost use Rattle.split_merge.specs.code.Loud.{IsKept};
ghost use Rattle.split_merge.specs.code.Ahead.{AreAhead, EndQuiet, CanHaveRow, CanVisit, HasRow, IsEnd, EndsQuiet};
ghost use Rattle.split_merge.specs.code.Ahead.{MeetsNext, with_next};

use crate::row_index::RowIndex;
use audit_terms::{Frame, OfStream};
use input_output::TableHash;
use std::alloc::{AllocError, Global};
use stream_credit::{Changes, QuietStream};

/// How many rows are remembered, a power of 2: 4 KiB. (Measured: bench/README.md, Thresholds.)
const HINTED_ROWS: usize = 1024;

/// With so many frames or more, rows are remembered. Fewer look-ups would not be worth the list.
/// (Measured: bench/README.md, Thresholds.)
const HINTED_FRAMES: usize = 128;

/// A stream and the number of its frames so far: it visits each frame that it meets.
#[derive(Clone, Copy)]
pub(crate) struct Visited {
    pub(crate) stream: u32,
    pub(crate) count: u32,
}

impl OfStream for Visited {
    ghost stream_of = { λ row. row.stream };

    #[inline]
    fn stream(&self) -> u32 {
        self.stream
    }
}

/// The streams that meet the frames seen so far, in order of their first frames.
#[derive(Drop)]
pub(crate) struct Visits {
    /// A row for each stream.
    pub(crate) rows: Vec<Visited>,
    /// The stream of each row, for as long as it is quiet.
    pub(crate) quiets: Vec<QuietStream>,
    /// Where the row of each stream stands.
    pub(crate) index: RowIndex,
    /// Rows that were looked up before, by the last bits of their streams' numbers: the streams of a connection are
    /// numbered one after the other, so that those of one time seldom share a slot.
    // A list of rows, one for each frame, would spare a second look-up, but take a tenth of the frames' memory.
    pub(crate) hints: Vec<u32>,
    /// The row that was visited last.
    pub(crate) last: u32,
}

impl Visits {
    /// No stream yet, with room for rows to be remembered where there are many frames.
    fn none_yet(alloc: Global, hash: TableHash, frames: usize) -> Result<Visits, AllocError>
        ensures { IfOk result IsEmpty }
    {
        let hints = hints_for(alloc, frames)?;
        Ok(Visits {
            rows: Vec::new(alloc),
            quiets: Vec::new(alloc),
            index: RowIndex::new(alloc, hash),
            hints,
            last: 0,
        })
    }

    /// The streams that meet some frames, each after the changes behind its last one: nothing is shown of a quiet one.
    /// Where credits are shown, none is quiet.
    pub(crate) fn ended(
        alloc: Global,
        hash: TableHash,
        frames_shown: bool,
        changes: &Changes<'_>,
        frames: &[Frame],
    ) -> Result<Visits, AllocError>
        requires { CanVisit changes.now frames.now }
        ensures visits { IfOk result (AreVisits frames.now) }
        ensures ends_quiet { IfOk result (λ table.
            EndQuiet frames_shown changes.now frames.now (streams_in table.rows.items) table.quiets.items) }
    {
        let mut table = Self::none_yet(alloc, hash, frames.len())?;
        table.note_all(frames_shown, changes, frames)?;
        finish(
            table.rows.as_slice(),
            &mut table.quiets,
            frames_shown,
            changes,
        );
        Ok(table)
    }

    /// Notes the streams of some frames, the first of the connection. Where credits are shown, none is quiet.
    fn note_all(
        &mut self,
        frames_shown: bool,
        changes: &Changes<'_>,
        frames: &[Frame],
    ) -> Result<(), AllocError>
        requires can { CanVisit changes.now frames.now }
        requires empty { IsEmpty self.old }
        ensures visits { OnOk result (AreVisits frames.now self.new) }
        ensures ahead { OnOk result (AreAhead changes.now frames.now (λ _. []) (streams_in self.new.rows.items)
            self.new.quiets.items) }
    {
        for frame in frames {
            self.note(frames_shown, frame.stream, changes, frame)?;
            self.note(frames_shown, frame.promised_by(), changes, frame)?;
        }
        Ok(())
    }

    /// Notes that a stream, unless it is 0, meets a frame.
    #[tactic(auto, using(crate::proofs::Visited::row_inside))]
    fn note(
        &mut self,
        frames_shown: bool,
        stream: u32,
        changes: &Changes<'_>,
        frame: &Frame,
    ) -> Result<(), AllocError>
        requires table { (notes : List (ℕ × ℕ)) × IsTableOf notes self.old × (length notes < 2 ^ 30) }
        requires streamed { stream < 2 ^ 31 }
        requires next { MeetsNext stream changes.now frame.now (streams_in self.old.rows.items) self.old.quiets.items }
        ensures named { OnOk result (streams_in self.new.rows.items
            ≡ with_stream stream (streams_in self.old.rows.items)) }
        ensures table { OnOk result ((notes : List (ℕ × ℕ)) (position : ℕ) → IsTableOf notes self.old
            → IsTableOf (notes ++ noted stream position) self.new) }
        ensures ahead { OnOk result ((all : List FrameTerm) (rest : ℕ → List FrameTerm)
            → AreAhead changes.now all (with_next stream frame.now rest) (streams_in self.old.rows.items)
            self.old.quiets.items
            → AreAhead changes.now all rest (streams_in self.new.rows.items) self.new.quiets.items) }
    {
        if stream == 0 {
            return Ok(());
        }
        let row = self.row_of(frames_shown, stream)?;
        self.last = row;
        count(&mut self.rows[row as usize]);
        self.quiets[row as usize].meet(stream, changes, frame);
        Ok(())
    }

    /// The index of a stream's row, which is made where there is none yet.
    fn row_of(&mut self, frames_shown: bool, stream: u32) -> Result<u32, AllocError>
        requires { CanHaveRow stream self.old }
        ensures { IfOk result (λ row. HasRow stream row self.old self.new) }
    {
        if let Some(row) = self.hinted_row(stream) {
            return Ok(row);
        }
        let (row, added) = self.index.insert(self.rows.as_slice(), stream)?;
        remember(&mut self.hints, stream, row);
        if !added {
            return Ok(row);
        }
        self.rows.push(Visited { stream, count: 0 })?;
        self.quiets.push(unmet(frames_shown))?;
        Ok(row)
    }

    /// The index of a stream's row, if a hint leads to it.
    fn hinted_row(&self, stream: u32) -> Option<u32>
        ensures { ForSome result (λ row. slice_get (streams_in self.now.rows.items) row ≡ Some stream) }
    {
        let hint = hint_of(self.hints.as_slice(), self.last, stream);
        if is_row_of(self.rows.as_slice(), hint, stream) {
            return Some(hint);
        }
        None
    }

    /// The index of a stream's row, if it has one.
    pub(crate) fn known_row(&mut self, stream: u32) -> Option<u32>
        requires index { IsIndex (streams_in self.old.rows.items) self.old.index }
        requires room { length self.old.rows.items < 2 ^ 31 }
        ensures row { MatchOption result (NotAmong stream (streams_in self.old.rows.items))
            (λ row. slice_get (streams_in self.old.rows.items) row ≡ Some stream) }
        ensures kept { IsKept self.old self.new }
    {
        if stream == 0 {
            return None;
        }
        if let Some(row) = self.hinted_row(stream) {
            return Some(row);
        }
        let row = self.index.find(self.rows.as_slice(), stream)?;
        remember(&mut self.hints, stream, row);
        Some(row)
    }
}

/// A stream that no frame has met, and that is not quiet where credits are shown.
fn unmet(frames_shown: bool) -> QuietStream
    ensures { (stream : ℕ) (changes : List ChangeTerm) (all : List FrameTerm) → stream < 2 ^ 31 → IsOrderly all
        → AreOrderly changes → AreAcknowledged all changes → IsAheadIfQuiet stream changes all all result }
{
    let mut quiet = QuietStream::idle();
    if frames_shown {
        quiet.is_quiet = false;
    }
    quiet
}

/// The streams of the rows after the changes behind their last frames: each that is still quiet shows nothing.
fn finish(
    rows: &[Visited],
    quiets: &mut Vec<QuietStream>,
    frames_shown: bool,
    changes: &Changes<'_>,
)
    requires { IsEnd changes.now (streams_in rows.now) quiets.old.items }
    ensures { (all : List FrameTerm) → AreAhead changes.now all (λ _. []) (streams_in rows.now) quiets.old.items
        → EndQuiet frames_shown changes.now all (streams_in rows.now) quiets.new.items }
{
    for row in 0..rows.len() {
        end(&mut quiets[row], rows[row].stream, frames_shown, changes);
    }
}

/// The stream after the changes behind its last frame; where credits are shown, it is not quiet.
fn end(quiet: &mut QuietStream, stream: u32, frames_shown: bool, changes: &Changes<'_>)
    requires { (all : List FrameTerm) × IsAheadIfQuiet stream changes.now all [] quiet.old }
    ensures { (all : List FrameTerm) → IsAheadIfQuiet stream changes.now all [] quiet.old
        → EndsQuiet frames_shown changes.now stream all quiet.new }
{
    quiet.finish(stream, changes);
    if frames_shown {
        quiet.is_quiet = false;
    }
}

/// Room for rows to be remembered: none, where there are few frames.
fn hints_for(alloc: Global, frames: usize) -> Result<Vec<u32>, AllocError> {
    if frames < HINTED_FRAMES {
        return Ok(Vec::new(alloc));
    }
    vec![in alloc; 0; HINTED_ROWS]
}

/// The slot in which the row of a stream is remembered.
fn hint_place(stream: u32) -> usize {
    (stream / 2) as usize % HINTED_ROWS
}

/// The row that is remembered where that of a stream would be, or else the one that was visited last.
fn hint_of(hints: &[u32], last: u32, stream: u32) -> u32 {
    match hints.get(hint_place(stream)) {
        Some(row) => *row,
        None => last,
    }
}

/// Remembers the row of a stream.
fn remember(hints: &mut [u32], stream: u32, row: u32) {
    if let Some(hint) = hints.get_mut(hint_place(stream)) {
        *hint = row;
    }
}

/// Is the row at this index the stream's?
fn is_row_of(rows: &[Visited], row: u32, stream: u32) -> bool
    ensures { OnTrue result (slice_get (streams_in rows.now) row ≡ Some stream) }
{
    match rows.get(row as usize) {
        Some(found) => found.stream == stream,
        None => false,
    }
}

/// Counts one visit more.
fn count(row: &mut Visited)
    requires { row.old.count < 2 ^ 31 }
    ensures { row.new ≡ counted row.old }
{
    row.count += 1;
}
