//! All streams in full, in a plain list: from the first stream on that no row holds. No capture comes so far, since it
//! has not the bytes for such credits, and no stream out of order is opened before its audit stops.

ghost use Rattle.std.specs.Prelude.{◌≡◌, ◌+◌, ◌^◌, ◌<◌, ◌≤◌, ◌-◌, ◌∷◌, ◌++◌, Bool, ℕ, None, IfOk, OnOk};
ghost use Rattle.std.specs.Prelude.{drop, length, map};
ghost use Rattle.std.specs.List.{AllByRecursion, flat_map};
ghost use Rattle.audit_terms.specs.declared.stream_state.Stream.{Stream as StreamTerm};
ghost use Rattle.quiet_pass.specs.code.Streams.{IsChangeSaid};
ghost use Rattle.quiet_pass.specs.code.WholeStreams.{AreListed, FitsWhole, HaveRoomIn, entry_among, put_among};
ghost use Rattle.quiet_pass.specs.code.WholeStreams.{whole_after, whole_of, whole_said};

use crate::held_streams::held;
use crate::opened_rows::Row;
use crate::shift_ranges::raised_in;
use audit_terms::{Finding, Sides, Step, Stream};
use fault_rules::say_stream;
use std::alloc::{AllocError, Global};

/// A stream that was opened.
#[derive(Clone, Copy)]
pub(crate) struct WholeStream {
    pub(crate) stream: u32,
    pub(crate) entry: Stream,
}

/// The streams that were opened, each once.
#[derive(Drop)]
pub(crate) struct WholeStreams {
    pub(crate) list: Vec<WholeStream>,
}

impl WholeStreams {
    ghost use Rattle.std.specs.Prelude.{◌==◌};
    ghost use Rattle.std.specs.List.{find};

    /// The stream of an identifier: one that is not in the list is not opened.
    pub(crate) fn entry_of(&self, stream: u32) -> Stream
        ensures { result ≡ entry_among self.now.list.items stream }
    {
        match self.find(stream) {
            Some(one) => one.entry,
            None => Stream::idle(),
        }
    }

    fn find(&self, stream: u32) -> Option<WholeStream>
        ensures { result ≡ find (λ one. one.stream == stream) self.now.list.items }
    {
        self.list.iter().copied().find(|one| one.stream == stream)
    }

    /// Says what a stream is now. Stream 0 is none.
    pub(crate) fn put(&mut self, stream: u32, entry: &Stream) -> Result<(), AllocError>
        ensures { OnOk result (self.new.list.items ≡ put_among stream entry.now self.old.list.items) }
    {
        if stream != 0 {
            let entry = *entry;
            self.list.retain(|one| one.stream != stream);
            self.list.insert(0, WholeStream { stream, entry })?;
        }
        Ok(())
    }

    /// How many streams were opened.
    pub(crate) fn count(&self) -> usize {
        self.list.len()
    }

    /// Meets a step without a frame, and adds what it shows of all streams.
    pub(crate) fn say_change(
        &mut self,
        alloc: Global,
        found: &mut Vec<Finding>,
        before: &Sides<u32>,
        step: &Step,
    ) -> Result<(), AllocError>
        requires alone { step.now.frame ≡ None }
        requires numbered { step.now.number ≤ 2 ^ 28 - 2 }
        requires room { (streams : ℕ → StreamTerm) × AreListed streams self.old.list.items × HaveRoomIn streams }
        ensures { OnOk result ((frames_shown : Bool) → IsChangeSaid frames_shown before.now step.now
            (λ streams. AreListed streams self.old.list.items) (λ streams. AreListed streams self.new.list.items)
            found.old.items found.new.items) }
    {
        let list = said_each(alloc, self.list.as_slice(), found, before, step)?;
        self.list = list;
        Ok(())
    }
}

/// Adds what a step without a frame shows of each stream, and gives the streams after it.
fn said_each(
    alloc: Global,
    list: &[WholeStream],
    found: &mut Vec<Finding>,
    before: &Sides<u32>,
    step: &Step,
) -> Result<Vec<WholeStream>, AllocError>
    requires alone { step.now.frame ≡ None }
    requires numbered { step.now.number ≤ 2 ^ 28 - 2 }
    requires fits { AllByRecursion FitsWhole list.now }
    ensures said { IfOk result (λ made. found.new.items
        ≡ found.old.items ++ flat_map (whole_said before.now step.now) list.now) }
    ensures after { IfOk result (λ made. made.items ≡ map (whole_after before.now step.now) list.now) }
{
    let mut made = Vec::with_capacity(alloc, list.len())?;
    for at in 0..list.len() {
        let mut one = stream_at(list, at);
        say_stream(found, &mut one.entry, one.stream, before, step)?;
        made.push(one)?;
    }
    Ok(made)
}

fn stream_at(list: &[WholeStream], at: usize) -> WholeStream
    requires { at < length list.now }
    ensures { drop at list.now ≡ result ∷ drop (at + 1) list.now }
{
    list[at]
}

impl Row {
    /// Its stream in full, where rows hold credits less a shift, or as they are.
    fn whole(&self, shift: &Option<Sides<u32>>) -> WholeStream
        ensures { result ≡ whole_of shift.now self.now }
    {
        WholeStream {
            stream: self.stream,
            entry: raised_in(&held(&self.standings), shift),
        }
    }
}

/// Adds the streams of rows.
pub(crate) fn add_rows(
    list: &mut Vec<WholeStream>,
    rows: &[Row],
    shift: &Option<Sides<u32>>,
) -> Result<(), AllocError>
    ensures { OnOk result (list.new.items ≡ list.old.items ++ map (whole_of shift.now) rows.now) }
{
    for at in 0..rows.len() {
        list.push(whole_at(rows, at, shift))?;
    }
    Ok(())
}

/// The stream of a row, in full.
fn whole_at(rows: &[Row], at: usize, shift: &Option<Sides<u32>>) -> WholeStream
    requires { at < length rows.now }
    ensures { map (whole_of shift.now) (drop at rows.now) ≡ result ∷ map (whole_of shift.now) (drop (at + 1) rows.now) }
{
    rows[at].whole(shift)
}
