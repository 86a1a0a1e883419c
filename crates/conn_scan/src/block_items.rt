ghost use Rattle.std.specs.Prelude.{◌≡◌};
ghost use Rattle.std.specs.Iterator.{YieldsFirst, item_count};
ghost use Rattle.conn_scan.specs.code.Walk.{numbers_not_below, changes_not_below, is_first, first_change, item_at};
ghost use Rattle.conn_scan.specs.code.Walk.{walked};
ghost use Rattle.conn_scan.specs.code.Walk.{StartFrom, ChangesStartFrom};

use audit_terms::{Change, Frame, Item};

/// A range of a connection's frames, with what the audit of the connection needs beside them.
#[derive(Clone, Copy)]
pub struct Block<'a> {
    /// The frames, their numbers rising.
    pub frames: &'a [Frame],
    /// The numbers of frames that open streams, in order. A promise may stand here too: it is judged by its body.
    pub opened: &'a [u32],
    /// What acknowledgements bring into force, in order of numbers.
    pub changes: &'a [Change],
}

impl<'a> Block<'a> {
    /// The items of the block, one after the other, with no list of them.
    pub(crate) fn items(&self) -> Walk<'a>
        ensures { walked result.opened.now result.changes.now result.frames.now
            ≡ walked self.now.opened.now self.now.changes.now self.now.frames.now }
    {
        Walk {
            frames: self.frames,
            opened: self.opened,
            changes: self.changes,
        }
    }
}

/// The items of a block, by one forward walk.
#[derive(Drop)]
pub(crate) struct Walk<'a> {
    pub(crate) frames: &'a [Frame],
    pub(crate) opened: &'a [u32],
    pub(crate) changes: &'a [Change],
}

impl Iterator for Walk<'_> {
    type Item = Item;

    ghost next_gives = { YieldsFirst (λ s. walked s.opened.now s.changes.now s.frames.now) };

    ghost remaining = { item_count (λ s. walked s.opened.now s.changes.now s.frames.now) };

    fn next(&mut self) -> Option<Item> {
        match self.frames.split_first() {
            None => None,
            Some((frame, frames)) => {
                self.frames = frames;
                self.opened = numbers_not_below(self.opened, frame.number);
                self.changes = changes_not_below(self.changes, frame.number);
                Some(item_at(frame, self.opened, self.changes))
            }
        }
    }
}

/// The numbers from the first that is not below a number.
pub fn numbers_not_below(numbers: &[u32], low: u32) -> &[u32]
    ensures { result.now ≡ numbers_not_below low numbers.now }
{
    let mut rest = numbers;
    while let Some((first, later)) = rest.split_first() {
        if *first >= low {
            return rest;
        }
        rest = later;
    }
    rest
}

/// The changes from the first whose number is not below a number.
pub fn changes_not_below(changes: &[Change], low: u32) -> &[Change]
    ensures { result.now ≡ changes_not_below low changes.now }
{
    let mut rest = changes;
    while let Some((first, later)) = rest.split_first() {
        if first.number >= low {
            return rest;
        }
        rest = later;
    }
    rest
}

/// The least number of an opening or of a change, or the largest word where there is none: a frame with a lower number
/// opens no stream and brings nothing into force.
pub(crate) fn first_number(opened: &[u32], changes: &[Change]) -> u32
    ensures opened { StartFrom result opened.now }
    ensures changes { ChangesStartFrom result changes.now }
{
    let opening = match opened.split_first() {
        Some((first, _)) => *first,
        None => u32::MAX,
    };
    match changes.split_first() {
        Some((first, _)) => opening.min(first.number),
        None => opening,
    }
}

/// Is it the first number?
fn is_first(number: u32, numbers: &[u32]) -> bool
    ensures { result ≡ is_first number numbers.now }
{
    match numbers.split_first() {
        Some((first, _)) => *first == number,
        None => false,
    }
}

/// The first change, where it has this number.
fn first_change(number: u32, changes: &[Change]) -> Option<Change>
    ensures { result ≡ first_change number changes.now }
{
    match changes.split_first() {
        Some((first, _)) if first.number == number => Some(*first),
        _ => None,
    }
}

/// A frame with its opening mark and its change, where the first number and the first change are not below its number.
pub(crate) fn item_at(frame: &Frame, opened: &[u32], changes: &[Change]) -> Item
    ensures { result ≡ item_at frame.now opened.now changes.now }
{
    Item {
        frame: *frame,
        opens: frame.body.is_headers() && is_first(frame.number, opened),
        change: first_change(frame.number, changes),
    }
}
