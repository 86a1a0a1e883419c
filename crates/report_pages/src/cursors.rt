//! A position among the entries of all sections, from which a text goes on.

ghost use Rattle.std.specs.Prelude.{◌≡◌, ◌<◌, ◌≤◌, ◌==◌, ◌∷◌, drop, length, slice_index_or};
ghost use Rattle.audit_report.specs.declared.headings.SectionHeading.{SectionHeading as HeadingTerm};
ghost use Rattle.report_pages.specs.declared.told.Told.{Told as ToldTerm};
ghost use Rattle.report_pages.specs.code.Entries.{IsOrderlyStretch, entries_of};

use crate::stretches::{Piece, Stretch, count_stretches, stretch_of};
use crate::told::Told;
use audit_report::SectionHeading;

/// An entry of the sections of connections, and all behind it.
#[derive(Clone, Copy)]
pub(crate) struct Cursor<'a> {
    /// Are credits shown?
    pub(crate) frames_shown: bool,
    /// The number of the first connection that is left, counted from 1.
    pub(crate) k: u64,
    /// The headings of all connections that are left, and what is told of them.
    pub(crate) headings: &'a [SectionHeading],
    pub(crate) told: &'a [Told],
    /// The stretch of the first one's section.
    pub(crate) stretch: usize,
    /// The entry of that stretch.
    pub(crate) at: usize,
}

impl<'a> Cursor<'a> {
    ghost use Rattle.report_pages.specs.code.Entries.{IsCursor, IsStep, entries_at, steps_at, stretches_at};

    /// Is nothing left?
    pub(crate) fn is_done(&self) -> bool
        ensures { result ≡ (length self.now.told.now == 0) }
    {
        self.told.is_empty()
    }

    /// The stretch that it is in.
    fn current(&self) -> Stretch<'a>
        requires cursor { IsCursor self.now }
        requires some { 0 < length self.now.told.now }
        ensures entries { stretches_at self.now
            ≡ entries_of self.now.frames_shown result ∷ drop 1 (stretches_at self.now) }
        ensures orderly { IsOrderlyStretch result }
        ensures within { self.now.at ≤ length (entries_of self.now.frames_shown result) }
    {
        let heading = self.first_heading();
        let told = self.first_told();
        stretch_of(self.k, heading, told, self.stretch)
    }

    /// The heading of the first section that is left.
    fn first_heading(&self) -> &'a SectionHeading
        requires { 0 < length self.now.headings.now }
        ensures { (d : HeadingTerm) → result.now ≡ slice_index_or self.now.headings.now 0 d }
    {
        &self.headings[0]
    }

    /// What is told of the first connection that is left.
    fn first_told(&self) -> &'a Told
        requires { 0 < length self.now.told.now }
        ensures { (d : ToldTerm) → result.now ≡ slice_index_or self.now.told.now 0 d }
    {
        &self.told[0]
    }

    /// The beginning of the next stretch.
    fn next(self) -> Cursor<'a>
        requires cursor { IsCursor self }
        requires some { 0 < length self.told.now }
        ensures stretches { stretches_at result ≡ drop 1 (stretches_at self.entry) }
        ensures first { result.at ≡ 0 }
        ensures cursor { IsCursor result }
        ensures frames_shown { result.frames_shown ≡ self.entry.frames_shown }
    {
        let told = self.first_told();
        if self.stretch + 1 < count_stretches(told) {
            return Cursor {
                stretch: self.stretch + 1,
                at: 0,
                ..self
            };
        }
        let (_, headings) = self.headings.split_at(1);
        let (_, told) = self.told.split_at(1);
        Cursor {
            frames_shown: self.frames_shown,
            k: self.k + 1,
            headings,
            told,
            stretch: 0,
            at: 0,
        }
    }

    /// At most so many next entries of its stretch, and the cursor behind them.
    pub(crate) fn step(self, most: usize) -> (Piece<'a>, Cursor<'a>)
        requires cursor { IsCursor self }
        requires some { 0 < length self.told.now }
        ensures { IsStep most self.entry result }
    {
        let stretch = self.current();
        let from = self.at;
        let end = stretch.len();
        if most < end - from {
            let to = from + most;
            return (Piece { stretch, from, to }, Cursor { at: to, ..self });
        }
        let to = end;
        (Piece { stretch, from, to }, self.next())
    }

    /// So many entries further, or behind all.
    pub(crate) fn skip(self, entries: usize) -> Cursor<'a>
        requires { IsCursor self }
        ensures cursor { IsCursor result }
        ensures entries { entries_at result ≡ drop entries (entries_at self.entry) }
        ensures frames_shown { result.frames_shown ≡ self.entry.frames_shown }
        ensures less { (0 < entries) × (0 < length self.entry.told.now) → steps_at result < steps_at self.entry }
    {
        let mut cursor = self;
        let mut left = entries;
        while 0 < left && !cursor.is_done() {
            let (piece, behind) = cursor.step(left);
            left -= piece.to - piece.from;
            cursor = behind;
        }
        cursor
    }
}
