//! The frames of a side, cut out of its bytes as they come.

ghost use Rattle.std.specs.Prelude.{◌≡◌, ◌+◌, ◌-◌, ◌<◌, ◌≤◌, ◌^◌, [], ◌++◌, List, ℕ, IfOk, IfSome, OnOk, length, take};
ghost use Rattle.h2_frames.specs.Spelling.{HoldsNoFrame};
ghost use Rattle.h2_frames.specs.code.Handed.{HasRoomFor};
ghost use Rattle.h2_frames.specs.code.Cutter.{HasAdded, HasCut, HasGathered, HasGoneOn, HasGot, IsBegun};
ghost use Rattle.h2_frames.specs.code.Cutter.{IsHeaderOf, IsOne, IsTakenOut};

use crate::bodies::{body_of, body_of_front, needed};
use crate::headers::{HEADER_LENGTH, Header};
use crate::numbering::Numbering;
use crate::side_frames::Source;
use crate::spelling::{Spelled, first_parts};
use crate::visitor::FrameVisitor;
use std::alloc::{AllocError, Global};

/// Between frames a cutter keeps memory for so many bytes at most: of none but SETTINGS more are kept.
const IDLE_BYTES: usize = 32;

/// What is begun of a side's next frame.
///
/// After each feeding the frames of all bytes that were fed were handed on. The bytes that it keeps are the header
/// of a frame that is not whole yet, and what of its payload its body is read from.
#[derive(Drop)]
pub(crate) struct SideCutter {
    /// The bytes that are kept.
    begun: Vec<u8>,
    /// How many bytes of the frame came.
    count: usize,
}

impl SideCutter {
    /// No frame is begun.
    pub fn new(alloc: Global) -> SideCutter
        ensures { IsBegun [] result }
    {
        SideCutter {
            begun: Vec::new(alloc),
            count: 0,
        }
    }

    /// How many bytes came behind the last whole frame.
    pub fn tail(&self) -> u32
        requires { self.now.count < 2 ^ 32 }
        ensures { result ≡ self.now.count }
    {
        self.count as u32
    }

    /// The header of the frame that is begun, if it came.
    fn header(&self) -> Option<Header>
        requires { (tail : List ℕ) × IsBegun tail self.now }
        ensures is { (tail : List ℕ) → IsBegun tail self.now → IsHeaderOf tail result }
        ensures length { IfSome result (λ header. header.length < 2 ^ 24) }
        ensures stream { IfSome result (λ header. header.stream < 2 ^ 31) }
    {
        if self.count < HEADER_LENGTH {
            return None;
        }
        Some(Header::read(&self.begun))
    }

    /// Adds what the frame lacks of its first `upto` bytes, as far as these bytes go, and keeps those of them that are
    /// among its first `keep`. Returns how many it got.
    fn add(&mut self, more: &[u8], upto: usize, keep: usize) -> Result<usize, AllocError>
        requires { self.old.count + length more.now < 2 ^ 63 }
        ensures { IfOk result (HasAdded upto keep more.now self.old self.new) }
    {
        let count = upto.saturating_sub(self.count).min(more.len());
        let kept = keep.saturating_sub(self.begun.len()).min(count);
        self.begun.extend_from_slice(&more[..kept])?;
        self.count += count;
        Ok(count)
    }

    /// Adds what the frame is known to lack, as far as these bytes go, and returns how many it got.
    fn add_wanted(&mut self, more: &[u8]) -> Result<usize, AllocError>
        requires { (tail : List ℕ) × IsBegun tail self.old × (length tail + length more.now < 2 ^ 31) }
        ensures { (tail : List ℕ) → IsBegun tail self.old → IfOk result (λ n. HasGot tail more.now n self.new) }
    {
        match self.header() {
            Some(header) => {
                let wanted = HEADER_LENGTH + header.length as usize;
                let kept = needed(header.code, header.flags, header.length);
                self.add(more, wanted, HEADER_LENGTH + kept as usize)
            }
            None => self.add(more, HEADER_LENGTH, HEADER_LENGTH),
        }
    }

    /// Adds what the frame lacks, as far as these bytes go: first of its header, which says how long it is. Returns how
    /// many bytes it got.
    fn gather(&mut self, more: &[u8]) -> Result<usize, AllocError>
        requires { (tail : List ℕ) × IsBegun tail self.old × (length tail + length more.now < 2 ^ 31) }
        ensures { (tail : List ℕ) → IsBegun tail self.old → HoldsNoFrame tail
            → IfOk result (λ n. HasGathered tail more.now n self.new) }
    {
        let header = self.add_wanted(more)?;
        if header == more.len() {
            return Ok(header);
        }
        let payload = self.add_wanted(&more[header..])?;
        Ok(header + payload)
    }

    /// Takes the frame out, if it is whole.
    fn take_whole(&mut self) -> Option<Spelled>
        requires { (tail : List ℕ) × IsBegun tail self.old }
        ensures taken { (tail : List ℕ) → IsBegun tail self.old → IsOne tail
            → IsTakenOut result tail self.old self.new }
        ensures length { IfSome result (λ s. s.header.length < 2 ^ 24) }
        ensures stream { IfSome result (λ s. s.header.stream < 2 ^ 31) }
    {
        let header = self.header()?;
        if self.count < HEADER_LENGTH + header.length as usize {
            return None;
        }
        let Header {
            length,
            code,
            flags,
            ..
        } = header;
        let body = body_of_front(code, flags, length, &self.begun[HEADER_LENGTH..]);
        self.begun.clear();
        self.begun.shrink_to(IDLE_BYTES);
        self.count = 0;
        Some(Spelled { header, body })
    }

    /// Hands on the frame that is begun, if it is whole.
    fn hand_on_whole<V: FrameVisitor>(
        &mut self,
        alloc: Global,
        source: Source,
        stage: &mut Numbering<V>,
    ) -> Result<(), AllocError>
        requires begun { (tail : List ℕ) × IsBegun tail self.old × IsOne tail
            × HasRoomFor V.after (length tail) stage.old }
        requires time { source.nanos < 2 ^ 63 }
        ensures cut { (tail : List ℕ) → IsBegun tail self.old → IsOne tail
            → OnOk result (HasCut V.after source stage.old tail self.new stage.new) }
        ensures out { (tail : List ℕ) → IsBegun tail self.old → IsOne tail → ¬ HoldsNoFrame tail
            → OnOk result (self.new.count ≡ 0) }
    {
        match self.take_whole() {
            Some(spelled) => stage.hand_on(alloc, source, spelled),
            None => Ok(()),
        }
    }

    /// Adds to the frame that is begun what it lacks, as far as these bytes go, and hands it on where it is whole then.
    /// Returns how many bytes it got: all, or else none is begun any more.
    fn complete<V: FrameVisitor>(
        &mut self,
        alloc: Global,
        source: Source,
        more: &[u8],
        stage: &mut Numbering<V>,
    ) -> Result<usize, AllocError>
        requires begun { (tail : List ℕ) × IsBegun tail self.old × HoldsNoFrame tail
            × HasRoomFor V.after (length tail + length more.now) stage.old }
        requires time { source.nanos < 2 ^ 63 }
        ensures within { IfOk result (λ n. n ≤ length more.now) }
        ensures none { IfOk result (λ n. n < length more.now → self.new.count ≡ 0) }
        ensures cut { (tail : List ℕ) → IsBegun tail self.old → HoldsNoFrame tail
            → IfOk result (λ n. HasCut V.after source stage.old (tail ++ take n more.now) self.new stage.new) }
    {
        if self.count == 0 {
            return Ok(0);
        }
        let used = self.gather(more)?;
        self.hand_on_whole(alloc, source, stage)?;
        Ok(used)
    }

    /// Hands on the whole frames of these bytes, where none is begun before them, and begins the next one.
    fn go_on<V: FrameVisitor>(
        &mut self,
        alloc: Global,
        source: Source,
        more: &[u8],
        stage: &mut Numbering<V>,
    ) -> Result<(), AllocError>
        requires begun { (tail : List ℕ) × IsBegun tail self.old × HoldsNoFrame tail
            × HasRoomFor V.after (length tail + length more.now) stage.old }
        requires none { 0 < length more.now → self.old.count ≡ 0 }
        requires time { source.nanos < 2 ^ 63 }
        ensures { (tail : List ℕ) → IsBegun tail self.old → HoldsNoFrame tail
            → OnOk result (HasCut V.after source stage.old (tail ++ more.now) self.new stage.new) }
    {
        if more.is_empty() {
            return Ok(());
        }
        let rest = hand_on_all(alloc, source, more, stage)?;
        if !rest.is_empty() {
            self.gather(rest)?;
        }
        Ok(())
    }

    /// Hands on each frame that these bytes complete, all of which a source brings.
    pub fn feed<V: FrameVisitor>(
        &mut self,
        alloc: Global,
        source: Source,
        more: &[u8],
        stage: &mut Numbering<V>,
    ) -> Result<(), AllocError>
        requires begun { (tail : List ℕ) × IsBegun tail self.old × HoldsNoFrame tail
            × HasRoomFor V.after (length tail + length more.now) stage.old }
        requires time { source.nanos < 2 ^ 63 }
        ensures { (tail : List ℕ) → IsBegun tail self.old → HoldsNoFrame tail
            → OnOk result (HasCut V.after source stage.old (tail ++ more.now) self.new stage.new) }
    {
        let used = self.complete(alloc, source, more, stage)?;
        self.go_on(alloc, source, &more[used..], stage)
    }
}

/// Hands on all whole frames that these bytes begin with, and returns the bytes behind them.
fn hand_on_all<'b, V: FrameVisitor>(
    alloc: Global,
    source: Source,
    bytes: &'b [u8],
    stage: &mut Numbering<V>,
) -> Result<&'b [u8], AllocError>
    requires room { HasRoomFor V.after (length bytes.now) stage.old }
    requires time { source.nanos < 2 ^ 63 }
    ensures none { IfOk result (λ rest. HoldsNoFrame rest.now) }
    ensures on { IfOk result (λ rest. HasGoneOn V.after source stage.old bytes.now rest.now stage.new) }
{
    let mut rest = bytes;
    while let Some((header, payload, later)) = first_parts(rest) {
        let body = body_of(header.code, header.flags, payload);
        stage.hand_on(alloc, source, Spelled { header, body })?;
        rest = later;
    }
    Ok(rest)
}
