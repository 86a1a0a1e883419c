//! The flow of one side while its segments come one by one, as intervals of the capture.

ghost use Rattle.std.specs.Prelude.{◌≡◌, ℕ, ◌<◌, ◌≤◌, List, [], ◌∷◌, All, None, Some, Option, IsSome, IfSome, IfNone};
ghost use Rattle.std.specs.Prelude.{OnOk, length};
ghost use Rattle.tcp_streams.specs.Flow.{IsGap};
ghost use Rattle.tcp_streams.specs.Sequence.{Source, end_of_offsets};
ghost use Rattle.tcp_streams.specs.code.Interval.{IsInterval, part_of};
ghost use Rattle.tcp_streams.specs.code.SideFlow.{AllHold, AreKept, IsGrowth, IsHeldAt, IsRun, IsSideFlow, intervals};
ghost use Rattle.tcp_streams.specs.code.SideFlow.{kept_at, with_interval};
ghost use Rattle.tcp_streams.specs.declared.interval.Interval.{Interval};

use crate::content::Content;
use crate::interval::{Interval, Piece};
use std::alloc::{AllocError, Global};
use std::collections::BTreeMap;

/// What is known of a side's stream so far: how far it goes without a hole, and what lies behind the first hole. Where
/// several records bring a byte, the first has it.
#[derive(Drop)]
pub(crate) struct SideFlow<K> {
    /// How many bytes there are before the first hole.
    pub end: u32,
    /// What lies behind the hole, each interval under its first offset. No two of them hold one offset.
    kept: BTreeMap<u32, Piece<K>>,
}

impl<K: Content> SideFlow<K> {
    /// The flow before any segment.
    pub fn new(alloc: Global) -> SideFlow<K>
        ensures stands { IsSideFlow (λ _. None) result }
        ensures holds { (of : Option (List ℕ)) → AllHold (K.holds of) result.kept }
        ensures end { result.end ≡ 0 }
    {
        SideFlow {
            end: 0,
            kept: BTreeMap::new(alloc),
        }
    }

    /// Grows by what an interval has past the end, where nothing is kept and it begins no later: by that part of it.
    pub fn extend(&mut self, x: &Interval) -> Option<Interval>
        requires { IsInterval x.now }
        ensures part { IfSome result (λ new. new ≡ part_of x.now self.old.end x.now.upto) }
        ensures inside { IfSome result (λ _. (x.now.from ≤ self.old.end) × (self.old.end < x.now.upto)) }
        ensures stands { IfSome result (λ _. (sources : ℕ → Option Source)
            → IsSideFlow sources self.old → IsSideFlow (with_interval sources x.now) self.new) }
        ensures growth { IfSome result (λ new. (sources : ℕ → Option Source)
            → IsSideFlow sources self.old
            → IsGrowth (with_interval sources x.now) self.old.end self.new.end (new ∷ [])) }
        ensures kept { self.new.kept ≡ self.old.kept }
        ensures none { IfNone result (self.new ≡ self.old) }
    {
        if self.end < x.from || x.upto <= self.end || !self.kept.is_empty() {
            return None;
        }
        let new = x.part(self.end, x.upto);
        self.end = x.upto;
        Some(new)
    }

    /// The offset at which bytes are missing before later ones, if they are.
    pub fn gap(&self) -> Option<u64>
        ensures { (sources : ℕ → Option Source)
            → IsSideFlow sources self.now → IsGap sources self.now.end result }
    {
        if self.kept.is_empty() {
            None
        } else {
            Some(self.end as u64)
        }
    }

    /// Keeps the parts of an interval past the end that nothing holds yet. It takes steps in the logarithm of how many
    /// are kept, and one that covers others as many steps more.
    pub fn keep(&mut self, alloc: Global, x: &Interval, payload: &[u8]) -> Result<(), AllocError>
        requires interval { IsInterval x.now }
        requires given { K.gives None x.now payload.now }
        ensures kept { OnOk result ((sources : ℕ → Option Source)
            → IsSideFlow sources self.old
            → AreKept self.old.end (with_interval sources x.now) (kept_at self.new.kept)) }
        ensures holds { OnOk result ((of : Option (List ℕ))
            → K.gives of x.now payload.now → AllHold (K.holds of) self.old.kept
            → AllHold (K.holds of) self.new.kept) }
        ensures end { OnOk result (self.new.end ≡ self.old.end) }
    {
        let mut low = x.from.max(self.end);
        while low < x.upto {
            low = match self.held_upto(low) {
                Some(upto) => upto,
                None => {
                    let high = self.free_upto(low, x.upto);
                    let content = K::part(alloc, x, payload, low, high)?;
                    self.kept.insert(
                        low,
                        Piece {
                            interval: x.part(low, high),
                            content,
                        },
                    )?;
                    high
                }
            };
        }
        Ok(())
    }

    /// Where the interval ends that holds an offset. None if nothing does.
    fn held_upto(&self, o: u32) -> Option<u32>
        ensures held { IfSome result (λ upto. (o < upto)
            × ((k : ℕ) × (x : Interval) × IsHeldAt (kept_at self.now.kept) o k x × (x.upto ≡ upto))) }
        ensures free { IfNone result ((low : ℕ) (sources : ℕ → Option Source) (k : ℕ) (x : Interval)
            → AreKept low sources (kept_at self.now.kept) → kept_at self.now.kept k ≡ Some x → k ≤ o → x.upto ≤ o) }
    {
        match self.kept.range(..=o).next_back() {
            Some((_, piece)) if o < piece.interval.upto => Some(piece.interval.upto),
            _ => None,
        }
    }

    /// The first offset after one, and before another, at which something begins that is kept, or else the other.
    fn free_upto(&self, low: u32, high: u32) -> u32
        requires { low < high }
        ensures after { low < result }
        ensures within { result ≤ high }
        ensures free { (k : ℕ) (x : Interval) → kept_at self.now.kept k ≡ Some x → low < k → k < result → ⊥ }
    {
        match self.kept.range(low + 1..).next() {
            Some((from, _)) => high.min(*from),
            None => high,
        }
    }

    /// Takes off what begins where the flow ends, by which it grows. None if nothing does.
    pub fn next(&mut self) -> Option<Piece<K>>
        ensures growth { IfSome result (λ p. (sources : ℕ → Option Source)
            → AreKept self.old.end sources (kept_at self.old.kept)
            → AreKept self.new.end sources (kept_at self.new.kept)
            × IsGrowth sources self.old.end self.new.end (p.interval ∷ [])) }
        ensures holds { IfSome result (λ p. (of : Option (List ℕ)) → AllHold (K.holds of) self.old.kept
            → AllHold (K.holds of) self.new.kept × K.holds of p.interval p.content) }
        ensures fewer { IfSome result (λ _. length self.new.kept.entries < length self.old.kept.entries) }
        ensures stands { IfNone result ((sources : ℕ → Option Source)
            → AreKept self.old.end sources (kept_at self.old.kept)
            → IsRun sources self.old.end → IsSideFlow sources self.new) }
        ensures still { IfNone result ((of : Option (List ℕ)) → AllHold (K.holds of) self.old.kept
            → AllHold (K.holds of) self.new.kept) }
        ensures end { IfNone result (self.new.end ≡ self.old.end) }
    {
        let next = self.kept.remove(&self.end)?;
        self.end = next.interval.upto;
        Some(next)
    }
}

impl SideFlow<()> {
    /// Takes what a segment covers, and leaves in `run` by what the flow grew.
    pub fn take(
        &mut self,
        alloc: Global,
        x: &Interval,
        run: &mut Vec<Piece<()>>,
    ) -> Result<(), AllocError>
        requires { IsInterval x.now }
        ensures stands { OnOk result ((sources : ℕ → Option Source)
            → IsSideFlow sources self.old → IsSideFlow (with_interval sources x.now) self.new) }
        ensures growth { OnOk result ((sources : ℕ → Option Source)
            → IsSideFlow sources self.old
            → IsGrowth (with_interval sources x.now) self.old.end self.new.end (intervals run.new.items)) }
    {
        run.clear();
        if let Some(new) = self.extend(x) {
            run.push(Piece {
                interval: new,
                content: (),
            })?;
            return Ok(());
        }
        self.keep(alloc, x, &[])?;
        while let Some(next) = self.next() {
            run.push(next)?;
        }
        Ok(())
    }
}
