ghost use Rattle.std.specs.Prelude.{◌≡◌, ◌+◌, ◌-◌, ◌<◌, ◌≤◌, ◌++◌, length, OnOk};

use std::alloc::AllocError;

/// The first offset that does not count: a flow is shorter than this.
pub(crate) const END_OF_OFFSETS: u32 = 0x8000_0000;

/// Offsets of a stream that follow each other and come from one segment, with the index of the first
/// one's byte in the capture.
#[derive(Clone, Copy)]
pub(crate) struct Interval {
    pub from: u32,
    pub upto: u32,
    pub index: u32,
    pub rec: u32,
    pub nanos: u64,
}

impl Interval {
    ghost use Rattle.std.specs.List.{slice_range};
    ghost use Rattle.tcp_streams.specs.Bytes.{joined};
    ghost use Rattle.tcp_streams.specs.code.Interval.{IsInside, IsInterval, part_of, width};

    /// Appends the interval's bytes to the pieces that were found.
    pub fn push_bytes<'a>(
        &self,
        capture: &'a [u8],
        found: &mut Vec<&'a [u8]>,
    ) -> Result<(), AllocError>
        requires { IsInside (length capture.now) self.now }
        ensures { OnOk result (joined found.new.items ≡ joined found.old.items
            ++ slice_range capture.now self.now.index (self.now.index + width self.now)) }
    {
        let index = self.index as usize;
        let end = index + (self.upto - self.from) as usize;
        found.push(&capture[index..end])?;
        Ok(())
    }

    /// The stretch of the interval between two offsets.
    pub fn part(&self, low: u32, high: u32) -> Interval
        requires interval { IsInterval self.now }
        requires low { self.now.from ≤ low }
        requires some { low < high }
        requires high { high ≤ self.now.upto }
        ensures part { result ≡ part_of self.now low high }
        ensures interval { IsInterval result }
    {
        Interval {
            from: low,
            upto: high,
            index: self.index + (low - self.from),
            rec: self.rec,
            nanos: self.nanos,
        }
    }
}

/// An interval that is kept, with what is kept of its bytes.
#[derive(Drop)]
pub(crate) struct Piece<K> {
    pub interval: Interval,
    pub content: K,
}
