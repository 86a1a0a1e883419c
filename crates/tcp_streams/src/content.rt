//! What is kept of an interval's bytes.

ghost use Rattle.std.specs.Prelude.{◌≡◌, ◌<◌, ◌≤◌, List, None, Option, IfOk, ℕ};
ghost use Rattle.tcp_streams.specs.code.Interval.{IsInterval, part_of};
ghost use Rattle.tcp_streams.specs.code.Content.{AreBytesIn};
ghost use Rattle.tcp_streams.specs.declared.interval.Interval.{Interval};

use crate::interval::Interval;
use std::alloc::{AllocError, Global};

/// What is kept of an interval's bytes: the bytes themselves, or nothing where they lie in the capture.
pub(crate) trait Content: Drop {
    /// These bytes are given of an interval of the capture. Where no capture is named, their number is right.
    ghost gives: { Option (List ℕ) → Interval → List ℕ → Type 0 };

    /// It is what is kept of an interval of the capture. Where no capture is named, its length is right.
    ghost holds: { Option (List ℕ) → Interval → Self → Type 0 };

    /// What is kept of the part of an interval between two of its offsets.
    fn part(
        alloc: Global,
        x: &Interval,
        payload: &[u8],
        low: u32,
        high: u32,
    ) -> Result<Self, AllocError>
        requires interval { IsInterval x.now }
        requires low { x.now.from ≤ low }
        requires some { low < high }
        requires high { high ≤ x.now.upto }
        requires given { gives None x.now payload.now }
        ensures { (of : Option (List ℕ)) → gives of x.now payload.now
            → IfOk result (holds of (part_of x.now low high)) };
}

/// The bytes lie in the capture, and nothing is given or kept of them.
impl Content for () {
    ghost gives = { λ _ _ _. Unit {0} };

    ghost holds = { λ _ _ _. Unit {0} };

    fn part(
        _alloc: Global,
        _x: &Interval,
        _payload: &[u8],
        _low: u32,
        _high: u32,
    ) -> Result<(), AllocError> {
        Ok(())
    }
}

/// The bytes are kept.
impl Content for Vec<u8> {
    ghost gives = { λ of x payload. AreBytesIn of x payload };

    ghost holds = { λ of x kept. AreBytesIn of x kept.items };

    fn part(
        alloc: Global,
        x: &Interval,
        payload: &[u8],
        low: u32,
        high: u32,
    ) -> Result<Vec<u8>, AllocError> {
        let from = (low - x.from) as usize;
        let upto = (high - x.from) as usize;
        copied(alloc, &payload[from..upto])
    }
}

/// A copy of bytes, with no room for more.
fn copied(alloc: Global, bytes: &[u8]) -> Result<Vec<u8>, AllocError>
    ensures { IfOk result (λ copy. copy.items ≡ bytes.now) }
{
    let mut copy = Vec::with_capacity(alloc, bytes.len())?;
    copy.extend_from_slice(bytes)?;
    Ok(copy)
}
