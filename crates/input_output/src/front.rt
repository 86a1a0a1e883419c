//! Walks that are fed the bytes of a capture while they are read.

ghost use Rattle.std.specs.Prelude.{◌+◌, ◌++◌, ◌≤◌, ◌^◌, List, ℕ, OnOk, length, take};

use std::alloc::{AllocError, Global};

/// A walk that is fed the bytes of a capture in order, each of them once.
///
/// What it needs of bytes that it was fed, it keeps itself: so whoever feeds it need not know its purpose, nor keep the
/// bytes.
pub trait FrontWalk {
    /// The walk stands for a capture that has these bytes so far.
    ghost stands: { List ℕ → Self → Type 0 };

    /// Takes the bytes behind those that it was fed. Where memory runs out, nothing is known of the walk.
    fn feed(&mut self, alloc: Global, more: &[u8]) -> Result<(), AllocError>
        requires { (front : List ℕ) × stands front self.old × (length front + length more.now ≤ 2 ^ 31) }
        ensures { (front : List ℕ) → stands front self.old → OnOk result (stands (front ++ more.now) self.new) };
}

/// Feeds a walk the bytes of a capture behind the first `fed`, which it was fed. Where memory runs out, nothing is
/// known of the walk.
pub fn feed_rest<W: FrontWalk>(
    alloc: Global,
    capture: &[u8],
    fed: usize,
    walk: &mut W,
) -> Result<(), AllocError>
    requires walk { W.stands (take fed capture.now) walk.old }
    requires within { fed ≤ length capture.now }
    requires short { length capture.now ≤ 2 ^ 31 }
    ensures { OnOk result (W.stands capture.now walk.new) }
{
    walk.feed(alloc, &capture[fed..])
}
