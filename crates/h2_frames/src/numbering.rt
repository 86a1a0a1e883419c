//! Frames get their numbers as they are handed on.

ghost use Rattle.std.specs.Prelude.{◌≡◌, ◌+◌, ◌<◌, ◌^◌, [], ◌∷◌, ◌++◌, List, OnOk, length};
ghost use Rattle.audit_terms.specs.declared.frames.Frame.{Frame};
ghost use Rattle.h2_frames.specs.code.Brought.{frame_of};
ghost use Rattle.h2_frames.specs.code.Handed.{Fits, HasHanded, HasRoomFor};

use crate::side_frames::Source;
use crate::spelling::Spelled;
use crate::visitor::FrameVisitor;
use std::alloc::{AllocError, Global};

/// Numbers the frames of a connection from 1, in the order in which they are completed, and hands them on.
#[derive(Drop)]
pub(crate) struct Numbering<V> {
    pub visitor: V,
    /// How many frames were handed on.
    pub taken: u32,
}

impl<V: FrameVisitor> Numbering<V> {
    /// Hands on the next frame, which a source completes.
    #[inline(always)]
    pub fn hand_on(
        &mut self,
        alloc: Global,
        source: Source,
        spelled: Spelled,
    ) -> Result<(), AllocError>
        requires room { HasRoomFor V.after 9 self.old }
        requires fits { Fits spelled }
        requires time { source.nanos < 2 ^ 63 }
        ensures { (frames : List Frame) → HasHanded V.after frames self.old → OnOk result
            (HasHanded V.after (frames ++ frame_of source (length frames + 1) spelled ∷ []) self.new) }
    {
        self.taken += 1;
        let frame = spelled.brought(source, self.taken);
        self.visitor.take(alloc, &frame)
    }
}
