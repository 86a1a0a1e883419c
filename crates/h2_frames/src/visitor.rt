//! Whoever is handed the frames of a connection.

ghost use Rattle.std.specs.Prelude.{◌∷◌, ◌++◌, [], List, OnOk};
ghost use Rattle.audit_terms.specs.declared.frames.Frame.{Frame};
ghost use Rattle.h2_frames.specs.code.Handed.{IsNextFrame};

use audit_terms::Frame;
use std::alloc::{AllocError, Global};

/// Whoever is handed the frames of a connection, each once, numbered from 1 in capture order.
pub trait FrameVisitor {
    /// The visitor is what these frames made of it.
    ghost after: { List Frame → Self → Type 0 };

    /// Takes the next frame. Where memory runs out, nothing is known of the visitor.
    fn take(&mut self, alloc: Global, frame: &Frame) -> Result<(), AllocError>
        requires { (frames : List Frame) × after frames self.old × IsNextFrame frames frame.now }
        ensures { (frames : List Frame) → after frames self.old → IsNextFrame frames frame.now
            → OnOk result (after (frames ++ frame.now ∷ []) self.new) };
}
