//! Laws of the definitions that the contracts of this crate cite. They do nothing at run time.

ghost use Rattle.h2_frames.specs.laws.Endings.{EndingTellsTheCut};
ghost use Rattle.h2_frames.specs.laws.Feeding.{FedGrows};
ghost use Rattle.h2_frames.specs.laws.Growth.{CaptureOrderGrows};
ghost use Rattle.h2_frames.specs.laws.Unique.{CutIsUnique, SpellingIsUnique};

use crate::visitor::FrameVisitor;

/// One list of bytes has one spelling: its frames and its tail are determined (RFC 9113, 4.1).
#[tactic(auto, using(crate::proofs::Uniqueness::uniqueness))]
pub fn spelling_is_unique()
    ensures { SpellingIsUnique }
{}

/// Two flows have one cut: its kind, its frames and its tails are determined by their bytes and arrivals.
#[tactic(auto, using(crate::proofs::Uniqueness::uniqueness))]
pub fn cut_is_unique()
    ensures { CutIsUnique }
{}

/// Frames that are told when a record completes them are told in capture order: whichever side's they are, they follow
/// all that were there before. So no order has to be changed afterwards.
pub fn capture_order_grows()
    ensures { CaptureOrderGrows }
{}

/// Bytes that are fed change nothing of those that were fed before, and arrive with the record that brings them: so
/// what was fed of a flow is the flow, byte for byte and record for record.
pub fn fed_grows()
    ensures { FedGrows }
{}

/// What a cutter tells at its end, and what its visitor was handed, is the cut of the two flows, which
/// [`cut`](crate::cut) finds: its kind, its frames and its tails.
pub fn ending_tells_the_cut<V: FrameVisitor>()
    ensures { EndingTellsTheCut V.after }
{}
