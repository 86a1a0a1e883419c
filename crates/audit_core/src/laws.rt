//! Laws of the definitions of `audit_terms`. The functions do nothing; each contract is a law.

ghost use Rattle.audit_core.specs.laws.Credit.{ConnectionCreditIsSum, StreamCreditIsSum};

pub use audit_terms::laws::streams_are_those_met;

/// Every credit that the pass carries is the sum of RFC 9113, 6.9: of each side's connection window, and of each live
/// window of each stream.
#[tactic(auto, using(crate::proofs::CreditLemmas::credit_laws))]
pub fn credit_is_sum()
    ensures connection { ConnectionCreditIsSum }
    ensures stream { StreamCreditIsSum }
{}

ghost use Rattle.audit_core.specs.laws.LiveWindows.{LiveWindowsAreOpened, LiveWindowsAreUnended};

/// A live window belongs to a stream that is opened and that the window's endpoint has not ended: so the law on the
/// credit of streams covers each live window.
#[tactic(auto, using(crate::proofs::LiveWindows::live_laws))]
pub fn live_windows_are_opened()
    ensures opened { LiveWindowsAreOpened }
    ensures unended { LiveWindowsAreUnended }
{}

ghost use Rattle.audit_core.specs.laws.Steps.{StepsJoinFramesAndChanges, StreamsHaveSteps};

/// The steps of a stream rise in number, and have all of its frames and all changes of the connection, each at its own
/// number, and nothing else.
#[tactic(auto, using(crate::proofs::JoinedSteps::steps_join_lem))]
pub fn steps_join_frames_and_changes()
    ensures joined { StepsJoinFramesAndChanges }
    ensures streams { StreamsHaveSteps }
{}

ghost use Rattle.audit_core.specs.laws.Parts.{PartsMakeFull};

/// All findings of a connection's frames are, put in order, the local faults, the unmatched acknowledgements, the
/// findings of each stream alone and those of each block of frames, however the streams are grouped and the frames
/// divided into blocks.
#[tactic(auto, using(crate::proofs::PartsLemmas::parts_make_full_lem))]
pub fn parts_make_full()
    ensures { PartsMakeFull }
{}

ghost use Rattle.audit_core.specs.laws.Stop.{KeptUptoFirstStop, FindingsStandInOrder};

/// The pass keeps a front of all findings, of which only the last may be an error of the connection; and all findings
/// are in order, so this error is the least.
#[tactic(auto, using(crate::proofs::StopLemmas::stop_laws))]
pub fn findings_end_at_first_stop()
    ensures kept { KeptUptoFirstStop }
    ensures in_order { FindingsStandInOrder }
{}

ghost use Rattle.audit_core.specs.laws.Apart.{FindingsStandApart, ErrorsStandAlone};

/// No two of all findings of a connection share place and side: at each place at most one thing is said of an endpoint.
/// Errors of the connection do not even share a place.
#[tactic(auto, using(crate::proofs::Apart::findings_stand_apart, crate::proofs::Apart::errors_stand_alone))]
pub fn findings_stand_apart()
    ensures apart { FindingsStandApart }
    ensures errors { ErrorsStandAlone }
{}
