//! Worked examples: what short scripts show of one stream, computed from the definitions by proof. The functions do
//! nothing; each contract is the example.
ghost use Rattle.stream_credit.specs.examples.Life.{BothSidesEnd, AfterReset, OpensAndEnds, NothingOpens};
ghost use Rattle.stream_credit.specs.examples.Life.{PromiseOpens, PromiseOpensOnce, MisplacedPromise};
ghost use Rattle.stream_credit.specs.examples.Run.{NegativeWindow, NegativeWindowUnshown, SettingsReachEachStream};
ghost use Rattle.stream_credit.specs.examples.Run.{ChangesPassedOver, OpensAtZero, OverrunsAboveZero, OverflowingGrant};
ghost use Rattle.stream_credit.specs.examples.Run.{SettingOverflows, PromisedStall, PositionsOfPromised, KeptUpToStop};
ghost use Rattle.stream_credit.specs.examples.Run.{StepNumbers};

/// An opening, and the ends of both sides (RFC 9113, 5.1).
pub fn both_sides_end()
    ensures both_sides_end { BothSidesEnd }
    ensures opens_and_ends { OpensAndEnds }
{}

/// DATA after a RST_STREAM (5.1, 6.4).
pub fn after_reset()
    ensures { AfterReset }
{}

/// Frames that find no opened stream, and open none (5.1, 5.1.1).
pub fn nothing_opens()
    ensures { NothingOpens }
{}

/// A promise opens the promised stream (5.1.1, 6.6).
pub fn promise_opens()
    ensures promise_opens { PromiseOpens }
    ensures promise_opens_once { PromiseOpensOnce }
{}

/// A promise where the server can promise nothing (6.6).
pub fn misplaced_promise()
    ensures { MisplacedPromise }
{}

/// A lower initial window makes a credit negative (6.9.2), with its credits and without.
pub fn negative_window()
    ensures shown { NegativeWindow }
    ensures unshown { NegativeWindowUnshown }
{}

/// A change counts for streams that are open and for streams that open later, and for none that has no window (6.9.2).
pub fn settings_reach_each_stream()
    ensures each_stream { SettingsReachEachStream }
    ensures passed_over { ChangesPassedOver }
{}

/// A window that opens at 0 (6.9.2).
pub fn opens_at_zero()
    ensures { OpensAtZero }
{}

/// More content than credit (6.9).
pub fn overruns_above_zero()
    ensures { OverrunsAboveZero }
{}

/// A grant above the largest window, and a change above it (6.9.1, 6.9.2).
pub fn above_the_largest()
    ensures overflowing_grant { OverflowingGrant }
    ensures setting_overflows { SettingOverflows }
{}

/// A promised stream, its stall and its reset (5.1, 6.6), and where its frames stand.
pub fn promised_stall()
    ensures run { PromisedStall }
    ensures positions { PositionsOfPromised }
{}

/// What a run has found before a step, and what it keeps where it stops.
pub fn kept_up_to_stop()
    ensures kept { KeptUpToStop }
    ensures steps { StepNumbers }
{}
