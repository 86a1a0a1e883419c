//! Worked examples: short scripts of a connection, each with the findings that the definitions give for it, computed
//! from `pass` of `audit_terms/specs/Pass.antt` by proof. The functions do nothing; each contract is the example.
//!
//! The scripts and the expected findings stand in `specs/examples/`, in the modules named with each group.
ghost use Rattle.audit_core.specs.examples.Stalls.{PaddedStall, StallPlaces, PaddedStallCredits, PaddingCounts};
ghost use Rattle.audit_core.specs.examples.Stalls.{StallEndsThenOverrun, ConnectionAtLargest, ConnectionOverflows};
ghost use Rattle.audit_core.specs.examples.Stalls.{NegativeWindow, NegativeWindowChanges, SettingOverflows, ZeroGrants};
ghost use Rattle.audit_core.specs.examples.Stalls.{ShortGrant};
ghost use Rattle.audit_core.specs.examples.StreamUses.{WithdrawnFindings, FindingsPastTheStop, FirstErrorBelowOverflow};
ghost use Rattle.audit_core.specs.examples.StreamUses.{AfterEndAndReset, IdentifierOrder, UnmatchedAcknowledgement};
ghost use Rattle.audit_core.specs.examples.StreamUses.{TwoOpenings};
ghost use Rattle.audit_core.specs.examples.SingleFaults.{BadPrefaceFound, BrokenBlockFound, BadPaddingFound};
ghost use Rattle.audit_core.specs.examples.SingleFaults.{GoodPadding, BadSettingFound, LongFrameFound, TooLongFound};
ghost use Rattle.audit_core.specs.examples.SingleFaults.{StreamOverflowFound, WrongStreamFound, BadPriorityFound};
ghost use Rattle.audit_core.specs.examples.SingleFaults.{DataAfterPeerReset, EmptyDataAtZero};
ghost use Rattle.audit_core.specs.examples.FrameFaults.{ClientBeginsWithPing, FirstFrameAcknowledges};
ghost use Rattle.audit_core.specs.examples.FrameFaults.{FirstFrameUnreadable, BlockGoesOn, BlockOfThreeFrames};
ghost use Rattle.audit_core.specs.examples.FrameFaults.{BlockBrokenByData, BlockBrokenByUnknown, NoBlockOpen};
ghost use Rattle.audit_core.specs.examples.FrameFaults.{BlockOfOtherStream, BlockOfOtherSide, BrokenBlockEnds};
ghost use Rattle.audit_core.specs.examples.FrameFaults.{WrongStreams, TooLongFrames, TooLongSettingsOnStream};
ghost use Rattle.audit_core.specs.examples.FrameFaults.{LongFrames, FrameLimits, UnreadableFrames};
ghost use Rattle.audit_core.specs.examples.WindowUses.{OverrunAboveZero, LastCredit, StallBelowZero, StallOfBothSides};
ghost use Rattle.audit_core.specs.examples.WindowUses.{OneInitialWindow, EndUsesUpWindow, OpenedAndEnded};
ghost use Rattle.audit_core.specs.examples.WindowUses.{HeadersAfterEnd, HeadersAfterReset, HeadersAfterPeerEnd};
ghost use Rattle.audit_core.specs.examples.WindowUses.{ResetOnIdle, ServerHeaders, EvenHeaders, ZeroGrantAfterEnd};
ghost use Rattle.audit_core.specs.examples.SettingsUses.{InitialWindowStays, FrameLimitStays, PushStaysForbidden};
ghost use Rattle.audit_core.specs.examples.SettingsUses.{UnmatchedTakesNothing, BadSettingOfClient, ServerEnablesPush};
ghost use Rattle.audit_core.specs.examples.ServerWindows.{ServerOverrunsStream, ServerOverrunsConnection};
ghost use Rattle.audit_core.specs.examples.ServerWindows.{ServerOverflowsStream, ServerOverflowsBySetting};
ghost use Rattle.audit_core.specs.examples.Promises.{Promised, PromisedCredits, PushForbidden, PushForbiddenCredits};
ghost use Rattle.audit_core.specs.examples.Promises.{PushUntilAcknowledged, PushAllowedAgain, PushOfServer};
ghost use Rattle.audit_core.specs.examples.Promises.{PromisesFall, OddPromise, OddPromiseCredits, PromiseOfZero};
ghost use Rattle.audit_core.specs.examples.Promises.{HeadersBelowPromise, HeadersBelowHeaders, PromiseOnIdle};
ghost use Rattle.audit_core.specs.examples.Promises.{PromiseOnIdleOpens, PromiseOnZero, PromiseOfItself};
ghost use Rattle.audit_core.specs.examples.Promises.{PromiseOnPromised, ThreeFaults, PromiseAfterReset};
ghost use Rattle.audit_core.specs.examples.Promises.{PromiseAfterOwnReset, PromisedTwice, PushedStall};
ghost use Rattle.audit_core.specs.examples.Promises.{PushedStallCredits, PromisedGrant, ClientPromise};
ghost use Rattle.audit_core.specs.examples.Promises.{ClientPromiseOpensNothing};
ghost use Rattle.audit_core.specs.examples.KindTable.{KindsAreTabled, ErrorKinds, FaultKinds, StallEndKinds};
ghost use Rattle.audit_core.specs.examples.KindTable.{StallBeginKinds, CreditKinds};

/// All credit of the connection and of a stream is sent, padding included (6.9.1).
pub fn padded_stall()
    ensures padded_stall { PaddedStall }
    ensures places { StallPlaces }
    ensures padded_stall_credits { PaddedStallCredits }
    ensures padding_counts { PaddingCounts }
{}

/// A stall of the connection ends, and the stream is overrun (6.9).
pub fn stall_ends_then_overrun()
    ensures { StallEndsThenOverrun }
{}

/// A grant brings the connection window to the largest, or above it (6.9.1).
pub fn connection_overflow()
    ensures connection_at_largest { ConnectionAtLargest }
    ensures connection_overflows { ConnectionOverflows }
{}

/// A lower initial window makes a stream's credit negative (6.9.2).
pub fn negative_window()
    ensures negative_window { NegativeWindow }
    ensures negative_window_changes { NegativeWindowChanges }
{}

/// A higher initial window brings streams above the largest window (6.9.2).
pub fn setting_overflow()
    ensures { SettingOverflows }
{}

/// Increments of 0 on a stream and on the connection (6.9).
pub fn zero_grants()
    ensures zero_grants { ZeroGrants }
    ensures short_grant { ShortGrant }
{}

/// What stands after a connection error is withdrawn (5.4.1).
pub fn withdrawn_findings()
    ensures withdrawn_findings { WithdrawnFindings }
    ensures findings_past_the_stop { FindingsPastTheStop }
{}

/// The first connection error stands, whatever comes later (5.1, 5.4.1).
pub fn first_error_below_overflow()
    ensures { FirstErrorBelowOverflow }
{}

/// Content after the end of its side and after a reset (5.1, 6.9).
pub fn after_end_and_reset()
    ensures { AfterEndAndReset }
{}

/// Streams open in rising order (5.1.1).
pub fn identifier_order()
    ensures { IdentifierOrder }
{}

/// An acknowledgement with no settings to take (6.5.3).
pub fn unmatched_ack()
    ensures found { UnmatchedAcknowledgement }
    ensures takes_nothing { UnmatchedTakesNothing }
{}

/// Each opening makes the windows of both sides live (6.9.2).
pub fn two_openings()
    ensures { TwoOpenings }
{}

/// A first frame that is no SETTINGS (3.4).
pub fn bad_preface()
    ensures { BadPrefaceFound }
{}

/// A field block that another frame breaks (4.3).
pub fn broken_block()
    ensures { BrokenBlockFound }
{}

/// Padding as long as the payload (6.1).
pub fn bad_padding()
    ensures bad_padding_found { BadPaddingFound }
    ensures good_padding { GoodPadding }
{}

/// A setting out of range, of either side, and one in range (6.5.2).
pub fn bad_setting()
    ensures of_server { BadSettingFound }
    ensures of_client { BadSettingOfClient }
    ensures enables_push { ServerEnablesPush }
{}

/// A SETTINGS without a value leaves the one in force (6.5.2, 6.5.3).
pub fn settings_stay()
    ensures initial { InitialWindowStays }
    ensures limit { FrameLimitStays }
    ensures push { PushStaysForbidden }
{}

/// The server sends more than is left, and its windows rise above the largest (6.9, 6.9.1, 6.9.2).
pub fn windows_of_server()
    ensures stream { ServerOverrunsStream }
    ensures connection { ServerOverrunsConnection }
    ensures grant { ServerOverflowsStream }
    ensures setting { ServerOverflowsBySetting }
{}

/// DATA above the frame limit (4.2).
pub fn long_frame()
    ensures { LongFrameFound }
{}

/// HEADERS above the frame limit (4.2).
pub fn too_long()
    ensures { TooLongFound }
{}

/// A grant above the largest window of a stream (6.9.1).
pub fn stream_overflow()
    ensures { StreamOverflowFound }
{}

/// DATA on stream 0 (6.1).
pub fn wrong_stream()
    ensures { WrongStreamFound }
{}

/// A promise of the client opens nothing (8.4).
pub fn client_push()
    ensures client_promise { ClientPromise }
    ensures opens_nothing { ClientPromiseOpensNothing }
{}

/// A PRIORITY of wrong length (6.3).
pub fn bad_priority()
    ensures { BadPriorityFound }
{}

/// DATA after the other side's RST_STREAM (5.1).
pub fn data_after_peer_reset()
    ensures { DataAfterPeerReset }
{}

/// Empty DATA where no credit is left (6.9.1).
pub fn empty_data_at_zero()
    ensures { EmptyDataAtZero }
{}

/// A first frame that acknowledges, and one that cannot be read (3.4).
pub fn first_frames()
    ensures of_client { ClientBeginsWithPing }
    ensures acknowledges { FirstFrameAcknowledges }
    ensures unreadable { FirstFrameUnreadable }
{}

/// Field blocks that go on, and CONTINUATION frames that go on with none (4.3, 6.10).
pub fn continuations()
    ensures goes_on { BlockGoesOn }
    ensures of_three { BlockOfThreeFrames }
    ensures by_data { BlockBrokenByData }
    ensures by_unknown { BlockBrokenByUnknown }
    ensures none_open { NoBlockOpen }
    ensures other_stream { BlockOfOtherStream }
    ensures other_side { BlockOfOtherSide }
    ensures broken_ends { BrokenBlockEnds }
{}

/// Each type on the stream where it cannot stand (6).
pub fn wrong_streams()
    ensures { WrongStreams }
{}

/// Frames above the limit, by type and stream, and limits from their acknowledgement on (4.2, 6.5.3).
pub fn frame_lengths()
    ensures too_long { TooLongFrames }
    ensures settings { TooLongSettingsOnStream }
    ensures long { LongFrames }
    ensures limits { FrameLimits }
{}

/// Frames that cannot be read count nowhere (4.2, 6.1, 6.2).
pub fn unreadable_frames()
    ensures { UnreadableFrames }
{}

/// More is sent than is left, and the last credit is sent (6.9).
pub fn overrun_above_zero()
    ensures overrun_above_zero { OverrunAboveZero }
    ensures last_credit { LastCredit }
{}

/// Stalls that begin and end from below 0, and stalls of both sides on one stream (6.9).
pub fn stalls()
    ensures below_zero { StallBelowZero }
    ensures both_sides { StallOfBothSides }
    ensures one_initial_window { OneInitialWindow }
{}

/// Windows that end with the frame that uses them up or opens their stream (5.1, 6.9).
pub fn ends_of_windows()
    ensures uses_up { EndUsesUpWindow }
    ensures opened_and_ended { OpenedAndEnded }
    ensures zero_grant { ZeroGrantAfterEnd }
{}

/// HEADERS after the ends of either side (5.1).
pub fn headers_after_end()
    ensures own_end { HeadersAfterEnd }
    ensures own_reset { HeadersAfterReset }
    ensures peer_end { HeadersAfterPeerEnd }
{}

/// Frames that open no stream (5.1, 5.1.1).
pub fn not_opened()
    ensures reset { ResetOnIdle }
    ensures server_headers { ServerHeaders }
    ensures even_headers { EvenHeaders }
{}

/// The server promises a stream (6.6, 8.4).
pub fn promised_stream()
    ensures promised { Promised }
    ensures promised_credits { PromisedCredits }
    ensures promised_twice { PromisedTwice }
{}

/// ENABLE_PUSH of the client governs the server from its acknowledgement on (6.5.2, 6.5.3).
pub fn push_in_force()
    ensures forbidden { PushForbidden }
    ensures forbidden_credits { PushForbiddenCredits }
    ensures until_acknowledged { PushUntilAcknowledged }
    ensures allowed_again { PushAllowedAgain }
    ensures of_server { PushOfServer }
{}

/// Promised streams rise among the even identifiers, opened ones among the odd (5.1.1).
pub fn promise_order()
    ensures fall { PromisesFall }
    ensures odd { OddPromise }
    ensures odd_credits { OddPromiseCredits }
    ensures zero { PromiseOfZero }
    ensures headers_below_promise { HeadersBelowPromise }
    ensures headers_below_headers { HeadersBelowHeaders }
{}

/// Promises on streams that carry none (5.1, 6.6).
pub fn misplaced_promises()
    ensures on_idle { PromiseOnIdle }
    ensures on_idle_opens { PromiseOnIdleOpens }
    ensures on_zero { PromiseOnZero }
    ensures of_itself { PromiseOfItself }
    ensures on_promised { PromiseOnPromised }
    ensures three_faults { ThreeFaults }
    ensures after_reset { PromiseAfterReset }
    ensures after_own_reset { PromiseAfterOwnReset }
{}

/// A promised stream is used up by the server, and reset by the client (5.1, 6.9).
pub fn pushed_stall()
    ensures pushed_stall { PushedStall }
    ensures pushed_stall_credits { PushedStallCredits }
    ensures promised_grant { PromisedGrant }
{}

/// Ranks and names of all kinds, and which are errors, faults, stalls and credits.
pub fn kind_table()
    ensures tabled { KindsAreTabled }
    ensures errors { ErrorKinds }
    ensures faults { FaultKinds }
    ensures stall_ends { StallEndKinds }
    ensures stall_begins { StallBeginKinds }
    ensures credits { CreditKinds }
{}
