//! Worked examples of frames, which stand with their answers in `specs/examples/Bodies.antt` and
//! `specs/examples/Frames.antt`. The functions do nothing; each contract is the example.

ghost use Rattle.h2_frames.specs.examples.Bodies.{Continuations, Data, FirstPairOutOfRange, GoAwayLengths};
ghost use Rattle.h2_frames.specs.examples.Bodies.{HeadersPadded, HeadersPlain, HeadersWithBoth, HeadersWithPriority};
ghost use Rattle.h2_frames.specs.examples.Bodies.{Increments, InitialWindowRange, LastValueOutOfRange};
ghost use Rattle.h2_frames.specs.examples.Bodies.{LaterPairOutOfRange, MaxFrameSizeRange, OtherSettings, PaddedData};
ghost use Rattle.h2_frames.specs.examples.Bodies.{PaddedPushPromises, PingLengths, PriorityLengths, PushPromises};
ghost use Rattle.h2_frames.specs.examples.Bodies.{PushRange, RstStreamLengths, SettingsAckLengths, SettingsLengths};
ghost use Rattle.h2_frames.specs.examples.Bodies.{UnknownTypes, WindowUpdateLengths};
ghost use Rattle.h2_frames.specs.examples.Frames.{FrameHeaders, FramesAsTheyCome, FramesInOrder, LastByteArrives};
ghost use Rattle.h2_frames.specs.examples.Frames.{PrefaceOctets};

/// The connection preface of a client (RFC 9113, 3.4).
pub fn connection_preface()
    ensures { PrefaceOctets }
{}

/// The header of a frame (RFC 9113, 4.1).
pub fn frame_headers()
    ensures { FrameHeaders }
{}

/// Payloads with padding (RFC 9113, 6.1, 6.2 and 6.6).
pub fn padded_bodies()
    ensures data { Data }
    ensures padded_data { PaddedData }
    ensures headers_plain { HeadersPlain }
    ensures headers_padded { HeadersPadded }
    ensures headers_with_priority { HeadersWithPriority }
    ensures headers_with_both { HeadersWithBoth }
    ensures push_promises { PushPromises }
    ensures padded_push_promises { PaddedPushPromises }
{}

/// Payloads whose length their type gives (RFC 9113, 6.3 to 6.9), and types of any length (6.10 and 5.5).
pub fn lengths_of_bodies()
    ensures priority_lengths { PriorityLengths }
    ensures rst_stream_lengths { RstStreamLengths }
    ensures settings_lengths { SettingsLengths }
    ensures settings_ack_lengths { SettingsAckLengths }
    ensures ping_lengths { PingLengths }
    ensures go_away_lengths { GoAwayLengths }
    ensures window_update_lengths { WindowUpdateLengths }
    ensures increments { Increments }
    ensures continuations { Continuations }
    ensures unknown_types { UnknownTypes }
{}

/// The values of settings (RFC 9113, 6.5.2).
pub fn setting_values()
    ensures push_range { PushRange }
    ensures initial_window_range { InitialWindowRange }
    ensures max_frame_size_range { MaxFrameSizeRange }
    ensures other_settings { OtherSettings }
    ensures first_pair_out_of_range { FirstPairOutOfRange }
    ensures later_pair_out_of_range { LaterPairOutOfRange }
    ensures last_value_out_of_range { LastValueOutOfRange }
{}

/// The order in which frames were captured.
pub fn capture_order()
    ensures last_byte_arrives { LastByteArrives }
    ensures frames_in_order { FramesInOrder }
    ensures frames_as_they_come { FramesAsTheyCome }
{}
