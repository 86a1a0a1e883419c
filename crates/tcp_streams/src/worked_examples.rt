//! Worked examples, which stand with their answers in `specs/examples/`: a whole flow (`Retransmission`), openings and
//! strays (`Connections`), offsets (`Offsets`), and a hole that is filled (`Growth`). The functions do nothing; each
//! contract is the example.

ghost use Rattle.tcp_streams.specs.examples.Connections.{FirstSynAckOfTheServer, OneEndpoint, OpenedAfterStrays};
ghost use Rattle.tcp_streams.specs.examples.Connections.{OpenedTwice, PortsTellApart, RepeatedSyn, StraysOfTwoPairs};
ghost use Rattle.tcp_streams.specs.examples.Connections.{SynFromTheOtherEnd};
ghost use Rattle.tcp_streams.specs.examples.Growth.{ArrivalsOfGrowths, BytesOfGrowths};
ghost use Rattle.tcp_streams.specs.examples.Growth.{ArrivalsOfFilledHole, FilledHole, KeptBehindHole, RunBeforeHole};
ghost use Rattle.tcp_streams.specs.examples.Offsets.{BelowOffsetZero, FirstRecordWins, LastOffset, PayloadOfSyn};
ghost use Rattle.tcp_streams.specs.examples.Offsets.{WrappedArrivals, WrappedSources};
ghost use Rattle.tcp_streams.specs.examples.Retransmission.{WrappedRetransmission};

/// From packets to a flow: numbers that wrap, a retransmission that comes last, bytes that were there before.
pub fn wrapped_retransmission()
    ensures { WrappedRetransmission }
{}

/// Which connection a segment belongs to (RFC 9293, 3.5 and 4).
pub fn openings_and_members()
    ensures ports_tell_apart { PortsTellApart }
    ensures opened_twice { OpenedTwice }
    ensures repeated_syn { RepeatedSyn }
    ensures syn_from_the_other_end { SynFromTheOtherEnd }
    ensures one_endpoint { OneEndpoint }
{}

/// The server's initial sequence number (RFC 9293, 3.4).
pub fn server_numbers()
    ensures { FirstSynAckOfTheServer }
{}

/// Segments before any opening of their pair.
pub fn strays()
    ensures strays_of_two_pairs { StraysOfTwoPairs }
    ensures opened_after_strays { OpenedAfterStrays }
{}

/// The offsets of payload bytes, and which record brings them (RFC 9293, 3.4).
pub fn offsets()
    ensures wrapped_sources { WrappedSources }
    ensures wrapped_arrivals { WrappedArrivals }
    ensures first_record_wins { FirstRecordWins }
    ensures payload_of_syn { PayloadOfSyn }
    ensures below_offset_zero { BelowOffsetZero }
    ensures last_offset { LastOffset }
{}

/// What segments bring behind a hole, and when the hole is filled.
pub fn growth()
    ensures run_before_hole { RunBeforeHole }
    ensures kept_behind_hole { KeptBehindHole }
    ensures filled_hole { FilledHole }
    ensures arrivals_of_filled_hole { ArrivalsOfFilledHole }
    ensures arrivals_of_growths { ArrivalsOfGrowths }
    ensures bytes_of_growths { BytesOfGrowths }
{}
