//! Worked examples of the definitions, by proof: frames by stream, groups, findings of several lists. The functions do
//! nothing; each contract is the example.
ghost use Rattle.split_merge.specs.examples.Split.{CutsAtFirstReportedError, GroupsOfFour, SplitsByStream};
ghost use Rattle.split_merge.specs.examples.Split.{TellsQuietStreams};

/// Streams stand in order of first frames; a promise is with the stream that it is on and the one that it promises.
pub fn split_by_stream()
    ensures { SplitsByStream }
{}

/// A request is quiet where its credits are not shown; a grant on a stream that was never opened is not.
pub fn quiet_streams()
    ensures { TellsQuietStreams }
{}

/// Groups are as many as asked for, or as what there is.
pub fn groups_of_four()
    ensures { GroupsOfFour }
{}

/// A merge ends with the least connection error, whichever list it stands in.
pub fn cut_at_first_reported_error()
    ensures { CutsAtFirstReportedError }
{}
