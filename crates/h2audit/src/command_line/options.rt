ghost use Rattle.std.specs.Prelude.{◌≡◌, ◌<◌, IsTrue, SomeIff, false, option_map};
ghost use Rattle.h2audit.specs.code.Options.{AreInRange};

/// How a capture is audited and what its report shows.
///
/// The workers, groups and block length divide the work, and never change the report.
#[derive(Clone, Copy, PartialEq, Eq)]
pub struct Options {
    workers: u32,
    groups: u32,
    block: u32,
    frames_shown: bool,
    pub ghost in_range: { AreInRange workers groups block },
}

impl Options {
    ghost use Rattle.h2audit.specs.code.Choices.{choices};

    /// The greatest number of worker threads.
    pub(crate) const MOST_WORKERS: u32 = 64;

    /// The greatest number of groups that a connection's streams are dealt to.
    pub(crate) const MOST_GROUPS: u32 = 1024;

    /// The greatest number of frames in a block.
    pub(crate) const LONGEST_BLOCK: u32 = 1_048_576;

    /// The options with these values. `None` where a number is 0, or above 64, 1,024 or 1,048,576.
    ///
    /// `frames_shown` asks for the credit lines, one for each change of a window's credit.
    pub fn of(workers: u32, groups: u32, block: u32, frames_shown: bool) -> Option<Options>
        ensures { SomeIff (option_map choices result) (AreInRange workers groups block)
            (record { workers = workers; groups = groups; block = block; frames_shown = frames_shown }) }
    {
        let are_in_range = (1..=Self::MOST_WORKERS).contains(&workers)
            && (1..=Self::MOST_GROUPS).contains(&groups)
            && (1..=Self::LONGEST_BLOCK).contains(&block);
        if are_in_range {
            Some(Options {
                workers,
                groups,
                block,
                frames_shown,
            })
        } else {
            None
        }
    }

    /// The number of worker threads.
    pub fn workers(&self) -> u32
        ensures value { result ≡ (choices self.now).workers }
        ensures some { 0 < result }
    {
        self.workers
    }

    /// The number of groups that a connection's streams are dealt to.
    pub fn groups(&self) -> u32
        ensures value { result ≡ (choices self.now).groups }
        ensures some { 0 < result }
    {
        self.groups
    }

    /// The number of frames in a block.
    pub fn block(&self) -> u32
        ensures value { result ≡ (choices self.now).block }
        ensures some { 0 < result }
    {
        self.block
    }

    /// Whether the report has the credit lines.
    pub fn frames_shown(&self) -> bool
        ensures { result ≡ (choices self.now).frames_shown }
    {
        self.frames_shown
    }
}
