ghost use Rattle.std.specs.Prelude.{◌<◌};

use input_output::TableHash;

/// How the frames of an audit are divided, and what is shown of them. However they are divided, the findings are the
/// same.
#[derive(Clone, Copy)]
pub struct Division {
    /// The most groups into which a connection's streams are divided, 1 at least.
    pub groups: u32,
    /// The most frames of a connection that make a block, 1 at least.
    pub block: u32,
    /// The hash of the tables in which streams are looked up.
    pub hash: TableHash,
    /// Are credits shown?
    pub frames_shown: bool,
    pub ghost some_groups: { 0 < groups },
    pub ghost some_block: { 0 < block },
}
