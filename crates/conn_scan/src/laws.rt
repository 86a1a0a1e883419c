//! Promises about the definitions alone: functions that do nothing, and whose contracts are the laws.
ghost use Rattle.conn_scan.specs.laws.Blocks.{BlocksFit};
ghost use Rattle.conn_scan.specs.laws.Clear.{ClearShowsCredit};
ghost use Rattle.conn_scan.specs.laws.Items.{ItemsAreThePass, ItemsOfBlocksJoin};

/// With the numbers of the opening frames and all changes, the items of a connection's frames are those of the pass.
#[tactic(auto, using(crate::proofs::ItemsLemmas::items_are_the_pass))]
pub fn items_are_the_pass()
    ensures { ItemsAreThePass }
{}

/// The items of two consecutive blocks, joined, are those of both.
#[tactic(auto, using(crate::proofs::ItemsLemmas::items_of_blocks_join))]
pub fn items_of_blocks_join()
    ensures { ItemsOfBlocksJoin }
{}

/// Where the items of all blocks fit the first connection, each block fits the connection before it.
#[tactic(auto, using(crate::proofs::FitLemmas::blocks_fit))]
pub fn blocks_fit()
    ensures { BlocksFit }
{}

/// A clear block shows connection credit alone.
#[tactic(auto, using(crate::proofs::ShownLemmas::clear_shows_credit))]
pub fn clear_shows_credit()
    ensures { ClearShowsCredit }
{}
