//! The audit of connections, divided over workers: [`findings_of_each`] returns for each connection what one pass over
//! its frames shows (RFC 9113, 5.4.1), for every [`Division`] and every interleaving of the workers.
//! docs/ARCHITECTURE.md has a table of the rounds, and says which connections need them ("How the work is divided").
//!
//! - What is known of a connection stands in one place (`per_connection`), and each round adds to it.
//! - In the round over streams, a job is a group of a connection's streams, without the quiet ones, which the split
//!   told apart. A job runs its streams one after the other, makes the looks that are due for each, and goes up to the
//!   least of the places at which their runs stop (`IsWork` of `specs/code/Streams.antt`). Jobs and split together tell
//!   which frames open streams.
//! - Blocks of a connection's frames tell what it shows by itself, up to its stop. The round `Sums` sums them, and the
//!   sums carry the connection's state from block to block. The round `Blocks` runs the blocks that are not clear, each
//!   from the state before it; where credits are shown, it runs all of them.
//! - The merge joins what the blocks show with all that was found of a connection before, also the faults of single
//!   frames and the acknowledgements that answer nothing. It cuts that at the first error: this is the pass. Until then
//!   the findings of each job stay a list of their own, which is moved and not copied.
//! - A batch of connections has 2^28 frames at most, whatever the connections, so each round has fewer than 2^32 jobs,
//!   and want of memory is returned only where a growth was refused.
//! - [`laws::rounds_make_the_pass`]: local faults, unmatched acknowledgements, what the streams show and what the
//!   blocks show make what the pass shows, for every division of the frames into blocks. Credits that no line shows are
//!   first left out of each: this changes nothing, since a credit never stops an audit.
//! - [`laws::rounds_settle`]: they do so as well where the round over streams left out what lies past the stop, and the
//!   blocks are those of the frames up to it, that frame included ([`laws::openings_are_told`]: the openings up to it
//!   are known). A job of several streams goes up to the least of the places of its runs; what it found past that may
//!   stay.
//! - [`laws::openings_are_found`] and [`laws::items_are_found`]: the numbers that streams tell, and the changes, make
//!   the items of the pass.
//! - Refused by the prover, in the crates below: wrong looks and stops (`stop_desk`), runs of streams (`stream_credit`)
//!   and blocks (`conn_scan`). Here none is tried: an edit costs a second proof of its crate, and this is the longest.
//! - Tested by whole reports, in many mixes of workers, groups and block lengths: that the call succeeds where there is
//!   memory.
#![tactic(auto)]

mod all_rounds;
mod batch;
mod block_plans;
mod block_round;
mod block_rounds;
mod connection_blocks;
mod connection_streams;
mod division;
mod entry;
mod gathering;
pub mod laws;
mod per_connection;
mod prepared;
mod shares;
mod stream_jobs;
mod stream_round;

pub use division::Division;
pub use entry::findings_of_each;
