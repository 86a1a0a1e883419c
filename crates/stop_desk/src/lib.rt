//! Jobs, the places at which connections stop, and the workers that draw the jobs. It deals numbered jobs to threads,
//! where what one job finds can end others early. It does not know what the jobs are; of the rounds of an audit it has
//! the names ([`AuditRound`]). docs/ARCHITECTURE.md has a diagram of the worker loop ("How the work is divided").
//!
//! - A [`Round`] says what its jobs are, as if nothing stopped them, and [`settle`] has a [`Team`] do them all: each
//!   worker draws jobs, hands each a [`Look`](audit_terms::Look) at the stop of its connection, lowers the stop where a
//!   finding ends the connection, and lays down a [`Part`].
//! - [`settle`] gives the parts in the order of jobs, with the stops read, and says of each part that it was not cut
//!   below its connection's stop (`HasSettled` of `specs/code/Settling.antt`).
//! - [`crew`] works on a desk that is given, and leaves a settled board (`IsSettled` of `specs/code/Board.antt`), for
//!   every number of workers and whatever order they ran in: one part a job, each up to a place that was seen; each
//!   error of a part was lowered; each stop is the least of its opening stop and what was lowered.
//! - An implementor's work has to keep all findings up to a place, which is none or the answer of one of its looks, and
//!   to make the looks that the round says are due (`IsCut`, `Heeds`). It takes any look, and so cannot know of desks.
//!   A worker's look owns the worker's pass while a job runs, and gives it back.
//! - A [`Desk`] is shared by `&`, and each worker has a [`Pass`], made by [`Pass::split`] and given back by
//!   [`Pass::join`]. [`Pass::claim`] draws the next number: each job goes to one worker, once. [`Pass::lower`] gives a
//!   place for a connection; [`Pass::look`] answers a place that is at most each that this pass gave or saw there
//!   before, and that the desk was opened with or some pass gave.
//! - [`Desk::close`] takes the last pass, and the [`Closed`] desk tells how many numbers were drawn, each once, and the
//!   least place of each connection (`IsDeskSettled` of `specs/code/Settled.antt`).
//! - The desk is one row of words: word 0 is the next number, and each other word the stop of a connection. The steps
//!   of all threads have one order, and the desk's rule (`specs/code/Rule.antt`) holds between any two: each number
//!   below word 0 was drawn once, word 0 and what may still be drawn add up, each stop is the least of its opening word
//!   and what was lowered, and each place seen was given. Nothing is said of who draws what, nor that a place is seen
//!   soon.
//! - No call waits or takes a lock, and none but [`Desk::make`] allocates. Contracts alone know what a pass drew, saw
//!   and lowered. A pass that is dropped keeps what it holds for ever, so after a failure nothing can be closed. Want
//!   of memory is the one error; after it the desk is gone.
//! - There are no more workers than jobs, and each begins with one more draw than there are jobs, so it ends where no
//!   job is left and never for want of draws.
//! - [`Gate`] holds workers back before they start a job, for tests. It has no say in the answer.
//! - [`laws`] are about workers, and need no code. `specs/laws/Machine.antt` is a machine in which workers draw jobs,
//!   look at stops, lower them and finish parts, an event each: a run is any list of allowed events, so any
//!   interleaving. [`laws::run_settles`]: once every job is finished, the board is settled.
//! - [`laws::board_merges`]: of each connection, the parts of a settled board give up to its stop what the whole jobs
//!   would, and the stop is the least error of all. [`laws::cuts_join`], [`laws::rounds_join`]: parts of several
//!   streams make one, and rounds go one after the other. [`worked_rounds`] shows two workers with a stop that one
//!   sees, and steps that no worker may take.
//! - Refused by the prover: a claim that is always 0, a look that never loads or that invents a place, a lowering that
//!   overwrites; parts dropped where those of two workers join, an overrun lowered, stops handed on as the round found
//!   them; a team with as many workers as before.
//! - Tested, in `crate_tests`: two passes in two threads, that a look loads and does not answer from what its own pass
//!   knows, that a job sees the stop that an earlier one lowered, that two workers are in one round at once, and how
//!   many jobs each round of an audit has. That several threads work at once is not proved.
//! - Trusted: the toolchain's `atomic_table`, and std's `join`, which starts threads, and does the work on the calling
//!   thread where it cannot.
#![tactic(auto)]

mod audit_round;
mod claims;
mod closing;
mod crews;
mod desk_looks;
mod desks;
mod gate;
pub mod laws;
mod parts;
mod passes;
mod rounds;
mod rule;
mod settling;
mod stop_words;
mod teams;
pub mod worked_rounds;
mod workers;

pub use audit_round::AuditRound;
pub use claims::Claim;
pub use closing::Closed;
pub use crews::crew;
pub use desks::Desk;
pub use gate::{Gate, NoGate};
pub use parts::Part;
pub use passes::Pass;
pub use rounds::{Round, Work};
pub use settling::{Settled, settle};
pub use teams::Team;
