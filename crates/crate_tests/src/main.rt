//! Tests of calls, as a program that prints a line for each: its name, and `Ok(true)` where what it compares is equal.
//! Most test what no contract says; the others show in numbers, or on random frames, what one says.
//!
//! - What the calls answer is proved in their own crates, and worked out by proof in their `worked_examples`; no test
//!   repeats an equation.
//! - From segments to findings: that a stage over the packets of a capture, which hands segments to
//!   `quiet_pass::ConnectionFindings`, tells what `found_in` does of the frames, also where segments of two connections
//!   come late, bring bytes again or are lost.
//! - From frames to findings: that a look answers what another pass of the desk lowered; that a later job sees the stop
//!   that an earlier one lowered; and that for random frames `findings_of_each` and `one_pass` have an answer, where
//!   there is memory, and the same one. Contracts say how often runs over 1,000 frames look, and what they are handed
//!   and keep; here it is in numbers that a reader can check.
//! - The text, and runs: the words of refused packets, and how faults print; readers and writers that go in steps or
//!   fail; that several workers write what one does, on pages that are filled again; random keys; that two workers are
//!   in one round of an audit at once, and how many jobs each round has. What the program answers to words and to whole
//!   captures is tested with the program, in `tests/` at the root, and with random captures in `tools/tests/`.
//! - It is one program, since a program takes all that stands below it anew. [`fakes`], [`frames`], [`captures`] and
//!   [`disorder`] are what the tests share.
#![tactic(auto)]

mod captures;
mod desks;
mod disorder;
mod fakes;
mod found_ways;
mod frames;
mod gates;
mod in_steps;
mod keys;
mod looks;
mod many_pages;
mod random_frames;
mod rounds;
mod texts;

use desks::two_passes_of_a_desk;
use gates::jobs_up_to_the_stop;
use rounds::later_job_sees_stop;
use std::alloc::{AllocError, Global};
use std::io;
use std::random::RandomSource;
use std::thread::Threads;

/// Whether what a test compares is the same; there may be no memory to tell.
pub type Answer = Result<bool, AllocError>;

/// The names of some tests, and what they answer.
type Answers<const N: usize> = [(&'static str, Answer); N];

/// Keys, texts and looks.
fn of_parts(rt: &impl RandomSource, alloc: Global) -> Answers<6> {
    [
        ("drawn_keys", keys::drawn_keys(rt)),
        ("each_kind_of_packet", texts::each_kind_of_packet(alloc)),
        ("printed_faults", texts::printed_faults(alloc)),
        ("looks_of_a_block", looks::looks_of_a_block(alloc)),
        ("looks_of_a_stream", looks::looks_of_a_stream(alloc)),
        ("looks_at_no_change", looks::looks_at_no_change(alloc)),
    ]
}

/// Runs over readers and writers, and what one worker and several write.
fn of_runs(rt: &(impl Sync + Threads + RandomSource), alloc: Global) -> Answers<9> {
    [
        ("slow_steps", in_steps::slow_steps(rt, alloc)),
        (
            "interrupted_reader",
            in_steps::interrupted_reader(rt, alloc),
        ),
        ("failing_writer", in_steps::failing_writer(rt, alloc)),
        ("failing_flush", in_steps::failing_flush(rt, alloc)),
        ("refused_capture", in_steps::refused_capture(rt, alloc)),
        ("refused_header", in_steps::refused_header(rt, alloc)),
        ("pages_of_several", many_pages::pages_of_several(rt, alloc)),
        ("made_segments", found_ways::made_segments(rt, alloc)),
        ("random_segments", found_ways::random_segments(rt, alloc)),
    ]
}

/// Rounds, and their threads.
fn of_rounds(rt: &(impl Sync + Threads + RandomSource), alloc: Global) -> Answers<6> {
    [
        ("jobs_of_blocks", gates::jobs_of_blocks(rt, alloc)),
        ("jobs_up_to_the_stop", jobs_up_to_the_stop(rt, alloc)),
        ("two_at_once", gates::two_at_once(rt, alloc)),
        ("two_passes_of_a_desk", two_passes_of_a_desk(rt, alloc)),
        ("later_job_sees_stop", later_job_sees_stop(rt, alloc)),
        ("random_frames", random_frames::random_frames(rt, alloc)),
    ]
}

fn main(rt: HostRuntime) -> io::Result<()> {
    let alloc = rt.alloc();
    for answers in [
        of_parts(&rt, alloc).as_slice(),
        of_runs(&rt, alloc).as_slice(),
        of_rounds(&rt, alloc).as_slice(),
    ] {
        for (name, answer) in answers {
            println!(rt; "{name} {answer:?}")?;
        }
    }
    Ok(())
}
