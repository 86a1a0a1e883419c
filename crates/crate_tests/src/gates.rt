//! What a gate sees of the rounds: how many jobs each has, and that two workers are in one at once.

use crate::Answer;
use crate::captures::{Capture, SYN};
use crate::fakes::TestGate;
use crate::frames::{data, grant, headers};
use audit_terms::{Frame, Side};
use h2audit::{Options, audit};
use std::alloc::{AllocError, Global};
use std::random::RandomSource;
use std::thread::Threads;

/// Whether an audit has so many jobs in each round, where it holds job 0 of some rounds, and each of these jobs meets
/// another one.
fn has_jobs(
    rt: &(impl Sync + Threads + RandomSource),
    alloc: Global,
    options: Option<Options>,
    held: u32,
    capture: &Capture,
    want: [u32; 4],
) -> bool {
    let Some(options) = options else {
        return false;
    };
    let gate = TestGate::holding(held);
    audit(rt, alloc, &options, capture.bytes.as_slice(), &gate).is_ok()
        && gate.counts() == Some(want)
}

/// Whether an audit by each of some numbers of workers has so many jobs in each round. One worker has none: it meets
/// the frames one by one, as segments come.
fn have_jobs(
    rt: &(impl Sync + Threads + RandomSource),
    alloc: Global,
    (groups, block, frames_shown): (u32, u32, bool),
    capture: &Capture,
    want: [u32; 4],
) -> bool {
    for (workers, want) in [(1, [0; 4]), (2, want), (64, want)] {
        let options = Options::of(workers, groups, block, frames_shown);
        if !has_jobs(rt, alloc, options, 0, capture, want) {
            return false;
        }
    }
    true
}

/// A stream that uses up its credit and that of its connection, at frame 9; then an error at frame 10.
pub fn stopped() -> [Frame; 8] {
    [
        headers(5, Side::Client, 1),
        data(6, Side::Client, 1, 16384),
        data(7, Side::Client, 1, 16384),
        data(8, Side::Client, 1, 16384),
        data(9, Side::Client, 1, 16383),
        data(10, Side::Client, 7, 5),
        grant(11, Side::Server, 0, 10),
        data(12, Side::Client, 1, 1),
    ]
}

/// The last two of ten blocks are not clear: by one the credit is used up, and with the other it stays so. A block that
/// is clear has no job, unless credits are shown.
pub fn jobs_of_blocks(rt: &(impl Sync + Threads + RandomSource), alloc: Global) -> Answer {
    let mut frames = stopped();
    frames[5] = headers(10, Side::Client, 1);
    let capture = Capture::of_frames(alloc, &frames[..6])?;
    Ok(
        have_jobs(rt, alloc, (3, 1, false), &capture, [1, 1, 10, 2])
            && have_jobs(rt, alloc, (3, 1, true), &capture, [1, 1, 10, 10]),
    )
}

/// The connection stops at frame 10: of its twelve frames the last two are in no block.
pub fn jobs_up_to_the_stop(rt: &(impl Sync + Threads + RandomSource), alloc: Global) -> Answer {
    let capture = Capture::of_frames(alloc, &stopped())?;
    Ok(
        have_jobs(rt, alloc, (1, 1, true), &capture, [1, 1, 10, 10])
            && have_jobs(rt, alloc, (3, 1, false), &capture, [1, 2, 10, 2])
            && have_jobs(rt, alloc, (3, 4, true), &capture, [1, 2, 3, 3]),
    )
}

/// A connection, and a second opening of its pair: four packets for each, so that both workers make flows.
fn two_connections(alloc: Global) -> Result<Capture, AllocError> {
    let frames = [headers(5, Side::Client, 1), data(6, Side::Client, 1, 1)];
    let mut capture = Capture::of_frames(alloc, &frames)?;
    capture.record(Side::Client, 9000, SYN, &[])?;
    Ok(capture)
}

/// Over two connections, and over one with two groups of streams and two blocks.
pub fn two_at_once(rt: &(impl Sync + Threads + RandomSource), alloc: Global) -> Answer {
    let connections = two_connections(alloc)?;
    let frames = [
        headers(5, Side::Client, 1),
        headers(6, Side::Client, 3),
        grant(7, Side::Server, 0, 1),
    ];
    let streams = Capture::of_frames(alloc, &frames)?;
    let options = Options::of(2, 2, 4, true);
    Ok(
        has_jobs(rt, alloc, options, 0b0001, &connections, [2, 1, 2, 2])
            && has_jobs(rt, alloc, options, 0b1110, &streams, [1, 2, 2, 2]),
    )
}
