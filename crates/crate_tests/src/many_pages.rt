//! A report of many pages, by one worker and by several.

use crate::Answer;
use crate::captures::{Capture, SYN};
use crate::fakes::TestGate;
use crate::frames::{data, headers};
use audit_terms::Side;
use h2audit::{Options, audit};
use std::alloc::{AllocError, Global};
use std::random::RandomSource;
use std::thread::Threads;

/// How many frames there are with two lines each: more than two pages hold, so that these are filled again.
const FRAMES: u32 = 9_000;

/// How many connections are opened behind them.
const OPENINGS: u32 = 3_000;

/// A stream of so many frames, and so many openings of its pair.
fn long_capture(alloc: Global) -> Result<Capture, AllocError> {
    let mut frames = Vec::new(alloc);
    frames.push(headers(5, Side::Client, 1))?;
    for at in 0..FRAMES {
        frames.push(data(6 + at, Side::Client, 1, 1))?;
    }
    let mut capture = Capture::of_frames(alloc, frames.as_slice())?;
    for at in 0..OPENINGS {
        capture.record(Side::Client, 9_000 + at, SYN, &[])?;
    }
    Ok(capture)
}

/// The report by so many workers, with credits.
fn report_by(
    rt: &(impl Sync + Threads + RandomSource),
    alloc: Global,
    workers: u32,
    capture: &Capture,
) -> Result<Vec<u8>, AllocError> {
    let gate = TestGate::holding(0);
    let options = Options::of(workers, 4, 4096, true).ok_or(AllocError)?;
    match audit(rt, alloc, &options, capture.bytes.as_slice(), &gate) {
        Ok((text, _)) => Ok(text),
        Err(_) => Err(AllocError),
    }
}

/// What several workers spell on pages side by side is what one spells on one page after the other.
pub fn pages_of_several(rt: &(impl Sync + Threads + RandomSource), alloc: Global) -> Answer {
    let capture = long_capture(alloc)?;
    let alone = report_by(rt, alloc, 1, &capture)?;
    for workers in [2, 3, 16] {
        if report_by(rt, alloc, workers, &capture)?.as_slice() != alone.as_slice() {
            return Ok(false);
        }
    }
    let lines = alone
        .as_slice()
        .iter()
        .filter(|byte| **byte == b'\n')
        .count();
    Ok(lines > 24_000)
}
