//! Reports by one worker, who audits a capture as it is read, and by several, who go over frames that were kept.

ghost use Rattle.std.specs.Prelude.{◌<◌, ◌≤◌, length};

use crate::disorder::Disorder;
use crate::gates::stopped;
use crate::random_frames::script;
use crate::{Answer, captures};
use audit_terms::Side;
use h2audit::{NoGate, Options, audit};
use rand_pcg::Pcg32;
use std::alloc::{AllocError, Global};
use std::random::RandomSource;
use std::thread::Threads;

/// The report by so many workers, without credits.
fn report_by(
    rt: &(impl Sync + Threads + RandomSource),
    alloc: Global,
    workers: u32,
    bytes: &[u8],
) -> Result<Vec<u8>, AllocError> {
    let options = Options::of(workers, 3, 16, false).ok_or(AllocError)?;
    match audit(rt, alloc, &options, bytes, &NoGate) {
        Ok((text, _)) => Ok(text),
        Err(_) => Err(AllocError),
    }
}

/// How many connections of HTTP/2 and findings a report has that both ways make.
fn told_alike(
    rt: &(impl Sync + Threads + RandomSource),
    alloc: Global,
    bytes: &[u8],
) -> Result<Option<[usize; 2]>, AllocError> {
    let alone = report_by(rt, alloc, 1, bytes)?;
    let several = report_by(rt, alloc, 3, bytes)?;
    if alone.as_slice() != several.as_slice() {
        return Ok(None);
    }
    Ok(Some([
        times_in(alone.as_slice(), b" http2 "),
        times_in(alone.as_slice(), b"\nframe "),
    ]))
}

/// How many times the word is in the text.
fn times_in(text: &[u8], word: &[u8]) -> usize
    requires { 0 < length word.now }
{
    text.windows(word.len())
        .filter(|part| *part == word)
        .count()
}

/// A connection without findings, one that an error ends, and one of which only the SYN is there.
pub fn made_segments(rt: &(impl Sync + Threads + RandomSource), alloc: Global) -> Answer {
    let quiet = captures::Capture::of_frames(alloc, &[])?;
    let mut ended = captures::Capture::of_frames(alloc, &stopped())?;
    ended.record(Side::Client, 9000, captures::SYN, &[])?;
    Ok(
        told_alike(rt, alloc, quiet.bytes.as_slice())? == Some([1, 0])
            && told_alike(rt, alloc, ended.bytes.as_slice())? == Some([1, 3]),
    )
}

/// A capture of two connections of so many random frames each, whose segments come in disorder.
fn random_capture(alloc: Global, seed: u64, count: u32) -> Result<captures::Capture, AllocError>
    requires { count ≤ 1000 }
{
    let mut rng = Pcg32::new(seed, 2);
    let frames = script(alloc, &mut rng, count)?;
    let others = script(alloc, &mut rng, count)?;
    let mut segments = Disorder::new(alloc, rng);
    segments.plan(40_000, 0, false, frames.as_slice())?;
    segments.plan(40_001, 20, true, others.as_slice())?;
    segments.captured()
}

pub fn random_segments(rt: &(impl Sync + Threads + RandomSource), alloc: Global) -> Answer {
    let mut all = 0usize;
    for count in 0..40 {
        let capture = random_capture(alloc, u64::from(count), count)?;
        let Some(sums) = told_alike(rt, alloc, capture.bytes.as_slice())? else {
            return Ok(false);
        };
        let [http2, _] = sums;
        all = all.saturating_add(http2);
    }
    Ok(all > 70)
}
