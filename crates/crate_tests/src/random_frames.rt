//! Random frames, by the rounds and by the plain pass.

ghost use Rattle.std.specs.Prelude.{◌≤◌, ◌<◌};
ghost use Rattle.audit_terms.specs.code.runs.Orderly.{IsOrderly};

use crate::Answer;
use crate::fakes::{NoBytes, TestGate};
use crate::frames::{
    acknowledgement, are_orderly, data, grant, headers, initial_window, promise, reset,
};
use audit_core::one_pass;
use audit_rounds::{Division, findings_of_each};
use audit_terms::frame_types::END_STREAM_FLAG;
use audit_terms::{Finding, Frame, Side, keep_shown};
use input_output::TableHash;
use rand_core::Rng;
use rand_pcg::Pcg32;
use std::alloc::{AllocError, Global};
use std::thread::Threads;
use stop_desk::Team;

/// One of some numbers.
fn one_of(rng: &mut Pcg32, numbers: &[u32; 4]) -> u32 {
    numbers[(rng.next_u32() % 4) as usize]
}

/// One of both sides.
fn random_side(rng: &mut Pcg32) -> Side {
    [Side::Client, Side::Server][(rng.next_u32() % 2) as usize]
}

/// A frame of a side on a stream.
fn random_kind(rng: &mut Pcg32, number: u32) -> Frame {
    let side = random_side(rng);
    let stream = one_of(rng, &[1, 3, 5, 2]);
    match rng.next_u32() % 16 {
        0..=5 => data(number, side, stream, rng.next_u32() % 3 * 8_192),
        6 | 7 => headers(number, side, stream),
        8 => {
            let initial = one_of(rng, &[0, 5_000, 70_000, 0x7fff_ffff]);
            initial_window(number, side, Some(initial))
        }
        9 | 10 => acknowledgement(number, side),
        11 => {
            let stream = one_of(rng, &[0, 1, 3, 2]);
            let amount = one_of(rng, &[0, 1, 20_000, 0x7fff_ffff]);
            grant(number, side, stream, amount)
        }
        12 | 13 => {
            let stream = one_of(rng, &[0, 0, 1, stream]);
            grant(number, side, stream, one_of(rng, &[1, 500, 8_000, 30_000]))
        }
        14 => promise(number, stream, one_of(rng, &[4, 4, 6, 5])),
        _ => reset(number, side, stream),
    }
}

/// A random frame, with END_STREAM in one of eight.
fn random_frame(rng: &mut Pcg32, number: u32) -> Frame {
    let made = random_kind(rng, number);
    let end = END_STREAM_FLAG * u8::from(rng.next_u32() % 8 == 0);
    Frame {
        flags: made.flags | end,
        ..made
    }
}

/// SETTINGS of both sides, the openings of streams 1, 2, 3 and 5, and then so many frames. A promise of stream 4 among
/// these opens a stream out of order.
pub fn script(alloc: Global, rng: &mut Pcg32, count: u32) -> Result<Vec<Frame>, AllocError>
    requires { count ≤ 1000 }
{
    let mut frames = Vec::new(alloc);
    frames.extend_from_slice(&[
        initial_window(1, Side::Client, None),
        initial_window(2, Side::Server, None),
        headers(3, Side::Client, 1),
        promise(4, 1, 2),
        headers(5, Side::Client, 3),
        headers(6, Side::Client, 5),
    ])?;
    for at in 0..count {
        frames.push(random_frame(rng, 7 + at))?;
    }
    Ok(frames)
}

/// A division into so many groups, and blocks of so many frames.
fn divided(groups: u32, block: u32, frames_shown: bool) -> Division
    requires { (0 < groups) × (0 < block) }
{
    Division {
        groups,
        block,
        hash: TableHash::drawn(&NoBytes),
        frames_shown,
    }
}

/// Whether so many workers find in the frames what is wanted, by a division.
fn finds(
    rt: &(impl Sync + Threads),
    alloc: Global,
    workers: u32,
    division: &Division,
    frames: &[Frame],
    want: &[Finding],
) -> Answer
    requires some { 0 < workers }
    requires orderly { IsOrderly frames.now }
{
    let gate = TestGate::holding(0);
    let team = Team {
        rt,
        alloc,
        workers,
        gate: &gate,
    };
    let found = findings_of_each(&team, division, &[frames])?;
    let mut joined = Vec::new(alloc);
    for one in &found {
        for list in &one.lists {
            joined.extend_from_slice(list.as_slice())?;
        }
    }
    Ok(found.len() == 1 && joined.as_slice() == want)
}

/// Whether each division shows of the frames what the plain pass does, with credits and without.
fn shows_the_pass(rt: &(impl Sync + Threads), alloc: Global, frames: &[Frame]) -> Answer {
    if !are_orderly(frames) {
        return Ok(false);
    }
    let mut want = one_pass(alloc, frames)?;
    for frames_shown in [true, false] {
        keep_shown(&mut want, frames_shown);
        let want = want.as_slice();
        let whole = divided(1, 4096, frames_shown);
        let few = divided(2, 1, frames_shown);
        let many = divided(3, 7, frames_shown);
        if !finds(rt, alloc, 1, &whole, frames, want)?
            || !finds(rt, alloc, 2, &few, frames, want)?
            || !finds(rt, alloc, 4, &many, frames, want)?
        {
            return Ok(false);
        }
    }
    Ok(true)
}

pub fn random_frames(rt: &(impl Sync + Threads), alloc: Global) -> Answer {
    let mut rng = Pcg32::new(1, 1);
    for count in 0..120 {
        let frames = script(alloc, &mut rng, count)?;
        if !shows_the_pass(rt, alloc, &frames)? {
            return Ok(false);
        }
    }
    Ok(true)
}
