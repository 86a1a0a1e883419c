//! Two passes of one desk: they draw each job once, and each sees the lesser of the places that the two lowered.

ghost use Rattle.std.specs.Prelude.{◌≡◌, ◌+◌};
ghost use Rattle.stop_desk.specs.code.Desk.{IsConnection, pass_draws};

use crate::Answer;
use audit_terms::Place;
use std::alloc::Global;
use std::thread::{Threads, join};
use stop_desk::{Claim, Desk, Pass};

/// How many numbers each pass of the desk of five jobs and two workers may draw.
const SHARE: u64 = 6;

/// The jobs among the numbers that a pass draws: the hexadecimal digit of each says how often it was drawn.
fn drawn_jobs(desk: &Desk, mut pass: Pass) -> (Pass, u32)
    requires { pass.desk ≡ desk.now.id }
    ensures desk { result.0.desk ≡ pass.desk }
    ensures count { pass_draws result.0 ≡ pass_draws pass }
{
    let mut drawn = 0u32;
    for _ in 0..SHARE {
        if let Claim::Job(job) = pass.claim(desk) {
            drawn = drawn.saturating_add(1 << (4 * (job & 7)));
        }
    }
    (pass, drawn)
}

/// What two passes draw in a thread each, and the pass that they join to.
fn drawn_by_two(rt: &(impl Sync + Threads), desk: &Desk, one: Pass, other: Pass) -> (Pass, u32)
    requires one { one.desk ≡ desk.now.id }
    requires other { other.desk ≡ desk.now.id }
    ensures desk { result.0.desk ≡ one.desk }
    ensures count { pass_draws result.0 ≡ pass_draws one + pass_draws other }
{
    let (first, second) = join(rt, || drawn_jobs(desk, one), || drawn_jobs(desk, other));
    let (one, drawn) = first;
    let (other, more) = second;
    (one.join(other, desk), drawn.saturating_add(more))
}

/// Lowers the stop of connection 0 by two passes. What each answers then is the lesser of both places.
fn lowered_by_two(desk: &Desk, one: &mut Pass, other: &mut Pass) -> [Option<Place>; 2]
    requires one { one.old.desk ≡ desk.now.id }
    requires other { other.old.desk ≡ desk.now.id }
    requires connection { IsConnection desk.now.id 0 }
    ensures one_desk { one.new.desk ≡ one.old.desk }
    ensures one_draws { pass_draws one.new ≡ pass_draws one.old }
    ensures other_desk { other.new.desk ≡ other.old.desk }
    ensures other_draws { pass_draws other.new ≡ pass_draws other.old }
{
    one.lower(desk, 0, Place::of(7, 3, 1));
    other.lower(desk, 0, Place::of(4, 9, 0));
    [one.look(desk, 0), other.look(desk, 0)]
}

pub fn two_passes_of_a_desk(rt: &(impl Sync + Threads), alloc: Global) -> Answer {
    let (desk, all) = Desk::make(alloc, 5, &[None], 2)?;
    let allowance = all.allowance();
    let (mut one, mut other) = all.split(&desk, SHARE);
    let near = Some(Place::of(4, 9, 0));
    let seen = lowered_by_two(&desk, &mut one, &mut other);
    let (last, drawn) = drawn_by_two(rt, &desk, one, other);
    let closed = desk.close(last);
    Ok(
        [allowance, closed.drawn()] == [2 * SHARE; 2]
            && drawn == 0x11111
            && [seen[0], seen[1], closed.stop(0)] == [near; 3],
    )
}
