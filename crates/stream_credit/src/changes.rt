ghost use Rattle.std.specs.Prelude.{◌≡◌, ◌^◌, ◌<◌, ◌≤◌, List, IfOk, None, Some, length, drop};
ghost use Rattle.std.specs.Option.{ForSome};
ghost use Rattle.audit_terms.specs.declared.items.Change.{Change};
ghost use Rattle.audit_terms.specs.InForce.{initial_in_force};
ghost use Rattle.audit_terms.specs.code.runs.Streams.{initial_after};
ghost use Rattle.audit_terms.specs.code.runs.Changes.{AreOrderly};
ghost use Rattle.stream_credit.specs.code.Changes.{AreFrom, ArePassed, IsBrought, IsDue, after_each, initial_at};
ghost use Rattle.stream_credit.specs.code.Changes.{met_after};

use audit_terms::{Change, FIRST_WINDOW, Sides, initial_after};
use std::alloc::{AllocError, Global};
use std::marker::Model;

/// The initial windows of a connection until settings change them.
pub(crate) const FIRST_WINDOWS: Sides<u32> = Sides {
    client: FIRST_WINDOW,
    server: FIRST_WINDOW,
};

/// The changes of a connection, in order, made ready for the runs of all its streams: each has the initial windows that
/// it leaves in force (RFC 9113, 6.9.2), so that a stream that opens late need not read those before.
#[derive(Drop)]
pub struct Changes<'a> {
    all: &'a [Change],
    in_force: Vec<Sides<u32>>,
}

impl<'a> Model for Changes<'a> {
    ghost Value = { List Change };

    ghost view = { λ c. c.all.now };

    ghost invariant = { λ c. c.in_force.items ≡ after_each initial_in_force.initial c.all.now };
}

impl<'a> Changes<'a> {
    /// All changes of a connection.
    pub fn of(alloc: Global, all: &'a [Change]) -> Result<Self, AllocError>
        ensures { IfOk result (λ changes. changes ≡ all.now) }
    {
        let mut in_force = Vec::new(alloc);
        let mut now = FIRST_WINDOWS;
        for change in all {
            now = windows_after(change, &now);
            in_force.push(now)?;
        }
        Ok(Changes { all, in_force })
    }

    /// The change after so many, if its number is below another.
    pub(crate) fn before(&self, met: u32, number: u32) -> Option<Change>
        ensures change { ForSome result (IsDue number met self.now) }
        ensures none { result ≡ None → AreFrom number (drop met self.now) }
    {
        match self.all.get(met as usize) {
            Some(change) if change.number < number => Some(*change),
            _ => None,
        }
    }

    /// The change after so many, if it has this number: that which a frame of the number brings.
    pub(crate) fn at(&self, met: u32, number: u32) -> Option<Change>
        ensures { IsBrought number met self.now result }
    {
        match self.all.get(met as usize) {
            Some(change) if change.number == number => Some(*change),
            _ => None,
        }
    }

    /// The initial windows in force after so many changes.
    pub(crate) fn initial_at(&self, met: u32) -> Sides<u32>
        requires { met ≤ length self.now }
        ensures { result ≡ initial_at met self.now }
    {
        if met == 0 {
            return FIRST_WINDOWS;
        }
        self.in_force[met as usize - 1]
    }

    /// How many changes are met once all before a number are; `met` were met before.
    pub(crate) fn passed(&self, met: u32, number: u32) -> u32
        requires orderly { AreOrderly self.now }
        requires met { met ≤ length self.now }
        ensures { ArePassed number self.now met result }
    {
        let left = &self.all[met as usize..];
        met + left.partition_point(|change| change.number < number) as u32
    }
}

/// The initial windows in force after a change.
pub(crate) fn windows_after(change: &Change, now: &Sides<u32>) -> Sides<u32>
    ensures { result ≡ initial_after (Some change.now) now.now }
{
    initial_after(&Some(*change), now)
}

/// How many changes are met behind a frame that brings this one, if it brings one.
pub(crate) fn met_after(met: u32, change: &Option<Change>) -> u32
    requires { met < 2 ^ 28 }
    ensures { result ≡ met_after met change.now }
{
    match change {
        Some(_) => met + 1,
        None => met,
    }
}
