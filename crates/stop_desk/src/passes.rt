ghost use Rattle.std.specs.Prelude.{◌≡◌, ◌+◌, ◌-◌, ◌<◌, [], ◌∷◌, ◌++◌};
ghost use Rattle.stop_desk.specs.code.Stop.{IsPlace};
ghost use Rattle.stop_desk.specs.code.Desk.{pass_of, pass_draws, IsConnection};
ghost use Rattle.stop_desk.specs.code.Calls.{IsClaim, IsLook};
ghost use Rattle.stop_desk.specs.code.Plays.{kept_part, given_part};

use crate::claims::Claim;
use crate::desks::Desk;
use crate::rule::{Amount, Divide, Draw, Knows, Learn, Lower, See, Unite};
use atomic_table::Seat;
use audit_terms::Place;
use std::marker::{Brand, Model};

/// The right of one worker to draw some numbers of a desk, to look at its stops and to lower them.
///
/// A contract sees its desk, its allowance, and the numbers that it drew, the places that it saw and those that it
/// lowered, in order. At run time it is its allowance.
#[derive(Drop)]
pub struct Pass {
    pub(crate) seat: Seat<(), Knows>,
    pub(crate) allowance: u64,
}

impl Model for Pass {
    ghost use Rattle.std.specs.Prelude.{◌≡◌, ◌<◌, []};
    ghost use Rattle.stop_desk.specs.code.Desk.{PassView, pass_of};
    ghost use Rattle.stop_desk.specs.code.Rule.{share};

    ghost Value = { PassView };

    ghost view = { λ p. pass_of (record { table = p.seat.table_id; opened = p.seat.me.0.opened }) p.allowance
        p.seat.me.0.drawn p.seat.me.0.seen p.seat.me.0.lowered };

    ghost invariant = { λ p. (p.allowance ≡ p.seat.me.0.allowance) × (p.seat.me.1 ≡ []) × (0 < share p.seat.me.0) };
}

// Gives a part of the allowance to a new seat, which knows nothing else.
fn split_seat<A: Amount>(desk: &Desk, seat: &mut Seat<(), Knows>, allowance: u64) -> Seat<(), Knows>
    requires amount { allowance ≡ A.amount }
    requires desk { seat.old.table_id ≡ desk.now.id.table }
    requires some { 0 < allowance }
    requires part { allowance < seat.old.me.0.allowance }
    ensures kept { (seat.new.table_id ≡ seat.old.table_id)
        × (seat.new.me ≡ (kept_part allowance seat.old.me.0, seat.old.me.1)) }
    ensures given { (result.table_id ≡ seat.old.table_id)
        × (result.me ≡ (given_part allowance seat.old.me.0, [])) }
{
    desk.table.shared.split_seat::<Divide<A>>(seat)
}

impl Pass {
    /// How many numbers the pass may still draw.
    pub fn allowance(&self) -> u64
        ensures { result ≡ self.now.allowance }
    {
        self.allowance
    }

    /// Gives a part of the allowance to a second pass, for another worker. The first keeps the rest and all it knows.
    pub fn split(self, desk: &Desk, allowance: u64) -> (Pass, Pass)
        requires desk { self.desk ≡ desk.now.id }
        requires some { 0 < allowance }
        requires part { allowance < self.allowance }
        ensures kept { result.0 ≡ pass_of self.desk (self.allowance - allowance) self.drawn self.seen self.lowered }
        ensures given { result.1 ≡ pass_of self.desk allowance [] [] [] }
    {
        let Pass {
            mut seat,
            allowance: all,
        } = self;
        let given = split_seat::<Brand>(desk, &mut seat, allowance);
        let kept = Pass {
            seat,
            allowance: all - allowance,
        };
        (
            kept,
            Pass {
                seat: given,
                allowance,
            },
        )
    }

    /// Draws the next number: a job that no other pass draws, or one past all jobs.
    pub fn claim(&mut self, desk: &Desk) -> Claim
        requires { self.old.desk ≡ desk.now.id }
        ensures desk { self.new.desk ≡ self.old.desk }
        ensures count { pass_draws self.new ≡ pass_draws self.old }
        ensures drawn { IsClaim desk.now.jobs self.old result self.new }
    {
        if self.allowance == 0 {
            return Claim::Spent;
        }
        let number = desk.table.shared.fetch_add::<Draw>(&mut self.seat, 0, 1);
        self.allowance -= 1;
        if number < u64::from(desk.jobs()) {
            Claim::Job(number as u32)
        } else {
            Claim::Done
        }
    }

    /// The stop of a connection: at most the opening stop and each place that this pass lowered or saw there.
    pub fn look(&mut self, desk: &Desk, connection: usize) -> Option<Place>
        requires desk { self.old.desk ≡ desk.now.id }
        requires connection { IsConnection desk.now.id connection }
        ensures desk { self.new.desk ≡ self.old.desk }
        ensures seen { IsLook connection self.old result self.new }
    {
        let word = desk
            .table
            .shared
            .load::<See>(&mut self.seat, connection + 1);
        Place::at_word(word)
    }

    /// Lowers the stop of a connection to a place, where it is not lower already.
    pub fn lower(&mut self, desk: &Desk, connection: usize, place: Place)
        requires desk { self.old.desk ≡ desk.now.id }
        requires connection { IsConnection desk.now.id connection }
        requires place { IsPlace place }
        ensures { self.new ≡ pass_of self.old.desk self.old.allowance self.old.drawn self.old.seen
            (self.old.lowered ++ (connection, place) ∷ []) }
    {
        let word = place.word();
        desk.table
            .shared
            .fetch_min::<Lower>(&mut self.seat, connection + 1, word);
    }

    /// Makes two passes one, with the allowances and the knowledge of both.
    pub fn join(self, other: Pass, desk: &Desk) -> Pass
        requires desk { self.desk ≡ desk.now.id }
        requires other { other.desk ≡ desk.now.id }
        ensures { result ≡ pass_of self.desk (self.allowance + other.allowance) (self.drawn ++ other.drawn)
            (self.seen ++ other.seen) (self.lowered ++ other.lowered) }
    {
        let Pass {
            mut seat,
            allowance: mine,
        } = self;
        let Pass {
            seat: given,
            allowance: theirs,
        } = other;
        desk.table.shared.join_seat::<Unite>(&mut seat, given);
        desk.table.shared.load::<Learn>(&mut seat, 0);
        Pass {
            seat,
            allowance: mine + theirs,
        }
    }
}
