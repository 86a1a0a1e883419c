//! The rule that the desk's table keeps, and what its steps tell.
use atomic_table::{Join, Play, Split, TableRule};
use std::collections::LinkedList;
use std::marker::{Brand, PhantomData};

/// What a pass knows. No value of it is made.
pub(crate) struct Knows {
    /// The words that the desk was opened with.
    pub(crate) opened: LinkedList<u64>,
    pub(crate) allowance: u64,
    pub(crate) drawn: LinkedList<u64>,
    /// Places beside their connections, as in `lowered`.
    pub(crate) seen: LinkedList<(u64, u64)>,
    pub(crate) lowered: LinkedList<(u64, u64)>,
}

/// What the rule is told once, when a desk is made.
#[derive(Drop)]
pub(crate) struct Opening {
    /// All numbers that may be drawn.
    pub(crate) whole: u64,
    pub(crate) words: Vec<u64>,
}

pub(crate) struct DeskRule;

impl TableRule<(), Knows, Opening> for DeskRule {
    ghost use Rattle.stop_desk.specs.code.Rule.{Holds, opening_view};

    ghost holds = { Holds };

    ghost first = { opening_view };
}

/// Adds 1 to word 0.
pub(crate) struct Draw;

impl Play<(), Knows> for Draw {
    ghost use Rattle.stop_desk.specs.code.Plays.{drawn_by};

    ghost then = { drawn_by };
}

/// Loads a stop word.
pub(crate) struct See;

impl Play<(), Knows> for See {
    ghost use Rattle.stop_desk.specs.code.Plays.{seen_by};

    ghost then = { seen_by };
}

/// Lowers a stop word.
pub(crate) struct Lower;

impl Play<(), Knows> for Lower {
    ghost use Rattle.stop_desk.specs.code.Plays.{lowered_by};

    ghost then = { lowered_by };
}

/// Loads word 0, which tells that the allowance fits a word.
pub(crate) struct Learn;

impl Play<(), Knows> for Learn {
    ghost use Rattle.stop_desk.specs.code.Plays.{learned_by};

    ghost then = { learned_by };
}

/// How much of an allowance is given away, picked at the call.
pub(crate) trait Amount {
    ghost use Rattle.std.specs.Prelude.{ℕ};

    ghost amount: { ℕ };
}

impl Amount for Brand {
    ghost amount = { 0 };
}

/// The first pass keeps the rest, and the second has the amount alone.
pub(crate) struct Divide<A: Amount> {
    amount: PhantomData<A>,
}

impl<A: Amount> Split<Knows> for Divide<A> {
    ghost use Rattle.stop_desk.specs.code.Plays.{kept_part, given_part};

    ghost left = { kept_part A.amount };

    ghost right = { given_part A.amount };
}

/// The first pass takes in all that the second knows.
pub(crate) struct Unite;

impl Join<Knows> for Unite {
    ghost use Rattle.stop_desk.specs.code.Plays.{joined, spent};

    ghost both = { joined };

    ghost spent = { spent };
}
