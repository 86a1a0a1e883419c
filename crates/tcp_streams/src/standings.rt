use crate::pair::Pair;
use indexmap::IndexMap;
use input_output::TableHash;
use std::alloc::{AllocError, Global};
use std::marker::Model;

/// What was seen of a pair of endpoints, with its index in the table's lists.
#[derive(Clone, Copy)]
pub(crate) enum Standing {
    Unopened(usize),
    Opened(usize),
}

/// A pair, and how it stands.
#[derive(Clone, Copy)]
pub(crate) struct Known {
    pub pair: Pair,
    pub standing: Standing,
}

/// How each known pair stands, in order of first sight.
#[derive(Drop)]
pub(crate) struct Standings {
    pairs: IndexMap<Pair, Standing, TableHash>,
    /// The pair that was met last: segments that follow each other are mostly of one pair.
    last: Option<Known>,
}

impl Model for Standings {
    ghost use Rattle.std.specs.Prelude.{◌≡◌, List, IfSome, Some};
    ghost use Rattle.std.specs.Coded.{codes};
    ghost use Rattle.indexmap.specs.IndexMap.{get};
    ghost use Rattle.tcp_streams.specs.code.Pairs.{is_pair};
    ghost use Rattle.tcp_streams.specs.contracts.pair.Pair as pair;
    ghost use Rattle.tcp_streams.specs.contracts.standings.Standing as standing;
    ghost use Rattle.tcp_streams.specs.declared.pair.Pair.{Pair as Ends};
    ghost use Rattle.tcp_streams.specs.declared.standings.Standing.{Standing as Stand};

    ghost Value = { List (Ends × Stand) };

    ghost coded = { Prim.hlevel (codes, pair.the_row.coded, standing.the_row.coded) };

    ghost view = { λ s. s.pairs.entries };

    ghost invariant = { λ s. IfSome s.last (λ known. get is_pair s.pairs known.pair ≡ Some known.standing) };
}

impl Standings {
    ghost use Rattle.std.specs.Prelude.{◌≡◌, None, OnOk};
    ghost use Rattle.tcp_streams.specs.code.Standings.{SetsStanding, standing_of};
    ghost use Rattle.tcp_streams.specs.declared.pair.Pair.{Pair as Ends};

    pub fn new(alloc: Global, hash: TableHash) -> Standings
        ensures { (p : Ends) → standing_of result p ≡ None }
    {
        Standings {
            pairs: IndexMap::with_hasher(alloc, hash),
            last: None,
        }
    }

    /// How the pair stands, where anything is known of it.
    pub fn find(&mut self, pair: &Pair) -> Option<Standing>
        ensures found { result ≡ standing_of self.old pair.now }
        ensures kept { self.new ≡ self.old }
    {
        if let Some(known) = self.last {
            if known.pair == *pair {
                return Some(known.standing);
            }
        }
        match self.pairs.get(pair) {
            Some(standing) => {
                self.last = Some(Known {
                    pair: *pair,
                    standing: *standing,
                });
                Some(*standing)
            }
            None => None,
        }
    }

    /// Sets how the pair stands from now on.
    pub fn set(&mut self, pair: Pair, standing: Standing) -> Result<(), AllocError>
        ensures { OnOk result (SetsStanding pair standing self.old self.new) }
    {
        self.last = None;
        self.pairs.insert(pair, standing)?;
        self.last = Some(Known { pair, standing });
        Ok(())
    }
}
