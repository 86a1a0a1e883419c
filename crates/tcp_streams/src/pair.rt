ghost use Rattle.std.specs.Prelude.{◌≡◌, ◌+◌, ◌*◌, ◌++◌};
ghost use Rattle.std.specs.Hash as fed;
ghost use Rattle.std.specs.Cmp.Rules.{hashing};
ghost use Rattle.std.proofs.Common.{rules};
ghost use Rattle.tcp_streams.specs.code.Pairs.{word_of};

use packet_heads::{Endpoint, Segment};
use std::hash::{Hash, Hasher};

/// Two endpoints without order: the lesser stands first.
#[derive(Clone, Copy, PartialEq, Eq)]
pub(crate) struct Pair {
    pub low: Endpoint,
    pub high: Endpoint,
}

impl Pair {
    ghost use Rattle.tcp_streams.specs.code.Pairs.{pair_of};

    /// The pair of a segment.
    pub fn of(segment: &Segment) -> Pair
        ensures { result ≡ pair_of segment.now }
    {
        let from = segment.from;
        let to = segment.to;
        if to < from {
            Pair {
                low: to,
                high: from,
            }
        } else {
            Pair {
                low: from,
                high: to,
            }
        }
    }
}

/// An endpoint's address and port in one word.
fn word_of(endpoint: &Endpoint) -> u64
    ensures { result ≡ word_of endpoint.now }
{
    u64::from(endpoint.address) * 0x1_0000 + u64::from(endpoint.port)
}

impl Hash for Pair {
    ghost hash_input = { λ p. fed.u64 (word_of p.low) ++ fed.u64 (word_of p.high) };

    ghost respects_eq = { Prim.search (hashing, rules) };

    fn hash<H: Hasher>(&self, state: &mut H) {
        state.write_u64(word_of(&self.low));
        state.write_u64(word_of(&self.high));
    }
}
