ghost use Rattle.std.specs.Prelude.{◌≡◌, ℕ, ◌+◌, ◌-◌, ◌*◌, ◌^◌, ◌<◌, ◌≤◌};
ghost use Rattle.audit_terms.specs.Place.{place_of, place_number, place_stream};
ghost use Rattle.audit_terms.specs.code.Places.{place_rank, place_at, no_place};

use std::marker::Model;

/// How many ranks fit a place: 5 bits.
const RANKS: u64 = 32;

/// How many streams do: 31 bits (RFC 9113, 4.1).
const STREAMS: u64 = 0x8000_0000;

/// The first word past all places, whose frame numbers end at 2^28 - 2.
const PAST_PLACES: u64 = 0x0fff_ffff * RANKS * STREAMS;

/// Where a finding stands: frame number, rank and stream, which order findings.
///
/// One word of 28, 5 and 31 bits from the top, so that places compare as words. A contract sees that word.
#[derive(Clone, Copy, PartialEq, Eq, PartialOrd, Ord)]
pub struct Place {
    word: u64,
}

impl Model for Place {
    ghost Value = { ℕ };

    ghost view = { λ p. p.word };

    ghost inverse = { λ n. record { word = n } };
}

impl Place {
    /// The place of a frame's number, a rank and a stream. Below all ones, which is no place.
    pub fn of(number: u32, rank: u8, stream: u32) -> Self
        requires numbered { number ≤ 2 ^ 28 - 2 }
        requires ranked { rank ≤ 31 }
        requires streamed { stream < 2 ^ 31 }
        ensures value { result ≡ place_of number rank stream }
        ensures number { place_number result ≡ number }
        ensures rank { place_rank result ≡ rank }
        ensures stream { place_stream result ≡ stream }
        ensures is_place { result < no_place }
    {
        let high = u64::from(number) * RANKS + u64::from(rank);
        Place {
            word: high * STREAMS + u64::from(stream),
        }
    }

    /// The place that a word is, if it is one.
    pub fn at_word(word: u64) -> Option<Self>
        ensures { result ≡ place_at word }
    {
        (word < PAST_PLACES).then_some(Place { word })
    }

    /// The frame's number.
    pub fn number(self) -> u32
        ensures { result ≡ place_number self }
    {
        (self.word / STREAMS / RANKS) as u32
    }

    /// The rank, below 32.
    pub fn rank(self) -> u8
        ensures { result ≡ place_rank self }
    {
        (self.word / STREAMS % RANKS) as u8
    }

    /// The stream, below 2^31.
    pub fn stream(self) -> u32
        ensures { result ≡ place_stream self }
    {
        (self.word % STREAMS) as u32
    }

    /// The place as one word, in the order of places.
    pub fn word(self) -> u64
        ensures { result ≡ self }
    {
        self.word
    }
}
