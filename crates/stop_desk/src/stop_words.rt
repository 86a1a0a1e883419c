ghost use Rattle.std.specs.Prelude.{◌≡◌};
ghost use Rattle.stop_desk.specs.code.Stop.{stop_word};

use audit_terms::Place;

/// The word of a stop.
pub(crate) fn word_of(stop: &Option<Place>) -> u64
    ensures { result ≡ stop_word stop.now }
{
    match stop {
        Some(place) => place.word(),
        None => u64::MAX,
    }
}
