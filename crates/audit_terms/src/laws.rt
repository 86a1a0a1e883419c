//! Laws of the definitions in `specs/`. The functions do nothing; each contract is a law.

ghost use Rattle.audit_terms.specs.laws.Places.{PlacesAreInOrder};

/// Places stand in the order of frame number, then rank, then stream, and none is the word of all ones.
pub fn places_are_in_order()
    ensures { PlacesAreInOrder }
{}

ghost use Rattle.audit_terms.specs.laws.Streams.{StreamsAreThoseMet, StreamsAreNamedOnce};

/// The streams that the pass looks at are those other than 0 that its frames meet, each once.
#[tactic(auto, using(crate::proofs::StreamsMet::streams_met_lem, crate::proofs::StreamsMet::streams_once_lem))]
pub fn streams_are_those_met()
    ensures met { StreamsAreThoseMet }
    ensures once { StreamsAreNamedOnce }
{}
