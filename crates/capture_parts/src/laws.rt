//! Laws of the definitions. The functions do nothing; their contracts are the laws.

ghost use Rattle.capture_parts.specs.laws.Parts.{EitherOrder, OnePart, SameRecords, SegmentsName};

/// A record goes to one part, whole.
pub fn one_part()
    ensures { OnePart }
{}

/// A packet in which `packet_heads` finds a segment names that segment's endpoints. So the part of a segment depends on
/// its endpoints alone.
pub fn segments_name()
    ensures { SegmentsName }
{}

/// And not on their order: both directions of a connection go to one part.
pub fn either_order()
    ensures { EitherOrder }
{}

/// The records that are dealt are those that the reader of the whole capture finds: as many, before the same rest.
#[tactic(auto, using(crate::proofs::Rows::same_records))]
pub fn same_records()
    ensures { SameRecords }
{}
