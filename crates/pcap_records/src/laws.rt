//! Laws of the definitions. The functions do nothing; their contracts are the laws.

ghost use Rattle.pcap_records.specs.laws.Readings.{OneReading, FrontDecides, AllowedIsShort, HeaderRefuses};
ghost use Rattle.pcap_records.specs.laws.Readings.{LargestIsTaken};
ghost use Rattle.pcap_records.specs.laws.Growth.{ReadingGrows};

/// A capture has one reading: link type, records and cut record are the same in any two.
pub fn one_reading()
    ensures { OneReading }
{}

/// The first 2^31 bytes of a capture are refused exactly as the whole is, by the same refusal.
#[tactic(auto, using(crate::proofs::Sizes::front_decides_lem))]
pub fn front_decides()
    ensures { FrontDecides }
{}

/// A capture that is not refused has fewer than 2^31 bytes.
#[tactic(auto, using(crate::proofs::Sizes::allowed_is_short_lem))]
pub fn allowed_is_short()
    ensures { AllowedIsShort }
{}

/// A capture of 2^31 - 1 bytes is not too large.
#[tactic(auto, using(crate::proofs::Sizes::largest_is_taken_lem))]
pub fn largest_is_taken()
    ensures { LargestIsTaken }
{}

/// A file header that is refused by itself is refused alike, whatever follows it.
#[tactic(auto, using(crate::proofs::Sizes::header_refuses_lem))]
pub fn header_refuses()
    ensures { HeaderRefuses }
{}

/// The reading of a capture begins with the reading of any front of it that has the file header.
#[tactic(auto, using(crate::proofs::Growing::reading_grows_lem))]
pub fn reading_grows()
    ensures { ReadingGrows }
{}
