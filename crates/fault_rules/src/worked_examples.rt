//! Worked examples: what the acknowledgements of short scripts take, computed from the definitions by proof. The
//! functions do nothing; each contract is the example.
ghost use Rattle.fault_rules.specs.examples.Pair.{NegativeWindow, OldestFirst, NothingToTake};

/// A lower initial window counts from its acknowledgement (RFC 9113, 6.5.3, 6.9.2).
pub fn negative_window()
    ensures { NegativeWindow }
{}

/// The oldest settings are taken first.
pub fn oldest_first()
    ensures { OldestFirst }
{}

/// An acknowledgement with no settings to take.
pub fn nothing_to_take()
    ensures { NothingToTake }
{}
