//! Worked examples of command lines (`specs/examples/KnownWords.antt`), as the contract of an empty function.

ghost use Rattle.h2audit.specs.examples.KnownWords.{KnownWords};

/// What some command lines ask for: no words, every option, help, the version, and words that are refused.
pub fn known_words()
    ensures { KnownWords }
{}
