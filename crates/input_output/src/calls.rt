//! The calls of a reader or a writer, which only proofs see.

ghost use Rattle.std.specs.Prelude.{◌≡◌, ◌++◌, ◌∷◌, List, []};
ghost use Rattle.std.specs.Borrow.{ftrue};
ghost use Rattle.input_output.specs.Calls.{Call};
ghost use Rattle.input_output.specs.code.Stored.{coded_calls};

use std::marker::Model;

/// The calls so far, in order. It takes no memory, and its functions do nothing when they run.
#[derive(Drop)]
pub struct Calls {
    pub ghost list: { List Call } by { coded_calls },
}

impl Model for Calls {
    ghost also_owns = { λ _. ftrue };
}

/// What a call answered.
#[derive(Drop)]
pub(crate) enum Answer<'a> {
    /// A read gave these bytes, or a write took them.
    Moved(&'a [u8]),
    /// A flush went well.
    Flushed,
    /// It failed.
    Failed,
}

impl Calls {
    ghost use Rattle.input_output.specs.code.Answers.{call_of};

    /// Before the first call.
    pub(crate) fn new() -> Calls
        ensures { result.list ≡ [] }
    {
        Calls {}
    }

    /// These calls, and one more.
    pub(crate) fn then(&self, _answer: &Answer<'_>) -> Calls
        ensures { result.list ≡ self.now.list ++ call_of _answer.now ∷ [] }
    {
        Calls {}
    }
}
