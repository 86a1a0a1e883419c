//! Whether credits are shown, as a type.

ghost use Rattle.std.specs.Prelude.{◌≡◌, Bool, false, true};

/// Says whether credits are shown.
pub trait Showing {
    ghost frames_shown: { Bool };

    /// Are they?
    fn frames_shown() -> bool
        ensures { result ≡ frames_shown };
}

/// They are, as each change of one is.
pub struct WithCredits;

impl Showing for WithCredits {
    ghost frames_shown = { true };

    fn frames_shown() -> bool {
        true
    }
}

/// They are not.
pub struct WithoutCredits;

impl Showing for WithoutCredits {
    ghost frames_shown = { false };

    fn frames_shown() -> bool {
        false
    }
}
