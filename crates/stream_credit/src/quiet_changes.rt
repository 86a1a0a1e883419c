//! Changes that show nothing of a stream where credits are not shown: they move its windows, and no more.

ghost use Rattle.std.specs.Prelude.{◌≡◌, ℕ, ◌+◌, ◌^◌, option_map};
ghost use Rattle.std.specs.Bool.{OnTrue};
ghost use Rattle.audit_terms.specs.code.Room.{HasRoom, WindowHasRoom};
ghost use Rattle.audit_terms.specs.code.Standing.{credit_after_change, IsQuietMove};

use audit_terms::LARGEST_WINDOW;

/// A window after the initial window in force goes from one value to another (RFC 9113, 6.9.2).
pub(crate) fn window_after_change(window: &Option<i64>, before: u32, after: u32) -> Option<i64>
    requires { WindowHasRoom (2 ^ 60) window.now }
    ensures moved { result ≡ option_map (credit_after_change before after) window.now }
    ensures room { (bound : ℕ) → WindowHasRoom bound window.now → WindowHasRoom (bound + 2 ^ 32) result }
{
    match window {
        Some(credit) => Some(credit_after_change(credit, before, after)),
        None => None,
    }
}

/// A credit after the initial window in force goes from one value to another (6.9.2).
fn credit_after_change(credit: &i64, before: u32, after: u32) -> i64
    requires { HasRoom (2 ^ 60) credit.now }
    ensures moved { result ≡ credit_after_change before after credit.now }
    ensures room { (bound : ℕ) → HasRoom bound credit.now → HasRoom (bound + 2 ^ 32) result }
{
    *credit + i64::from(after) - i64::from(before)
}

/// Does the credit of a window, if it lives, neither rise above the largest nor begin or end a stall (6.9.1)?
pub(crate) fn is_quiet_move(before: &Option<i64>, after: &Option<i64>) -> bool
    ensures { OnTrue result (IsQuietMove before.now after.now) }
{
    match (before, after) {
        (Some(before), Some(after)) => {
            (*before <= 0) == (*after <= 0) && *after <= i64::from(LARGEST_WINDOW)
        }
        _ => true,
    }
}
