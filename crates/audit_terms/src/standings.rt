//! How a side stands on a quiet stream, in one number: the credit of its live window, which is more than 0; 0 where its
//! window is not live; and [`ENDED`] where it has ended the stream.

ghost use Rattle.std.specs.Prelude.{◌≡◌};
ghost use Rattle.std.specs.Option.{ForSome};
ghost use Rattle.audit_terms.specs.code.Standing.{has_credit, has_ended, without_window, IsBalance, IsCreditOf};
ghost use Rattle.audit_terms.specs.code.Standing.{IsMovedBy};

use crate::windows::LARGEST_WINDOW;

/// The standing of a side that has ended the stream: its window is not live then. It is one more than any credit.
pub const ENDED: u32 = LARGEST_WINDOW + 1;

/// Does a side of this standing have a live window?
pub fn has_credit(standing: u32) -> bool
    ensures { result ≡ has_credit standing }
{
    0 < standing && standing < ENDED
}

/// Has a side of this standing ended the stream?
pub fn has_ended(standing: u32) -> bool
    ensures { result ≡ has_ended standing }
{
    standing == ENDED
}

/// The standing of a side whose window is not live, by whether it has ended the stream.
pub fn without_window(is_ended: bool) -> u32
    ensures { result ≡ without_window is_ended }
{
    if is_ended { ENDED } else { 0 }
}

/// `credit + rise - fall`, in bytes, if that is not below 0 and no more than the largest credit (RFC 9113, 6.9.1).
pub fn balance(credit: u32, rise: u32, fall: u32) -> Option<u32>
    ensures { ForSome result (IsBalance credit rise fall) }
{
    let after = i64::from(credit) + i64::from(rise) - i64::from(fall);
    if after < 0 || after > i64::from(LARGEST_WINDOW) {
        return None;
    }
    Some(after as u32)
}

/// A credit as it is kept, if some is left and it is no more than the largest (RFC 9113, 6.9.1).
// With this test written out in `standing_after_change` LLVM makes code that takes 14 % longer where each change meets
// many windows.
pub fn kept(credit: i64) -> Option<u32>
    ensures { ForSome result (IsCreditOf credit) }
{
    if credit <= 0 || credit > i64::from(LARGEST_WINDOW) {
        return None;
    }
    Some(credit as u32)
}

/// A standing after a change of the initial window, if its credit is still more than 0 and no more than the largest
/// (6.9.2).
pub fn standing_after_change(standing: u32, before: u32, after: u32) -> Option<u32>
    ensures { ForSome result (IsMovedBy before after standing) }
{
    if !has_credit(standing) {
        return Some(standing);
    }
    kept(i64::from(standing) + i64::from(after) - i64::from(before))
}
