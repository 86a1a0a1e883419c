//! What one step does to the credit of one window.

ghost use Rattle.std.specs.Prelude.{◌≡◌, not, ◌||◌, if◌then◌else◌, Some, None};

use crate::windows::LARGEST_WINDOW;

/// What one step does to the credit of one window (RFC 9113, 6.9 and 6.9.1).
#[derive(Clone, Copy)]
pub struct Count {
    /// The credit in bytes before the step.
    pub before: i64,
    /// The credit after it: less the content, plus what is granted.
    pub after: i64,
    /// The content sent through the window, in bytes.
    pub content: u32,
}

impl Count {
    ghost use Rattle.std.specs.Ordering.{int_eq};
    ghost use Rattle.audit_terms.specs.Window.{overflows, overruns, stall_begins, stall_ends};

    /// Does the credit rise above the largest window, 2^31 - 1?
    pub fn overflows(&self) -> bool
        ensures { result ≡ overflows self.now.before self.now.after }
    {
        self.before < self.after && self.after > i64::from(LARGEST_WINDOW)
    }

    /// Is more content sent than there was credit? An empty frame is never more.
    pub fn overruns(&self) -> bool
        ensures { result ≡ overruns self.now.before self.now.content }
    {
        self.content > 0 && self.before < i64::from(self.content)
    }

    /// Is credit there again that was used up?
    pub fn stall_ends(&self) -> bool
        ensures { result ≡ stall_ends self.now.before self.now.after }
    {
        self.before <= 0 && self.after > 0
    }

    /// Is credit used up that was there?
    pub fn stall_begins(&self) -> bool
        ensures { result ≡ stall_begins self.now.before self.now.after }
    {
        self.before > 0 && self.after <= 0
    }

    /// Does the credit change?
    pub fn moves(&self) -> bool
        ensures { result ≡ not (int_eq self.now.before self.now.after) }
    {
        self.before != self.after
    }

    /// The count up to the last credit that is known: an overflowing grant is not added (RFC 9113, 6.9.1).
    pub fn last_known(&self, is_overflowing: bool) -> Count
        ensures { result ≡ (if is_overflowing then record self.now { after = self.now.before } else self.now) }
    {
        if is_overflowing {
            Count {
                after: self.before,
                ..*self
            }
        } else {
            *self
        }
    }

    /// The credit after the step, unless the window ends: with its side's last frame, or by an overflowing grant.
    pub fn left_live(&self, ends: bool, is_overflowing: bool) -> Option<i64>
        ensures { result ≡ (if ends || is_overflowing then None else Some self.now.after) }
    {
        if ends || is_overflowing {
            None
        } else {
            Some(self.after)
        }
    }
}
