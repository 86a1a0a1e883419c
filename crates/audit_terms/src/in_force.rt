//! What a change brings into force, from what was in force before it (RFC 9113, 6.5.2, 6.5.3).

ghost use Rattle.std.specs.Prelude.{◌≡◌};
ghost use Rattle.audit_terms.specs.Change.{change_by, new_initial, new_limit, new_push};
ghost use Rattle.audit_terms.specs.Sides.{each_side, side_of};
ghost use Rattle.audit_terms.specs.code.runs.Streams.{initial_after};

use crate::frames::Frame;
use crate::items::Change;
use crate::settings::Settings;
use crate::sides::{Side, Sides};

/// What an acknowledgement of these settings brings into force.
pub fn change_by(frame: &Frame, settings: Settings) -> Change
    ensures { result ≡ change_by frame.now settings }
{
    Change {
        number: frame.number,
        side: frame.side,
        initial: settings.initial,
        max_frame: settings.max_frame,
        push: settings.push,
    }
}

/// The initial window in force for a side (6.9.2).
pub fn new_initial(change: &Option<Change>, side: Side, before: u32) -> u32
    ensures { result ≡ new_initial change.now side before }
{
    match change {
        Some(change) if change.side == side => change.initial.unwrap_or(before),
        _ => before,
    }
}

/// The initial windows in force for both sides (6.9.2).
pub fn initial_after(change: &Option<Change>, initial: &Sides<u32>) -> Sides<u32>
    ensures { result ≡ initial_after change.now initial.now }
{
    Sides {
        client: new_initial(change, Side::Client, initial.client),
        server: new_initial(change, Side::Server, initial.server),
    }
}

/// The greatest length in bytes of a frame that a side may send.
pub fn new_limit(change: &Option<Change>, side: Side, before: u32) -> u32
    ensures { result ≡ new_limit change.now side before }
{
    match change {
        Some(change) if change.side == side => change.max_frame.unwrap_or(before),
        _ => before,
    }
}

/// The greatest length in bytes of a frame that each side may send.
pub fn limit_after(change: &Option<Change>, limit: &Sides<u32>) -> Sides<u32>
    ensures { result ≡ each_side (λ d. new_limit change.now d (side_of d limit.now)) }
{
    Sides {
        client: new_limit(change, Side::Client, limit.client),
        server: new_limit(change, Side::Server, limit.server),
    }
}

/// ENABLE_PUSH in force for the server.
pub fn new_push(change: &Option<Change>, before: u32) -> u32
    ensures { result ≡ new_push change.now before }
{
    match change {
        Some(change) if change.side == Side::Server => change.push.unwrap_or(before),
        _ => before,
    }
}
