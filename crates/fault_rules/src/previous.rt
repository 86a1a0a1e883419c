//! The last frame of each side.

ghost use Rattle.std.specs.Prelude.{◌≡◌};
ghost use Rattle.audit_terms.specs.Side.{is_side};
ghost use Rattle.audit_terms.specs.LocalFault.{previous_after};
ghost use Rattle.fault_rules.specs.code.Shares.{last_from, previous_after_all};

use audit_terms::{Frame, Side, Sides};

/// Keeps a frame as the last of its side.
pub fn keep_last(previous: &mut Sides<Option<Frame>>, frame: &Frame)
    ensures { previous.new ≡ previous_after previous.old frame.now }
{
    *previous.of_mut(frame.side) = Some(*frame);
}

/// Did a side send the frame?
pub(crate) fn is_of(side: Side, frame: &Frame) -> bool
    ensures { result ≡ is_side side frame.now.side }
{
    side == frame.side
}

/// The last frame of a side in some frames, or the one before them.
fn last_from(side: Side, before: Option<Frame>, frames: &[Frame]) -> Option<Frame>
    ensures { result ≡ last_from side before frames.now }
{
    for back in 0..frames.len() {
        let frame = &frames[frames.len() - 1 - back];
        if is_of(side, frame) {
            return Some(*frame);
        }
    }
    before
}

/// The last frame of each side after some frames, from those before them.
pub(crate) fn previous_after_all(
    previous: &Sides<Option<Frame>>,
    frames: &[Frame],
) -> Sides<Option<Frame>>
    ensures { result ≡ previous_after_all previous.now frames.now }
{
    Sides {
        client: last_from(Side::Client, previous.client, frames),
        server: last_from(Side::Server, previous.server, frames),
    }
}
