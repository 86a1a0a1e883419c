//! The frames of both sides, put in capture order.

ghost use Rattle.std.specs.Prelude.{◌≡◌, ◌+◌, ◌*◌, ◌<◌, ◌^◌, ◌∷◌, [], IfNone, IfOk, IfSome, length};
ghost use Rattle.std.specs.List.{AllByRecursion};
ghost use Rattle.audit_terms.specs.code.runs.Orderly.{IsOrderly};
ghost use Rattle.h2_frames.specs.CaptureOrder.{numbered};
ghost use Rattle.h2_frames.specs.code.Merge.{merged};
ghost use Rattle.h2_frames.specs.code.Steps.{IsReadable};

use crate::side_frames::SideFrame;
use audit_terms::Frame;
use std::alloc::{AllocError, Global};

/// The frames of both sides in capture order, numbered from 1.
pub(crate) fn in_capture_order(
    alloc: Global,
    client: &[SideFrame],
    server: &[SideFrame],
) -> Result<Vec<Frame>, AllocError>
    requires few { 9 * (length client.now + length server.now) < 2 ^ 31 }
    requires client { AllByRecursion IsReadable client.now }
    requires server { AllByRecursion IsReadable server.now }
    ensures all { IfOk result (λ frames. frames.items ≡ numbered 1 (merged client.now server.now)) }
    ensures orderly { IfOk result (λ frames. IsOrderly frames.items) }
{
    let mut frames = Vec::with_capacity(alloc, client.len() + server.len())?;
    let mut sent = client;
    let mut answered = server;
    while let Some((first, later_sent, later_answered)) = first_of(sent, answered) {
        let number = frames.len() as u32 + 1;
        frames.push(first.numbered(number))?;
        sent = later_sent;
        answered = later_answered;
    }
    Ok(frames)
}

/// The frame that comes first of both sides, and what follows it on each.
fn first_of<'a>(
    client: &'a [SideFrame],
    server: &'a [SideFrame],
) -> Option<(SideFrame, &'a [SideFrame], &'a [SideFrame])>
    ensures first { IfSome result (λ found. merged client.now server.now ≡ found.0 ∷ merged found.1.now found.2.now) }
    ensures size { IfSome result (λ found.
        length found.1.now + length found.2.now + 1 ≡ length client.now + length server.now) }
    ensures none { IfNone result ((client.now ≡ []) × (server.now ≡ [])) }
{
    let Some((x, later_sent)) = client.split_first() else {
        let (y, later_answered) = server.split_first()?;
        return Some((*y, client, later_answered));
    };
    let Some((y, later_answered)) = server.split_first() else {
        return Some((*x, later_sent, server));
    };
    if x.comes_after(y) {
        Some((*y, client, later_answered))
    } else {
        Some((*x, later_sent, server))
    }
}
