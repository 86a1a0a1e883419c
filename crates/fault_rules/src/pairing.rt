ghost use Rattle.std.specs.Prelude.{◌≡◌, ◌++◌, ◌&&◌, pos, is_none, IfOk, OnOk};
ghost use Rattle.std.specs.Option.{option_to_list};
ghost use Rattle.audit_terms.specs.code.runs.Orderly.{IsInRange, IsOrderly};
ghost use Rattle.audit_terms.specs.InForce.{InForce, in_force_after, change_of, settings_said};
ghost use Rattle.audit_terms.specs.Frame.{is_ack};
ghost use Rattle.audit_terms.specs.code.runs.Changes.{AreAcknowledged, AreOrderly, changes_of, settings_run};
ghost use Rattle.audit_terms.specs.Finding.{finding_at, say};
ghost use Rattle.fault_rules.specs.code.Pending.{IsPending};

use crate::pending_settings::Pending;
use audit_terms::{Change, Finding, Frame, Kind, say_if};
use std::alloc::{AllocError, Global};

/// What the acknowledgements of a connection's frames bring into force, and which of them answer nothing.
#[derive(Drop)]
pub struct Pairs {
    /// One for each acknowledgement that answers a SETTINGS frame, in order.
    pub changes: Vec<Change>,
    /// One of kind `UnmatchedAck` for each acknowledgement with nothing to answer, in order.
    pub findings: Vec<Finding>,
}

impl Pairs {
    ghost use Rattle.std.specs.Prelude.{◌==◌};
    ghost use Rattle.std.specs.List.{find};

    /// The change that the frame of this number brings, where it is one of those that do.
    pub fn change_at(&self, number: u32) -> Option<Change>
        ensures { result ≡ find (λ change. change.number == number) self.now.changes.items }
    {
        self.changes
            .iter()
            .copied()
            .find(|one| one.number == number)
    }
}

/// The changes and the unmatched acknowledgements of a connection's frames.
pub fn pair(alloc: Global, frames: &[Frame]) -> Result<Pairs, AllocError>
    requires { IsOrderly frames.now }
    ensures changes { IfOk result (λ pairs. pairs.changes.items ≡ changes_of frames.now) }
    ensures findings { IfOk result (λ pairs. pairs.findings.items ≡ settings_run frames.now) }
    ensures orderly { IfOk result (λ pairs. AreOrderly pairs.changes.items) }
    ensures acknowledged { IfOk result (λ pairs. AreAcknowledged frames.now pairs.changes.items) }
{
    let mut pending = Pending::new(alloc);
    let mut pairs = Pairs {
        changes: Vec::new(alloc),
        findings: Vec::new(alloc),
    };
    for frame in frames {
        meet(&mut pending, &mut pairs, frame)?;
    }
    Ok(pairs)
}

/// Adds what the next frame brings, or that it is an acknowledgement which brings nothing.
fn meet(pending: &mut Pending, pairs: &mut Pairs, frame: &Frame) -> Result<(), AllocError>
    requires { IsInRange frame.now }
    ensures pending { OnOk result ((now : InForce) → IsPending now pending.old
        → IsPending (in_force_after now frame.now) pending.new) }
    ensures changes { OnOk result ((now : InForce) → IsPending now pending.old
        → pairs.new.changes.items ≡ pairs.old.changes.items ++ option_to_list (change_of now frame.now)) }
    ensures findings { OnOk result ((now : InForce) → IsPending now pending.old
        → pairs.new.findings.items ≡ pairs.old.findings.items ++ settings_said now frame.now) }
{
    let change = pending.meet(frame)?;
    add(pairs, frame, change)?;
    Ok(())
}

/// Adds the change that a frame brings, or that it is an acknowledgement without one.
fn add(pairs: &mut Pairs, frame: &Frame, change: Option<Change>) -> Result<(), AllocError>
    requires { IsInRange frame.now }
    ensures changes { OnOk result (pairs.new.changes.items ≡ pairs.old.changes.items ++ option_to_list change) }
    ensures findings { OnOk result (pairs.new.findings.items ≡ pairs.old.findings.items
        ++ say (is_ack frame.now.body && is_none change)
        (finding_at Kind.UnmatchedAck frame.now.number frame.now.stream frame.now.side (pos 0))) }
{
    say_unmatched(&mut pairs.findings, frame, &change)?;
    if let Some(change) = change {
        pairs.changes.push(change)?;
    }
    Ok(())
}

/// Adds an acknowledgement that answers nothing: one that brings no change (RFC 9113, 6.5.3).
pub fn say_unmatched(
    found: &mut Vec<Finding>,
    frame: &Frame,
    change: &Option<Change>,
) -> Result<(), AllocError>
    requires { IsInRange frame.now }
    ensures { OnOk result (found.new.items ≡ found.old.items ++ say (is_ack frame.now.body && is_none change.now)
        (finding_at Kind.UnmatchedAck frame.now.number frame.now.stream frame.now.side (pos 0))) }
{
    let unmatched = Finding::at(
        Kind::UnmatchedAck,
        frame.number,
        frame.stream,
        frame.side,
        0,
    );
    say_if(found, frame.body.is_ack() && change.is_none(), unmatched)
}
