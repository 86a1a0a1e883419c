ghost use Rattle.std.specs.Prelude.{◌≡◌, All, IfOk, map};
ghost use Rattle.audit_terms.specs.code.runs.Orderly.{IsOrderly};
ghost use Rattle.audit_terms.specs.Finding.{shown};
ghost use Rattle.audit_terms.specs.Pass.{pass};
ghost use Rattle.split_merge.specs.code.Findings.{findings_in};

use crate::batch::{by_shares, next_batch};
use crate::division::Division;
use audit_terms::Frame;
use split_merge::Findings;
use std::alloc::AllocError;
use std::thread::Threads;
use stop_desk::{Gate, Team};

/// What each connection shows: what one pass over its frames says up to the first connection error (RFC 9113, 5.4.1),
/// with or without credits. An error is want of memory.
pub fn findings_of_each<R: Threads + Sync, G: Gate>(
    team: &Team<'_, R, G>,
    division: &Division,
    connections: &[&[Frame]],
) -> Result<Vec<Findings>, AllocError>
    requires { All (λ frames. IsOrderly frames.now) connections.now }
    ensures { IfOk result (λ found. map findings_in found.items
        ≡ map (λ frames. shown division.now.frames_shown (pass frames.now)) connections.now) }
{
    let mut all = Vec::with_capacity(team.alloc, connections.len())?;
    let mut done = 0;
    while done < connections.len() {
        let (_, rest) = connections.split_at(done);
        let batch = next_batch(rest);
        let mut found = by_shares(team, division, batch)?;
        all.append(&mut found)?;
        done += batch.len();
    }
    Ok(all)
}
