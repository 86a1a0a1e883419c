//! What rounds found and told, connection by connection, as their parts have it.

ghost use Rattle.std.specs.Prelude.{◌≡◌, ◌<◌, All, IfOk, map, length};
ghost use Rattle.audit_terms.specs.Finding.{in_order, upto_stop};
ghost use Rattle.split_merge.specs.code.Findings.{findings_in};
ghost use Rattle.stop_desk.specs.code.Laid.{part_of};
ghost use Rattle.audit_rounds.specs.code.Gathered.{AreClosed, AreGathered};

use crate::per_connection::PerConnection;
use audit_terms::Place;
use split_merge::{Findings, merge_by};
use std::alloc::AllocError;
use std::thread::Threads;
use stop_desk::{Gate, Part, Team};

/// The connections, with what the parts of a round keep of each. No list is copied.
pub(crate) fn gathered<'a, M: Drop>(
    connections: Vec<PerConnection<'a>>,
    parts: Vec<Part<M>>,
) -> Result<Vec<PerConnection<'a>>, AllocError>
    requires { All (λ part. part.connection < length connections.items) parts.items }
    ensures { IfOk result (λ all. AreGathered (map part_of parts.items) connections.entry.items all.items) }
{
    let mut all = connections;
    for part in parts {
        all[part.connection].add(part.findings)?;
    }
    Ok(all)
}

/// The connections as the round over streams leaves them: each with its stop, and with the numbers that the parts and
/// its split tell, in order.
pub(crate) fn closed<'a>(
    connections: Vec<PerConnection<'a>>,
    parts: &[Part<Vec<u32>>],
    stops: &[Option<Place>],
) -> Result<Vec<PerConnection<'a>>, AllocError>
    requires parts { All (λ part. part.connection < length connections.items) parts.now }
    requires stops { length stops.now ≡ length connections.items }
    ensures { IfOk result (λ all. AreClosed parts.now stops.now connections.entry.items all.items) }
{
    let mut all = connections;
    for part in parts {
        all[part.connection].tell(part.made.as_slice())?;
    }
    for (n, stop) in stops.iter().enumerate() {
        all[n].close(*stop)?;
    }
    Ok(all)
}

/// The findings of each connection in order, up to and including the first that stops.
pub(crate) fn merged_each<R: Threads + Sync, G: Gate>(
    team: &Team<'_, R, G>,
    connections: Vec<PerConnection<'_>>,
) -> Result<Vec<Findings>, AllocError>
    ensures { IfOk result (λ all. map findings_in all.items
        ≡ map (λ one. upto_stop (in_order (findings_in one.found))) connections.entry.items) }
{
    let mut all = Vec::with_capacity(team.alloc, connections.len())?;
    for one in connections {
        all.push(merge_by(team.rt, team.alloc, team.workers, one.found.lists)?)?;
    }
    Ok(all)
}
