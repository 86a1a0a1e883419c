//! Shares of a connection's frames.

ghost use Rattle.std.specs.Prelude.{◌≡◌, ◌*◌, ◌<◌, ◌++◌, length, All, IfOk, OnOk, flat_map};
ghost use Rattle.std.specs.Fork.{slice_chunk};
ghost use Rattle.audit_terms.specs.code.runs.Orderly.{IsInRange, IsOrderly};
ghost use Rattle.audit_terms.specs.Finding.{in_order};
ghost use Rattle.audit_terms.specs.LocalFault.{local_said};
ghost use Rattle.audit_terms.specs.code.runs.LocalFaults.{local_run_from, local_run};
ghost use Rattle.fault_rules.specs.code.Shares.{share_run, AreBefores};

use crate::frame_faults::say_local;
use crate::previous::{keep_last, previous_after_all};
use audit_terms::{Finding, Frame, Sides, put_in_order};
use rayon::prelude::*;
use std::alloc::{AllocError, Global};
use std::thread::Threads;

/// The fewest frames of a share, 160 KiB of them: this bounds what the start of a thread costs a frame.
/// (Measured: bench/README.md, Thresholds.)
const SHARE_FRAMES: usize = 4096;

/// The local faults of a connection's frames, in order, each frame's in order of rank: a side that does not begin with
/// SETTINGS, broken field blocks, frames on wrong streams, payloads that cannot be read, settings out of range and
/// promises of the client (RFC 9113, 3.4, 4.3, 6). There are no more shares than workers.
pub fn local_faults(
    rt: &(impl Threads + Sync),
    alloc: Global,
    workers: usize,
    frames: &[Frame],
) -> Result<Vec<Finding>, AllocError>
    requires workers { 0 < workers }
    requires frames { IsOrderly frames.now }
    ensures { IfOk result (λ found. found.items ≡ local_run frames.now) }
{
    let size = frames.len().div_ceil(workers).max(SHARE_FRAMES);
    if frames.len() <= size {
        return faults_after(alloc, Sides::both(None), frames);
    }
    let befores = befores(alloc, size, frames)?;
    faults_in_shares(rt, alloc, size, frames, befores.as_slice())
}

/// The local faults of the frames, worked out share by share, from the last frames before each.
fn faults_in_shares(
    rt: &(impl Threads + Sync),
    alloc: Global,
    size: usize,
    frames: &[Frame],
    befores: &[Sides<Option<Frame>>],
) -> Result<Vec<Finding>, AllocError>
    requires in_range { All IsInRange frames.now }
    requires befores { AreBefores size frames.now befores.now }
    ensures { IfOk result (λ found. found.items ≡ local_run frames.now) }
{
    let shares = (0..befores.len())
        .into_par_iter()
        .map(
            |n: usize| -> Result<Vec<Finding>, AllocError>
                requires { (n < length befores.now) × All IsInRange frames.now
                    × AreBefores size frames.now befores.now }
                ensures { IfOk result (λ said. said.items ≡ share_run size frames.entry.now n) }
            { faults_of_share(alloc, size, frames, befores, n) },
        )
        .with_min_len(1)
        .collect::<Result<Vec<_>, AllocError>>(rt, alloc)??;
    joined(alloc, shares.as_slice())
}

/// The last frame of each side before each share.
fn befores(
    alloc: Global,
    size: usize,
    frames: &[Frame],
) -> Result<Vec<Sides<Option<Frame>>>, AllocError>
    requires { 0 < size }
    ensures { IfOk result (λ befores. AreBefores size frames.now befores.items) }
{
    let mut befores = Vec::new(alloc);
    let mut previous = Sides::both(None);
    for n in 0..frames.len().div_ceil(size) {
        befores.push(previous)?;
        previous = previous_after_all(&previous, share(size, frames, n));
    }
    Ok(befores)
}

/// A share of so many frames at most, by its number from 0.
fn share(size: usize, frames: &[Frame], n: usize) -> &[Frame]
    requires { n * size < length frames.now }
    ensures { result.now ≡ slice_chunk frames.now size n }
{
    let rest = &frames[n * size..];
    &rest[..size.min(rest.len())]
}

/// The local faults of a share, by its number from 0.
fn faults_of_share(
    alloc: Global,
    size: usize,
    frames: &[Frame],
    befores: &[Sides<Option<Frame>>],
    n: usize,
) -> Result<Vec<Finding>, AllocError>
    requires inside { n < length befores.now }
    requires in_range { All IsInRange frames.now }
    requires befores { AreBefores size frames.now befores.now }
    ensures { IfOk result (λ said. said.items ≡ share_run size frames.now n) }
{
    faults_after(alloc, befores[n], share(size, frames, n))
}

/// The local faults of some frames, from the last frame of each side before them.
fn faults_after(
    alloc: Global,
    mut previous: Sides<Option<Frame>>,
    frames: &[Frame],
) -> Result<Vec<Finding>, AllocError>
    requires { All IsInRange frames.now }
    ensures { IfOk result (λ found. found.items ≡ local_run_from previous frames.now) }
{
    let mut found = Vec::new(alloc);
    let mut said = Vec::new(alloc);
    for frame in frames {
        add_faults(&mut found, &mut said, &previous.of(frame.side), frame)?;
        keep_last(&mut previous, frame);
    }
    Ok(found)
}

/// Adds the faults of a frame, in order. `said` is scratch: only its memory is kept.
fn add_faults(
    found: &mut Vec<Finding>,
    said: &mut Vec<Finding>,
    previous: &Option<Frame>,
    frame: &Frame,
) -> Result<(), AllocError>
    requires { IsInRange frame.now }
    ensures { OnOk result (found.new.items ≡ found.old.items ++ in_order (local_said previous.now frame.now)) }
{
    said.clear();
    say_local(said, previous, frame)?;
    // Most frames have none.
    if said.is_empty() {
        return Ok(());
    }
    put_in_order(said)?;
    found.extend_from_slice(said.as_slice())
}

/// What the shares show, one after the other.
fn joined(alloc: Global, shares: &[Vec<Finding>]) -> Result<Vec<Finding>, AllocError>
    ensures { IfOk result (λ found. found.items ≡ flat_map (λ share. share.items) shares.now) }
{
    let mut found = Vec::new(alloc);
    for share in shares {
        found.extend_from_slice(share.as_slice())?;
    }
    Ok(found)
}
