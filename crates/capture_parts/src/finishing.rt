//! The end of a split: parts are flushed.

ghost use Rattle.std.specs.Prelude.{◌≡◌, OnOk, map};
ghost use Rattle.std.specs.List.{All};
ghost use Rattle.capture_parts.specs.Finished.{IsFlushedOrFull};

use crate::fault::PartFile;
use crate::part::Part;
use std::io::{BufWriter, Write};

/// This file of the part of this number could not be flushed. The first part has number 1.
#[derive(Clone, Copy)]
pub struct FlushFault {
    pub number: usize,
    pub file: PartFile,
}

/// Flushes all parts that are not full. Fails at the first with a file that cannot be flushed.
pub fn flush_parts<W: Write + Drop>(parts: &mut [Part<BufWriter<W>>]) -> Result<(), FlushFault>
    ensures flushed { OnOk result (All IsFlushedOrFull parts.new) }
    ensures full { map (λ part. part.full) parts.new ≡ map (λ part. part.full) parts.old }
{
    for index in 0..parts.len() {
        flush_part(index + 1, &mut parts[index])?;
    }
    Ok(())
}

/// Flushes the part of this number, if it is not full.
fn flush_part<W: Write + Drop>(
    number: usize,
    part: &mut Part<BufWriter<W>>,
) -> Result<(), FlushFault>
    ensures flushed { OnOk result (IsFlushedOrFull part.new) }
    ensures full { part.new.full ≡ part.old.full }
{
    if part.full().is_some() {
        return Ok(());
    }
    match part.flush() {
        Ok(()) => Ok(()),
        Err(file) => Err(FlushFault { number, file }),
    }
}
