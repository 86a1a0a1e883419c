ghost use Rattle.std.specs.Prelude.{◌≡◌, ◌^◌, OnOk};
ghost use Rattle.input_output.specs.Account.{kept};
ghost use Rattle.input_output.specs.code.Reading.{HasConsumed, HasGrown, HasPassedOver, HaveEnded, IsOpenWithin};
ghost use Rattle.input_output.specs.code.Reading.{IsSound, StandsForAll};

use crate::capture_reader::{CaptureReader, ReadState};
use crate::fault::ReadFault;
use crate::front::FrontWalk;
use crate::kept_bytes::fill_up;
use std::alloc::Global;
use std::io::Read;

/// How many bytes are read at a time that are not kept. (Measured: bench/README.md, Thresholds.)
const PASSED_BYTES: usize = 65_536;

/// How many bytes are read at a time that a walk is fed and that are not kept: they are still in the processor's cache
/// when it walks over them. (Measured: bench/README.md, Thresholds.)
const FED_BYTES: usize = 262_144;

/// Reads until so many bytes are kept, or to the end. An error is a read that failed, or want of memory for the bytes.
///
/// Each turn reads at least one byte or ends the reading, so there are no more than 2^31 turns.
pub fn keep_up_to<R: Read>(reader: &mut CaptureReader<R>, limit: usize) -> Result<(), ReadFault>
    requires { IsOpenWithin limit reader.old }
    ensures grown { HasGrown limit (kept reader.old) reader.new }
    ensures bytes { OnOk result (HasConsumed R.remaining reader.old reader.new) }
    ensures ended { HaveEnded R.remaining limit reader.new result }
{
    let mut read = Ok(());
    while reader.is_open_below(limit) {
        read = reader.read_once(limit);
    }
    read
}

/// Reads to the end, or until there were 2^31 bytes, and keeps nothing of it. Its turns end likewise. An error is a
/// read that failed.
pub fn pass_over<R: Read>(reader: &mut CaptureReader<R>) -> Result<(), ReadFault>
    requires sound { IsSound reader.old }
    requires state { reader.old.state ≡ ReadState.Open }
    ensures sound { OnOk result (IsSound reader.new) }
    ensures kept { reader.new.bytes ≡ reader.old.bytes }
    ensures bytes { OnOk result (HasPassedOver R.remaining reader.old reader.new) }
    ensures ended { HaveEnded R.remaining (2 ^ 31) reader.new result }
{
    let mut buffer = [0; PASSED_BYTES];
    while !reader.is_full() {
        if reader.pass_once(&mut buffer)? == 0 {
            return Ok(());
        }
    }
    Ok(())
}

/// Reads to the end, or until there were 2^31 bytes, and feeds a walk what each read gives, of which nothing is kept.
/// Its turns end likewise. An error is a read that failed, or want of memory, for the one buffer or for the walk.
pub fn walk_and_let_go<R: Read, W: FrontWalk>(
    alloc: Global,
    reader: &mut CaptureReader<R>,
    walk: &mut W,
) -> Result<(), ReadFault>
    requires sound { IsSound reader.old }
    requires state { reader.old.state ≡ ReadState.Open }
    requires walk { StandsForAll W.stands reader.old walk.old }
    ensures sound { OnOk result (IsSound reader.new) }
    ensures kept { reader.new.bytes ≡ reader.old.bytes }
    ensures bytes { OnOk result (HasPassedOver R.remaining reader.old reader.new) }
    ensures walk { OnOk result (StandsForAll W.stands reader.new walk.new) }
    ensures ended { HaveEnded R.remaining (2 ^ 31) reader.new result }
{
    let mut buffer = Vec::new(alloc);
    reader.enter_memory(fill_up(&mut buffer, FED_BYTES))?;
    while !reader.is_full() {
        let count = reader.pass_once(&mut buffer)?;
        if count == 0 {
            return Ok(());
        }
        reader.enter_memory(walk.feed(alloc, &buffer[..count]))?;
    }
    Ok(())
}
