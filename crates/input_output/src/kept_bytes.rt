//! The bytes that are kept of a capture.

ghost use Rattle.std.specs.Prelude.{◌≡◌, ◌<◌, ◌≤◌, [], length, take, drop, vec_len, IfOk, OnErr, OnOk};
ghost use Rattle.std.specs.Io.{appended_bytes};
ghost use Rattle.input_output.specs.Calls.{failed};
ghost use Rattle.input_output.specs.code.Reads.{HasCalled, HasRead, IsGrown};

use crate::traced_reader::{FailedRead, TracedReader};
use std::alloc::{AllocError, Global};
use std::io::Read;
use std::marker::Model;

/// How many bytes of zeros are written at a time. Measured, more of them are slower where memory is used for the first
/// time: glibc then writes them by an instruction that begins anew at each new page, which took 8 % of the time of a
/// capture with few frames.
const STRIDE_BYTES: usize = 2_048;

/// Bytes, with room for more behind them.
#[derive(Drop)]
pub(crate) struct KeptBytes {
    /// The first `filled` of these are kept.
    bytes: Vec<u8>,
    filled: usize,
}

impl Model for KeptBytes {
    ghost use Rattle.std.specs.Prelude.{◌≤◌, take, vec_len};
    ghost use Rattle.input_output.specs.Bytes.{WithRoom};

    ghost Value = { WithRoom };

    ghost view = { λ b. record { kept = take b.filled b.bytes.items; room = vec_len b.bytes } };

    ghost invariant = { λ b. b.filled ≤ vec_len b.bytes };
}

impl KeptBytes {
    /// No byte, and no room.
    pub(crate) fn new(alloc: Global) -> KeptBytes
        ensures kept { result.kept ≡ [] }
        ensures room { result.room ≡ 0 }
    {
        KeptBytes {
            bytes: Vec::new(alloc),
            filled: 0,
        }
    }

    /// The number of bytes.
    pub(crate) fn len(&self) -> usize
        ensures { result ≡ length self.now.kept }
    {
        self.filled
    }

    /// The bytes.
    pub(crate) fn kept(&self) -> &[u8]
        ensures { result.now ≡ self.now.kept }
    {
        &self.bytes[..self.filled]
    }

    /// Makes room for `limit` bytes in all, where there is none for one more.
    pub(crate) fn make_room(&mut self, limit: usize) -> Result<(), AllocError>
        requires limit { length self.old.kept < limit }
        requires room { self.old.room ≤ limit }
        ensures kept { self.new.kept ≡ self.old.kept }
        ensures limit { self.new.room ≤ limit }
        ensures room { OnOk result (length self.new.kept < self.new.room) }
    {
        if self.filled < self.bytes.len() {
            return Ok(());
        }
        fill_up(&mut self.bytes, limit)
    }

    /// Reads once, and keeps what that gives.
    pub(crate) fn read_once<R: Read>(
        &mut self,
        source: &mut TracedReader<R>,
    ) -> Result<usize, FailedRead>
        requires { length self.old.kept < self.old.room }
        ensures grown { IsGrown self.old self.new }
        ensures read { IfOk result (HasRead R.remaining source.old source.new
            (appended_bytes self.old.kept self.new.kept)) }
        ensures failed { OnErr result (HasCalled source.old source.new failed) }
    {
        let count = read_into(source, &mut self.bytes, self.filled)?;
        self.filled += count;
        Ok(count)
    }
}

/// Fills memory up to this length with zeros.
pub(crate) fn fill_up(bytes: &mut Vec<u8>, length: usize) -> Result<(), AllocError>
    requires { vec_len bytes.old ≤ length }
    ensures front { take (vec_len bytes.old) bytes.new.items ≡ bytes.old.items }
    ensures grows { vec_len bytes.old ≤ vec_len bytes.new }
    ensures within { vec_len bytes.new ≤ length }
    ensures length { OnOk result (vec_len bytes.new ≡ length) }
{
    bytes.reserve(length - bytes.len())?;
    while bytes.len() < length {
        bytes.resize(length.min(bytes.len() + STRIDE_BYTES), 0)?;
    }
    Ok(())
}

/// Reads once behind the bytes with which memory is filled.
fn read_into<R: Read>(
    source: &mut TracedReader<R>,
    bytes: &mut Vec<u8>,
    filled: usize,
) -> Result<usize, FailedRead>
    requires { filled < vec_len bytes.old }
    ensures front { take filled bytes.new.items ≡ take filled bytes.old.items }
    ensures length { vec_len bytes.new ≡ vec_len bytes.old }
    ensures read { IfOk result (λ n. HasRead R.remaining source.old source.new
        (take n (drop filled bytes.new.items)) n) }
    ensures failed { OnErr result (HasCalled source.old source.new failed) }
{
    source.read(&mut bytes[filled..])
}
