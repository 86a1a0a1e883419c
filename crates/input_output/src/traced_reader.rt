//! The reads of a reader, and what each of them answered.

ghost use Rattle.std.specs.Prelude.{◌≡◌, ◌<◌, [], IfOk, OnErr, length, take};
ghost use Rattle.std.specs.Io.KnownBytes.{Keeps};
ghost use Rattle.input_output.specs.Calls.{failed};
ghost use Rattle.input_output.specs.code.Reads.{HasCalled, HasRead};

use crate::calls::{Answer, Calls};
use std::io::Read;

/// A read failed. It is made here alone, where that is seen.
#[derive(Clone, Copy)]
pub struct FailedRead(());

/// A reader, with the calls that it got. Only the two functions here write these, so they are to be read: `new` makes
/// no call, and `read` makes one and enters its answer.
#[derive(Drop)]
pub struct TracedReader<R> {
    reader: R,
    calls: Calls,
}

impl<R> TracedReader<R> {
    /// The reader before the first read.
    pub(crate) fn new(reader: R) -> TracedReader<R>
        ensures reader { result.reader ≡ reader }
        ensures calls { result.calls.list ≡ [] }
    {
        TracedReader {
            reader,
            calls: Calls::new(),
        }
    }

    /// The reader itself.
    pub(crate) fn reader(&self) -> &R
        ensures { result.now ≡ self.now.reader }
    {
        &self.reader
    }
}

impl<R: Read> TracedReader<R> {
    /// Reads once, where there is room for a byte, and returns how many bytes that gave: none at the end alone.
    pub(crate) fn read(&mut self, buffer: &mut [u8]) -> Result<usize, FailedRead>
        requires { 0 < length buffer.old }
        ensures length { length buffer.new ≡ length buffer.old }
        ensures read { IfOk result (λ n. HasRead R.remaining self.old self.new (take n buffer.new) n) }
        ensures kept { OnErr result (Keeps (R.remaining self.old.reader) (R.remaining self.new.reader)) }
        ensures failed { OnErr result (HasCalled self.old self.new failed) }
    {
        match self.reader.read(buffer) {
            Ok(count) => {
                self.calls = self.calls.then(&Answer::Moved(&buffer[..count]));
                Ok(count)
            }
            Err(_) => {
                self.calls = self.calls.then(&Answer::Failed);
                Err(FailedRead(()))
            }
        }
    }
}
