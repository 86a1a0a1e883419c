//! The writes and flushes of a writer, and what each of them answered.

ghost use Rattle.std.specs.Prelude.{◌≡◌, ◌≤◌, ◌<◌, ◌++◌, ◌∷◌, [], IfOk, OnErr, OnOk, length, take};
ghost use Rattle.std.specs.Io.KnownBytes.{Appends, Keeps};
ghost use Rattle.input_output.specs.Account.{IsUnwritten, writes};
ghost use Rattle.input_output.specs.Calls.{flushed, moved};
ghost use Rattle.input_output.specs.code.Writes.{HasFailed};

use crate::calls::{Answer, Calls};
use std::io::Write;

/// A write failed or took no byte, or a flush failed. It is made here alone, where that is seen.
#[derive(Clone, Copy)]
pub struct WriteFault(());

/// A writer of a report, with the calls that it got.
///
/// No type of writer tells which bytes a pipe or a terminal took. The calls do. Only the three functions here write
/// them, so they are to be read: `new` makes no call, and `write` and `flush` make one and enter its answer.
#[derive(Drop)]
pub struct ReportWriter<W> {
    writer: W,
    calls: Calls,
}

impl<W> ReportWriter<W> {
    /// The writer before the first call.
    pub fn new(writer: W) -> ReportWriter<W>
        ensures writer { result.writer ≡ writer }
        ensures unwritten { IsUnwritten result }
    {
        ReportWriter {
            writer,
            calls: Calls::new(),
        }
    }

    /// The writer itself.
    pub fn writer(&self) -> &W
        ensures { result.now ≡ self.now.writer }
    {
        &self.writer
    }

    /// The writer itself, and its calls no longer.
    pub fn into_writer(self) -> W
        ensures { result ≡ self.writer }
    {
        let ReportWriter { writer, calls: _ } = self;
        writer
    }
}

impl<W: Write> ReportWriter<W> {
    /// Offers bytes to the writer once, and returns how many it took. To take none is a failure.
    pub fn write(&mut self, bytes: &[u8]) -> Result<usize, WriteFault>
        requires { 0 < length bytes.now }
        ensures some { IfOk result (λ n. (0 < n) × (n ≤ length bytes.now)) }
        ensures taken { IfOk result (λ n. Appends (W.contents self.old.writer) (W.contents self.new.writer)
            (take n bytes.now)) }
        ensures called { IfOk result (λ n. writes self.new ≡ writes self.old ++ moved (take n bytes.now) ∷ []) }
        ensures kept { OnErr result (Appends (W.contents self.old.writer) (W.contents self.new.writer) []) }
        ensures failed { OnErr result (HasFailed self.old self.new) }
    {
        match self.writer.write(bytes) {
            Ok(count) => {
                self.calls = self.calls.then(&Answer::Moved(&bytes[..count]));
                if count == 0 {
                    return Err(WriteFault(()));
                }
                Ok(count)
            }
            Err(_) => {
                self.calls = self.calls.then(&Answer::Failed);
                Err(WriteFault(()))
            }
        }
    }

    /// Flushes once.
    pub fn flush(&mut self) -> Result<(), WriteFault>
        ensures kept { Keeps (W.contents self.old.writer) (W.contents self.new.writer) }
        ensures called { OnOk result (writes self.new ≡ writes self.old ++ flushed ∷ []) }
        ensures failed { OnErr result (HasFailed self.old self.new) }
    {
        match self.writer.flush() {
            Ok(()) => {
                self.calls = self.calls.then(&Answer::Flushed);
                Ok(())
            }
            Err(_) => {
                self.calls = self.calls.then(&Answer::Failed);
                Err(WriteFault(()))
            }
        }
    }
}
