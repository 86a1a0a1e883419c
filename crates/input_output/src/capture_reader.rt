ghost use Rattle.std.specs.Prelude.{◌≡◌, ◌+◌, ◌^◌, ◌<◌, ◌≤◌, length, take, IfErr, IfOk, IsErr, IsOk, OnErr, OnOk};
ghost use Rattle.std.specs.Prelude.{Ok};
ghost use Rattle.std.specs.Bool.{Decides};
ghost use Rattle.input_output.specs.Account.{IsUnread, kept, reads};
ghost use Rattle.input_output.specs.code.Reading.{HaveAnswered, IsOpenBelow, IsReadingFault};
ghost use Rattle.input_output.specs.code.Reads.{AreCallsIn, HasRead, IsStateAfter};

use crate::fault::ReadFault;
use crate::kept_bytes::KeptBytes;
use crate::traced_reader::{FailedRead, TracedReader};
use std::alloc::{AllocError, Global};
use std::io::Read;

/// The number of bytes at which reading stops: a capture that has as many is refused.
pub const LIMIT: usize = 2_147_483_648;

/// How the reads of a capture went so far.
///
/// It is one state: of three flags two would never be set together, and each clause would have to say of all three what
/// it means of one.
#[derive(Clone, Copy, PartialEq, Eq)]
pub enum ReadState {
    /// Well: each gave bytes.
    Open,
    /// Well, and the last one found the end.
    Ended,
    /// The last one failed.
    Failed,
    /// Memory was wanting, for bytes or for a walk over them.
    LackedMemory,
}

/// A reader of a capture, with an account of what its reads answered.
///
/// A type of reader tells which bytes it will give, if any, and not whether a read failed; for a file or a pipe it
/// tells nothing. The account does: the top of the crate names all that enters it.
#[derive(Drop)]
pub struct CaptureReader<R> {
    source: TracedReader<R>,
    /// The bytes that are kept.
    bytes: KeptBytes,
    /// After these the reads gave so many more, which can change no answer.
    passed: usize,
    state: ReadState,
}

impl<R> CaptureReader<R> {
    /// The account before the first read.
    pub fn new(alloc: Global, reader: R) -> CaptureReader<R>
        ensures reader { result.source.reader ≡ reader }
        ensures unread { IsUnread result }
    {
        CaptureReader {
            source: TracedReader::new(reader),
            bytes: KeptBytes::new(alloc),
            passed: 0,
            state: ReadState::Open,
        }
    }

    /// The bytes that are kept of those that the reads gave.
    pub fn kept(&self) -> &[u8]
        ensures { result.now ≡ kept self.now }
    {
        self.bytes.kept()
    }

    /// The number of bytes that the reads gave after these.
    pub fn passed(&self) -> usize
        ensures { result ≡ self.now.passed }
    {
        self.passed
    }

    /// The reader itself.
    pub fn reader(&self) -> &R
        ensures { result.now ≡ self.now.source.reader }
    {
        self.source.reader()
    }

    /// Whether a read found the end.
    pub fn has_ended(&self) -> bool
        ensures { Decides result (self.now.state ≡ ReadState.Ended) }
    {
        self.state == ReadState::Ended
    }

    /// Whether a read can follow, and fewer bytes than `limit` are kept.
    pub(crate) fn is_open_below(&self, limit: usize) -> bool
        ensures { Decides result ((self.now.state ≡ ReadState.Open) × (length (kept self.now) < limit)) }
    {
        self.state == ReadState::Open && self.bytes.len() < limit
    }

    /// Whether the reads gave 2^31 bytes.
    pub(crate) fn is_full(&self) -> bool
        requires { length (kept self.now) + self.now.passed ≤ 2 ^ 31 }
        ensures { Decides result (2 ^ 31 ≤ length (kept self.now) + self.now.passed) }
    {
        LIMIT <= self.bytes.len() + self.passed
    }

    /// Enters that there was no memory, for bytes or for a walk over them.
    pub fn lack_memory(&mut self)
        ensures { self.new ≡ record self.old { state = ReadState.LackedMemory } }
    {
        self.state = ReadState::LackedMemory;
    }

    /// Enters whether there was memory.
    pub(crate) fn enter_memory(&mut self, had: Result<(), AllocError>) -> Result<(), ReadFault>
        ensures ok { OnOk result (IsOk had × (self.new ≡ self.old)) }
        ensures err { IfErr result (λ e. IsErr had × (e ≡ ReadFault.OutOfMemory)
            × (self.new ≡ record self.old { state = ReadState.LackedMemory })) }
    {
        if had.is_err() {
            self.lack_memory();
            return Err(ReadFault::OutOfMemory);
        }
        Ok(())
    }

    /// Enters what a read answered: that it failed, or how many bytes it gave, where none is the end.
    fn enter_read(&mut self, read: Result<usize, FailedRead>) -> Result<usize, ReadFault>
        requires { self.old.state ≡ ReadState.Open }
        ensures ok { IfOk result (λ n. read ≡ Ok n) }
        ensures state { IfOk result (λ n. IsStateAfter n self.new.state) }
        ensures err { IfErr result (λ e. IfErr read (λ failed. e ≡ ReadFault.Failed failed)) }
        ensures failed { OnErr result (IsErr read × (self.new.state ≡ ReadState.Failed)) }
        ensures same { self.new ≡ record self.old { state = self.new.state } }
    {
        match read {
            Ok(count) => {
                if count == 0 {
                    self.state = ReadState::Ended;
                }
                Ok(count)
            }
            Err(failed) => {
                self.state = ReadState::Failed;
                Err(ReadFault::Failed(failed))
            }
        }
    }
}

impl<R: Read> CaptureReader<R> {
    /// Makes room, reads once, and keeps what that gives, up to `limit` bytes in all. No read comes after one that
    /// failed or found the end.
    pub(crate) fn read_once(&mut self, limit: usize) -> Result<(), ReadFault>
        requires { IsOpenBelow limit self.old }
        ensures { HaveAnswered R.remaining limit self.old.source (kept self.old) self.new result }
    {
        let room = self.bytes.make_room(limit);
        self.enter_memory(room)?;
        let read = self.bytes.read_once(&mut self.source);
        self.enter_read(read).and(Ok(()))
    }

    /// Reads once into the buffer, and keeps nothing of it. No read comes after one that failed or found the end.
    pub(crate) fn pass_once(&mut self, buffer: &mut [u8]) -> Result<usize, ReadFault>
        requires room { 0 < length buffer.old }
        requires limit { length (kept self.old) + self.old.passed < 2 ^ 31 }
        requires state { self.old.state ≡ ReadState.Open }
        requires calls { AreCallsIn ReadState.Open (reads self.old) }
        ensures length { length buffer.new ≡ length buffer.old }
        ensures kept { self.new.bytes ≡ self.old.bytes }
        ensures limit { length (kept self.new) + self.new.passed ≤ 2 ^ 31 }
        ensures count { IfOk result (λ n. self.new.passed ≡ self.old.passed + n) }
        ensures read { IfOk result (λ n. HasRead R.remaining self.old.source self.new.source (take n buffer.new) n) }
        ensures state { IfOk result (λ n. IsStateAfter n self.new.state) }
        ensures calls { AreCallsIn self.new.state (reads self.new) }
        ensures err { IfErr result (λ e. IsReadingFault e self.new) }
    {
        let most = buffer.len().min(LIMIT - self.bytes.len() - self.passed);
        let read = self.source.read(&mut buffer[..most]);
        let count = self.enter_read(read)?;
        self.passed += count;
        Ok(count)
    }
}
