//! A reader and a writer that go in small steps, fail once where they are told to, and count their calls; a gate that
//! counts jobs, and holds some; a system that gives no random bytes.

use std::alloc::Global;
use std::io;
use std::io::{ErrorKind, Read, Write};
use std::random::RandomSource;
use std::sync::atomic::{AtomicU32, Ordering};
use std::thread::yield_now;
use stop_desk::Gate;

/// Gives its bytes in steps. One read says that it was interrupted; the next would go on.
#[derive(Drop)]
pub struct Pieces<'a> {
    pub left: &'a [u8],
    step: usize,
    /// The number of the read that fails, counted from 1; 0 for none.
    interrupted_at: u32,
    pub reads: u32,
    has_ended: bool,
    pub reads_past_end: u32,
}

impl<'a> Pieces<'a> {
    /// A reader of these bytes.
    pub fn of(bytes: &'a [u8], step: usize, interrupted_at: u32) -> Pieces<'a> {
        Pieces {
            left: bytes,
            step,
            interrupted_at,
            reads: 0,
            has_ended: false,
            reads_past_end: 0,
        }
    }
}

impl Read for Pieces<'_> {
    fn read(&mut self, buf: &mut [u8]) -> io::Result<usize> {
        self.reads = self.reads.saturating_add(1);
        if self.has_ended {
            self.reads_past_end = self.reads_past_end.saturating_add(1);
        }
        if self.reads == self.interrupted_at {
            return Err(io::Error::from(ErrorKind::Interrupted));
        }
        let count = buf.len().min(self.step).min(self.left.len());
        buf[..count].copy_from_slice(&self.left[..count]);
        self.left = &self.left[count..];
        self.has_ended = count == 0;
        Ok(count)
    }
}

/// How a writer fails, at the write of this number, counted from 1; the next would go on.
#[derive(Clone, Copy)]
pub enum Failure {
    Never,
    /// It says that it was interrupted.
    Interrupted(u32),
    /// It takes no byte.
    TakesNone(u32),
    /// It takes all, and fails as it is flushed.
    Flush,
}

/// Takes bytes in steps, and may fail.
#[derive(Drop)]
pub struct Slow {
    pub taken: Vec<u8>,
    step: usize,
    failure: Failure,
    pub writes: u32,
    pub flushes: u32,
    /// How many bytes there are to write in all, and how many writes were not offered all that was left of them.
    whole: usize,
    pub short_offers: u32,
}

impl Slow {
    /// A writer of a text of this length.
    pub fn new(alloc: Global, step: usize, whole: usize, failure: Failure) -> Slow {
        Slow {
            taken: Vec::new(alloc),
            step,
            failure,
            writes: 0,
            flushes: 0,
            whole,
            short_offers: 0,
        }
    }
}

impl Write for Slow {
    fn write(&mut self, buf: &[u8]) -> io::Result<usize> {
        self.writes = self.writes.saturating_add(1);
        if buf.len() != self.whole.saturating_sub(self.taken.len()) {
            self.short_offers = self.short_offers.saturating_add(1);
        }
        match self.failure {
            Failure::Interrupted(at) if at == self.writes => {
                return Err(io::Error::from(ErrorKind::Interrupted));
            }
            Failure::TakesNone(at) if at == self.writes => return Ok(0),
            _ => {}
        }
        let count = buf.len().min(self.step);
        self.taken.extend_from_slice(&buf[..count])?;
        Ok(count)
    }

    fn flush(&mut self) -> io::Result<()> {
        self.flushes = self.flushes.saturating_add(1);
        match self.failure {
            Failure::Flush => Err(io::Error::from(ErrorKind::StorageFull)),
            _ => Ok(()),
        }
    }
}

/// Counts the jobs of each round. In some rounds it holds job 0 until another one is entered, for so many turns at
/// most.
#[derive(Drop)]
pub struct TestGate {
    /// How many jobs of each round were entered, by its number.
    jobs: [AtomicU32; 4],
    /// A bit for each round that is held, by its number.
    held: u32,
    /// How often a job was let go though no other was entered.
    given_up: AtomicU32,
}

const TURNS: u32 = 10_000_000;

impl TestGate {
    /// A gate that holds these rounds.
    pub fn holding(held: u32) -> TestGate {
        let none = AtomicU32::new(0);
        TestGate {
            jobs: [
                AtomicU32::new(0),
                AtomicU32::new(0),
                AtomicU32::new(0),
                none,
            ],
            held,
            given_up: AtomicU32::new(0),
        }
    }

    /// How many jobs each round had, where each that was held met another one.
    pub fn counts(&self) -> Option<[u32; 4]> {
        if self.given_up.load(Ordering::SeqCst) > 0 {
            return None;
        }
        let [flows, streams, sums, blocks] = &self.jobs;
        Some([
            flows.load(Ordering::SeqCst),
            streams.load(Ordering::SeqCst),
            sums.load(Ordering::SeqCst),
            blocks.load(Ordering::SeqCst),
        ])
    }
}

/// Whether a job that waits is joined by another one of its round.
fn meets_another(jobs: &AtomicU32) -> bool {
    for _ in 0..TURNS {
        if jobs.load(Ordering::SeqCst) > 1 {
            return true;
        }
        yield_now();
    }
    false
}

impl Gate for TestGate {
    fn enter(&self, round: u8, job: u32) {
        let Some(jobs) = self.jobs.get(usize::from(round)) else {
            return;
        };
        jobs.fetch_add(1, Ordering::SeqCst);
        let is_held = job == 0 && self.held & (1 << (round & 3)) > 0;
        if is_held && !meets_another(jobs) {
            self.given_up.fetch_add(1, Ordering::SeqCst);
        }
    }
}

/// A system that gives no random bytes.
#[derive(Drop)]
pub struct NoBytes;

impl RandomSource for NoBytes {
    fn fill_bytes(&self, _buf: &mut [u8]) -> io::Result<()> {
        Err(io::Error::from(io::ErrorKind::Unsupported))
    }
}
