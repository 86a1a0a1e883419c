ghost use Rattle.std.specs.Prelude.{◌≡◌, ◌<◌};

use crate::gate::Gate;
use std::alloc::Global;
use std::thread::Threads;

/// Those who work on rounds: how many they are, what starts their threads, their memory, and the gate that each passes
/// before each of its jobs.
#[derive(Drop)]
pub struct Team<'a, R: Threads + Sync, G: Gate> {
    pub rt: &'a R,
    pub alloc: Global,
    /// How many threads work at once, 1 at least.
    pub workers: u32,
    pub gate: &'a G,
    pub ghost some_workers: { 0 < workers },
}

impl<'a, R: Threads + Sync, G: Gate> Team<'a, R, G> {
    /// The same team, with so many workers.
    pub fn with_workers(&self, workers: u32) -> Team<'a, R, G>
        requires { 0 < workers }
        ensures workers { result.workers ≡ workers }
        ensures rt { result.rt ≡ self.now.rt }
        ensures alloc { result.alloc ≡ self.now.alloc }
        ensures gate { result.gate ≡ self.now.gate }
    {
        Team {
            rt: self.rt,
            alloc: self.alloc,
            workers,
            gate: self.gate,
        }
    }
}
