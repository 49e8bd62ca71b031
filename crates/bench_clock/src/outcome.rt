//! What a run comes to: how long its timed part took, and a number for what it left.

use std::time::CpuClock;

/// What comes out of a run, each time the same.
#[derive(Clone, Copy, Debug, Drop, PartialEq, Eq)]
pub struct Outcome {
    /// How many units were timed together.
    pub units: u64,
    /// What was made, in a number.
    pub checksum: u64,
}

/// A checksum with one number more.
pub fn mix(sum: u64, number: u64) -> u64 {
    sum.wrapping_mul(31).wrapping_add(number)
}

/// A stopwatch: it adds the processor time of the thread from each start to the next stop.
#[derive(Drop)]
pub struct Stopwatch<'a, C> {
    clock: &'a C,
    started: Option<u64>,
    nanos: Option<u64>,
}

impl<'a, C: CpuClock> Stopwatch<'a, C> {
    /// A stopwatch that shows no time.
    pub fn new(clock: &'a C) -> Self {
        Stopwatch {
            clock,
            started: None,
            nanos: Some(0),
        }
    }

    /// Begins to measure.
    pub fn start(&mut self) {
        self.started = self.read();
    }

    /// Adds the time since the start.
    pub fn stop(&mut self) {
        let passed = since(self.started, self.read());
        self.nanos = sum(self.nanos, passed);
    }

    /// The nanoseconds that were measured, where the clock could be read each time.
    pub fn nanos(&self) -> Option<u64> {
        self.nanos
    }

    // The nanoseconds of the thread so far.
    fn read(&self) -> Option<u64> {
        let time = self.clock.thread_cpu_time().ok()?;
        u64::try_from(time.as_nanos()).ok()
    }
}

// The time from a start to an end.
fn since(start: Option<u64>, end: Option<u64>) -> Option<u64> {
    Some(end?.saturating_sub(start?))
}

// Two times together.
fn sum(one: Option<u64>, other: Option<u64>) -> Option<u64> {
    Some(one?.saturating_add(other?))
}
