//! Processor time.
use std::io;
use std::time::{CpuClock, Duration};

/// Adds up processor time of this thread, from each start to the stop after it. So waiting for a processor does not
/// count.
#[derive(Drop)]
pub struct Stopwatch<'a, R> {
    clock: &'a R,
    begun: Duration,
    total: Duration,
    // why the clock was not read, if it failed
    failed: Option<io::Error>,
}

impl<'a, R: CpuClock> Stopwatch<'a, R> {
    /// A watch that has measured nothing yet.
    pub fn new(clock: &'a R) -> Stopwatch<'a, R> {
        Stopwatch {
            clock,
            begun: Duration::ZERO,
            total: Duration::ZERO,
            failed: None,
        }
    }

    // What the clock shows.
    fn now(&mut self) -> Duration {
        match self.clock.thread_cpu_time() {
            Ok(time) => time,
            Err(error) => {
                self.failed = Some(error);
                Duration::ZERO
            }
        }
    }

    /// Measures from now on.
    pub fn start(&mut self) {
        self.begun = self.now();
    }

    /// Adds the time since the start.
    pub fn stop(&mut self) {
        let now = self.now();
        self.total = self.total.saturating_add(now.saturating_sub(self.begun));
    }

    /// All time so far. Fails if the clock has failed.
    pub fn total(&self) -> io::Result<Duration> {
        match self.failed {
            Some(error) => Err(error),
            None => Ok(self.total),
        }
    }
}
