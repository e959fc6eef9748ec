//! The time of rounds.
use std::time::Duration;

/// Returns the nanoseconds of processor time of one of `rounds` rounds. Waiting for a processor does not count.
pub fn nanos_of_round(begun: Duration, ended: Duration, rounds: u32) -> u128 {
    ended.saturating_sub(begun).as_nanos() / rounds.max(1) as u128
}
