//! The job that the arguments name.
use crate::error::BenchError;
use crate::fragments::{self, fragment_named};
use crate::{macros, trees};
use mbe_pattern::GrammarFragment;
use std::env;
use std::rt::Env;

/// A job: a subject, and what to time and the number of rounds, or nothing to show it.
#[derive(Clone, Copy)]
pub enum Job {
    Tokens(Option<u32>),
    Trees(Option<(trees::Timing, u32)>),
    Macros(Option<(macros::Timing, u32)>),
    Fragments(GrammarFragment, Option<(fragments::Timing, u32)>),
}

// Returns a number of rounds.
fn rounds_of(word: Option<&str>) -> Result<u32, BenchError> {
    word.ok_or(BenchError::Usage)?
        .parse()
        .map_err(|_error| BenchError::Usage)
}

// Returns the job on tokens, by its mode and its number of rounds.
fn tokens_job(mode: &str, rounds: Option<&str>) -> Result<Job, BenchError> {
    match (mode, rounds) {
        ("show", None) => Ok(Job::Tokens(None)),
        ("time", rounds) => Ok(Job::Tokens(Some(rounds_of(rounds)?))),
        _ => Err(BenchError::Usage),
    }
}

// Returns the job on trees.
fn trees_job(mode: &str, rounds: Option<&str>) -> Result<Job, BenchError> {
    if let ("show", None) = (mode, rounds) {
        return Ok(Job::Trees(None));
    }
    let timing = trees::Timing::named(mode).ok_or(BenchError::Usage)?;
    Ok(Job::Trees(Some((timing, rounds_of(rounds)?))))
}

// Returns the job on a macro.
fn macros_job(mode: &str, rounds: Option<&str>) -> Result<Job, BenchError> {
    if let ("show", None) = (mode, rounds) {
        return Ok(Job::Macros(None));
    }
    let timing = macros::Timing::named(mode).ok_or(BenchError::Usage)?;
    Ok(Job::Macros(Some((timing, rounds_of(rounds)?))))
}

// Returns the job on fragments, by its mode, the name of the fragment and its number of rounds.
fn fragments_job(
    mode: &str,
    fragment: Option<&str>,
    rounds: Option<&str>,
) -> Result<Job, BenchError> {
    let name = fragment.ok_or(BenchError::Usage)?;
    let fragment = fragment_named(name).ok_or(BenchError::Usage)?;
    if let ("show", None) = (mode, rounds) {
        return Ok(Job::Fragments(fragment, None));
    }
    let timing = fragments::Timing::named(mode).ok_or(BenchError::Usage)?;
    Ok(Job::Fragments(fragment, Some((timing, rounds_of(rounds)?))))
}

impl Job {
    /// Returns the job that the arguments name; `Usage` if they name none.
    pub fn from_args<R: Env + AllocGlobal>(rt: &R) -> Result<Job, BenchError> {
        let mut args = env::args(rt)?;
        let _program = args.next();
        let subject = args.next().ok_or(BenchError::Usage)?;
        let mode = args.next().ok_or(BenchError::Usage)?;
        let third = args.next();
        let fourth = args.next();
        if args.next().is_some() {
            return Err(BenchError::Usage);
        }
        let third = third.as_ref().map(|word| word.as_str());
        let fourth = fourth.as_ref().map(|word| word.as_str());
        match (subject.as_str(), fourth) {
            ("tokens", None) => tokens_job(mode.as_str(), third),
            ("trees", None) => trees_job(mode.as_str(), third),
            ("macros", None) => macros_job(mode.as_str(), third),
            ("fragments", rounds) => fragments_job(mode.as_str(), third, rounds),
            _ => Err(BenchError::Usage),
        }
    }
}
