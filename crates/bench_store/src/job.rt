//! The job that the arguments describe.
use crate::error::BenchError;
use crate::items::Texts;
use crate::mode::Mode;
use std::env;
use std::rt::Env;

/// The job that the arguments describe.
#[derive(Clone, Copy)]
pub struct Job {
    pub mode: Mode,
    pub rounds: u32,
    pub texts: Texts,
}

impl Job {
    /// The job of the arguments `MODE ROUNDS [apart]`. `Usage` if they are something else.
    pub fn from_args<R: Env + AllocGlobal>(rt: &R) -> Result<Job, BenchError> {
        let mut args = env::args(rt)?;
        let _program = args.next();
        let mode = args.next().ok_or(BenchError::Usage)?;
        let rounds = args.next().ok_or(BenchError::Usage)?;
        let texts = match args.next() {
            None => Texts::Shared,
            Some(word) => word.as_str().parse()?,
        };
        if args.next().is_some() {
            return Err(BenchError::Usage);
        }
        Ok(Job {
            mode: mode.as_str().parse()?,
            rounds: rounds.as_str().parse().map_err(|_error| BenchError::Usage)?,
            texts,
        })
    }
}
