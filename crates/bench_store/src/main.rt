//! Times the calls of `tt`, and an expansion by `mbe_rule`, on one tree or on many in turn:
//! `bench_store MODE ROUNDS [apart] < ITEMS`.
//!
//! Standard input spells the flat lists of the trees one after another, as `item` lines (docs/CONSOLE.md). The first line
//! of each list is its top, whose count says how many lines belong to it. Each round works on the next tree, and after the
//! last one on the first again. The line that is printed has the nanoseconds of all rounds, a sum to know the answers by,
//! and how many bytes, span parts and symbols are stored for all trees together.
#![tactic(auto)]

mod building;
mod error;
mod expansion;
mod interner;
mod items;
mod job;
mod lists;
mod look;
mod measure;
mod mode;
mod pieces;
mod stopwatch;
mod texts;
mod turns;
mod twins;
mod walk;

use crate::error::BenchError;
use crate::job::Job;
use crate::measure::measure;
use std::alloc::Global;
use std::io::Read;
use std::process::ExitCode;
use std::rt::Env;
use std::time::CpuClock;

fn main(rt: HostRuntime) -> ExitCode {
    match run(&rt) {
        Ok(()) => ExitCode::SUCCESS,
        Err(error) => {
            let _ = eprintln!(rt; "bench_store: {error}");
            ExitCode::FAILURE
        }
    }
}

// Does the job that the arguments describe.
fn run<R: Env + Input + Print + CpuClock + AllocGlobal>(rt: &R) -> Result<(), BenchError> {
    let job = Job::from_args(rt)?;
    let text = all_input(rt.alloc(), rt)?;
    let measured = measure(rt, job, text.as_slice())?;
    println!(rt; "{measured}")?;
    Ok(())
}

// All of standard input.
fn all_input<R: Input>(alloc: Global, rt: &R) -> Result<Vec<u8>, BenchError> {
    let mut text = Vec::new(alloc);
    rt.reader().read_to_end(&mut text)?;
    Ok(text)
}
