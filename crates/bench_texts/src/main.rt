//! Does one thing with the text on standard input, many times to measure it or once to show what it makes.
//!
//! `bench_texts SUBJECT MODE < TEXT`, and the subjects with their modes are:
//! - `tokens time ROUNDS|show`: the tokens of a text
//! - `trees time|write|display|parse ROUNDS` and `trees show`: its tree, which is read, written as Rust text or as Display does, or parsed as
//!   a file
//! - `macros new|expand ROUNDS` and `macros show`: the arms of a macro and an input, with the character U+0001 between them
//! - `fragments read|reach FRAGMENT ROUNDS` and `fragments show FRAGMENT`: fragments of Rust's grammar, one after the other
//!
//! A mode with ROUNDS prints one line: the nanoseconds of processor time that a round takes, and the sizes that the subject's module names.
#![tactic(auto)]

mod error;
mod fragments;
mod job;
mod macros;
mod reading;
mod rounds;
mod tokens;
mod trees;

use crate::error::BenchError;
use crate::job::Job;
use std::io::Read;
use std::process::ExitCode;

fn main(rt: HostRuntime) -> ExitCode {
    match run(&rt) {
        Ok(()) => ExitCode::SUCCESS,
        Err(error) => {
            let _ = eprintln!(rt; "bench_texts: {error}");
            ExitCode::FAILURE
        }
    }
}

// Does the job that the arguments name.
fn run(rt: &HostRuntime) -> Result<(), BenchError> {
    let job = Job::from_args(rt)?;
    let mut text = String::new(rt.alloc());
    rt.stdin().read_to_string(&mut text)?;
    match job {
        Job::Tokens(job) => tokens::run(rt, text.as_str(), job),
        Job::Trees(job) => trees::run(rt, text.as_str(), job),
        Job::Macros(job) => macros::run(rt, text.as_str(), job),
        Job::Fragments(fragment, job) => fragments::run(rt, text.as_str(), fragment, job),
    }
}
