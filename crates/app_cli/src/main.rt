//! The program `cuvolemin`, for people who write Rust: it expands the macros of a text, reports its errors, writes its tokens,
//! its tree or its derivation, writes files anew, and writes a tree as one piece of bytes.
#![tactic(auto)]

mod arguments;
mod cfg_options;
mod changing;
mod counts;
mod definitions;
mod diagnostics;
mod dropping;
mod expanding;
mod follow;
mod messages;
mod note;
mod options;
mod packing;
mod program;
mod report;
mod templates;
mod trail;
mod warnings;

use std::process::ExitCode;

fn main(rt: HostRuntime) -> ExitCode {
    match program::run(&rt) {
        Ok(status) => status,
        Err(failure) => failure.report(&rt),
    }
}
