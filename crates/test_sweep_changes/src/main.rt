//! Makes one call that changes a tree, a cursor or a builder, or one of a macro's rule, and says how it ended:
//! `test_sweep_changes GROUP CALL`. What it prints is what `test_sweep_trees` does.
#![tactic(auto)]

mod alike;
mod builders;
mod builds;
mod edits;
mod grown;
mod macros;
mod quiet;
mod rules;
mod walks;

use std::process::ExitCode;
use test_sweep::{Groups, run};
use tt::TtFault;

fn main(rt: HostRuntime) -> ExitCode {
    run::<ChangeGroups, _>(&rt)
}

// The groups of calls that are made here.
struct ChangeGroups;

impl Groups for ChangeGroups {
    fn judged<R: Print + AllocGlobal>(
        rt: &R,
        group: &str,
        call: &str,
    ) -> Result<&'static str, TtFault> {
        match group {
            "edits" => edits::judged(rt, rt.alloc(), call),
            "walks" => walks::judged(rt, rt.alloc(), call),
            "builders" => builders::judged(rt, rt.alloc(), call),
            "builds" => builds::judged(rt, rt.alloc(), call),
            "macros" => macros::judged(rt, rt.alloc(), call),
            "rules" => rules::judged(rt, rt.alloc(), call),
            "quiet" => quiet::judged(rt, rt.alloc(), call),
            _ => Err(TtFault::NoSuchPlace),
        }
    }
}
