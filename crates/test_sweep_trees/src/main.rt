//! Makes one call that makes or reads tokens, lists or trees, and says how it ended: `test_sweep_trees GROUP CALL`.
//!
//! Four lines are printed: `begun`, and then what the call is given is made; `prepared`, and then the call is made;
//! `answered`, and then its answer is looked at; and how it ended, once all is let go. The requests for memory between the
//! second line and the third are those of the call. Where one of them is refused, the call has to leave all as it was, hand
//! back what it was given, and succeed when it is made again.
#![tactic(auto)]

mod counted;
mod counts;
mod faulty;
mod levels;
mod lists;
mod made;
mod pieces;
mod prepared;
mod quiet;
mod quiet_stored;
mod quiet_tokens;
mod quiet_views;
mod texts;

use std::process::ExitCode;
use test_sweep::{Groups, run};
use tt::TtFault;

fn main(rt: HostRuntime) -> ExitCode {
    run::<TreeGroups, _>(&rt)
}

// The groups of calls that are made here.
struct TreeGroups;

impl Groups for TreeGroups {
    fn judged<R: Print + AllocGlobal>(
        rt: &R,
        group: &str,
        call: &str,
    ) -> Result<&'static str, TtFault> {
        match group {
            "made" | "quiet" => prepared::judged(rt, rt.alloc(), group, call),
            "lists" => lists::judged(rt, rt.alloc(), call),
            "counted" => counted::judged(rt, rt.alloc(), call),
            "pieces" => pieces::judged(rt, rt.alloc(), call),
            "texts" => texts::judged(rt, rt.alloc(), call),
            "levels" => levels::judged(rt, rt.alloc()),
            "faulty" => faulty::judged(rt, rt.alloc(), call),
            _ => Err(TtFault::NoSuchPlace),
        }
    }
}
