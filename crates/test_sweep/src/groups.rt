//! The call that the arguments of a program name.
use std::env;
use std::process::ExitCode;
use std::rt::Env;
use tt::TtFault;

/// The groups of calls that a program makes.
pub trait Groups {
    /// How the call of that group ended. `NoSuchPlace` if there is none.
    fn judged<R: Print + AllocGlobal>(
        rt: &R,
        group: &str,
        call: &str,
    ) -> Result<&'static str, TtFault>;
}

/// Makes the call that the arguments `GROUP CALL` name. A line is printed before anything is made for it, and one that says
/// how it ended once all is let go.
pub fn run<G: Groups, R: Env + Print + Eprint + AllocGlobal>(rt: &R) -> ExitCode {
    if is_judged::<G, R>(rt) {
        return ExitCode::SUCCESS;
    }
    let _ = eprintln!(rt; "usage: GROUP CALL, with memory for what the call is given");
    ExitCode::FAILURE
}

// Whether there was a call to make.
fn is_judged<G: Groups, R: Env + Print + Eprint + AllocGlobal>(rt: &R) -> bool {
    let Ok(mut args) = env::args(rt) else {
        return false;
    };
    let _program = args.next();
    let (Some(group), Some(call)) = (args.next(), args.next()) else {
        return false;
    };
    if !say(rt, "begun") {
        return false;
    }
    match G::judged(rt, group.as_str(), call.as_str()) {
        Ok(said) => say(rt, said),
        Err(_) => false,
    }
}

/// Prints a line. Whether that succeeds.
pub fn say<R: Print>(rt: &R, line: &str) -> bool {
    println!(rt; "{line}").is_ok()
}
