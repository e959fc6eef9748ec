//! Calls that are made when memory may be refused, and what the program says of them.
use crate::groups::say;
use tt::TtFault;

/// When something is looked at.
#[derive(Clone, Copy)]
pub enum When {
    /// Behind a call that was refused, which has to leave all as it was in front of it.
    Refused,
    /// Behind a call that succeeded.
    Done,
}

/// A call, with what it is given.
pub trait Call {
    /// Makes the call. Whether its result is right; `Ok(false)` also if it hands back something else than its argument.
    fn make(&mut self) -> Result<bool, TtFault>;

    /// Whether all is as the call has to leave it.
    fn is_left(&self, when: When) -> Result<bool, TtFault>;
}

/// Makes the call between two lines that are printed, and once more behind them if it was refused. What is said of it: it
/// did what it has to, or is `WRONG`.
pub fn judge<R: Print, C: Call>(rt: &R, call: &mut C) -> &'static str {
    if !say(rt, "prepared") {
        return "WRONG: not printed";
    }
    let answer = call.make();
    if !say(rt, "answered") {
        return "WRONG: not printed";
    }
    match answer {
        Ok(right) => done(call, right, "done"),
        Err(TtFault::Memory) => made_again(call),
        Err(_) => "WRONG: another fault than Memory",
    }
}

// That the call is done, if all is as it has to be.
fn done<C: Call>(call: &C, right: bool, said: &'static str) -> &'static str {
    if !right {
        return "WRONG: what was given or handed back";
    }
    match call.is_left(When::Done) {
        Ok(true) => said,
        Ok(false) => "WRONG: what was changed",
        Err(_) => "WRONG: not compared",
    }
}

// The call was refused.
fn made_again<C: Call>(call: &mut C) -> &'static str {
    match call.is_left(When::Refused) {
        Ok(true) => {}
        Ok(false) => return "WRONG: what was left behind a refusal",
        Err(_) => return "WRONG: not compared",
    }
    match call.make() {
        Ok(right) => done(call, right, "refused, and done again"),
        Err(_) => "WRONG: refused again",
    }
}
