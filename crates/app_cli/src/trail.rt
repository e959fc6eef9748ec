//! The calls that wrote the place of a finding.
ghost use Rattle.std.specs.Prelude.{◌≡◌, map, IfOk, option_copied};
ghost use Rattle.app_cli.specs.Notes.{caller_at, trail};

use expand_text::Caller;
use std::alloc::{AllocError, Global};

// Returns the caller of that number, if there is one.
fn caller_at(callers: &[Caller], number: Option<usize>) -> Option<&Caller>
    ensures { option_copied result ≡ caller_at callers.now number }
{
    callers.get(number?)
}

/// Returns the caller of that number, the one that wrote it, and so on: the innermost first.
pub fn trail_of(
    alloc: Global,
    callers: &[Caller],
    number: Option<usize>,
) -> Result<Vec<&Caller>, AllocError>
    ensures { IfOk result (λ its. map (λ it. it.now) its.items ≡ trail callers.now number) }
{
    let mut its = Vec::new(alloc);
    let mut next = number;
    for _ in 0..callers.len() {
        let Some(it) = caller_at(callers, next) else {
            return Ok(its);
        };
        its.push(it)?;
        next = it.caller;
    }
    Ok(its)
}
