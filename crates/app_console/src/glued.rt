//! The number of puncts that each call takes as one, one call after another.
ghost use Rattle.std.specs.Prelude.{◌≡◌, ◌++◌, IfOk, OnOk, codes, length, option_map, string_bytes};
ghost use Rattle.std.specs.List.{flat_map};
ghost use Rattle.tt.specs.Gluing.{glued, after_trees, passed_by};
ghost use Rattle.tt.specs.Gluing as gluing;
ghost use Rattle.tt.specs.Iters.{rest_of};
ghost use Rattle.app_console.specs.Answer.{line};
ghost use Rattle.app_console.specs.ViewText.{glued_size};

use std::alloc::{AllocError, Global};
use tt::TtIter;

// Passes the puncts that come as one here, and returns how many they are. If the next element is no punct, passes it and returns `None`.
fn next_size(siblings: &mut TtIter<'_>) -> Option<usize>
    ensures answer { result ≡ option_map length (glued (rest_of siblings.old)) }
    ensures rest { rest_of siblings.new ≡ after_trees (passed_by (glued (rest_of siblings.old))) (rest_of siblings.old) }
{
    match siblings.expect_glued_punct() {
        Ok(puncts) => Some(puncts.len()),
        Err(()) => None,
    }
}

// Adds a space and the size, or `x` if there is no punct.
fn write_size(text: &mut String, size: Option<usize>) -> Result<(), AllocError>
    ensures { OnOk result (string_bytes text.new ≡ string_bytes text.old ++ glued_size size) }
{
    match size {
        Some(size) => write!(text, " {size}"),
        None => text.push_str(" x"),
    }
}

/// Returns how many puncts each call takes, until no sibling is left.
pub(crate) fn glued_sizes(alloc: Global, siblings: TtIter<'_>) -> Result<String, AllocError>
    ensures { IfOk result (λ text. string_bytes text ≡ line (codes "glue" ++ flat_map glued_size (gluing.glued_sizes (rest_of siblings.entry)))) }
{
    let mut text = String::from_str(alloc, "glue")?;
    let mut siblings = siblings;
    while !siblings.is_empty() {
        write_size(&mut text, next_size(&mut siblings))?;
    }
    text.push_str("\n")?;
    Ok(text)
}
