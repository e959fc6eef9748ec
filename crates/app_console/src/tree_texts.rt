//! A tree as one text.
ghost use Rattle.std.specs.Prelude.{◌≡◌, ◌++◌, IfOk, IsOkAnd, codes, string_bytes};
ghost use Rattle.tt.specs.DebugText.{debug};
ghost use Rattle.tt.specs.TreeText as text;
ghost use Rattle.tt.specs.Views.{trees_of};
ghost use Rattle.app_console.specs.Answer.{line};

use std::alloc::{AllocError, Global};
use tt::{TokenTreesView, TtFault, debug_text, display_text, pretty};

// Returns the text, with its ending.
fn ended(text: Result<String, TtFault>, end: &str) -> Result<String, AllocError>
    ensures { IfOk result (λ whole. IsOkAnd text (λ given. string_bytes whole ≡ string_bytes given ++ end.now)) }
{
    let Ok(mut text) = text else {
        return Err(AllocError);
    };
    text.push_str(end)?;
    Ok(text)
}

/// Returns a text on one line.
pub(crate) fn line_of(text: String) -> Result<String, AllocError>
    ensures { IfOk result (λ whole. string_bytes whole ≡ line (string_bytes text)) }
{
    let mut whole = text;
    whole.push_str("\n")?;
    Ok(whole)
}

/// Returns the Display text, on one line.
pub(crate) fn display_line(alloc: Global, trees: TokenTreesView<'_>) -> Result<String, AllocError>
    ensures { IfOk result (λ whole. string_bytes whole ≡ line (text.display (trees_of trees.entry))) }
{
    ended(display_text(alloc, trees), "\n")
}

/// Returns the `pretty` text, on one line.
pub(crate) fn pretty_line(alloc: Global, trees: TokenTreesView<'_>) -> Result<String, AllocError>
    ensures { IfOk result (λ whole. string_bytes whole ≡ line (text.pretty (trees_of trees.entry))) }
{
    ended(pretty(alloc, trees), "\n")
}

/// Returns the Debug text, and then a line `end`.
pub(crate) fn debug_lines(alloc: Global, trees: TokenTreesView<'_>) -> Result<String, AllocError>
    ensures { IfOk result (λ whole. string_bytes whole ≡ line (debug (trees_of trees.entry)) ++ line (codes "end")) }
{
    ended(debug_text(alloc, trees), "\nend\n")
}
