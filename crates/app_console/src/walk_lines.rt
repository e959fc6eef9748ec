//! The places of a walk, one per line.
ghost use Rattle.std.specs.Prelude.{◌≡◌, ◌++◌, IfOk, OnOk, string_bytes};
ghost use Rattle.tt.specs.Views.{trees_of};
ghost use Rattle.tt.specs.Walk.{walk};
ghost use Rattle.app_console.specs.Answer.{line};
ghost use Rattle.app_console.specs.ViewText.{listed, event_words, here_words};

use crate::token_lines::write_line;
use std::alloc::{AllocError, Global};
use tt::{TokenTree, TokenTreesView};

// Adds the line of what is here: a token, or else the end of a subtree.
fn write_here(text: &mut String, here: Option<TokenTree>) -> Result<(), AllocError>
    ensures { OnOk result (string_bytes text.new ≡ string_bytes text.old ++ line (here_words here)) }
{
    match here {
        Some(token) => write_line(text, token),
        None => text.push_str("close\n"),
    }
}

/// Returns the places of the walk through the trees, as a cursor comes to them: a header
/// when a subtree is entered, and `close` when it is left.
pub(crate) fn walk_lines(alloc: Global, trees: TokenTreesView<'_>) -> Result<String, AllocError>
    ensures { IfOk result (λ text. string_bytes text ≡ listed event_words (walk (trees_of trees.entry))) }
{
    let mut text = String::new(alloc);
    let mut cursor = trees.cursor(alloc);
    while !cursor.eof() {
        write_here(&mut text, cursor.token_tree())?;
        if cursor.bump_or_end().is_err() {
            return Err(AllocError);
        }
    }
    text.push_str("end\n")?;
    Ok(text)
}
