//! A tree in the form that a command names.
ghost use Rattle.std.specs.Prelude.{◌≡◌, IfOk, string_bytes};
ghost use Rattle.app_console.specs.ViewText as text;

use crate::glued::glued_sizes;
use crate::stored_lines::{part_lines, stored_bytes, symbol_lines};
use crate::token_lines::{sibling_lines, token_lines};
use crate::tree_texts::{debug_lines, display_line, pretty_line};
use crate::walk_lines::walk_lines;
use app_language::View;
use std::alloc::{AllocError, Global};
use tt::TopSubtree;

/// Returns the tree in that form.
pub(crate) fn view_text(alloc: Global, view: View, tree: &TopSubtree) -> Result<String, AllocError>
    ensures { IfOk result (λ written. string_bytes written ≡ text.view_text view tree.now) }
{
    match view {
        View::Show => display_line(alloc, tree.as_token_trees()),
        View::Pretty => pretty_line(alloc, tree.as_token_trees()),
        View::Debug => debug_lines(alloc, tree.as_token_trees()),
        View::Flat => token_lines(alloc, tree.as_token_trees()),
        View::Siblings => sibling_lines(alloc, tree.iter()),
        View::Walk => walk_lines(alloc, tree.as_token_trees()),
        View::Glue => glued_sizes(alloc, tree.iter()),
        View::Bytes => stored_bytes(alloc, tree),
        View::Parts => part_lines(alloc, tree),
        View::Symbols => symbol_lines(alloc, tree),
    }
}
