//! Tokens, one per line.
ghost use Rattle.std.specs.Prelude.{◌≡◌, ◌++◌, IfOk, OnOk, string_bytes};
ghost use Rattle.tt.specs.Forest.{flat};
ghost use Rattle.tt.specs.Iters.{rest_of};
ghost use Rattle.tt.specs.Views.{trees_of};
ghost use Rattle.app_language.specs.Token.{token_words};
ghost use Rattle.app_console.specs.Answer.{line};
ghost use Rattle.app_console.specs.ViewText.{listed};

use app_language::Spelled;
use std::alloc::{AllocError, Global};
use tt::{TokenTree, TokenTreesView, TtElement, TtIter};

/// Adds the line of the token.
pub(crate) fn write_line(text: &mut String, token: TokenTree) -> Result<(), AllocError>
    ensures { OnOk result (string_bytes text.new ≡ string_bytes text.old ++ line (token_words token)) }
{
    writeln!(text, "{}", Spelled(&token))
}

/// Returns the tokens of the trees, as the flat iterator yields them.
pub(crate) fn token_lines(alloc: Global, trees: TokenTreesView<'_>) -> Result<String, AllocError>
    ensures { IfOk result (λ text. string_bytes text ≡ listed token_words (flat (trees_of trees.entry))) }
{
    let mut text = String::new(alloc);
    for token in trees.iter_flat_tokens() {
        write_line(&mut text, token)?;
    }
    text.push_str("end\n")?;
    Ok(text)
}

/// Returns the tokens of the trees, as the sibling iterator yields them: each subtree is entered right after its header.
pub(crate) fn sibling_lines(alloc: Global, siblings: TtIter<'_>) -> Result<String, AllocError>
    ensures { IfOk result (λ text. string_bytes text ≡ listed token_words (flat (rest_of siblings.entry))) }
{
    let mut text = String::new(alloc);
    // the rest of each open subtree, the innermost last
    let mut levels = Vec::new(alloc);
    levels.push(siblings)?;
    while let Some(mut level) = levels.pop() {
        match level.next() {
            None => {}
            Some(TtElement::Leaf(leaf)) => {
                levels.push(level)?;
                write_line(&mut text, TokenTree::Leaf(leaf))?;
            }
            Some(TtElement::Subtree(subtree, children)) => {
                levels.push(level)?;
                levels.push(children)?;
                write_line(&mut text, TokenTree::Subtree(subtree))?;
            }
        }
    }
    text.push_str("end\n")?;
    Ok(text)
}
