//! The number of tokens between puncts of one character.
ghost use Rattle.std.specs.Prelude.{◌≡◌, IfOk, string_bytes};
ghost use Rattle.tt.specs.Iters.{tree_of};
ghost use Rattle.app_console.specs.Pieces.{is_punct};
ghost use Rattle.app_console.specs.ViewText.{split_text};

use std::alloc::{AllocError, Global};
use tt::{Leaf, TopSubtree, TtElement};

/// Returns how many tokens each piece between puncts of that character has, below the top.
pub(crate) fn piece_sizes(
    alloc: Global,
    tree: &TopSubtree,
    char: char,
) -> Result<String, AllocError>
    ensures { IfOk result (λ text. string_bytes text ≡ split_text char tree.now) }
{
    let mut text = String::from_str(alloc, "split")?;
    let pieces = tree.token_trees().split(
        move |element|
            ensures { result ≡ is_punct char (tree_of element.entry) }
        {
            match element {
                TtElement::Leaf(Leaf::Punct(punct)) => punct.char == char,
                _ => false,
            }
        },
    );
    for piece in pieces {
        write!(text, " {}", piece.len())?;
    }
    text.push_str("\n")?;
    Ok(text)
}
