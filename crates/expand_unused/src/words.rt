//! The idents in trees.
ghost use Rattle.std.specs.Prelude.{◌≡◌, ◌++◌, OnOk, IfOk, option_to_list};
ghost use Rattle.tt.specs.Views.{trees_of};
ghost use Rattle.expand_unused.specs.Parts.{leaf_words, token_words, words_in};

use std::alloc::{AllocError, Global};
use tt::{Leaf, Symbol, TokenTree, TokenTreesView};

/// Returns the text of an ident.
pub(crate) fn leaf_word(leaf: Leaf) -> Option<Symbol>
    ensures { option_to_list result ≡ leaf_words leaf }
{
    match leaf {
        Leaf::Ident(ident) => Some(ident.sym),
        Leaf::Literal(_) | Leaf::Punct(_) => None,
    }
}

// Adds the text of an ident.
fn add_word(words: &mut Vec<Symbol>, token: TokenTree) -> Result<(), AllocError>
    ensures { OnOk result (words.new.items ≡ words.old.items ++ token_words token) }
{
    let TokenTree::Leaf(leaf) = token else {
        return Ok(());
    };
    if let Some(word) = leaf_word(leaf) {
        words.push(word)?;
    }
    Ok(())
}

/// Returns the texts of all idents in trees, at any depth.
pub(crate) fn words_in(alloc: Global, trees: TokenTreesView<'_>) -> Result<Vec<Symbol>, AllocError>
    ensures { IfOk result (λ words. words.items ≡ words_in (trees_of trees.entry)) }
{
    let mut words = Vec::new(alloc);
    for token in trees.iter_flat_tokens() {
        add_word(&mut words, token)?;
    }
    Ok(words)
}
