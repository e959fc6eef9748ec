//! One token of a flat list.
ghost use Rattle.std.specs.Prelude.{◌≡◌};
ghost use Rattle.tt_base.specs.declared.token_tree.TokenTree.TheVariants as token;

use crate::delimiter::Subtree;
use crate::leaf::Leaf;
use crate::span::Span;

/// One token of a flat list: a leaf, or the header of a subtree. In a flat list, all that the subtree holds follows its header.
#[derive(Debug, Clone, PartialEq, Eq, Hash, Drop)]
pub enum TokenTree {
    Leaf(Leaf),
    Subtree(Subtree),
}

impl TokenTree {
    ghost use Rattle.tt_base.specs.Token.{first_span};

    /// Returns a leaf's span, or a header's open span.
    pub fn first_span(&self) -> Span
        ensures { result ≡ first_span self.now }
    {
        match self {
            TokenTree::Leaf(leaf) => *leaf.span(),
            TokenTree::Subtree(subtree) => subtree.delimiter.open_span,
        }
    }
}

impl From<Leaf> for TokenTree {
    ghost from_gives = { λ leaf result. result ≡ token.Leaf leaf };

    fn from(leaf: Leaf) -> TokenTree {
        TokenTree::Leaf(leaf)
    }
}

impl From<Subtree> for TokenTree {
    ghost from_gives = { λ subtree result. result ≡ token.Subtree subtree };

    fn from(subtree: Subtree) -> TokenTree {
        TokenTree::Subtree(subtree)
    }
}
