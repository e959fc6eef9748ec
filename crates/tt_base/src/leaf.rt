//! Tokens that hold no others.
ghost use Rattle.std.specs.Prelude.{◌≡◌, Some};
ghost use Rattle.tt_base.specs.declared.leaf.Leaf.TheVariants as leaf;

use crate::ident::Ident;
use crate::literal::Literal;
use crate::punct::Punct;
use crate::span::Span;
use std::fmt;

/// A token that holds no others.
#[derive(Debug, Clone, PartialEq, Eq, Hash, Drop)]
pub enum Leaf {
    Literal(Literal),
    Punct(Punct),
    Ident(Ident),
}

impl Leaf {
    ghost use Rattle.tt_base.specs.Token.{leaf_span};

    /// Returns the span of the literal, the punct or the ident.
    pub fn span(&self) -> &Span
        ensures { result.now ≡ leaf_span self.now }
    {
        match self {
            Leaf::Literal(literal) => literal.span(),
            Leaf::Punct(punct) => &punct.span,
            Leaf::Ident(ident) => &ident.span,
        }
    }
}

impl From<Literal> for Leaf {
    ghost from_gives = { λ literal result. result ≡ leaf.Literal literal };

    fn from(literal: Literal) -> Leaf {
        Leaf::Literal(literal)
    }
}

impl From<Punct> for Leaf {
    ghost from_gives = { λ punct result. result ≡ leaf.Punct punct };

    fn from(punct: Punct) -> Leaf {
        Leaf::Punct(punct)
    }
}

impl From<Ident> for Leaf {
    ghost from_gives = { λ ident result. result ≡ leaf.Ident ident };

    fn from(ident: Ident) -> Leaf {
        Leaf::Ident(ident)
    }
}

impl fmt::Display for Leaf {
    ghost use Rattle.tt_base.specs.LeafText.{leaf_text};

    ghost output = { λ leaf. Some (leaf_text leaf) };

    fn fmt<W: fmt::Write>(&self, f: &mut fmt::Formatter<W>) -> fmt::Result {
        match self {
            Leaf::Literal(literal) => fmt::Display::fmt(literal, f),
            Leaf::Punct(punct) => fmt::Display::fmt(punct, f),
            Leaf::Ident(ident) => fmt::Display::fmt(ident, f),
        }
    }
}
