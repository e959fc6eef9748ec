//! The text around subtrees and between siblings.
ghost use Rattle.std.specs.Prelude.{◌≡◌};
ghost use Rattle.tt_base.specs.TreeText.{opening_text, closing_text, space_if, space_after};
ghost use Rattle.tt_view.specs.Iters.{tree_of};
ghost use Rattle.tt_view.specs.SiblingText.{space_after_tree};
ghost use Rattle.tt_view.specs.SpaceRules.{lets_of};

use crate::iter::TtElement;
use tt_base::{DelimiterKind, Leaf, Spacing};

/// Which puncts have no space after them.
#[derive(Clone, Copy)]
pub enum SpaceRule {
    /// Joint and joint hidden puncts, as in `Display`.
    Display,
    /// Joint puncts, as in `pretty`.
    Pretty,
}

/// Returns one space if one is due, otherwise nothing.
pub fn space(due: bool) -> &'static str
    ensures { result.now ≡ space_if due }
{
    if due { " " } else { "" }
}

/// Returns whether a space may follow the leaf.
pub fn leaf_lets_space(rule: SpaceRule, leaf: &Leaf) -> bool
    ensures { result ≡ space_after (lets_of rule) leaf.now }
{
    match leaf {
        Leaf::Punct(punct) => match rule {
            SpaceRule::Display => matches!(punct.spacing, Spacing::Alone),
            SpaceRule::Pretty => !matches!(punct.spacing, Spacing::Joint),
        },
        Leaf::Literal(_) | Leaf::Ident(_) => true,
    }
}

/// Returns whether `Display` may write a space after the sibling.
pub(crate) fn lets_space(sibling: &TtElement<'_>) -> bool
    ensures { result ≡ space_after_tree (tree_of sibling.now) }
{
    match sibling {
        TtElement::Leaf(leaf) => leaf_lets_space(SpaceRule::Display, leaf),
        TtElement::Subtree(_, _) => true,
    }
}

/// Returns the text that opens a subtree of that kind.
pub fn opening(kind: DelimiterKind) -> &'static str
    ensures { result.now ≡ opening_text kind }
{
    match kind {
        DelimiterKind::Parenthesis => "(",
        DelimiterKind::Brace => "{",
        DelimiterKind::Bracket => "[",
        DelimiterKind::Invisible | DelimiterKind::InvisibleOpaque => "",
    }
}

/// Returns the text that closes a subtree of that kind.
pub fn closing(kind: DelimiterKind) -> &'static str
    ensures { result.now ≡ closing_text kind }
{
    match kind {
        DelimiterKind::Parenthesis => ")",
        DelimiterKind::Brace => "}",
        DelimiterKind::Bracket => "]",
        DelimiterKind::Invisible | DelimiterKind::InvisibleOpaque => "",
    }
}
