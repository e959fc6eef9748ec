//! What may follow what was written last.
ghost use Rattle.std.specs.Prelude.{◌≡◌, ◌↔◌, IsTrue};
ghost use Rattle.tt_base.specs.LeafText.{leaf_text};
ghost use Rattle.syntax_unparse.specs.Text.{behind_leaf, behind_punct, is_string, wants_space, opens_apart};
ghost use Rattle.syntax_unparse.specs.Writable.{MayEnd};

use tt_base::{Leaf, Spacing};

/// What was written last, as far as it matters for the next leaf or bracket.
#[derive(Debug, Clone, Copy, PartialEq, Eq)]
pub enum Behind {
    /// Nothing, or an opening bracket: what follows touches it.
    Opening,
    /// A leaf, or a closing bracket: a space follows, except before a closing bracket.
    Apart,
    /// A punct; what follows touches it.
    Joint,
    /// A `/`; what follows touches it.
    Slash,
    /// A `#`; what follows touches it, except a string.
    Pound,
    /// The `'` of a lifetime.
    Quote,
}

// Returns the state after a punct.
fn behind_punct(char: char, spacing: Spacing) -> Behind
    ensures { result ≡ behind_punct char spacing }
{
    if char == '\'' {
        return Behind::Quote;
    }
    if matches!(spacing, Spacing::Alone) {
        return Behind::Apart;
    }
    if char == '/' {
        return Behind::Slash;
    }
    if char == '#' {
        Behind::Pound
    } else {
        Behind::Joint
    }
}

/// Returns the state after a leaf.
pub fn behind_leaf(leaf: &Leaf) -> Behind
    ensures { result ≡ behind_leaf leaf.now }
{
    match leaf {
        Leaf::Punct(punct) => behind_punct(punct.char, punct.spacing),
        Leaf::Literal(_) | Leaf::Ident(_) => Behind::Apart,
    }
}

// Returns whether a leaf with this text is a literal that begins with a double quote.
fn is_string(leaf: &Leaf, text: &str) -> bool
    requires { text.now ≡ leaf_text leaf.now }
    ensures { result ≡ is_string leaf.now }
{
    if !matches!(leaf, Leaf::Literal(_)) {
        return false;
    }
    match text.as_bytes().first() {
        Some(byte) => *byte == b'"',
        None => false,
    }
}

/// Returns whether a space precedes a leaf with this text.
pub fn wants_space(behind: Behind, leaf: &Leaf, text: &str) -> bool
    requires { text.now ≡ leaf_text leaf.now }
    ensures { result ≡ wants_space behind leaf.now }
{
    match behind {
        Behind::Apart => true,
        Behind::Pound => is_string(leaf, text),
        _ => false,
    }
}

/// Returns whether a space precedes an opening bracket.
pub fn opens_apart(behind: Behind) -> bool
    ensures { result ≡ opens_apart behind }
{
    matches!(behind, Behind::Apart)
}

/// Returns whether a bracket or the end may follow.
pub fn may_end(behind: Behind) -> bool
    ensures { IsTrue result ↔ MayEnd behind }
{
    !matches!(behind, Behind::Quote)
}
