//! Idents that may name a local or a label.
ghost use Rattle.std.specs.Prelude.{◌≡◌};
ghost use Rattle.expand_hygiene.specs.Mentions.{begins_upper_case, kind_of, is_quote};

use mbe_grammar::Word;
use tt::{Ident, Leaf, TokenTree};

/// What a name is bound to.
#[derive(Clone, Copy, Debug, PartialEq, Eq)]
pub enum BindingKind {
    /// A local, or a parameter.
    Local,
    /// The label of a loop or a block.
    Label,
}

/// An ident that may name a local or a label.
#[derive(Drop)]
pub(crate) struct Mention {
    pub(crate) kind: BindingKind,
    pub(crate) ident: Ident,
}

// Returns whether the name begins with an upper-case letter of ASCII.
fn begins_upper_case(name: &str) -> bool
    ensures { result ≡ begins_upper_case name.now }
{
    match name.as_bytes() {
        [] => false,
        [first, ..] => first.is_ascii_uppercase(),
    }
}

// Returns what the ident may name, if it may name a local or a label.
fn kind_of(is_behind_quote: bool, ident: &Ident) -> Option<BindingKind>
    ensures { result ≡ kind_of is_behind_quote ident.now }
{
    if is_behind_quote {
        return Some(BindingKind::Label);
    }
    if Word::of(ident).is_reserved() || begins_upper_case(ident.sym.as_str()) {
        return None;
    }
    Some(BindingKind::Local)
}

/// Returns whether the token is a `'`.
pub(crate) fn is_quote(token: &TokenTree) -> bool
    ensures { result ≡ is_quote token.now }
{
    match token {
        TokenTree::Leaf(Leaf::Punct(punct)) => punct.char == '\'',
        _ => false,
    }
}

impl Mention {
    ghost use Rattle.expand_hygiene.specs.Mentions.{mention_of};

    /// Returns the mention of a token, if it is an ident that may name a local or, right behind a `'`, a label.
    pub(crate) fn of(is_behind_quote: bool, token: TokenTree) -> Option<Mention>
        ensures { result ≡ mention_of is_behind_quote token }
    {
        let TokenTree::Leaf(Leaf::Ident(ident)) = token else {
            return None;
        };
        let kind = kind_of(is_behind_quote, &ident)?;
        Some(Mention { kind, ident })
    }
}
