//! A token that names its parts and its symbol by their places.
ghost use Rattle.std.specs.Prelude.{◌≡◌};

use tt_base::{DelimiterKind, Spacing};
use tt_codec::{HeaderEntry, LeafEntry, SpanNumbers};

/// A token in numbers, or the header of a subtree that is still open. Its parts and its symbol are places in lists of the different ones,
/// in any order.
#[derive(Debug, Clone, Copy, PartialEq)]
pub enum InternedToken {
    Leaf(LeafEntry),
    /// The header of an open subtree, which has no close span and no count yet.
    Open(DelimiterKind, SpanNumbers),
    Header(HeaderEntry),
}

impl InternedToken {
    ghost use Rattle.tt_tables.specs.Alone.{interned_alone};

    /// Returns the token, alone if it is a punct.
    pub(crate) fn alone(self) -> InternedToken
        ensures { result ≡ interned_alone self }
    {
        match self {
            InternedToken::Leaf(LeafEntry::Punct(char, _, numbers)) => {
                InternedToken::Leaf(LeafEntry::Punct(char, Spacing::Alone, numbers))
            }
            InternedToken::Leaf(LeafEntry::Ident(..) | LeafEntry::Literal(..)) => self,
            InternedToken::Open(..) | InternedToken::Header(_) => self,
        }
    }
}
