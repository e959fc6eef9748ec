//! What the words of an item say of the braces after them.
ghost use Rattle.std.specs.Prelude.{◌≡◌};
ghost use Rattle.expand_items.specs.Positions.{head_behind, held_by, is_header};

use crate::position::Siblings;

/// What the words of the item that has begun say of the braces after them.
#[derive(Clone, Copy)]
pub(crate) enum Head {
    /// Nothing.
    Unknown,
    /// `extern` was read: the braces contain items, unless it is a function.
    Foreign,
    /// `mod`, `impl` or `trait` was read first: the braces contain items.
    Items,
    /// `fn` was read first: the braces contain statements.
    Function,
}

impl Head {
    /// Returns the head with one word more.
    pub(crate) fn behind(self, word: &str) -> Head
        ensures { result ≡ head_behind word.now self }
    {
        match self {
            Head::Items | Head::Function => self,
            Head::Unknown | Head::Foreign => match word {
                "mod" | "impl" | "trait" => Head::Items,
                "fn" => Head::Function,
                "extern" => Head::Foreign,
                _ => self,
            },
        }
    }

    /// Returns whether a `<` after it opens generic parameters or arguments.
    pub(crate) fn is_header(self) -> bool
        ensures { result ≡ is_header self }
    {
        match self {
            Head::Items | Head::Function => true,
            Head::Unknown | Head::Foreign => false,
        }
    }

    /// Returns what the braces after it contain.
    pub(crate) fn held(self) -> Siblings
        ensures { result ≡ held_by self }
    {
        match self {
            Head::Items | Head::Foreign => Siblings::Items,
            Head::Unknown | Head::Function => Siblings::Statements,
        }
    }
}
