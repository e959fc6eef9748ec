//! Brackets of a text.
ghost use Rattle.std.specs.Prelude.{◌≡◌};
ghost use Rattle.syntax_parse.specs.Bracket.{closing_of, opening_of};
ghost use Rattle.syntax_parse.specs.Role.{kind_of, same_bracket};

use tt_base::DelimiterKind;

/// The brackets around a subtree of a text.
#[derive(Debug, Clone, Copy, PartialEq, Eq)]
pub enum Bracket {
    /// `(` and `)`
    Parenthesis,
    /// `{` and `}`
    Brace,
    /// `[` and `]`
    Square,
}

impl Bracket {
    /// Returns the kind of the subtree's delimiter.
    pub fn kind(self) -> DelimiterKind
        ensures { result ≡ kind_of self }
    {
        match self {
            Bracket::Parenthesis => DelimiterKind::Parenthesis,
            Bracket::Brace => DelimiterKind::Brace,
            Bracket::Square => DelimiterKind::Bracket,
        }
    }

    /// Returns the character that opens the subtree.
    pub fn opening(&self) -> char
        ensures { result ≡ opening_of self.now }
    {
        match self {
            Bracket::Parenthesis => '(',
            Bracket::Brace => '{',
            Bracket::Square => '[',
        }
    }

    /// Returns the character that closes the subtree.
    pub fn closing(&self) -> char
        ensures { result ≡ closing_of self.now }
    {
        match self {
            Bracket::Parenthesis => ')',
            Bracket::Brace => '}',
            Bracket::Square => ']',
        }
    }
}

/// Returns whether two brackets are a pair.
pub fn same_bracket(a: Bracket, b: Bracket) -> bool
    ensures { result ≡ same_bracket a b }
{
    match (a, b) {
        (Bracket::Parenthesis, Bracket::Parenthesis)
        | (Bracket::Brace, Bracket::Brace)
        | (Bracket::Square, Bracket::Square) => true,
        _ => false,
    }
}
