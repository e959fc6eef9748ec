//! Kinds of units. They show what an expression does before it is read.
ghost use Rattle.std.specs.Prelude.{◌≡◌, slice_get};
ghost use Rattle.mbe_grammar.specs.Kinds.{kind_of_word, kind_or_other, kind_of_char, kind_of};

use crate::unit::Unit;
use crate::words::Word;
use tt::DelimiterKind;

// The kind of each ASCII character that is a punct.
const KINDS_OF_CHARS: [u32; 128] = [
    36, 36, 36, 36, 36, 36, 36, 36, 36, 36, 36, 36, 36, 36, 36, 36, 36, 36, 36, 36, 36, 36, 36, 36,
    36, 36, 36, 36, 36, 36, 36, 36, 36, 37, 36, 38, 39, 40, 41, 58, 36, 36, 42, 43, 44, 45, 46, 47,
    36, 36, 36, 36, 36, 36, 36, 36, 36, 36, 48, 49, 50, 51, 52, 53, 54, 36, 36, 36, 36, 36, 36, 36,
    36, 36, 36, 36, 36, 36, 36, 36, 36, 36, 36, 36, 36, 36, 36, 36, 36, 36, 36, 36, 36, 36, 55, 36,
    36, 36, 36, 36, 36, 36, 36, 36, 36, 36, 36, 36, 36, 36, 36, 36, 36, 36, 36, 36, 36, 36, 36, 36,
    36, 36, 36, 36, 56, 36, 57, 36,
];

// The kind of every other punct.
const OTHER_PUNCT: u32 = 36;

// Returns the kind at that index of a table, or the kind of every other punct.
fn kind_in(kinds: &[u32], at: usize) -> u32
    ensures { result ≡ kind_or_other (slice_get kinds.now at) }
{
    match kinds.get(at) {
        Some(kind) => *kind,
        None => OTHER_PUNCT,
    }
}

// Returns the kind of a punct, or of glued puncts that begin with it.
fn kind_of_char(char: char) -> u32
    ensures { result ≡ kind_of_char char }
{
    kind_in(&KINDS_OF_CHARS, char as usize)
}

impl Word {
    // Returns the kind of an ident.
    fn kind(self) -> u32
        ensures { result ≡ kind_of_word self }
    {
        match self {
            Word::Name => 7,
            Word::Auto
            | Word::Default
            | Word::MacroRules
            | Word::Raw
            | Word::Safe
            | Word::Union
            | Word::Yeet => 8,
            Word::Crate | Word::SelfValue | Word::SelfType | Word::Super => 9,
            Word::False | Word::True => 10,
            Word::As => 11,
            Word::Async => 12,
            Word::Box => 13,
            Word::Break | Word::Continue | Word::Return | Word::Yield => 14,
            Word::Const => 15,
            Word::Dyn => 16,
            Word::Extern => 17,
            Word::Fn => 18,
            Word::For => 19,
            Word::Gen => 20,
            Word::If => 21,
            Word::Match => 22,
            Word::Loop | Word::While => 23,
            Word::Impl => 24,
            Word::Let => 25,
            Word::Move => 26,
            Word::Mut => 27,
            Word::Ref => 28,
            Word::Static => 29,
            Word::Try => 30,
            Word::Underscore => 31,
            Word::Unsafe => 32,
            Word::Enum
            | Word::Macro
            | Word::Mod
            | Word::Pub
            | Word::Struct
            | Word::Trait
            | Word::Type
            | Word::Use => 33,
            Word::Where => 34,
            Word::Reserved | Word::Await | Word::Do | Word::Else | Word::In => 35,
        }
    }
}

impl Unit {
    /// Returns the kind of a unit.
    pub(crate) fn kind(self) -> u32
        ensures { result ≡ kind_of self }
    {
        match self {
            Unit::End => 0,
            Unit::Lifetime => 1,
            Unit::Literal(_) => 2,
            Unit::Subtree(DelimiterKind::Parenthesis) => 3,
            Unit::Subtree(DelimiterKind::Brace) => 4,
            Unit::Subtree(DelimiterKind::Bracket) => 5,
            Unit::Subtree(DelimiterKind::Invisible | DelimiterKind::InvisibleOpaque) => 6,
            Unit::Word(word) => word.kind(),
            Unit::Punct(one) | Unit::TwoPuncts(one, _) | Unit::ThreePuncts(one, _, _) => {
                kind_of_char(one)
            }
        }
    }
}
