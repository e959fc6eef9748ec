//! The first unit of trees, as a grammar sees it.
ghost use Rattle.std.specs.Prelude.{◌≡◌};
ghost use Rattle.tt.specs.Forest.{Forest};
ghost use Rattle.tt.specs.Gluing.{first_punct, glued_behind, glued_three, glued_two};
ghost use Rattle.tt.specs.Iters.{rest_of};
ghost use Rattle.tt.specs.Moves.{after_tree};
ghost use Rattle.tt.specs.Types.Punct.{Punct};
ghost use Rattle.tt.specs.Views.{trees_of};
ghost use Rattle.mbe_pattern.specs.Units.{is_at_ident};
ghost use Rattle.mbe_grammar.specs.Units.{unit_of_puncts, punct_unit, first_unit, size_of_unit, BeginsWith};

use crate::words::Word;
use tt::{
    DelimiterKind, LitKind, Spacing, TokenKind, TokenTreesView, TtIter, is_glued_three,
    is_glued_two,
};

/// The first unit of trees.
#[derive(Clone, Copy, PartialEq, Eq)]
pub enum Unit {
    /// No tree is left.
    End,
    /// An ident.
    Word(Word),
    /// A `'` and its ident.
    Lifetime,
    /// A literal.
    Literal(LitKind),
    /// A punct that is glued to no other.
    Punct(char),
    /// Two glued puncts.
    TwoPuncts(char, char),
    /// Three glued puncts.
    ThreePuncts(char, char, char),
    /// A subtree; its inside is not read.
    Subtree(DelimiterKind),
}

// Returns the unit of two puncts, or of the first if they are no operator.
fn unit_of_two(first: char, second: char) -> Unit
    ensures { (one two : Punct) → first ≡ one.char → second ≡ two.char → result ≡ unit_of_puncts (glued_two one two) }
{
    if is_glued_two(first, second) {
        Unit::TwoPuncts(first, second)
    } else {
        Unit::Punct(first)
    }
}

// Returns the unit of two puncts before other trees, of which the first may belong to the same operator.
fn unit_of_three(first: char, second: char, mut behind: TtIter<'_>) -> Unit
    ensures { (one two : Punct) → first ≡ one.char → second ≡ two.char → result ≡ unit_of_puncts (glued_three one two (first_punct (rest_of behind.entry))) }
{
    match behind.next_kind() {
        Some(TokenKind::Punct(third, _)) => {
            if is_glued_three(first, second, third) {
                Unit::ThreePuncts(first, second, third)
            } else {
                unit_of_two(first, second)
            }
        }
        _ => unit_of_two(first, second),
    }
}

// Returns the unit of a punct that is not alone, before other trees.
fn glued_unit(first: char, behind: TokenTreesView<'_>) -> Unit
    ensures { (one : Punct) → first ≡ one.char → result ≡ unit_of_puncts (glued_behind one (first_punct (trees_of behind.entry)) (after_tree (trees_of behind.entry))) }
{
    let mut behind = behind.iter();
    match behind.next_kind() {
        Some(TokenKind::Punct(second, Spacing::Joint)) => unit_of_three(first, second, behind),
        Some(TokenKind::Punct(second, _)) => unit_of_two(first, second),
        _ => Unit::Punct(first),
    }
}

// Returns whether an ident comes first.
fn is_at_ident(trees: TokenTreesView<'_>) -> bool
    ensures { result ≡ is_at_ident (trees_of trees.entry) }
{
    matches!(trees.iter().next_kind(), Some(TokenKind::Ident(_, _)))
}

// Returns the first unit, which begins with this punct, before other trees.
fn punct_unit(first: char, spacing: Spacing, behind: TokenTreesView<'_>) -> Unit
    ensures { (trees : Forest) → BeginsWith first spacing trees → after_tree trees ≡ trees_of behind.entry → result ≡ punct_unit trees }
{
    if first == '\'' && is_at_ident(behind) {
        return Unit::Lifetime;
    }
    if spacing == Spacing::Alone {
        return Unit::Punct(first);
    }
    glued_unit(first, behind)
}

impl Unit {
    /// Takes the first tree. Returns the unit that it begins.
    pub fn take(trees: &mut TtIter<'_>) -> Unit
        ensures unit { result ≡ first_unit (rest_of trees.old) }
        ensures rest { rest_of trees.new ≡ after_tree (rest_of trees.old) }
    {
        match trees.next_kind() {
            None => Unit::End,
            Some(TokenKind::Subtree(kind, _)) => Unit::Subtree(kind),
            Some(TokenKind::Literal(kind)) => Unit::Literal(kind),
            Some(TokenKind::Ident(text, is_raw)) => Unit::Word(Word::of_text(text, is_raw)),
            Some(TokenKind::Punct(first, spacing)) => {
                punct_unit(first, spacing, trees.remaining())
            }
        }
    }

    /// Returns how many trees the unit has; 1 at the end.
    pub fn size(self) -> usize
        ensures { result ≡ size_of_unit self }
    {
        match self {
            Unit::Lifetime | Unit::TwoPuncts(_, _) => 2,
            Unit::ThreePuncts(_, _, _) => 3,
            Unit::End | Unit::Word(_) | Unit::Literal(_) | Unit::Punct(_) | Unit::Subtree(_) => 1,
        }
    }
}
