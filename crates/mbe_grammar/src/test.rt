//! Which units pass a test.
ghost use Rattle.std.specs.Prelude.{◌≡◌, not};
ghost use Rattle.mbe_grammar.specs.Tests.{is_literal, is_text_kind, is_number_kind, is_opaque_kind, is_first_kind, has_front, is_binary_operator, is_assignment_operator, are_first_puncts, may_begin_expression, is_word, is_literal_of, is_subtree_of, passes_test, passes, taken_size, named};
ghost use Rattle.mbe_grammar.specs.Words.{is_reserved, is_path_segment, is_truth_value, begins_expression};

use crate::unit::Unit;
use tt::{DelimiterKind, LitKind};

/// What a unit must be.
#[derive(Clone, Copy)]
pub enum Test {
    /// Exactly this unit.
    Is(Unit),
    /// A punct, or glued puncts that begin with it; only this first punct is taken.
    Front(char),
    /// Any unit.
    Any,
    /// An ident that is no keyword.
    Name,
    /// An ident that a path may contain: a name, `self`, `Self`, `super` or `crate`.
    PathSegment,
    /// `true` or `false`.
    TruthValue,
    /// A literal.
    Literal,
    /// A literal that is a text.
    Text,
    /// A literal that is a number.
    Number,
    /// A subtree in parentheses, brackets or braces.
    Delimited,
    /// A subtree whose delimiters are not printed.
    Opaque,
    /// A subtree of that kind. The log names the expression, by its index, that its trees must be.
    Holding(DelimiterKind, u32),
    /// A subtree whose delimiters are not printed. The log names the expression, by its index, that its trees must be.
    OpaqueHolding(u32),
    /// An operator between two operands.
    BinaryOperator,
    /// An operator that assigns.
    AssignmentOperator,
    /// A unit that an expression other than a block may begin with.
    BeginsExpression,
}

// Operators between two operands.
const BINARY_OPERATORS: [char; 10] = ['+', '-', '*', '/', '%', '^', '&', '|', '<', '>'];

// Operators of two puncts.
const BINARY_OPERATORS_OF_TWO: [[char; 2]; 8] = [
    ['<', '<'],
    ['>', '>'],
    ['=', '='],
    ['!', '='],
    ['<', '='],
    ['>', '='],
    ['&', '&'],
    ['|', '|'],
];

// Assignment operators of two puncts.
const ASSIGNMENTS: [[char; 2]; 8] = [
    ['+', '='],
    ['-', '='],
    ['*', '='],
    ['/', '='],
    ['%', '='],
    ['^', '='],
    ['&', '='],
    ['|', '='],
];

// Assignment operators of three puncts.
const ASSIGNMENTS_OF_THREE: [[char; 3]; 2] = [['<', '<', '='], ['>', '>', '=']];

// Puncts that an expression begins with.
const FIRST_PUNCTS: [char; 7] = ['!', '-', '*', '|', '&', '<', '#'];

// Two glued puncts that an expression begins with.
const FIRST_TWO_PUNCTS: [[char; 2]; 5] = [
    ['|', '|'],
    ['&', '&'],
    ['.', '.'],
    ['<', '<'],
    [':', ':'],
];

// Three glued puncts that an expression begins with.
const FIRST_THREE_PUNCTS: [[char; 3]; 2] = [['.', '.', '='], ['.', '.', '.']];

// Returns whether the literal is a text.
fn is_text_kind(kind: LitKind) -> bool
    ensures { result ≡ is_text_kind kind }
{
    matches!(kind, LitKind::Str | LitKind::StrRaw(_))
}

// Returns whether the literal is a number.
fn is_number_kind(kind: LitKind) -> bool
    ensures { result ≡ is_number_kind kind }
{
    matches!(kind, LitKind::Integer | LitKind::Float)
}

// Returns whether the subtree's delimiters are not printed.
fn is_opaque_kind(kind: DelimiterKind) -> bool
    ensures { result ≡ is_opaque_kind kind }
{
    matches!(
        kind,
        DelimiterKind::Invisible | DelimiterKind::InvisibleOpaque
    )
}

impl Unit {
    // Returns whether the unit is this punct, or glued puncts that begin with it.
    fn has_front(self, char: char) -> bool
        ensures { result ≡ has_front char self }
    {
        match self {
            Unit::Punct(one) | Unit::TwoPuncts(one, _) | Unit::ThreePuncts(one, _, _) => {
                one == char
            }
            _ => false,
        }
    }

    // Returns whether the unit is an operator between two operands.
    fn is_binary_operator(self) -> bool
        ensures { result ≡ is_binary_operator self }
    {
        match self {
            Unit::Punct(one) => BINARY_OPERATORS.contains(&one),
            Unit::TwoPuncts(one, two) => BINARY_OPERATORS_OF_TWO.contains(&[one, two]),
            _ => false,
        }
    }

    // Returns whether the unit is an operator that assigns.
    fn is_assignment_operator(self) -> bool
        ensures { result ≡ is_assignment_operator self }
    {
        match self {
            Unit::Punct(one) => ['='].contains(&one),
            Unit::TwoPuncts(one, two) => ASSIGNMENTS.contains(&[one, two]),
            Unit::ThreePuncts(one, two, three) => ASSIGNMENTS_OF_THREE.contains(&[one, two, three]),
            _ => false,
        }
    }

    // Returns whether the unit is puncts that an expression begins with.
    fn are_first_puncts(self) -> bool
        ensures { result ≡ are_first_puncts self }
    {
        match self {
            Unit::Punct(one) => FIRST_PUNCTS.contains(&one),
            Unit::TwoPuncts(one, two) => FIRST_TWO_PUNCTS.contains(&[one, two]),
            Unit::ThreePuncts(one, two, three) => FIRST_THREE_PUNCTS.contains(&[one, two, three]),
            _ => false,
        }
    }

    // Returns whether an expression other than a block may begin with the unit.
    fn may_begin_expression(self) -> bool
        ensures { result ≡ may_begin_expression self }
    {
        match self {
            Unit::Literal(_) | Unit::Lifetime => true,
            Unit::Word(word) => word.begins_expression(),
            Unit::Subtree(kind) => kind != DelimiterKind::Brace,
            Unit::End | Unit::Punct(_) | Unit::TwoPuncts(_, _) | Unit::ThreePuncts(_, _, _) => {
                self.are_first_puncts()
            }
        }
    }
}

impl Test {
    /// Returns whether the unit passes the test; the end passes none.
    pub fn passes(self, unit: Unit) -> bool
        ensures { result ≡ passes self unit }
    {
        !matches!(unit, Unit::End) && self.passes_test(unit)
    }

    // Returns whether the unit, which is not the end, passes the test.
    fn passes_test(self, unit: Unit) -> bool
        ensures { result ≡ passes_test self unit }
    {
        match (self, unit) {
            (Test::Is(wanted), _) => unit == wanted,
            (Test::Front(char), _) => unit.has_front(char),
            (Test::Any, _) => true,
            (Test::Name, Unit::Word(word)) => !word.is_reserved(),
            (Test::PathSegment, Unit::Word(word)) => word.is_path_segment(),
            (Test::TruthValue, Unit::Word(word)) => word.is_truth_value(),
            (Test::Literal, Unit::Literal(_)) => true,
            (Test::Text, Unit::Literal(kind)) => is_text_kind(kind),
            (Test::Number, Unit::Literal(kind)) => is_number_kind(kind),
            (Test::Delimited, Unit::Subtree(kind)) => !is_opaque_kind(kind),
            (Test::Opaque, Unit::Subtree(kind)) => is_opaque_kind(kind),
            (Test::Holding(kind, _), _) => unit == Unit::Subtree(kind),
            (Test::OpaqueHolding(_), Unit::Subtree(kind)) => is_opaque_kind(kind),
            (Test::BinaryOperator, _) => unit.is_binary_operator(),
            (Test::AssignmentOperator, _) => unit.is_assignment_operator(),
            (Test::BeginsExpression, _) => unit.may_begin_expression(),
            _ => false,
        }
    }

    /// Returns the index of the expression that the trees of the subtree must be, for a test that names one.
    pub fn named(self) -> Option<usize>
        ensures { result ≡ named self }
    {
        match self {
            Test::Holding(_, name) | Test::OpaqueHolding(name) => Some(name as usize),
            _ => None,
        }
    }

    /// Returns how many trees are taken of a unit that passes the test.
    pub fn taken_size(self, unit: Unit) -> usize
        ensures { result ≡ taken_size self unit }
    {
        match self {
            Test::Front(_) => 1,
            _ => unit.size(),
        }
    }
}
