//! A table of parsing expressions. Each refers to its parts by their indices in the table.
use crate::test::Test;

/// One expression of a table.
#[derive(Clone, Copy)]
pub enum Rule {
    /// Takes nothing.
    Empty,
    /// Takes one unit that passes this test.
    Unit(Test),
    /// Takes what the expression at another index takes.
    Name(u32),
    /// Takes what the first part takes, and then what the second part takes.
    Sequence(u32, u32),
    /// Takes what the first part takes; if the first part fails, what the second part takes.
    Choice(u32, u32),
    /// Takes what the part takes as often as possible, maybe never.
    ZeroOrMore(u32),
    /// Takes nothing; it succeeds only if the part fails.
    Not(u32),
}

/// The mark of an expression: whether it may take nothing, and a rank. The rank is above the ranks of all
/// that it reaches before it takes a unit.
#[derive(Clone, Copy)]
pub enum Mark {
    /// It takes at least one unit, or fails.
    TakesSome(usize),
    /// It may take nothing.
    MayTakeNone(usize),
}
