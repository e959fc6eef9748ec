//! Which rules of Rust's grammar take a unit at least, and their ranks. `checks/lay_out_grammar.py` makes this file.
use crate::rule::Mark;

// One mark: `some` of what takes a unit at least, `none` of what may take nothing, and the rank.
macro_rules! mark {
    (some $rank:literal) => { Mark::TakesSome($rank) };
    (none $rank:literal) => { Mark::MayTakeNone($rank) };
}

// Marks one after another.
macro_rules! marks {
    ($($mark:ident $rank:literal)*) => { [$(mark!($mark $rank)),*] };
}

/// The marks of the rules.
pub(crate) static MARKS: [Mark; 1371] = marks! {
    some 6 some 5 none 1 some 0 none 0 some 4 some 3 none 4 none 3 none 2 some 1 none 2 some 1 none 2 some 1 some 0 some 0 some 2 some 1 some 0 none 10
    some 9 none 8 some 3 some 2 some 1 some 0 some 1 some 0 some 0 none 7 none 30 none 29 some 0 some 6 some 5 some 0 some 4 none 3 none 2 some 1 some 0
    some 0 some 0 some 8 some 7 some 32 none 31 some 30 none 3 none 2 some 1 some 0 none 1 some 0 some 29 some 28 some 1 some 0 none 4 none 3 some 27
    some 26 some 3 none 10 some 1 some 0 none 9 some 1 some 0 none 8 some 25 some 0 some 24 some 23 none 1 some 2 some 1 some 25 some 24 some 23 some 5
    some 4 some 2 none 1 some 0 some 0 some 3 some 2 none 1 some 0 some 0 some 1 some 0 some 0 some 8 some 7 some 26 some 3 none 2 some 1 some 0 some 1
    some 11 some 10 some 9 some 5 some 4 some 3 none 3 none 2 some 1 none 1 some 2 some 1 none 3 some 2 some 1 some 1 some 3 some 2 some 1 none 2 some 1
    some 25 some 24 some 6 some 5 some 23 some 4 none 1 some 0 some 22 some 21 some 7 some 20 some 2 some 1 some 0 some 0 none 18 none 16 none 15 some 19
    some 1 none 5 none 2 some 18 some 3 some 2 some 1 some 0 some 17 some 1 some 0 some 7 some 16 some 3 some 8 some 6 some 15 some 9 some 5 some 14 none 7
    none 6 some 1 some 0 some 1 some 0 none 5 none 1 some 16 some 15 some 7 none 2 some 1 some 14 some 12 some 11 some 2 none 17 some 16 some 10 some 9
    some 8 some 3 some 7 some 7 some 1 some 6 some 5 some 4 some 1 none 28 none 27 some 26 none 2 none 1 some 0 none 4 none 3 none 2 some 1 none 2 none 1
    some 9 some 8 some 7 none 4 some 3 some 5 some 3 some 0 some 4 some 3 some 2 some 1 some 0 some 1 none 1 some 0 some 1 some 13 some 12 some 11 some 10
    some 0 some 9 some 0 some 8 some 7 some 6 some 2 some 1 some 2 some 1 some 0 some 27 some 26 none 2 some 1 some 0 some 2 some 1 some 0 some 18 none 1
    some 17 none 1 some 2 some 1 some 0 some 3 some 5 some 4 none 1 some 3 none 2 some 1 some 0 none 1 some 0 some 1 some 0 some 1 some 0 none 2 some 3
    some 2 some 1 some 0 none 34 none 33 none 8 some 7 none 3 some 6 none 32 some 31 some 30 some 29 some 28 none 6 some 27 none 6 some 5 some 4 some 1
    some 0 some 3 none 2 some 1 some 0 some 0 some 2 some 1 some 26 some 0 none 19 none 18 some 17 some 16 some 15 some 14 some 13 some 0 some 12 some 11
    some 10 some 2 some 1 some 9 none 3 some 8 none 3 some 2 some 1 some 1 some 0 some 7 some 2 some 1 some 0 some 1 some 6 none 5 some 4 none 3 none 2
    some 1 some 1 some 14 some 13 some 12 some 0 some 11 some 0 some 10 some 9 some 0 some 8 some 7 some 6 some 5 some 4 some 3 some 2 some 1 some 2 some 1
    some 2 some 1 none 2 some 1 none 3 none 2 some 1 some 3 some 2 some 1 some 0 some 28 some 27 none 2 some 1 some 0 some 25 some 24 some 26 some 25 none 1
    some 0 some 24 none 4 none 2 some 1 some 24 none 1 none 3 some 2 some 0 some 1 some 0 some 0 some 23 some 22 some 1 some 21 some 1 none 15 some 20
    some 3 some 2 some 1 none 5 some 19 some 18 some 17 some 16 some 15 some 0 some 14 some 0 some 13 some 1 some 0 some 12 some 0 some 11 some 1 some 0
    some 10 some 9 some 5 none 5 some 6 some 5 none 6 some 21 some 20 some 3 some 2 some 19 some 18 some 17 some 16 some 15 some 14 some 13 some 1 some 1
    some 12 some 1 none 4 some 11 some 10 some 9 some 5 none 8 none 7 some 0 some 7 some 6 some 5 none 9 some 1 none 7 some 6 some 5 some 4 some 0 some 3
    some 2 some 1 none 29 none 28 some 27 none 3 none 2 some 1 some 0 some 4 some 3 some 2 some 1 none 6 none 5 some 3 some 2 some 1 some 14 some 13 some 2
    some 12 none 3 none 2 some 1 none 13 none 12 none 11 some 10 none 5 some 4 some 9 some 8 some 7 some 3 some 1 some 27 some 6 some 5 none 1 some 4 some 3
    none 2 some 1 some 0 some 1 some 0 some 2 some 2 some 1 some 22 some 4 some 3 some 1 some 2 some 1 none 3 some 2 some 1 some 3 some 1 none 4 none 3
    some 2 some 1 some 1 none 9 none 8 some 7 some 6 some 5 some 4 some 2 some 1 some 39 some 38 none 2 some 1 some 37 some 36 some 35 some 37 some 36
    some 35 none 8 none 7 none 2 some 1 some 0 none 6 none 1 none 5 none 8 none 7 none 2 some 1 none 6 none 5 some 3 some 2 some 1 some 36 none 1 some 35
    some 1 none 37 some 36 none 4 none 3 some 3 some 2 some 1 some 36 none 2 some 1 some 35 some 1 none 37 some 36 none 2 none 1 some 0 some 34 some 33
    some 32 none 4 none 3 some 2 some 1 some 0 some 1 none 2 none 1 none 1 some 34 some 33 some 32 none 4 none 3 some 2 some 1 some 34 some 33 some 32
    some 34 some 33 some 32 some 31 some 30 some 26 none 2 some 25 none 7 none 6 none 3 some 29 some 28 some 6 some 27 some 26 some 25 some 31 some 30
    some 26 some 25 some 29 some 28 some 6 some 27 some 26 some 25 some 5 some 4 some 3 some 2 some 1 none 3 some 2 some 1 some 0 some 5 some 4 some 3
    some 0 some 2 some 0 some 1 some 0 some 5 some 2 some 1 some 0 none 1 some 0 some 4 some 0 some 3 some 1 some 0 some 0 some 2 some 1 none 3 some 1
    some 9 none 2 some 1 some 7 some 2 some 1 some 10 some 9 some 39 some 1 some 17 some 0 some 38 none 1 some 10 some 9 some 39 some 38 some 8 some 7
    some 6 none 2 some 1 none 5 none 4 some 3 some 0 some 2 some 0 some 1 some 5 none 1 some 4 some 3 none 1 some 2 some 1 some 29 none 28 some 27 none 3
    none 2 some 1 some 26 some 25 some 24 none 2 some 1 some 7 some 6 some 5 some 4 some 0 some 3 some 2 some 1 some 0 some 0 some 1 some 0 none 39 some 38
    some 1 some 0 some 6 some 5 some 4 some 3 some 2 some 2 some 1 none 40 none 39 some 38 some 24 some 23 some 22 some 6 some 5 none 3 none 2 none 1 some 0
    some 21 some 9 some 5 some 24 some 23 some 22 some 6 some 5 some 21 some 9 some 5 some 2 some 1 none 3 some 2 some 1 some 2 some 1 none 2 some 1 none 40
    none 39 some 38 none 42 none 41 none 2 none 40 none 39 some 38 none 3 none 2 some 1 none 10 none 9 none 8 some 7 none 2 some 1 none 38 some 6 some 5
    some 4 some 3 some 1 some 1 some 20 some 19 some 18 some 17 some 16 some 0 some 15 some 14 some 0 some 13 some 12 some 11 some 1 some 0 some 10 some 1
    some 37 some 1 none 3 none 2 some 1 some 0 some 14 some 13 none 2 none 1 none 1 some 9 some 1 some 38 some 8 some 1 some 7 some 4 some 3 some 2 some 2
    some 6 some 1 some 5 some 3 some 5 some 2 some 1 some 4 some 3 some 1 some 0 some 2 some 1 some 0 some 37 some 1 some 28 none 1 some 27 some 1 some 0
    some 38 some 36 some 35 some 34 some 33 some 32 none 13 none 4 some 3 some 2 none 1 some 1 some 35 none 1 some 0 none 12 some 1 none 11 none 2 some 1
    some 35 none 10 none 9 some 4 some 3 none 4 none 2 some 1 some 36 none 3 some 2 some 1 some 27 some 1 some 35 some 34 some 33 some 32 none 7 none 6
    some 5 some 4 none 6 none 5 some 4 none 32 none 31 none 3 none 30 some 29 some 28 some 27 none 4 some 1 some 37 none 3 none 3 some 2 some 1 some 0
    some 39 some 18 some 17 some 36 some 35 some 34 some 33 some 32 none 13 none 4 some 3 some 2 some 1 some 35 none 12 some 1 none 11 none 2 some 1 some 35
    none 10 none 9 some 4 some 3 none 4 none 2 some 1 some 36 some 2 some 1 some 27 some 1 some 35 some 34 some 33 some 32 none 7 none 6 some 5 some 4
    some 16 some 15 some 14 some 13 none 2 some 1 none 2 some 1 some 2 some 1 some 2 some 1 some 2 some 1 some 0 some 1 some 0 some 2 some 1 some 7 some 6
    some 1 some 0 some 5 some 4 none 3 some 2 some 1 none 3 none 2 some 1 some 0 none 1 some 0 some 5 some 4 some 0 some 3 some 0 some 2 some 0 some 1
    none 45 none 44 none 43 none 42 some 41 some 40 some 39 some 28 some 27 some 4 some 38 none 2 some 41 some 40 some 39 some 38 some 28 some 27 some 3
    some 2 none 1 some 1 some 24 none 4 none 3 none 2 some 1 some 38 none 2 some 1 some 26 some 25 some 24 none 2 some 1 some 0 some 0 some 17 some 6 some 5
    some 1 some 1 none 30 none 29 none 28 some 27 some 26 some 25 some 24 some 6 some 4 some 1 some 23 some 22 some 21 some 1 some 10 some 6 some 5 some 20
    some 19 some 18 some 17 some 16 some 15 some 14 some 13 some 12 some 11 some 10 some 9 some 8 some 7 some 5 some 4 some 1 some 2 some 1 some 5 some 4
    some 2 some 1 some 0 some 1 some 1 some 2 some 1 some 0 some 1 some 2 none 1 some 2 some 1 some 6 none 8 none 7 some 6 some 5 some 4 some 3 some 0
    some 2 some 1 none 5 none 4 some 3 some 1 some 1 some 2 some 1 some 1 some 2 some 1 some 4 none 3 some 2 some 1 some 1 some 4 some 3 none 2 some 1
    some 1 some 2 some 1 some 1 some 26 some 3 none 2 some 3 some 2 none 1 some 0 some 1 some 2 some 4 none 3 some 1 some 26 some 5 some 4 none 3 some 9
    some 8 some 1 some 1 some 4 some 1 some 0 some 5 none 2 some 1 some 4 some 1 none 32 none 31 none 30 some 29 some 5 some 4 some 3 some 1 some 3 some 2
    some 2 some 1 some 28 some 27 some 26 some 25 some 24 some 1 none 7 none 6 none 5 none 4 none 1 none 3 some 3 some 2 some 1 some 0 some 1 some 1 some 0
    some 3 some 2 some 1 some 2 some 0 none 17 none 16 none 15 some 14 some 13 some 12 some 11 some 10 some 5 some 2 some 1 some 1 some 6 some 5 none 2
    some 4 some 3 none 2 some 1 some 26 some 2 some 1 some 0 some 1 some 6 some 5 some 1 some 0 some 4 some 1 some 0 none 9 none 8 some 7 some 6 some 5
    some 4 some 2 some 1 some 1 some 26 none 32 none 31 some 30 some 29 some 28 some 27 some 26 some 1 some 27 some 1 some 26 none 5 none 4 none 3 none 2
    some 26 some 1 some 0 none 30 none 29 none 4 some 3 some 2 some 1 some 2 some 1 some 0 some 1 some 5 some 4 some 0 none 9 none 8 some 7 some 6 some 5
    some 4 some 1 none 3 none 2 some 1 some 2 some 1 some 0 some 1 some 5 some 4 some 5 some 4 some 3 some 2 none 1 some 0 some 1 some 0 some 1 some 7
    some 6 some 5 some 4 some 0 some 1 some 20 some 6 some 5 some 2 some 1 some 25 some 24 some 23 some 4 some 3 none 2 some 1 some 1 some 10 some 9 some 8
    none 1 some 7 some 1 some 27 some 26 none 18 none 17 none 16 some 15 some 14 some 13 some 12 some 11 none 1 some 10 some 4 some 2 some 1 some 8 none 7
    some 6 none 3 none 2 some 1 some 5 some 4 some 3 some 2 some 1 some 1 some 1 some 26 none 2 some 1 some 6 some 1 none 3 none 2 some 1 some 2 some 1
    some 0 none 29 none 8 some 7 some 2 none 28 some 27 none 3 none 2 some 1 some 26 some 25 some 1 some 24 some 23 some 3 some 2 some 1 some 0 none 8
    none 7 some 6 some 5 some 4 some 4 some 0 some 3 some 0 some 2 some 0 some 1 some 0 some 4 some 3 none 2 some 1
};
