//! Macros, each with an input and the number of trees of its expansion that a fragment takes. The compiler takes the same number.
use crate::texts::{holds, tree_of};
use mbe_grammar::reach_deep;
use mbe_pattern::GrammarFragment;
use mbe_rules::{Expansion, MacroRules};
use std::alloc::Global;
use std::test::Fail;

// A fragment, and macros: an arm, an input, and the number of trees that the fragment takes of the expansion; 0 if it takes none.
struct Row {
    fragment: GrammarFragment,
    macros: &'static [(&'static str, &'static str, usize)],
}

// What a variable took is one piece: a negative number as a bound of a range, before and behind each sign, and as an argument; a path as a
// bound; a type and a block as an argument. A range behind `&` and a sum as an argument are errors.
const ROWS: [Row; 5] = [
    Row {
        fragment: GrammarFragment::Pat,
        macros: &[
            ("($a:literal $b:literal) => {$a..=$b}", "-1 -2", 5),
            ("($a:literal $b:literal) => {$a...$b}", "-1 -2", 5),
            ("($a:expr, $b:expr) => {$a..$b}", "-1, -2", 4),
            ("($a:literal) => {$a..}", "-1", 3),
            ("($a:literal) => {..$a}", "-1", 3),
            ("($a:literal) => {A..=$a}", "-1", 5),
            ("($a:literal) => {&$a...9}", "-1", 6),
            ("($a:literal) => {&$a..9}", "-1", 0),
            ("($a:literal) => {&..$a}", "-1", 0),
            ("($a:literal) => {[$a, ..]}", "-1", 1),
            ("($a:literal) => {&$a | $a}", "-1", 4),
            ("($a:expr) => {$a..=9}", "A::B", 5),
        ],
    },
    Row {
        fragment: GrammarFragment::Ty,
        macros: &[
            ("($a:literal) => {A<$a>}", "-1", 4),
            ("($a:expr) => {A<B, $a, C>}", "-1", 8),
            ("($a:literal) => {A<B = $a>}", "-1", 6),
            ("($t:ty) => {A<$t>}", "&B", 4),
            ("($t:ty) => {A<B = $t>}", "&B", 6),
            ("($b:block) => {A<$b>}", "{ 1 }", 4),
            ("($a:expr) => {A<$a>}", "1 + 2", 0),
        ],
    },
    Row {
        fragment: GrammarFragment::Path,
        macros: &[("($a:literal) => {A::<$a>}", "-1", 6)],
    },
    Row {
        fragment: GrammarFragment::Expr,
        macros: &[
            ("($a:literal) => {a::<$a>()}", "-1", 7),
            ("($a:literal) => {a.b::<$a>()}", "-1", 9),
        ],
    },
    Row {
        fragment: GrammarFragment::Item,
        macros: &[("($a:literal) => {struct A<const N: i32 = $a>;}", "-1", 11)],
    },
];

// Returns how many trees of the expansion the fragment takes; 0 if it takes none.
fn taken(alloc: Global, fragment: GrammarFragment, arm: &str, input: &str) -> Option<usize> {
    let arm = tree_of(alloc, arm)?;
    let input = tree_of(alloc, input)?;
    let rules = MacroRules::new(alloc, arm.token_trees().iter()).ok()?;
    let expansion = rules.expand(alloc, input.token_trees().iter()).ok()?;
    let Expansion::Tree(tree) = expansion else {
        return None;
    };
    let count = reach_deep(alloc, fragment, tree.token_trees().iter()).ok()?;
    Some(count.unwrap_or(0))
}

// Returns whether the fragment takes that number of trees of each expansion.
fn are_taken(alloc: Global, row: &Row) -> bool {
    for (arm, input, count) in row.macros {
        if taken(alloc, row.fragment, arm, input) != Some(*count) {
            return false;
        }
    }
    true
}

#[test]
fn pieces_are_handed_on(rt: HostRuntime) -> Result<(), Fail> {
    let alloc = rt.alloc();
    for row in &ROWS {
        holds(are_taken(alloc, row))?;
    }
    Ok(())
}
