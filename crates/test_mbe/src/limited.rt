//! Macros, each with an input, the most tokens that its expansion may have, and what it then is.
use crate::macros::text_of;
use crate::texts::{holds, tree_of};
use mbe_rules::MacroRules;
use std::alloc::Global;
use std::test::Fail;

// Returns the result for an input as a text.
fn told(alloc: Global, arms: &str, input: &str, most: usize) -> Option<String> {
    let arms = tree_of(alloc, arms)?;
    let input = tree_of(alloc, input)?;
    let rules = MacroRules::new(alloc, arms.token_trees().iter()).ok()?;
    text_of(
        alloc,
        rules.expand_within(alloc, input.token_trees().iter(), most),
    )
}

// Tokens, subtrees, a separator, and an opaque subtree, with as many tokens as are allowed and with one more; an empty template.
const WRITTEN: [(&str, &str, usize, &str); 16] = [
    ("() => {}", "", 0, "{0"),
    ("() => {a}", "", 1, "{1a "),
    ("() => {a}", "", 0, "over limit 0"),
    ("() => {a}", "", usize::MAX, "{1a "),
    ("() => {[]}", "", 1, "{1[0"),
    ("() => {[]}", "", 0, "over limit 0"),
    ("() => {[a]}", "", 2, "{2[1a "),
    ("() => {[a]}", "", 1, "over limit 0"),
    ("($x:tt) => {$x}", "(a b)", 3, "{3(2a b "),
    ("($x:tt) => {$x}", "(a b)", 2, "over limit 0"),
    ("($e:expr) => {$e}", "a + b", 4, "{4<3a + b "),
    ("($e:expr) => {$e}", "a + b", 3, "over limit 0"),
    ("($e:expr) => {$e}", "a + b", 0, "over limit 0"),
    ("($($x:tt)*) => {$($x)=>*}", "a b", 4, "{4a = > b "),
    ("($($x:tt)*) => {$($x)=>*}", "a b", 3, "over limit 0"),
    ("($($x:tt)*) => {$($x)=>*}", "a b", 2, "over limit 0"),
];

// A variable written in each round of nested repetitions: 18 tokens.
const NESTED: [(&str, &str, usize, &str); 4] = [
    (
        "($($([$($x:tt)*])+);*) => {$($($($x $x $x)*)+)*}",
        "[a b] [c]; [d e f]",
        18,
        "{ia a a b b b c c c d d d e e e f f f ",
    ),
    (
        "($($([$($x:tt)*])+);*) => {$($($($x $x $x)*)+)*}",
        "[a b] [c]; [d e f]",
        17,
        "over limit 0",
    ),
    (
        "($($([$($x:tt)*])+);*) => {$($($($x $x $x)*)+)*}",
        "[a b] [c]; [d e f]",
        2,
        "over limit 0",
    ),
    (
        "($h:tt; $([$($x:tt)*])*) => {$($($h $x)*)*}",
        "(a b c); [1 2] [3 4]",
        19,
        "over limit 0",
    ),
];

// What comes first counts: a fault, or more tokens than allowed. Only the arm that takes the input writes.
const FIRST: [(&str, &str, usize, &str); 9] = [
    ("($($x:tt)*) => {a b $($x)+}", "", 2, "no round 0"),
    ("($($x:tt)*) => {a b $($x)+}", "", 1, "over limit 0"),
    ("($($x:tt)*) => {$($x)+ a b}", "", 0, "no round 0"),
    (
        "($($x:ident)*; $($y:ident)*) => {a $($x $y)*}",
        "a b; c",
        1,
        "lengths 0",
    ),
    (
        "($($x:ident)*; $($y:ident)*) => {a $($x $y)*}",
        "a b; c",
        0,
        "over limit 0",
    ),
    ("(a b) => {}; (a) => {c d}", "a", 2, "{2c d "),
    ("(a b) => {}; (a) => {c d}", "a", 1, "over limit 1"),
    ("(a b) => {c}", "a", 0, "no match 1"),
    ("($(a)? $(a)?) => {c}", "a", 0, "ambiguous 0"),
];

fn are_told(alloc: Global, rows: &[(&str, &str, usize, &str)]) -> bool {
    for (arms, input, most, wanted) in rows {
        match told(alloc, arms, input, *most) {
            Some(text) if text.as_str() == *wanted => {}
            _ => return false,
        }
    }
    true
}

#[test]
fn no_more_tokens_are_written_than_allowed(rt: HostRuntime) -> Result<(), Fail> {
    let alloc = rt.alloc();
    holds(are_told(alloc, &WRITTEN))?;
    holds(are_told(alloc, &NESTED))
}

#[test]
fn the_first_fault_or_the_limit_counts(rt: HostRuntime) -> Result<(), Fail> {
    holds(are_told(rt.alloc(), &FIRST))
}
