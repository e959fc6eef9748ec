//! Patterns, each with an input and in how many ways it is an instance of the pattern: none, one, or two and more.
use crate::texts::{holds, tree_of};
use mbe_matcher::{Binder, Binding, Found};
use mbe_program::Matcher;
use std::alloc::Global;
use std::test::Fail;
use tt::TopSubtree;

// Returns in how many ways an input is an instance of a pattern, if there is an answer: 2 also means more.
fn ways(alloc: Global, pattern: &str, input: &str) -> Option<usize> {
    let pattern = tree_of(alloc, pattern)?;
    let matcher = Matcher::new(alloc, pattern.token_trees().iter()).ok()?;
    let input = tree_of(alloc, input)?;
    match matcher.read(alloc, input.token_trees().iter()) {
        Ok(Found::Nothing(_)) => Some(0),
        Ok(Found::One(_)) => Some(1),
        Ok(Found::Many) => Some(2),
        Err(_) => None,
    }
}

// Returns the flat place of an input at which a pattern stops, if the input is no instance of it.
fn stop(alloc: Global, pattern: &str, input: &str) -> Option<usize> {
    let pattern = tree_of(alloc, pattern)?;
    let matcher = Matcher::new(alloc, pattern.token_trees().iter()).ok()?;
    let input = tree_of(alloc, input)?;
    match matcher.read(alloc, input.token_trees().iter()) {
        Ok(Found::Nothing(at)) => Some(at),
        Ok(Found::One(_)) | Ok(Found::Many) | Err(_) => None,
    }
}

// Before the first token, after some, in a subtree, at its end, after it; after a round, after a separator, in a round and in a repetition
// of it; if one of two ways gets farther; before a token whose beginning alone the input has; after a `vis` that takes nothing, and after
// one that takes three tokens; if nothing is left; after an expression, and before something that is none.
const STOPS: [(&str, &str, usize); 30] = [
    ("", "a", 0),
    ("a", "", 0),
    ("a", "b", 0),
    ("a b c", "a b", 2),
    ("a b c", "a b d", 2),
    ("a (b c) d", "a (b d) d", 3),
    ("a (b c) d", "a (b)", 3),
    ("a (b c) d", "a (b c c)", 4),
    ("a (b c) d", "a (b c) e", 4),
    ("a (b c) d", "a [b c] d", 1),
    ("$x:tt d", "(b c) e", 3),
    ("$($x:ident),*", "a, b c", 3),
    ("$($x:ident),*", "a, b,", 4),
    ("$($x:ident),*", "a, (b)", 2),
    ("$($x:ident),+", "1", 0),
    ("$($($x:ident)+ ;)*", "a b ; c , d", 4),
    ("$($x:ident)? 1 2", "1 3", 1),
    ("$($x:tt)* end", "a b", 2),
    ("$(a b c)? a b d", "a b c", 3),
    ("a = b", "a == b", 1),
    ("a == b", "a == c", 3),
    ("$v:vis struct", "enum", 0),
    ("a [$v:vis] b", "a [] b", 2),
    ("$x:literal", "- a", 0),
    ("$v:vis struct", "pub(crate) enum", 3),
    ("$x:lifetime b", "'a c", 2),
    ("$e:expr;", "a + b", 3),
    ("$e:expr", "a b", 1),
    ("f $e:expr", "f +", 1),
    ("$($e:expr),*", "a(b), ;", 4),
];

fn are_stopped(alloc: Global) -> bool {
    for (pattern, input, place) in &STOPS {
        if stop(alloc, pattern, input) != Some(*place) {
            return false;
        }
    }
    true
}

// A list with a comma at its end or none, options given twice, fragments, subtrees, nested repetitions, names, `$crate`, a last `$` and one
// between rounds; comments; visibilities, which may be empty before a tree, next to each other and at the end of rounds.
const WAYS: [(&str, &str, usize); 163] = [
    ("$($x:ident),* $(,)?", "", 1),
    ("$($x:ident),* $(,)?", "a", 1),
    ("$($x:ident),* $(,)?", "a, b,", 1),
    ("$($x:ident),* $(,)?", ",", 1),
    ("$($x:ident),* $(,)?", "a b", 0),
    ("$($x:ident),* $(,)?", "a,,", 0),
    ("$($x:ident),* $(,)?", ", a", 0),
    ("$($x:ident),* $(,)?", "(a)", 0),
    ("$($x:ident),*", "a,", 0),
    ("$($x:ident)*", "a b", 1),
    ("$($x:ident)* b", "a b", 1),
    ("$($x:ident)* b", "a c", 0),
    ("$($x:ident),+", "", 0),
    ("$($x:ident),+", "a", 1),
    ("$($x:ident),+", "a, b", 1),
    ("$($x:ident)+", "", 0),
    ("$($x:ident)?", "a", 1),
    ("$($x:ident)?", "a b", 0),
    ("$(=>)? $(=>)?", "", 1),
    ("$(=>)? $(=>)?", "=>", 2),
    ("$(=>)? $(=>)?", "=> =>", 1),
    ("$(=>)? $(=>)?", "= >", 0),
    ("$(=>)? $(=>)?", "=> => =>", 0),
    ("$($x:tt)* $($y:tt)*", "a", 2),
    ("$($x:tt)* $($y:tt)*", "", 1),
    ("$($x:tt $y:literal)+", "a 1", 1),
    ("$($x:tt $y:literal)+", "'a -1", 1),
    ("$($x:tt $y:literal)+", "=> true () -1.5", 1),
    ("$($x:tt $y:literal)+", "a b", 0),
    ("$($x:tt $y:literal)+", "= > 1", 0),
    ("$($x:tt $y:literal)+", "a - b", 0),
    ("$($x:tt $y:literal)+", "- 1", 1),
    ("[$($x:lifetime)*] $y:block", "[] {}", 1),
    ("[$($x:lifetime)*] $y:block", "['a 'b] { c }", 1),
    ("[$($x:lifetime)*] $y:block", "['a b] {}", 0),
    ("[$($x:lifetime)*] $y:block", "('a) {}", 0),
    ("[$($x:lifetime)*] $y:block", "[] ()", 0),
    ("[$($x:lifetime)*] $y:block", "[] {} {}", 0),
    ("[$($x:lifetime)*] $y:block", "[[]] {}", 0),
    ("$($k:ident => $v:tt),* $(,)?", "a => 1, b => (2),", 1),
    ("$($k:ident => $v:tt),* $(,)?", "a = > 1", 0),
    ("$($x:ident)=>*", "a => b", 1),
    ("$($x:ident)=>*", "a = > b", 0),
    ("$($x:ident)'a*", "b 'a c", 1),
    ("$($x:ident)**", "a b *", 1),
    ("$($x:ident)**", "a * b", 0),
    ("$($x:ident)+*", "a b *", 1),
    ("$($x:ident)?*", "a *", 1),
    ("$($($x:ident)+);*", "a b; c", 1),
    ("$($($x:ident)+);*", "a b;", 0),
    ("$([$($x:ident),*])*", "[] [a] [b, c]", 1),
    ("$([$($x:ident),*])*", "[a] (b)", 0),
    ("$($($($x:ident),+);+)|+", "a, b; c | d", 1),
    ("$($(a)? b)*", "a b b", 1),
    ("$($(a)? b)*", "b a", 0),
    ("{ $x:tt } $($rest:tt)*", "{ a } b c", 1),
    ("{ $x:tt } $($rest:tt)*", "{ a b } c", 0),
    ("$_:ident", "a", 1),
    ("$_:ident", "_", 0),
    ("$_:tt $x:tt", "a b", 1),
    ("$x:ident", "self", 1),
    ("$x:ident", "r#if", 1),
    ("$x:ident", "true", 1),
    ("$x:ident", "'a", 0),
    ("$x:ident", "$crate", 0),
    ("$x:lifetime", "'_", 1),
    ("$x:lifetime", "'static", 1),
    ("$x:lifetime", "'r#if", 1),
    ("$x:lifetime", "a", 0),
    ("$x:tt", "'a", 1),
    ("$x:tt: loop", "'a: loop", 1),
    ("$x:tt", "_", 1),
    ("$x:tt $y:tt", "a b", 1),
    ("$(a)?", "a a", 0),
    ("$r#x:ident", "a", 1),
    ("$x:r#ident", "a", 1),
    ("$crate", "$crate", 1),
    ("$crate::a", "$crate::a", 1),
    ("$crate:ident", "a", 0),
    ("$crate", "crate", 0),
    ("$self:tt", "a", 1),
    ("$", "$", 1),
    ("$", "", 0),
    ("a $", "a $", 1),
    ("a $", "a", 0),
    ("[$] a", "[$] a", 1),
    ("$x:tt $", "a $", 1),
    ("$($x:ident)$*", "", 1),
    ("$($x:ident)$*", "a", 1),
    ("$($x:ident)$*", "a $ b", 1),
    ("$($x:ident)$*", "a b", 0),
    ("$($x:ident)$+", "a $", 0),
    ("$(a)*$", "a $", 1),
    ("$(a)++", "a a +", 1),
    ("$(a)?=", "a =", 1),
    ("#[$m:meta] b", "/// a\n b", 1),
    ("# $x:tt b", "/// a\n b", 1),
    ("#[doc = $x:literal] b", "/// a\n b", 1),
    ("#[doc = r\" a\"] b", "/// a\n b", 1),
    ("#[doc = \" a\"] b", "/// a\n b", 0),
    ("#![$m:meta] b", "//! a\n b", 1),
    ("b", "/// a\n b", 0),
    ("==", "==", 1),
    ("==", "= =", 0),
    ("= =", "==", 0),
    ("$x:literal", "- \"s\"", 1),
    ("$x:literal", "- r\"s\"", 1),
    ("$x:literal", "- b\"s\"", 1),
    ("$x:literal", "- 'c'", 1),
    ("$x:literal", "- true", 1),
    ("$x:literal", "- false", 1),
    ("$x:literal", "- r#true", 0),
    ("$x:literal", "r#true", 0),
    ("$x:literal", "- - 1", 0),
    ("$x:literal", "- (1)", 0),
    ("$x:literal", "-", 0),
    ("$x:literal", "_", 0),
    ("$x:literal $y:tt", "- true b", 1),
    ("- $x:literal", "- true", 1),
    ("- $x:literal", "- - true", 1),
    ("$x:block", "{ 1; 2 }", 1),
    ("$v:vis", "", 0),
    ("$v:vis", "a", 0),
    ("$x:ident $v:vis", "a", 0),
    ("$x:ident $v:vis", "a pub", 1),
    ("[$v:vis]", "[]", 0),
    ("[$v:vis]", "[pub]", 1),
    ("[$v:vis] a", "[] a", 0),
    ("$v:vis, a", ", a", 1),
    ("$v:vis $($x:ident)?", "", 0),
    ("$v:vis $($x:ident)?", "pub", 1),
    ("$v:vis $($x:ident)?", "a", 1),
    ("$($v:vis a)*", "", 1),
    ("$($v:vis a)*", "pub a a", 1),
    ("$v:vis", "pub", 1),
    ("$v:vis", "pub(crate)", 1),
    ("$v:vis", "pub(self)", 1),
    ("$v:vis", "pub(super)", 1),
    ("$v:vis", "pub(in a::b)", 1),
    ("$v:vis", "pub(a)", 0),
    ("$v:vis", "r#pub", 0),
    ("$v:vis", "pub[crate]", 0),
    ("$v:vis", "pub(crate a)", 0),
    ("$v:vis $x:ident", "a", 1),
    ("$v:vis $x:ident", "pub a", 1),
    ("$v:vis $x:ident", "pub", 0),
    ("$v:vis ($x:tt)", "pub (a)", 1),
    ("$v:vis ($x:tt)", "pub (crate)", 0),
    ("$v:vis $w:vis a", "pub a", 1),
    ("$v:vis $w:vis a", "a", 1),
    ("$v:vis $w:vis", "pub pub", 1),
    ("$($v:vis $x:ident),*", "pub a, b", 1),
    ("$($x:ident $v:vis)*", "a pub b", 0),
    ("$($x:ident $v:vis)*", "a b pub", 1),
    ("($v:vis) $w:vis", "() pub", 0),
    ("($v:vis) $w:vis", "(pub) pub", 1),
    ("$($v:vis $x:tt $w:vis)* $u:vis", "a", 0),
    ("$($v:vis $x:tt $w:vis)* $u:vis", "a pub pub", 1),
    ("$(a $v:vis)* $w:vis", "a pub", 0),
    ("$(a $v:vis)* $w:vis", "a pub pub", 1),
    ("$($(a $v:vis)+)*", "a a pub", 2),
    ("$(a)? $v:vis b", "a b", 1),
    ("$v:vis $x:tt", "pub", 0),
];

// Returns whether each input is an instance in that number of ways.
pub(crate) fn are_ways(alloc: Global, rows: &[(&str, &str, usize)]) -> bool {
    for (pattern, input, wanted) in rows {
        if ways(alloc, pattern, input) != Some(*wanted) {
            return false;
        }
    }
    true
}

// Returns the idents that the variable with that number took, each with a space after it.
fn idents(alloc: Global, binding: &Binding<'_>, number: usize) -> Option<String> {
    let mut names = String::new(alloc);
    for trees in binding.trees(alloc, number).ok()?.iter() {
        let ident = trees.iter().expect_ident().ok()?;
        names.push_str(ident.sym.as_str()).ok()?;
        names.push_str(" ").ok()?;
    }
    Some(names)
}

// Returns where the rounds of the innermost of these repetitions end, each time.
fn ends(alloc: Global, binding: &Binding<'_>, nest: &[usize]) -> Option<Vec<usize>> {
    match nest.last() {
        Some(number) => binding.ends(alloc, *number).ok(),
        None => Some(Vec::new(alloc)),
    }
}

// Returns whether the variable took these idents, and the rounds around it end there.
fn is_bound(
    alloc: Global,
    binding: &Binding<'_>,
    binder: &Binder,
    names: &str,
    wanted: &[usize],
) -> bool {
    let Some(found) = idents(alloc, binding, binder.number) else {
        return false;
    };
    let Some(rounds) = ends(alloc, binding, &binder.nest) else {
        return false;
    };
    found.as_str() == names && rounds.as_slice() == wanted
}

// Returns whether a variable has that name.
fn is_named(binder: &Binder, name: &str) -> bool {
    binder.name.as_str() == name
}

// Returns whether the input is an instance in one way, with those idents for the variable of that name.
fn binds(
    alloc: Global,
    matcher: &Matcher,
    input: &TopSubtree,
    name: &str,
    names: &str,
    wanted: &[usize],
) -> bool {
    let Ok(Found::One(binding)) = matcher.read(alloc, input.token_trees().iter()) else {
        return false;
    };
    for binder in matcher.binders() {
        if is_named(binder, name) {
            return is_bound(alloc, &binding, binder, names, wanted);
        }
    }
    false
}

// Returns the matcher of a text.
fn matcher_of(alloc: Global, pattern: &str) -> Option<Matcher> {
    let pattern = tree_of(alloc, pattern)?;
    Matcher::new(alloc, pattern.token_trees().iter()).ok()
}

// A pattern, an input, a name, the idents of its variable, and where rounds around it end: lists, empty ones, lists in lists, two names
// next to each other, a subtree, and rounds with optional parts.
const BOUND: [(&str, &str, &str, &str, &[usize]); 12] = [
    ("$($x:ident),* $(,)?", "a, b,", "x", "a b ", &[2]),
    ("$($x:ident),* $(,)?", ",", "x", "", &[0]),
    ("$($x:ident),*", "", "x", "", &[0]),
    ("$($($x:ident)+);*", "a b; c", "x", "a b c ", &[2, 3]),
    (
        "$([$($x:ident),*])*",
        "[] [a] [b, c]",
        "x",
        "a b c ",
        &[0, 1, 3],
    ),
    (
        "$($($($x:ident),+);+)|+",
        "a, b; c | d",
        "x",
        "a b c d ",
        &[2, 3, 4],
    ),
    (
        "$($x:ident => $y:ident),*",
        "a => b, c => d",
        "x",
        "a c ",
        &[2],
    ),
    (
        "$($x:ident => $y:ident),*",
        "a => b, c => d",
        "y",
        "b d ",
        &[2],
    ),
    ("{ $x:ident } $y:ident", "{ a } b", "x", "a ", &[]),
    ("{ $x:ident } $y:ident", "{ a } b", "y", "b ", &[]),
    ("$($(;)? $x:ident b)*", "; c b d b", "x", "c d ", &[2]),
    (
        "$($x:ident)? ; $($y:ident)*",
        "; a b c",
        "y",
        "a b c ",
        &[3],
    ),
];

fn are_bound(alloc: Global) -> bool {
    for (pattern, input, name, names, wanted) in &BOUND {
        let Some(matcher) = matcher_of(alloc, pattern) else {
            return false;
        };
        let Some(input) = tree_of(alloc, input) else {
            return false;
        };
        if !binds(alloc, &matcher, &input, name, names, wanted) {
            return false;
        }
    }
    true
}

#[test]
fn inputs_are_instances_in_so_many_ways(rt: HostRuntime) -> Result<(), Fail> {
    holds(are_ways(rt.alloc(), &WAYS))
}

#[test]
fn patterns_stop_where_none_comes_farther(rt: HostRuntime) -> Result<(), Fail> {
    holds(are_stopped(rt.alloc()))
}

#[test]
fn names_are_bound_to_what_was_taken(rt: HostRuntime) -> Result<(), Fail> {
    holds(are_bound(rt.alloc()))
}
