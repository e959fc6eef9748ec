//! Macros, each with an input and its expansion.
use crate::texts::{holds, tree_of};
use crate::written::written;
use mbe_rules::{ExpandError, Expansion, MacroRules, TranscribeError};
use std::alloc::Global;
use std::test::Fail;

// Returns the result for an input as a text.
fn told(alloc: Global, arms: &str, input: &str) -> Option<String> {
    let arms = tree_of(alloc, arms)?;
    let input = tree_of(alloc, input)?;
    let rules = MacroRules::new(alloc, arms.token_trees().iter()).ok()?;
    text_of(alloc, rules.expand(alloc, input.token_trees().iter()))
}

/// Returns an answer as a text: its tokens, or that no arm takes the input and where the farthest stops, or the number of the arm
/// that takes it in two ways, or that the template is not filled.
pub(crate) fn text_of(alloc: Global, answer: Result<Expansion, ExpandError>) -> Option<String> {
    match answer {
        Ok(Expansion::Tree(tree)) => written(alloc, &tree),
        Ok(Expansion::NoMatch(at)) => numbered(alloc, "no match ", at),
        Ok(Expansion::Ambiguous(arm)) => numbered(alloc, "ambiguous ", arm),
        Err(error) => match error.fault {
            TranscribeError::StillRepeats(_) => numbered(alloc, "still repeats ", error.arm),
            TranscribeError::NothingRepeats(_) => numbered(alloc, "nothing repeats ", error.arm),
            TranscribeError::LengthsDiffer(_) => numbered(alloc, "lengths ", error.arm),
            TranscribeError::NoRound(_) => numbered(alloc, "no round ", error.arm),
            TranscribeError::OverLimit => numbered(alloc, "over limit ", error.arm),
            TranscribeError::Tree(_) => None,
        },
    }
}

// Returns a word, and a small number.
fn numbered(alloc: Global, word: &str, number: usize) -> Option<String> {
    let mut text = String::new(alloc);
    text.push_str(word).ok()?;
    text.push(char::from_digit(u32::try_from(number).ok()?, 10)?)
        .ok()?;
    Some(text)
}

// The first arm that takes the input answers, in the brackets of its template. If it takes the input in two ways, or its
// template is not filled, no later arm answers.
// A list, a tail, words that are not variables, and common forms of macros: a map, a count by recursion, an enum with a visibility and
// values, lists in lists, a loop with its lifetime, a macro that is handed on; `$_`, a `$` between rounds and a last one.
const EXPANSIONS: [(&str, &str, &str); 31] = [
    ("() => {}", "", "{0"),
    ("() => {a};", "", "{1a "),
    ("[] => (a b)", "", "(2a b "),
    ("() => {}", "a", "no match 0"),
    ("(a) => {1}; (b) => [2]", "b", "[12 "),
    ("($x:tt) => {1}; (a) => {2}", "a", "{11 "),
    ("(a) => {2}; ($x:tt) => {1}", "a", "{12 "),
    ("(a) => {2}; ($x:tt) => {1}", "c", "{11 "),
    ("(a) => {2}; ($x:tt) => {1}", "c c", "no match 1"),
    (
        "(a b c) => {}; (a b) => {}; (d) => {}",
        "a b d",
        "no match 2",
    ),
    (
        "($($x:tt)* $($y:tt)*) => {1}; ($z:tt) => {2}",
        "a",
        "ambiguous 0",
    ),
    ("(b) => {1}; ($(a)? $(a)?) => {2}", "a", "ambiguous 1"),
    ("($($x:tt)* end) => {$($x)*}", "a end b end", "{3a end b "),
    (
        "($($x:ident)* ; $($y:ident)*) => {$($x $y)*}",
        "a b ; c",
        "lengths 0",
    ),
    ("(b) => {}; ($($x:ident)*) => {$($x)+}", "", "no round 1"),
    ("(b) => {1}; ($($x:ident)*) => {a $x}", "b", "{11 "),
    (
        "(b) => {1}; ($($x:ident)*) => {a $x}",
        "c",
        "still repeats 1",
    ),
    ("($x:tt) => {$(b)*}", "a", "nothing repeats 0"),
    (
        "($($k:ident => $v:tt),* $(,)?) => {$($k = $v;)*}",
        "a => 1, b => [c],",
        "{9a = 1 ; b = [1c ; ",
    ),
    (
        "(@sum) => {0}; (@sum $h:literal $($t:literal)*) => {$h + m!(@sum $($t)*)}",
        "@sum 1 2 3",
        "{91 + m ! (4@ sum 2 3 ",
    ),
    ("(0: $n:ident) => {$crate::$n}", "0: f", "{5$ crate : : f "),
    ("($($n:ident)|+) => {$(#[$n])+}", "a | b", "{6# [1a # [1b "),
    (
        "() => {Map::new()}; ($($k:tt => $v:tt),+ $(,)?) => {{ let mut m = Map::new(); $(m.insert($k, $v);)+ m }}",
        "1 => 2, 3 => 4",
        "{s{rlet mut m = Map : : new (0; m . insert (31 , 2 ; m . insert (33 , 4 ; m ",
    ),
    (
        "() => {0}; ($h:tt $($t:tt)*) => {1 + count!($($t)*)}",
        "a b c",
        "{71 + count ! (2b c ",
    ),
    (
        "($v:vis enum $n:ident {$($x:ident $(= $d:literal)?),* $(,)?}) => {$v enum $n {$($x $(= $d)?),*}}",
        "pub enum E { A = -1, B, }",
        "{bpub enum E {7A = <2- 1 , B ",
    ),
    (
        "($([$($x:literal),*]),*) => {[$([$($x),*]),*]}",
        "[1, 2], [], [3]",
        "{a[9[31 , 2 , [0, [13 ",
    ),
    (
        "($l:lifetime : $b:block) => {$l : loop $b}",
        "'a: { x }",
        "{6' a : loop {1x ",
    ),
    (
        "($m:ident ! ($($a:tt)*)) => {$m!(begin $($a)*)}",
        "f!(1, 2)",
        "{7f ! (4begin 1 , 2 ",
    ),
    ("($_:tt $x:tt) => {$x $_}", "a b", "{2b a "),
    ("($($x:ident)$*) => {[$($x)$+]}", "a $ b", "{4[3a $ b "),
    ("(a $) => {b $}", "a $", "{2b $ "),
];

// What a fragment took: an expression, a type, a pattern or a literal of more than one token is one subtree. Others are the trees as they
// are.
const PIECES: [(&str, &str, &str); 14] = [
    ("($x:literal) => {$x.pow(2)}", "-3", "{7<2- 3 . pow (12 "),
    ("($x:literal) => {$x.pow(2)}", "3", "{53 . pow (12 "),
    ("($x:literal) => {$x;}", "- true", "{4<2- true ; "),
    ("($x:literal) => {$x;}", "- \"s\"", "{4<2- s ; "),
    ("($e:expr) => {$e * 2}", "a + b", "{6<3a + b * 2 "),
    ("($e:expr) => {$e * 2}", "a", "{3a * 2 "),
    (
        "($($e:expr),* $(,)?) => {[$($e),*]}",
        "1 + 2, f(x),",
        "{a[9<31 + 2 , <3f (1x ",
    ),
    ("($t:ty) => {Vec<$t>}", "&'a u8", "{8Vec < <4& ' a u8 > "),
    (
        "($p:pat) => {match x {$p => 1}}",
        "Some(1) | None",
        "{cmatch x {9<5Some (11 | None = > 1 ",
    ),
    ("($p:pat) => {[$p, x]}", "..", "{5[4. . , x "),
    ("($p:path) => {$p::new()}", "a::b", "{8a : : b : : new (0"),
    (
        "($($i:item)*) => {mod m {$($i)*}}",
        "struct A; fn f() {}",
        "{amod m {7struct A ; fn f (0{0",
    ),
    (
        "($(#[$m:meta])* struct $n:ident;) => {$(#[$m])* enum $n {}}",
        "#[a] #[b = 1] struct S;",
        "{b# [1a # [3b = 1 enum S {0",
    ),
    (
        "($($s:stmt;)*) => {{$($s;)*}}",
        "let a = 1; f();",
        "{9{8let a = 1 ; f (0; ",
    ),
];

// Returns the result of expanding an expansion by other arms.
fn told_again(alloc: Global, arms: &str, input: &str, others: &str) -> Option<String> {
    let arms = tree_of(alloc, arms)?;
    let input = tree_of(alloc, input)?;
    let rules = MacroRules::new(alloc, arms.token_trees().iter()).ok()?;
    let Ok(Expansion::Tree(middle)) = rules.expand(alloc, input.token_trees().iter()) else {
        return None;
    };
    let others = tree_of(alloc, others)?;
    let rules = MacroRules::new(alloc, others.token_trees().iter()).ok()?;
    match rules.expand(alloc, middle.token_trees().iter()) {
        Ok(Expansion::Tree(tree)) => written(alloc, &tree),
        _ => None,
    }
}

// A subtree of a fragment is taken as one: by `tt`, and by its own fragment, which then writes it as it is, or as a part of more. A negated
// literal is taken so by `literal`, `expr` and `pat`, whether a `literal` or an `expr` took it first.
const AGAIN: [(&str, &str, &str, &str); 16] = [
    (
        "($e:expr) => {$e * 2}",
        "a + b",
        "($x:tt * $y:tt) => {$y $x}",
        "{52 <3a + b ",
    ),
    (
        "($e:expr) => {$e * 2}",
        "a + b",
        "($e:expr) => {$e;}",
        "{8<6<3a + b * 2 ; ",
    ),
    (
        "($e:expr) => {$e}",
        "a + b",
        "($e:expr) => {$e;}",
        "{5<3a + b ; ",
    ),
    (
        "($t:ty) => {Vec<$t>}",
        "&'a u8",
        "(Vec<$t:ty>) => {$t}",
        "{5<4& ' a u8 ",
    ),
    (
        "($p:pat) => {$p = x}",
        "A | B",
        "($p:pat_param = x) => {$p}",
        "{4<3A | B ",
    ),
    (
        "($x:literal) => {$x}",
        "-3",
        "($y:literal) => {$y;}",
        "{4<2- 3 ; ",
    ),
    (
        "($x:literal) => {$x}",
        "-3",
        "($y:expr) => {$y;}",
        "{4<2- 3 ; ",
    ),
    (
        "($x:literal) => {$x}",
        "-3",
        "($y:pat) => {$y;}",
        "{4<2- 3 ; ",
    ),
    (
        "($x:literal) => {$x}",
        "-3",
        "($y:tt) => {$y;}",
        "{4<2- 3 ; ",
    ),
    (
        "($x:literal) => {$x}",
        "3",
        "($y:literal) => {$y;}",
        "{23 ; ",
    ),
    (
        "($x:expr) => {$x}",
        "-3",
        "($y:literal) => {$y;}",
        "{4<2- 3 ; ",
    ),
    (
        "($x:expr) => {$x}",
        "-3 + 1",
        "($y:literal) => {a}; ($y:tt) => {b}",
        "{1b ",
    ),
    (
        "($x:literal) => {-$x}",
        "3",
        "($y:literal) => {$y;}",
        "{4<2- 3 ; ",
    ),
    (
        "($x:expr) => {$x}",
        "- true",
        "($y:literal) => {$y;}",
        "{4<2- true ; ",
    ),
    (
        "($x:literal) => {-$x}",
        "true",
        "($y:literal) => {$y;}",
        "{4<2- true ; ",
    ),
    (
        "($($x:literal),*) => {$($x)*}",
        "-3, 4, -1.5",
        "($($y:literal)*) => {[$($y),*]}",
        "{a[9<2- 3 , 4 , <2- 1.5 ",
    ),
];

fn are_taken_as_one(alloc: Global) -> bool {
    for (arms, input, others, wanted) in &AGAIN {
        match told_again(alloc, arms, input, others) {
            Some(text) if text.as_str() == *wanted => {}
            _ => return false,
        }
    }
    true
}

fn are_expanded(alloc: Global, rows: &[(&str, &str, &str)]) -> bool {
    for (arms, input, wanted) in rows {
        match told(alloc, arms, input) {
            Some(text) if text.as_str() == *wanted => {}
            _ => return false,
        }
    }
    true
}

#[test]
fn macros_expand(rt: HostRuntime) -> Result<(), Fail> {
    holds(are_expanded(rt.alloc(), &EXPANSIONS))
}

#[test]
fn pieces_of_rust_stand_as_they_were_bound(rt: HostRuntime) -> Result<(), Fail> {
    holds(are_expanded(rt.alloc(), &PIECES))
}

#[test]
fn what_stands_as_one_is_taken_as_one(rt: HostRuntime) -> Result<(), Fail> {
    holds(are_taken_as_one(rt.alloc()))
}
