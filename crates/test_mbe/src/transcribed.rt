//! Templates, each with a pattern and an input: the tokens that fill the template, or why it is not filled.
use crate::texts::{holds, matcher_of, tree_of};
use mbe_matcher::Found;
use mbe_rules::{Template, TranscribeError};
use std::alloc::Global;
use std::test::Fail;
use tt::{DelimiterKind, Leaf, Subtree, TokenTree, TopSubtree};

// Writes a header: its bracket, and how many tokens it holds, which are few.
fn push_header(text: &mut String, header: &Subtree) -> Option<()> {
    let bracket = match header.delimiter.kind {
        DelimiterKind::Parenthesis => '(',
        DelimiterKind::Brace => '{',
        DelimiterKind::Bracket => '[',
        DelimiterKind::Invisible | DelimiterKind::InvisibleOpaque => '<',
    };
    text.push(bracket).ok()?;
    text.push(char::from_digit(header.len, 10)?).ok()
}

// Writes a leaf: its text, and a space.
fn push_leaf(text: &mut String, leaf: &Leaf) -> Option<()> {
    match leaf {
        Leaf::Ident(ident) => text.push_str(ident.sym.as_str()).ok()?,
        Leaf::Punct(punct) => text.push(punct.char).ok()?,
        Leaf::Literal(literal) => text.push_str(literal.text()).ok()?,
    }
    text.push(' ').ok()
}

// Returns the tokens of a tree as a text.
fn written(alloc: Global, tree: &TopSubtree) -> Option<String> {
    let mut text = String::new(alloc);
    let mut tokens = tree.token_trees().iter_flat_tokens();
    for token in &mut tokens {
        match token {
            TokenTree::Subtree(header) => push_header(&mut text, &header)?,
            TokenTree::Leaf(leaf) => push_leaf(&mut text, &leaf)?,
        }
    }
    Some(text)
}

// Returns the filled template, or why it is not filled; nothing if the input is read in no way, or in many.
fn transcribed(
    alloc: Global,
    pattern: &str,
    input: &str,
    template: &str,
) -> Option<Result<TopSubtree, TranscribeError>> {
    let matcher = matcher_of(alloc, pattern)?;
    let input = tree_of(alloc, input)?;
    let trees = tree_of(alloc, template)?;
    let template = Template::new(alloc, matcher.binders(), trees.token_trees().iter()).ok()?;
    let Found::One(binding) = matcher.read(alloc, input.token_trees().iter()).ok()? else {
        return None;
    };
    let delimiter = trees.top_subtree().delimiter;
    Some(template.transcribe(alloc, matcher.binders(), binding, delimiter))
}

// Returns whether the filled template has these tokens.
fn is_transcribed(
    alloc: Global,
    pattern: &str,
    input: &str,
    template: &str,
    tokens: &str,
) -> Option<bool> {
    let tree = transcribed(alloc, pattern, input, template)?.ok()?;
    Some(written(alloc, &tree)?.as_str() == tokens)
}

// Uses; lists with separators and without, with one round and with none; an outer variable used in each round; lists in lists; options.
const TRANSCRIBED: [(&str, &str, &str, &str); 20] = [
    ("", "", "", ""),
    ("$x:tt", "a", "$x $x", "a a "),
    ("$x:tt", "(a b)", "[$x]", "[3(2a b "),
    ("$($x:tt)*", "a b c", "$($x)*", "a b c "),
    ("$($x:tt)*", "a b c", "$($x),*", "a , b , c "),
    ("$($x:tt)*", "a", "$($x),*", "a "),
    ("$($x:tt)*", "a b", "$($x)?", "a b "),
    ("$($x:tt)+", "a b", "$($x),*", "a , b "),
    ("$($x:tt)*", "", "$($x),* ;", "; "),
    ("$($x:tt)+", "a b", "$($x)=>+", "a = > b "),
    ("$n:ident $($x:tt)*", "f a b", "$($n $x)*", "f a f b "),
    (
        "$($k:ident => $v:tt),* $(,)?",
        "a => 1, b => [c],",
        "{ $($k: $v,)* }",
        "{9a : 1 , b : [1c , ",
    ),
    (
        "$($x:ident [$($y:tt)*])*",
        "a [b c] d [] e [f]",
        "$($x: $($y),*;)*",
        "a : b , c ; d : ; e : f ; ",
    ),
    (
        "$($x:ident [$($y:tt)*])*",
        "a [b c] d [e]",
        "$($($x $y)*)*",
        "a b a c d e ",
    ),
    ("$($x:ident [$($y:tt)*])*", "a [b] c [d]", "$($x)*", "a c "),
    (
        "$($($($x:ident),+);+)|+",
        "a, b; c | d",
        "$([$($($x)*),*])*",
        "[4a b , c [1d ",
    ),
    (
        "$($x:ident)* ; $($y:ident [$($z:ident)*])*",
        "a b ; c [d] e [f g]",
        "$($($z $x)*)*",
        "d a f b g b ",
    ),
    ("$($x:ident)? ; $y:tt", "; a", "$($x)? $y", "a "),
    ("$($x:ident)? ; $y:tt", "b ; a", "$($x)? $y", "b a "),
    ("$($x:ident)* ; $($y:ident)*", ";", "$($x $y)*", ""),
];

fn all_are_transcribed(alloc: Global) -> bool {
    for (pattern, input, template, tokens) in &TRANSCRIBED {
        if is_transcribed(alloc, pattern, input, template, tokens) != Some(true) {
            return false;
        }
    }
    true
}

/// Returns why the template is not filled, and the flat place of the `$`.
pub(crate) fn fault_of(error: TranscribeError) -> Option<(&'static str, usize)> {
    match error {
        TranscribeError::StillRepeats(at) => Some(("still repeats", at)),
        TranscribeError::NothingRepeats(at) => Some(("nothing repeats", at)),
        TranscribeError::LengthsDiffer(at) => Some(("lengths differ", at)),
        TranscribeError::NoRound(at) => Some(("no round", at)),
        TranscribeError::OverLimit | TranscribeError::Tree(_) => None,
    }
}

// Uses that still repeat, also with no round, and repetitions in which nothing repeats; different numbers of rounds, in the first round or
// in a later one; and no round although one is needed; the first of several.
const REFUSED: [(&str, &str, &str, &str, usize); 13] = [
    ("$($x:tt)*", "a b", "q $x", "still repeats", 1),
    ("$($x:tt)*", "", "q $x", "still repeats", 1),
    (
        "$($x:ident [$($y:tt)*])*",
        "a [b]",
        "$($x $y)*",
        "still repeats",
        4,
    ),
    ("$x:tt", "a", "[$x] $($x)*", "nothing repeats", 3),
    (
        "$($x:tt)* ; $y:tt",
        "a ; b",
        "$($x $($y)*)*",
        "nothing repeats",
        4,
    ),
    (
        "$($x:ident)* ; $($y:ident)*",
        "a ;",
        "$($y $()*)* $x",
        "still repeats",
        8,
    ),
    (
        "$($x:ident)* ; $($y:ident)*",
        "a b ; c",
        "$($x $y)*",
        "lengths differ",
        0,
    ),
    (
        "$($x:ident)* ; $($y:ident)*",
        "a ; b c",
        "q $($x $y)*",
        "lengths differ",
        1,
    ),
    ("$($x:tt)*", "", "$($x)+", "no round", 0),
    (
        "$($x:ident [$($y:tt)*])*",
        "a [b] c []",
        "$($x $($y)+)*",
        "no round",
        4,
    ),
    (
        "$($x:ident [$($y:tt)*])* ; $($z:ident)*",
        "a [b c] ; d e",
        "$($x $($y $z)*)* $($z)*",
        "lengths differ",
        0,
    ),
    (
        "$($x:ident)* ; $($y:ident)*",
        "a ;",
        "$($y)+ $($x $y)*",
        "no round",
        0,
    ),
    (
        "$($x:ident)* ; $($y:ident)*",
        "a ;",
        "$($x $y)* $($y)+",
        "lengths differ",
        0,
    ),
];

// Returns whether the template is not filled for that reason.
fn is_refused(
    alloc: Global,
    pattern: &str,
    input: &str,
    template: &str,
    why: &str,
    place: usize,
) -> Option<bool> {
    let error = transcribed(alloc, pattern, input, template)?.err()?;
    let (is, at) = fault_of(error)?;
    Some((is == why) & (at == place))
}

fn all_are_refused(alloc: Global) -> bool {
    for (pattern, input, template, why, place) in &REFUSED {
        if is_refused(alloc, pattern, input, template, why, *place) != Some(true) {
            return false;
        }
    }
    true
}

#[test]
fn templates_are_transcribed(rt: HostRuntime) -> Result<(), Fail> {
    holds(all_are_transcribed(rt.alloc()))
}

#[test]
fn the_first_fault_of_transcribing_is_reported(rt: HostRuntime) -> Result<(), Fail> {
    holds(all_are_refused(rt.alloc()))
}
