//! Templates, each with a pattern and its parts, or with the fault that it shows and the place.
use crate::texts::{holds, matcher_of, tree_of};
use mbe_matcher::Binder;
use mbe_pattern::{RepeatKind, Tail};
use mbe_rules::{Part, Template, TranscribeError};
use std::alloc::Global;
use std::test::Fail;

// Returns the name of the variable with that number.
fn name_of(binders: &[Binder], number: usize) -> Option<&str> {
    Some(binders.get(number)?.name.as_str())
}

// Returns the text for the end of a repetition: with `,` if it has a separator.
fn written_tail(tail: &Tail) -> &'static str {
    match (tail.separator.is_empty(), tail.kind) {
        (true, RepeatKind::ZeroOrMore) => ")* ",
        (true, RepeatKind::OneOrMore) => ")+ ",
        (true, RepeatKind::ZeroOrOne) => ")? ",
        (false, RepeatKind::ZeroOrMore) => "),* ",
        (false, RepeatKind::OneOrMore) => "),+ ",
        (false, RepeatKind::ZeroOrOne) => "),? ",
    }
}

// Returns the text for a part that is no use.
fn written_part(part: &Part) -> &'static str {
    match part {
        Part::Use(..) => "$",
        Part::Token(_) => "t ",
        Part::Enter(_) => "{ ",
        Part::Leave => "} ",
        Part::Begin(_) => "( ",
        Part::Close(tail) => written_tail(tail),
    }
}

// Returns the parts as a text: `$` and the name for a use, `t` for a token, braces for subtrees, parentheses for repetitions.
fn written(alloc: Global, binders: &[Binder], parts: &[Part]) -> Option<String> {
    let mut text = String::new(alloc);
    for part in parts {
        text.push_str(written_part(part)).ok()?;
        if let Part::Use(_, number, _) = part {
            text.push_str(name_of(binders, *number)?).ok()?;
            text.push_str(" ").ok()?;
        }
    }
    Some(text)
}

// Returns whether a template has these parts.
fn has_parts(alloc: Global, pattern: &str, template: &str, parts: &str) -> Option<bool> {
    let matcher = matcher_of(alloc, pattern)?;
    let trees = tree_of(alloc, template)?;
    let template = Template::new(alloc, matcher.binders(), trees.token_trees().iter()).ok()?;
    let text = written(alloc, matcher.binders(), template.parts())?;
    Some(text.as_str() == parts)
}

// Uses, in repetitions and subtrees; names that are no variables, `$crate`, `$_`, a `$` before nothing, and `$$`; raw names;
// repetitions, also with `$` as a separator.
const PARTS: [(&str, &str, &str); 25] = [
    ("", "", "} "),
    ("$x:tt", "$x", "$x } "),
    ("$x:tt", "$x;", "$x t } "),
    ("$x:tt", "x", "t } "),
    ("$x:tt", "[$x] ($x)", "{ $x } { $x } } "),
    ("$x:tt", "$y", "t t } "),
    ("$x:tt", "$crate", "t t } "),
    ("$x:tt", "$crate::$x", "t t t t $x } "),
    ("$_:tt", "$_", "$_ } "),
    ("$x:tt", "$_", "t t } "),
    ("$($_:tt)*", "$($_)*", "( $_ )* } "),
    ("$x:tt", "a $", "t t } "),
    ("$x:tt", "$$x", "t t } "),
    ("$x:tt", "$$$x", "t $x } "),
    ("$r#x:tt", "$x", "$x } "),
    ("$x:tt", "$r#x", "$x } "),
    ("$x:tt $y:tt", "$y $x", "$y $x } "),
    ("$($x:tt)*", "$($x)*", "( $x )* } "),
    ("$($x:tt)*", "$($x),* ;", "( $x ),* t } "),
    ("$($x:tt)+", "$($x)=>+", "( $x ),+ } "),
    ("$($x:tt)?", "$($x)?", "( $x )? } "),
    ("$($x:tt)? $y:tt", "$($x $y)?", "( $x $y )? } "),
    (
        "$($x:ident [$($y:tt)*])*",
        "$($x: $($y),*);*",
        "( $x t ( $y ),* ),* } ",
    ),
    (
        "$($x:ident [$($y:tt)*])*",
        "$($($x $y)*)*",
        "( ( $x $y )* )* } ",
    ),
    ("$($x:tt)*", "$($x)$*", "( $x ),* } "),
];

fn are_parts(alloc: Global) -> bool {
    for (pattern, template, parts) in &PARTS {
        if has_parts(alloc, pattern, template, parts) != Some(true) {
            return false;
        }
    }
    true
}

// Returns the fault: whether a variable still repeats, and the flat place of its `$`; or of the `$`
// of a repetition in which nothing repeats.
fn fault_of(error: TranscribeError) -> Option<(bool, usize)> {
    match error {
        TranscribeError::StillRepeats(at) => Some((true, at)),
        TranscribeError::NothingRepeats(at) => Some((false, at)),
        TranscribeError::LengthsDiffer(_)
        | TranscribeError::NoRound(_)
        | TranscribeError::OverLimit
        | TranscribeError::Tree(_) => None,
    }
}

// Returns whether a template shows that fault, at that flat place.
fn has_fault(
    alloc: Global,
    pattern: &str,
    template: &str,
    still_repeats: bool,
    place: usize,
) -> Option<bool> {
    let matcher = matcher_of(alloc, pattern)?;
    let trees = tree_of(alloc, template)?;
    let template = Template::new(alloc, matcher.binders(), trees.token_trees().iter()).ok()?;
    let error = template.fault(alloc, matcher.binders()).ok()??;
    let (is_still, at) = fault_of(error)?;
    Some((is_still == still_repeats) & (at == place))
}

// Uses in too few repetitions, and repetitions in which nothing repeats; the first of several.
const FAULTS: [(&str, &str, bool, usize); 14] = [
    ("$($x:tt)*", "$x", true, 0),
    ("$($x:tt)*", "a ($x)", true, 2),
    ("$($x:tt)*", "(a [b] c) $($x) => * $x", true, 12),
    ("$($x:tt)?", "$x", true, 0),
    ("$($($x:tt)+);*", "$($x)*", true, 2),
    ("$x:tt", "$($x)*", false, 0),
    ("$x:tt", "b $(a)*", false, 1),
    ("$x:tt", "$()*", false, 0),
    ("$($x:tt)*", "$($($x)*)*", false, 2),
    ("$($x:tt)* ; $y:tt", "$($x $($y)*)*", false, 4),
    ("$($x:tt)*", "$($y)* $x", false, 0),
    ("$($x:tt)*", "$x $($y)*", true, 0),
    ("$($x:tt)*", "$($($x)* $x)* $x", false, 2),
    ("$($($x:tt)+);*", "$($x)* $()*", true, 2),
];

fn are_faults(alloc: Global) -> bool {
    for (pattern, template, still_repeats, place) in &FAULTS {
        if has_fault(alloc, pattern, template, *still_repeats, *place) != Some(true) {
            return false;
        }
    }
    true
}

#[test]
fn templates_have_these_parts(rt: HostRuntime) -> Result<(), Fail> {
    holds(are_parts(rt.alloc()))
}

#[test]
fn the_first_fault_is_shown_with_its_place(rt: HostRuntime) -> Result<(), Fail> {
    holds(are_faults(rt.alloc()))
}
