//! Faulty patterns, next to sound ones that differ only a little.
use crate::texts::{holds, tree_of};
use mbe_matcher::PatternError;
use mbe_program::Matcher;
use std::alloc::Global;
use std::test::Fail;

// Returns whether the one pattern is sound, and the other has that fault.
fn is_told(alloc: Global, sound: &str, faulty: &str, fault: PatternError) -> Option<bool> {
    let sound = tree_of(alloc, sound)?;
    let faulty = tree_of(alloc, faulty)?;
    if Matcher::new(alloc, sound.token_trees().iter()).is_err() {
        return Some(false);
    }
    let error = Matcher::new(alloc, faulty.token_trees().iter()).err()?;
    Some(error == fault)
}

// A sound pattern, a faulty one, and its fault: a `$` that begins nothing, unknown fragments, a name that is given twice, repetitions that
// may take no tree, a separator before `?`; and the first of several.
const FAULTS: [(&str, &str, PatternError); 71] = [
    ("$", "$$", PatternError::BeginsNothing(0)),
    ("$crate", "$$crate", PatternError::BeginsNothing(0)),
    ("a $", "a $+", PatternError::BeginsNothing(1)),
    ("$", "$1", PatternError::BeginsNothing(0)),
    ("[$] a", "[$ \"b\"] a", PatternError::BeginsNothing(1)),
    ("$($x:tt)*", "${count(x)}", PatternError::BeginsNothing(0)),
    ("$x:tt", "$'x:tt", PatternError::BeginsNothing(0)),
    ("$self:tt", "$self", PatternError::BeginsNothing(0)),
    ("$x:tt:b", "$x::tt", PatternError::BeginsNothing(0)),
    ("$x:tt", "$x", PatternError::BeginsNothing(0)),
    ("$x:tt", "$x tt", PatternError::BeginsNothing(0)),
    ("$x:tt", "$x:", PatternError::BeginsNothing(0)),
    ("$x:tt", "$x:(tt)", PatternError::BeginsNothing(0)),
    ("$x:tt", "$1:tt", PatternError::BeginsNothing(0)),
    ("a $x:tt", "a $:tt", PatternError::BeginsNothing(1)),
    ("[$x:tt]", "[$x]", PatternError::BeginsNothing(1)),
    (
        "(a [b] c) $x:tt",
        "(a [b] c) $[b]",
        PatternError::BeginsNothing(5),
    ),
    ("$(a)*", "$(a)", PatternError::BeginsNothing(0)),
    ("$(a)+", "$(a);", PatternError::BeginsNothing(0)),
    ("$(a)*", "$[a]*", PatternError::BeginsNothing(0)),
    ("$(a)$*", "$(a)$", PatternError::BeginsNothing(0)),
    ("$(a)$*", "$(a)$$*", PatternError::BeginsNothing(0)),
    ("$(a)*$", "$(a)*$*", PatternError::BeginsNothing(4)),
    ("$(a)=>*", "$(a)= >*", PatternError::BeginsNothing(0)),
    ("$(a)'b*", "$(a)[b]*", PatternError::BeginsNothing(0)),
    ("$($x:tt)*", "$($x)*", PatternError::BeginsNothing(2)),
    ("$x:tt", "$x:foo", PatternError::UnknownFragment(0)),
    ("$x:ident", "$x:Ident", PatternError::UnknownFragment(0)),
    ("$x:tt", "$x:_", PatternError::UnknownFragment(0)),
    ("$x:r#tt", "$x:r#foo", PatternError::UnknownFragment(0)),
    ("$_:tt", "$_:foo", PatternError::UnknownFragment(0)),
    (
        "a ($x:block)",
        "a ($x:bloc)",
        PatternError::UnknownFragment(2),
    ),
    ("$x:expr", "$x:exp", PatternError::UnknownFragment(0)),
    (
        "$x:expr_2021",
        "$x:expr_2024",
        PatternError::UnknownFragment(0),
    ),
    ("$x:ty", "$x:type", PatternError::UnknownFragment(0)),
    ("$x:pat", "$x:pattern", PatternError::UnknownFragment(0)),
    (
        "$x:pat_param",
        "$x:pat_params",
        PatternError::UnknownFragment(0),
    ),
    ("$x:path", "$x:paths", PatternError::UnknownFragment(0)),
    ("$x:stmt", "$x:statement", PatternError::UnknownFragment(0)),
    ("$x:item", "$x:items", PatternError::UnknownFragment(0)),
    ("$x:meta", "$x:Meta", PatternError::UnknownFragment(0)),
    (
        "$x:lifetime $y:r#ty",
        "$x:lifetime $y:r#t",
        PatternError::UnknownFragment(4),
    ),
    ("$x:tt $y:tt", "$x:tt $x:tt", PatternError::NameTwice(4)),
    ("$x:tt $r#y:tt", "$x:tt $r#x:tt", PatternError::NameTwice(4)),
    (
        "$_:tt $a:tt",
        "$_:tt $a:tt $_:ident",
        PatternError::NameTwice(8),
    ),
    (
        "[$x:tt] $($y:tt)*",
        "[$x:tt] $($x:tt)*",
        PatternError::NameTwice(7),
    ),
    (
        "$($x:tt)* ; $y:tt",
        "$($x:tt)* ; $x:tt",
        PatternError::NameTwice(8),
    ),
    ("$(a)?", "$(a),?", PatternError::NeedlessSeparator(0)),
    ("$(a),+", "$(a),?", PatternError::NeedlessSeparator(0)),
    ("$(a)$+", "$(a)$?", PatternError::NeedlessSeparator(0)),
    ("b $(a)=>*", "b $(a)=>?", PatternError::NeedlessSeparator(1)),
    ("$(())*", "$()*", PatternError::EmptyRepetition(0)),
    ("$($(a)+),*", "$($(a)*),*", PatternError::EmptyRepetition(0)),
    ("$($(a)+)*", "$($(a)*)*", PatternError::EmptyRepetition(0)),
    ("$($(a)? b)+", "$($(a)?)+", PatternError::EmptyRepetition(0)),
    (
        "$($v:vis a)*",
        "$($v:vis)*",
        PatternError::EmptyRepetition(0),
    ),
    (
        "$($v:vis $(a)+)+",
        "$($v:vis $(a)?)+",
        PatternError::EmptyRepetition(0),
    ),
    (
        "$($(a)+ $(b)*),*",
        "$($(a)? $(b)*),*",
        PatternError::EmptyRepetition(0),
    ),
    (
        "($($(a)+)?)",
        "($($(a)*)?)",
        PatternError::EmptyRepetition(1),
    ),
    (
        "a $($($(a)+)+)* b",
        "a $($($(a)*)+)* b",
        PatternError::EmptyRepetition(1),
    ),
    ("$(a)* b", "$()* $$", PatternError::EmptyRepetition(0)),
    ("$crate $(a)*", "$ $()*", PatternError::BeginsNothing(0)),
    (
        "$($(a)* $x:tt)*",
        "$($(a)* $x:foo)*",
        PatternError::UnknownFragment(6),
    ),
    (
        "$($x:expr $(b)*)? c",
        "$($x:exp $(b)*)? $$",
        PatternError::UnknownFragment(2),
    ),
    (
        "$(a $(b)*)* c",
        "$(a $()*)* $$",
        PatternError::EmptyRepetition(3),
    ),
    ("$($(a)+)*", "$($()*)*", PatternError::EmptyRepetition(0)),
    ("$(a)?", "$(),?", PatternError::NeedlessSeparator(0)),
    (
        "$x:tt $y:tt",
        "$x:tt $x:foo",
        PatternError::UnknownFragment(4),
    ),
    (
        "$x:tt $($y:tt $(a)*)*",
        "$x:tt $($x:tt $()*)*",
        PatternError::NameTwice(6),
    ),
    (
        "$($x:tt $y:tt)* $(a)?",
        "$($x:tt $x:tt)* $()?",
        PatternError::NameTwice(6),
    ),
    (
        "$($x:tt)* $($y:tt)*",
        "$($x:tt)* $($x:tt)*",
        PatternError::NameTwice(9),
    ),
];

fn are_told(alloc: Global) -> bool {
    for (sound, faulty, fault) in &FAULTS {
        if is_told(alloc, sound, faulty, *fault) != Some(true) {
            return false;
        }
    }
    true
}

#[test]
fn the_first_fault_is_reported_with_its_place(rt: HostRuntime) -> Result<(), Fail> {
    holds(are_told(rt.alloc()))
}
