//! Trees that are no macro, each with its first fault.
use crate::texts::{holds, tree_of};
use mbe_pattern::PatternError;
use mbe_rules::{ArmFault, MacroRules, TemplateError};
use std::alloc::Global;
use std::test::Fail;

// Returns the kind of a fault, and its place.
fn kind_of(fault: ArmFault) -> (&'static str, usize) {
    match fault {
        ArmFault::NoPattern(at) => ("no pattern", at),
        ArmFault::Pattern(error) => pattern_kind(error),
        ArmFault::NoArrow(at) => ("no arrow", at),
        ArmFault::NoTemplate(at) => ("no template", at),
        ArmFault::Template(error) => template_kind(error),
        ArmFault::NoSemicolon(at) => ("no semicolon", at),
        ArmFault::Memory => ("memory", 0),
    }
}

// Returns the same for the fault of a pattern.
fn pattern_kind(error: PatternError) -> (&'static str, usize) {
    match error {
        PatternError::BeginsNothing(at) => ("begins nothing", at),
        PatternError::UnknownFragment(at) => ("unknown", at),
        PatternError::NameTwice(at) => ("twice", at),
        PatternError::NeedlessSeparator(at) => ("separator", at),
        PatternError::EmptyRepetition(at) => ("empty", at),
        PatternError::Memory => ("memory", 0),
    }
}

// Returns the same for the fault of a template.
fn template_kind(error: TemplateError) -> (&'static str, usize) {
    match error {
        TemplateError::BeginsNothing(at) => ("no beginning", at),
        TemplateError::NoOperator(at) => ("no operator", at),
        TemplateError::NeedlessSeparator(at) => ("template separator", at),
        TemplateError::Memory => ("memory", 0),
    }
}

// Faults, with the number of the arm and the place: the place is among all trees for the form of an arm, and in a pattern or a template
// for its own fault. A pattern's fault comes before that of the arrow after it.
const FAULTS: [(&str, usize, &str, usize); 22] = [
    ("", 0, "no pattern", 0),
    (";", 0, "no pattern", 0),
    ("a", 0, "no pattern", 0),
    ("(a b)", 0, "no arrow", 3),
    ("(a b) = > {}", 0, "no arrow", 3),
    ("(a b) == {}", 0, "no arrow", 3),
    ("(a b) -> {}", 0, "no arrow", 3),
    ("(a b) =>", 0, "no template", 5),
    ("(a b) => c", 0, "no template", 5),
    ("() => {} () => {}", 0, "no semicolon", 4),
    ("() => {}, () => {}", 0, "no semicolon", 4),
    ("() => {};;", 1, "no pattern", 5),
    ("() => {}; (a $$) => {}", 1, "begins nothing", 1),
    ("() => {}; ($x:tt $x:tt) b", 1, "twice", 4),
    ("(a) => {}; ($x:exp) => {}", 1, "unknown", 0),
    ("($($x:tt)*) => {a $x} b", 0, "no semicolon", 14),
    ("() => {$(a)} b", 0, "no operator", 1),
    ("() => {}; () => {b $(a),}", 1, "no operator", 4),
    ("() => {$(a), b}", 0, "no operator", 4),
    ("() => {{$(a)[b]}}", 0, "no operator", 4),
    ("($($x:tt)*) => {$($x),? $1}", 0, "template separator", 4),
    ("() => {$[a]* $(b)}", 0, "no beginning", 1),
];

// Returns whether the arms have that fault.
fn has_fault(alloc: Global, arms: &str, arm: usize, kind: &str, place: usize) -> Option<bool> {
    let arms = tree_of(alloc, arms)?;
    let error = MacroRules::new(alloc, arms.token_trees().iter()).err()?;
    let (is, at) = kind_of(error.fault);
    Some((error.arm == arm) & (is == kind) & (at == place))
}

fn are_faults(alloc: Global) -> bool {
    for (arms, arm, kind, place) in &FAULTS {
        if has_fault(alloc, arms, *arm, kind, *place) != Some(true) {
            return false;
        }
    }
    true
}

#[test]
fn the_first_fault_is_reported_with_its_arm(rt: HostRuntime) -> Result<(), Fail> {
    holds(are_faults(rt.alloc()))
}
