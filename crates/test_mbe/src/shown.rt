//! Macros, each with the faults that its templates show whatever the input.
use crate::texts::{holds, tree_of};
use crate::transcribed::fault_of;
use mbe_rules::MacroRules;
use std::alloc::Global;
use std::test::Fail;

// Writes a small number, and a space.
fn push_number(text: &mut String, number: usize) -> Option<()> {
    text.push(char::from_digit(u32::try_from(number).ok()?, 10)?)
        .ok()?;
    text.push(' ').ok()
}

// Returns the faults as a text: for each the arm, the fault and the flat place of the `$` in the template.
fn shown(alloc: Global, arms: &str) -> Option<String> {
    let arms = tree_of(alloc, arms)?;
    let rules = MacroRules::new(alloc, arms.token_trees().iter()).ok()?;
    let mut text = String::new(alloc);
    for error in &rules.faults(alloc).ok()? {
        let (word, at) = fault_of(error.fault)?;
        push_number(&mut text, error.arm)?;
        text.push_str(word).ok()?;
        text.push(' ').ok()?;
        push_number(&mut text, at)?;
    }
    Some(text)
}

// No fault, one, and one for each of two arms of four.
const SHOWN: [(&str, &str); 4] = [
    ("($x:tt) => {$x}; ($($x:tt)*) => {$($x)*}", ""),
    ("($($x:tt)*) => {a $x}", "0 still repeats 1 "),
    ("(a) => {}; (b) => {$()*}", "1 nothing repeats 0 "),
    (
        "() => {}; ($($x:tt)*) => {$x $()*}; (a) => {a}; ($x:tt) => {$($x)* $x}",
        "1 still repeats 0 3 nothing repeats 0 ",
    ),
];

fn are_shown(alloc: Global) -> bool {
    for (arms, wanted) in &SHOWN {
        match shown(alloc, arms) {
            Some(text) if text.as_str() == *wanted => {}
            _ => return false,
        }
    }
    true
}

#[test]
fn the_first_fault_of_each_template_is_shown(rt: HostRuntime) -> Result<(), Fail> {
    holds(are_shown(rt.alloc()))
}
