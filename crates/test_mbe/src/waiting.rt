//! What macros expect at the place where no arm takes more of an input.
use crate::texts::{holds, tree_of};
use mbe_program::Part;
use mbe_rules::{Expansion, MacroRules};
use std::alloc::Global;
use std::test::Fail;
use tt::{DelimiterKind, Leaf};

// Writes what a part requires: `$` and the name of a variable, the leaves of a token, a bracket, or that an end is required.
fn push_part(text: &mut String, part: Part<'_>) -> Option<()> {
    match part {
        Part::Take(variable) => {
            text.push('$').ok()?;
            text.push_str(variable.name.as_str()).ok()
        }
        Part::Same(leaves) => {
            for leaf in leaves {
                match leaf {
                    Leaf::Ident(ident) => text.push_str(ident.sym.as_str()).ok()?,
                    Leaf::Punct(punct) => text.push(punct.char).ok()?,
                    Leaf::Literal(literal) => text.push_str(literal.text()).ok()?,
                }
            }
            Some(())
        }
        Part::Enter(kind) => {
            let bracket = match kind {
                DelimiterKind::Parenthesis => '(',
                DelimiterKind::Brace => '{',
                DelimiterKind::Bracket => '[',
                DelimiterKind::Invisible | DelimiterKind::InvisibleOpaque => '<',
            };
            text.push(bracket).ok()
        }
        Part::Leave => text.push_str("end").ok(),
    }
}

// Returns the parts that wait where no arm takes more of the input, each after the number of its arm.
fn waiting_text(alloc: Global, arms: &str, input: &str) -> Option<String> {
    let arms = tree_of(alloc, arms)?;
    let input = tree_of(alloc, input)?;
    let rules = MacroRules::new(alloc, arms.token_trees().iter()).ok()?;
    let Ok(Expansion::NoMatch(at)) = rules.expand(alloc, input.token_trees().iter()) else {
        return None;
    };
    let mut text = String::new(alloc);
    let waiting = rules.waiting(alloc, input.token_trees().iter(), at).ok()?;
    for it in &waiting {
        let arm = u32::try_from(it.arm).ok()?;
        text.push(char::from_digit(arm, 10)?).ok()?;
        push_part(&mut text, rules.part(*it)?)?;
        text.push(' ').ok()?;
    }
    Some(text)
}

// A token, a fragment, a subtree and its end; the first part of another round, a separator and what follows a repetition; the end of the
// input; arms that come equally far; a part that takes nothing, which an end does not allow; fragments that fail behind their first tree.
const WAITING: [(&str, &str, &str); 19] = [
    ("(a b) => {}", "a c", "0b "),
    ("(a => b) => {}", "a = b", "0=> "),
    ("(a $x:ident) => {}", "a ,", "0$x "),
    ("(a [b]) => {}", "a (b)", "0[ "),
    ("(a (b) c) => {}", "a (b d) c", "0end "),
    ("(a (b) c) => {}", "a (b) d", "0c "),
    ("($($x:ident),*) => {}", "a, ,", "0$x "),
    ("($($x:ident),*) => {}", "a b", "0, 0end "),
    ("($($x:ident)* ;) => {}", "a ,", "0$x 0; "),
    ("($($x:ident),+ ; $y:ident) => {}", "a b", "0, 0; "),
    ("(a) => {}", "a b", "0end "),
    ("(a) => {}", "", "0a "),
    ("(a b) => {}; (c) => {}; (a d) => {}", "a e", "0b 2d "),
    ("($(a)? $(b)? $(c)? $(d)? e) => {}", "f", "0a 0b 0c 0d 0e "),
    ("($v:vis $x:ident) => {}", ",", "0$x "),
    ("($v:vis $x:ident) => {}", "", "0$v "),
    ("(a [$v:vis]) => {}", "a []", "0$v "),
    ("($x:literal ;) => {}", "-a;", "0$x "),
    ("(a $t:ty) => {}", "a &", "0$t "),
];

fn are_waiting(alloc: Global) -> bool {
    for (arms, input, wanted) in &WAITING {
        match waiting_text(alloc, arms, input) {
            Some(text) if text.as_str() == *wanted => {}
            _ => return false,
        }
    }
    true
}

#[test]
fn parts_wait(rt: HostRuntime) -> Result<(), Fail> {
    holds(are_waiting(rt.alloc()))
}
