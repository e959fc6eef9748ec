//! Macros, each with an input, and the first name of the input that the expansion captures.
use crate::texts::{holds, tree_of};
use expand_hygiene::{BindingKind, Capture, ExpandTo, first_capture};
use mbe_rules::{Expansion, MacroRules};
use std::alloc::Global;
use std::test::Fail;
use tt::{Span, TopSubtree, TtElement, TtIter};

// What is captured, and the places in the text of the binding and of the name in the input.
type Place = (BindingKind, u32, u32);

// Returns the trees in the next brackets.
fn next_inside<'a>(trees: &mut TtIter<'a>) -> Option<TtIter<'a>> {
    match trees.next()? {
        TtElement::Subtree(_, inside) => Some(inside),
        TtElement::Leaf(_) => None,
    }
}

// Returns the expansion of an input by the macro with these arms.
fn expanded(alloc: Global, arms: TtIter<'_>, input: TtIter<'_>) -> Option<TopSubtree> {
    let rules = MacroRules::new(alloc, arms).ok()?;
    match rules.expand(alloc, input) {
        Ok(Expansion::Tree(tree)) => Some(tree),
        Ok(_) | Err(_) => None,
    }
}

// Returns where a span begins.
fn start_of(span: Span) -> u32 {
    u32::from(span.range.start())
}

// Returns the places of a capture.
fn place_of(capture: Capture) -> Place {
    (
        capture.kind,
        start_of(capture.binding),
        start_of(capture.captured),
    )
}

// Returns whether the macro whose arms the first brackets of the text have captures this of the input in the second brackets.
fn is_captured(
    alloc: Global,
    expand_to: ExpandTo,
    text: &str,
    wanted: Option<Place>,
) -> Option<bool> {
    let tree = tree_of(alloc, text)?;
    let mut trees = tree.token_trees().iter();
    let arms = next_inside(&mut trees)?;
    let input = next_inside(&mut trees)?;
    let expansion = expanded(alloc, arms, input.clone().ok()?)?;
    let found = first_capture(alloc, expand_to, input, expansion.token_trees().iter()).ok()?;
    Some(found.map(place_of) == wanted)
}

// What patterns bind: by `let`, in brackets, in an arm, as a parameter, behind `for`, `if let`, `ref mut`, before `@`, as a field. Labels are
// apart from locals. The name of a field, what the input binds, keywords and what begins with an upper-case letter bind nothing. No
// derivation, no capture.
const ROWS: [(ExpandTo, &str, Option<Place>); 29] = [
    (
        ExpandTo::Expr,
        "{($e:expr) => {{ let x = 1; $e + x }}} (x)",
        Some((BindingKind::Local, 21, 40)),
    ),
    (
        ExpandTo::Statements,
        "{($e:expr) => { let x = $e; }} (x)",
        Some((BindingKind::Local, 20, 32)),
    ),
    (
        ExpandTo::Statements,
        "{($e:expr) => { let (a, [b, x]) = t; $e }} (y - x)",
        Some((BindingKind::Local, 28, 48)),
    ),
    (
        ExpandTo::Expr,
        "{($e:expr) => { match t { Some(x) => $e, _ => 0 } }} (f(x))",
        Some((BindingKind::Local, 31, 56)),
    ),
    (
        ExpandTo::Expr,
        "{($e:expr) => { |x| $e }} ([1, x])",
        Some((BindingKind::Local, 17, 31)),
    ),
    (
        ExpandTo::Expr,
        "{($e:expr) => { |y: u8, &mut x: &mut u8| $e }} (x + x)",
        Some((BindingKind::Local, 29, 48)),
    ),
    (
        ExpandTo::Statements,
        "{($e:expr) => { for (x, y) in t { $e; } }} (x)",
        Some((BindingKind::Local, 21, 44)),
    ),
    (
        ExpandTo::Expr,
        "{($e:expr) => { if let Some(ref mut x) = t { $e } else { 0 } }} (x)",
        Some((BindingKind::Local, 36, 65)),
    ),
    (
        ExpandTo::Statements,
        "{($e:expr) => { let x @ (y, z) = t; $e }} (x)",
        Some((BindingKind::Local, 20, 43)),
    ),
    (
        ExpandTo::Items,
        "{($e:expr) => { fn f(x: u8) -> u8 { $e } }} (x)",
        Some((BindingKind::Local, 21, 45)),
    ),
    (
        ExpandTo::Expr,
        "{($e:expr) => { 'a: loop { $e } }} (break 'a)",
        Some((BindingKind::Label, 17, 43)),
    ),
    (
        ExpandTo::Expr,
        "{($e:expr) => { 'a: loop { $e } }} (a)",
        None,
    ),
    (
        ExpandTo::Statements,
        "{($e:expr) => { let a = 1; $e }} (break 'a)",
        None,
    ),
    (
        ExpandTo::Statements,
        "{($e:expr) => { let P { x, .. } = t; $e }} (x)",
        Some((BindingKind::Local, 24, 44)),
    ),
    (
        ExpandTo::Statements,
        "{($e:expr) => { let P { x: y, .. } = t; $e }} (x)",
        None,
    ),
    (
        ExpandTo::Statements,
        "{($e:expr) => { let P { x: y, .. } = t; $e }} (x + y)",
        Some((BindingKind::Local, 27, 51)),
    ),
    (
        ExpandTo::Statements,
        "{($i:ident, $e:expr) => { let $i = 1; $e }} (x, x)",
        None,
    ),
    (
        ExpandTo::Statements,
        "{($i:ident, $e:expr) => { let $i = 1; let x = 2; $e }} (x, x)",
        Some((BindingKind::Local, 42, 56)),
    ),
    (
        ExpandTo::Statements,
        "{($e:expr) => { let x = ; $e }} (x)",
        None,
    ),
    (
        ExpandTo::Items,
        "{($e:expr) => { let x = 1; $e }} (x)",
        None,
    ),
    (
        ExpandTo::Statements,
        "{($e:expr) => { let X = 1; $e }} (X)",
        None,
    ),
    (
        ExpandTo::Statements,
        "{($e:expr) => { let r#x = 1; $e }} (x)",
        Some((BindingKind::Local, 20, 36)),
    ),
    (
        ExpandTo::Statements,
        "{($e:expr) => { let r#match = 1; $e }} (match y {})",
        None,
    ),
    (
        ExpandTo::Statements,
        "{($e:expr) => { let ref mut y = 1; $e }} ({ let mut z = 1; z })",
        None,
    ),
    (
        ExpandTo::Statements,
        "{($e:expr) => { x.x(x, P { x }, x::x!(x)); $e }} (x)",
        None,
    ),
    (
        ExpandTo::Statements,
        "{($e:expr) => { let y = 1; $e }} (x)",
        None,
    ),
    (
        ExpandTo::Statements,
        "{($e:expr) => { let y = 1; let x = 2; $e }} (x + y)",
        Some((BindingKind::Local, 20, 49)),
    ),
    (
        ExpandTo::Items,
        "{($e:expr) => { impl P { fn f(&self) -> u8 { $e } } }} (self.x)",
        None,
    ),
    (
        ExpandTo::Statements,
        "{($($t:tt)*) => { let x = 1; $($t)* }} (f(x))",
        Some((BindingKind::Local, 22, 42)),
    ),
];

#[test]
fn templates_capture(rt: HostRuntime) -> Result<(), Fail> {
    let alloc = rt.alloc();
    for (expand_to, text, wanted) in &ROWS {
        holds(is_captured(alloc, *expand_to, text, *wanted) == Some(true))?;
    }
    Ok(())
}

// The name in the input is in an opaque piece, which a macro around this one made.
const PIECE: &str = "{($e:expr) => { f($e) }} {($e:expr) => { let x = 1; $e }} (2 - x)";

// Returns whether the second macro of `PIECE` captures the name in what the first one hands on.
fn is_captured_in_a_piece(alloc: Global) -> Option<bool> {
    let tree = tree_of(alloc, PIECE)?;
    let mut trees = tree.token_trees().iter();
    let outer = next_inside(&mut trees)?;
    let inner = next_inside(&mut trees)?;
    let input = expanded(alloc, outer, next_inside(&mut trees)?)?;
    let expansion = expanded(alloc, inner, input.token_trees().iter())?;
    let found = first_capture(
        alloc,
        ExpandTo::Statements,
        input.token_trees().iter(),
        expansion.token_trees().iter(),
    )
    .ok()?;
    Some(found.map(place_of) == Some((BindingKind::Local, 45, 63)))
}

#[test]
fn templates_capture_names_in_pieces(rt: HostRuntime) -> Result<(), Fail> {
    holds(is_captured_in_a_piece(rt.alloc()) == Some(true))
}
