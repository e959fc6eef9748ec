//! Trees as texts. The rest of each open subtree is in memory and not on the stack, so only memory limits the depth of a tree.
ghost use Rattle.std.specs.Prelude.{◌≡◌, ◌++◌, false, IfOk, IfErr, OnOk, string_bytes};
ghost use Rattle.tt_base.specs.DebugText.{break_if, debug, header_line, indent, leaf_line, lines_text};
ghost use Rattle.tt_base.specs.LeafText.{ident_text, leaf_text};
ghost use Rattle.tt_base.specs.TreeText.{display, opening_text, pretty, siblings_text, space_after, space_if};
ghost use Rattle.tt_base.specs.declared.fault.TtFault.TheVariants.{Memory};
ghost use Rattle.tt_view.specs.SpaceRules.{lets_of};
ghost use Rattle.tt_view.specs.Views.{trees_of};

use std::alloc::{AllocError, Global};
use tt_base::{
    DelimiterKind, HeaderLine, Ident, Indent, Leaf, LeafLine, Subtree, TtFault, line_break,
};
use tt_view::text::{SpaceRule, closing, leaf_lets_space, opening, space};
use tt_view::{TokenTreesView, TtElement, TtIter};

// The rest of a subtree that was entered, and the kind of its delimiter.
#[derive(Drop)]
struct Level<'a> {
    rest: TtIter<'a>,
    kind: DelimiterKind,
}

/// Returns the trees as a text with one space between siblings, but none after a joint punct. Fails only if memory runs out.
pub fn pretty(alloc: Global, trees: TokenTreesView<'_>) -> Result<String, TtFault>
    ensures ok { IfOk result (λ text. string_bytes text ≡ pretty (trees_of trees.entry)) }
    ensures err { IfErr result (λ fault. fault ≡ Memory) }
{
    let text = spaced_text(alloc, SpaceRule::Pretty, trees)?;
    Ok(text)
}

/// Returns the text that `Display` writes. `Display` takes stack for each level of the trees, and this function takes memory. Fails only
/// if memory runs out.
pub fn display_text(alloc: Global, trees: TokenTreesView<'_>) -> Result<String, TtFault>
    ensures ok { IfOk result (λ text. string_bytes text ≡ display (trees_of trees.entry)) }
    ensures err { IfErr result (λ fault. fault ≡ Memory) }
{
    let text = spaced_text(alloc, SpaceRule::Display, trees)?;
    Ok(text)
}

/// Returns the text that `Debug` writes. `Debug` takes stack for each level of the trees, and this function takes memory. Fails only if
/// memory runs out.
pub fn debug_text(alloc: Global, trees: TokenTreesView<'_>) -> Result<String, TtFault>
    ensures ok { IfOk result (λ text. string_bytes text ≡ debug (trees_of trees.entry)) }
    ensures err { IfErr result (λ fault. fault ≡ Memory) }
{
    let text = token_lines(alloc, trees)?;
    Ok(text)
}

// Appends the text of an ident.
fn write_ident(text: &mut String, ident: &Ident) -> Result<(), AllocError>
    ensures { OnOk result (string_bytes text.new ≡ string_bytes text.old ++ ident_text ident.now) }
{
    text.push_str(ident.is_raw.as_str())?;
    text.push_str(ident.sym.as_str())
}

// Appends the text of a leaf. Most leaves are puncts and idents, which need no formatter.
fn write_text(text: &mut String, leaf: &Leaf) -> Result<(), AllocError>
    ensures { OnOk result (string_bytes text.new ≡ string_bytes text.old ++ leaf_text leaf.now) }
{
    match leaf {
        Leaf::Literal(literal) => write!(text, "{literal}"),
        Leaf::Punct(punct) => text.push(punct.char),
        Leaf::Ident(ident) => write_ident(text, ident),
    }
}

// Appends the text of a leaf, after a space if one is due. Returns whether a space may follow.
fn write_leaf(text: &mut String, rule: SpaceRule, due: bool, leaf: Leaf) -> Result<bool, AllocError>
    ensures written { OnOk result (string_bytes text.new ≡ string_bytes text.old ++ (space_if due ++ leaf_text leaf)) }
    ensures due { IfOk result (λ next. next ≡ space_after (lets_of rule) leaf) }
{
    text.push_str(space(due))?;
    write_text(text, &leaf)?;
    Ok(leaf_lets_space(rule, &leaf))
}

// Appends the bracket that opens a subtree of that kind, after a space if one is due.
fn write_opening(text: &mut String, due: bool, kind: DelimiterKind) -> Result<(), AllocError>
    ensures { OnOk result (string_bytes text.new ≡ string_bytes text.old ++ (space_if due ++ opening_text kind)) }
{
    text.push_str(space(due))?;
    text.push_str(opening(kind))
}

// Appends the line of a leaf, after a line feed if one is due.
fn write_leaf_line(text: &mut String, due: bool, depth: usize, leaf: Leaf) -> Result<(), AllocError>
    ensures { OnOk result (string_bytes text.new ≡ string_bytes text.old ++ ((break_if due ++ indent depth) ++ leaf_line leaf)) }
{
    let (gap, line) = (line_break(due), LeafLine(&leaf));
    write!(text, "{gap}{}{line}", Indent(depth))
}

// Appends the line of a header, after a line feed if one is due.
fn write_header_line(
    text: &mut String,
    due: bool,
    depth: usize,
    subtree: Subtree,
) -> Result<(), AllocError>
    ensures { OnOk result (string_bytes text.new ≡ string_bytes text.old ++ ((break_if due ++ indent depth) ++ header_line subtree.delimiter)) }
{
    let (gap, line) = (line_break(due), HeaderLine(subtree.delimiter));
    write!(text, "{gap}{}{line}", Indent(depth))
}

// Returns the trees on one line, with spaces by the rule.
fn spaced_text(
    alloc: Global,
    rule: SpaceRule,
    trees: TokenTreesView<'_>,
) -> Result<String, AllocError>
    ensures { IfOk result (λ text. string_bytes text ≡ siblings_text (lets_of rule) false (trees_of trees.entry)) }
{
    let mut text = String::new(alloc);
    let mut due = false;
    // no bracket is written around all the trees
    let mut level = Level {
        rest: trees.iter(),
        kind: DelimiterKind::Invisible,
    };
    // the rest of each outer subtree, the innermost last
    let mut outer = Vec::new(alloc);
    'tokens: loop {
        match level.rest.next() {
            Some(TtElement::Leaf(leaf)) => due = write_leaf(&mut text, rule, due, leaf)?,
            Some(TtElement::Subtree(subtree, children)) => {
                let kind = subtree.delimiter.kind;
                write_opening(&mut text, due, kind)?;
                outer.push(level)?;
                level = Level {
                    rest: children,
                    kind,
                };
                due = false;
            }
            None => {
                text.push_str(closing(level.kind))?;
                let Some(round) = outer.pop() else {
                    return Ok(text);
                };
                level = round;
                due = true;
            }
        }
    }
}

// Returns a text with a line for each token.
fn token_lines(alloc: Global, trees: TokenTreesView<'_>) -> Result<String, AllocError>
    ensures { IfOk result (λ text. string_bytes text ≡ lines_text false 0 (trees_of trees.entry)) }
{
    let mut text = String::new(alloc);
    let mut due = false;
    let mut level = trees.iter();
    // the rest of each outer level, the innermost last
    let mut outer = Vec::new(alloc);
    'tokens: loop {
        match level.next() {
            Some(TtElement::Leaf(leaf)) => {
                write_leaf_line(&mut text, due, outer.len(), leaf)?;
                due = true;
            }
            Some(TtElement::Subtree(subtree, children)) => {
                write_header_line(&mut text, due, outer.len(), subtree)?;
                outer.push(level)?;
                level = children;
                due = true;
            }
            None => {
                let Some(round) = outer.pop() else {
                    return Ok(text);
                };
                level = round;
                // the last line of the level has no line feed yet
                due = true;
            }
        }
    }
}
