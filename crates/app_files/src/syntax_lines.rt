//! The derivation of a file by Rust's grammar, and its lines.
use crate::failure::Failure;
use crate::tree_lines::{write_header, write_indent, write_leaf, write_trees};
use mbe_grammar::{Event, NAMES};
use std::alloc::Global;
use std::io::Write;
use syntax_diagnostic::Places;
use tt::{TopSubtree, TtElement, TtIter};

// Returns how the name at that index of the table is written.
fn text_of(name: usize) -> &'static str {
    for (at, text) in &NAMES {
        if *at == name {
            return text;
        }
    }
    ""
}

// Writes the lines of a unit of that many trees, and those of the trees in its subtree.
fn write_unit<W: Write>(
    out: &mut W,
    alloc: Global,
    places: &Places<'_>,
    depth: usize,
    count: usize,
    level: &mut TtIter<'_>,
) -> Result<(), Failure> {
    for _ in 0..count {
        match level.next() {
            Some(TtElement::Leaf(leaf)) => {
                write_indent(out, depth)?;
                write_leaf(out, places, &leaf)?;
            }
            Some(TtElement::Subtree(subtree, children)) => {
                write_indent(out, depth)?;
                write_header(out, places, subtree.delimiter)?;
                write_trees(out, alloc, places, depth.saturating_add(1), children)?;
            }
            None => return Ok(()),
        }
    }
    Ok(())
}

/// Writes the derivation of a file: a line for each name, and below it the lines of the tokens that it took.
pub fn write_syntax<W: Write>(
    out: &mut W,
    alloc: Global,
    text: &str,
    tree: &TopSubtree,
    events: &[Event],
) -> Result<(), Failure> {
    let places = Places::new(alloc, text)?;
    let mut level = tree.token_trees().iter();
    // the rest of each outer level, the innermost last
    let mut outer = Vec::new(alloc);
    let mut depth: usize = 0;
    for event in events {
        match *event {
            Event::Enter(name) => {
                write_indent(out, depth)?;
                out.write_all(text_of(name).as_bytes())?;
                out.write_all(b"\n")?;
                depth = depth.saturating_add(1);
            }
            Event::Token(count) => {
                write_unit(out, alloc, &places, depth, count, &mut level)?;
            }
            Event::Open => {
                let Some(TtElement::Subtree(subtree, children)) = level.next() else {
                    return Ok(());
                };
                write_indent(out, depth)?;
                write_header(out, &places, subtree.delimiter)?;
                outer.push(level)?;
                level = children;
                depth = depth.saturating_add(1);
            }
            Event::Leave => depth = depth.saturating_sub(1),
            Event::Close => {
                let Some(round) = outer.pop() else {
                    return Ok(());
                };
                level = round;
                depth = depth.saturating_sub(1);
            }
        }
    }
    Ok(())
}
