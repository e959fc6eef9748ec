//! The tree of a text, and its lines.
use crate::failure::Failure;
use crate::syntax_error::syntax_failure;
use std::alloc::Global;
use std::io::{self, Write};
use syntax_diagnostic::Places;
use syntax_parse::parse_to_token_tree;
use tt::{
    Delimiter, DelimiterKind, ErasedFileAstId, FileId, Leaf, Spacing, Span, SpanAnchor,
    SyntaxContext, TopSubtree, TtElement, TtIter,
};

/// Returns the tree of a text, or the failure of its first fault.
pub fn tree_of(rt: &HostRuntime, name: &str, text: &str) -> Result<TopSubtree, Failure> {
    let anchor = SpanAnchor {
        file_id: FileId(0),
        ast_id: ErasedFileAstId(0),
    };
    match parse_to_token_tree(rt.alloc(), anchor, SyntaxContext(0), text) {
        Ok(tree) => Ok(tree),
        Err(fault) => Err(syntax_failure(rt, name, text, fault)),
    }
}

/// Writes a line for each token of the tree of a text, as Debug does, but with lines and columns for spans.
pub fn write_tree<W: Write>(
    out: &mut W,
    alloc: Global,
    text: &str,
    tree: &TopSubtree,
) -> Result<(), Failure> {
    let places = Places::new(alloc, text)?;
    write_trees(out, alloc, &places, 0, tree.token_trees().iter())
}

/// Writes a line for each token of these trees, which are at that depth.
pub fn write_trees<W: Write>(
    out: &mut W,
    alloc: Global,
    places: &Places<'_>,
    depth: usize,
    trees: TtIter<'_>,
) -> Result<(), Failure> {
    let mut level = trees;
    // the rest of each outer level, the innermost last
    let mut outer = Vec::new(alloc);
    'tokens: loop {
        let here = depth.saturating_add(outer.len());
        match level.next() {
            Some(TtElement::Leaf(leaf)) => {
                write_indent(out, here)?;
                write_leaf(out, places, &leaf)?;
            }
            Some(TtElement::Subtree(subtree, children)) => {
                write_indent(out, here)?;
                write_header(out, places, subtree.delimiter)?;
                outer.push(level)?;
                level = children;
            }
            None => {
                let Some(round) = outer.pop() else {
                    return Ok(());
                };
                level = round;
            }
        }
    }
}

/// Writes two spaces for each level.
pub fn write_indent<W: Write>(out: &mut W, depth: usize) -> io::Result<()> {
    for _ in 0..depth {
        out.write_all(b"  ")?;
    }
    Ok(())
}

// Writes where a token begins and ends.
fn write_span<W: Write>(out: &mut W, places: &Places<'_>, span: Span) -> io::Result<()> {
    let begin = places.place(span.range.start().raw() as usize);
    let end = places.place(span.range.end().raw() as usize);
    write!(out, "{begin}..{end}")
}

/// Writes the line of a leaf.
pub fn write_leaf<W: Write>(out: &mut W, places: &Places<'_>, leaf: &Leaf) -> io::Result<()> {
    match leaf {
        Leaf::Literal(literal) => {
            write!(out, "LITERAL {:?} {} ", literal.kind(), literal.symbol())?;
        }
        Leaf::Punct(punct) => {
            write!(out, "PUNCH   {punct} {} ", spacing_name(punct.spacing))?;
        }
        Leaf::Ident(ident) => write!(out, "IDENT   {ident} ")?,
    }
    write_span(out, places, *leaf.span())?;
    out.write_all(b"\n")
}

/// Writes the line of a subtree's header.
pub fn write_header<W: Write>(
    out: &mut W,
    places: &Places<'_>,
    delimiter: Delimiter,
) -> io::Result<()> {
    write!(out, "SUBTREE {} ", both_ends(delimiter.kind))?;
    write_span(out, places, delimiter.open_span)?;
    out.write_all(b" ")?;
    write_span(out, places, delimiter.close)?;
    out.write_all(b"\n")
}

// Returns both ends of a subtree of that kind.
fn both_ends(kind: DelimiterKind) -> &'static str {
    match kind {
        DelimiterKind::Parenthesis => "()",
        DelimiterKind::Brace => "{}",
        DelimiterKind::Bracket => "[]",
        DelimiterKind::Invisible | DelimiterKind::InvisibleOpaque => "$$",
    }
}

// Returns the name of a spacing as Debug writes it.
fn spacing_name(spacing: Spacing) -> &'static str {
    match spacing {
        Spacing::Alone => "[alone]",
        Spacing::Joint | Spacing::JointHidden => "[joint]",
    }
}
