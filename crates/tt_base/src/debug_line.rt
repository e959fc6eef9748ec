//! The lines that `Debug` writes: one for each token of a tree.
ghost use Rattle.std.specs.Prelude.{◌≡◌, Some};
ghost use Rattle.tt_base.specs.DebugText.{break_if, ends_text, header_line, indent, leaf_line, spacing_text};

use crate::delimiter::{Delimiter, DelimiterKind};
use crate::leaf::Leaf;
use crate::punct::Spacing;
use std::fmt;

/// Returns a line feed if one is due, otherwise nothing.
pub fn line_break(due: bool) -> &'static str
    ensures { result.now ≡ break_if due }
{
    if due { "\n" } else { "" }
}

/// Writes two spaces for each level.
#[derive(Clone, Copy)]
pub struct Indent(pub usize);

impl fmt::Display for Indent {
    ghost output = { λ depth. Some (indent depth.0) };

    fn fmt<W: fmt::Write>(&self, f: &mut fmt::Formatter<W>) -> fmt::Result {
        for _ in 0..self.0 {
            f.write_str("  ")?;
        }
        Ok(())
    }
}

/// Writes the line of a leaf, without its indentation.
#[derive(Clone, Copy)]
pub struct LeafLine<'a>(pub &'a Leaf);

impl fmt::Display for LeafLine<'_> {
    ghost output = { λ line. Some (leaf_line line.0.now) };

    #[tactic(auto, unfolding(crate::specs::DebugText::leaf_line))]
    fn fmt<W: fmt::Write>(&self, f: &mut fmt::Formatter<W>) -> fmt::Result {
        match self.0 {
            Leaf::Literal(literal) => write!(
                f,
                "LITERAL {:?} {} {:?}",
                literal.kind(),
                literal.symbol(),
                literal.span()
            ),
            Leaf::Punct(punct) => write!(
                f,
                "PUNCH   {punct} {} {:?}",
                spacing_name(punct.spacing),
                punct.span
            ),
            Leaf::Ident(ident) => write!(f, "IDENT   {ident} {:?}", ident.span),
        }
    }
}

/// Writes the line of a subtree's header, without its indentation.
#[derive(Clone, Copy)]
pub struct HeaderLine(pub Delimiter);

impl fmt::Display for HeaderLine {
    ghost output = { λ line. Some (header_line line.0) };

    #[tactic(auto, unfolding(crate::specs::DebugText::header_line))]
    fn fmt<W: fmt::Write>(&self, f: &mut fmt::Formatter<W>) -> fmt::Result {
        let Delimiter {
            open_span,
            close,
            kind,
        } = self.0;
        write!(f, "SUBTREE {} {open_span:?} {close:?}", both_ends(kind))
    }
}

// Returns the text for both ends of a subtree of that kind.
fn both_ends(kind: DelimiterKind) -> &'static str
    ensures { result.now ≡ ends_text kind }
{
    match kind {
        DelimiterKind::Parenthesis => "()",
        DelimiterKind::Brace => "{}",
        DelimiterKind::Bracket => "[]",
        DelimiterKind::Invisible => "$$",
        DelimiterKind::InvisibleOpaque => "$$",
    }
}

fn spacing_name(spacing: Spacing) -> &'static str
    ensures { result.now ≡ spacing_text spacing }
{
    match spacing {
        Spacing::Alone => "[alone]",
        Spacing::Joint | Spacing::JointHidden => "[joint]",
    }
}
