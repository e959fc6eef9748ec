//! Comments that document something.
ghost use Rattle.std.specs.Prelude.{◌≡◌, ◌^◌, ◌-◌, ◌<◌, IfErr, OnOk};
ghost use Rattle.syntax_parse.specs.Doc.{before_closing, behind_line_opening, behind_opening, block_text, hashes_wanted, line_text, next_run, without_return};
ghost use Rattle.syntax_parse.specs.Limits.{IsAddFault};
ghost use Rattle.syntax_parse.specs.Parsed.{Adds};
ghost use Rattle.syntax_parse.specs.Pieces.{attribute, doc, inside, signs};
ghost use Rattle.syntax_parse.specs.Spelled.{all_at};

use crate::add::{add_leaf, add_name, add_punct};
use syntax_lex::DocStyle;
use tt::FlatBuilder;
use tt_base::{DelimiterKind, Leaf, LitKind, Literal, Spacing, Span, Texts, TtFault};

// Returns the text after the signs that open a comment of one line.
fn behind_line_opening(style: DocStyle, text: &str) -> &str
    ensures { result.now ≡ behind_line_opening style text.now }
{
    match style {
        DocStyle::Outer => match text.strip_prefix("///") {
            Some(rest) => rest,
            None => text,
        },
        DocStyle::Inner => match text.strip_prefix("//!") {
            Some(rest) => rest,
            None => text,
        },
    }
}

// Returns the text without the carriage return at its end, which belongs to the end of the line.
fn without_return(text: &str) -> &str
    ensures { result.now ≡ without_return text.now }
{
    match text.strip_suffix("\r") {
        Some(rest) => rest,
        None => text,
    }
}

/// Returns the text of a comment of one line.
pub fn line_text(style: DocStyle, text: &str) -> &str
    ensures { result.now ≡ line_text style text.now }
{
    without_return(behind_line_opening(style, text))
}

// Returns the text after the signs that open a block comment.
fn behind_opening(style: DocStyle, text: &str) -> &str
    ensures { result.now ≡ behind_opening style text.now }
{
    match style {
        DocStyle::Outer => match text.strip_prefix("/**") {
            Some(rest) => rest,
            None => text,
        },
        DocStyle::Inner => match text.strip_prefix("/*!") {
            Some(rest) => rest,
            None => text,
        },
    }
}

// Returns the text before the sign that closes a block comment.
fn before_closing(text: &str) -> &str
    ensures { result.now ≡ before_closing text.now }
{
    match text.strip_suffix("*/") {
        Some(rest) => rest,
        None => text,
    }
}

/// Returns the text of a block comment.
pub fn block_text(style: DocStyle, text: &str) -> &str
    ensures { result.now ≡ block_text style text.now }
{
    before_closing(behind_opening(style, text))
}

// Returns the length of a run of a quote and hashes after one byte more.
fn next_run(run: usize, byte: u8) -> usize
    requires { run < 2 ^ 64 - 1 }
    ensures { result ≡ next_run run byte }
{
    if byte == b'"' {
        1
    } else if (byte == b'#') & (run > 0) {
        run + 1
    } else {
        0
    }
}

/// Returns how many hashes a raw string with this text needs.
pub fn hashes_wanted(text: &str) -> usize
    ensures { result ≡ hashes_wanted text.now }
{
    let mut run = 0;
    let mut most = 0;
    for byte in text.as_bytes() {
        run = next_run(run, *byte);
        if run > most {
            most = run;
        }
    }
    most
}

// Adds `doc = text` at the end.
fn add_inside(
    texts: &mut Texts,
    builder: &mut FlatBuilder,
    text: &str,
    span: Span,
) -> Result<(), TtFault>
    requires { hashes_wanted text.now < 256 }
    ensures err { IfErr result (IsAddFault (all_at span (inside text.now)) builder.old) }
    ensures ok { OnOk result (Adds (all_at span (inside text.now)) builder.old builder.new) }
{
    let hashes = hashes_wanted(text) as u8;
    add_name(texts, builder, "doc", span)?;
    add_punct(builder, '=', Spacing::Alone, span)?;
    let literal = Literal::new_no_suffix(texts.alloc(), text, span, LitKind::StrRaw(hashes))?;
    add_leaf(builder, Leaf::Literal(literal))?;
    Ok(())
}

// Adds `[doc = text]` at the end.
fn add_brackets(
    texts: &mut Texts,
    builder: &mut FlatBuilder,
    text: &str,
    span: Span,
) -> Result<(), TtFault>
    requires { hashes_wanted text.now < 256 }
    ensures err { IfErr result (IsAddFault (all_at span (attribute text.now)) builder.old) }
    ensures ok { OnOk result (Adds (all_at span (attribute text.now)) builder.old builder.new) }
{
    builder.open(DelimiterKind::Bracket, span)?;
    add_inside(texts, builder, text, span)?;
    builder.close(span);
    Ok(())
}

// Adds the signs before the brackets at the end.
fn add_signs(builder: &mut FlatBuilder, style: DocStyle, span: Span) -> Result<(), TtFault>
    ensures err { IfErr result (IsAddFault (all_at span (signs style)) builder.old) }
    ensures ok { OnOk result (Adds (all_at span (signs style)) builder.old builder.new) }
{
    add_punct(builder, '#', Spacing::Alone, span)?;
    match style {
        DocStyle::Outer => Ok(()),
        DocStyle::Inner => {
            add_punct(builder, '!', Spacing::Alone, span)?;
            Ok(())
        }
    }
}

/// Adds the attribute that a comment with this text means at the end.
pub fn add_doc(
    texts: &mut Texts,
    builder: &mut FlatBuilder,
    style: DocStyle,
    text: &str,
    span: Span,
) -> Result<(), TtFault>
    requires { hashes_wanted text.now < 256 }
    ensures err { IfErr result (IsAddFault (all_at span (doc style text.now)) builder.old) }
    ensures ok { OnOk result (Adds (all_at span (doc style text.now)) builder.old builder.new) }
{
    add_signs(builder, style, span)?;
    add_brackets(texts, builder, text, span)?;
    Ok(())
}
