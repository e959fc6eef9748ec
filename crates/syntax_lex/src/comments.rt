//! Comments, after the two characters that open them.
ghost use Rattle.std.specs.Prelude.{◌≡◌, ◌≤◌, length};
ghost use Rattle.std.specs.Str.{chars};
ghost use Rattle.syntax_lex.specs.Comments.{block_comment, block_doc, line_comment, line_doc};
ghost use Rattle.syntax_lex.specs.Front.{first, second};

use crate::closing::past_comment;
use crate::front::{begins_with, goes_on_with};
use crate::runs::{Stop, past_until};
use crate::token::{DocStyle, TokenKind};

// Returns what a line comment documents, by the text after its `//`.
fn line_doc(body: &str) -> Option<DocStyle>
    ensures { result ≡ line_doc (first (chars body.now)) (second (chars body.now)) }
{
    if begins_with(body, b'!') {
        Some(DocStyle::Inner)
    } else if begins_with(body, b'/') && !goes_on_with(body, b'/') {
        Some(DocStyle::Outer)
    } else {
        None
    }
}

// Returns what a block comment documents, by the text after its `/*`.
fn block_doc(body: &str) -> Option<DocStyle>
    ensures { result ≡ block_doc (first (chars body.now)) (second (chars body.now)) }
{
    if begins_with(body, b'!') {
        Some(DocStyle::Inner)
    } else if begins_with(body, b'*') && !goes_on_with(body, b'*') && !goes_on_with(body, b'/') {
        Some(DocStyle::Outer)
    } else {
        None
    }
}

/// Takes the text after `//`. Returns the comment, and what follows it.
#[inline(never)]
pub fn line_comment(body: &str) -> (TokenKind, &str)
    ensures value { line_comment (chars body.now) ≡ (result.0, chars result.1.now) }
    ensures len { length result.1.now ≤ length body.now }
{
    let doc_style = line_doc(body);
    (
        TokenKind::LineComment { doc_style },
        past_until(body, Stop::LineEnd),
    )
}

/// Takes the text after `/*`. Returns the comment, and what follows it.
#[inline(never)]
pub fn block_comment(body: &str) -> (TokenKind, &str)
    ensures value { block_comment (chars body.now) ≡ (result.0, chars result.1.now) }
    ensures len { length result.1.now ≤ length body.now }
{
    let doc_style = block_doc(body);
    let (terminated, rest) = past_comment(body);
    (
        TokenKind::BlockComment {
            doc_style,
            terminated,
        },
        rest,
    )
}
