//! A text as token trees.
ghost use Rattle.std.specs.Prelude.{◌≡◌, ◌^◌, ◌<◌, length, IfOk, IfErr};
ghost use Rattle.std.specs.Str.{chars};
ghost use Rattle.syntax_parse.specs.Parsed.{IsParse, IsTop, kind_ahead, token_ahead};
ghost use Rattle.syntax_parse.specs.Refusal.{IsRefusal};

use crate::add::Placed;
use crate::fault::{Open, SyntaxFault, TextFault};
use crate::leaves::span_at;
use crate::step::take;
use std::alloc::Global;
use syntax_lex::{MOST_TEXT_BYTES, Token, TokenKind, first_token};
use tt::FlatBuilder;
use tt_base::{DelimSpan, Delimiter, SpanAnchor, SpanPart, SyntaxContext, Texts};
use tt_view::TopSubtree;

// A token of source has more bytes than this on average, white space included.
const BYTES_OF_TOKEN: usize = 2;

// The most tokens that get room before they are read.
const MOST_TOKENS_AT_FIRST: usize = 512;

// Returns the first token of a text, if it has one.
fn token_ahead(text: &str) -> Option<Token>
    requires { length text.now < 2 ^ 32 }
    ensures { result ≡ token_ahead (chars text.now) }
{
    if text.is_empty() {
        None
    } else {
        Some(first_token(text))
    }
}

// Returns the kind of a token, if there is one.
fn kind_of(token: Option<Token>) -> Option<TokenKind>
    ensures { result ≡ kind_ahead token }
{
    match token {
        Some(it) => Some(it.kind),
        None => None,
    }
}

// Returns the delimiter of a text: invisible, with the empty spans at its start and at its end.
fn top_of(part: SpanPart, len: u32) -> Delimiter
    ensures { IsTop part len result }
{
    Delimiter::invisible_delim_spanned(DelimSpan::from_pair(
        span_at(part, 0, 0),
        span_at(part, len, len),
    ))
}

// Returns the number of tokens that get room at first: all of a short text.
fn room_for(text: &str) -> usize {
    (text.len() / BYTES_OF_TOKEN + 1).min(MOST_TOKENS_AT_FIRST)
}

/// Returns the token trees of a text, under an invisible top. Its two spans are the empty ones at the start and at the end of the text.
///
/// Returns the first fault if a token is not valid or brackets do not match. The text is of edition 2024.
#[tactic(auto, using(crate::proofs::LimitFacts::limit_of_memory))]
pub fn parse_to_token_tree(
    alloc: Global,
    anchor: SpanAnchor,
    ctx: SyntaxContext,
    text: &str,
) -> Result<TopSubtree, TextFault>
    ensures ok { IfOk result (IsParse (record { anchor = anchor; ctx = ctx }) text.now) }
    ensures err { IfErr result (IsRefusal (record { anchor = anchor; ctx = ctx }) text.now) }
{
    if text.len() > MOST_TEXT_BYTES {
        return Err(TextFault::TooLong);
    }
    let part = SpanPart { anchor, ctx };
    let top = top_of(part, text.len() as u32);
    let mut builder = FlatBuilder::with_capacity(alloc, top, room_for(text))?;
    let mut texts = Texts::of_source(alloc, text.len());
    let mut open: Vec<Open> = Vec::new(alloc);
    let mut at = 0;
    let mut rest = text;
    let mut ahead = token_ahead(text);
    while let Some(token) = ahead {
        let (word, behind) = rest.split_at(token.len as usize);
        let next = token_ahead(behind);
        let placed = Placed {
            kind: token.kind,
            next: kind_of(next),
            at,
            text: word,
        };
        if let Some(fault) = take(&mut texts, &mut builder, &mut open, part, placed)? {
            return Err(TextFault::Syntax(fault));
        }
        at += token.len;
        rest = behind;
        ahead = next;
    }
    if let Some(last) = open.pop() {
        return Err(TextFault::Syntax(SyntaxFault::Unclosed {
            bracket: last.bracket,
            at: last.at,
        }));
    }
    Ok(builder.build()?)
}
