//! The role of a token for a tree.
ghost use Rattle.std.specs.Prelude.{◌≡◌, drop, is_none};
ghost use Rattle.syntax_parse.specs.RawLiteral.{raw_fault};
ghost use Rattle.syntax_parse.specs.Role.{comment_role, float_role, literal_role, or_leaf, role_in, role_of, with_inside};

use crate::bracket::Bracket;
use crate::fault::BadToken;
use crate::inside::{block_fault, line_fault, literal_fault};
use crate::leaves::behind_apostrophe;
use crate::raw::{behind_letters, raw_fault, raw_name_fault};
use syntax_lex::{Base, LiteralKind, TokenKind};

/// The role of a token for a tree.
#[derive(Debug, Clone, Copy, PartialEq, Eq)]
pub enum Role {
    /// A token that is not valid.
    Bad(BadToken),
    /// A token that is in no tree: white space, or a comment that documents nothing.
    Nothing,
    /// A token that opens a subtree.
    Opens(Bracket),
    /// A token that closes a subtree.
    Closes(Bracket),
    /// A token that means leaves.
    Leaf,
}

// Returns bad for this reason if something is wrong, else a leaf.
fn or_leaf(bad: bool, why: BadToken) -> Role
    ensures { result ≡ or_leaf bad why }
{
    if bad { Role::Bad(why) } else { Role::Leaf }
}

// Returns what a comment is: a leaf if it documents something.
fn comment_role(documents: bool) -> Role
    ensures { result ≡ comment_role documents }
{
    if documents { Role::Leaf } else { Role::Nothing }
}

// Returns what a float is: a leaf if it has base ten and a digit after its `e`.
fn float_role(base: Base, empty_exponent: bool) -> Role
    ensures { result ≡ float_role base empty_exponent }
{
    match base {
        Base::Decimal => or_leaf(empty_exponent, BadToken::EmptyExponent),
        _ => {
            if empty_exponent {
                Role::Bad(BadToken::EmptyExponent)
            } else {
                Role::Bad(BadToken::FloatOfAnotherBase)
            }
        }
    }
}

// Returns a leaf if a raw literal has its hashes, else what is wrong after its `letters` letters.
fn raw_role(n_hashes: Option<u8>, letters: usize, text: &str) -> Role
    ensures { result ≡ or_leaf (is_none n_hashes) (raw_fault (drop letters text.now)) }
{
    match n_hashes {
        Some(_) => Role::Leaf,
        None => Role::Bad(raw_fault(behind_letters(letters, text))),
    }
}

// Returns what a literal is: a leaf if it is closed and has the digits that it needs.
fn literal_role(kind: LiteralKind, text: &str) -> Role
    ensures { result ≡ literal_role kind text.now }
{
    match kind {
        LiteralKind::Int { empty_int, .. } => or_leaf(empty_int, BadToken::NoDigits),
        LiteralKind::Float {
            base,
            empty_exponent,
        } => float_role(base, empty_exponent),
        LiteralKind::Char { terminated }
        | LiteralKind::Byte { terminated }
        | LiteralKind::Str { terminated }
        | LiteralKind::ByteStr { terminated }
        | LiteralKind::CStr { terminated } => or_leaf(!terminated, BadToken::UnterminatedLiteral),
        LiteralKind::RawStr { n_hashes } => raw_role(n_hashes, 1, text),
        LiteralKind::RawByteStr { n_hashes } | LiteralKind::RawCStr { n_hashes } => {
            raw_role(n_hashes, 2, text)
        }
    }
}

// Returns what a token of a kind is to a tree, whatever its text holds, in edition 2024.
fn role_of(kind: TokenKind) -> Role
    ensures { result ≡ role_of kind }
{
    match kind {
        TokenKind::LineComment { doc_style } => comment_role(doc_style.is_some()),
        TokenKind::BlockComment {
            doc_style,
            terminated,
        } => {
            if terminated {
                comment_role(doc_style.is_some())
            } else {
                Role::Bad(BadToken::UnterminatedComment)
            }
        }
        TokenKind::Whitespace => Role::Nothing,
        TokenKind::InvalidIdent => Role::Bad(BadToken::InvalidIdent),
        TokenKind::UnknownPrefix => Role::Bad(BadToken::UnknownPrefix),
        TokenKind::UnknownPrefixLifetime => Role::Bad(BadToken::UnknownPrefix),
        TokenKind::GuardedStrPrefix => Role::Bad(BadToken::GuardedPrefix),
        TokenKind::Unknown => Role::Bad(BadToken::UnknownCharacter),
        TokenKind::Lifetime { starts_with_number } => {
            or_leaf(starts_with_number, BadToken::LifetimeBeginsWithDigit)
        }
        TokenKind::OpenParen => Role::Opens(Bracket::Parenthesis),
        TokenKind::CloseParen => Role::Closes(Bracket::Parenthesis),
        TokenKind::OpenBrace => Role::Opens(Bracket::Brace),
        TokenKind::CloseBrace => Role::Closes(Bracket::Brace),
        TokenKind::OpenBracket => Role::Opens(Bracket::Square),
        TokenKind::CloseBracket => Role::Closes(Bracket::Square),
        _ => Role::Leaf,
    }
}

// Returns the role, or bad if it is a leaf with something wrong inside.
fn with_inside(role: Role, inside: Option<BadToken>) -> Role
    ensures { result ≡ with_inside role inside }
{
    match (role, inside) {
        (Role::Leaf, Some(why)) => Role::Bad(why),
        _ => role,
    }
}

/// Returns what a token with this text is to a tree.
pub fn role_in(kind: TokenKind, text: &str) -> Role
    ensures { result ≡ role_in kind text.now }
{
    match kind {
        TokenKind::Literal { kind, suffix_start } => with_inside(
            literal_role(kind, text),
            literal_fault(kind, suffix_start, text),
        ),
        TokenKind::LineComment {
            doc_style: Some(style),
        } => with_inside(role_of(kind), line_fault(style, text)),
        TokenKind::BlockComment {
            doc_style: Some(style),
            ..
        } => with_inside(role_of(kind), block_fault(style, text)),
        TokenKind::RawIdent => with_inside(Role::Leaf, raw_name_fault(text)),
        TokenKind::RawLifetime => {
            with_inside(Role::Leaf, raw_name_fault(behind_apostrophe(text)))
        }
        _ => role_of(kind),
    }
}
