//! Whether a text reads back as the leaf that it was written for.
ghost use Rattle.std.specs.Prelude.{◌≡◌, ◌≤◌, ◌<◌, ◌+◌, ◌^◌, ◌↔◌, IsTrue, IfOk, IfErr, MatchOption, ◌∷◌, length};
ghost use Rattle.tt_base.specs.LeafText.{leaf_text};
ghost use Rattle.tt_base.specs.Literal.{IsLiteral, symbol_of, kind_of, suffix_len_of, span_of};
ghost use Rattle.syntax_unparse.specs.Writable.{IsOneToken, MakesLifetime, MayFollow, Means, MeansLiteral, ReadsAlone, ReadsAs, first_kind, is_lifetime, is_name, is_punct};
ghost use Rattle.syntax_unparse.specs.declared.fault.WriteFault.TheVariants.{Memory};

use crate::behind::Behind;
use crate::fault::WriteFault;
use std::alloc::Global;
use syntax_lex::{TokenKind, first_token};
use syntax_parse::{Role, punct_char, role_in, scan_of};
use tt_base::{IdentIsRaw, Leaf, Literal, TtFault, token_to_literal};

// Returns the one token of a text, if the text is one token that means leaves.
fn one_token(text: &str) -> Option<TokenKind>
    requires fits { length text.now < 2 ^ 32 }
    ensures { MatchOption result (IsOneToken text.now → ⊥) (λ kind. IsOneToken text.now × (kind ≡ first_kind text.now)) }
{
    if text.is_empty() {
        return None;
    }
    let token = first_token(text);
    if token.len as usize != text.len() {
        return None;
    }
    match role_in(token.kind, text) {
        Role::Leaf => Some(token.kind),
        _ => None,
    }
}

// Returns whether two literals are the same, whatever their spans.
fn is_same(literal: &Literal, other: &Literal) -> bool
    ensures { IsTrue result ↔ IsLiteral literal.now (symbol_of other.now) (span_of literal.now) (kind_of other.now) (suffix_len_of other.now) }
{
    literal.kind() == other.kind()
        && literal.suffix_len() == other.suffix_len()
        && literal.symbol() == other.symbol()
}

// Shows that the length of a literal's suffix fits into a byte.
fn suffix_is_short(literal: &Literal)
    ensures { suffix_len_of literal.now ≤ 255 }
{
    literal.suffix_len();
}

// Returns whether the one token of a text means the literal.
fn means_literal(
    alloc: Global,
    kind: TokenKind,
    text: &str,
    literal: &Literal,
) -> Result<bool, WriteFault>
    requires one { IsOneToken text.now }
    requires kind { kind ≡ first_kind text.now }
    ensures ok { IfOk result (λ yes. IsTrue yes ↔ MeansLiteral kind text.now literal.now) }
    ensures err { IfErr result (λ fault. fault ≡ Memory) }
{
    let TokenKind::Literal { kind, suffix_start } = kind else {
        return Ok(false);
    };
    let scan = Some((scan_of(kind), suffix_start));
    match token_to_literal(alloc, text, *literal.span(), scan) {
        Ok(read) => Ok(is_same(literal, &read)),
        Err(TtFault::SuffixTooLong) => {
            suffix_is_short(literal);
            Ok(false)
        }
        // the scan of a token fits its text
        Err(TtFault::BadScan) => unreachable!(),
        Err(_) => Err(WriteFault::Memory),
    }
}

// Returns whether a token is a name.
fn is_name(kind: TokenKind) -> bool
    ensures { result ≡ is_name kind }
{
    matches!(kind, TokenKind::Ident | TokenKind::RawIdent)
}

// Returns whether a token is a lifetime.
fn is_lifetime(kind: TokenKind) -> bool
    ensures { result ≡ is_lifetime kind }
{
    matches!(kind, TokenKind::Lifetime { .. } | TokenKind::RawLifetime)
}

// Returns whether the one token of a text means the leaf.
fn means(alloc: Global, kind: TokenKind, text: &str, leaf: &Leaf) -> Result<bool, WriteFault>
    requires one { IsOneToken text.now }
    requires kind { kind ≡ first_kind text.now }
    ensures ok { IfOk result (λ yes. IsTrue yes ↔ Means kind text.now leaf.now) }
    ensures err { IfErr result (λ fault. fault ≡ Memory) }
{
    match leaf {
        Leaf::Literal(literal) => means_literal(alloc, kind, text, literal),
        Leaf::Punct(punct) => match punct_char(kind) {
            Some(char) => Ok(char == punct.char),
            None => Ok(false),
        },
        Leaf::Ident(ident) => {
            let (is_raw, name) = IdentIsRaw::split_from_symbol(text);
            Ok(is_name(kind) && name == ident.sym.as_str() && is_raw == ident.is_raw)
        }
    }
}

// Returns whether a text reads as the leaf.
fn reads_as(alloc: Global, text: &str, leaf: &Leaf) -> Result<bool, WriteFault>
    requires fits { length text.now < 2 ^ 32 }
    ensures ok { IfOk result (λ yes. IsTrue yes ↔ ReadsAs text.now leaf.now) }
    ensures err { IfErr result (λ fault. fault ≡ Memory) }
{
    match one_token(text) {
        Some(kind) => means(alloc, kind, text, leaf),
        None => Ok(false),
    }
}

/// Returns whether a leaf is a punct with this character.
pub fn is_punct(char: char, leaf: &Leaf) -> bool
    ensures { result ≡ is_punct char leaf.now }
{
    match leaf {
        Leaf::Punct(punct) => punct.char == char,
        Leaf::Literal(_) | Leaf::Ident(_) => false,
    }
}

/// Returns whether a leaf's text reads as the leaf.
pub fn reads_alone(alloc: Global, text: &str, leaf: &Leaf) -> Result<bool, WriteFault>
    requires fits { length text.now < 2 ^ 32 }
    requires text { text.now ≡ leaf_text leaf.now }
    ensures ok { IfOk result (λ yes. IsTrue yes ↔ ReadsAlone leaf.now) }
    ensures err { IfErr result (λ fault. fault ≡ Memory) }
{
    if is_punct('\'', leaf) {
        return Ok(true);
    }
    reads_as(alloc, text, leaf)
}

// Returns whether a `'` and the leaf after it make a lifetime.
fn makes_lifetime(alloc: Global, leaf: &Leaf) -> Result<bool, WriteFault>
    requires fits { length (leaf_text leaf.now) + 1 < 2 ^ 32 }
    ensures ok { IfOk result (λ yes. IsTrue yes ↔ MakesLifetime leaf.now) }
    ensures err { IfErr result (λ fault. fault ≡ Memory) }
{
    let Leaf::Ident(ident) = leaf else {
        return Ok(false);
    };
    let mut text = String::from_str(alloc, "'")?;
    text.push_str(ident.is_raw.as_str())?;
    text.push_str(ident.sym.as_str())?;
    match one_token(text.as_str()) {
        Some(kind) => Ok(is_lifetime(kind)),
        None => Ok(false),
    }
}

/// Returns whether a leaf may follow what was written last.
pub fn may_follow(alloc: Global, behind: Behind, leaf: &Leaf) -> Result<bool, WriteFault>
    requires fits { length (leaf_text leaf.now) + 1 < 2 ^ 32 }
    ensures ok { IfOk result (λ yes. IsTrue yes ↔ MayFollow behind leaf.now) }
    ensures err { IfErr result (λ fault. fault ≡ Memory) }
{
    match behind {
        Behind::Quote => makes_lifetime(alloc, leaf),
        Behind::Slash => Ok(!(is_punct('/', leaf) || is_punct('*', leaf))),
        Behind::Pound => Ok(!is_punct('#', leaf)),
        _ => Ok(true),
    }
}
