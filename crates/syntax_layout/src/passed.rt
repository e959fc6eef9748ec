//! Which part a token is, by the tokens that were passed.
ghost use Rattle.std.specs.Char.{is_ascii_lowercase};
ghost use Rattle.std.specs.Prelude.{◌≡◌};
ghost use Rattle.syntax_layout.specs.Passed.{angles_after, bang_part, bar_part, bars_after, brace_part, colon_part, end_brace_part, equals_part, glued, greater_part, is_next, is_there, is_type, less_part, minus_part, name_part, part_of, passed_after, question_part, sign_part, start, symbol_part, uses_after, word_part};

use crate::part::{Part, ends_piece, ends_value};
use syntax_lex::TokenKind;

/// So many open `<` are counted.
const MOST_ANGLES: usize = 1000;

/// What was passed of a text.
#[derive(Debug, Clone, Copy)]
pub struct Passed {
    /// The last token.
    pub part: Part,
    /// How many generic arguments are open.
    pub angles: usize,
    /// Whether the parameters of a closure are open.
    pub bars: bool,
    /// Whether it is in a `use`.
    pub uses: bool,
}

/// Returns what was passed before the first token.
pub fn start() -> Passed
    ensures { result ≡ start }
{
    Passed {
        part: Part::Start,
        angles: 0,
        bars: false,
        uses: false,
    }
}

/// Returns whether the byte after a token is this one.
pub(crate) fn is_next(next: Option<u8>, byte: u8) -> bool
    ensures { result ≡ is_next next byte }
{
    match next {
        Some(found) => found == byte,
        None => false,
    }
}

// Returns whether a byte is there and is a small letter.
fn is_small(byte: Option<u8>) -> bool
    ensures { result ≡ is_there is_ascii_lowercase byte }
{
    match byte {
        Some(byte) => byte.is_ascii_lowercase(),
        None => false,
    }
}

// Returns whether a name is one of a type: it begins with a capital letter, and its second or last letter is a small one.
fn is_type(text: &str) -> bool
    ensures { result ≡ is_type text.now }
{
    let bytes = text.as_bytes();
    let Some(first) = bytes.first() else {
        return false;
    };
    first.is_ascii_uppercase()
        && (is_small(bytes.get(1).copied()) || is_small(bytes.get(bytes.len() - 1).copied()))
}

/// Returns the part of a name that is no keyword: what follows `fn` takes generic parameters.
pub fn name_part(before: Part, text: &str) -> Part
    ensures { result ≡ name_part before text.now }
{
    if matches!(before, Part::Fn) || is_type(text) {
        Part::Type
    } else {
        Part::Name
    }
}

// Returns the part of a word. Words that stand for a value or a type, as `self` and `crate`, are names.
fn word_part(before: Part, text: &str) -> Part
    ensures { result ≡ word_part before text.now }
{
    match text {
        "fn" | "pub" => Part::Fn,
        "for" | "impl" | "use" => Part::For,
        "as"
        | "async"
        | "break"
        | "const"
        | "continue"
        | "dyn"
        | "else"
        | "enum"
        | "extern"
        | "if"
        | "in"
        | "let"
        | "loop"
        | "match"
        | "mod"
        | "move"
        | "mut"
        | "ref"
        | "return"
        | "static"
        | "struct"
        | "trait"
        | "type"
        | "unsafe"
        | "where"
        | "while"
        | "yield" => { Part::Keyword }
        _ => name_part(before, text),
    }
}

// Returns whether a sign goes on with the operator that it touches.
fn glued(passed: Passed, touching: bool) -> bool
    ensures { result ≡ glued passed touching }
{
    touching && matches!(passed.part, Part::Operator)
}

// Returns the part of a sign that is an operator after a value, and else a prefix.
fn sign_part(passed: Passed, touching: bool) -> Part
    ensures { result ≡ sign_part passed touching }
{
    if glued(passed, touching) || ends_value(passed.part) {
        Part::Operator
    } else {
        Part::Prefix
    }
}

// Returns the part of a `-`.
fn minus_part(passed: Passed, touching: bool, next: Option<u8>) -> Part
    ensures { result ≡ minus_part passed touching next }
{
    if is_next(next, b'>') {
        Part::Operator
    } else {
        sign_part(passed, touching)
    }
}

// Returns the part of a `|`.
fn bar_part(passed: Passed, touching: bool) -> Part
    ensures { result ≡ bar_part passed touching }
{
    if passed.bars {
        return Part::Bar;
    }
    if glued(passed, touching) || ends_piece(passed.part) {
        Part::Operator
    } else {
        Part::Prefix
    }
}

// Returns the part of a `<`.
fn less_part(passed: Passed, touching: bool, next: Option<u8>) -> Part
    ensures { result ≡ less_part passed touching next }
{
    if glued(passed, touching) || is_next(next, b'=') {
        return Part::Operator;
    }
    if ends_value(passed.part) && !matches!(passed.part, Part::Type) {
        Part::Operator
    } else {
        Part::OpenAngle
    }
}

// Returns the part of a `>`.
fn greater_part(passed: Passed, touching: bool) -> Part
    ensures { result ≡ greater_part passed touching }
{
    if glued(passed, touching) || passed.angles == 0 {
        Part::Operator
    } else {
        Part::CloseAngle
    }
}

// Returns the part of a `:`.
fn colon_part(passed: Passed, touching: bool, next: Option<u8>) -> Part
    ensures { result ≡ colon_part passed touching next }
{
    if is_next(next, b':') || (touching && matches!(passed.part, Part::Path)) {
        Part::Path
    } else {
        Part::Colon
    }
}

// Returns the part of a `=`.
fn equals_part(passed: Passed, touching: bool) -> Part
    ensures { result ≡ equals_part passed touching }
{
    if touching && matches!(passed.part, Part::Dot) {
        Part::Dot
    } else {
        Part::Operator
    }
}

// Returns the part of a `!`.
fn bang_part(before: Part, next: Option<u8>) -> Part
    ensures { result ≡ bang_part before next }
{
    if is_next(next, b'=') {
        return Part::Operator;
    }
    match before {
        Part::Name | Part::Type => Part::Bang,
        _ => Part::Prefix,
    }
}

// Returns the part of a `?`.
fn question_part(before: Part) -> Part
    ensures { result ≡ question_part before }
{
    if ends_piece(before) {
        Part::Question
    } else {
        Part::Prefix
    }
}

// Returns the part of a `{`.
fn brace_part(passed: Passed) -> Part
    ensures { result ≡ brace_part passed }
{
    match passed.part {
        Part::Path | Part::Comma | Part::Open | Part::For => {
            if passed.uses { Part::Open } else { Part::Brace }
        }
        _ => Part::Brace,
    }
}

// Returns the part of a `}`.
fn end_brace_part(passed: Passed) -> Part
    ensures { result ≡ end_brace_part passed }
{
    if passed.uses {
        Part::Close
    } else {
        Part::EndBrace
    }
}

// Returns the part of a punct or a bracket; any other token is like a name.
fn symbol_part(passed: Passed, touching: bool, next: Option<u8>, kind: TokenKind) -> Part
    ensures { result ≡ symbol_part passed touching next kind }
{
    match kind {
        TokenKind::OpenParen | TokenKind::OpenBracket => Part::Open,
        TokenKind::OpenBrace => brace_part(passed),
        TokenKind::CloseParen | TokenKind::CloseBracket => Part::Close,
        TokenKind::CloseBrace => end_brace_part(passed),
        TokenKind::Comma | TokenKind::Semi => Part::Comma,
        TokenKind::Dot => Part::Dot,
        TokenKind::Colon => colon_part(passed, touching, next),
        TokenKind::Eq => equals_part(passed, touching),
        TokenKind::Bang => bang_part(passed.part, next),
        TokenKind::Lt => less_part(passed, touching, next),
        TokenKind::Gt => greater_part(passed, touching),
        TokenKind::And | TokenKind::Star => sign_part(passed, touching),
        TokenKind::Minus => minus_part(passed, touching, next),
        TokenKind::Or => bar_part(passed, touching),
        TokenKind::Question => question_part(passed.part),
        TokenKind::Plus
        | TokenKind::Slash
        | TokenKind::Caret
        | TokenKind::Percent
        | TokenKind::At => Part::Operator,
        TokenKind::Pound | TokenKind::Dollar | TokenKind::Tilde => Part::Prefix,
        _ => Part::Name,
    }
}

/// Returns the part of a token of a kind with a text. `touching` says whether it touches the token before it, and `next` is the byte after it.
pub fn part_of(
    passed: Passed,
    touching: bool,
    next: Option<u8>,
    kind: TokenKind,
    text: &str,
) -> Part
    ensures { result ≡ part_of passed touching next kind text.now }
{
    match kind {
        TokenKind::Ident => word_part(passed.part, text),
        TokenKind::Literal { .. } => Part::Literal,
        TokenKind::Lifetime { .. } | TokenKind::RawLifetime => Part::Lifetime,
        _ => symbol_part(passed, touching, next, kind),
    }
}

// Returns how many generic arguments are open after a part.
fn angles_after(part: Part, angles: usize) -> usize
    ensures { result ≡ angles_after part angles }
{
    match part {
        Part::OpenAngle => {
            if angles < MOST_ANGLES {
                angles + 1
            } else {
                angles
            }
        }
        Part::CloseAngle => { if angles > 0 { angles - 1 } else { angles } }
        Part::Brace | Part::EndBrace => 0,
        _ => angles,
    }
}

// Returns whether the parameters of a closure are open after a token.
fn bars_after(kind: TokenKind, part: Part, bars: bool) -> bool
    ensures { result ≡ bars_after kind part bars }
{
    match part {
        Part::Prefix => matches!(kind, TokenKind::Or) || bars,
        Part::Bar | Part::Brace => false,
        _ => bars,
    }
}

// Returns whether it is in a `use` after a token with a text.
fn uses_after(kind: TokenKind, part: Part, text: &str, uses: bool) -> bool
    ensures { result ≡ uses_after kind part text.now uses }
{
    match part {
        Part::For => text == "use",
        Part::Comma => uses && !matches!(kind, TokenKind::Semi),
        Part::Brace => false,
        _ => uses,
    }
}

/// Returns what was passed after a token of a kind with a text, which is this part.
pub fn passed_after(passed: Passed, kind: TokenKind, text: &str, part: Part) -> Passed
    ensures { result ≡ passed_after passed kind text.now part }
{
    Passed {
        part,
        angles: angles_after(part, passed.angles),
        bars: bars_after(kind, part, passed.bars),
        uses: uses_after(kind, part, text, passed.uses),
    }
}
