//! The reason why a text is refused, on one line.
ghost use Rattle.std.specs.Prelude.{◌≡◌, ◌∷◌, [], ◌++◌, IfOk, string_bytes};
ghost use Rattle.app_console.specs.Answer.{line};
ghost use Rattle.app_console.specs.Reading.{bad_words, syntax_words, text_words};
ghost use Rattle.syntax_parse.specs.Bracket.{closing_of, opening_of};
ghost use Rattle.syntax_parse.specs.declared.fault.SyntaxFault.TheVariants.{Mismatched};

use itoa::Buffer;
use std::alloc::{AllocError, Global};
use syntax_parse::{BadToken, Bracket, Open, SyntaxFault};

// Returns what is wrong with a token.
fn bad_words(why: BadToken) -> &'static str
    ensures { result.now ≡ bad_words why }
{
    match why {
        BadToken::UnterminatedComment => "unterminated comment",
        BadToken::UnterminatedLiteral => "unterminated literal",
        BadToken::RawWithoutQuote => "raw literal without a quote",
        BadToken::TooManyHashes => "too many hashes",
        BadToken::SuffixTooLong => "suffix too long",
        BadToken::NeverRaw => "name that is never raw",
        BadToken::UnknownCharacter => "unknown character",
        BadToken::UnknownPrefix => "unknown prefix",
        BadToken::InvalidIdent => "invalid identifier",
        BadToken::GuardedPrefix => "guarded prefix",
        BadToken::NoDigits => "no digits",
        BadToken::EmptyExponent => "empty exponent",
        BadToken::FloatOfAnotherBase => "float of another base",
        BadToken::ForeignDigit => "digit of another base",
        BadToken::BeyondAscii => "character beyond ASCII",
        BadToken::BareReturn => "bare carriage return",
        BadToken::UnknownEscape => "unknown escape",
        BadToken::BadHexEscape => "escape without two digits",
        BadToken::HexEscapeTooLarge => "escape beyond 7f",
        BadToken::BadUnicodeEscape => "escape of no character",
        BadToken::WantsEscape => "character that wants an escape",
        BadToken::EmptyChar => "empty character",
        BadToken::SeveralChars => "several characters",
        BadToken::NullInCStr => "null in a C string",
        BadToken::LifetimeBeginsWithDigit => "lifetime that begins with a digit",
    }
}

// Returns the sign that opens a bracket.
fn opening_sign(bracket: Bracket) -> &'static str
    ensures { result.now ≡ opening_of bracket ∷ [] }
{
    match bracket {
        Bracket::Parenthesis => "(",
        Bracket::Brace => "{",
        Bracket::Square => "[",
    }
}

// Returns the sign that closes a bracket.
fn closing_sign(bracket: Bracket) -> &'static str
    ensures { result.now ≡ closing_of bracket ∷ [] }
{
    match bracket {
        Bracket::Parenthesis => ")",
        Bracket::Brace => "}",
        Bracket::Square => "]",
    }
}

// Returns `text`, the byte, and the fault there, in two words.
fn two_words(alloc: Global, at: u32, first: &str, second: &str) -> Result<String, AllocError>
    ensures { IfOk result (λ text. string_bytes text ≡ line (text_words at (first.now ++ second.now))) }
{
    let mut text = String::new(alloc);
    text.push_str("text ")?;
    text.push_str(Buffer::new().format(at))?;
    text.push_str(" ")?;
    text.push_str(first)?;
    text.push_str(second)?;
    text.push_str("\n")?;
    Ok(text)
}

// Returns `text`, the byte of a bracket, and the other bracket that it should close.
fn two_brackets(alloc: Global, at: u32, bracket: Bracket, last: Open) -> Result<String, AllocError>
    ensures { IfOk result (λ text. string_bytes text ≡ line (syntax_words (Mismatched bracket at last))) }
{
    let mut text = String::new(alloc);
    text.push_str("text ")?;
    text.push_str(Buffer::new().format(at))?;
    text.push_str(" ")?;
    text.push_str(closing_sign(bracket))?;
    text.push_str(" for ")?;
    text.push_str(opening_sign(last.bracket))?;
    text.push_str(" at ")?;
    text.push_str(Buffer::new().format(last.at))?;
    text.push_str("\n")?;
    Ok(text)
}

/// Returns `text`, the byte of the fault, and the fault, on one line.
pub(crate) fn syntax_line(alloc: Global, fault: SyntaxFault) -> Result<String, AllocError>
    ensures { IfOk result (λ text. string_bytes text ≡ line (syntax_words fault)) }
{
    match fault {
        SyntaxFault::BadToken { why, at } => two_words(alloc, at, bad_words(why), ""),
        SyntaxFault::Unopened { bracket, at } => {
            two_words(alloc, at, "unopened ", closing_sign(bracket))
        }
        SyntaxFault::Mismatched { bracket, at, open } => two_brackets(alloc, at, bracket, open),
        SyntaxFault::Unclosed { bracket, at } => {
            two_words(alloc, at, "unclosed ", opening_sign(bracket))
        }
    }
}
