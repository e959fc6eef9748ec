//! Why a text is refused.
ghost use Rattle.std.specs.Prelude.{◌≡◌};
ghost use Rattle.syntax_parse.specs.declared.fault.TextFault.TheVariants.{Limit};

use crate::bracket::Bracket;
use thiserror::Error;
use tt_base::TtFault;

/// A bracket that is open, and its byte.
#[derive(Debug, Clone, Copy, PartialEq, Eq)]
pub struct Open {
    /// The bracket.
    pub bracket: Bracket,
    /// The byte at which it begins.
    pub at: u32,
}

/// What is wrong with a token.
#[derive(Debug, Clone, Copy, PartialEq, Eq, Error)]
pub enum BadToken {
    /// `/*` with no `*/` that closes it.
    #[error("unterminated comment")]
    UnterminatedComment,
    /// A literal without a closing quote; for a raw one, without a closing quote that has as many hashes after it.
    #[error("unterminated literal")]
    UnterminatedLiteral,
    /// The hashes of a raw literal with no quote after them.
    #[error("raw literal without a quote")]
    RawWithoutQuote,
    /// A raw literal with more than 255 hashes, or a documenting comment whose text would need as many.
    #[error("more than 255 hashes")]
    TooManyHashes,
    /// A number with a suffix of more than 255 bytes.
    #[error("suffix of more than 255 bytes")]
    SuffixTooLong,
    /// `r#` before `_`, `crate`, `self`, `super` or `Self`, which are never raw.
    #[error("name that is never raw")]
    NeverRaw,
    /// A character that begins no token.
    #[error("unknown character")]
    UnknownCharacter,
    /// A name right before a quote or a `#`, which is no prefix of a literal.
    #[error("unknown prefix")]
    UnknownPrefix,
    /// A name with emoji in it.
    #[error("invalid identifier")]
    InvalidIdent,
    /// `##` or `#"`, which the edition 2024 keeps for later.
    #[error("guarded prefix")]
    GuardedPrefix,
    /// The letter of a base with no digit after it.
    #[error("number with no digits")]
    NoDigits,
    /// The `e` of a float with no digit after it.
    #[error("exponent with no digits")]
    EmptyExponent,
    /// A float that is not written in base ten.
    #[error("float of another base than ten")]
    FloatOfAnotherBase,
    /// A number with a digit that its base does not have.
    #[error("number with a digit that its base has not")]
    ForeignDigit,
    /// A byte or a byte string with a character beyond ASCII.
    #[error("character beyond ASCII in bytes")]
    BeyondAscii,
    /// A literal or a documenting comment with a carriage return that no line feed follows.
    #[error("bare carriage return")]
    BareReturn,
    /// A backslash followed by something that is no escape of such a literal.
    #[error("unknown escape")]
    UnknownEscape,
    /// `\x` without two digits of base 16.
    #[error("escape of a byte without two digits")]
    BadHexEscape,
    /// `\x80` or more in a character or a string, where it is no character.
    #[error("escape of a byte beyond 7f")]
    HexEscapeTooLarge,
    /// `\u` without one to six digits of base 16 in braces, or with the number of no character.
    #[error("escape of no character")]
    BadUnicodeEscape,
    /// A quote, a tab or an end of line in a literal of one character without a backslash before it.
    #[error("character that wants an escape")]
    WantsEscape,
    /// A literal of one character that is empty.
    #[error("empty character literal")]
    EmptyChar,
    /// A literal of one character that has several.
    #[error("several characters in a character literal")]
    SeveralChars,
    /// A null in a C string.
    #[error("null in a C string")]
    NullInCStr,
    /// `'` and a digit.
    #[error("lifetime that begins with a digit")]
    LifetimeBeginsWithDigit,
}

/// Why tokens are no trees, and the byte of the fault.
#[derive(Debug, Clone, Copy, PartialEq, Eq, Error)]
pub enum SyntaxFault {
    /// A token that is not valid.
    #[error("{why} at {at}")]
    BadToken {
        /// What is wrong with the token.
        why: BadToken,
        /// The byte at which it begins.
        at: u32,
    },
    /// A closing bracket while none is open.
    #[error("unopened '{}' at {at}", .bracket.closing())]
    Unopened {
        /// The bracket.
        bracket: Bracket,
        /// The byte at which it begins.
        at: u32,
    },
    /// A closing bracket that does not match the innermost open one.
    #[error("'{}' at {at} does not close the '{}' at {}", .bracket.closing(), .open.bracket.opening(), .open.at)]
    Mismatched {
        /// The bracket.
        bracket: Bracket,
        /// The byte at which it begins.
        at: u32,
        /// The innermost bracket that is open there.
        open: Open,
    },
    /// The innermost bracket that is open at the end.
    #[error("unclosed '{}' at {at}", .bracket.opening())]
    Unclosed {
        /// The bracket.
        bracket: Bracket,
        /// The byte at which it begins.
        at: u32,
    },
}

/// Why a text is refused.
#[derive(Debug, Clone, Copy, PartialEq, Eq, Error)]
pub enum TextFault {
    /// The text is no token trees. This is the first fault.
    #[error("{0}")]
    Syntax(SyntaxFault),
    /// The text has more bytes than a span can hold: 4,294,967,296 or more.
    #[error("more than 4294967295 bytes")]
    TooLong,
    /// Memory runs out, or the text exceeds a limit of trees.
    #[error("{0}")]
    Limit(TtFault),
}

impl From<TtFault> for TextFault {
    ghost from_gives = { λ fault all. all ≡ Limit fault };

    fn from(fault: TtFault) -> TextFault {
        TextFault::Limit(fault)
    }
}
