//! The kinds of tokens.

/// A token: its kind, and how many bytes it takes.
#[derive(Debug, Clone, Copy, PartialEq, Eq)]
pub struct Token {
    /// The kind of the token.
    pub kind: TokenKind,
    /// How many bytes it takes.
    pub len: u32,
}

/// The kind of a token. Puncts are single characters.
#[derive(Debug, Clone, Copy, PartialEq, Eq)]
pub enum TokenKind {
    /// `//` and all to the end of the line.
    LineComment {
        /// What the comment documents, if anything.
        doc_style: Option<DocStyle>,
    },
    /// `/*` and all to the `*/` that closes it. Such comments nest.
    BlockComment {
        /// What the comment documents, if anything.
        doc_style: Option<DocStyle>,
        /// Whether it is closed. A comment that is not closed takes all.
        terminated: bool,
    },
    /// A run of white space.
    Whitespace,
    /// An identifier or a keyword.
    Ident,
    /// An identifier with emoji in it.
    InvalidIdent,
    /// `r#` and an identifier.
    RawIdent,
    /// An identifier right before a `#` or a quote, which is no prefix of a literal.
    UnknownPrefix,
    /// A lifetime right before a `#`, which is no `'r`.
    UnknownPrefixLifetime,
    /// `'r#` and an identifier.
    RawLifetime,
    /// `##` or `#"`.
    GuardedStrPrefix,
    /// A literal with its suffix.
    Literal {
        /// The kind of the literal.
        kind: LiteralKind,
        /// The byte of the token at which the suffix begins: the token's length if it has none.
        suffix_start: u32,
    },
    /// `'` and an identifier or number.
    Lifetime {
        /// Whether a digit follows the quote.
        starts_with_number: bool,
    },
    /// `;`
    Semi,
    /// `,`
    Comma,
    /// `.`
    Dot,
    /// `(`
    OpenParen,
    /// `)`
    CloseParen,
    /// `{`
    OpenBrace,
    /// `}`
    CloseBrace,
    /// `[`
    OpenBracket,
    /// `]`
    CloseBracket,
    /// `@`
    At,
    /// `#`
    Pound,
    /// `~`
    Tilde,
    /// `?`
    Question,
    /// `:`
    Colon,
    /// `$`
    Dollar,
    /// `=`
    Eq,
    /// `!`
    Bang,
    /// `<`
    Lt,
    /// `>`
    Gt,
    /// `-`
    Minus,
    /// `&`
    And,
    /// `|`
    Or,
    /// `+`
    Plus,
    /// `*`
    Star,
    /// `/`
    Slash,
    /// `^`
    Caret,
    /// `%`
    Percent,
    /// One character that begins no token of Rust.
    Unknown,
}

/// Whether a comment documents the item after it or the item around it.
#[derive(Debug, Clone, Copy, PartialEq, Eq)]
pub enum DocStyle {
    /// The item after it: `///`, `/**`.
    Outer,
    /// The item around it: `//!`, `/*!`.
    Inner,
}

/// The kind of a literal. A literal in quotes that is not closed has no suffix.
#[derive(Debug, Clone, Copy, PartialEq, Eq)]
pub enum LiteralKind {
    /// `12`, `0x1f`, `1_000`
    Int {
        /// The base of the number.
        base: Base,
        /// Whether no digit follows the letter of the base, as in `0x`.
        empty_int: bool,
    },
    /// `1.5`, `2.`, `1e3`
    Float {
        /// The base of its whole part.
        base: Base,
        /// Whether no digit follows the `e`, as in `1e+`.
        empty_exponent: bool,
    },
    /// `'a'`
    Char {
        /// Whether it is closed.
        terminated: bool,
    },
    /// `b'a'`
    Byte {
        /// Whether it is closed.
        terminated: bool,
    },
    /// `"a"`
    Str {
        /// Whether it is closed.
        terminated: bool,
    },
    /// `b"a"`
    ByteStr {
        /// Whether it is closed.
        terminated: bool,
    },
    /// `c"a"`
    CStr {
        /// Whether it is closed.
        terminated: bool,
    },
    /// `r"a"`, `r#"a"#`
    RawStr {
        /// How many hashes close it: `None` if it is not closed, has no quote, or has more than 255.
        n_hashes: Option<u8>,
    },
    /// `br"a"`
    RawByteStr {
        /// How many hashes close it, as for a `RawStr`.
        n_hashes: Option<u8>,
    },
    /// `cr"a"`
    RawCStr {
        /// How many hashes close it, as for a `RawStr`.
        n_hashes: Option<u8>,
    },
}

/// The base of a number.
#[derive(Debug, Clone, Copy, PartialEq, Eq)]
pub enum Base {
    /// `0b`
    Binary,
    /// `0o`
    Octal,
    /// No letter.
    Decimal,
    /// `0x`
    Hexadecimal,
}
