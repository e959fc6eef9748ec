//! The first token of a text, and all tokens of a text.
use std::test::Fail;
use syntax_lex::{Base, DocStyle, LiteralKind, MOST_TEXT_BYTES, TokenKind, first_token, tokenize};

// Texts, each with the kind of its first token and how many bytes it takes.
const ROWS: [(&str, TokenKind, u32); 25] = [
    ("a", TokenKind::Ident, 1),
    ("r#a", TokenKind::RawIdent, 3),
    (
        "r\"a\"#",
        TokenKind::Literal {
            kind: LiteralKind::RawStr { n_hashes: Some(0) },
            suffix_start: 4,
        },
        4,
    ),
    (
        "'a",
        TokenKind::Lifetime {
            starts_with_number: false,
        },
        2,
    ),
    (
        "'a'",
        TokenKind::Literal {
            kind: LiteralKind::Char { terminated: true },
            suffix_start: 3,
        },
        3,
    ),
    (
        "'\\''",
        TokenKind::Literal {
            kind: LiteralKind::Char { terminated: true },
            suffix_start: 4,
        },
        4,
    ),
    (
        "1..2",
        TokenKind::Literal {
            kind: LiteralKind::Int {
                base: Base::Decimal,
                empty_int: false,
            },
            suffix_start: 1,
        },
        1,
    ),
    (
        "1.foo",
        TokenKind::Literal {
            kind: LiteralKind::Int {
                base: Base::Decimal,
                empty_int: false,
            },
            suffix_start: 1,
        },
        1,
    ),
    (
        "1.5e-3f32",
        TokenKind::Literal {
            kind: LiteralKind::Float {
                base: Base::Decimal,
                empty_exponent: false,
            },
            suffix_start: 6,
        },
        9,
    ),
    (
        "1e",
        TokenKind::Literal {
            kind: LiteralKind::Float {
                base: Base::Decimal,
                empty_exponent: true,
            },
            suffix_start: 2,
        },
        2,
    ),
    (
        "0x",
        TokenKind::Literal {
            kind: LiteralKind::Int {
                base: Base::Hexadecimal,
                empty_int: true,
            },
            suffix_start: 2,
        },
        2,
    ),
    (
        "0b12",
        TokenKind::Literal {
            kind: LiteralKind::Int {
                base: Base::Binary,
                empty_int: false,
            },
            suffix_start: 4,
        },
        4,
    ),
    (
        "1_u8",
        TokenKind::Literal {
            kind: LiteralKind::Int {
                base: Base::Decimal,
                empty_int: false,
            },
            suffix_start: 2,
        },
        4,
    ),
    (
        "b'a'",
        TokenKind::Literal {
            kind: LiteralKind::Byte { terminated: true },
            suffix_start: 4,
        },
        4,
    ),
    (
        "c\"x\"y",
        TokenKind::Literal {
            kind: LiteralKind::CStr { terminated: true },
            suffix_start: 4,
        },
        5,
    ),
    (
        "/*/*/*/ */ */",
        TokenKind::BlockComment {
            doc_style: None,
            terminated: false,
        },
        13,
    ),
    (
        "/**/",
        TokenKind::BlockComment {
            doc_style: None,
            terminated: true,
        },
        4,
    ),
    (
        "/***/",
        TokenKind::BlockComment {
            doc_style: None,
            terminated: true,
        },
        5,
    ),
    (
        "//!a",
        TokenKind::LineComment {
            doc_style: Some(DocStyle::Inner),
        },
        4,
    ),
    ("é", TokenKind::Ident, 2),
    ("foo\"x\"", TokenKind::UnknownPrefix, 3),
    ("'r#a", TokenKind::RawLifetime, 4),
    ("#\"a\"#", TokenKind::GuardedStrPrefix, 2),
    ("漢", TokenKind::Ident, 3),
    ("€", TokenKind::Unknown, 3),
];

// More of each family, and of the characters that end it.
const MORE_ROWS: [(&str, TokenKind, u32); 13] = [
    (
        "\"a\\\"b\"u8 c",
        TokenKind::Literal {
            kind: LiteralKind::Str { terminated: true },
            suffix_start: 6,
        },
        8,
    ),
    (
        "\"a",
        TokenKind::Literal {
            kind: LiteralKind::Str { terminated: false },
            suffix_start: 2,
        },
        2,
    ),
    (
        "br##\"a\"#\"##x",
        TokenKind::Literal {
            kind: LiteralKind::RawByteStr { n_hashes: Some(2) },
            suffix_start: 11,
        },
        12,
    ),
    (
        "r##\"a\"#",
        TokenKind::Literal {
            kind: LiteralKind::RawStr { n_hashes: None },
            suffix_start: 7,
        },
        7,
    ),
    (
        "/** a /* b */ c */d",
        TokenKind::BlockComment {
            doc_style: Some(DocStyle::Outer),
            terminated: true,
        },
        18,
    ),
    (
        "///a\nb",
        TokenKind::LineComment {
            doc_style: Some(DocStyle::Outer),
        },
        4,
    ),
    ("////a", TokenKind::LineComment { doc_style: None }, 5),
    (" \n\t\u{2028}a", TokenKind::Whitespace, 6),
    (
        "'1a",
        TokenKind::Lifetime {
            starts_with_number: true,
        },
        3,
    ),
    ("'a#", TokenKind::UnknownPrefixLifetime, 2),
    ("a😀", TokenKind::InvalidIdent, 5),
    ("->", TokenKind::Minus, 1),
    (
        "0o7e1",
        TokenKind::Literal {
            kind: LiteralKind::Float {
                base: Base::Octal,
                empty_exponent: false,
            },
            suffix_start: 5,
        },
        5,
    ),
];

// Returns whether the first token of each text is the one of its row.
fn are_first(rows: &[(&str, TokenKind, u32)]) -> bool {
    for (text, kind, len) in rows {
        if text.is_empty() || text.len() > MOST_TEXT_BYTES {
            return false;
        }
        let token = first_token(text);
        if token.kind != *kind || token.len != *len {
            return false;
        }
    }
    true
}

// Returns whether the tokens of a text have these lengths.
fn has_lengths(text: &str, lengths: &[u32]) -> bool {
    if text.len() > MOST_TEXT_BYTES {
        return false;
    }
    let mut tokens = tokenize(text);
    for len in lengths {
        let Some(token) = tokens.next() else {
            return false;
        };
        if token.len != *len {
            return false;
        }
    }
    tokens.next().is_none()
}

#[test]
fn first_tokens(_rt: HostRuntime) -> Result<(), Fail> {
    if are_first(&ROWS) && are_first(&MORE_ROWS) {
        Ok(())
    } else {
        Err(Fail::new("a first token is another"))
    }
}

#[test]
fn lengths(_rt: HostRuntime) -> Result<(), Fail> {
    let whole = has_lengths("", &[])
        && has_lengths("fn é(){r#\"a\"#}", &[2, 1, 2, 1, 1, 1, 6, 1])
        && has_lengths("1..2//a\n'b", &[1, 1, 1, 1, 3, 1, 2]);
    if whole {
        Ok(())
    } else {
        Err(Fail::new("a text is cut otherwise"))
    }
}
