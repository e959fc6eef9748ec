//! Trees, each with its Rust text or with why it is not written.
use std::alloc::Global;
use std::test::Fail;
use syntax_parse::parse_to_token_tree;
use syntax_unparse::{is_writable, rust_text};
use tt::{
    Delimiter, DelimiterKind, ErasedFileAstId, FileId, Ident, Leaf, LitKind, Literal, Punct,
    Spacing, Span, SpanAnchor, Subtree, SyntaxContext, TextRange, TextSize, TokenTree, TopSubtree,
    TtFault,
};

// Texts, and the Rust text of the trees that are read from them.
const READ: [(&str, &str); 8] = [
    ("", ""),
    ("a  b /* c */ r#fn", "a b r#fn"),
    ("vec![1u8,2.5]", "vec ! [1u8 , 2.5]"),
    ("a->b..=c", "a -> b ..= c"),
    ("&'a T+'r#b 'c'", "&'a T +'r#b 'c'"),
    ("({é}[])", "({é} [])"),
    ("/// d\n#[e]", "# [doc = r\" d\"] # [e]"),
    (
        "'\\n' b'x' \"a\"b r#\"\"\"# cr\"\"",
        "'\\n' b'x' \"a\"b r#\"\"\"# cr\"\"",
    ),
];

// A part of a tree.
#[derive(Clone, Copy)]
enum Part<'a> {
    // a subtree of a kind, and how many tokens it holds
    Opens(DelimiterKind, u32),
    Name(&'a str),
    Sign(char, Spacing),
    Value(LitKind, &'a str),
}

// Trees made of parts, with their texts, or with why they are not written.
const MADE: [(&[Part<'static>], &str); 27] = [
    (&[Part::Name("a"), Part::Name("b")], "a b"),
    (
        &[
            Part::Sign('-', Spacing::Alone),
            Part::Sign('>', Spacing::Alone),
        ],
        "- >",
    ),
    (
        &[
            Part::Sign('-', Spacing::Joint),
            Part::Sign('>', Spacing::Alone),
        ],
        "->",
    ),
    (
        &[Part::Sign('-', Spacing::JointHidden), Part::Name("r#x")],
        "-r#x",
    ),
    (
        &[
            Part::Sign('\'', Spacing::Alone),
            Part::Name("a"),
            Part::Name("b"),
        ],
        "'a b",
    ),
    (
        &[
            Part::Sign('#', Spacing::Joint),
            Part::Value(LitKind::Str, "x"),
        ],
        "# \"x\"",
    ),
    (
        &[
            Part::Sign('#', Spacing::Joint),
            Part::Value(LitKind::Err(()), "\"a\"b"),
        ],
        "# \"a\"b",
    ),
    (
        &[
            Part::Sign('#', Spacing::Joint),
            Part::Value(LitKind::Err(()), "'a'b"),
        ],
        "#'a'b",
    ),
    (
        &[
            Part::Sign('/', Spacing::Alone),
            Part::Sign('/', Spacing::Alone),
        ],
        "/ /",
    ),
    (
        &[
            Part::Opens(DelimiterKind::Invisible, 2),
            Part::Name("a"),
            Part::Sign('+', Spacing::Joint),
            Part::Sign('=', Spacing::Alone),
        ],
        "a +=",
    ),
    (
        &[
            Part::Opens(DelimiterKind::InvisibleOpaque, 3),
            Part::Name("a"),
            Part::Sign('+', Spacing::Alone),
            Part::Name("b"),
            Part::Sign('*', Spacing::Alone),
            Part::Name("c"),
        ],
        "(a + b) * c",
    ),
    (
        &[
            Part::Opens(DelimiterKind::InvisibleOpaque, 1),
            Part::Name("a"),
            Part::Sign('*', Spacing::Alone),
            Part::Name("c"),
        ],
        "a * c",
    ),
    (
        &[
            Part::Opens(DelimiterKind::InvisibleOpaque, 3),
            Part::Opens(DelimiterKind::Invisible, 2),
            Part::Name("a"),
            Part::Name("b"),
        ],
        "(a b)",
    ),
    (
        &[
            Part::Opens(DelimiterKind::InvisibleOpaque, 0),
            Part::Name("a"),
        ],
        "a",
    ),
    (&[Part::Name("a"), Part::Name("b c")], "not writable at 1"),
    (
        &[
            Part::Name("b c"),
            Part::Opens(DelimiterKind::Brace, 1),
            Part::Sign('(', Spacing::Alone),
        ],
        "not writable at 0",
    ),
    (
        &[Part::Opens(DelimiterKind::Invisible, 1), Part::Name("")],
        "not writable at 1",
    ),
    (
        &[Part::Name("a"), Part::Value(LitKind::Integer, "-1")],
        "not writable at 1",
    ),
    (&[Part::Value(LitKind::Integer, "1e5")], "not writable at 0"),
    (&[Part::Value(LitKind::Str, "a\"b")], "not writable at 0"),
    (&[Part::Value(LitKind::Str, "\\q")], "not writable at 0"),
    (
        &[
            Part::Name("a"),
            Part::Opens(DelimiterKind::Brace, 1),
            Part::Sign('(', Spacing::Alone),
        ],
        "not writable at 2",
    ),
    (
        &[
            Part::Name("a"),
            Part::Sign('/', Spacing::Joint),
            Part::Sign('/', Spacing::Alone),
        ],
        "not writable at 1",
    ),
    (
        &[
            Part::Sign('/', Spacing::Joint),
            Part::Sign('*', Spacing::Alone),
        ],
        "not writable at 0",
    ),
    (
        &[
            Part::Sign('#', Spacing::Joint),
            Part::Sign('#', Spacing::Alone),
        ],
        "not writable at 0",
    ),
    (
        &[Part::Name("a"), Part::Sign('\'', Spacing::Joint)],
        "not writable at 1",
    ),
    (
        &[
            Part::Sign('\'', Spacing::Joint),
            Part::Value(LitKind::Char, "a"),
        ],
        "not writable at 0",
    ),
];

// Returns the one span of all that is made here.
fn nowhere() -> Span {
    Span {
        range: TextRange::empty(TextSize::new(0)),
        anchor: SpanAnchor {
            file_id: FileId(0),
            ast_id: ErasedFileAstId(0),
        },
        ctx: SyntaxContext(0),
    }
}

// Returns the token of a part.
fn token(alloc: Global, part: Part) -> Result<TokenTree, TtFault> {
    let span = nowhere();
    Ok(match part {
        Part::Opens(kind, len) => TokenTree::Subtree(Subtree {
            delimiter: Delimiter {
                open_span: span,
                close: span,
                kind,
            },
            len,
        }),
        Part::Name(text) => TokenTree::Leaf(Leaf::Ident(Ident::new(alloc, text, span)?)),
        Part::Sign(char, spacing) => TokenTree::Leaf(Leaf::Punct(Punct {
            char,
            spacing,
            span,
        })),
        Part::Value(kind, text) => {
            let literal = Literal::new_no_suffix(alloc, text, span, kind)?;
            TokenTree::Leaf(Leaf::Literal(literal))
        }
    })
}

// Returns the tree of these parts under an invisible top.
fn made(alloc: Global, parts: &[Part]) -> Result<TopSubtree, TtFault> {
    let mut list = Vec::new(alloc);
    let Ok(len) = u32::try_from(parts.len()) else {
        return Err(TtFault::TooManyTokens);
    };
    let top = Part::Opens(DelimiterKind::Invisible, len);
    list.push(token(alloc, top)?)?;
    for part in parts {
        list.push(token(alloc, *part)?)?;
    }
    Ok(TopSubtree::from_serialized(alloc, list)?)
}

// Returns the Rust text of a tree, or why it is not written, if `is_writable` returns the same fault; else an empty text.
fn told(alloc: Global, tree: &TopSubtree) -> Result<String, TtFault> {
    match rust_text(alloc, tree.token_trees()) {
        Ok(text) => Ok(text),
        Err(fault) => {
            if is_writable(alloc, tree.token_trees()) == Err(fault) {
                Ok(format!(in alloc; "{fault}")?)
            } else {
                Ok(String::new(alloc))
            }
        }
    }
}

// Returns the Rust text of the tree of a text, or why it has none.
fn read_and_told(alloc: Global, text: &str) -> Result<String, TtFault> {
    match parse_to_token_tree(alloc, nowhere().anchor, SyntaxContext(0), text) {
        Ok(tree) => told(alloc, &tree),
        Err(fault) => Ok(format!(in alloc; "{fault}")?),
    }
}

// Returns whether all trees that are read from texts have that Rust text.
fn are_read(alloc: Global) -> Result<bool, TtFault> {
    for (text, wanted) in &READ {
        let found = read_and_told(alloc, text)?;
        if found.as_str() != *wanted {
            return Ok(false);
        }
    }
    Ok(true)
}

// Returns whether all trees that are made of parts have that Rust text.
fn are_made(alloc: Global) -> Result<bool, TtFault> {
    for (parts, wanted) in &MADE {
        let tree = made(alloc, parts)?;
        let found = told(alloc, &tree)?;
        if found.as_str() != *wanted {
            return Ok(false);
        }
    }
    Ok(true)
}

// Passes a test if its condition holds.
fn holds(is_so: Result<bool, TtFault>) -> Result<(), Fail> {
    match is_so {
        Ok(true) => Ok(()),
        Ok(false) => Err(Fail::new("a tree is written otherwise")),
        Err(fault) => Err(fault.into()),
    }
}

#[test]
fn trees_of_texts(rt: HostRuntime) -> Result<(), Fail> {
    holds(are_read(rt.alloc()))
}

#[test]
fn trees_of_parts(rt: HostRuntime) -> Result<(), Fail> {
    holds(are_made(rt.alloc()))
}
