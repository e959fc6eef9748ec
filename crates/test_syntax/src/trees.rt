//! Texts, each with the Debug of its tree or with why it is refused.
use std::alloc::Global;
use std::test::Fail;
use syntax_parse::{TextFault, parse_to_token_tree};
use tt::{ErasedFileAstId, FileId, SpanAnchor, SyntaxContext, TopSubtree, TtFault, debug_text};

// Texts that are read.
const READ: [(&str, &str); 11] = [
    (
        "//!a\r\n",
        "PUNCH   # [alone] 0:0@0..5#0\nPUNCH   ! [alone] 0:0@0..5#0\nSUBTREE [] 0:0@0..5#0 0:0@0..5#0\n  \
        IDENT   doc 0:0@0..5#0\n  PUNCH   = [alone] 0:0@0..5#0\n  LITERAL StrRaw(0) a 0:0@0..5#0",
    ),
    ("// a\n/* b */ ", ""),
    (
        "0b1u8 \"a\r\n\"",
        "LITERAL Integer 0b1u8 0:0@0..5#0\nLITERAL Str a\r\n 0:0@6..11#0",
    ),
    (
        "日 r#fn _",
        "IDENT   日 0:0@0..3#0\nIDENT   r#fn 0:0@4..8#0\nIDENT   _ 0:0@9..10#0",
    ),
    (
        "é 'a 'r#b",
        "IDENT   é 0:0@0..2#0\n\
        PUNCH   ' [joint] 0:0@3..4#0\nIDENT   a 0:0@4..5#0\n\
        PUNCH   ' [joint] 0:0@6..7#0\nIDENT   r#b 0:0@7..10#0",
    ),
    (
        "é+=/**/->a",
        "IDENT   é 0:0@0..2#0\nPUNCH   + [joint] 0:0@2..3#0\nPUNCH   = [alone] 0:0@3..4#0\n\
        PUNCH   - [joint] 0:0@8..9#0\nPUNCH   > [alone] 0:0@9..10#0\nIDENT   a 0:0@10..11#0",
    ),
    (
        "+'a +()+ +",
        "PUNCH   + [joint] 0:0@0..1#0\nPUNCH   ' [joint] 0:0@1..2#0\nIDENT   a 0:0@2..3#0\n\
        PUNCH   + [alone] 0:0@4..5#0\nSUBTREE () 0:0@5..6#0 0:0@6..7#0\n\
        PUNCH   + [alone] 0:0@7..8#0\nPUNCH   + [alone] 0:0@9..10#0",
    ),
    (
        "日(1u8 [2.5f32] {})",
        "IDENT   日 0:0@0..3#0\nSUBTREE () 0:0@3..4#0 0:0@19..20#0\n  LITERAL Integer 1u8 0:0@4..7#0\n  \
        SUBTREE [] 0:0@8..9#0 0:0@15..16#0\n    LITERAL Float 2.5f32 0:0@9..15#0\n  SUBTREE {} 0:0@17..18#0 0:0@18..19#0",
    ),
    (
        "'é' b'a' \"a\" b\"a\" c\"a\" r#\"a\"# br\"a\" cr\"a\" \"a\"x",
        "LITERAL Char é 0:0@0..4#0\nLITERAL Byte a 0:0@5..9#0\nLITERAL Str a 0:0@10..13#0\n\
        LITERAL ByteStr a 0:0@14..18#0\nLITERAL CStr a 0:0@19..23#0\nLITERAL StrRaw(1) a 0:0@24..30#0\n\
        LITERAL ByteStrRaw(0) a 0:0@31..36#0\nLITERAL CStrRaw(0) a 0:0@37..42#0\nLITERAL Err(()) \"a\"x 0:0@43..47#0",
    ),
    (
        "é/// b\"#",
        "IDENT   é 0:0@0..2#0\nPUNCH   # [alone] 0:0@2..9#0\nSUBTREE [] 0:0@2..9#0 0:0@2..9#0\n  \
        IDENT   doc 0:0@2..9#0\n  PUNCH   = [alone] 0:0@2..9#0\n  LITERAL StrRaw(2)  b\"# 0:0@2..9#0",
    ),
    (
        "/*!a*/",
        "PUNCH   # [alone] 0:0@0..6#0\nPUNCH   ! [alone] 0:0@0..6#0\nSUBTREE [] 0:0@0..6#0 0:0@0..6#0\n  \
        IDENT   doc 0:0@0..6#0\n  PUNCH   = [alone] 0:0@0..6#0\n  LITERAL StrRaw(0) a 0:0@0..6#0",
    ),
];

// Texts that are refused, with their first fault.
const REFUSED: [(&str, &str); 35] = [
    ("é )", "unopened ')' at 3"),
    ("日 [(]", "']' at 6 does not close the '(' at 5"),
    ("é ([{}", "unclosed '[' at 4"),
    ("é }", "unopened '}' at 3"),
    ("日 {", "unclosed '{' at 4"),
    ("é /* /* */", "unterminated comment at 3"),
    ("é \"a", "unterminated literal at 3"),
    ("日 b'", "unterminated literal at 4"),
    ("é r#\"a\"", "unterminated literal at 3"),
    ("日 br##a", "raw literal without a quote at 4"),
    ("é r#crate", "name that is never raw at 3"),
    ("日 r#_", "name that is never raw at 4"),
    ("é 'r#Self", "name that is never raw at 3"),
    ("é r#self r#crate", "name that is never raw at 3"),
    ("é (r#super)", "name that is never raw at 4"),
    ("é \\", "unknown character at 3"),
    ("é a\"b\"", "unknown prefix at 3"),
    ("日 'a#", "unknown prefix at 4"),
    ("é 🦀", "invalid identifier at 3"),
    ("é ##", "guarded prefix at 3"),
    ("é 0x", "number with no digits at 3"),
    ("日 1e+", "exponent with no digits at 4"),
    ("é '1", "lifetime that begins with a digit at 3"),
    ("é ) 0x", "unopened ')' at 3"),
    ("日 (0x)", "number with no digits at 5"),
    ("é 0x )", "number with no digits at 3"),
    ("日 0x1.0", "float of another base than ten at 4"),
    ("é 0b12", "number with a digit that its base has not at 3"),
    ("日 0o8", "number with a digit that its base has not at 4"),
    ("日 ///a\rb", "bare carriage return at 4"),
    ("é /**a\r*/", "bare carriage return at 3"),
    ("é b'é'", "character beyond ASCII in bytes at 3"),
    ("é b\"日\"", "character beyond ASCII in bytes at 3"),
    ("日 br\"é\"", "character beyond ASCII in bytes at 4"),
    ("é \"a\rb\"", "bare carriage return at 3"),
];

// Literals with something that no literal of their kind may hold.
const NO_LITERALS: [(&str, &str); 26] = [
    ("é '\\q'", "unknown escape at 3"),
    ("日 \"\\q\"", "unknown escape at 4"),
    ("é b'\\u{41}'", "unknown escape at 3"),
    ("é b\"\\u{41}\"", "unknown escape at 3"),
    ("é '\\\n'", "unknown escape at 3"),
    ("日 \"\\x4\"", "escape of a byte without two digits at 4"),
    ("é '\\xg0'", "escape of a byte without two digits at 3"),
    ("é \"\\x80\"", "escape of a byte beyond 7f at 3"),
    ("é '\\xff'", "escape of a byte beyond 7f at 3"),
    ("é \"\\u41\"", "escape of no character at 3"),
    ("é \"\\u{}\"", "escape of no character at 3"),
    ("é \"\\u{_1}\"", "escape of no character at 3"),
    ("é \"\\u{1234567}\"", "escape of no character at 3"),
    ("é '\\u{d800}'", "escape of no character at 3"),
    ("日 '\\u{110000}'", "escape of no character at 4"),
    ("é \"\\u{41\"", "escape of no character at 3"),
    ("é '\t'", "character that wants an escape at 3"),
    ("日 '''", "character that wants an escape at 4"),
    ("é b'\n'", "character that wants an escape at 3"),
    ("é b''", "empty character literal at 3"),
    ("é 'ab'", "several characters in a character literal at 3"),
    ("日 b'ab'", "several characters in a character literal at 4"),
    ("é c\"\\0\"", "null in a C string at 3"),
    ("é c\"\\x00\"", "null in a C string at 3"),
    ("é c\"\\u{0}\"", "null in a C string at 3"),
    ("日 cr\"\0\"", "null in a C string at 4"),
];

// Literals with each escape that their kind has, and the Debug of their trees.
const ESCAPES: [(&str, &str); 5] = [
    (
        "'日' '\\n' '\\u{1F_980}' '\\x7f' '\"'",
        "LITERAL Char 日 0:0@0..5#0\nLITERAL Char \\n 0:0@6..10#0\nLITERAL Char \\u{1F_980} 0:0@11..23#0\n\
        LITERAL Char \\x7f 0:0@24..30#0\nLITERAL Char \" 0:0@31..34#0",
    ),
    (
        "b'\\xff' b'\\''",
        "LITERAL Byte \\xff 0:0@0..7#0\nLITERAL Byte \\' 0:0@8..13#0",
    ),
    (
        "\"'\\0\\\\\\\n \\u{10ffff}\"",
        "LITERAL Str '\\0\\\\\\\n \\u{10ffff} 0:0@0..20#0",
    ),
    ("c\"\\xff日\\u{1}\"", "LITERAL CStr \\xff日\\u{1} 0:0@0..15#0"),
    (
        "b\"\\x00\\\r\n\"",
        "LITERAL ByteStr \\x00\\\r\n 0:0@0..10#0",
    ),
];

// The text before and after a sign that is repeated, how often it is repeated, and the reason for the refusal.
const MANY: [(&str, &str, usize, &str, &str); 8] = [
    ("é 1", "u", 255, "", ""),
    ("é 1", "u", 256, "", "suffix of more than 255 bytes at 3"),
    ("é 1.5", "é", 128, "", "suffix of more than 255 bytes at 3"),
    ("é /// \"", "#", 254, "", ""),
    ("日 /// \"", "#", 255, "", "more than 255 hashes at 4"),
    ("é /*! \"", "#", 255, "*/", "more than 255 hashes at 3"),
    ("日 r", "#", 255, "\"", "unterminated literal at 4"),
    ("日 r", "#", 256, "\"", "more than 255 hashes at 4"),
];

// Returns whether each text with a repeated sign has that answer; the answer is empty if the text is read.
fn are_many_told(alloc: Global) -> Result<bool, TtFault> {
    for (before, sign, count, behind, wanted) in &MANY {
        let mut text = String::from_str(alloc, before)?;
        for _ in 0..*count {
            text.push_str(sign)?;
        }
        text.push_str(behind)?;
        let found = refusal(alloc, text.as_str())?;
        if found.as_str() != *wanted {
            return Ok(false);
        }
    }
    Ok(true)
}

// Returns why the text is refused; empty if it is read.
fn refusal(alloc: Global, text: &str) -> Result<String, TtFault> {
    match read(alloc, text) {
        Ok(_tree) => Ok(String::new(alloc)),
        Err(fault) => Ok(format!(in alloc; "{fault}")?),
    }
}

// Returns the tree of the text.
fn read(alloc: Global, text: &str) -> Result<TopSubtree, TextFault> {
    let anchor = SpanAnchor {
        file_id: FileId(0),
        ast_id: ErasedFileAstId(0),
    };
    parse_to_token_tree(alloc, anchor, SyntaxContext(0), text)
}

// Returns the Debug of the text's tree, or why it is refused.
fn told(alloc: Global, text: &str) -> Result<String, TtFault> {
    match read(alloc, text) {
        Ok(tree) => debug_text(alloc, tree.token_trees()),
        Err(fault) => Ok(format!(in alloc; "{fault}")?),
    }
}

// Returns whether each of the texts has that answer.
fn are_told(alloc: Global, rows: &[(&str, &str)]) -> Result<bool, TtFault> {
    for (text, wanted) in rows {
        let found = told(alloc, text)?;
        if found.as_str() != *wanted {
            return Ok(false);
        }
    }
    Ok(true)
}

// Passes a test if its condition holds.
fn holds(is_so: Result<bool, TtFault>) -> Result<(), Fail> {
    match is_so {
        Ok(true) => Ok(()),
        Ok(false) => Err(Fail::new("a text is told otherwise")),
        Err(fault) => Err(fault.into()),
    }
}

#[test]
fn texts_that_are_read(rt: HostRuntime) -> Result<(), Fail> {
    holds(are_told(rt.alloc(), &READ))
}

#[test]
fn texts_that_are_refused(rt: HostRuntime) -> Result<(), Fail> {
    holds(are_told(rt.alloc(), &REFUSED))
}

#[test]
fn texts_of_many_signs(rt: HostRuntime) -> Result<(), Fail> {
    holds(are_many_told(rt.alloc()))
}

#[test]
fn texts_that_are_no_literals(rt: HostRuntime) -> Result<(), Fail> {
    holds(are_told(rt.alloc(), &NO_LITERALS))
}

#[test]
fn escapes(rt: HostRuntime) -> Result<(), Fail> {
    holds(are_told(rt.alloc(), &ESCAPES))
}
