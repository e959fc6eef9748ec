//! How often a text defines a macro of a name, and calls one.
ghost use Rattle.std.specs.Prelude.{◌<◌, ◌^◌, length};

use crate::trivia::is_trivia;
use syntax_lex::{TokenKind, tokenize};

/// How often a text defines a macro of a name, and calls one outside of the rules of macros.
#[derive(Clone, Copy)]
pub struct Mentions {
    pub definitions: usize,
    pub calls: usize,
}

// What the last tokens begin.
#[derive(Clone, Copy)]
enum Front {
    // Nothing that counts.
    Nothing,
    // `macro_rules`
    Word,
    // `macro_rules!`
    Definition,
    // The rules of a macro, with so many brackets open.
    Rules(usize),
    // The name.
    Name,
    // The name and `!`.
    Call,
}

// Returns whether a token opens a bracket.
fn opens(kind: TokenKind) -> bool {
    matches!(
        kind,
        TokenKind::OpenParen | TokenKind::OpenBrace | TokenKind::OpenBracket
    )
}

// Returns whether a token closes a bracket.
fn closes(kind: TokenKind) -> bool {
    matches!(
        kind,
        TokenKind::CloseParen | TokenKind::CloseBrace | TokenKind::CloseBracket
    )
}

// Returns whether a token is that name, raw or not.
fn is_named(kind: TokenKind, word: &str, name: &str) -> bool {
    match kind {
        TokenKind::Ident => word == name,
        TokenKind::RawIdent => word.strip_prefix("r#") == Some(name),
        _ => false,
    }
}

// Returns what a token begins.
fn begun(kind: TokenKind, word: &str, name: &str) -> Front {
    if is_named(kind, word, name) {
        Front::Name
    } else if kind == TokenKind::Ident && word == "macro_rules" {
        Front::Word
    } else {
        Front::Nothing
    }
}

// Returns what is begun after a bracket in the rules of a macro.
fn inside(kind: TokenKind, open: usize) -> Front {
    if opens(kind) {
        return Front::Rules(open.saturating_add(1));
    }
    if closes(kind) && open <= 1 {
        return Front::Nothing;
    }
    Front::Rules(if closes(kind) {
        open.saturating_sub(1)
    } else {
        open
    })
}

impl Mentions {
    // Returns what is begun after a token that counts, and notes a definition or a call.
    fn next(&mut self, front: Front, kind: TokenKind, word: &str, name: &str) -> Front {
        match front {
            Front::Rules(open) => inside(kind, open),
            Front::Word if kind == TokenKind::Bang => Front::Definition,
            Front::Name if kind == TokenKind::Bang => Front::Call,
            Front::Definition => {
                if is_named(kind, word, name) {
                    self.definitions = self.definitions.saturating_add(1);
                }
                Front::Rules(0)
            }
            Front::Call if opens(kind) => {
                self.calls = self.calls.saturating_add(1);
                Front::Nothing
            }
            _ => begun(kind, word, name),
        }
    }

    /// Returns how often a text defines a macro of that name, and calls one.
    pub fn of(text: &str, name: &str) -> Mentions
        requires { length text.now < 2 ^ 32 }
    {
        let mut found = Mentions {
            definitions: 0,
            calls: 0,
        };
        let mut front = Front::Nothing;
        let mut rest = text;
        for token in tokenize(text) {
            // no token is longer than what is left
            let Some((word, behind)) = rest.split_at_checked(token.len as usize) else {
                return found;
            };
            if !is_trivia(token.kind) {
                front = found.next(front, token.kind, word, name);
            }
            rest = behind;
        }
        found
    }
}
