//! The spaces of rustfmt, found only for the tokens that need one.
use crate::beside::{byte_at, byte_before, is_of_name, part, tokens};
use crate::kinds::is_blank;
use crate::part::Part;
use crate::passed::{Passed, name_part, part_of, passed_after, start};
use crate::spacing::space_between;
use syntax_lex::TokenKind;

/// A plain text, and what was passed of it.
#[derive(Drop)]
pub(crate) struct Spacer<'p> {
    plain: &'p str,
    at: usize,
    // How many tokens were passed.
    count: usize,
    passed: Passed,
    touching: bool,
    // Where the next token is that was not gone over.
    ahead: usize,
}

// Returns whether a word may be a keyword: whether it has two small letters or more, and nothing else, and is not the frequent `self`.
fn may_be_keyword(word: &str) -> bool {
    if word == "self" {
        return false;
    }
    for byte in word.as_bytes() {
        if !byte.is_ascii_lowercase() {
            return false;
        }
    }
    word.len() > 1
}

// Returns how many bytes the first token of a text has.
fn first_len(text: &str) -> usize {
    match tokens(text).next() {
        Some(token) => token.len as usize,
        None => 0,
    }
}

impl<'p> Spacer<'p> {
    /// Returns a spacer that passed nothing of a text.
    pub(crate) fn new(plain: &'p str) -> Spacer<'p> {
        Spacer {
            plain,
            at: 0,
            count: 0,
            passed: start(),
            touching: false,
            ahead: 0,
        }
    }

    // Returns where the next token begins that was not gone over.
    fn next_start(&self) -> usize {
        match byte_at(self.plain, self.ahead) {
            Some(b' ') => self.ahead.saturating_add(1),
            _ => self.ahead,
        }
    }

    /// Goes over the token of a number, which has so many bytes; 0 if that is not known. What is before a block need not be passed.
    pub(crate) fn go_over(&mut self, len: usize, number: usize, begins_block: bool) {
        let at = self.next_start();
        self.ahead = at.saturating_add(if len > 0 {
            len
        } else {
            first_len(part(self.plain, at, self.plain.len()))
        });
        if begins_block {
            self.at = self.ahead;
            self.count = number.saturating_add(1);
            self.passed = Passed {
                part: Part::Brace,
                ..start()
            };
            self.touching = true;
        }
    }

    // Returns the part of a token.
    fn part(&self, kind: TokenKind, word: &str) -> Part {
        if matches!(kind, TokenKind::Ident) && !may_be_keyword(word) {
            return name_part(self.passed.part, word);
        }
        let behind = byte_at(self.plain, self.at);
        part_of(self.passed, self.touching, behind, kind, word)
    }

    // Passes a token, and returns the space before it.
    fn pass(&mut self) -> &'static str {
        let start = self.at;
        let rest = part(self.plain, start, self.plain.len());
        let Some(token) = tokens(rest).next() else {
            return "";
        };
        self.at = start.saturating_add(token.len as usize);
        if is_blank(token.kind) {
            self.touching = false;
            return "";
        }
        let word = part(self.plain, start, self.at);
        let next = self.part(token.kind, word);
        let space = space_between(self.passed.part, next);
        self.passed = passed_after(self.passed, token.kind, word, next);
        self.touching = true;
        self.count = self.count.saturating_add(1);
        space
    }

    // Returns the space before the next token that was not gone over, if it depends only on the bytes beside it: none is before a `,`, a `;` or
    // a bracket that closes, and one is between a name or a number and a sign that is always an operator there.
    fn sure_space(&self) -> Option<&'static str> {
        let last = byte_before(self.plain, self.ahead)?;
        match byte_at(self.plain, self.next_start())? {
            b',' | b';' | b')' | b']' => Some(""),
            b'+' | b'=' | b'^' | b'%' if is_of_name(last) => Some(" "),
            _ => None,
        }
    }

    /// Returns the space before the token of a number, which is the next that was not gone over. Passes the tokens up to it, if need be.
    pub(crate) fn space_before(&mut self, number: usize) -> &'static str {
        match self.sure_space() {
            Some(space) => space,
            None => self.passed_space(number),
        }
    }

    // Passes the tokens up to that of a number, and returns the space before it; nothing if it was passed before.
    fn passed_space(&mut self, number: usize) -> &'static str {
        for _ in self.at..self.plain.len() {
            if self.count > number {
                return "";
            }
            if byte_at(self.plain, self.at) == Some(b' ') {
                self.at = self.at.saturating_add(1);
                self.touching = false;
            } else {
                let space = self.pass();
                if self.count > number {
                    return space;
                }
            }
        }
        ""
    }
}
