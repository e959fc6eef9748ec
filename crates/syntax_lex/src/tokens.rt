//! The tokens of a text, one at a time.
ghost use Rattle.std.specs.Prelude.{◌≡◌, ◌^◌, ◌<◌, length};

use crate::front::bytes_before;
use crate::reading::read;
use crate::token::Token;

/// The tokens of a text in order, one at a time. It takes no memory: it holds only the rest of the text.
#[derive(Drop)]
pub struct Tokenize<'a> {
    rest: &'a str,
    ghost fits: { length rest.now < 2 ^ 32 },
}

impl<'a> Tokenize<'a> {
    /// Returns the tokens of a text.
    pub(crate) fn new(text: &'a str) -> Tokenize<'a>
        requires { length text.now < 2 ^ 32 }
        ensures { result.rest.now ≡ text.now }
    {
        Tokenize { rest: text }
    }

    /// Returns the rest of the text: the tokens that `next` has not given yet.
    pub fn as_str(&self) -> &'a str
        ensures { result.now ≡ self.now.rest.now }
    {
        self.rest
    }
}

impl<'a> Iterator for Tokenize<'a> {
    ghost use Rattle.std.specs.Iterator.{at_most};
    ghost use Rattle.syntax_lex.specs.Tokens.{gives};

    type Item = Token;

    ghost next_gives = { gives };

    ghost remaining = { λ s. at_most (length s.rest.now) };

    #[inline]
    fn next(&mut self) -> Option<Token> {
        let text = self.rest;
        if text.is_empty() {
            return None;
        }
        let (kind, rest) = read(text);
        let len = bytes_before(text, rest);
        self.rest = rest;
        Some(Token { kind, len })
    }
}
