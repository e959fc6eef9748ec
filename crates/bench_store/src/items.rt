//! From `item` lines to tokens.
use crate::error::BenchError;
use crate::interner::Interner;
use crate::lists::Lists;
use app_language::Command;
use memchr::memchr;
use std::alloc::Global;
use std::str::FromStr;
use tt::{TokenTree, TtFault};

/// Whether tokens of one text share the block of memory that holds it.
#[derive(Clone, Copy)]
pub enum Texts {
    /// Equal texts share one block.
    Shared,
    /// Each ident and each literal has a block of its own.
    Apart,
}

impl FromStr for Texts {
    type Err = BenchError;

    fn from_str(word: &str) -> Result<Texts, BenchError> {
        match word {
            "apart" => Ok(Texts::Apart),
            _ => Err(BenchError::Usage),
        }
    }
}

/// The lists that the `item` lines of a text spell one after another, or the number of the first line that is no such line.
pub fn items(alloc: Global, text: &[u8], texts: Texts) -> Result<Vec<Vec<TokenTree>>, BenchError> {
    let mut interner = Interner::new(alloc);
    let mut lists = Lists::new(alloc);
    let mut rest = text;
    for number in 1..u64::MAX {
        if rest.is_empty() {
            break;
        }
        let (line, behind) = cut_line(rest);
        rest = behind;
        if !add_item(alloc, line, texts, &mut interner, &mut lists)? {
            return Err(BenchError::BadLine(number));
        }
    }
    Ok(lists.into_vec())
}

// Adds the token of an `item` line. Whether it is one.
fn add_item(
    alloc: Global,
    line: &[u8],
    texts: Texts,
    interner: &mut Interner,
    lists: &mut Lists,
) -> Result<bool, TtFault> {
    let Some(Command::Item(token)) = Command::parse(alloc, line)? else {
        return Ok(false);
    };
    match texts {
        Texts::Shared => lists.push(alloc, interner.token(token)?)?,
        Texts::Apart => lists.push(alloc, token)?,
    }
    Ok(true)
}

// The first line, without its line feed, and what comes behind it.
fn cut_line(text: &[u8]) -> (&[u8], &[u8]) {
    match memchr(b'\n', text) {
        Some(end) => (&text[..end], &text[end + 1..]),
        None => (text, &[]),
    }
}
