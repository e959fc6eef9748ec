//! Tokens as lines.
ghost use Rattle.std.specs.Prelude.{◌<◌, ◌^◌, length};

use std::io::{self, Write};
use syntax_lex::tokenize;

/// Writes a line for each token of a text: its bytes, its kind, and its text as Debug writes it.
pub fn write_tokens<W: Write>(out: &mut W, text: &str) -> io::Result<()>
    requires { length text.now < 2 ^ 32 }
{
    let mut begin = 0usize;
    let mut rest = text;
    for token in tokenize(text) {
        let len = token.len as usize;
        // no token is longer than what is left
        let Some((word, behind)) = rest.split_at_checked(len) else {
            return Ok(());
        };
        let end = begin.wrapping_add(len);
        let kind = token.kind;
        writeln!(out, "{begin}..{end} {kind:?} {word:?}")?;
        begin = end;
        rest = behind;
    }
    Ok(())
}
