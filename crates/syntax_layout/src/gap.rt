//! What may stand between tokens without changing how they are read.
ghost use Rattle.std.specs.Prelude.{◌≡◌, ◌<◌, ◌^◌, ◌↔◌, IsTrue, length};
ghost use Rattle.syntax_layout.specs.Gap.{IsGap};

use crate::kinds::{is_blank, is_line};
use syntax_lex::first_token;

/// A gap has at most so many bytes, and so has a text that is laid out.
pub const MOST_BYTES: usize = 2_147_483_647;

/// Returns whether a text may stand between tokens: it is white space and comments that document nothing, and its last token is no
/// comment to the end of a line. It may be empty.
pub fn is_gap(text: &str) -> bool
    ensures { IsTrue result ↔ (IsGap text.now × (length text.now < 2 ^ 31)) }
{
    if text.len() > MOST_BYTES {
        return false;
    }
    let mut ends_in_line = false;
    let mut rest = text;
    while !rest.is_empty() {
        let token = first_token(rest);
        if !is_blank(token.kind) {
            return false;
        }
        ends_in_line = is_line(token.kind);
        let (_, behind) = rest.split_at(token.len as usize);
        rest = behind;
    }
    !ends_in_line
}
