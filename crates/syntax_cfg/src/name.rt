//! Names.
ghost use Rattle.std.specs.Prelude.{◌≡◌, option_map};
ghost use Rattle.syntax_cfg.specs.Name.{is_name, name_in};

use syntax_lex::{MOST_TEXT_BYTES, TokenKind, first_token};
use tt_base::IdentIsRaw;

/// Returns whether a text is one name of Rust, and not raw.
pub fn is_name(text: &str) -> bool
    ensures { result ≡ is_name text.now }
{
    if text.is_empty() {
        return false;
    }
    if text.len() > MOST_TEXT_BYTES {
        return false;
    }
    let token = first_token(text);
    matches!(token.kind, TokenKind::Ident) && token.len as usize == text.len()
}

/// Returns the name in a text with white space around it: a raw name is the same name.
pub(crate) fn name_in(text: &str) -> Option<&str>
    ensures { option_map (λ it. it.now) result ≡ name_in text.now }
{
    let (_, name) = IdentIsRaw::split_from_symbol(text.trim());
    if is_name(name) { Some(name) } else { None }
}
