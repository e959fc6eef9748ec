//! Which trees form one token.
ghost use Rattle.std.specs.Prelude.{◌≡◌, ◌∷◌, []};
ghost use Rattle.tt.specs.Iters.{rest_of};
ghost use Rattle.mbe_pattern.specs.Units.{is_at_ident, is_at_punct, is_at_word, unit_from, unit_size};

use tt::{IdentIsRaw, TtIter};

/// Returns how many trees the first unit has: those of a token, or one subtree.
pub fn unit_size(mut trees: TtIter<'_>) -> usize
    ensures { result ≡ unit_size (rest_of trees.entry) }
{
    let mut behind = trees.remaining().iter();
    match behind.expect_single_punct() {
        Ok(punct) if punct.char == '\'' => {
            if behind.expect_ident_or_underscore().is_ok() {
                2
            } else {
                1
            }
        }
        Ok(_) => match trees.expect_glued_punct() {
            Ok(puncts) => puncts.len(),
            Err(()) => 1,
        },
        Err(()) => 1,
    }
}

/// Returns whether the first tree is the ident of that text, and is not raw.
pub fn is_at_word(mut trees: TtIter<'_>, text: &str) -> bool
    ensures { result ≡ is_at_word text.now (rest_of trees.entry) }
{
    match trees.expect_ident_or_underscore() {
        Ok(ident) => match ident.is_raw {
            IdentIsRaw::No => ident.sym.as_str() == text,
            IdentIsRaw::Yes => false,
        },
        Err(()) => false,
    }
}

/// Returns whether the first tree is a punct of that character.
pub fn is_at_punct(mut trees: TtIter<'_>, char: char) -> bool
    ensures { result ≡ is_at_punct (char ∷ []) (rest_of trees.entry) }
{
    trees.expect_char(char).is_ok()
}
