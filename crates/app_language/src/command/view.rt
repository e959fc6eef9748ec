//! The forms in which a tree is shown, one word each.
use crate::command::word::{Word, is, named};

/// The form in which a slot's tree is shown.
#[derive(Debug, Clone, Copy, PartialEq, Eq)]
pub enum View {
    /// Its Display text.
    Show,
    /// Its `pretty` text.
    Pretty,
    /// Its Debug text.
    Debug,
    /// All its tokens.
    Flat,
    /// The tokens below the top, sibling by sibling.
    Siblings,
    /// The places of a walk through all of it.
    Walk,
    /// How many puncts below the top come as one, one after another.
    Glue,
    /// The stored bytes.
    Bytes,
    /// The stored span parts.
    Parts,
    /// The stored symbols.
    Symbols,
}

impl Word for View {
    ghost use Rattle.app_language.specs.Verb.{view_word};
    ghost use Rattle.app_language.specs.WordLaws.{spaceless_view};

    ghost spelling = { view_word };

    ghost fits = { λ _. Unit {0} };

    fn read(word: &[u8]) -> Option<View> {
        named!(word;
            b"show" => View::Show,
            b"pretty" => View::Pretty,
            b"debug" => View::Debug,
            b"flat" => View::Flat,
            b"siblings" => View::Siblings,
            b"walk" => View::Walk,
            b"glue" => View::Glue,
            b"bytes" => View::Bytes,
            b"parts" => View::Parts,
            b"symbols" => View::Symbols
        )
    }

    ghost has_no_space = { λ view _. spaceless_view view };
}
