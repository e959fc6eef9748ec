//! How grave a fault is.
ghost use Rattle.std.specs.Prelude.{◌≡◌};
ghost use Rattle.syntax_diagnostic.specs.Level.{colour_of, word_of};

use crate::paint::Colour;

/// How grave a fault is.
#[derive(Debug, Clone, Copy, PartialEq, Eq)]
pub enum Level {
    /// Something is wrong.
    Error,
    /// Something is left unchanged.
    Warning,
}

impl Level {
    /// Returns the word that a message begins with.
    pub(crate) fn word(self) -> &'static str
        ensures { result.now ≡ word_of self }
    {
        match self {
            Level::Error => "error",
            Level::Warning => "warning",
        }
    }

    /// Returns the colour of that word, and of the mark.
    pub(crate) fn colour(self) -> Colour
        ensures { result ≡ colour_of self }
    {
        match self {
            Level::Error => Colour::Red,
            Level::Warning => Colour::Yellow,
        }
    }
}
