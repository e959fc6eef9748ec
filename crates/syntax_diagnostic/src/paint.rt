//! Words in a colour, on a terminal.
ghost use Rattle.std.specs.Prelude.{◌≡◌, ◌++◌, OnOk, string_bytes};
ghost use Rattle.syntax_diagnostic.specs.Paint.{painted, sign_of};

use std::alloc::AllocError;

/// Whether a text has colours.
#[derive(Debug, Clone, Copy, PartialEq, Eq)]
pub enum Style {
    /// It has no colours.
    Plain,
    /// It has the signs that turn a colour of a terminal on and off.
    Coloured,
}

/// A colour of bold letters.
#[derive(Debug, Clone, Copy, PartialEq, Eq)]
pub(crate) enum Colour {
    Red,
    Yellow,
    Green,
    Blue,
}

// Returns the signs that turn a colour on.
fn sign_of(colour: Colour) -> &'static str
    ensures { result.now ≡ sign_of colour }
{
    match colour {
        Colour::Red => "\x1b[1;31m",
        Colour::Yellow => "\x1b[1;33m",
        Colour::Green => "\x1b[1;32m",
        Colour::Blue => "\x1b[1;34m",
    }
}

/// Adds words, in a colour if the style has colours.
pub(crate) fn add_painted(
    text: &mut String,
    style: Style,
    colour: Colour,
    words: &str,
) -> Result<(), AllocError>
    ensures { OnOk result (string_bytes text.new ≡ string_bytes text.old ++ painted style colour words.now) }
{
    match style {
        Style::Plain => text.push_str(words),
        Style::Coloured => {
            text.push_str(sign_of(colour))?;
            text.push_str(words)?;
            text.push_str("\x1b[0m")
        }
    }
}
