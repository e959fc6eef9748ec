//! Laws of the definitions that the contracts cite. Each is the contract of a function that does nothing.
ghost use Rattle.std.specs.Prelude.{◌≡◌, ℕ, List, length, IsUtf8};
ghost use Rattle.std.specs.List.{count_by};
ghost use Rattle.std.specs.Str.{chars};
ghost use Rattle.syntax_diagnostic.specs.Place.{begins_char};

/// A text has as many bytes that begin a character as characters, so columns count characters.
pub fn chars_begun()
    ensures { (text : List ℕ) → IsUtf8 text → count_by begins_char text ≡ length (chars text) }
{}
