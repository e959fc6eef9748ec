//! The line and the column of a byte.
ghost use Rattle.syntax_diagnostic.specs.Place.{place_of};
ghost use Rattle.std.specs.Prelude.{◌≡◌, ◌+◌, ◌^◌, ◌<◌, ◌≤◌, ◌++◌, ◌∷◌, [], Some, codes, decimal, length, List};

use std::fmt;

/// The line and column of a byte of a text. Its text is `line:column`.
#[derive(Debug, Clone, Copy, PartialEq, Eq)]
pub struct Place {
    /// The line: one more than the line feeds before the byte.
    pub line: usize,
    /// The column: one more than the characters between the beginning of the line and the byte.
    pub column: usize,
}

impl fmt::Display for Place {
    ghost use Rattle.syntax_diagnostic.specs.Place.{place_text};

    ghost output = { λ place. Some (place_text place) };

    fn fmt<W: fmt::Write>(&self, f: &mut fmt::Formatter<W>) -> fmt::Result {
        write!(f, "{}:{}", self.line, self.column)
    }
}

impl Place {
    ghost use Rattle.std.specs.List.{fold};
    ghost use Rattle.syntax_diagnostic.specs.Place.{next_place, place_of};

    // The place of the first byte.
    pub(crate) const FIRST: Place = Place { line: 1, column: 1 };

    // Returns the place after a byte at this place.
    fn next(self, byte: u8) -> Place
        requires line { self.line + 1 < 2 ^ 64 }
        requires column { self.column + 1 < 2 ^ 64 }
        ensures { result ≡ next_place self byte }
    {
        if byte == b'\n' {
            return Place {
                line: self.line + 1,
                column: 1,
            };
        }
        let begins = byte < 128 || byte >= 192;
        Place {
            line: self.line,
            column: self.column + usize::from(begins),
        }
    }

    // Returns the place after these bytes, whose first is at this place.
    pub(crate) fn past(self, bytes: &[u8]) -> Place
        requires line { self.line + length bytes.now < 2 ^ 64 }
        requires column { self.column + length bytes.now < 2 ^ 64 }
        ensures { result ≡ fold next_place self bytes.now }
    {
        let mut place = self;
        for byte in bytes {
            place = place.next(*byte);
        }
        place
    }
}

/// Returns the place of a byte of a text. If `at` exceeds the text, it is that of the text's end.
#[tactic(auto, using(crate::proofs::PlaceFacts::fold_is_place, crate::proofs::PlaceFacts::taken_within))]
pub fn place_of(text: &str, at: usize) -> Place
    ensures { result ≡ place_of text.now at }
{
    let bytes = text.as_bytes();
    Place::FIRST.past(&bytes[..at.min(bytes.len())])
}
