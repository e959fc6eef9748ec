//! A text with a name, and the places in it.
ghost use Rattle.std.specs.Prelude.{◌≡◌, IfOk, map};
ghost use Rattle.std.specs.Str.Lines.{lines};
ghost use Rattle.syntax_diagnostic.specs.Place.{place_of};
ghost use Rattle.syntax_diagnostic.specs.Source.{line_text};

use crate::places::Places;
use crate::spot::Spot;
use std::alloc::{AllocError, Global};

/// A text with a name. It gives the line and column of each byte and the text of the line. The time for this does not grow with the text.
#[derive(Drop)]
pub struct SourceFile<'a> {
    name: &'a str,
    text: &'a str,
    line_texts: Vec<&'a str>,
    places: Places<'a>,
    ghost listed: { map (λ line. line.now) line_texts.items ≡ lines text.now },
    ghost placed: { places.text.now ≡ text.now },
}

impl<'a> SourceFile<'a> {
    /// Returns a text with that name. Lists its lines. Fails only if memory runs out.
    pub fn new(alloc: Global, name: &'a str, text: &'a str) -> Result<Self, AllocError>
        ensures name { IfOk result (λ file. file.name.now ≡ name.entry.now) }
        ensures text { IfOk result (λ file. file.text.now ≡ text.entry.now) }
    {
        let line_texts = text.lines().collect(alloc)?;
        let places = Places::new(alloc, text)?;
        Ok(SourceFile {
            name,
            text,
            line_texts,
            places,
        })
    }

    /// Returns the place of a byte. If `at` exceeds the text, it is that of the text's end.
    pub fn spot(&self, at: usize) -> Spot<'a>
        ensures file { result.file.now ≡ self.now.name.now }
        ensures place { result.place ≡ place_of self.now.text.now at }
        ensures line { result.line.now ≡ line_text self.now.text.now (place_of self.now.text.now at).line }
    {
        let place = self.places.place(at);
        let line = self.line_texts.get(place.line.saturating_sub(1));
        Spot {
            file: self.name,
            place,
            line: line.copied().unwrap_or(""),
        }
    }
}
