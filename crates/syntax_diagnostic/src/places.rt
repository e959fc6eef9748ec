//! The places of many bytes of one text.
ghost use Rattle.std.specs.Prelude.{◌≡◌, IfOk};
ghost use Rattle.syntax_diagnostic.specs.Marks.{marks_of};
ghost use Rattle.syntax_diagnostic.specs.Place.{place_of};

use crate::place::Place;
use std::alloc::{AllocError, Global};

// The distance in bytes of two places that are kept.
const STRIDE: usize = 64;

/// The places of the bytes of one text. The time to find a place does not grow with the text.
#[derive(Drop)]
pub struct Places<'a> {
    text: &'a str,
    marks: Vec<Place>,
    ghost marked: { marks.items ≡ marks_of text.now },
}

impl<'a> Places<'a> {
    /// Returns the places of a text. Keeps a place for each 64 bytes. Fails only if memory runs out.

    pub fn new(alloc: Global, text: &'a str) -> Result<Self, AllocError>
        ensures { IfOk result (λ places. places.text.now ≡ text.now) }
    {
        let bytes = text.as_bytes();
        let mut place = Place::FIRST;
        let mut marks = Vec::with_capacity(alloc, bytes.len() / STRIDE + 1)?;
        marks.push(place)?;
        for block in 0..bytes.len() / STRIDE {
            let begin = block * STRIDE;
            place = place.past(&bytes[begin..begin + STRIDE]);
            marks.push(place)?;
        }
        Ok(Places { text, marks })
    }

    /// Returns the place of a byte. If `at` exceeds the text, it is that of the text's end.

    pub fn place(&self, at: usize) -> Place
        ensures { result ≡ place_of self.now.text.now at }
    {
        let bytes = self.text.as_bytes();
        let at = at.min(bytes.len());
        let block = at / STRIDE;
        self.marks[block].past(&bytes[block * STRIDE..at])
    }
}
