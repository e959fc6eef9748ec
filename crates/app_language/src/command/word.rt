//! The words of a line, and how a word is cut off.
ghost use Rattle.std.specs.Prelude.{◌≡◌, ◌≢◌, ◌++◌, ◌∷◌, ℕ, List, MatchBool, MatchOption};
ghost use Rattle.app_language.specs.Reading.{IsTail, Lacks, Reads, ReadsBefore, ReadsNext};

/// A value that one word of a line spells.
pub trait Word: Sized {
    ghost spelling: { Self → List ℕ };

    ghost fits: { Self → Type 0 };

    /// Reads the value that the word spells.
    fn read(word: &[u8]) -> Option<Self>
        ensures { Reads spelling fits word.now result };

    ghost has_no_space: { (value : Self) → fits value → Lacks 32 (spelling value) };

    /// Reads the value of the first word, and returns it with what follows the space after it.
    fn read_before_space(text: &[u8]) -> Option<(Self, &[u8])>
        ensures { ReadsBefore 32 spelling fits text.now result }
    {
        let (word, rest) = cut(text, b' ')?;
        let value = Self::read(word)?;
        Some((value, rest))
    }
}

/// Reads the value of the word after the space at the beginning of the text, and returns it with the text from the next space on.
pub fn next<W: Word>(text: &[u8]) -> Option<(W, &[u8])>
    ensures { ReadsNext W.spelling W.fits text.now result }
{
    let text = text.strip_prefix(b" ".as_slice())?;
    let (word, rest) = first_word(text);
    let value = W::read(word)?;
    Some((value, rest))
}

/// Returns the text up to its first space, and from there on.
pub fn first_word(text: &[u8]) -> (&[u8], &[u8])
    ensures whole { text.now ≡ result.0.now ++ result.1.now }
    ensures word { Lacks 32 result.0.now }
    ensures tail { IsTail result.1.now }
{
    for (i, b) in text.iter().enumerate() {
        if *b == b' ' {
            return (&text[..i], &text[i..]);
        }
    }
    (text, &text[text.len()..])
}

/// Returns what precedes the first such byte, and what follows it.
pub fn cut(text: &[u8], byte: u8) -> Option<(&[u8], &[u8])>
    ensures { MatchOption result (Lacks byte text.now) (λ parts.
        (text.now ≡ parts.0.now ++ byte ∷ parts.1.now) × Lacks byte parts.0.now) }
{
    for (i, b) in text.iter().enumerate() {
        if *b == byte {
            return Some((&text[..i], &text[i + 1..]));
        }
    }
    None
}

/// Returns whether the word is that name.
pub fn is(word: &[u8], name: &[u8]) -> bool
    ensures { MatchBool result (word.now ≡ name.now) (word.now ≢ name.now) }
{
    word == name
}

// Returns the value that the word names, among those listed.
macro_rules! named {
    ($word:expr; $($text:literal => $value:expr),*) => {{
        $(if is($word, $text) {
            return Some($value);
        })*
        None
    }};
}

pub(crate) use named;
