//! The limit of nested expansions that a text sets by `#![recursion_limit = "N"]`.
ghost use Rattle.std.specs.Prelude.{◌≡◌, ◌≢◌, ◌≤◌, ◌<◌, ◌+◌, ◌^◌, suc, List, ◌∷◌, length};
ghost use Rattle.app_files.specs.RecursionLimit.{IsNumberIn, SetsLimit, literal_at, literal_in, open_in};
ghost use Rattle.app_files.specs.TokenWords.{Word};
ghost use Rattle.app_files.specs.declared.recursion_limit.Front.TheVariants.{Equals};

use crate::trivia::is_trivia;
use syntax_lex::first_token;

// What the last tokens are of the inner attributes at the beginning of a text.
#[derive(Clone, Copy)]
enum Front {
    // Whole attributes.
    Whole,
    // `#`
    Sign,
    // `#!`
    Bang,
    // `#![`
    Open,
    // `#![recursion_limit`
    Name,
    // `#![recursion_limit =`
    Equals,
    // An attribute whose bracket is open, and in it so many others.
    Inside(usize),
    // Something else.
    Behind,
}

// Returns what the tokens are after one more in an attribute whose bracket is open, and in it so many others.
fn inside(others: usize, word: &str) -> Front
    requires { others < 2 ^ 32 }
    ensures same { (words : List Word) → literal_at result words ≡ literal_in (suc others) (word.now ∷ words) }
    ensures bound { open_in result ≤ others + 1 }
{
    match word {
        "[" => Front::Inside(others + 1),
        "]" if others == 0 => Front::Whole,
        "]" => Front::Inside(others - 1),
        _ => Front::Inside(others),
    }
}

// Returns what the tokens are after one more.
fn next(front: Front, word: &str) -> Front
    requires few { open_in front < 2 ^ 32 }
    requires more { front ≢ Equals }
    ensures same { (words : List Word) → literal_at result words ≡ literal_at front (word.now ∷ words) }
    ensures bound { open_in result ≤ open_in front + 1 }
{
    match front {
        Front::Whole if word == "#" => Front::Sign,
        Front::Sign if word == "!" => Front::Bang,
        Front::Bang if word == "[" => Front::Open,
        Front::Open if word == "recursion_limit" => Front::Name,
        Front::Open => inside(0, word),
        Front::Name if word == "=" => Front::Equals,
        Front::Name => inside(0, word),
        Front::Inside(others) => inside(others, word),
        _ => Front::Behind,
    }
}

// Returns the number in a string literal.
fn number_in(literal: &str) -> Option<usize>
    ensures { IsNumberIn literal.now result }
{
    let behind = literal.strip_prefix('"')?;
    let digits = behind.strip_suffix('"')?;
    match digits.parse::<usize>() {
        Ok(number) => Some(number),
        Err(_) => None,
    }
}

/// Returns the limit that an inner attribute at the beginning of the text sets.
pub fn recursion_limit_of(text: &str) -> Option<usize>
    requires { length text.now < 2 ^ 32 }
    ensures { SetsLimit text.now result }
{
    let mut front = Front::Whole;
    let mut rest = text;
    while !rest.is_empty() {
        let token = first_token(rest);
        let (word, behind) = rest.split_at(token.len as usize);
        rest = behind;
        if is_trivia(token.kind) {
            continue;
        }
        match front {
            Front::Behind => return None,
            Front::Equals => return number_in(word),
            _ => front = next(front, word),
        }
    }
    None
}
