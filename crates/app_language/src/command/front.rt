//! Words at the beginning of a text, compared byte by byte.
ghost use Rattle.std.specs.Prelude.{◌≡◌, ◌≢◌, ◌∷◌, ℕ, List, MatchOption, codes};
ghost use Rattle.app_language.specs.Reading.{words};

// Returns what follows these bytes and a space.
macro_rules! after {
    ($text:expr; $($byte:literal),+) => {
        match $text {
            [$($byte,)+ b' ', rest @ ..] => Some(rest),
            _ => None,
        }
    };
}

/// Returns what follows the byte.
#[inline(always)]
pub fn after_byte(text: &[u8], byte: u8) -> Option<&[u8]>
    ensures { MatchOption result ((rest : List ℕ) → text.now ≢ byte ∷ rest) (λ rest. text.now ≡ byte ∷ rest.now) }
{
    match text {
        [first, rest @ ..] if *first == byte => Some(rest),
        _ => None,
    }
}

/// Returns what follows `item` and a space.
#[inline(always)]
pub fn after_item(text: &[u8]) -> Option<&[u8]>
    ensures { MatchOption result ((rest : List ℕ) → text.now ≢ words (codes "item") rest) (λ rest. text.now ≡ words (codes "item") rest.now) }
{
    after!(text; b'i', b't', b'e', b'm')
}

/// Returns what follows `sub` and a space.
#[inline(always)]
pub fn after_sub(text: &[u8]) -> Option<&[u8]>
    ensures { MatchOption result ((rest : List ℕ) → text.now ≢ words (codes "sub") rest) (λ rest. text.now ≡ words (codes "sub") rest.now) }
{
    after!(text; b's', b'u', b'b')
}

/// Returns what follows `punct` and a space.
#[inline(always)]
pub fn after_punct(text: &[u8]) -> Option<&[u8]>
    ensures { MatchOption result ((rest : List ℕ) → text.now ≢ words (codes "punct") rest) (λ rest. text.now ≡ words (codes "punct") rest.now) }
{
    after!(text; b'p', b'u', b'n', b'c', b't')
}

/// Returns what follows `ident` and a space.
#[inline(always)]
pub fn after_ident(text: &[u8]) -> Option<&[u8]>
    ensures { MatchOption result ((rest : List ℕ) → text.now ≢ words (codes "ident") rest) (λ rest. text.now ≡ words (codes "ident") rest.now) }
{
    after!(text; b'i', b'd', b'e', b'n', b't')
}

/// Returns what follows `lit` and a space.
#[inline(always)]
pub fn after_lit(text: &[u8]) -> Option<&[u8]>
    ensures { MatchOption result ((rest : List ℕ) → text.now ≢ words (codes "lit") rest) (λ rest. text.now ≡ words (codes "lit") rest.now) }
{
    after!(text; b'l', b'i', b't')
}

/// Returns what follows `alone` and a space.
#[inline(always)]
pub fn after_alone(text: &[u8]) -> Option<&[u8]>
    ensures { MatchOption result ((rest : List ℕ) → text.now ≢ words (codes "alone") rest) (λ rest. text.now ≡ words (codes "alone") rest.now) }
{
    after!(text; b'a', b'l', b'o', b'n', b'e')
}

/// Returns what follows `joint` and a space.
#[inline(always)]
pub fn after_joint(text: &[u8]) -> Option<&[u8]>
    ensures { MatchOption result ((rest : List ℕ) → text.now ≢ words (codes "joint") rest) (λ rest. text.now ≡ words (codes "joint") rest.now) }
{
    after!(text; b'j', b'o', b'i', b'n', b't')
}

/// Returns what follows `hidden` and a space.
#[inline(always)]
pub fn after_hidden(text: &[u8]) -> Option<&[u8]>
    ensures { MatchOption result ((rest : List ℕ) → text.now ≢ words (codes "hidden") rest) (λ rest. text.now ≡ words (codes "hidden") rest.now) }
{
    after!(text; b'h', b'i', b'd', b'd', b'e', b'n')
}

/// Returns what follows `plain` and a space.
#[inline(always)]
pub fn after_plain(text: &[u8]) -> Option<&[u8]>
    ensures { MatchOption result ((rest : List ℕ) → text.now ≢ words (codes "plain") rest) (λ rest. text.now ≡ words (codes "plain") rest.now) }
{
    after!(text; b'p', b'l', b'a', b'i', b'n')
}

/// Returns what follows `raw` and a space.
#[inline(always)]
pub fn after_raw(text: &[u8]) -> Option<&[u8]>
    ensures { MatchOption result ((rest : List ℕ) → text.now ≢ words (codes "raw") rest) (λ rest. text.now ≡ words (codes "raw") rest.now) }
{
    after!(text; b'r', b'a', b'w')
}

/// Returns what follows `int` and a space.
#[inline(always)]
pub fn after_int(text: &[u8]) -> Option<&[u8]>
    ensures { MatchOption result ((rest : List ℕ) → text.now ≢ words (codes "int") rest) (λ rest. text.now ≡ words (codes "int") rest.now) }
{
    after!(text; b'i', b'n', b't')
}

/// Returns what follows `str` and a space.
#[inline(always)]
pub fn after_str(text: &[u8]) -> Option<&[u8]>
    ensures { MatchOption result ((rest : List ℕ) → text.now ≢ words (codes "str") rest) (λ rest. text.now ≡ words (codes "str") rest.now) }
{
    after!(text; b's', b't', b'r')
}
