//! Classes of characters. Unicode's tables are used only beyond ASCII.
ghost use Rattle.std.specs.Prelude.{◌≡◌};
ghost use Rattle.syntax_lex.specs.Class.{is_whitespace, is_id_start, is_id_continue, is_emoji_mark, is_decimal, is_hex, is_odd_rest, passes};

/// Returns whether a character is white space: `Pattern_White_Space` of Unicode.
#[inline(always)]
pub fn is_whitespace(c: char) -> bool
    ensures { result ≡ is_whitespace c }
{
    matches!(
        c,
        '\u{9}'..='\u{d}' | ' ' | '\u{85}' | '\u{200e}' | '\u{200f}' | '\u{2028}' | '\u{2029}'
    )
}

/// Returns whether an identifier may begin with a character: `XID_Start` of Unicode, or `_`.
#[inline(always)]
pub fn is_id_start(c: char) -> bool
    ensures { result ≡ is_id_start c }
{
    if c.is_ascii() {
        c.is_ascii_alphabetic() | (c == '_')
    } else {
        unicode_ident::is_xid_start(c)
    }
}

/// Returns whether an identifier may continue with a character: `XID_Continue` of Unicode.
#[inline(always)]
pub fn is_id_continue(c: char) -> bool
    ensures { result ≡ is_id_continue c }
{
    if c.is_ascii() {
        c.is_ascii_alphabetic() || (c.is_ascii_digit() || c == '_')
    } else {
        unicode_ident::is_xid_continue(c)
    }
}

/// Returns whether a character is an emoji beyond ASCII, which identifiers of other languages have.
#[inline(always)]
pub fn is_emoji_mark(c: char) -> bool
    ensures { result ≡ is_emoji_mark c }
{
    !c.is_ascii() && ucd_emoji::is_emoji(c)
}

// Returns whether an identifier with emoji may continue with a character.
fn is_odd_rest(c: char) -> bool
    ensures { result ≡ is_odd_rest c }
{
    is_id_continue(c) | is_emoji_mark(c) | (c == '\u{200d}')
}

/// Returns whether a character is one of `0` to `9`.
#[inline(always)]
pub fn is_decimal(c: char) -> bool
    ensures { result ≡ is_decimal c }
{
    matches!(c, '0'..='9')
}

/// Returns whether a character is a digit of base 16.
#[inline(always)]
pub fn is_hex(c: char) -> bool
    ensures { result ≡ is_hex c }
{
    matches!(c, '0'..='9' | 'a'..='f' | 'A'..='F')
}

/// A class of characters, for runs of them.
#[derive(Clone, Copy)]
pub enum CharClass {
    Whitespace,
    IdContinue,
    /// The characters with which an identifier with emoji continues.
    OddRest,
    Underscore,
    /// Digits and `_`.
    DecimalPart,
    /// Digits of base 16 and `_`.
    HexPart,
}

impl CharClass {
    /// Returns whether a character is of the class.
    #[inline(always)]
    pub fn passes(self, c: char) -> bool
        ensures { result ≡ passes self c }
    {
        match self {
            CharClass::Whitespace => is_whitespace(c),
            CharClass::IdContinue => is_id_continue(c),
            CharClass::OddRest => is_odd_rest(c),
            CharClass::Underscore => c == '_',
            CharClass::DecimalPart => is_decimal(c) | (c == '_'),
            CharClass::HexPart => is_hex(c) | (c == '_'),
        }
    }
}
