//! Numbers and slots, as words.
ghost use Rattle.std.specs.Prelude.{◌≡◌, ◌^◌, ◌<◌, ◌≤◌, ◌⊎◌, decimal, length, take, drop};
ghost use Rattle.std.specs.Str.Parse.{AllDigits, digits_value};
ghost use Rattle.app_language.specs.Reading.{BeginsWithNoDigit, Reads, ReadsBefore, ReadsFront};
ghost use Rattle.app_language.specs.WordLaws.{spaceless_byte, spaceless_long_number, spaceless_slot, spaceless_number};

use crate::command::front::after_byte;
use crate::command::word::Word;
use crate::slot::Slot;

/// Reads a number in decimal without leading zeros.
pub fn number(word: &[u8]) -> Option<u32>
    ensures { Reads decimal (λ n. n < 2 ^ 32) word.now result }
{
    let (value, rest) = leading_number(word)?;
    if !rest.is_empty() {
        return None;
    }
    Some(value)
}

// A number has fewer digits.
const TOO_MANY_DIGITS: usize = 19;

/// Returns the number at the beginning of the text, and what follows its digits.
#[inline(always)]
pub fn leading_number(text: &[u8]) -> Option<(u32, &[u8])>
    ensures { ReadsFront decimal (λ n. n < 2 ^ 32) text.now result }
{
    let end = text.len().min(TOO_MANY_DIGITS);
    let mut value = 0;
    for i in 0..end {
        let digit = text[i];
        if !digit.is_ascii_digit() {
            return number_to(text, i, value);
        }
        value = value * 10 + u64::from(digit - b'0');
    }
    if end == TOO_MANY_DIGITS {
        return None;
    }
    number_to(text, end, value)
}

// Returns the number of the first `end` bytes, which are digits with that value, and what follows them.
#[inline(always)]
fn number_to(text: &[u8], end: usize, value: u64) -> Option<(u32, &[u8])>
    requires digits { (end ≤ length text.now) × AllDigits 10 (take end text.now) }
    requires value { value ≡ digits_value 10 (take end text.now) }
    requires others { BeginsWithNoDigit (drop end text.now) }
    ensures { ReadsFront decimal (λ n. n < 2 ^ 32) text.now result }
{
    if end == 0 {
        return None;
    }
    if value > u64::from(u32::MAX) {
        return None;
    }
    if end > 1 && text[0] == b'0' {
        return None;
    }
    Some((value as u32, &text[end..]))
}

// The same for a number of up to 64 bits, as a restore point has.
fn long_number(word: &[u8]) -> Option<u64>
    ensures { Reads decimal (λ n. n < 2 ^ 64) word.now result }
{
    if word.is_empty() || word.len() > 20 {
        return None;
    }
    if word[0] == b'0' && word.len() > 1 {
        return None;
    }
    let mut value = 0;
    for digit in word {
        if !digit.is_ascii_digit() {
            return None;
        }
        value = value * 10 + u128::from(digit - b'0');
    }
    u64::try_from(value).ok()
}

/// Returns the number up to the first such byte, and what follows that byte.
#[inline(always)]
pub fn number_before(text: &[u8], byte: u8) -> Option<(u32, &[u8])>
    requires { byte < 48 ⊎ 57 < byte }
    ensures { ReadsBefore byte decimal (λ n. n < 2 ^ 32) text.now result }
{
    let (value, rest) = leading_number(text)?;
    let rest = after_byte(rest, byte)?;
    Some((value, rest))
}

impl Word for u8 {
    ghost spelling = { decimal };

    ghost fits = { λ n. n ≤ 255 };

    fn read(word: &[u8]) -> Option<u8> {
        u8::try_from(number(word)?).ok()
    }

    ghost has_no_space = { spaceless_byte };
}

impl Word for u64 {
    ghost spelling = { decimal };

    ghost fits = { λ n. n < 2 ^ 64 };

    fn read(word: &[u8]) -> Option<u64> {
        long_number(word)
    }

    ghost has_no_space = { spaceless_long_number };
}

impl Word for Slot {
    ghost spelling = { decimal };

    ghost fits = { λ slot. slot < 16 };

    fn read(word: &[u8]) -> Option<Slot> {
        Slot::new(number(word)?)
    }

    ghost has_no_space = { spaceless_slot };
}

impl Word for u32 {
    ghost spelling = { decimal };

    ghost fits = { λ n. n < 2 ^ 32 };

    fn read(word: &[u8]) -> Option<u32> {
        number(word)
    }

    ghost has_no_space = { spaceless_number };
}
