//! Writes leaves (docs/FORMATS.md, "Bytes of a leaf").
ghost use Rattle.std.specs.Prelude.{◌≡◌, ◌≤◌, ◌+◌, ◌<◌, ◌^◌, ◌++◌, false};
ghost use Rattle.tt_back_buf.specs.Bytes.{bytes_of, room_of};
ghost use Rattle.tt_codec.specs.Kinds.{raw_number};
ghost use Rattle.tt_codec.specs.Leaf.{LeafEntryFits, long_form, literal_form, punct_bytes, leaf_bytes, most_punct_bytes, most_leaf_bytes};
ghost use Rattle.tt_codec.specs.Reference.{reference_bytes};
ghost use Rattle.tt_codec.specs.SpanNumbers.{span_bytes};

use crate::entry::LeafEntry;
use crate::form::{
    ASCII_PUNCT, FORM_BITS, HIDDEN_PUNCT, IDENT, LONG_LITERAL, MOST_SHORT_SUFFIX, OTHER_PUNCT,
    PLAIN, SHORT_KIND_BITS,
};
use crate::kinds::{hash_count, kind_number, raw_number, short_number, spacing_number};
use crate::reference::Reference;
use crate::span::SpanNumbers;
use tt_back_buf::BackBuf;
use tt_base::{IdentIsRaw, LitKind, Spacing};

// Puts a kind and a suffix length before the bytes, in the long form.
fn write_long_form(into: &mut BackBuf, kind: LitKind, suffix_len: u8)
    requires room { 3 ≤ room_of into.old }
    ensures bytes { bytes_of into.new ≡ long_form kind suffix_len ++ bytes_of into.old }
    ensures room { room_of into.old ≤ room_of into.new + 3 }
{
    into.put_byte(suffix_len);
    if let Some(count) = hash_count(kind) {
        into.put_byte(count);
    }
    into.put_byte(LONG_LITERAL | kind_number(kind) << FORM_BITS)
}

// Puts a kind and a suffix length before the bytes, in the first form that can hold them.
#[tactic(auto, unfolding(crate::specs::Leaf::literal_form))]
fn write_form(into: &mut BackBuf, kind: LitKind, suffix_len: u8)
    requires room { 3 ≤ room_of into.old }
    ensures bytes { bytes_of into.new ≡ literal_form kind suffix_len ++ bytes_of into.old }
    ensures room { room_of into.old ≤ room_of into.new + 3 }
{
    let Some(number) = short_number(kind) else {
        return write_long_form(into, kind, suffix_len);
    };
    if suffix_len <= MOST_SHORT_SUFFIX {
        return into.put_byte(number | suffix_len << SHORT_KIND_BITS);
    }
    write_long_form(into, kind, suffix_len)
}

// Puts a punct before the bytes.
#[inline(always)]
fn write_punct(into: &mut BackBuf, char: char, spacing: Spacing, numbers: SpanNumbers)
    requires fits { numbers.part < 2 ^ 28 }
    requires room { 17 ≤ room_of into.old }
    ensures bytes { bytes_of into.new ≡ punct_bytes char spacing numbers ++ bytes_of into.old }
    ensures room { room_of into.old ≤ room_of into.new + most_punct_bytes char }
{
    if char.is_ascii() {
        into.put_byte((char as u8) << 1 | spacing_number(spacing) & 1);
        let extra = match spacing {
            Spacing::Alone | Spacing::Joint => ASCII_PUNCT,
            Spacing::JointHidden => HIDDEN_PUNCT,
        };
        return numbers.write(into, extra, false);
    }
    into.put_word(char as u32);
    into.put_byte(OTHER_PUNCT | spacing_number(spacing) << FORM_BITS);
    numbers.write(into, PLAIN, false)
}

// Puts a literal before the bytes.
#[inline(always)]
fn write_literal(
    into: &mut BackBuf,
    symbol: u32,
    kind: LitKind,
    suffix_len: u8,
    numbers: SpanNumbers,
)
    requires part { numbers.part < 2 ^ 28 }
    requires symbol { symbol < 2 ^ 29 }
    requires room { 19 ≤ room_of into.old }
    ensures bytes { bytes_of into.new ≡ span_bytes false 0 numbers ++ literal_form kind suffix_len ++ reference_bytes symbol 0 ++ bytes_of into.old }
    ensures room { room_of into.old ≤ room_of into.new + 19 }
{
    let reference = Reference {
        index: symbol,
        tag: 0,
    };
    reference.write(into);
    write_form(into, kind, suffix_len);
    numbers.write(into, PLAIN, false)
}

// Puts an ident before the bytes.
#[inline(always)]
fn write_ident(into: &mut BackBuf, symbol: u32, is_raw: IdentIsRaw, numbers: SpanNumbers)
    requires part { numbers.part < 2 ^ 28 }
    requires symbol { symbol < 2 ^ 29 }
    requires room { 16 ≤ room_of into.old }
    ensures bytes { bytes_of into.new ≡ span_bytes false 2 numbers ++ reference_bytes symbol (raw_number is_raw) ++ bytes_of into.old }
    ensures room { room_of into.old ≤ room_of into.new + 16 }
{
    let reference = Reference {
        index: symbol,
        tag: raw_number(is_raw),
    };
    reference.write(into);
    numbers.write(into, IDENT, false)
}

impl LeafEntry {
    /// Puts the leaf's bytes before the others.
    #[inline(always)]
    pub(crate) fn write(self, into: &mut BackBuf)
        requires fits { LeafEntryFits self }
        requires room { 19 ≤ room_of into.old }
        ensures bytes { bytes_of into.new ≡ leaf_bytes self ++ bytes_of into.old }
        ensures room { room_of into.old ≤ room_of into.new + most_leaf_bytes self }
    {
        match self {
            LeafEntry::Punct(char, spacing, numbers) => write_punct(into, char, spacing, numbers),
            LeafEntry::Ident(symbol, is_raw, numbers) => write_ident(into, symbol, is_raw, numbers),
            LeafEntry::Literal(symbol, kind, suffix_len, numbers) => {
                write_literal(into, symbol, kind, suffix_len, numbers)
            }
        }
    }
}
