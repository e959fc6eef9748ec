//! Reads the leaf or header at the front of bytes (docs/FORMATS.md, "Bytes of a leaf" and "Bytes of a header").
ghost use Rattle.std.specs.Prelude.{◌≡◌, Some, None, IsTrue, false};
ghost use Rattle.tt_codec.specs.Entry.{as_entry, plain_entry_at, entry_behind_span, is_common_behind, is_common_at, entry_at, EntriesAgain};
ghost use Rattle.tt_codec.specs.Header.{IsHeaderRead};
ghost use Rattle.tt_codec.specs.Leaf.{long_literal_at, other_punct_at, short_literal_at, literal_at, ident_at, ascii_at, marked_at};
ghost use Rattle.tt_codec.specs.Read.{Read, IsRead, IsMade, byte_at};
ghost use Rattle.tt_codec.specs.declared.entry.Entry.{Entry as StoredEntry};
ghost use Rattle.tt_codec.specs.declared.entry.Entry.TheVariants as stored;

use crate::entry::{Entry, HeaderEntry, LeafEntry};
use crate::form::{
    FORM_BITS, FORM_MASK, FORMAT_1, FORMAT_2, FORMAT_3, FORMAT_4, IDENT, LONG_LITERAL, OTHER_PUNCT,
    PLAIN, SHORT_KIND_BITS, SHORT_KIND_MASK,
};
use crate::header_read::{read_format_1, read_format_2, read_format_3, read_format_4};
use crate::kinds::{raw_from, short_kind_from, spacing_from};
use crate::leaf_read::{ascii_spacing, read_char, read_kind};
use crate::reference::Reference;
use crate::span::{SpanNumbers, Spanned};
use crate::words::split_byte;
use tt_base::{IdentIsRaw, LitKind, Spacing};

/// What to do with a token's numbers. The reader calls it for each form of token as soon as it has read that form. So the numbers go
/// through no value that all forms share.
pub trait Visitor<'a> {
    ghost use Rattle.std.specs.Prelude.{List, ℕ};
    ghost use Rattle.tt_codec.specs.declared.entry.Entry.{Entry};
    ghost use Rattle.tt_codec.specs.declared.entry.Entry.TheVariants as stored;
    ghost use Rattle.tt_codec.specs.declared.entry.LeafEntry.TheVariants as leaf;

    /// The state of the visitor after a token in numbers, if these bytes follow the token.
    ghost makes: { Self → Entry → List ℕ → Self → Type 0 };

    /// Visits an ident: the index of its symbol, whether it is raw, and its span.
    fn visit_ident(&mut self, symbol: u32, is_raw: IdentIsRaw, span: SpanNumbers, rest: &'a [u8])
        ensures { makes self.old (stored.Leaf (leaf.Ident symbol is_raw span)) rest.now self.new };

    /// Visits a punct.
    fn visit_punct(&mut self, char: char, spacing: Spacing, span: SpanNumbers, rest: &'a [u8])
        ensures { makes self.old (stored.Leaf (leaf.Punct char spacing span)) rest.now self.new };

    /// Visits a literal: the index of its symbol, its kind, the number of bytes of the symbol that are the suffix, and its span.
    fn visit_literal(
        &mut self,
        symbol: u32,
        kind: LitKind,
        suffix_len: u8,
        span: SpanNumbers,
        rest: &'a [u8],
    )
        ensures { makes self.old (stored.Leaf (leaf.Literal symbol kind suffix_len span)) rest.now self.new };

    /// Visits a header.
    fn visit_header(&mut self, header: HeaderEntry, rest: &'a [u8])
        ensures { makes self.old (stored.Header header) rest.now self.new };
}

// Visits a header, if one was read.
#[inline(always)]
fn visit_header<'a, V: Visitor<'a>>(visitor: &mut V, read: Option<(HeaderEntry, &'a [u8])>)
    ensures { (it : Read StoredEntry) → IsHeaderRead it read.entry → IsMade V.makes visitor.old it visitor.new }
{
    match read {
        Some((header, rest)) => visitor.visit_header(header, rest),
        None => {}
    }
}

// Visits a literal, after all but the reference is read.
#[inline(always)]
fn visit_literal<'a, V: Visitor<'a>>(
    visitor: &mut V,
    kind: LitKind,
    suffix_len: u8,
    span: SpanNumbers,
    from: &'a [u8],
)
    ensures { IsMade V.makes visitor.old (as_entry (literal_at kind suffix_len span from.now)) visitor.new }
{
    match Reference::read(from) {
        Some((symbol, rest)) => visitor.visit_literal(symbol.index, kind, suffix_len, span, rest),
        None => {}
    }
}

// Visits a punct that is not ASCII, after its first byte is read. Such a punct is rare.
#[inline(never)]
fn visit_other_punct<'a, V: Visitor<'a>>(
    visitor: &mut V,
    span: SpanNumbers,
    number: u8,
    from: &'a [u8],
)
    ensures { IsMade V.makes visitor.old (as_entry (other_punct_at number span from.now)) visitor.new }
{
    if let Some((char, rest)) = read_char(from) {
        if let Some(spacing) = spacing_from(number) {
            visitor.visit_punct(char, spacing, span, rest);
        }
    }
}

// Visits a literal of the long form, after its first byte is read. Such a literal is rare.
#[inline(never)]
fn visit_long_literal<'a, V: Visitor<'a>>(
    visitor: &mut V,
    span: SpanNumbers,
    number: u8,
    from: &'a [u8],
)
    ensures { IsMade V.makes visitor.old (as_entry (long_literal_at number span from.now)) visitor.new }
{
    if let Some((kind, rest)) = read_kind(number, from) {
        if let Some((suffix_len, rest)) = split_byte(rest) {
            visit_literal(visitor, kind, suffix_len, span, rest);
        }
    }
}

// Visits a literal of the short form, after its first byte is read.
#[inline(always)]
fn visit_short_literal<'a, V: Visitor<'a>>(
    visitor: &mut V,
    span: SpanNumbers,
    control: u8,
    from: &'a [u8],
)
    ensures { IsMade V.makes visitor.old (as_entry (short_literal_at control span from.now)) visitor.new }
{
    if let Some(kind) = short_kind_from(control & SHORT_KIND_MASK) {
        visit_literal(visitor, kind, control >> SHORT_KIND_BITS, span, from);
    }
}

// Visits an ident, after its span is read.
#[inline(always)]
fn visit_ident<'a, V: Visitor<'a>>(visitor: &mut V, span: SpanNumbers, from: &'a [u8])
    ensures { IsMade V.makes visitor.old (as_entry (ident_at span from.now)) visitor.new }
{
    match Reference::read(from) {
        Some((symbol, rest)) => {
            visitor.visit_ident(symbol.index, raw_from(symbol.tag), span, rest)
        }
        None => {}
    }
}

// Visits an ASCII punct, after its span is read. `hidden` is 1 if it is joint hidden.
#[inline(always)]
fn visit_ascii_punct<'a, V: Visitor<'a>>(
    visitor: &mut V,
    span: SpanNumbers,
    hidden: u32,
    from: &'a [u8],
)
    ensures { IsMade V.makes visitor.old (as_entry (ascii_at hidden span from.now)) visitor.new }
{
    match split_byte(from) {
        Some((byte, rest)) => {
            visitor.visit_punct((byte >> 1) as char, ascii_spacing(hidden, byte), span, rest)
        }
        None => {}
    }
}

// Visits a token whose span has no extra bits, after the span and the byte after it are read.
#[inline(always)]
fn visit_plain<'a, V: Visitor<'a>>(visitor: &mut V, span: SpanNumbers, control: u8, from: &'a [u8])
    ensures { IsMade V.makes visitor.old (plain_entry_at control span from.now) visitor.new }
{
    let high = control >> FORM_BITS;
    match control & FORM_MASK {
        FORMAT_1 => visit_header(visitor, read_format_1(span, high, from)),
        FORMAT_2 => visit_header(visitor, read_format_2(span, high, from)),
        FORMAT_3 => visit_header(visitor, read_format_3(span, high, from)),
        FORMAT_4 => visit_header(visitor, read_format_4(span, high, from)),
        OTHER_PUNCT => visit_other_punct(visitor, span, high, from),
        LONG_LITERAL => visit_long_literal(visitor, span, high, from),
        _ => visit_short_literal(visitor, span, control, from),
    }
}

// Visits an ident or an ASCII punct, after its span is read.
#[inline(always)]
fn visit_marked<'a, V: Visitor<'a>>(visitor: &mut V, span: Spanned, from: &'a [u8])
    ensures { IsMade V.makes visitor.old (as_entry (marked_at span.extra span.numbers from.now)) visitor.new }
{
    if span.extra == IDENT {
        visit_ident(visitor, span.numbers, from);
        return;
    }
    visit_ascii_punct(visitor, span.numbers, span.extra >> 1, from)
}

// Visits a token, after its span is read.
#[inline(always)]
fn visit_behind<'a, V: Visitor<'a>>(visitor: &mut V, span: Spanned, from: &'a [u8])
    ensures { IsMade V.makes visitor.old (entry_behind_span span.extra span.numbers from.now) visitor.new }
{
    if span.extra == PLAIN {
        if let Some((control, rest)) = split_byte(from) {
            visit_plain(visitor, span.numbers, control, rest);
        }
        return;
    }
    visit_marked(visitor, span, from);
}

// Visits a token whose span has no extra bits, if it is a header of the first or the fourth format or a literal of the short form.
// Returns whether it is.
#[inline(always)]
fn visit_common_plain<'a, V: Visitor<'a>>(
    visitor: &mut V,
    span: SpanNumbers,
    from: &'a [u8],
) -> bool
    ensures common { result ≡ is_common_behind 0 (byte_at from.now) }
    ensures visits { IsTrue result → IsMade V.makes visitor.old (entry_behind_span 0 span from.now) visitor.new }
    ensures unchanged { result ≡ false → visitor.new ≡ visitor.old }
{
    let Some((control, rest)) = split_byte(from) else {
        return false;
    };
    match control & FORM_MASK {
        FORMAT_1 => visit_header(visitor, read_format_1(span, control >> FORM_BITS, rest)),
        FORMAT_4 => visit_header(visitor, read_format_4(span, control >> FORM_BITS, rest)),
        FORMAT_2 | FORMAT_3 | OTHER_PUNCT | LONG_LITERAL => return false,
        _ => visit_short_literal(visitor, span, control, rest),
    }
    true
}

/// Visits the token at the front of the bytes if it has one of the common forms: an ident, an ASCII punct, a header of the first or the
/// fourth format, or a literal of the short form. Returns whether it has. A caller that makes no call for each token can use it. It has
/// nearly as much code as the compiler accepts inline.
#[inline(always)]
#[tactic(auto, unfolding(crate::specs::Entry::entry_at, crate::specs::Entry::is_common_at))]
pub fn visit_common_token<'a, V: Visitor<'a>>(visitor: &mut V, from: &'a [u8]) -> bool
    ensures common { result ≡ is_common_at from.now }
    ensures visits { IsTrue result → IsMade V.makes visitor.old (entry_at from.now) visitor.new }
    ensures unchanged { result ≡ false → visitor.new ≡ visitor.old }
{
    let Some((span, rest)) = Spanned::read(from) else {
        return false;
    };
    if span.extra == PLAIN {
        return visit_common_plain(visitor, span.numbers, rest);
    }
    visit_marked(visitor, span, rest);
    true
}

/// Visits the token at the front of the bytes, if a token is there.
#[inline(always)]
#[tactic(auto, unfolding(crate::specs::Entry::entry_at))]
pub fn visit_token<'a, V: Visitor<'a>>(visitor: &mut V, from: &'a [u8])
    ensures { IsMade V.makes visitor.old (entry_at from.now) visitor.new }
{
    if let Some((span, rest)) = Spanned::read(from) {
        visit_behind(visitor, span, rest);
    }
}

// Keeps the numbers, and the bytes after the token.
#[derive(Drop)]
struct Numbers<'a> {
    entry: Option<Entry>,
    rest: &'a [u8],
}

impl<'a> Visitor<'a> for Numbers<'a> {
    ghost makes = { λ old entry rest new. (new.entry ≡ Some entry) × (new.rest.now ≡ rest) };

    fn visit_ident(&mut self, symbol: u32, is_raw: IdentIsRaw, span: SpanNumbers, rest: &'a [u8]) {
        self.entry = Some(Entry::Leaf(LeafEntry::Ident(symbol, is_raw, span)));
        self.rest = rest;
    }

    fn visit_punct(&mut self, char: char, spacing: Spacing, span: SpanNumbers, rest: &'a [u8]) {
        self.entry = Some(Entry::Leaf(LeafEntry::Punct(char, spacing, span)));
        self.rest = rest;
    }

    fn visit_literal(
        &mut self,
        symbol: u32,
        kind: LitKind,
        suffix_len: u8,
        span: SpanNumbers,
        rest: &'a [u8],
    ) {
        self.entry = Some(Entry::Leaf(LeafEntry::Literal(symbol, kind, suffix_len, span)));
        self.rest = rest;
    }

    fn visit_header(&mut self, header: HeaderEntry, rest: &'a [u8]) {
        self.entry = Some(Entry::Header(header));
        self.rest = rest;
    }
}

impl Entry {
    // Returns the token at the front of the bytes, and the bytes after it.
    fn split(from: &[u8]) -> Option<(Entry, &[u8])>
        ensures { IsRead (entry_at from.now) result }
    {
        let mut numbers = Numbers {
            entry: None,
            rest: from,
        };
        visit_token(&mut numbers, from);
        let entry = numbers.entry?;
        Some((entry, numbers.rest))
    }

    /// Returns the token at the front of the bytes, and the bytes after it, or `None` if no token is there.
    pub fn read(from: &[u8]) -> Option<(Entry, &[u8])>
        ensures value { IsRead (entry_at from.now) result }
        ensures again { EntriesAgain from.now result }
    {
        Entry::split(from)
    }
}
