//! How the bytes of a token show its form: by the extra bits of its span, and by the byte after the span if these are 0.

/// The extra bits of all tokens except idents and ASCII puncts. The byte after the span shows their form.
pub(crate) const PLAIN: u32 = 0;
/// The extra bits of an ASCII punct that is alone or joint.
pub(crate) const ASCII_PUNCT: u32 = 1;
/// The extra bits of an ident.
pub(crate) const IDENT: u32 = 2;
/// The extra bits of an ASCII punct that is joint hidden.
pub(crate) const HIDDEN_PUNCT: u32 = 3;

/// The number of low bits of the byte after the span that show the form of the token.
pub(crate) const FORM_BITS: u32 = 3;
/// The mask of these bits.
pub(crate) const FORM_MASK: u8 = (1 << FORM_BITS) - 1;
/// A header of the first format.
pub(crate) const FORMAT_1: u8 = 0;
/// A header of the second format.
pub(crate) const FORMAT_2: u8 = 1;
/// A header of the third format.
pub(crate) const FORMAT_3: u8 = 2;
/// A header of the fourth format.
pub(crate) const FORMAT_4: u8 = 5;
/// A punct that is not ASCII.
pub(crate) const OTHER_PUNCT: u8 = 6;
/// A literal of the long form. The short form has the numbers that are left, 3 and 4.
pub(crate) const LONG_LITERAL: u8 = 7;

/// The number of bits after those of the form that show the kind of a header's delimiter.
pub(crate) const KIND_BITS: u32 = 2;
/// The mask of these bits, shifted to the lowest places.
pub(crate) const KIND_MASK: u8 = (1 << KIND_BITS) - 1;
/// The place of the high bits. They have a part of a header's distance, or of the index of its close part.
pub(crate) const HIGH_AT: u32 = FORM_BITS + KIND_BITS;
/// The number of high bits.
pub(crate) const HIGH_BITS: u32 = 8 - HIGH_AT;
/// The mask of the high bits, shifted to the lowest places. It is also the largest number in them.
pub(crate) const HIGH_MASK: u8 = (1 << HIGH_BITS) - 1;

/// The number of low bits of the distance that are in the length of the open span, in the first format. A span of one word has room for
/// them.
pub(crate) const LOW_DISTANCE_BITS: u32 = 8;
/// The number of bits of the index of the close part that come before the number of bytes, in the third format.
pub(crate) const PART_BITS: u32 = 4;
/// The mask of these bits.
pub(crate) const PART_MASK: u16 = (1 << PART_BITS) - 1;

/// The number of low bits that show the kind of a literal in the short form. The other bits have the length of the suffix.
pub(crate) const SHORT_KIND_BITS: u32 = 4;
/// The mask of these bits.
pub(crate) const SHORT_KIND_MASK: u8 = (1 << SHORT_KIND_BITS) - 1;
/// The largest length in the other bits.
pub(crate) const MOST_SHORT_SUFFIX: u8 = 15;
