//! Reads values of a fixed number of bytes from the front of bytes.
ghost use Rattle.std.specs.Prelude.{◌≤◌, length, IfSome};
ghost use Rattle.tt_bytes.specs.Front.{part_at, counts_at};
ghost use Rattle.tt_codec.specs.Read.{IsRead, word_at};

use tt::{ErasedFileAstId, FileId, SpanAnchor, SpanPart, SyntaxContext};

/// The numbers of parts, symbols and packed bytes.
#[derive(Clone, Copy)]
pub(crate) struct Counts {
    pub(crate) parts: u32,
    pub(crate) symbols: u32,
    pub(crate) bytes: u32,
}

/// Returns a number, and the bytes after it, or `None` if there are too few bytes.
pub(crate) fn split_number(from: &[u8]) -> Option<(u32, &[u8])>
    ensures value { IsRead (word_at from.now) result }
    ensures len { IfSome result (λ found. length found.1.now ≤ length from.now) }
{
    let (bytes, rest) = from.split_first_chunk::<4>()?;
    Some((u32::from_le_bytes(*bytes), rest))
}

/// Returns a part, and the bytes after it, or `None` if there are too few bytes.
pub(crate) fn split_part(from: &[u8]) -> Option<(SpanPart, &[u8])>
    ensures value { IsRead (part_at from.now) result }
    ensures len { IfSome result (λ found. length found.1.now ≤ length from.now) }
{
    let (file, rest) = split_number(from)?;
    let (ast, rest) = split_number(rest)?;
    let (ctx, rest) = split_number(rest)?;
    let anchor = SpanAnchor {
        file_id: FileId(file),
        ast_id: ErasedFileAstId(ast),
    };
    let part = SpanPart {
        anchor,
        ctx: SyntaxContext(ctx),
    };
    Some((part, rest))
}

/// Returns the three counts, and the bytes after them, or `None` if there are too few bytes.
pub(crate) fn split_counts(from: &[u8]) -> Option<(Counts, &[u8])>
    ensures value { IsRead (counts_at from.now) result }
    ensures len { IfSome result (λ found. length found.1.now ≤ length from.now) }
{
    let (parts, rest) = split_number(from)?;
    let (symbols, rest) = split_number(rest)?;
    let (bytes, rest) = split_number(rest)?;
    let counts = Counts {
        parts,
        symbols,
        bytes,
    };
    Some((counts, rest))
}
