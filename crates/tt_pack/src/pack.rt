//! Makes what is stored for a list.
ghost use Rattle.std.specs.Prelude.{◌≡◌, ◌+◌, ◌≤◌, ◌++◌, ◌∷◌, [], true, length, IfOk, IfErr};
ghost use Rattle.tt_back_buf.specs.Bytes.{bytes_of, room_of};
ghost use Rattle.tt_base.specs.declared.fault.TtFault.TheVariants.{Memory};
ghost use Rattle.tt_base.specs.declared.token_tree.TokenTree.TheVariants as token;
ghost use Rattle.tt_base.specs.Fits.{TokenInRange};
ghost use Rattle.tt_base.specs.Span.{part_of};
ghost use Rattle.tt_codec.specs.Header.{format_4, top_entry};
ghost use Rattle.tt_tables.specs.Meaning.{IsStored};
ghost use Rattle.tt_tables.specs.Stored.{most_parts, most_bytes};
ghost use Rattle.tt_pack.specs.Packed.{stored_of, root_of, IsStoreFault};
ghost use Rattle.tt_pack.specs.TablesOf.{AreTablesOf};

use crate::numbered::Numbered;
use crate::writer::Writer;
use std::alloc::Global;
use tt_base::{SpanPart, Subtree, Symbol, TtFault};
use tt_codec::HeaderEntry;

// Returns the bytes of a header and of all that is written below it, and the parts below it with the header's two at the end.
fn with_top(
    top: Subtree,
    writer: Writer,
    parts: Vec<SpanPart>,
) -> Result<(Vec<u8>, Vec<SpanPart>), TtFault>
    requires parts { length parts.items + 2 ≤ most_parts }
    requires bytes { length (bytes_of writer.bytes) ≤ most_bytes }
    requires room { 33 ≤ room_of writer.bytes }
    ensures range { IfOk result (λ found. TokenInRange (token.Subtree top)) }
    ensures bytes { IfOk result (λ found. found.0.items ≡ format_4 true (top_entry (length parts.items) top.delimiter top.len (length (bytes_of writer.bytes))) ++ bytes_of writer.bytes) }
    ensures parts { IfOk result (λ found. found.1.items ≡ parts.items ++ part_of top.delimiter.open_span ∷ part_of top.delimiter.close ∷ []) }
    ensures err { IfErr result (λ fault. fault ≡ Memory) }
{
    let entry = HeaderEntry::of_top(parts.len() as u32, top, writer.len() as u32);
    let bytes = writer.finish(entry).into_vec()?;
    let mut parts = parts;
    parts.push(SpanPart::from_span(&top.delimiter.open_span))?;
    parts.push(SpanPart::from_span(&top.delimiter.close))?;
    Ok((bytes, parts))
}

/// Returns the bytes, the parts and the symbols that are stored for a header and the tokens below it. Fails if the bytes below it are too
/// many, or if memory runs out.
pub(crate) fn write_tree<N: Numbered + Drop>(
    alloc: Global,
    top: Subtree,
    numbers: N,
) -> Result<(Vec<u8>, Vec<SpanPart>, Vec<Symbol>), TtFault>
    requires counted { top.len ≡ length (N.list numbers) }
    requires tables { AreTablesOf (N.list numbers) (N.tables numbers) }
    requires leads { N.leads numbers }
    ensures ok { IfOk result (λ found. IsStored (stored_of found.0.items found.1.items found.2.items (top.len + 1)) (root_of top (N.list numbers))) }
    ensures err { IfErr result (IsStoreFault (N.list numbers)) }
{
    let writer = Writer::write_all(alloc, &numbers, top.len as usize)?;
    // Drops the numbers before it copies the bytes, so the two never take memory at once.
    let (parts, symbols) = numbers.into_tables();
    let (bytes, parts) = with_top(top, writer, parts)?;
    Ok((bytes, parts, symbols))
}
