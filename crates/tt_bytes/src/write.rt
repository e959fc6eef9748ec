//! Writes the bytes of a tree.
ghost use Rattle.std.specs.List.{AllByRecursion};
ghost use Rattle.std.specs.Prelude.{◌≡◌, ◌⊎◌, ◌<◌, ◌≤◌, ◌^◌, ◌++◌, length, IfOk, IfErr, OnOk, OnErr};
ghost use Rattle.tt_base.specs.declared.fault.TtFault.TheVariants.{Memory, TooManyBytes};
ghost use Rattle.tt_base.specs.Forest.{Root};
ghost use Rattle.tt_bytes.specs.Format.{number_bytes, part_bytes, parts_bytes, symbol_bytes, symbols_bytes, PartFits, TextFits, AreBytesOf, IsRefusal};

use std::alloc::Global;
use tt::{SpanPart, Symbol, TopSubtree, TtFault};

/// The first bytes of each piece: the format and its version.
pub(crate) const MARK: [u8; 4] = [0x74, 0x74, 1, 0];

// Appends the four bytes of a number, the lowest first.
#[tactic(auto, unfolding(crate::specs::Format::number_bytes))]
fn put_number(bytes: &mut Vec<u8>, number: u32) -> Result<(), TtFault>
    ensures ok { OnOk result (bytes.new.items ≡ bytes.old.items ++ number_bytes number) }
    ensures err { IfErr result (λ fault. fault ≡ Memory) }
{
    bytes.extend_from_slice(&number.to_le_bytes())?;
    Ok(())
}

// Appends the four bytes of a count. Fails with `TooManyBytes` if it is 2^32 or more.
fn put_count(bytes: &mut Vec<u8>, count: usize) -> Result<(), TtFault>
    ensures ok { OnOk result (bytes.new.items ≡ bytes.old.items ++ number_bytes count) }
    ensures fits { OnOk result (count < 2 ^ 32) }
    ensures err { IfErr result (λ fault. (fault ≡ Memory) ⊎ ((fault ≡ TooManyBytes) × (2 ^ 32 ≤ count))) }
{
    let Ok(number) = u32::try_from(count) else {
        return Err(TtFault::TooManyBytes);
    };
    put_number(bytes, number)
}

// Appends the bytes of a part.
#[tactic(auto, unfolding(crate::specs::Format::part_bytes))]
fn put_part(bytes: &mut Vec<u8>, part: &SpanPart) -> Result<(), TtFault>
    ensures ok { OnOk result (bytes.new.items ≡ bytes.old.items ++ part_bytes part.now) }
    ensures fits { PartFits part.now }
    ensures err { IfErr result (λ fault. fault ≡ Memory) }
{
    let file = part.anchor.file_id.0;
    let ast = part.anchor.ast_id.0;
    let ctx = part.ctx.0;
    put_number(bytes, file)?;
    put_number(bytes, ast)?;
    put_number(bytes, ctx)
}

// Appends the bytes of parts.
fn put_parts(bytes: &mut Vec<u8>, parts: &[SpanPart]) -> Result<(), TtFault>
    ensures ok { OnOk result (bytes.new.items ≡ bytes.old.items ++ parts_bytes parts.now) }
    ensures fits { OnOk result (AllByRecursion PartFits parts.now) }
    ensures err { IfErr result (λ fault. fault ≡ Memory) }
{
    for part in parts {
        put_part(bytes, part)?;
    }
    Ok(())
}

// Appends the bytes of a symbol.
fn put_symbol(bytes: &mut Vec<u8>, symbol: &Symbol) -> Result<(), TtFault>
    ensures ok { OnOk result (bytes.new.items ≡ bytes.old.items ++ symbol_bytes symbol.now) }
    ensures fits { OnOk result (TextFits symbol.now) }
    ensures err { IfErr result (λ fault. (fault ≡ Memory) ⊎ ((fault ≡ TooManyBytes) × (2 ^ 32 ≤ length symbol.now))) }
{
    let text = symbol.as_str().as_bytes();
    put_count(bytes, text.len())?;
    bytes.extend_from_slice(text)?;
    Ok(())
}

// Appends the bytes of symbols.
fn put_symbols(bytes: &mut Vec<u8>, symbols: &[Symbol]) -> Result<(), TtFault>
    ensures ok { OnOk result (bytes.new.items ≡ bytes.old.items ++ symbols_bytes symbols.now) }
    ensures fits { OnOk result (AllByRecursion TextFits symbols.now) }
    ensures err { IfErr result (λ fault. (fault ≡ Memory) ⊎ ((fault ≡ TooManyBytes) × (AllByRecursion TextFits symbols.now → ⊥))) }
{
    for symbol in symbols {
        put_symbol(bytes, symbol)?;
    }
    Ok(())
}

/// Returns the bytes of a tree. Fails if a count of the piece is 2^32 or more (`TooManyBytes`), or if memory runs out.
pub fn to_bytes(alloc: Global, tree: &TopSubtree) -> Result<Vec<u8>, TtFault>
    ensures ok { IfOk result (λ bytes. AreBytesOf tree.now bytes.items) }
    ensures only { IfOk result (λ bytes. (other : Root) → AreBytesOf other bytes.items → other ≡ tree.now) }
    ensures err { IfErr result (IsRefusal tree.now) }
{
    let parts = tree.span_part_table();
    let symbols = tree.symbol_table();
    let packed = tree.packed_bytes();
    let mut bytes = Vec::new(alloc);
    bytes.extend_from_slice(&MARK)?;
    put_count(&mut bytes, parts.len())?;
    put_count(&mut bytes, symbols.len())?;
    put_count(&mut bytes, packed.len())?;
    put_parts(&mut bytes, parts)?;
    put_symbols(&mut bytes, symbols)?;
    bytes.extend_from_slice(packed)?;
    Ok(bytes)
}
