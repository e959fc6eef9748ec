//! Reads a piece of bytes into its tables and its packed bytes.
ghost use Rattle.std.specs.Prelude.{◌≡◌, ◌⊎◌, ◌+◌, ◌≤◌, length, Ok, Err, IfOk, MatchResult};
ghost use Rattle.tt_bytes.specs.declared.fault.BytesFault.TheVariants.{Memory};
ghost use Rattle.tt_bytes.specs.Behind.{IsMadeOf};
ghost use Rattle.tt_bytes.specs.Front.{held, held_in};

use crate::fault::BytesFault;
use crate::front::{behind_mark, split_parts, split_symbols};
use crate::numbers::split_counts;
use std::alloc::Global;
use tt::{SpanPart, Symbol};

/// The tables and packed bytes of a piece, and the bytes after its end.
#[derive(Drop)]
pub(crate) struct Piece<'a> {
    pub(crate) parts: Vec<SpanPart>,
    pub(crate) symbols: Vec<Symbol>,
    pub(crate) packed: &'a [u8],
    pub(crate) behind: &'a [u8],
}

impl<'a> Piece<'a> {
    /// Returns what the bytes hold, or the first fault in them. Fails also if memory runs out.
    pub(crate) fn read(alloc: Global, bytes: &'a [u8]) -> Result<Piece<'a>, BytesFault>
        ensures value { MatchResult result (λ it. held bytes.now ≡ Ok (held_in it)) (λ fault. (fault ≡ Memory) ⊎ (held bytes.now ≡ Err fault)) }
        ensures whole { IfOk result (λ it. IsMadeOf (held_in it) bytes.now) }
        ensures len { IfOk result (λ it. length it.packed.now + length it.behind.now ≤ length bytes.now) }
    {
        let all = bytes.len();
        let marked = behind_mark(bytes)?;
        let Some((counts, rest)) = split_counts(marked) else {
            return Err(BytesFault::TooShort(all));
        };
        let (parts, rest) = split_parts(alloc, all, counts.parts, rest)?;
        let (symbols, rest) = split_symbols(alloc, all, counts.symbols, rest)?;
        let Some((packed, behind)) = rest.split_at_checked(counts.bytes as usize) else {
            return Err(BytesFault::TooShort(all));
        };
        Ok(Piece {
            parts,
            symbols,
            packed,
            behind,
        })
    }
}
