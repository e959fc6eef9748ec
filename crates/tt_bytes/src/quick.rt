//! Reads the tree of a piece by the places of its values in the tables. The tree counts only if its own bytes are those of the piece, so
//! the code before that check only has to return some tree.
ghost use Rattle.std.specs.List.{IsDistinct};
ghost use Rattle.std.specs.Prelude.{◌≡◌, ℕ, List, bytes_eq, IfOk, IfSome, IsTrue};
ghost use Rattle.tt_base.specs.Forest.{Root};
ghost use Rattle.tt_bytes.specs.Behind.{IsMadeOf, IsStoredIn};
ghost use Rattle.tt_bytes.specs.Format.{AreBytesOf};
ghost use Rattle.tt_bytes.specs.Front.{held_in};
ghost use Rattle.tt_tables.specs.Uses.{same_part};

use crate::distinct::{all_differ, symbols_differ};
use crate::piece::Piece;
use crate::taking::Taking;
use crate::whole::are_whole;
use std::alloc::{AllocError, Global};
use tt::{Delimiter, SpanPart, Subtree, Symbol, TokenTree, TopSubtree, TtFault};
use tt_codec::Entry;
use tt_tables::{CountedTokens, Tables};

// The smallest number of bytes of a token.
const LEAST_TOKEN_BYTES: usize = 5;
// The last parts are those of the top's two spans.
const TOP_PARTS: usize = 2;

// Returns the header at the front of the packed bytes, and the bytes after it.
fn split_top<'a>(
    parts: &[SpanPart],
    symbols: &[Symbol],
    packed: &'a [u8],
) -> Option<(Subtree, &'a [u8])> {
    let Some((Entry::Header(header), rest)) = Entry::read(packed) else {
        return None;
    };
    match Tables::new(parts, symbols).subtree(header) {
        Some(TokenTree::Subtree(top)) => Some((top, rest)),
        _ => None,
    }
}

// Takes `count` tokens from the front of the bytes, or those before the first that does not fit.
#[inline(never)]
fn take_tokens<'a>(
    alloc: Global,
    tables: Tables<'a>,
    count: usize,
    from: &'a [u8],
) -> Result<Taking<'a>, AllocError>
    requires parts { IsDistinct same_part tables.parts.now }
    requires symbols { IsDistinct bytes_eq tables.symbols.now }
{
    let mut taking = Taking::new(alloc, tables, count, from)?;
    for _ in 0..count {
        taking.take_next();
        if taking.failed {
            return Ok(taking);
        }
    }
    Ok(taking)
}

// Returns the tree of the tokens under that top, if they are those of a tree.
fn tree_of_tokens(
    alloc: Global,
    top: Delimiter,
    taking: &Taking<'_>,
) -> Result<Option<TopSubtree>, AllocError> {
    if taking.failed || taking.tokens.len() > u32::MAX as usize {
        return Ok(None);
    }
    if !are_whole(alloc, top, &taking.tokens)? {
        return Ok(None);
    }
    match TopSubtree::from_interned(alloc, top, taking.counted()) {
        Ok(tree) => Ok(Some(tree)),
        Err(TtFault::Memory) => Err(AllocError),
        Err(_) => Ok(None),
    }
}

// Returns the tree of packed bytes and these tables, if the values of each table are all different and the bytes are those of some tree.
fn quick_tree(
    alloc: Global,
    parts: &[SpanPart],
    symbols: &[Symbol],
    packed: &[u8],
) -> Result<Option<TopSubtree>, AllocError> {
    let Some(below) = parts.len().checked_sub(TOP_PARTS) else {
        return Ok(None);
    };
    let tables = Tables::new(&parts[..below], symbols);
    if !all_differ(alloc, tables.parts)? || !symbols_differ(alloc, tables.symbols)? {
        return Ok(None);
    }
    let Some((top, rest)) = split_top(parts, symbols, packed) else {
        return Ok(None);
    };
    let count = top.len as usize;
    if count > rest.len() / LEAST_TOKEN_BYTES {
        return Ok(None);
    }
    let taking = take_tokens(alloc, tables, count, rest)?;
    tree_of_tokens(alloc, top.delimiter, &taking)
}

// Returns whether the piece holds exactly what is stored for the tree, and no bytes follow its end.
fn is_stored_in(tree: &TopSubtree, piece: &Piece<'_>) -> bool
    ensures is { IsTrue result → (bytes : List ℕ) → IsMadeOf (held_in piece.now) bytes → AreBytesOf tree.now bytes }
    ensures only { IsStoredIn tree.now (held_in piece.now) → IsTrue result }
{
    if !piece.behind.is_empty() || tree.packed_bytes() != piece.packed {
        return false;
    }
    if tree.span_part_table() != piece.parts.as_slice() {
        return false;
    }
    tree.symbol_table() == piece.symbols.as_slice()
}

/// Returns the tree of a piece if its bytes are those of the piece. May return `None` for the bytes of a tree, and then the caller reads
/// them token by token. Fails only if memory runs out.
pub(crate) fn stored_tree(
    alloc: Global,
    piece: &Piece<'_>,
) -> Result<Option<TopSubtree>, AllocError>
    ensures is { (bytes : List ℕ) → IsMadeOf (held_in piece.now) bytes → IfOk result (λ found. IfSome found (λ tree. AreBytesOf tree bytes)) }
    ensures only { (bytes : List ℕ) → IsMadeOf (held_in piece.now) bytes → IfOk result (λ found. IfSome found (λ tree. (other : Root) → AreBytesOf other bytes → other ≡ tree)) }
{
    let Some(tree) = quick_tree(alloc, &piece.parts, &piece.symbols, piece.packed)? else {
        return Ok(None);
    };
    if is_stored_in(&tree, piece) {
        return Ok(Some(tree));
    }
    Ok(None)
}
