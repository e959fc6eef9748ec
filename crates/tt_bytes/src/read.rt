//! Reads bytes into their tree.
ghost use Rattle.std.specs.Prelude.{◌≡◌, ◌⊎◌, IfOk, IfErr};
ghost use Rattle.tt_base.specs.Forest.{Root};
ghost use Rattle.tt_bytes.specs.declared.fault.BytesFault.TheVariants.{Memory, NoTree};
ghost use Rattle.tt_bytes.specs.Faults.{IsFaultOf};
ghost use Rattle.tt_bytes.specs.Format.{AreBytesOf, AreBytesOfNone};

use crate::compare::{are_bytes_of, common_length};
use crate::decode::tokens_of;
use crate::fault::BytesFault;
use crate::piece::Piece;
use crate::quick::stored_tree;
use crate::write::to_bytes;
use std::alloc::Global;
use tt::{TopSubtree, TtFault};
use tt_tables::Tables;

// Returns why the tokens of all packed bytes are those of no tree that has bytes.
fn fault_of(fault: TtFault, end: usize) -> BytesFault
    ensures memory { fault ≡ TtFault.Memory → result ≡ Memory }
    ensures other { (fault ≡ TtFault.Memory → ⊥) → result ≡ NoTree end }
{
    match fault {
        TtFault::Memory => BytesFault::Memory,
        _ => BytesFault::NoTree(end),
    }
}

/// Returns the tree of these bytes. It is the only tree with these bytes. Fails if they are the bytes of no tree, with the first byte
/// that shows it, or if memory runs out.
pub fn from_bytes(alloc: Global, bytes: &[u8]) -> Result<TopSubtree, BytesFault>
    ensures ok { IfOk result (λ tree. AreBytesOf tree bytes.now) }
    ensures only { IfOk result (λ tree. (other : Root) → AreBytesOf other bytes.now → other ≡ tree) }
    ensures err { IfErr result (IsFaultOf bytes.now) }
    ensures none { IfErr result (λ fault. (fault ≡ Memory) ⊎ AreBytesOfNone bytes.now) }
{
    let piece = Piece::read(alloc, bytes)?;
    if let Some(tree) = stored_tree(alloc, &piece)? {
        return Ok(tree);
    }
    let end = bytes.len() - piece.behind.len();
    let tables = Tables::new(piece.parts.as_slice(), piece.symbols.as_slice());
    let tokens = tokens_of(alloc, tables, end - piece.packed.len(), piece.packed)?;
    let tree = match TopSubtree::from_serialized(alloc, tokens) {
        Ok(tree) => tree,
        Err(refused) => return Err(fault_of(refused.fault, end)),
    };
    if are_bytes_of(&tree, bytes) {
        return Ok(tree);
    }
    let written = match to_bytes(alloc, &tree) {
        Ok(written) => written,
        Err(fault) => return Err(fault_of(fault, end)),
    };
    let at = common_length(bytes, written.as_slice());
    Err(BytesFault::StoredOtherwise(at))
}
