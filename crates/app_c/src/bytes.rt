//! Trees in bytes.
ghost use Rattle.std.specs.Prelude.{IfOk, IfErr};
ghost use Rattle.tt_bytes.specs.Format.{AreBytesOf};
ghost use Rattle.app_c.specs.Bytes.{AreOfNoTree, IsNoInput};
ghost use Rattle.app_c.specs.Texts.{HasNoBytes};

use crate::failure::{Failure, bytes_failure, input_failure, limit_failure};
use std::alloc::Global;
use tt::TopSubtree;
use tt_bytes::{from_bytes, to_bytes};

/// Returns the tree that has these bytes.
pub(crate) fn tree_of_bytes(alloc: Global, bytes: &[u8]) -> Result<TopSubtree, Failure>
    ensures ok { IfOk result (λ tree. AreBytesOf tree bytes.now) }
    ensures err { IfErr result (AreOfNoTree bytes.now) }
{
    match from_bytes(alloc, bytes) {
        Ok(tree) => Ok(tree),
        Err(fault) => Err(bytes_failure(fault)),
    }
}

/// Returns the tree that has these bytes, which are those of an input.
pub(crate) fn input_of_bytes(alloc: Global, bytes: &[u8]) -> Result<TopSubtree, Failure>
    ensures ok { IfOk result (λ tree. AreBytesOf tree bytes.now) }
    ensures err { IfErr result (IsNoInput bytes.now) }
{
    match from_bytes(alloc, bytes) {
        Ok(tree) => Ok(tree),
        Err(fault) => Err(input_failure(fault)),
    }
}

/// Returns the bytes of the tree.
pub(crate) fn bytes_of_tree(alloc: Global, tree: &TopSubtree) -> Result<Vec<u8>, Failure>
    ensures ok { IfOk result (λ bytes. AreBytesOf tree.now bytes.items) }
    ensures err { IfErr result (HasNoBytes tree.now) }
{
    match to_bytes(alloc, tree) {
        Ok(bytes) => Ok(bytes),
        Err(fault) => Err(limit_failure(fault)),
    }
}
