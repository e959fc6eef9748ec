//! Calls that write a tree as one piece of bytes, and read it.
use std::alloc::Global;
use test_sweep::{Call, When, is_of, judge, plus_list, tree_of};
use tt::{TopSubtree, TtFault};
use tt_bytes::{BytesFault, from_bytes, to_bytes};

/// How that call of the group ended.
pub fn judged<R: Print>(rt: &R, alloc: Global, call: &str) -> Result<&'static str, TtFault> {
    let tree = tree_of(alloc, plus_list(alloc)?)?;
    let bytes = to_bytes(alloc, &tree)?;
    let mut call = OfPiece {
        call,
        alloc,
        tree: &tree,
        bytes: bytes.as_slice(),
    };
    Ok(judge(rt, &mut call))
}

// A call that is lent a tree, or its bytes.
#[derive(Clone, Copy)]
struct OfPiece<'a> {
    call: &'a str,
    alloc: Global,
    tree: &'a TopSubtree,
    bytes: &'a [u8],
}

impl Call for OfPiece<'_> {
    fn make(&mut self) -> Result<bool, TtFault> {
        match self.call {
            "to_bytes" => Ok(to_bytes(self.alloc, self.tree)?.as_slice() == self.bytes),
            "from_bytes" => Ok(self.read()? == *self.tree),
            _ => Ok(false),
        }
    }

    fn is_left(&self, _when: When) -> Result<bool, TtFault> {
        Ok(is_of(self.tree, &plus_list(self.alloc)?))
    }
}

impl OfPiece<'_> {
    // The tree of the bytes.
    fn read(&self) -> Result<TopSubtree, TtFault> {
        match from_bytes(self.alloc, self.bytes) {
            Ok(tree) => Ok(tree),
            Err(BytesFault::Memory) => Err(TtFault::Memory),
            Err(_) => Err(TtFault::NotOneSubtree),
        }
    }
}
