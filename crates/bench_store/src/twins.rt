//! Trees, and trees that equal them.
use crate::error::BenchError;
use crate::items::{Texts, items};
use crate::turns::LapSum;
use std::alloc::Global;
use tt::{TokenTree, TopSubtree, TtFault};

/// Two equal trees of each list, which are used in turn, so that no round finds just what the one before it left in the
/// caches.
#[derive(Drop)]
pub struct Twins {
    first: Vec<TopSubtree>,
    second: Vec<TopSubtree>,
}

/// A tree, and one that equals it.
#[derive(Clone, Copy)]
pub struct Pair<'a> {
    pub tree: &'a TopSubtree,
    pub twin: &'a TopSubtree,
}

impl Twins {
    /// The trees of the lists, twice. Twins share no block but those of their texts, and these only if texts are shared;
    /// else the lines of the lists are read once more. `NotOneSubtree` if there are no lists.
    pub fn new(
        alloc: Global,
        lists: &[Vec<TokenTree>],
        lines: &[u8],
        texts: Texts,
    ) -> Result<Twins, BenchError> {
        if lists.is_empty() {
            return Err(BenchError::Fault(TtFault::NotOneSubtree));
        }
        let first = packed_all(alloc, lists)?;
        match second(alloc, &first, lines, texts) {
            Ok(second) => Ok(Twins { first, second }),
            Err(error) => Err(error),
        }
    }

    /// One tree of each list.
    pub fn trees(&self) -> &[TopSubtree] {
        &self.first
    }

    /// The sum of a lap over the lists.
    pub fn lap(&self) -> LapSum {
        LapSum::new(self.first.len())
    }

    /// The first tree of each list with its twin, and then the second with its.
    pub fn pairs(&self, alloc: Global) -> Result<Vec<Pair<'_>>, TtFault> {
        let mut pairs = Vec::new(alloc);
        push_pairs(&mut pairs, &self.first, &self.second)?;
        push_pairs(&mut pairs, &self.second, &self.first)?;
        Ok(pairs)
    }
}

// The twins of the trees.
fn second(
    alloc: Global,
    first: &[TopSubtree],
    lines: &[u8],
    texts: Texts,
) -> Result<Vec<TopSubtree>, BenchError> {
    match texts {
        Texts::Shared => Ok(copies(alloc, first)?),
        Texts::Apart => Ok(packed_all(alloc, &items(alloc, lines, texts)?)?),
    }
}

// Each tree with its twin, behind what is there.
fn push_pairs<'a>(
    pairs: &mut Vec<Pair<'a>>,
    trees: &'a [TopSubtree],
    twins: &'a [TopSubtree],
) -> Result<(), TtFault> {
    for (tree, twin) in trees.iter().zip(twins.iter()) {
        pairs.push(Pair { tree, twin })?;
    }
    Ok(())
}

/// A copy of each tree.
pub fn copies(alloc: Global, trees: &[TopSubtree]) -> Result<Vec<TopSubtree>, TtFault> {
    let mut copies = Vec::new(alloc);
    for tree in trees {
        copies.push(tree.clone(alloc)?)?;
    }
    Ok(copies)
}

// The trees of the lists, or why one is refused.
fn packed_all(alloc: Global, lists: &[Vec<TokenTree>]) -> Result<Vec<TopSubtree>, TtFault> {
    let mut trees = Vec::new(alloc);
    for list in lists {
        trees.push(packed(alloc, list.to_vec(alloc)?)?)?;
    }
    Ok(trees)
}

/// The tree of a list, or why the list is refused.
pub fn packed(alloc: Global, list: Vec<TokenTree>) -> Result<TopSubtree, TtFault> {
    match TopSubtree::from_serialized(alloc, list) {
        Ok(tree) => Ok(tree),
        Err(refused) => Err(refused.fault),
    }
}
