//! Trees of flat lists: which hash alike, and an empty one whose top changes.
use crate::holds::holds;
use crate::lists::{braces, braces_over};
use crate::tables::span;
use std::alloc::Global;
use std::hash::{DefaultHasher, FoldHasher, Hash, Hasher};
use std::test::Fail;
use tt::{
    DelimSpan, DelimiterKind, Leaf, Punct, Spacing, SyntaxContext, TokenTree, TopSubtree, TtFault,
};

// The tree of the list.
fn tree_of(alloc: Global, tokens: Vec<TokenTree>) -> Result<TopSubtree, TtFault> {
    Ok(TopSubtree::from_serialized(alloc, tokens)?)
}

// The invisible tree over nothing.
fn over_nothing(alloc: Global) -> Result<TopSubtree, TtFault> {
    TopSubtree::empty(alloc, DelimSpan::from_single(span((0, 0, 0))))
}

#[test]
fn an_opaque_top(rt: HostRuntime) -> Result<(), Fail> {
    let before = over_nothing(rt.alloc())?;
    let mut tree = over_nothing(rt.alloc())?;
    tree.set_top_subtree_delimiter_kind(DelimiterKind::InvisibleOpaque);
    let bytes =
        b"\x00\x40\x00\x00\x01\x00\x00\x00\x00\x00\x00\x00\x25\x04\x40\x00\x00\x01\x00\x00\x00\x00\x00\x00\x00\x00\x00\x00\x00\x00\x00\x00\x00";
    holds(Ok(tree != before && tree.packed_bytes() == bytes.as_slice()))
}

// The semicolon of the braces in another context.
fn semicolon_of_another_context() -> TokenTree {
    let mut span = span((0, 3, 4));
    span.ctx = SyntaxContext(1);
    Leaf::from(Punct {
        char: ';',
        spacing: Spacing::Alone,
        span,
    })
    .into()
}

// The tree of the braces, which gets its kind later.
fn braces_set(alloc: Global) -> Result<TopSubtree, TtFault> {
    let mut tree = tree_of(alloc, braces(alloc)?)?;
    tree.set_top_subtree_delimiter_kind(DelimiterKind::Bracket);
    tree.set_top_subtree_delimiter_kind(DelimiterKind::Brace);
    Ok(tree)
}

// What the hashers start from.
const SEEDS: [u64; 3] = [0, 1, 0x9e37_79b9_7f4a_7c15];

// The hash of a tree from that seed.
fn hash_from<H: Hasher + Drop>(seed: u64, state: H, tree: &TopSubtree) -> u64 {
    let mut state = state;
    state.write_u64(seed);
    tree.hash(&mut state);
    state.finish()
}

// The hashes of a tree from that seed, under std's hasher and under the fast one.
fn hashes(tree: &TopSubtree, seed: u64) -> (u64, u64) {
    (
        hash_from(seed, DefaultHasher::new(), tree),
        hash_from(seed, FoldHasher::default(), tree),
    )
}

// Whether the first two trees hash alike from that seed, under both hashers, and the first and the last one apart.
fn hash_so(tree: &TopSubtree, again: &TopSubtree, other: &TopSubtree, seed: u64) -> bool {
    let (sip, fold) = hashes(tree, seed);
    let (other_sip, other_fold) = hashes(other, seed);
    hashes(again, seed) == (sip, fold) && other_sip != sip && other_fold != fold
}

// The blocks of the second tree's symbols are others than those of the first. The semicolon of the last tree has another context.
#[test]
fn hashes_from_seeds(rt: HostRuntime) -> Result<(), Fail> {
    let tree = tree_of(rt.alloc(), braces(rt.alloc())?)?;
    let again = braces_set(rt.alloc())?;
    let last = braces_over(rt.alloc(), semicolon_of_another_context())?;
    let other = tree_of(rt.alloc(), last)?;
    holds(Ok(tree == again && tree != other))?;
    for seed in &SEEDS {
        holds(Ok(hash_so(&tree, &again, &other, *seed)))?;
    }
    Ok(())
}
