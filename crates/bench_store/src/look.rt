//! What a walk looks at in a token.
use std::hash::{FoldHasher, Hash, Hasher};
use tt::{Leaf, Span, Subtree, TokenTree};

// No offset is larger.
const LAST_OFFSET: u64 = u32::MAX as u64;

/// What a walk looks at in a token. Each call gives the start offset of the token's first span.
pub trait Look {
    fn token(token: &TokenTree) -> u64;

    fn leaf(leaf: &Leaf) -> u64;

    fn subtree(subtree: &Subtree) -> u64;
}

/// Looks at the start offset, so the compiler need not make the rest of the token.
pub struct AtStart;

/// Looks at the whole token, as a caller does that keeps or prints it.
pub struct AtWhole;

impl Look for AtStart {
    fn token(token: &TokenTree) -> u64 {
        start_of(&token.first_span())
    }

    fn leaf(leaf: &Leaf) -> u64 {
        start_of(leaf.span())
    }

    fn subtree(subtree: &Subtree) -> u64 {
        start_of(&subtree.delimiter.open_span)
    }
}

impl Look for AtWhole {
    fn token(token: &TokenTree) -> u64 {
        start_of_whole(token, &token.first_span())
    }

    fn leaf(leaf: &Leaf) -> u64 {
        start_of_whole(leaf, leaf.span())
    }

    fn subtree(subtree: &Subtree) -> u64 {
        start_of_whole(subtree, &subtree.delimiter.open_span)
    }
}

/// Where a span starts.
pub fn start_of(span: &Span) -> u64 {
    span.range.start().raw() as u64
}

// This is what `std::hint::black_box` would be for, which is the plain identity in this kit, so that the compiler sees
// through it. A function that is not inlined and may read all of a value needs all of it in memory. It reads the rest
// only at the last offset, which costs next to nothing, and the compiler cannot tell that no token begins there.
#[inline(never)]
fn start_of_whole<T: Hash>(whole: &T, first: &Span) -> u64 {
    let start = start_of(first);
    if start == LAST_OFFSET && hash_of(whole) == 0 {
        return 0;
    }
    start
}

#[inline(never)]
fn hash_of<T: Hash>(whole: &T) -> u64 {
    let mut hasher = FoldHasher::default();
    whole.hash(&mut hasher);
    hasher.finish()
}
