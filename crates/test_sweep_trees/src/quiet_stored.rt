//! Calls on the stored form of a tree that take no memory.
use std::hash::{FoldHasher, Hash, Hasher};
use test_sweep::{braces, span};
use tt::{DelimSpan, DelimiterKind, TopSubtree};
use tt_pack::{Encodable, Packed, Reader};

/// Numbers as bytes.
pub fn numbers() -> bool {
    let mut bytes: [u8; 4] = [0, 0, 0, 0];
    0x12345678u32.write(&mut bytes);
    let word = u32::read(&bytes);
    '+'.write(&mut bytes);
    let char = char::read(&bytes);
    let mut half: [u8; 2] = [0, 0];
    0x1234u16.write(&mut half);
    let mut byte: [u8; 1] = [0];
    7u8.write(&mut byte);
    word == 0x12345678 && char == '+' && u16::read(&half) == 0x1234 && u8::read(&byte) == 7
}

/// A tree of 25 tokens, as it is stored, and the tree.
pub fn stored(packed: &Packed, tree: &TopSubtree) -> bool {
    packed.bytes() == tree.packed_bytes()
        && packed.parts() == tree.span_part_table()
        && packed.symbols() == tree.symbol_table()
        && packed.len() == tree.as_token_trees().len()
        && *packed == *packed
        && hash_of(packed) == hash_of(tree)
        && is_read(packed)
}

/// A hash, by a hasher that always gives the same.
pub fn hash_of<T: Hash>(value: &T) -> u64 {
    let mut hasher = FoldHasher::default();
    value.hash(&mut hasher);
    hasher.finish()
}

// The top is passed in one step, and the first token below it in another.
fn is_read(packed: &Packed) -> bool {
    let mut reader = Reader::start(packed);
    let Some((_top, mut below)) = reader.advance_skip() else {
        return false;
    };
    below.advance().is_some()
        && reader.place() == packed.bytes().len()
        && (reader.steps(), below.steps()) == (1, 2)
}

/// Whether the tree made of the stored form is that tree.
pub fn is_made(stored: Option<Packed>, tree: &TopSubtree) -> bool {
    match stored {
        Some(packed) => TopSubtree::from_packed(packed) == *tree,
        None => false,
    }
}

/// The kind and the spans of the top, changed in place.
pub fn set(stored: &mut [Packed], tree: &mut TopSubtree) -> bool {
    match stored.first_mut() {
        Some(packed) => set_both(packed, tree),
        None => false,
    }
}

// The same of what is stored of a tree, and of the tree.
fn set_both(packed: &mut Packed, tree: &mut TopSubtree) -> bool {
    let other = DelimSpan::from_single(span(9));
    packed.set_top_kind(DelimiterKind::Bracket);
    packed.set_top_spans(other);
    tree.set_top_subtree_delimiter_kind(DelimiterKind::Bracket);
    tree.set_top_subtree_delimiter_span(other);
    let top = tree.top_subtree().delimiter;
    top.kind == DelimiterKind::Bracket
        && top.delim_span() == other
        && top != braces()
        && packed.bytes() == tree.packed_bytes()
}
