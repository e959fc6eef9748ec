//! What the calls of `made` and `quiet` are lent.
use crate::{made, quiet};
use std::alloc::Global;
use test_sweep::{delimiter, flat_tree, header, leaf, long_tree, plus, plus_list, ten, tree_of};
use tt::{DelimiterKind, Leaf, TopSubtree, TtFault};
use tt_pack::Packed;

/// What the calls are lent.
#[derive(Clone, Copy)]
pub struct Prepared<'a> {
    pub alloc: Global,
    /// Braces over eight brackets.
    pub tree: &'a TopSubtree,
    /// A copy of that tree.
    pub copy: &'a TopSubtree,
    /// How it is stored.
    pub packed: &'a Packed,
    /// An invisible top over nothing.
    pub empty: &'a TopSubtree,
    /// An invisible top over ten leaves.
    pub ten: &'a TopSubtree,
    /// Parentheses over an ident and a plus.
    pub sum: &'a TopSubtree,
}

/// How that call of `made`, or else of `quiet`, ended. A list of trees is let go in one step, and each tree in many.
pub fn judged<R: Print>(
    rt: &R,
    alloc: Global,
    group: &str,
    call: &str,
) -> Result<&'static str, TtFault> {
    let trees = trees(alloc)?;
    let stored = stored(alloc)?;
    let ([tree, copy, empty, ten, sum], [packed]) = (trees.as_slice(), stored.as_slice()) else {
        return Err(TtFault::NoSuchPlace);
    };
    let given = Prepared {
        alloc,
        tree,
        copy,
        packed,
        empty,
        ten,
        sum,
    };
    match group {
        "made" => Ok(made::judged(rt, given, call)),
        _ => quiet::judged(rt, given, call),
    }
}

fn trees(alloc: Global) -> Result<Vec<TopSubtree>, TtFault> {
    let mut trees = Vec::new(alloc);
    trees.push(long_tree(alloc)?)?;
    trees.push(long_tree(alloc)?)?;
    trees.push(flat_tree(alloc, &[])?)?;
    trees.push(flat_tree(alloc, &ten())?)?;
    trees.push(sum(alloc)?)?;
    Ok(trees)
}

/// A list of one, which is what is stored of the long tree.
pub fn stored(alloc: Global) -> Result<Vec<Packed>, TtFault> {
    let mut stored = Vec::new(alloc);
    stored.push(Packed::pack(alloc, plus_list(alloc)?)?)?;
    Ok(stored)
}

// Parentheses over an ident and a plus.
fn sum(alloc: Global) -> Result<TopSubtree, TtFault> {
    let parentheses = delimiter(DelimiterKind::Parenthesis, 0, 0);
    let mut list = vec![in alloc; header(parentheses, 2)]?;
    list.push(leaf(alloc, "a", 1)?.into())?;
    list.push(plus(2).into())?;
    tree_of(alloc, list)
}
