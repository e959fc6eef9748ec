//! How often values are used in what a builder holds.
use crate::tokens::{holds, ident_leaf, span, span_with};
use std::alloc::Global;
use std::test::Fail;
use tt::{Delimiter, DelimiterKind, Leaf, Punct, Spacing, Symbol, TopSubtreeBuilder, TtFault};

/// A builder of an invisible top.
pub(crate) fn invisible(alloc: Global) -> Result<TopSubtreeBuilder, TtFault> {
    TopSubtreeBuilder::new(alloc, Delimiter::invisible_spanned(span(0)))
}

// Pushes the leaf.
fn push(builder: &mut TopSubtreeBuilder, leaf: Leaf) -> Result<(), TtFault> {
    Ok(builder.push(leaf)?)
}

/// Pushes an ident at that offset.
pub(crate) fn push_ident(
    alloc: Global,
    builder: &mut TopSubtreeBuilder,
    text: &str,
    start: u32,
) -> Result<(), TtFault> {
    push(builder, ident_leaf(alloc, text, start)?)
}

// The id of the part that is counted.
const COUNTED: u32 = 7;

// A comma of that part.
fn comma() -> Leaf {
    Leaf::from(Punct {
        char: ',',
        spacing: Spacing::Alone,
        span: span_with(COUNTED),
    })
}

// How often the part is used.
fn uses(builder: &TopSubtreeBuilder) -> usize {
    builder.span_part_uses(&span_with(COUNTED))
}

// How often the part is used before a subtree opens with it, then, and behind a restore that leaves the subtree.
fn uses_in_turn(builder: &mut TopSubtreeBuilder) -> Result<[usize; 3], TtFault> {
    let before = uses(builder);
    let point = builder.restore_point()?;
    builder.open(DelimiterKind::Parenthesis, span_with(COUNTED))?;
    let opened = uses(builder);
    builder.restore(point);
    Ok([before, opened, uses(builder)])
}

// Whether they are counted so behind no comma, one and two.
fn are_counted_back(builder: &mut TopSubtreeBuilder) -> Result<bool, TtFault> {
    for uses in &[[0, 1, 0], [1, 2, 1], [2, 3, 2]] {
        if uses_in_turn(builder)? != *uses {
            return Ok(false);
        }
        push(builder, comma())?;
    }
    Ok(true)
}

#[test]
fn uses_behind_a_restore(rt: HostRuntime) -> Result<(), Fail> {
    let mut builder = invisible(rt.alloc())?;
    holds(are_counted_back(&mut builder))
}

// How often the ident is used, and how many names the builder uses.
fn names(builder: &TopSubtreeBuilder, ident: &Symbol) -> (usize, usize) {
    let (_parts, names) = builder.distinct_counts();
    (builder.symbol_uses(ident), names)
}

// A `b` goes to the copy of a builder that holds an `a`, and then a `c` and two `b` to the builder.
fn push_apart(
    alloc: Global,
    builder: &mut TopSubtreeBuilder,
    copy: &mut TopSubtreeBuilder,
) -> Result<(), TtFault> {
    push_ident(alloc, copy, "b", 1)?;
    push_ident(alloc, builder, "c", 1)?;
    push_ident(alloc, builder, "b", 2)?;
    push_ident(alloc, builder, "b", 3)
}

// Whether each of the two counts by itself what it gets behind the `a`.
fn count_apart(
    alloc: Global,
    builder: &mut TopSubtreeBuilder,
    copy: &mut TopSubtreeBuilder,
) -> Result<bool, TtFault> {
    let b = Symbol::new(alloc, "b")?;
    let are_alike = names(builder, &b) == (0, 1) && names(copy, &b) == (0, 1);
    push_apart(alloc, builder, copy)?;
    Ok(are_alike && names(builder, &b) == (2, 3) && names(copy, &b) == (1, 2))
}

// Whether a builder and its copy do.
fn has_a_copy(alloc: Global, builder: &mut TopSubtreeBuilder) -> Result<bool, TtFault> {
    push_ident(alloc, builder, "a", 0)?;
    let mut copy = builder.clone()?;
    count_apart(alloc, builder, &mut copy)
}

#[test]
fn a_copy_counts_by_itself(rt: HostRuntime) -> Result<(), Fail> {
    let mut builder = invisible(rt.alloc())?;
    holds(has_a_copy(rt.alloc(), &mut builder))
}
