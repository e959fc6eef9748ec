//! Restore points of a builder, and of a copy of it.
use crate::counts::{invisible, push_ident};
use crate::tokens::{holds, span};
use std::alloc::Global;
use std::test::Fail;
use tt::{DelimiterKind, SubtreeBuilderRestorePoint, TopSubtreeBuilder, TtFault};

// Points to restore one after the other, by their numbers, and for each whether it is valid, and then whether a subtree is open
// and how many names are used.
const ROWS: [(u64, (bool, bool, usize)); 3] = [
    (1, (true, true, 2)),
    (0, (true, false, 1)),
    (1, (false, false, 1)),
];

// An `a`, a point, a subtree that stays open, and in it a `b`, a point and a `c`.
fn fill(alloc: Global, builder: &mut TopSubtreeBuilder) -> Result<(), TtFault> {
    push_ident(alloc, builder, "a", 0)?;
    builder.restore_point()?;
    builder.open(DelimiterKind::Parenthesis, span(1))?;
    push_ident(alloc, builder, "b", 2)?;
    builder.restore_point()?;
    push_ident(alloc, builder, "c", 3)
}

// What is said of the point of that number.
fn behind(builder: &mut TopSubtreeBuilder, number: u64) -> (bool, bool, usize) {
    let stood = builder.restore(SubtreeBuilderRestorePoint::from_number(number));
    let (_parts, names) = builder.distinct_counts();
    (stood, builder.is_open(), names)
}

// Whether that is what the rows say.
fn is_in_rows(builder: &mut TopSubtreeBuilder) -> bool {
    for (number, said) in &ROWS {
        if behind(builder, *number) != *said {
            return false;
        }
    }
    true
}

// Whether it is so of a copy of a builder, and of the builder then.
fn are_in_rows(alloc: Global, builder: &mut TopSubtreeBuilder) -> Result<bool, TtFault> {
    fill(alloc, builder)?;
    let mut copy = builder.clone()?;
    Ok(is_in_rows(&mut copy) && is_in_rows(builder))
}

#[test]
fn points_of_a_copy(rt: HostRuntime) -> Result<(), Fail> {
    let mut builder = invisible(rt.alloc())?;
    holds(are_in_rows(rt.alloc(), &mut builder))
}
