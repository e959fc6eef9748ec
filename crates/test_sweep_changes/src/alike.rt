//! Whether two builders hold the same.
use test_sweep::span;
use tt::{Refused, Span, SubtreeBuilderRestorePoint, TopSubtree, TopSubtreeBuilder, TtFault};

// More than any builder here has open.
const MOST_OPEN: u8 = 8;

/// The id of the span that closes what is still open. No other span has it, so the tree shows what was open.
pub const MARK: u32 = 99;

/// Closes the innermost open subtree by that span, if there is one.
pub fn close_at(builder: &mut TopSubtreeBuilder, close_span: Span) -> Result<(), TtFault> {
    if builder.is_open() {
        builder.close(close_span)?;
    }
    Ok(())
}

// Closes all that is open by the mark.
fn close_all(builder: &mut TopSubtreeBuilder) -> Result<(), TtFault> {
    for _ in 0..MOST_OPEN {
        close_at(builder, span(MARK))?;
    }
    Ok(())
}

/// What `build` makes of a builder in which nothing is open, or `build_skip_top_subtree` if the name is that.
pub fn built(
    name: &str,
    builder: TopSubtreeBuilder,
) -> Result<TopSubtree, Refused<TopSubtreeBuilder>> {
    if builder.is_open() {
        return Err(Refused {
            fault: TtFault::NotOneSubtree,
            value: builder,
        });
    }
    match name {
        "build_skip_top_subtree" => builder.build_skip_top_subtree(),
        _ => builder.build(),
    }
}

/// Whether the point of that number is valid, and the tree that a copy of the builder makes once it is restored and the mark
/// has closed what is still open. A point that is not valid changes nothing.
pub fn restored(builder: &TopSubtreeBuilder, number: u64) -> Result<(bool, TopSubtree), TtFault> {
    let mut copy = builder.clone()?;
    let stood = copy.restore(SubtreeBuilderRestorePoint::from_number(number));
    close_all(&mut copy)?;
    Ok((stood, built("build", copy)?))
}

// Whether they count the same, and have taken as many points.
fn have_same_counts(left: &TopSubtreeBuilder, right: &TopSubtreeBuilder) -> bool {
    left.distinct_counts() == right.distinct_counts()
        && left.span_part_uses(&span(0)) == right.span_part_uses(&span(0))
        && left.points_taken() == right.points_taken()
}

/// Whether two builders have the same open subtrees and counts, build the same, and have the same points. The last number
/// is of a point that was not taken.
pub fn are_alike(left: &TopSubtreeBuilder, right: &TopSubtreeBuilder) -> Result<bool, TtFault> {
    if !have_same_counts(left, right) {
        return Ok(false);
    }
    for number in 0..left.points_taken().saturating_add(1) {
        if restored(left, number)? != restored(right, number)? {
            return Ok(false);
        }
    }
    Ok(true)
}
