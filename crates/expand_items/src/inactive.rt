//! Statements and items under a condition that is false.
ghost use Rattle.std.specs.Prelude.{◌≡◌, IfOk, length};
ghost use Rattle.tt.specs.Iters.{rest_of};
ghost use Rattle.tt.specs.Siblings.{list_of};
ghost use Rattle.expand_items.specs.Cfg.{known_of};
ghost use Rattle.expand_items.specs.Inactive.{IsInactive, begins_sign, is_part_inactive, is_rest_inactive};

use crate::attribute::{is_at_inner, is_attribute};
use crate::cfg::CfgOptions;
use crate::condition::{attributes_say, brackets_say};
use crate::part::part_in;
use crate::position::Position;
use mbe_pattern::{is_at_punct, pass};
use std::alloc::{AllocError, Global};
use tt::TtIter;

// Returns the number of these trees.
fn trees_len(mut trees: TtIter<'_>) -> usize
    ensures { result ≡ length (list_of (rest_of trees.entry)) }
{
    let mut len = 0;
    'trees: while !trees.is_empty() {
        trees.next();
        len += 1;
    }
    len
}

// Returns whether an inner attribute comes first that is false for all siblings.
fn is_rest_inactive(
    alloc: Global,
    options: &CfgOptions,
    mut trees: TtIter<'_>,
) -> Result<bool, AllocError>
    ensures { IfOk result (λ is_false. is_false ≡ is_rest_inactive (known_of options.now) (rest_of trees.entry)) }
{
    if !is_at_inner(trees.remaining().iter()) {
        return Ok(false);
    }
    pass(&mut trees, 2);
    Ok(brackets_say(alloc, options, trees)? == Some(false))
}

// Returns whether attributes come first that are false for the statement or the item behind them.
fn is_part_inactive(
    alloc: Global,
    options: &CfgOptions,
    trees: TtIter<'_>,
) -> Result<bool, AllocError>
    ensures { IfOk result (λ is_false. is_false ≡ is_part_inactive (known_of options.now) (rest_of trees.entry)) }
{
    if !is_attribute(trees.remaining().iter()) {
        return Ok(false);
    }
    Ok(attributes_say(alloc, options, trees)? == Some(false))
}

// Returns whether `#` comes first at a position, and the first attribute of a statement or an item may begin there.
fn begins_sign(position: Position, trees: TtIter<'_>) -> bool
    ensures { result ≡ begins_sign position (rest_of trees.entry) }
{
    position.is_start && !position.is_attributed && is_at_punct(trees, '#')
}

/// Returns the number of trees under a false condition that come first at a position, if there are some: all that are left after an inner
/// attribute, or those of a statement or an item.
pub(crate) fn inactive_len(
    alloc: Global,
    options: &CfgOptions,
    position: Position,
    trees: TtIter<'_>,
) -> Result<Option<usize>, AllocError>
    ensures { IfOk result (IsInactive (known_of options.now) position (rest_of trees.entry)) }
{
    if !begins_sign(position, trees.remaining().iter()) {
        return Ok(None);
    }
    if is_rest_inactive(alloc, options, trees.remaining().iter())? {
        return Ok(Some(trees_len(trees)));
    }
    if !is_part_inactive(alloc, options, trees.remaining().iter())? {
        return Ok(None);
    }
    match part_in(alloc, position.siblings(), trees.remaining())? {
        Some(part) => Ok(Some(part.len)),
        None => Ok(None),
    }
}
