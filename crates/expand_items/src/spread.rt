//! Trees under conditions.
ghost use Rattle.std.specs.Prelude.{◌≡◌, OnOk, IfOk, IfErr, if◌then◌else◌};
ghost use Rattle.tt.specs.Building.{append};
ghost use Rattle.tt.specs.Forest.{end};
ghost use Rattle.tt.specs.Gluing.{after_trees};
ghost use Rattle.tt.specs.Iters.{rest_of};
ghost use Rattle.tt.specs.Views.{trees_of};
ghost use Rattle.expand_items.specs.Spreads.{IsNotPut, IsPutUnder, IsWanting, before, put_part, spread};
ghost use Rattle.expand_items.specs.Attributes.{conditions_of, is_at_condition};
ghost use Rattle.mbe_pattern.specs.Units.{front_trees};

use crate::attribute::{is_attribute, is_condition};
use crate::part::{Part, parts};
use crate::position::Siblings;
use mbe_pattern::take;
use std::alloc::Global;
use tt::{Delimiter, DelimiterKind, TokenTreesView, TopSubtreeBuilder, TtFault, TtIter};

/// The number of trees of an attribute.
const ATTRIBUTE_LEN: usize = 2;

// Adds an attribute, if it is a condition.
fn add_condition(
    attribute: TokenTreesView<'_>,
    builder: &mut TopSubtreeBuilder,
) -> Result<(), TtFault>
    ensures top { OnOk result (builder.new.top ≡ builder.old.top) }
    ensures fault { IfErr result (IsWanting (append (if is_at_condition (trees_of attribute.entry) then trees_of attribute.entry else end) builder.old.stack)) }
    ensures added { OnOk result (builder.new.stack ≡ append (if is_at_condition (trees_of attribute.entry) then trees_of attribute.entry else end) builder.old.stack) }
{
    if !is_condition(attribute.iter()) {
        return Ok(());
    }
    builder.extend_with_tt(attribute)
}

// Adds the conditions among attributes.
fn add_conditions(
    attributes: TokenTreesView<'_>,
    builder: &mut TopSubtreeBuilder,
) -> Result<(), TtFault>
    ensures top { OnOk result (builder.new.top ≡ builder.old.top) }
    ensures fault { IfErr result (IsWanting (append (conditions_of (trees_of attributes.entry)) builder.old.stack)) }
    ensures added { OnOk result (builder.new.stack ≡ append (conditions_of (trees_of attributes.entry)) builder.old.stack) }
{
    let mut trees = attributes.iter();
    'attributes: while is_attribute(trees.remaining().iter()) {
        let attribute = take(&mut trees, ATTRIBUTE_LEN);
        add_condition(attribute, builder)?;
    }
    Ok(())
}

// Adds the conditions among attributes before the part of a number. Adds none before the first part.
fn add_before(
    attributes: TokenTreesView<'_>,
    place: usize,
    builder: &mut TopSubtreeBuilder,
) -> Result<(), TtFault>
    ensures top { OnOk result (builder.new.top ≡ builder.old.top) }
    ensures fault { IfErr result (IsWanting (append (before (conditions_of (trees_of attributes.entry)) place) builder.old.stack)) }
    ensures added { OnOk result (builder.new.stack ≡ append (before (conditions_of (trees_of attributes.entry)) place) builder.old.stack) }
{
    if place == 0 {
        return Ok(());
    }
    add_conditions(attributes, builder)
}

// Adds a part, in braces if it is an expression.
fn add_part(
    braces: Delimiter,
    is_expression: bool,
    trees: TokenTreesView<'_>,
    builder: &mut TopSubtreeBuilder,
) -> Result<(), TtFault>
    ensures top { OnOk result (builder.new.top ≡ builder.old.top) }
    ensures fault { IfErr result (IsWanting (append (put_part braces is_expression (trees_of trees.entry)) builder.old.stack)) }
    ensures added { OnOk result (builder.new.stack ≡ append (put_part braces is_expression (trees_of trees.entry)) builder.old.stack) }
{
    if !is_expression {
        return builder.extend_with_tt(trees);
    }
    builder.open(DelimiterKind::Brace, braces.open_span)?;
    builder.extend_with_tt(trees)?;
    builder.close(braces.close)
}

// Adds the parts of trees, each but the first with the conditions among these attributes before it.
fn add_parts(
    braces: Delimiter,
    attributes: TokenTreesView<'_>,
    mut trees: TtIter<'_>,
    parts: &[Part],
    builder: &mut TopSubtreeBuilder,
) -> Result<(), TtFault>
    ensures top { OnOk result (builder.new.top ≡ builder.old.top) }
    ensures fault { IfErr result (IsWanting (append (spread braces (conditions_of (trees_of attributes.entry)) 0 parts.now (rest_of trees.entry)) builder.old.stack)) }
    ensures added { OnOk result (builder.new.stack ≡ append (spread braces (conditions_of (trees_of attributes.entry)) 0 parts.now (rest_of trees.entry)) builder.old.stack) }
{
    for place in 0..parts.len() {
        add_before(attributes, place, builder)?;
        let part = &parts[place];
        let its = take(&mut trees, part.len);
        add_part(braces, part.is_expression, its, builder)?;
    }
    Ok(())
}

/// Adds sibling trees that have these attributes before the first of them: before each other one it adds the
/// conditions among the attributes. An expression goes into braces with the spans of that delimiter. Returns
/// whether it adds them: if the trees are no run of items or statements, or there are none, it adds nothing.
/// The fault is `Memory`, or `TooManyTokens` if the builder would hold more than 4,294,967,295 tokens.
pub fn put_under(
    alloc: Global,
    siblings: Siblings,
    braces: Delimiter,
    attributes: TokenTreesView<'_>,
    trees: TokenTreesView<'_>,
    builder: &mut TopSubtreeBuilder,
) -> Result<bool, TtFault>
    ensures top { OnOk result (builder.new.top ≡ builder.old.top) }
    ensures fault { IfErr result (IsNotPut siblings braces (conditions_of (trees_of attributes.entry)) (trees_of trees.entry) builder.old.stack) }
    ensures put { IfOk result (λ is_put. IsPutUnder siblings braces (conditions_of (trees_of attributes.entry)) (trees_of trees.entry) is_put builder.old.stack builder.new.stack) }
{
    let Some(parts) = parts(alloc, siblings, trees.iter())? else {
        return Ok(false);
    };
    if parts.is_empty() {
        return Ok(false);
    }
    add_parts(braces, attributes, trees.iter(), parts.as_slice(), builder)?;
    Ok(true)
}
