//! What attributes say of the statement or the item behind them: `#[cfg(..)]`, and `#[cfg_attr(..)]` that contains it.
ghost use Rattle.std.specs.Prelude.{◌≡◌, IfOk, Some, false, true, if◌then◌else◌};
ghost use Rattle.tt.specs.Iters.{rest_of};
ghost use Rattle.expand_items.specs.Cfg.{known_of};
ghost use Rattle.expand_items.specs.Conditions.{attributes_say, brackets_say, cfg_attr_says, cfg_says, comma_at, condition_says, is_open_condition, meta_says, metas_say};

use crate::attribute::{is_attribute, is_attribute_sign};
use crate::cfg::CfgOptions;
use crate::predicate::{both, either, negated};
use mbe_pattern::{is_at_punct, is_at_word, pass, take};
use std::alloc::{AllocError, Global};
use tt::{DelimiterKind, Leaf, TtIter};

// Returns the number of trees before the first `,`.
fn comma_at(mut trees: TtIter<'_>) -> usize
    ensures { result ≡ comma_at (rest_of trees.entry) }
{
    let mut len = 0;
    'trees: while !trees.is_empty() && !is_at_punct(trees.remaining().iter(), ',') {
        trees.next();
        len += 1;
    }
    len
}

// Returns what `cfg` says before these trees.
fn cfg_says(
    alloc: Global,
    options: &CfgOptions,
    mut behind: TtIter<'_>,
) -> Result<Option<bool>, AllocError>
    ensures { IfOk result (λ says. says ≡ cfg_says (known_of options.now) (rest_of behind.entry)) }
{
    let Ok((header, inside)) = behind.expect_subtree() else {
        return Ok(None);
    };
    if header.delimiter.kind != DelimiterKind::Parenthesis {
        return Ok(None);
    }
    options.check(alloc, inside)
}

// Returns what an attribute says that begins with the first of these trees.
fn meta_says(
    alloc: Global,
    options: &CfgOptions,
    mut trees: TtIter<'_>,
) -> Result<Option<bool>, AllocError>
    ensures { IfOk result (λ says. says ≡ meta_says (known_of options.now) (rest_of trees.entry)) }
{
    if is_at_word(trees.remaining().iter(), "cfg") {
        trees.next();
        return cfg_says(alloc, options, trees);
    }
    if is_at_word(trees, "cfg_attr") {
        return Ok(None);
    }
    Ok(Some(true))
}

// Returns what an attribute says that begins with the first of these trees, if one begins there.
fn first_says(
    alloc: Global,
    options: &CfgOptions,
    begins: bool,
    trees: TtIter<'_>,
) -> Result<Option<bool>, AllocError>
    ensures { IfOk result (λ says. says ≡ (if begins then meta_says (known_of options.now) (rest_of trees.entry) else Some true)) }
{
    if begins {
        meta_says(alloc, options, trees)
    } else {
        Ok(Some(true))
    }
}

// Returns what all attributes of a list say together that have a `,` before them.
fn metas_say(
    alloc: Global,
    options: &CfgOptions,
    mut trees: TtIter<'_>,
) -> Result<Option<bool>, AllocError>
    ensures { IfOk result (λ says. says ≡ metas_say (known_of options.now) false (rest_of trees.entry)) }
{
    let mut says = Some(true);
    let mut is_behind_comma = false;
    'trees: while !trees.is_empty() {
        let first = first_says(alloc, options, is_behind_comma, trees.remaining().iter())?;
        says = both(says, first);
        is_behind_comma = is_at_punct(trees.remaining().iter(), ',');
        pass(&mut trees, 1);
    }
    Ok(says)
}

// Returns what `cfg_attr` says before these trees.
fn cfg_attr_says(
    alloc: Global,
    options: &CfgOptions,
    mut behind: TtIter<'_>,
) -> Result<Option<bool>, AllocError>
    ensures { IfOk result (λ says. says ≡ cfg_attr_says (known_of options.now) (rest_of behind.entry)) }
{
    let Ok((header, inside)) = behind.expect_subtree() else {
        return Ok(None);
    };
    if header.delimiter.kind != DelimiterKind::Parenthesis {
        return Ok(None);
    }
    let mut rest = inside.remaining().iter();
    let predicate = take(&mut rest, comma_at(inside.remaining().iter()));
    let applies = options.check(alloc, predicate.iter())?;
    let metas = metas_say(alloc, options, inside)?;
    Ok(either(negated(applies), metas))
}

// Returns what the contents of the brackets of an attribute say.
fn condition_says(
    alloc: Global,
    options: &CfgOptions,
    mut inside: TtIter<'_>,
) -> Result<Option<bool>, AllocError>
    ensures { IfOk result (λ says. says ≡ condition_says (known_of options.now) (rest_of inside.entry)) }
{
    if is_at_word(inside.remaining().iter(), "cfg_attr") {
        inside.next();
        return cfg_attr_says(alloc, options, inside);
    }
    meta_says(alloc, options, inside)
}

/// Returns what the brackets say that come first: true if there are none.
pub(crate) fn brackets_say(
    alloc: Global,
    options: &CfgOptions,
    mut trees: TtIter<'_>,
) -> Result<Option<bool>, AllocError>
    ensures { IfOk result (λ says. says ≡ brackets_say (known_of options.now) (rest_of trees.entry)) }
{
    let Ok((header, inside)) = trees.expect_subtree() else {
        return Ok(Some(true));
    };
    if header.delimiter.kind != DelimiterKind::Bracket {
        return Ok(Some(true));
    }
    condition_says(alloc, options, inside)
}

/// Returns what the attributes that come first say together.
pub(crate) fn attributes_say(
    alloc: Global,
    options: &CfgOptions,
    mut trees: TtIter<'_>,
) -> Result<Option<bool>, AllocError>
    ensures { IfOk result (λ says. says ≡ attributes_say (known_of options.now) (rest_of trees.entry)) }
{
    let mut says = Some(true);
    'attributes: while is_attribute(trees.remaining().iter()) {
        trees.next();
        says = both(
            says,
            brackets_say(alloc, options, trees.remaining().iter())?,
        );
        pass(&mut trees, 1);
    }
    Ok(says)
}

/// Returns whether a condition, `#[cfg(..)]` or a `#[cfg_attr(..)]` that contains it, begins with a leaf, before these trees, and is not known
/// to be true. Looks at no tree unless the leaf is `#`. Fails only if memory runs out, which it takes for operators in operators.
pub fn is_open_condition(
    alloc: Global,
    options: &CfgOptions,
    leaf: &Leaf,
    trees: TtIter<'_>,
) -> Result<bool, AllocError>
    ensures { IfOk result (λ is_open. is_open ≡ is_open_condition (known_of options.now) leaf.now (rest_of trees.entry)) }
{
    if !is_attribute_sign(leaf) {
        return Ok(false);
    }
    Ok(brackets_say(alloc, options, trees)? != Some(true))
}
