//! The definition that comes first among trees, if it may go.
ghost use Rattle.std.specs.Prelude.{◌≡◌, ◌+◌, ◌<◌, ◌^◌, IfOk, IfSome, option_map};
ghost use Rattle.tt.specs.Iters.{rest_of};
ghost use Rattle.expand_items.specs.Items.{definition_of};
ghost use Rattle.expand_items.specs.MacroRulesItems.{macro_rules_item_of};
ghost use Rattle.expand_unused.specs.Parts.{first_at, last_span, may_go, rules_from, rules_of};

use crate::choice::Choice;
use crate::part::Rules;
use crate::words::words_in;
use expand_items::{Definition, MacroRulesItem, macro_rules_item_in};
use mbe_pattern::pass;
use std::alloc::{AllocError, Global};
use syntax_edit::{begin_at, end_of, start_of};
use tt::{Leaf, Span, Symbol, TtIter};

/// The number of trees of a definition before the `;` that may be the last.
const BEFORE_SEMICOLON: usize = 4;

// Returns whether a definition of that name may go.
fn may_go(only: &Option<Symbol>, name: &Symbol) -> bool
    ensures { result ≡ may_go only.now name.now }
{
    match only {
        None => true,
        Some(it) => it == name,
    }
}

/// Returns the definition that comes first, with the attributes before it, if one is there and may go.
pub(crate) fn first_at<'a>(
    trees: TtIter<'a>,
    choice: &Choice,
    is_defined: bool,
) -> Option<MacroRulesItem<'a>>
    ensures first { option_map macro_rules_item_of result ≡ first_at choice.now is_defined (rest_of trees.entry) }
    ensures fits { IfSome result (λ it. it.attributes + it.definition.len < 2 ^ 64) }
{
    if !is_defined {
        return None;
    }
    let item = macro_rules_item_in(trees)?;
    if may_go(&choice.only, &item.definition.name.sym) {
        Some(item)
    } else {
        None
    }
}

// Returns the last span of the definition that comes first.
fn last_span(definition: &Definition<'_>, mut trees: TtIter<'_>) -> Span
    ensures { result ≡ last_span (definition_of definition.now) (rest_of trees.entry) }
{
    let close = definition.header.delimiter.close;
    if definition.len != BEFORE_SEMICOLON + 1 {
        return close;
    }
    pass(&mut trees, BEFORE_SEMICOLON);
    begin_at(&trees, close)
}

/// Returns the definition of these trees, which begin with that leaf.
pub(crate) fn rules_from(
    alloc: Global,
    item: MacroRulesItem<'_>,
    first: &Leaf,
    mut trees: TtIter<'_>,
) -> Result<Rules, AllocError>
    ensures { IfOk result (λ it. rules_of it ≡ rules_from (macro_rules_item_of item.entry) first.now (rest_of trees.entry)) }
{
    pass(&mut trees, item.attributes);
    let end = end_of(last_span(&item.definition, trees));
    let inside = words_in(alloc, item.definition.arms.remaining())?;
    Ok(Rules {
        name: item.definition.name.sym,
        start: start_of(*first.span()),
        end,
        inside,
    })
}
