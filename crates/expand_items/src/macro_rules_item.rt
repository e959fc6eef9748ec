//! Definitions of macros with the attributes before them, and their places in a text.
ghost use Rattle.std.specs.Prelude.{◌≡◌, IfOk, map, option_map};
ghost use Rattle.tt.specs.Iters.{rest_of};
ghost use Rattle.tt.specs.Views.{trees_of};
ghost use Rattle.expand_items.specs.MacroRulesItems.{ArePlaces, has_attribute, macro_rules_item_in, macro_rules_item_of};

use crate::attribute::{attributes_len, is_at_attribute_of, is_attribute};
use crate::item::{Definition, definition_in};
use mbe_grammar::{
    Beginning, ITEMS, LOOSE_MACRO_RULES_ITEM, MACRO_RULES_ITEM, TOKENS, beginnings_by_first,
};
use mbe_pattern::pass;
use std::alloc::{AllocError, Global};
use tt::{TokenTreesView, TtIter};

/// A definition of a macro with the attributes before it.
#[derive(Drop)]
pub struct MacroRulesItem<'a> {
    /// The number of trees of the attributes.
    pub attributes: usize,
    pub definition: Definition<'a>,
}

/// Returns the definition that comes first, behind the attributes that come first, if there is one.
pub fn macro_rules_item_in<'a>(mut trees: TtIter<'a>) -> Option<MacroRulesItem<'a>>
    ensures { option_map macro_rules_item_of result ≡ macro_rules_item_in (rest_of trees.entry) }
{
    let attributes = attributes_len(trees.remaining().iter());
    pass(&mut trees, attributes);
    let definition = definition_in(trees)?;
    Some(MacroRulesItem {
        attributes,
        definition,
    })
}

/// Returns whether one of the attributes that come first begins with a word.
pub fn has_attribute(word: &str, mut trees: TtIter<'_>) -> bool
    ensures { result ≡ has_attribute word.now (rest_of trees.entry) }
{
    while is_attribute(trees.remaining().iter()) {
        pass(&mut trees, 1);
        if is_at_attribute_of(word, trees.remaining().iter()) {
            return true;
        }
        pass(&mut trees, 1);
    }
    false
}

// Returns how many tokens come from each place to the end of all trees.
fn lefts(alloc: Global, found: &[Beginning<'_>]) -> Result<Vec<usize>, AllocError>
    ensures { IfOk result (λ places. places.items ≡ map (λ it. it.left) found.now) }
{
    let mut places = Vec::with_capacity(alloc, found.len())?;
    for it in found {
        places.push(it.left)?;
    }
    Ok(places)
}

/// Returns the places of the definitions of macros in the trees of a text, in order. A place is the number of tokens from the first attribute
/// before the definition, or else from the definition, to the end of the trees. The trees are read as a file, or as any tokens if they are no
/// file. The brackets of calls and what definitions contain are not read. Fails only if memory runs out.
pub fn macro_rules_places(
    alloc: Global,
    trees: TokenTreesView<'_>,
) -> Result<Vec<usize>, AllocError>
    ensures { IfOk result (λ places. ArePlaces (trees_of trees.entry) places.items) }
{
    let names = [ITEMS, TOKENS];
    let wanted = [MACRO_RULES_ITEM, LOOSE_MACRO_RULES_ITEM];
    let found = beginnings_by_first(alloc, &names, &wanted, trees)?;
    lefts(alloc, found.as_slice())
}
