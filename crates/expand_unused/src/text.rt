//! A text without the macros that it defines but does not need.
ghost use Rattle.std.specs.Prelude.{◌≡◌, map, option_map, IfOk, IfErr, string_bytes};
ghost use Rattle.tt.specs.Views.{trees_of};
ghost use Rattle.expand_unused.specs.Parts.{part_of};
ghost use Rattle.expand_unused.specs.Without.{AreParts, IsWithout, IsDropRulesError};

use crate::choice::Choice;
use crate::cutting::without;
use crate::fault::DropRulesError;
use crate::needing::unneeded;
use crate::part::Part;
use crate::places::places_in;
use crate::walk::parts_in;
use std::alloc::{AllocError, Global};
use syntax_edit::parse;
use tt::{Symbol, TokenTreesView};

// Returns the name, if there is one.
fn name_of(alloc: Global, only: Option<&str>) -> Result<Option<Symbol>, AllocError>
    ensures { IfOk result (λ it. it ≡ option_map (λ name. name.now) only.entry) }
{
    let Some(name) = only else {
        return Ok(None);
    };
    match Symbol::new(alloc, name) {
        Ok(name) => Ok(Some(name)),
        Err(_) => Err(AllocError),
    }
}

// Returns the parts of trees.
fn all_parts(
    alloc: Global,
    trees: TokenTreesView<'_>,
    choice: &Choice,
) -> Result<Vec<Part>, AllocError>
    ensures { IfOk result (λ parts. AreParts choice.now (trees_of trees.entry) (map part_of parts.items)) }
{
    let defined = places_in(alloc, trees)?;
    parts_in(alloc, trees, choice, &defined)
}

/// Returns the text without the definitions of macros whose names are not needed, and without the attributes right before them. If a name
/// is given, only definitions of that name may go. A name is needed if it occurs outside of the definitions that may go, or in the arms of
/// one whose name is needed, or if a definition of it is under `#[macro_export]`, unless `drops_exported`.
///
/// Time and memory are linear in the text.
pub fn without_rules(
    alloc: Global,
    text: &str,
    only: Option<&str>,
    drops_exported: bool,
) -> Result<String, DropRulesError>
    ensures ok { IfOk result (λ it. IsWithout (record { only = option_map (λ name. name.now) only.entry; drops_exported = drops_exported }) text.now (string_bytes it)) }
    ensures err { IfErr result (IsDropRulesError text.now) }
{
    let tree = parse(alloc, text)?;
    let choice = Choice {
        only: name_of(alloc, only)?,
        drops_exported,
    };
    let parts = all_parts(alloc, tree.token_trees(), &choice)?;
    let unneeded = unneeded(alloc, parts.as_slice())?;
    Ok(without(alloc, text, parts.as_slice(), &unneeded)?)
}
