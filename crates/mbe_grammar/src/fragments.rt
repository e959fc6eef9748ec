//! How many trees a fragment of Rust's grammar takes.
ghost use Rattle.std.specs.Prelude.{◌≡◌, IfOk};
ghost use Rattle.tt.specs.Iters.{rest_of};
ghost use Rattle.tt.specs.Views.{trees_of};
ghost use Rattle.mbe_grammar.specs.Fragments.{name_of, Reaches, ReachesDeep, IsBlock};
ghost use Rattle.mbe_grammar.specs.Names.{start};
ghost use Rattle.mbe_grammar.specs.Table.{rust_rules};

use crate::derivation::{Derived, derive, take_deep};
use crate::machine::parse;
use crate::rust::RULES;
use crate::rust_known::KNOWN;
use crate::rust_marks::MARKS;
use crate::rust_names;
use crate::table::Table;
use crate::units::Units;
use mbe_pattern::GrammarFragment;
use std::alloc::{AllocError, Global};
use tt::{TokenTreesView, TtIter};

// Returns the index of a fragment's expression in the table.
fn start_of(fragment: GrammarFragment) -> usize
    ensures { result ≡ start (name_of fragment) }
{
    match fragment {
        GrammarFragment::Expr => rust_names::EXPRESSION,
        GrammarFragment::Expr2021 => rust_names::EXPRESSION_2021_FRAGMENT,
        GrammarFragment::Ty => rust_names::TYPE,
        GrammarFragment::Pat => rust_names::PATTERN_FRAGMENT,
        GrammarFragment::PatParam => rust_names::PATTERN_PARAM_FRAGMENT,
        GrammarFragment::Path => rust_names::TYPE_PATH,
        GrammarFragment::Stmt => rust_names::STATEMENT,
        GrammarFragment::Item => rust_names::ITEM,
        GrammarFragment::Meta => rust_names::META,
    }
}

/// Returns Rust's grammar as a table.
pub fn rust_table() -> Table<'static>
    ensures { result.rules.now ≡ rust_rules }
{
    Table::with_known(&RULES, &MARKS, &KNOWN)
}

/// Returns how many of the trees the fragment takes from the first on, by the grammar of docs/GRAMMAR.md; none if the trees do not begin
/// with such a fragment. Does not look into subtrees. Fails only if memory runs out.
pub fn reach(
    alloc: Global,
    fragment: GrammarFragment,
    trees: TtIter<'_>,
) -> Result<Option<usize>, AllocError>
    ensures { IfOk result (λ count. Reaches fragment (rest_of trees.entry) count) }
{
    let mut units = Units::with_room(alloc, trees.remaining())?;
    let mut frames = Vec::with_capacity(alloc, 16)?;
    let mut log = Vec::new(alloc);
    let taken = parse(
        false,
        rust_table(),
        start_of(fragment),
        &mut units,
        &mut frames,
        &mut log,
    )?;
    Ok(taken)
}

/// Returns how many of the trees the fragment takes from the first on, as `reach` does; none if one of the subtrees that it takes by a name
/// has other contents, at any depth. Reads each level once, without recursion. Fails only if memory runs out.
pub fn reach_deep(
    alloc: Global,
    fragment: GrammarFragment,
    trees: TtIter<'_>,
) -> Result<Option<usize>, AllocError>
    ensures { IfOk result (λ count. ReachesDeep fragment (rest_of trees.entry) count) }
{
    take_deep(alloc, rust_table(), start_of(fragment), trees.remaining())
}

/// Returns whether the trees are what the braces of the fragment `block` contain: statements without inner attributes. Reads each level once, without recursion. Fails only if memory runs
/// out.
pub fn is_block(alloc: Global, trees: TokenTreesView<'_>) -> Result<bool, AllocError>
    ensures { IfOk result (λ it. IsBlock (trees_of trees.entry) it) }
{
    match derive(alloc, rust_table(), rust_names::STATEMENTS, trees)? {
        Derived::Whole(_events) => Ok(true),
        Derived::Refused(_) => Ok(false),
    }
}
