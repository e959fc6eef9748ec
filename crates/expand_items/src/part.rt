//! Splitting trees into items, or into statements.
ghost use Rattle.std.specs.Prelude.{◌≡◌, IfOk, option_map};
ghost use Rattle.tt.specs.Iters.{rest_of};
ghost use Rattle.tt.specs.Views.{trees_of};
ghost use Rattle.expand_items.specs.Parts.{Takes, is_at_let, statement_len, IsPart, AreParts};

use crate::attribute::attributes_len;
use crate::position::Siblings;
use mbe_grammar::reach;
use mbe_pattern::{GrammarFragment, is_at_punct, is_at_word, pass};
use std::alloc::{AllocError, Global};
use tt::{TokenTreesView, TtIter};

/// An item or a statement.
#[derive(Debug, Clone, Copy, PartialEq, Eq)]
pub struct Part {
    /// The number of its trees, with the `;` after a statement.
    pub len: usize,
    /// Whether it is a statement that is an expression.
    pub is_expression: bool,
}

// Returns the number of trees that the fragment takes, or zero if it takes none.
fn taken(alloc: Global, fragment: GrammarFragment, trees: TtIter<'_>) -> Result<usize, AllocError>
    ensures { IfOk result (Takes fragment (rest_of trees.entry)) }
{
    match reach(alloc, fragment, trees)? {
        Some(len) => Ok(len),
        None => Ok(0),
    }
}

// Returns whether `let` comes first, after attributes.
fn is_at_let(mut trees: TtIter<'_>) -> bool
    ensures { result ≡ is_at_let (rest_of trees.entry) }
{
    let attributes = attributes_len(trees.remaining().iter());
    pass(&mut trees, attributes);
    is_at_word(trees, "let")
}

// Returns the number of trees of a statement that takes `taken` trees.
fn statement_len(taken: usize, mut trees: TtIter<'_>) -> usize
    ensures { result ≡ statement_len taken (rest_of trees.entry) }
{
    pass(&mut trees, taken);
    if is_at_punct(trees, ';') {
        taken + 1
    } else {
        taken
    }
}

/// Returns the first item or statement of such siblings, if there is one.
pub(crate) fn part_in(
    alloc: Global,
    siblings: Siblings,
    trees: TokenTreesView<'_>,
) -> Result<Option<Part>, AllocError>
    ensures { IfOk result (IsPart siblings (trees_of trees.entry)) }
{
    let item = taken(alloc, GrammarFragment::Item, trees.iter())?;
    if item > 0 {
        return Ok(Some(Part {
            len: item,
            is_expression: false,
        }));
    }
    if siblings == Siblings::Items {
        return Ok(None);
    }
    let statement = taken(alloc, GrammarFragment::Stmt, trees.iter())?;
    if statement == 0 {
        return Ok(None);
    }
    Ok(Some(Part {
        len: statement_len(statement, trees.iter()),
        is_expression: !is_at_let(trees.iter()),
    }))
}

/// Splits trees into items or statements, one after the other; returns `None` if they are no such run.
pub fn parts(
    alloc: Global,
    siblings: Siblings,
    mut trees: TtIter<'_>,
) -> Result<Option<Vec<Part>>, AllocError>
    ensures { IfOk result (λ found. AreParts siblings (rest_of trees.entry) (option_map (λ it. it.items) found)) }
{
    let mut parts = Vec::new(alloc);
    'parts: while !trees.is_empty() {
        let Some(part) = part_in(alloc, siblings, trees.remaining())? else {
            return Ok(None);
        };
        pass(&mut trees, part.len);
        parts.push(part)?;
    }
    Ok(Some(parts))
}
