//! The grammar of whole files.
ghost use Rattle.std.specs.Prelude.{◌≡◌, slice_get, IfOk};
ghost use Rattle.tt.specs.Views.{trees_of};
ghost use Rattle.mbe_grammar.specs.Files.{IsFileAnswer, IsParsed, test_in};
ghost use Rattle.mbe_grammar.specs.Table.{rust_rules};

use crate::derivation::{Derived, derive, is_whole};
use crate::event::{Event, Level};
use crate::fragments::rust_table;
use crate::rule::Rule;
use crate::rust_names::ITEMS;
use crate::test::Test;
use crate::trying::{Wanted, find_wanted};
use std::alloc::{AllocError, Global};
use tt::TokenTreesView;

/// What is wrong in trees that are no file.
#[derive(Drop)]
pub struct SyntaxError<'t> {
    /// The first level in reading order whose trees its name does not take.
    pub level: Level<'t>,
    /// The farthest place on that level where its name tries a unit or ends, and the units that it tries there.
    pub wanted: Wanted,
}

/// The outcome of `parse_file`.
#[derive(Drop)]
pub enum ParsedFile<'t> {
    /// The trees are a file: its derivation.
    Whole(Vec<Event>),
    /// They are not.
    Refused(SyntaxError<'t>),
}

/// Reads the trees as a file, by the grammar of docs/GRAMMAR.md. Returns the derivation: the events in reading order, with the names that
/// took each token. If the trees are no file, it returns the first level that its name does not take, and what is wanted there. Reads each
/// level once, without recursion. Fails only if memory runs out.
pub fn parse_file<'t>(
    alloc: Global,
    trees: TokenTreesView<'t>,
) -> Result<ParsedFile<'t>, AllocError>
    ensures { IfOk result (λ it. IsParsed (trees_of trees.entry) it) }
{
    match derive(alloc, rust_table(), ITEMS, trees)? {
        Derived::Whole(events) => Ok(ParsedFile::Whole(events)),
        Derived::Refused(level) => {
            let wanted = find_wanted(alloc, rust_table(), level.name, level.trees)?;
            Ok(ParsedFile::Refused(SyntaxError { level, wanted }))
        }
    }
}

/// Returns whether the trees are a file, as `parse_file` says. Keeps no derivation, so it needs memory only for the open levels. Reads each
/// level once, without recursion. Fails only if memory runs out.
pub fn is_file(alloc: Global, trees: TokenTreesView<'_>) -> Result<bool, AllocError>
    ensures { IfOk result (λ answer. IsFileAnswer (trees_of trees.entry) answer) }
{
    is_whole(alloc, rust_table(), ITEMS, trees)
}

// Returns the test of the unit rule at that index; none if there is no such rule.
fn test_in(rules: &[Rule], unit: usize) -> Option<Test>
    ensures { result ≡ test_in (slice_get rules.now unit) }
{
    match rules.get(unit) {
        Some(Rule::Unit(test)) => Some(*test),
        _ => None,
    }
}

/// Returns the test of the unit rule at that index of Rust's table; none if there is no such rule.
pub fn test_of(unit: usize) -> Option<Test>
    ensures { result ≡ test_in (slice_get rust_rules unit) }
{
    test_in(rust_table().rules, unit)
}
