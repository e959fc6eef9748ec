//! The places at which expressions of some names begin, in the trees of a file or of a part of one.
ghost use Rattle.std.specs.Prelude.{◌≡◌, ◌++◌, IfOk, OnOk, map, option_map};
ghost use Rattle.tt.specs.Iters.{rest_of};
ghost use Rattle.tt.specs.Moves.{after_tree};
ghost use Rattle.tt.specs.Views.{trees_of};
ghost use Rattle.mbe_grammar.specs.Beginnings.{begun, beginning_of, behind_trees, cursor_of, first_cursor, held, inside, is_among, outside, past_event, AreBeginnings, AreFirstBeginnings};

use crate::derivation::{Derivation, NextEvent};
use crate::event::Event;
use crate::fragments::rust_table;
use crate::table::Table;
use mbe_pattern::pass;
use std::alloc::{AllocError, Global};
use tt::{TokenTreesView, TtElement, TtIter};

/// The place at which an expression begins that took trees.
#[derive(Clone, Copy)]
pub struct Beginning<'t> {
    /// The index of the expression in the table.
    pub name: usize,
    /// The number of tokens, at all depths, from here to the end of all trees.
    pub left: usize,
    /// The trees from here to the end of the subtree that contains them.
    pub trees: TokenTreesView<'t>,
}

// A place among trees.
#[derive(Drop)]
struct Cursor<'t> {
    // the number of tokens from here to the end of all trees
    left: usize,
    // the trees that are left of the subtree that contains the place
    rest: TokenTreesView<'t>,
    // the trees behind each subtree around the place, the innermost last
    outer: Vec<TokenTreesView<'t>>,
}

// Returns whether a number is among some.
fn is_among(numbers: &[usize], wanted: usize) -> bool
    ensures { result ≡ is_among numbers.now wanted }
{
    numbers.iter().any(|number| *number == wanted)
}

// Passes the subtree that comes first, and returns its trees.
#[tactic(auto, using(crate::proofs::Entering::held_subtree, crate::proofs::Entering::held_leaf, crate::proofs::Entering::held_none))]
fn take_held<'t>(trees: &mut TtIter<'t>) -> TokenTreesView<'t>
    ensures held { trees_of result ≡ held (rest_of trees.old) }
    ensures rest { rest_of trees.new ≡ after_tree (rest_of trees.old) }
{
    match trees.next() {
        Some(TtElement::Subtree(_, children)) => children.remaining(),
        Some(TtElement::Leaf(_)) | None => trees.remaining(),
    }
}

impl<'t> Cursor<'t> {
    // Returns the place before the first of all trees.
    fn first(alloc: Global, trees: TokenTreesView<'t>) -> Cursor<'t>
        ensures { cursor_of result ≡ first_cursor (trees_of trees.entry) }
    {
        Cursor {
            left: trees.len(),
            rest: trees,
            outer: Vec::new(alloc),
        }
    }

    // Adds the expression that begins here with an event, if its name is among the wanted ones.
    fn add_begun(
        &self,
        wanted: &[usize],
        event: Event,
        found: &mut Vec<Beginning<'t>>,
    ) -> Result<(), AllocError>
        ensures { OnOk result (map beginning_of found.new.items ≡ map beginning_of found.old.items ++ begun wanted.now event (cursor_of self.now)) }
    {
        if let Event::Enter(name) = event {
            if is_among(wanted, name) {
                found.push(Beginning {
                    name,
                    left: self.left,
                    trees: self.rest,
                })?;
            }
        }
        Ok(())
    }

    // Passes so many trees.
    fn pass_trees(&mut self, count: usize)
        ensures { cursor_of self.new ≡ behind_trees count (cursor_of self.old) }
    {
        let mut trees = self.rest.iter();
        pass(&mut trees, count);
        let behind = trees.remaining();
        let passed = self.rest.len().saturating_sub(behind.len());
        self.left = self.left.saturating_sub(passed);
        self.rest = behind;
    }

    // Enters the subtree that comes first.
    fn enter(&mut self) -> Result<(), AllocError>
        ensures { OnOk result (cursor_of self.new ≡ inside (cursor_of self.old)) }
    {
        let mut trees = self.rest.iter();
        let held = take_held(&mut trees);
        self.outer.push(trees.remaining())?;
        self.rest = held;
        self.left = self.left.saturating_sub(1);
        Ok(())
    }

    // Leaves the innermost subtree that was entered.
    fn leave(&mut self)
        ensures { cursor_of self.new ≡ outside (cursor_of self.old) }
    {
        if let Some(rest) = self.outer.pop() {
            self.rest = rest;
        }
    }

    // Passes what an event of a derivation passes.
    fn pass_event(&mut self, event: Event) -> Result<(), AllocError>
        ensures { OnOk result (cursor_of self.new ≡ past_event event (cursor_of self.old)) }
    {
        match event {
            Event::Enter(_) | Event::Leave => {}
            Event::Token(count) => self.pass_trees(count),
            Event::Open => self.enter()?,
            Event::Close => self.leave(),
        }
        Ok(())
    }
}

/// Returns the places at which expressions of the wanted names begin, in reading order, if the trees are the expression at that index of the
/// table; `None` if they are not. Reads each level once, without recursion. Fails only if memory runs out.
pub fn beginnings<'t>(
    alloc: Global,
    table: Table<'_>,
    at: usize,
    wanted: &[usize],
    trees: TokenTreesView<'t>,
) -> Result<Option<Vec<Beginning<'t>>>, AllocError>
    ensures { IfOk result (λ found. AreBeginnings table.entry.rules.now at wanted.now (trees_of trees.entry) (option_map (λ it. map beginning_of it.items) found)) }
{
    let mut derivation = Derivation::new(alloc, table, at, trees);
    let mut cursor = Cursor::first(alloc, trees);
    let mut found = Vec::new(alloc);
    loop {
        match derivation.next_event()? {
            NextEvent::Event(event) => {
                cursor.add_begun(wanted, event, &mut found)?;
                cursor.pass_event(event)?;
            }
            NextEvent::End => return Ok(Some(found)),
            NextEvent::Refused(_) => return Ok(None),
        }
    }
}

/// Returns the places at which expressions of the wanted names of Rust's grammar begin, in reading order, by the first of some names that the
/// trees are; none if they are none of these. Reads each level once for each name, without recursion. Fails only if memory runs out.
pub fn beginnings_by_first<'t>(
    alloc: Global,
    names: &[usize],
    wanted: &[usize],
    trees: TokenTreesView<'t>,
) -> Result<Vec<Beginning<'t>>, AllocError>
    ensures { IfOk result (λ found. AreFirstBeginnings names.now wanted.now (trees_of trees.entry) (map beginning_of found.items)) }
{
    for name in names {
        if let Some(found) = beginnings(alloc, rust_table(), *name, wanted, trees)? {
            return Ok(found);
        }
    }
    Ok(Vec::new(alloc))
}
