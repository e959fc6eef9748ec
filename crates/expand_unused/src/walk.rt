//! The walk through a text's trees. It keeps the rest of each open subtree in memory, so only memory limits the depth of a tree.
ghost use Rattle.std.specs.Prelude.{◌≡◌, ◌++◌, IfOk, OnOk, map};
ghost use Rattle.tt.specs.Iters.{rest_of};
ghost use Rattle.tt.specs.Views.{trees_of};
ghost use Rattle.expand_items.specs.MacroRulesItems.{macro_rules_item_of};
ghost use Rattle.expand_unused.specs.Parts.{exported_words, first_at, first_parts, leaf_words, part_of, parts_of, passed_by, word};
ghost use Rattle.expand_unused.specs.Places.{defined_in};
ghost use Rattle.expand_unused.specs.Steps.{AreFirstNoted, IsLeafPassed, IsStep, IsSubtreePassed};

use crate::choice::Choice;
use crate::first::{first_at, rules_from};
use crate::part::Part;
use crate::words::leaf_word;
use expand_items::{MacroRulesItem, has_attribute};
use indexmap::IndexSet;
use std::alloc::{AllocError, Global};
use tt::{Leaf, TokenTreesView, TtElement, TtIter};

// The trees of a subtree that are left.
#[derive(Drop)]
struct Level<'a> {
    rest: TtIter<'a>,
    // the number of first trees that are part of a definition that is noted
    passed: usize,
    // the number of tokens from here to the end of all trees
    left: usize,
}

// The result of a step through a level.
#[derive(Drop)]
enum Step<'a> {
    // Nothing is left.
    Over,
    // The first tree was passed.
    Past,
    // A subtree was passed, and its trees are still to be walked.
    Into(Level<'a>),
}

// Notes the text of an ident.
fn note_leaf(parts: &mut Vec<Part>, leaf: Leaf) -> Result<(), AllocError>
    ensures { OnOk result (map part_of parts.new.items ≡ map part_of parts.old.items ++ map word (leaf_words leaf)) }
{
    if let Some(it) = leaf_word(leaf) {
        parts.push(Part::Word(it))?;
    }
    Ok(())
}

// Notes the name of a definition that is exported, unless exported ones may go too.
fn note_exported(
    parts: &mut Vec<Part>,
    choice: &Choice,
    item: &MacroRulesItem<'_>,
    trees: TtIter<'_>,
) -> Result<(), AllocError>
    ensures { OnOk result (map part_of parts.new.items ≡ map part_of parts.old.items ++ map word (exported_words choice.now (macro_rules_item_of item.now) (rest_of trees.entry))) }
{
    if !choice.drops_exported && has_attribute("macro_export", trees) {
        parts.push(Part::Word(item.definition.name.sym.clone()?))?;
    }
    Ok(())
}

// Notes what begins with the leaf that comes first among trees: a definition that may go if `is_defined`, or a word. Returns the number of
// trees behind the leaf that are part of the definition.
fn note_first(
    alloc: Global,
    parts: &mut Vec<Part>,
    choice: &Choice,
    is_defined: bool,
    leaf: Leaf,
    trees: TtIter<'_>,
) -> Result<usize, AllocError>
    ensures parts { OnOk result (map part_of parts.new.items ≡ map part_of parts.old.items ++ first_parts choice.now (first_at choice.now is_defined (rest_of trees.entry)) leaf (rest_of trees.entry)) }
    ensures passed { IfOk result (λ passed. passed ≡ passed_by (first_at choice.now is_defined (rest_of trees.entry))) }
{
    let Some(item) = first_at(trees.remaining().iter(), choice, is_defined) else {
        note_leaf(parts, leaf)?;
        return Ok(0);
    };
    let passed = (item.attributes + item.definition.len).saturating_sub(1);
    note_exported(parts, choice, &item, trees.remaining().iter())?;
    let rules = rules_from(alloc, item, &leaf, trees)?;
    parts.push(Part::Rules(rules))?;
    Ok(passed)
}

impl<'a> Level<'a> {
    // Notes what begins with the first tree, a leaf, unless it is part of a definition. Returns the number of trees behind the leaf that are
    // part of one.
    fn note(
        &self,
        alloc: Global,
        parts: &mut Vec<Part>,
        choice: &Choice,
        is_defined: bool,
        leaf: Leaf,
    ) -> Result<usize, AllocError>
        ensures { IfOk result (λ passed. AreFirstNoted choice.now is_defined leaf self.now.passed self.now parts.old.items passed parts.new.items) }
    {
        if self.passed > 0 {
            return Ok(self.passed - 1);
        }
        let trees = self.rest.remaining().iter();
        note_first(alloc, parts, choice, is_defined, leaf, trees)
    }

    // Passes the first tree, a leaf, and notes what begins with it.
    fn pass_leaf(
        &mut self,
        alloc: Global,
        parts: &mut Vec<Part>,
        choice: &Choice,
        defined: &IndexSet<usize>,
        leaf: Leaf,
    ) -> Result<(), AllocError>
        ensures { OnOk result (IsLeafPassed choice.now (defined_in defined.now) leaf self.old parts.old.items self.new parts.new.items) }
    {
        let is_defined = defined.contains(&self.left);
        self.passed = self.note(alloc, parts, choice, is_defined, leaf)?;
        self.left = self.left.saturating_sub(1);
        self.rest.next();
        Ok(())
    }

    // Passes the first tree, a subtree of so many tokens with these trees. Returns the level of these trees, unless they are part of a
    // definition.
    fn pass_subtree(&mut self, len: usize, children: TtIter<'a>) -> Option<Level<'a>>
        ensures { IsSubtreePassed len children.entry self.old result self.new }
    {
        let inside = if self.passed > 0 {
            None
        } else {
            Some(Level {
                rest: children,
                passed: 0,
                left: self.left.saturating_sub(1),
            })
        };
        self.passed = self.passed.saturating_sub(1);
        self.left = self.left.saturating_sub(1).saturating_sub(len);
        self.rest.next();
        inside
    }

    // Passes the first tree, and notes what it is.
    fn step(
        &mut self,
        alloc: Global,
        parts: &mut Vec<Part>,
        choice: &Choice,
        defined: &IndexSet<usize>,
    ) -> Result<Step<'a>, AllocError>
        ensures { IfOk result (λ step. IsStep choice.now (defined_in defined.now) self.old parts.old.items step self.new parts.new.items) }
    {
        match self.rest.peek() {
            None => Ok(Step::Over),
            Some(TtElement::Leaf(leaf)) => {
                self.pass_leaf(alloc, parts, choice, defined, leaf)?;
                Ok(Step::Past)
            }
            Some(TtElement::Subtree(header, children)) => {
                match self.pass_subtree(header.usize_len(), children) {
                    Some(inside) => Ok(Step::Into(inside)),
                    None => Ok(Step::Past),
                }
            }
        }
    }
}

/// Returns all parts of trees, in order. The set has the places of the definitions.
pub(crate) fn parts_in(
    alloc: Global,
    trees: TokenTreesView<'_>,
    choice: &Choice,
    defined: &IndexSet<usize>,
) -> Result<Vec<Part>, AllocError>
    ensures { IfOk result (λ parts. map part_of parts.items ≡ parts_of choice.now (defined_in defined.now) (trees_of trees.entry)) }
{
    let mut parts = Vec::new(alloc);
    let mut levels = Vec::new(alloc);
    levels.push(Level {
        rest: trees.iter(),
        passed: 0,
        left: trees.len(),
    })?;
    // The innermost level comes last.
    'levels: while let Some(mut level) = levels.pop() {
        match level.step(alloc, &mut parts, choice, defined)? {
            Step::Over => {}
            Step::Past => {
                levels.push(level)?;
            }
            Step::Into(inside) => {
                levels.push(level)?;
                levels.push(inside)?;
            }
        }
    }
    Ok(parts)
}
