//! The definitions of macros in trees, at all depths.
ghost use Rattle.std.specs.Prelude.{◌≡◌, IfOk, OnOk, map};
ghost use Rattle.tt.specs.Iters.{rest_of};
ghost use Rattle.expand_items.specs.Cfg.{known_of};
ghost use Rattle.expand_items.specs.Definitions.{defined_of, level_of, past_leaf, past_subtree, AreDefinitions, IsFound, IsInside};
ghost use Rattle.expand_items.specs.Positions.{begun};
ghost use Rattle.expand_items.specs.declared.position.Siblings.TheVariants.{Items};

use crate::attribute::item_at;
use crate::cfg::CfgOptions;
use crate::condition::is_open_condition;
use crate::item::{Definition, Item};
use crate::position::{Position, Siblings};
use std::alloc::{AllocError, Global};
use tt::{DelimiterKind, Leaf, TtElement, TtIter};

/// A definition of a macro, and its position.
#[derive(Drop)]
pub struct Defined<'a> {
    pub definition: Definition<'a>,
    pub position: Position,
}

// The trees of a subtree that are left.
#[derive(Drop)]
struct Level<'a> {
    rest: TtIter<'a>,
    position: Position,
    // the number of first trees that are passed without a look at what they contain
    passed: usize,
}

impl<'a> Level<'a> {
    // Returns the level before the first of some trees.
    fn begun(trees: TtIter<'a>, position: Position) -> Level<'a>
        ensures rest { result.rest ≡ trees.entry }
        ensures position { result.position ≡ position }
        ensures passed { result.passed ≡ 0 }
    {
        Level {
            rest: trees,
            position,
            passed: 0,
        }
    }

    // Adds the definition that comes first, unless it is passed. The trees of a definition, of a call or under a false condition are passed.
    fn find(
        &mut self,
        alloc: Global,
        options: &CfgOptions,
        root: &str,
        found: &mut Vec<Defined<'a>>,
    ) -> Result<(), AllocError>
        ensures found { OnOk result (IsFound (known_of options.now) root.now self.old (map defined_of found.old.items) self.new (map defined_of found.new.items)) }
        ensures level { OnOk result (self.new ≡ record self.old { passed = self.new.passed }) }
    {
        if self.passed > 0 {
            return Ok(());
        }
        let trees = self.rest.remaining().iter();
        let first = item_at(alloc, options, self.position, trees, root)?;
        match first {
            Item::Definition(definition) => {
                self.passed = definition.len;
                found.push(Defined {
                    definition,
                    position: self.position,
                })?;
            }
            Item::Call(call) => {
                self.passed = call.len;
            }
            Item::Inactive(len) => {
                self.passed = len;
            }
            Item::Other => {}
        }
        Ok(())
    }

    // Passes the first tree, a leaf.
    fn pass_leaf(
        &mut self,
        alloc: Global,
        options: &CfgOptions,
        leaf: &Leaf,
    ) -> Result<(), AllocError>
        ensures { OnOk result (level_of self.new ≡ past_leaf (known_of options.now) leaf.now (level_of self.old)) }
    {
        self.rest.next();
        self.passed = self.passed.saturating_sub(1);
        let behind = self.rest.remaining();
        let is_open = is_open_condition(alloc, options, leaf, behind.iter())?;
        self.position = self.position.behind_leaf(leaf, behind.iter(), is_open);
        Ok(())
    }

    // Passes the first tree, a subtree of that kind, and returns the level of its children unless these are passed too.
    fn pass_subtree(&mut self, kind: DelimiterKind, children: TtIter<'a>) -> Option<Level<'a>>
        ensures inside { IsInside kind children.entry self.old.position self.old.passed result }
        ensures level { level_of self.new ≡ past_subtree kind (level_of self.old) }
    {
        let inside = if self.passed > 0 {
            None
        } else {
            Some(Level::begun(children, self.position.first_in(kind)))
        };
        self.rest.next();
        self.passed = self.passed.saturating_sub(1);
        self.position = self.position.behind_subtree(kind);
        inside
    }
}

/// Returns the definitions in items, and in all that these contain, in order: not those under a false condition or in the brackets of
/// calls, nor those that the rules of other definitions write. The root's word may precede the name of a call.
pub fn definitions_in<'a>(
    alloc: Global,
    options: &CfgOptions,
    trees: TtIter<'a>,
    root: &str,
) -> Result<Vec<Defined<'a>>, AllocError>
    ensures { IfOk result (λ found. AreDefinitions (known_of options.now) root.now (begun Items) 0 (rest_of trees.entry) (map defined_of found.items)) }
{
    let mut found = Vec::new(alloc);
    let mut level = Level::begun(trees, Position::begun(Siblings::Items));
    // the outer levels, the innermost last
    let mut outer = Vec::new(alloc);
    'trees: loop {
        match level.rest.peek() {
            Some(TtElement::Leaf(leaf)) => {
                level.find(alloc, options, root, &mut found)?;
                level.pass_leaf(alloc, options, &leaf)?;
            }
            Some(TtElement::Subtree(header, children)) => {
                if let Some(inner) = level.pass_subtree(header.delimiter.kind, children) {
                    outer.push(std::mem::replace(&mut level, inner))?;
                }
            }
            None => match outer.pop() {
                Some(next) => level = next,
                None => return Ok(found),
            },
        }
    }
}
