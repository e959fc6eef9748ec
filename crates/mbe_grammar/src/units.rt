//! The units of sibling trees. Each is decoded once, when it is first reached.
ghost use Rattle.std.specs.Prelude.{◌≡◌, ◌+◌, ◌++◌, ◌∷◌, ◌<◌, ◌≤◌, ◌^◌, [], length, map, IfOk};
ghost use Rattle.tt.specs.Forest.{size};
ghost use Rattle.tt.specs.Gluing.{after_trees};
ghost use Rattle.tt.specs.Siblings.{is_end};
ghost use Rattle.tt.specs.Views.{trees_of};
ghost use Rattle.mbe_grammar.specs.Decoded.{AreDecoded, AreDecoded-prop};

use crate::entry::Entry;
use crate::here::Here;
use crate::known::{Glance, Known, look};
use crate::list::put;
use crate::test::Test;
use crate::unit::Unit;
use std::alloc::{AllocError, Global};
use tt::TokenTreesView;

/// The units that begin at the first of some trees, as far as they were reached.
#[derive(Drop)]
pub(crate) struct Units<'t> {
    trees: TokenTreesView<'t>,
    // the trees behind those that were reached
    behind: TokenTreesView<'t>,
    reached: Vec<Here<'t>>,
    // the kind of the unit that was reached last
    kind: u32,
    ghost fits: { size (trees_of trees) < 2 ^ 64 },
    ghost are_decoded: { AreDecoded (trees_of trees) reached.items (trees_of behind) } by { AreDecoded-prop (trees_of trees) reached.items (trees_of behind) },
}

impl<'t> Units<'t> {
    ghost use Rattle.mbe_grammar.specs.Known.{glance_at};
    ghost use Rattle.mbe_grammar.specs.Places.{position_of, trees_in, IsDecoded};
    ghost use Rattle.mbe_grammar.specs.Positions.{takes};
    ghost use Rattle.mbe_grammar.specs.Running.{answer_at, Extends};

    /// Returns the units of these trees, of which none is decoded.
    pub fn new(alloc: Global, trees: TokenTreesView<'t>) -> Units<'t>
        ensures { trees_in result ≡ trees_of trees.entry }
    {
        Units {
            trees,
            behind: trees,
            reached: Vec::new(alloc),
            kind: 0,
        }
    }

    /// Returns the same, with room for some. Fails only if memory runs out.
    pub fn with_room(alloc: Global, trees: TokenTreesView<'t>) -> Result<Units<'t>, AllocError>
        ensures { IfOk result (λ units. trees_in units ≡ trees_of trees.entry) }
    {
        Ok(Units {
            trees,
            behind: trees,
            reached: Vec::with_capacity(alloc, 8)?,
            kind: 0,
        })
    }

    /// Turns to these trees, of which no unit is decoded.
    pub fn restart(&mut self, trees: TokenTreesView<'t>)
        ensures { trees_in self.new ≡ trees_of trees.entry }
    {
        self.reached.truncate(0);
        self.trees = trees;
        self.behind = trees;
    }

    // Decodes the next unit.
    fn decode(&mut self) -> Result<(), AllocError>
        ensures same { trees_in self.new ≡ trees_in self.old }
        ensures more { IfOk result (λ _. length self.new.reached.items ≡ length self.old.reached.items + 1) }
    {
        let rest = self.behind;
        let mut trees = rest.iter();
        let unit = Unit::take(&mut trees);
        let here = Here {
            rest,
            unit,
            kind: unit.kind(),
        };
        put(&mut self.reached, here)?;
        self.behind = trees.remaining();
        Ok(())
    }

    /// Goes to the unit after that many trees, and decodes it and those before it if they were not. Fails only if memory runs out.
    #[inline(always)]
    pub fn reach(&mut self, passed: usize) -> Result<(), AllocError>
        ensures same { trees_in self.new ≡ trees_in self.old }
        ensures decoded { IfOk result (λ _. IsDecoded self.new passed) }
    {
        while self.reached.len() <= passed {
            self.decode()?;
        }
        self.kind = self.here(passed).kind;
        Ok(())
    }

    // Returns the unit after that many trees, which was decoded.
    #[inline(always)]
    fn here(&self, passed: usize) -> &Here<'t>
        requires within { passed < length self.now.reached.items }
        ensures { trees_of result.now.rest ≡ after_trees passed (trees_in self.now) }
    {
        &self.reached[passed]
    }

    /// Returns what the expression at that index of a table does after that many trees.
    #[inline(always)]
    pub fn glance(&self, known: &[Known], at: usize, passed: usize) -> Glance
        requires decoded { IsDecoded self.now passed }
        ensures { result ≡ glance_at known.now at (position_of (trees_in self.now) [] passed) }
    {
        look(known, at, self.kind)
    }

    /// Returns whether no tree is left after that many.
    pub fn is_at_end(&self, passed: usize) -> bool
        requires decoded { IsDecoded self.now passed }
        ensures { result ≡ is_end (after_trees passed (trees_in self.now)) }
    {
        self.here(passed).rest.is_empty()
    }

    /// Takes the first unit if it passes the test, and adds its entry to the log if `noting`. Returns whether it passes. Fails only if
    /// memory runs out.
    #[inline(never)]
    pub fn take(
        &mut self,
        noting: bool,
        test: Test,
        here: &mut usize,
        log: &mut Vec<Entry<'t>>,
    ) -> Result<bool, AllocError>
        requires decoded { IsDecoded self.now here.now }
        ensures answer { IfOk result (λ passes. answer_at (position_of (trees_in self.old) log.new.items here.new) passes ≡ takes noting test (position_of (trees_in self.old) log.old.items here.old)) }
        ensures more { Extends log.old.items log.new.items }
        ensures same { trees_in self.new ≡ trees_in self.old }
        ensures decoded { IfOk result (λ _. IsDecoded self.new here.new) }
    {
        let first = self.here(*here);
        let passes = test.passes(first.unit);
        if passes {
            let count = test.taken_size(first.unit);
            if noting {
                put(log, first.entry(test, count))?;
            }
            *here += count;
            self.reach(*here)?;
        }
        Ok(passes)
    }
}
