//! A walk through trees that define and call macros.
ghost use Rattle.std.specs.Prelude.{◌≡◌, ◌∷◌, [], length, OnOk};
ghost use Rattle.tt.specs.Forest.{Forest, node};
ghost use Rattle.tt.specs.Iters.{rest_of};
ghost use Rattle.tt.specs.Moves.{after_tree};
ghost use Rattle.tt.specs.TreeWalks.{innermost, outer_levels};
ghost use Rattle.tt.specs.Views.{trees_of};
ghost use Rattle.expand_items.specs.Cfg.{known_of};
ghost use Rattle.expand_text.specs.Kept.{kept_behind};

use crate::config::Config;
use crate::part::Part;
use crate::plain::named_behind;
use expand_items::{Position, is_open_condition};
use std::alloc::{AllocError, Global};
use tt::{Delimiter, DelimiterKind, Leaf, Span, TokenTreesView, TreeWalk, TtIter};

/// What is known before the trees that are left of a subtree.
#[derive(Clone, Copy)]
pub(crate) struct Level {
    pub(crate) position: Position,
    /// The number of first trees that are taken as they are.
    pub(crate) plain: usize,
    close: Span,
    /// The number of macros that stay in scope after the subtree, or all.
    pub(crate) kept: Option<usize>,
}

/// A walk through trees. It owns the tree that they are in.
#[derive(Drop)]
pub(crate) struct Walk {
    trees: TreeWalk,
    level: Level,
    /// The outer levels, the innermost last.
    outer: Vec<Level>,
    ghost same: { length (outer_levels trees) ≡ length outer.items },
}

// Returns how many macros stay in scope after a subtree, if not all.
fn kept_behind(are_kept: bool, macros: usize) -> Option<usize>
    ensures { result ≡ kept_behind are_kept macros }
{
    if are_kept { None } else { Some(macros) }
}

impl Level {
    ghost use Rattle.expand_text.specs.Walks.{level_at, past_leaf, past_subtree};

    // Passes a leaf, with these trees behind it.
    fn pass_leaf(
        &mut self,
        config: &Config<'_>,
        leaf: &Leaf,
        behind: TokenTreesView<'_>,
    ) -> Result<(), AllocError>
        ensures { OnOk result ((trees : Forest) → trees_of behind.entry ≡ after_tree trees → level_at (after_tree trees) self.new ≡ past_leaf (known_of config.now.cfg.now) leaf.now (level_at trees self.old)) }
    {
        let is_open = is_open_condition(config.alloc, config.cfg, leaf, behind.iter())?;
        let left = self.plain.saturating_sub(1);
        self.plain = left.max(named_behind(leaf, behind.iter()));
        self.position = self.position.behind_leaf(leaf, behind.iter(), is_open);
        Ok(())
    }

    // Passes a subtree of that kind.
    fn pass_subtree(&mut self, kind: DelimiterKind)
        ensures { (trees : Forest) → level_at (after_tree trees) self.new ≡ past_subtree kind (level_at trees self.old) }
    {
        self.plain = self.plain.saturating_sub(1);
        self.position = self.position.behind_subtree(kind);
    }
}

impl Walk {
    ghost use Rattle.expand_text.specs.Walks.{begun, entered, first_level, outer_of, levels_of, front_in, past_in, past_leaf, with_plain, IsLeft};

    /// Returns a walk through sibling trees, the first of which is at that position.
    pub(crate) fn new(alloc: Global, trees: TreeWalk, position: Position, close: Span) -> Walk
        requires { outer_levels trees ≡ [] }
        ensures { levels_of result ≡ begun position (innermost trees) close ∷ [] }
    {
        Walk {
            trees,
            level: Level {
                position,
                plain: 0,
                close,
                kept: None,
            },
            outer: Vec::new(alloc),
        }
    }

    /// Returns what is known before the trees that are left of the innermost subtree.
    pub(crate) fn level(&self) -> Level
        ensures { result ≡ self.now.level }
    {
        self.level
    }

    /// Returns the trees that are left of the innermost subtree.
    pub(crate) fn rest(&self) -> TtIter<'_>
        ensures { rest_of result ≡ (first_level self.now).rest }
    {
        self.trees.rest()
    }

    /// Returns the trees of the part that comes first.
    pub(crate) fn front(&self, part: &Part) -> TokenTreesView<'_>
        ensures { trees_of result ≡ front_in part.now (levels_of self.now) }
    {
        let mut rest = self.trees.rest();
        let start = rest.savepoint();
        part.pass(&mut rest);
        rest.from_savepoint(start)
    }

    /// Passes the part that comes first.
    pub(crate) fn pass(&mut self, part: &Part)
        ensures { levels_of self.new ≡ past_in part.now (levels_of self.old) }
    {
        self.trees.pass(part.len);
        self.trees.pass(part.more());
        self.level.position = part.position;
        self.level.plain = part.plain;
    }

    /// Takes so many of the first trees as they are.
    pub(crate) fn take_plain(&mut self, plain: usize)
        ensures { levels_of self.new ≡ with_plain plain (levels_of self.old) }
    {
        self.level.plain = plain;
    }

    /// Passes the first tree, a leaf.
    pub(crate) fn pass_leaf(&mut self, config: &Config<'_>, leaf: &Leaf) -> Result<(), AllocError>
        ensures { OnOk result (levels_of self.new ≡ past_leaf (known_of config.now.cfg.now) leaf.now (first_level self.old) ∷ outer_of self.old) }
    {
        self.trees.pass(1);
        let behind = self.trees.rest().remaining();
        self.level.pass_leaf(config, leaf, behind)
    }

    /// Enters the first tree, a subtree, with `macros` macros in scope. Does nothing if the first tree is none.
    pub(crate) fn enter(&mut self, delimiter: Delimiter, macros: usize) -> Result<(), AllocError>
        ensures { OnOk result ((children behind : Forest) → (first_level self.old).rest ≡ node delimiter children behind → levels_of self.new ≡ entered delimiter children macros (levels_of self.old)) }
    {
        let kind = delimiter.kind;
        let position = self.level.position;
        let mut behind = self.trees.rest();
        behind.next();
        let first = position.first_inside(kind, behind);
        let mut round = self.level;
        round.pass_subtree(kind);
        match self.trees.enter() {
            Ok(Some(_)) => {}
            Ok(None) => return Ok(()),
            Err(_) => return Err(AllocError),
        }
        let are_kept = position.keeps_macros(kind, self.trees.rest());
        if self.outer.push(round).is_err() {
            self.trees.leave();
            return Err(AllocError);
        }
        self.level = Level {
            position: first,
            plain: 0,
            close: delimiter.close,
            kept: kept_behind(are_kept, macros),
        };
        Ok(())
    }

    /// Leaves the innermost level, and returns where it closes, if there is an outer level.
    pub(crate) fn leave(&mut self) -> Option<Span>
        ensures { IsLeft self.old result self.new }
    {
        if !self.trees.leave() {
            return None;
        }
        let close = self.level.close;
        if let Some(level) = self.outer.pop() {
            self.level = level;
        }
        Some(close)
    }
}
