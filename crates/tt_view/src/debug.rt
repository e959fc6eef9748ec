//! Writes trees for programmers: a line for each token.
ghost use Rattle.std.specs.Prelude.{◌≡◌, ◌+◌, ◌≤◌, true, false, Some};
ghost use Rattle.std.specs.Fmt.{WritesOnOk};
ghost use Rattle.tt_base.specs.DebugText.{debug, lines_text};
ghost use Rattle.tt_base.specs.Forest.{only, size};
ghost use Rattle.tt_view.specs.Iters.{rest_of, tree_of};
ghost use Rattle.tt_view.specs.SiblingText.{tree_lines, tree_size};
ghost use Rattle.tt_view.specs.SubtreeViews.{root_of};
ghost use Rattle.tt_view.specs.Views.{trees_of};

use crate::iter::{TtElement, TtIter};
use crate::subtree_view::SubtreeView;
use crate::top_subtree::TopSubtree;
use crate::view::TokenTreesView;
use std::fmt;
use tt_base::{HeaderLine, Indent, LeafLine, line_break};

impl fmt::Debug for TokenTreesView<'_> {
    ghost debug_output = { λ view. Some (debug (trees_of view)) };

    fn fmt<W: fmt::Write>(&self, f: &mut fmt::Formatter<W>) -> fmt::Result {
        // the contract of `len` says that a `usize` can count the tokens
        let _len = self.len();
        write_lines(self.iter(), false, 0, f)
    }
}

impl fmt::Debug for SubtreeView<'_> {
    ghost debug_output = { λ view. Some (debug (only (root_of view))) };

    fn fmt<W: fmt::Write>(&self, f: &mut fmt::Formatter<W>) -> fmt::Result {
        fmt::Debug::fmt(&self.as_token_trees(), f)
    }
}

impl fmt::Debug for TopSubtree {
    ghost debug_output = { λ tree. Some (debug (only tree)) };

    fn fmt<W: fmt::Write>(&self, f: &mut fmt::Formatter<W>) -> fmt::Result {
        fmt::Debug::fmt(&self.as_token_trees(), f)
    }
}

// Writes a line for each token of the trees, which are at that depth.
#[cycle(write)]
fn write_lines<W: fmt::Write>(
    mut siblings: TtIter<'_>,
    mut due: bool,
    depth: usize,
    f: &mut fmt::Formatter<W>,
) -> fmt::Result
    requires { depth + size (rest_of siblings) ≤ usize.MAX }
    ensures { WritesOnOk W.write_str_gives f.old result (lines_text due depth (rest_of siblings.entry)) f.new }
{
    while let Some(sibling) = siblings.next() {
        f.write_str(line_break(due))?;
        due = true;
        fmt::Display::fmt(&Indent(depth), f)?;
        write_tree(sibling, depth, f)?;
    }
    Ok(())
}

// Writes the lines of one tree. The first line has its indentation already.
#[cycle(write)]
fn write_tree<W: fmt::Write>(
    tree: TtElement<'_>,
    depth: usize,
    f: &mut fmt::Formatter<W>,
) -> fmt::Result
    requires { depth + tree_size (tree_of tree) ≤ usize.MAX }
    ensures { WritesOnOk W.write_str_gives f.old result (tree_lines depth (tree_of tree.entry)) f.new }
{
    match tree {
        TtElement::Leaf(leaf) => fmt::Display::fmt(&LeafLine(&leaf), f),
        TtElement::Subtree(subtree, children) => {
            fmt::Display::fmt(&HeaderLine(subtree.delimiter), f)?;
            write_lines(children, true, depth + 1, f)
        }
    }
}
