//! Writes trees as a text.
ghost use Rattle.std.specs.Prelude.{◌≡◌, false, Some};
ghost use Rattle.std.specs.Fmt.{WritesOnOk};
ghost use Rattle.tt_base.specs.Forest.{only};
ghost use Rattle.tt_base.specs.TreeText.{is_alone, siblings_text, display};
ghost use Rattle.tt_view.specs.Iters.{rest_of, tree_of};
ghost use Rattle.tt_view.specs.SiblingText.{tree_text};
ghost use Rattle.tt_view.specs.SubtreeViews.{root_of};
ghost use Rattle.tt_view.specs.Views.{trees_of};

use crate::iter::{TtElement, TtIter};
use crate::subtree_view::SubtreeView;
use crate::text::{closing, lets_space, opening, space};
use crate::top_subtree::TopSubtree;
use crate::view::TokenTreesView;
use std::fmt;

impl fmt::Display for TokenTreesView<'_> {
    ghost output = { λ view. Some (display (trees_of view)) };

    fn fmt<W: fmt::Write>(&self, f: &mut fmt::Formatter<W>) -> fmt::Result {
        write_siblings(self.iter(), f)
    }
}

impl fmt::Display for SubtreeView<'_> {
    ghost output = { λ view. Some (display (only (root_of view))) };

    fn fmt<W: fmt::Write>(&self, f: &mut fmt::Formatter<W>) -> fmt::Result {
        fmt::Display::fmt(&self.as_token_trees(), f)
    }
}

impl fmt::Display for TopSubtree {
    ghost output = { λ tree. Some (display (only tree)) };

    fn fmt<W: fmt::Write>(&self, f: &mut fmt::Formatter<W>) -> fmt::Result {
        fmt::Display::fmt(&self.as_token_trees(), f)
    }
}

// Writes trees, with no space before the first one.
#[cycle(write)]
fn write_siblings<W: fmt::Write>(mut siblings: TtIter<'_>, f: &mut fmt::Formatter<W>) -> fmt::Result
    ensures { WritesOnOk W.write_str_gives f.old result (siblings_text is_alone false (rest_of siblings.entry)) f.new }
{
    let mut due = false;
    while let Some(sibling) = siblings.next() {
        f.write_str(space(due))?;
        due = lets_space(&sibling);
        write_sibling(sibling, f)?;
    }
    Ok(())
}

// Writes a leaf, or a subtree with all that it holds.
#[cycle(write)]
fn write_sibling<W: fmt::Write>(sibling: TtElement<'_>, f: &mut fmt::Formatter<W>) -> fmt::Result
    ensures { WritesOnOk W.write_str_gives f.old result (tree_text (tree_of sibling.entry)) f.new }
{
    match sibling {
        TtElement::Leaf(leaf) => fmt::Display::fmt(&leaf, f),
        TtElement::Subtree(subtree, children) => {
            f.write_str(opening(subtree.delimiter.kind))?;
            write_siblings(children, f)?;
            f.write_str(closing(subtree.delimiter.kind))
        }
    }
}
