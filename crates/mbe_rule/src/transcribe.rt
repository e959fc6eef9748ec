//! Writes a template anew; each use is replaced by the tree that its variable took.
ghost use Rattle.std.specs.Prelude.{◌≡◌, zip, map, slice_get, IfOk, IfErr, OnOk};
ghost use Rattle.tt.specs.Building.{lowest};
ghost use Rattle.tt.specs.Forest.{end};
ghost use Rattle.tt.specs.Iters.{rest_of};
ghost use Rattle.tt.specs.Stored.{IsWithinLimits};
ghost use Rattle.tt.specs.SubtreeViews.{root_of};
ghost use Rattle.tt.specs.TreeFault.{IsTreeFault};
ghost use Rattle.tt.specs.Views.{trees_of};
ghost use Rattle.mbe_rule.specs.Instances.{bound_to, filled, expansion};
ghost use Rattle.mbe_rule.specs.Transcribing.{Places, IsPlaceFault};

use crate::variable::{Name, use_at};
use indexmap::IndexSet;
use std::alloc::Global;
use tt::{
    Leaf, Span, SubtreeView, TokenTreesView, TopSubtree, TopSubtreeBuilder, TtElement, TtFault,
    TtIter,
};

/// What is left of a template's subtree that was entered, and the span that closes it.
#[derive(Drop)]
pub(crate) struct Level<'t> {
    rest: TtIter<'t>,
    close: Span,
}

// Returns the tree at that index among those taken.
fn tree_at<'i>(taken: &[TokenTreesView<'i>], index: usize) -> Option<TokenTreesView<'i>>
    ensures { result ≡ slice_get taken.now index }
{
    taken.get(index).copied()
}

// Returns the tree that is bound to a name. The name and the tree that its variable took have the same index.
fn bound<'i>(
    names: &IndexSet<Name>,
    taken: &[TokenTreesView<'i>],
    name: &Name,
) -> TokenTreesView<'i>
    ensures { trees_of result ≡ bound_to name.now (zip names.now.keys (map trees_of taken.now)) }
{
    let Some(index) = names.get_index_of(name) else {
        return TokenTreesView::empty();
    };
    let Some(tree) = tree_at(taken, index) else {
        return TokenTreesView::empty();
    };
    tree
}

// Appends the leaf; if it begins a use, appends what is bound to the name after it.
fn place(
    builder: &mut TopSubtreeBuilder,
    leaf: Leaf,
    siblings: &mut TtIter<'_>,
    names: &IndexSet<Name>,
    taken: &[TokenTreesView<'_>],
) -> Result<(), TtFault>
    ensures ok { OnOk result (Places (zip names.now.keys (map trees_of taken.now)) leaf (rest_of siblings.old) builder.old (rest_of siblings.new) builder.new) }
    ensures fault { IfErr result (IsPlaceFault (zip names.now.keys (map trees_of taken.now)) leaf (rest_of siblings.old) builder.old) }
{
    match use_at(&leaf, siblings) {
        Some(name) => builder.extend_with_tt(bound(names, taken, &name)),
        None => Ok(builder.push(leaf)?),
    }
}

// Writes everything that the template holds to a builder that holds nothing yet.
fn fill(
    alloc: Global,
    builder: &mut TopSubtreeBuilder,
    template: SubtreeView<'_>,
    names: &IndexSet<Name>,
    taken: &[TokenTreesView<'_>],
) -> Result<(), TtFault>
    requires { builder.old.stack ≡ lowest end }
    ensures top { OnOk result (builder.new.top ≡ builder.old.top) }
    ensures whole { OnOk result (builder.new.stack ≡ lowest (filled (zip names.now.keys (map trees_of taken.now)) (root_of template.entry).children)) }
    ensures fault { IfErr result (IsTreeFault (expansion (root_of template.entry) (zip names.now.keys (map trees_of taken.now)))) }
{
    let close = template.top_subtree().delimiter.close;
    let rest = template.iter();
    // The innermost last.
    let mut levels = Vec::new(alloc);
    levels.push(Level { rest, close })?;
    while let Some(mut level) = levels.pop() {
        match level.rest.next() {
            None => {
                if builder.is_open() {
                    builder.close(level.close)?;
                }
            }
            Some(TtElement::Leaf(leaf)) => {
                place(builder, leaf, &mut level.rest, names, taken)?;
                levels.push(level)?;
            }
            Some(TtElement::Subtree(header, rest)) => {
                let close = header.delimiter.close;
                builder.open(header.delimiter.kind, header.delimiter.open_span)?;
                levels.push(level)?;
                levels.push(Level { rest, close })?;
            }
        }
    }
    Ok(())
}

/// Returns the template, written for variables with these names that took these trees. The fault is `Memory`,
/// or the limit that the result exceeds.
pub(crate) fn transcribed(
    alloc: Global,
    template: SubtreeView<'_>,
    names: &IndexSet<Name>,
    taken: &[TokenTreesView<'_>],
) -> Result<TopSubtree, TtFault>
    ensures ok { IfOk result (λ tree. tree ≡ expansion (root_of template.entry) (zip names.now.keys (map trees_of taken.now))) }
    ensures limits { IfOk result (λ tree. IsWithinLimits tree) }
    ensures fault { IfErr result (IsTreeFault (expansion (root_of template.entry) (zip names.now.keys (map trees_of taken.now)))) }
{
    let mut builder = TopSubtreeBuilder::new(alloc, template.top_subtree().delimiter)?;
    fill(alloc, &mut builder, template, names, taken)?;
    Ok(builder.build()?)
}
