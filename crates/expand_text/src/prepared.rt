//! The arms of a macro as they are read. The walk keeps the open subtrees in memory, so only memory limits the depth of a tree.
ghost use Rattle.std.specs.Prelude.{◌≡◌, IfOk, IfErr, OnOk};
ghost use Rattle.tt.specs.Gluing.{after_trees};
ghost use Rattle.tt.specs.Iters.{rest_of};
ghost use Rattle.tt.specs.Stored.{IsWithinLimits};
ghost use Rattle.tt.specs.TreeFault.{under, IsTreeFault};
ghost use Rattle.tt.specs.Views.{trees_of};
ghost use Rattle.expand_text.specs.Prepared.{after_leaf, are_of_comment, comment_len, is_at_comment, is_crate_root, prepared, rooted_leaf};

use expand_items::is_attribute_sign;
use mbe_pattern::{is_at_punct, is_at_word, is_dollar, pass};
use std::alloc::{AllocError, Global};
use syntax_edit::start_of;
use tt::{
    Delimiter, DelimiterKind, Ident, IdentIsRaw, Leaf, Span, Symbol, TokenTreesView, TopSubtree,
    TopSubtreeBuilder, TtElement, TtFault, TtIter,
};

/// What the trees of a level are.
#[derive(Clone, Copy)]
pub(crate) enum ArmPart {
    /// The arms of a macro.
    Arms,
    /// The pattern of an arm, or a part of one.
    Pattern,
    /// The template of an arm, or a part of one.
    Template,
}

// The rest of an open subtree, what that is, and where the subtree closes.
#[derive(Drop)]
struct Level<'a> {
    rest: TtIter<'a>,
    part: ArmPart,
    close: Span,
}

// Returns whether the leaf and the next tree are `$crate`.
fn is_crate_root(leaf: &Leaf, behind: TtIter<'_>) -> bool
    ensures { result ≡ is_crate_root leaf.now (rest_of behind.entry) }
{
    is_dollar(leaf) && is_at_word(behind, "crate")
}

// Returns the leaf before these trees. If it begins `$crate`, returns the root's word instead, and passes `crate`.
fn rooted_leaf(leaf: Leaf, trees: &mut TtIter<'_>, root: &Symbol) -> Result<Leaf, AllocError>
    ensures leaf { IfOk result (λ it. it ≡ rooted_leaf root.now leaf (rest_of trees.old)) }
    ensures rest { OnOk result (rest_of trees.new ≡ after_leaf leaf (rest_of trees.old)) }
{
    if !is_crate_root(&leaf, trees.remaining().iter()) {
        return Ok(leaf);
    }
    let Ok(word) = trees.expect_leaf() else {
        return Ok(leaf);
    };
    Ok(Leaf::Ident(Ident {
        sym: root.clone()?,
        span: *word.span(),
        is_raw: IdentIsRaw::No,
    }))
}

// Returns whether brackets begin at the byte where a leaf begins.
fn are_of_comment(leaf: &Leaf, delimiter: Delimiter) -> bool
    ensures { result ≡ are_of_comment leaf.now delimiter }
{
    delimiter.kind == DelimiterKind::Bracket
        && start_of(delimiter.open_span) == start_of(*leaf.span())
}

// Returns whether such brackets come first.
fn is_at_comment(leaf: &Leaf, mut trees: TtIter<'_>) -> bool
    ensures { result ≡ is_at_comment leaf.now (rest_of trees.entry) }
{
    match trees.next() {
        Some(TtElement::Subtree(header, _)) => are_of_comment(leaf, header.delimiter),
        _ => false,
    }
}

// Returns how many of these trees behind a leaf are a part of the comment that it begins: none if it begins none.
fn comment_len(leaf: &Leaf, behind: TtIter<'_>) -> usize
    ensures { result ≡ comment_len leaf.now (rest_of behind.entry) }
{
    if !is_attribute_sign(leaf) {
        return 0;
    }
    if is_at_comment(leaf, behind.remaining().iter()) {
        return 1;
    }
    let mut further = behind.remaining().iter();
    further.next();
    if is_at_punct(behind, '!') && is_at_comment(leaf, further) {
        2
    } else {
        0
    }
}

// Passes so many trees behind a leaf, which are left out together with it.
fn leave_out(_leaf: Leaf, count: usize, trees: &mut TtIter<'_>)
    ensures { rest_of trees.new ≡ after_trees count (rest_of trees.old) }
{
    pass(trees, count);
}

impl ArmPart {
    ghost use Rattle.expand_text.specs.Prepared.{inside, left_out};

    // Returns what brackets contain that come before these trees.
    fn inside(self, behind: TtIter<'_>) -> ArmPart
        ensures { result ≡ inside self (rest_of behind.entry) }
    {
        match self {
            ArmPart::Arms => {
                if is_at_punct(behind, '=') {
                    ArmPart::Pattern
                } else {
                    ArmPart::Template
                }
            }
            ArmPart::Pattern => ArmPart::Pattern,
            ArmPart::Template => ArmPart::Template,
        }
    }

    // Returns how many trees behind a leaf are left out together with it: those of a comment in a pattern. None if the leaf stays.
    fn left_out(self, leaf: &Leaf, behind: TtIter<'_>) -> usize
        ensures { result ≡ left_out self leaf.now (rest_of behind.entry) }
    {
        match self {
            ArmPart::Pattern => comment_len(leaf, behind),
            ArmPart::Arms | ArmPart::Template => 0,
        }
    }
}

/// Returns the arms under that delimiter as they are read: with the root's word for each `$crate`, and without the comments in patterns that
/// document something.
pub(crate) fn prepared(
    alloc: Global,
    delimiter: Delimiter,
    trees: TokenTreesView<'_>,
    root: &Symbol,
) -> Result<TopSubtree, TtFault>
    ensures ok { IfOk result (λ tree. tree ≡ under delimiter (prepared root.now (trees_of trees.entry))) }
    ensures limits { IfOk result (λ tree. IsWithinLimits tree) }
    ensures err { IfErr result (IsTreeFault (under delimiter (prepared root.now (trees_of trees.entry)))) }
{
    let mut builder = TopSubtreeBuilder::new(alloc, delimiter)?;
    let mut rest = trees.iter();
    let mut part = ArmPart::Arms;
    // each outer level, the innermost last
    let mut outer = Vec::new(alloc);
    'tokens: loop {
        match rest.next() {
            Some(TtElement::Leaf(leaf)) => {
                let left_out = part.left_out(&leaf, rest.remaining().iter());
                if left_out > 0 {
                    leave_out(leaf, left_out, &mut rest);
                } else {
                    let leaf = rooted_leaf(leaf, &mut rest, root)?;
                    builder.push(leaf)?;
                }
            }
            Some(TtElement::Subtree(header, children)) => {
                let delimiter = header.delimiter;
                builder.open(delimiter.kind, delimiter.open_span)?;
                let inside = part.inside(rest.remaining().iter());
                outer.push(Level {
                    rest,
                    part,
                    close: delimiter.close,
                })?;
                rest = children;
                part = inside;
            }
            None => {
                let Some(level) = outer.pop() else {
                    return Ok(builder.build()?);
                };
                builder.close(level.close)?;
                rest = level.rest;
                part = level.part;
            }
        }
    }
}
