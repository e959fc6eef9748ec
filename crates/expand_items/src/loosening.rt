//! Opaque subtrees that need no parentheses in their places, and types that need some after `as`. The walk keeps the open subtrees in
//! memory, so only memory limits the depth of a tree.
ghost use Rattle.std.specs.Prelude.{◌≡◌, IfOk, IfErr};
ghost use Rattle.tt.specs.Iters.{rest_of};
ghost use Rattle.tt.specs.Stored.{IsWithinLimits};
ghost use Rattle.tt.specs.TreeFault.{under, IsTreeFault};
ghost use Rattle.tt.specs.Views.{trees_of};
ghost use Rattle.expand_items.specs.Loosening.{ends_before, first_place, first_place_in, first_place_within, front_behind_leaf, is_apart, is_known, is_loose, kind_in, loosened, loosened_kind, place_behind, place_behind_leaf, place_of};

use crate::expression::{Enclosure, are_statements, fits_before, is_at_assignment, is_split};
use crate::front::Front;
use crate::operand::belong_together;
use crate::position::Position;
use std::alloc::Global;
use tt::{
    Delimiter, DelimiterKind, Leaf, Span, TokenTreesView, TopSubtree, TopSubtreeBuilder, TtElement,
    TtFault, TtIter,
};

/// The place of a tree.
#[derive(Clone, Copy)]
struct Place {
    /// What precedes it.
    front: Front,
    /// Whether its last sibling is followed by nothing.
    ends: bool,
}

// The rest of an open subtree, the place of its first tree, and where the subtree closes.
#[derive(Drop)]
struct Level<'a> {
    rest: TtIter<'a>,
    place: Place,
    close: Span,
}

// What becomes of a subtree: its kind, and the place of its first tree.
#[derive(Drop)]
struct Entry {
    kind: DelimiterKind,
    first: Place,
}

impl Place {
    // Returns the place of the first tree in brackets of a kind.
    fn first_in(kind: DelimiterKind) -> Place
        ensures { result ≡ first_place kind }
    {
        Place {
            front: if kind == DelimiterKind::Brace {
                Front::Start
            } else {
                Front::Free
            },
            ends: true,
        }
    }

    // Returns the place of the first tree in an invisible subtree; `is_apart`: whether nothing beside the subtree takes a part of it.
    fn first_within(self, is_apart: bool) -> Place
        ensures { result ≡ first_place_within is_apart self }
    {
        if is_apart {
            Place { ends: true, ..self }
        } else {
            Place {
                front: Front::Bound,
                ends: false,
            }
        }
    }

    // Returns the place of the first tree in a subtree of a kind.
    fn inside(self, kind: DelimiterKind, is_apart: bool) -> Place
        ensures { result ≡ first_place_in kind is_apart self }
    {
        match kind {
            DelimiterKind::Invisible => self.first_within(is_apart),
            DelimiterKind::Parenthesis
            | DelimiterKind::Brace
            | DelimiterKind::Bracket
            | DelimiterKind::InvisibleOpaque => Place::first_in(kind),
        }
    }

    // Returns the place after a leaf.
    fn behind_leaf(self, leaf: &Leaf) -> Place
        ensures { result ≡ place_behind_leaf leaf.now self }
    {
        let front = match leaf {
            Leaf::Literal(_) => Front::Bound,
            Leaf::Punct(punct) => self.front.behind_punct(punct),
            Leaf::Ident(ident) => Front::behind_ident(ident),
        };
        Place { front, ..self }
    }

    // Returns the place after a subtree of a kind.
    fn behind_subtree(self, kind: DelimiterKind) -> Place
        ensures { result ≡ place_behind kind self }
    {
        Place {
            front: Front::behind_subtree(kind),
            ..self
        }
    }

    // Returns whether what follows the tree before these is known.
    fn is_known(self, behind: &TtIter<'_>) -> bool
        ensures { result ≡ is_known self (rest_of behind.now) }
    {
        self.ends || !behind.is_empty()
    }

    // Returns whether nothing behind an expression or a type of these trees takes a part of it: a type may also end before `=`.
    fn ends_before(self, trees: TtIter<'_>, behind: TtIter<'_>) -> bool
        ensures { result ≡ ends_before (rest_of trees.entry) (rest_of behind.entry) self }
    {
        fits_before(trees, behind.remaining().iter())
            || self.front == Front::Colon && is_at_assignment(behind)
    }

    // Returns whether nothing beside it does.
    fn is_apart(self, trees: TtIter<'_>, behind: TtIter<'_>) -> bool
        ensures { result ≡ is_apart (rest_of trees.entry) (rest_of behind.entry) self }
    {
        self.is_known(&behind)
            && self.ends_before(trees.remaining().iter(), behind)
            && (self.front.is_free() || self.front == Front::Start && !is_split(trees))
    }

    // Returns what becomes of a subtree of a kind with these children, before these trees.
    fn enter(self, kind: DelimiterKind, children: TtIter<'_>, behind: TtIter<'_>) -> Entry
        ensures kind { result.kind ≡ kind_in (rest_of children.entry) (rest_of behind.entry) self kind }
        ensures first { result.first ≡ first_place_in (kind_in (rest_of children.entry) (rest_of behind.entry) self kind) (is_apart (rest_of children.entry) (rest_of behind.entry) self) self }
    {
        match kind {
            DelimiterKind::Parenthesis | DelimiterKind::Brace | DelimiterKind::Bracket => Entry {
                kind,
                first: Place::first_in(kind),
            },
            DelimiterKind::Invisible | DelimiterKind::InvisibleOpaque => {
                let is_apart = self.is_apart(
                    children.remaining().iter(),
                    behind.remaining().iter(),
                );
                let is_loose = is_apart
                    || are_statements(children.remaining().iter())
                    || self.is_known(&behind) && belong_together(children, behind);
                let kind = loosened_kind(is_loose, self.front.is_cast(), kind);
                Entry {
                    kind,
                    first: self.inside(kind, is_apart),
                }
            }
        }
    }
}

// Returns the kind that a subtree of a kind has then; `is_loose`: whether it needs no parentheses; `is_cast`: whether `as` precedes it.
fn loosened_kind(is_loose: bool, is_cast: bool, kind: DelimiterKind) -> DelimiterKind
    ensures { result ≡ loosened_kind is_loose is_cast kind }
{
    match kind {
        DelimiterKind::InvisibleOpaque if is_loose => DelimiterKind::Invisible,
        DelimiterKind::InvisibleOpaque if is_cast => DelimiterKind::Parenthesis,
        _ => kind,
    }
}

// Returns the place of the first tree of the expansion of a call at a position.
fn place_of(enclosure: Enclosure, position: Position) -> Place
    ensures { result ≡ place_of enclosure position }
{
    match enclosure {
        Enclosure::Bare => Place {
            front: position.front(),
            ends: true,
        },
        Enclosure::Opaque | Enclosure::Parentheses | Enclosure::Refused => Place {
            front: Front::Bound,
            ends: false,
        },
    }
}

/// Returns the expansion of a call, these trees, under that delimiter, with each opaque subtree that needs no parentheses as an invisible
/// one, and with parentheses around any other type after `as`. `position` is that before the first of the trees, and `enclosure` is theirs.
/// The fault is `Memory`, or a limit that the tree exceeds.
pub fn loosened(
    alloc: Global,
    delimiter: Delimiter,
    enclosure: Enclosure,
    position: Position,
    trees: TokenTreesView<'_>,
) -> Result<TopSubtree, TtFault>
    ensures ok { IfOk result (λ tree. tree ≡ under delimiter (loosened (place_of enclosure position) (trees_of trees.entry))) }
    ensures limits { IfOk result (λ tree. IsWithinLimits tree) }
    ensures err { IfErr result (IsTreeFault (under delimiter (loosened (place_of enclosure position) (trees_of trees.entry)))) }
{
    let mut builder = TopSubtreeBuilder::new(alloc, delimiter)?;
    let mut rest = trees.iter();
    let mut place = place_of(enclosure, position);
    // the rest of each outer subtree, the innermost last
    let mut outer = Vec::new(alloc);
    'tokens: loop {
        match rest.next() {
            Some(TtElement::Leaf(leaf)) => {
                place = place.behind_leaf(&leaf);
                builder.push(leaf)?;
            }
            Some(TtElement::Subtree(header, children)) => {
                let delimiter = header.delimiter;
                let inside = children.remaining().iter();
                let entry = place.enter(delimiter.kind, inside, rest.remaining().iter());
                builder.open(entry.kind, delimiter.open_span)?;
                outer.push(Level {
                    rest,
                    place: place.behind_subtree(delimiter.kind),
                    close: delimiter.close,
                })?;
                rest = children;
                place = entry.first;
            }
            None => {
                let Some(level) = outer.pop() else {
                    return Ok(builder.build()?);
                };
                builder.close(level.close)?;
                rest = level.rest;
                place = level.place;
            }
        }
    }
}
