//! A call that is expanded: its macro and its place.
ghost use Rattle.std.specs.Prelude.{◌≡◌, ◌∷◌, [], IfOk};
ghost use Rattle.tt.specs.Gluing.{after_trees};
ghost use Rattle.tt.specs.Iters.{rest_of};
ghost use Rattle.tt.specs.Span.{start_of};
ghost use Rattle.tt.specs.Views.{trees_of};
ghost use Rattle.mbe_pattern.specs.Units.{front_trees};
ghost use Rattle.expand_items.specs.Items.{call_of};
ghost use Rattle.expand_text.specs.Invocations.{body_of, call_part, IsInvocation};
ghost use Rattle.expand_text.specs.Meaning.{begin_in};
ghost use Rattle.expand_text.specs.Walks.{begun, first_level, levels_of};

use crate::calling::body;
use crate::part::Part;
use crate::walk::{Level, Walk};
use expand_items::{Call, Enclosure, Position};
use mbe_pattern::{pass, take};
use std::alloc::{AllocError, Global};
use syntax_edit::{begin_at, start_of};
use tt::{Delimiter, DelimiterKind, Span, Symbol, TokenTreesView, TopSubtree, TreeWalk, TtIter};

/// A call that is expanded: its macro and its place.
#[derive(Drop)]
pub(crate) struct Invocation {
    pub(crate) name: Symbol,
    pub(crate) defined_at: u32,
    /// All of its trees, with the attributes before it if it is a statement or an item, and with the `;` that is a part of it.
    pub(crate) part: Part,
    /// The number of these trees that are attributes.
    pub(crate) attributes: usize,
    /// The beginning of the call, after the attributes.
    pub(crate) first_span: Span,
    pub(crate) last_span: Span,
    pub(crate) delimiter: Delimiter,
    /// Whether it is a statement or an item.
    pub(crate) is_statement: bool,
    /// How its expansion is enclosed.
    pub(crate) enclosure: Enclosure,
    /// The position before the first tree of its expansion.
    pub(crate) position: Position,
}

impl Invocation {
    /// Returns the attributes before the call, of all of its trees.
    pub(crate) fn attributes_in<'a>(&self, whole: TokenTreesView<'a>) -> TokenTreesView<'a>
        ensures { trees_of result ≡ front_trees self.now.attributes (trees_of whole.entry) }
    {
        take(&mut whole.iter(), self.attributes)
    }

    /// Returns the trees of the call after its attributes, of all of its trees.
    pub(crate) fn call_in<'a>(&self, whole: TokenTreesView<'a>) -> TokenTreesView<'a>
        ensures { trees_of result ≡ after_trees self.now.attributes (trees_of whole.entry) }
    {
        let mut trees = whole.iter();
        pass(&mut trees, self.attributes);
        trees.remaining()
    }

    /// Returns a walk through what an arm made of the call.
    pub(crate) fn walk(&self, alloc: Global, tree: TopSubtree) -> Walk
        ensures { levels_of result ≡ begun self.now.position (body_of self.now tree) self.now.delimiter.close ∷ [] }
    {
        let len = body(self.is_statement, &tree).len();
        let trees = TreeWalk::through_front(alloc, tree, len);
        Walk::new(alloc, trees, self.position, self.delimiter.close)
    }
}

/// Returns a call that comes first at a level as a part, with the `;` behind it if `semicolon`.
pub(crate) fn call_part(level: Level, call: &Call<'_>, semicolon: bool) -> Part
    ensures { result ≡ call_part level (call_of call.now) semicolon }
{
    let ends = call.header.delimiter.kind == DelimiterKind::Brace;
    let position = level.position.behind(ends);
    Part {
        len: call.len,
        semicolon,
        position: if semicolon {
            position.behind(true)
        } else {
            position
        },
        plain: level.plain,
    }
}

// Returns the beginning of the call that comes first, after its attributes.
fn begin_of(mut trees: TtIter<'_>, call: &Call<'_>) -> Span
    ensures { result ≡ begin_in (call_of call.now) (rest_of trees.entry) }
{
    pass(&mut trees, call.attributes);
    begin_at(&trees, call.name.span)
}

/// Returns the byte at which the call that comes first begins, after its attributes.
pub(crate) fn begin_byte(walk: &Walk, call: &Call<'_>) -> u32
    ensures { result ≡ start_of (begin_in (call_of call.now) (first_level walk.now).rest).range }
{
    start_of(begin_of(walk.rest(), call))
}

/// Returns the call that comes first, which expands to `tree`. Its macro's name begins at the byte `defined_at` in the definition.
pub(crate) fn invocation_of(
    walk: &Walk,
    call: &Call<'_>,
    tree: &TopSubtree,
    defined_at: u32,
) -> Result<Invocation, AllocError>
    ensures { IfOk result (IsInvocation walk.now.level (first_level walk.now).rest (call_of call.now) tree.now defined_at) }
{
    let name = call.name.sym.clone()?;
    let level = walk.level();
    let position = level.position;
    let attributes = call.attributes;
    let delimiter = call.header.delimiter;
    let kind = delimiter.kind;
    let mut rest = walk.rest();
    pass(&mut rest, call.len);
    let behind = rest.remaining();
    let is_statement = position.is_statement(attributes, kind, behind.iter());
    let expansion = body(is_statement, tree).iter();
    let made = tree.token_trees().iter();
    let takes = position.takes_semicolon(attributes, kind, behind.iter(), made);
    Ok(Invocation {
        name,
        defined_at,
        part: call_part(level, call, takes),
        attributes,
        first_span: begin_of(walk.rest(), call),
        last_span: if takes {
            begin_at(&rest, delimiter.close)
        } else {
            delimiter.close
        },
        delimiter,
        is_statement,
        enclosure: position.enclosure(attributes, kind, behind.iter(), expansion),
        position: position.first_of_call(attributes, kind, behind.iter()),
    })
}
