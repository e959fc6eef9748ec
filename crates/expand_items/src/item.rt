//! What comes first among siblings: a definition of a macro, a call of one, or something else.
ghost use Rattle.std.specs.Prelude.{◌≡◌, ◌≤◌, ◌∷◌, [], option_map};
ghost use Rattle.tt.specs.Iters.{rest_of};
ghost use Rattle.tt.specs.Moves.{after_tree};
ghost use Rattle.expand_items.specs.Items.{name_in, definition_len, defined_as, definition_behind, definition_in, call_behind, call_behind_colons, is_at_colons, is_at_root, is_at_root_path, call_in, is_at_sign, may_begin_item, item_in, definition_of, call_of, item_meant};
ghost use Rattle.mbe_pattern.specs.Units.{is_at_word, is_at_punct};

use mbe_grammar::{Test, Unit};
use mbe_pattern::{is_at_punct, is_at_word, pass, unit_size};
use tt::{DelimiterKind, Ident, Leaf, Subtree, TtElement, TtIter};

/// The number of trees of `::`.
const COLONS_LEN: usize = 2;

/// The number of trees of `crate::`.
const ROOT_LEN: usize = 3;

/// The number of trees of `::crate::`.
const COLONS_ROOT_LEN: usize = 5;

/// A definition of a macro: `macro_rules! NAME` and a subtree that contains the arms, and the `;` after parentheses or brackets.
#[derive(Drop)]
pub struct Definition<'a> {
    pub name: Ident,
    pub header: Subtree,
    pub arms: TtIter<'a>,
    /// The number of its trees.
    pub len: usize,
}

/// What precedes the name of a macro that is called.
#[derive(Debug, Clone, Copy, PartialEq, Eq)]
pub enum MacroPath {
    /// Nothing: the name is one of the macros in scope.
    Name,
    /// The root of the crate and `::`: the name is one of the macros that the crate exports.
    Root,
    /// Something else and `::`.
    Other,
}

/// A call of a macro: a name, `!` and a subtree.
#[derive(Drop)]
pub struct Call<'a> {
    /// The number of its trees that are attributes before it: zero, unless it is a statement or an item under a condition, `#[cfg(..)]`.
    pub attributes: usize,
    pub name: Ident,
    /// What precedes the name.
    pub path: MacroPath,
    pub header: Subtree,
    pub input: TtIter<'a>,
    /// The number of its trees, with the attributes.
    pub len: usize,
}

/// What comes first among siblings.
#[derive(Drop)]
pub enum Item<'a> {
    Definition(Definition<'a>),
    Call(Call<'a>),
    /// So many trees under a condition, `#[cfg(..)]`, that is known to be false.
    Inactive(usize),
    /// None of these: a leaf, a subtree or nothing.
    Other,
}

// Takes the next tree, and returns it if it is an ident that may name a macro.
fn take_name(trees: &mut TtIter<'_>) -> Option<Ident>
    ensures answer { result ≡ name_in (rest_of trees.old) }
    ensures rest { rest_of trees.new ≡ after_tree (rest_of trees.old) }
{
    let is_name = Test::Name.passes(Unit::take(&mut trees.remaining().iter()));
    let Ok(ident) = trees.expect_ident_or_underscore() else {
        return None;
    };
    if is_name { Some(ident) } else { None }
}

// Returns the number of trees of a definition whose subtree is of a kind and precedes these trees.
fn definition_len(kind: DelimiterKind, trees: TtIter<'_>) -> usize
    ensures { result ≡ definition_len kind (rest_of trees.entry) }
{
    if kind != DelimiterKind::Brace && is_at_punct(trees, ';') {
        5
    } else {
        4
    }
}

// Returns the definition of a name, if a subtree follows the name.
fn defined_as<'a>(name: Ident, mut trees: TtIter<'a>) -> Option<Definition<'a>>
    ensures { option_map definition_of result ≡ defined_as name (rest_of trees.entry) }
{
    let Ok((header, arms)) = trees.expect_subtree() else {
        return None;
    };
    Some(Definition {
        name,
        header,
        arms,
        len: definition_len(header.delimiter.kind, trees),
    })
}

// Returns the definition whose name comes first, if there is one.
fn definition_behind<'a>(mut trees: TtIter<'a>) -> Option<Definition<'a>>
    ensures { option_map definition_of result ≡ definition_behind (rest_of trees.entry) }
{
    let name = take_name(&mut trees)?;
    defined_as(name, trees)
}

/// Returns the definition that comes first, if there is one.
pub fn definition_in<'a>(mut trees: TtIter<'a>) -> Option<Definition<'a>>
    ensures { option_map definition_of result ≡ definition_in (rest_of trees.entry) }
{
    if !is_at_word(trees.remaining().iter(), "macro_rules") {
        return None;
    }
    trees.next();
    if trees.expect_char('!').is_err() {
        return None;
    }
    definition_behind(trees)
}

// Returns the call of a name, `!` and a subtree that come first, if there is one; `before` trees of the call precede them.
fn call_behind<'a>(mut trees: TtIter<'a>, before: usize, path: MacroPath) -> Option<Call<'a>>
    requires { before ≤ COLONS_ROOT_LEN }
    ensures { option_map call_of result ≡ call_behind before path (rest_of trees.entry) }
{
    let name = take_name(&mut trees)?;
    if trees.expect_char('!').is_err() {
        return None;
    }
    let Ok((header, input)) = trees.expect_subtree() else {
        return None;
    };
    Some(Call {
        attributes: 0,
        name,
        path,
        header,
        input,
        len: before + 3,
    })
}

// Returns whether `::` comes first as one token.
fn is_at_colons(mut trees: TtIter<'_>) -> bool
    ensures { result ≡ is_at_colons (rest_of trees.entry) }
{
    if unit_size(trees.remaining().iter()) != COLONS_LEN {
        return false;
    }
    if trees.expect_char(':').is_err() {
        return false;
    }
    is_at_punct(trees, ':')
}

// Returns whether the root of the crate comes first: `crate`, or the root's word.
fn is_at_root(trees: TtIter<'_>, root: &str) -> bool
    ensures { result ≡ is_at_root root.now (rest_of trees.entry) }
{
    is_at_word(trees.remaining().iter(), "crate") || is_at_word(trees, root)
}

// Returns whether the root of the crate and `::` come first.
fn is_at_root_path(trees: TtIter<'_>, root: &str) -> bool
    ensures { result ≡ is_at_root_path root.now (rest_of trees.entry) }
{
    let mut behind = trees.remaining().iter();
    behind.next();
    is_at_root(trees, root) && is_at_colons(behind)
}

// Returns the call whose path begins with `::`, if these trees follow that and one is there.
fn call_behind_colons<'a>(mut trees: TtIter<'a>, root: &str) -> Option<Call<'a>>
    ensures { option_map call_of result ≡ call_behind_colons root.now (rest_of trees.entry) }
{
    if is_at_root_path(trees.remaining().iter(), root) {
        pass(&mut trees, ROOT_LEN);
        return call_behind(trees, COLONS_ROOT_LEN, MacroPath::Other);
    }
    call_behind(trees, COLONS_LEN, MacroPath::Other)
}

// Returns the call that comes first, if there is one.
fn call_in<'a>(mut trees: TtIter<'a>, root: &str) -> Option<Call<'a>>
    ensures { option_map call_of result ≡ call_in root.now (rest_of trees.entry) }
{
    if is_at_colons(trees.remaining().iter()) {
        pass(&mut trees, COLONS_LEN);
        return call_behind_colons(trees, root);
    }
    if is_at_root_path(trees.remaining().iter(), root) {
        pass(&mut trees, ROOT_LEN);
        return call_behind(trees, ROOT_LEN, MacroPath::Root);
    }
    call_behind(trees, 0, MacroPath::Name)
}

// Returns whether a `!` or a `:` comes first.
fn is_at_sign(mut trees: TtIter<'_>) -> bool
    ensures { result ≡ is_at_sign (rest_of trees.entry) }
{
    match trees.next() {
        Some(TtElement::Leaf(Leaf::Punct(punct))) => punct.char == '!' || punct.char == ':',
        _ => false,
    }
}

// Returns whether a definition or a call may begin here. In most places two trees are enough to rule out both, without a look at words.
fn may_begin_item(mut trees: TtIter<'_>) -> bool
    ensures { result ≡ may_begin_item (rest_of trees.entry) }
{
    match trees.next() {
        Some(TtElement::Leaf(Leaf::Ident(_))) => is_at_sign(trees),
        Some(TtElement::Leaf(Leaf::Punct(punct))) => punct.char == ':',
        _ => false,
    }
}

/// Returns what comes first.
pub fn item_in<'a>(trees: TtIter<'a>, root: &str) -> Item<'a>
    ensures { item_meant result ≡ item_in root.now (rest_of trees.entry) }
{
    if !may_begin_item(trees.remaining().iter()) {
        return Item::Other;
    }
    if let Some(definition) = definition_in(trees.remaining().iter()) {
        return Item::Definition(definition);
    }
    match call_in(trees, root) {
        Some(call) => Item::Call(call),
        None => Item::Other,
    }
}
