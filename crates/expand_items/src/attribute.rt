//! Attributes, and calls behind them.
ghost use Rattle.std.specs.Prelude.{◌≡◌, ◌+◌, ◌<◌, ◌^◌, IfOk, false};
ghost use Rattle.tt.specs.Forest.{size};
ghost use Rattle.tt.specs.Iters.{rest_of};
ghost use Rattle.expand_items.specs.Attributes.{attributes_len, begins_attributes, is_at_attribute, is_at_condition, is_attribute_sign, item_at, item_behind, with_attributes};
ghost use Rattle.expand_items.specs.Cfg.{known_of};
ghost use Rattle.expand_items.specs.Inactive.{IsItemAt};
ghost use Rattle.expand_items.specs.Items.{call_of, item_in, item_meant};
ghost use Rattle.expand_items.specs.Positions.{begins_with_attribute, is_at_attribute_of, is_at_brackets, is_at_inner, is_attribute_of};

use crate::cfg::CfgOptions;
use crate::inactive::inactive_len;
use crate::item::{Call, Item, item_in};
use crate::position::Position;
use mbe_pattern::{is_at_word, pass};
use std::alloc::{AllocError, Global};
use tt::{DelimiterKind, Leaf, TtElement, TtIter};

/// The number of trees of an attribute: `#` and brackets.
const ATTRIBUTE_LEN: usize = 2;

/// Returns whether the first tree is brackets.
pub(crate) fn is_at_brackets(mut trees: TtIter<'_>) -> bool
    ensures { result ≡ is_at_brackets (rest_of trees.entry) }
{
    match trees.next() {
        Some(TtElement::Subtree(header, _)) => header.delimiter.kind == DelimiterKind::Bracket,
        _ => false,
    }
}

// Returns whether these are brackets that begin with a word.
fn is_attribute_of(word: &str, kind: DelimiterKind, inside: TtIter<'_>) -> bool
    ensures { result ≡ is_attribute_of word.now kind (rest_of inside.entry) }
{
    kind == DelimiterKind::Bracket && is_at_word(inside, word)
}

/// Returns whether such brackets come first.
pub(crate) fn is_at_attribute_of(word: &str, mut trees: TtIter<'_>) -> bool
    ensures { result ≡ is_at_attribute_of word.now (rest_of trees.entry) }
{
    match trees.next() {
        Some(TtElement::Subtree(header, inside)) => {
            is_attribute_of(word, header.delimiter.kind, inside)
        }
        _ => false,
    }
}

/// Returns whether a leaf is the `#` of an attribute.
pub fn is_attribute_sign(leaf: &Leaf) -> bool
    ensures { result ≡ is_attribute_sign leaf.now }
{
    match leaf {
        Leaf::Punct(punct) => punct.char == '#',
        Leaf::Literal(_) | Leaf::Ident(_) => false,
    }
}

/// Returns whether an attribute comes first.
pub fn is_attribute(mut trees: TtIter<'_>) -> bool
    ensures { result ≡ is_at_attribute (rest_of trees.entry) }
{
    match trees.next() {
        Some(TtElement::Leaf(leaf)) => is_attribute_sign(&leaf) && is_at_brackets(trees),
        _ => false,
    }
}

/// Returns whether an inner attribute, `#![..]`, comes first.
pub(crate) fn is_at_inner(mut trees: TtIter<'_>) -> bool
    ensures { result ≡ is_at_inner (rest_of trees.entry) }
{
    trees.expect_char('#').is_ok() && trees.expect_char('!').is_ok() && is_at_brackets(trees)
}

/// Returns whether one of the inner attributes that come first begins with a word.
pub(crate) fn begins_with_attribute(word: &str, mut trees: TtIter<'_>) -> bool
    ensures { result ≡ begins_with_attribute word.now (rest_of trees.entry) }
{
    while is_at_inner(trees.remaining().iter()) {
        pass(&mut trees, ATTRIBUTE_LEN);
        if is_at_attribute_of(word, trees.remaining().iter()) {
            return true;
        }
        pass(&mut trees, 1);
    }
    false
}

/// Returns the number of trees of the attributes that come first.
pub fn attributes_len(mut trees: TtIter<'_>) -> usize
    ensures { result ≡ attributes_len (rest_of trees.entry) }
{
    let mut len = 0;
    while is_attribute(trees.remaining().iter()) {
        pass(&mut trees, ATTRIBUTE_LEN);
        len += ATTRIBUTE_LEN;
    }
    len
}

/// Returns whether a condition, `#[cfg(..)]`, comes first.
pub fn is_condition(mut attribute: TtIter<'_>) -> bool
    ensures { result ≡ is_at_condition (rest_of attribute.entry) }
{
    attribute.expect_char('#').is_ok() && is_at_attribute_of("cfg", attribute)
}

// Returns the call with the attributes before it as a part of it.
fn with_attributes<'a>(attributes: usize, call: Call<'a>) -> Call<'a>
    requires { attributes + call.len < 2 ^ 64 }
    ensures { call_of result ≡ with_attributes attributes (call_of call.entry) }
{
    Call {
        attributes,
        len: attributes + call.len,
        ..call
    }
}

// Returns what follows the attributes: a call, with the attributes as a part, if it is a statement or an item.
fn item_behind<'a>(
    position: Position,
    attributes: usize,
    mut trees: TtIter<'a>,
    root: &str,
) -> Item<'a>
    requires { attributes + size (rest_of trees) < 2 ^ 64 }
    ensures { item_meant result ≡ item_behind position attributes (rest_of trees.entry) (item_in root.now (rest_of trees.entry)) }
{
    match item_in(trees.remaining().iter(), root) {
        Item::Call(call) => {
            pass(&mut trees, call.len);
            if position.is_statement(attributes, call.header.delimiter.kind, trees) {
                Item::Call(with_attributes(attributes, call))
            } else {
                Item::Other
            }
        }
        Item::Definition(_) | Item::Inactive(_) | Item::Other => Item::Other,
    }
}

// Returns whether the first attribute of a statement or an item comes first at a position.
fn begins_attributes(position: Position, trees: TtIter<'_>) -> bool
    ensures { result ≡ begins_attributes position (rest_of trees.entry) }
{
    position.is_start && !position.is_attributed && is_attribute(trees)
}

// Returns what comes first at a position, whatever attributes say: a call that is a statement or an item contains the attributes before it.
fn active_item_at<'a>(position: Position, mut trees: TtIter<'a>, root: &str) -> Item<'a>
    requires { position.is_verbatim ≡ false }
    ensures { item_meant result ≡ item_at root.now position (rest_of trees.entry) }
{
    if !begins_attributes(position, trees.remaining().iter()) {
        return item_in(trees, root);
    }
    let attributes = attributes_len(trees.remaining().iter());
    pass(&mut trees, attributes);
    item_behind(position, attributes, trees, root)
}

/// Returns what comes first at a position: a call that is a statement or an item contains the attributes before it. What an attribute gets
/// in brackets contains no call and no definition. What is under a condition that the options say is false is `Inactive` with all its trees:
/// a statement or an item, or all that is left after `#![cfg(..)]`. Fails only if memory runs out, which it takes only if an attribute comes
/// first.
pub fn item_at<'a>(
    alloc: Global,
    options: &CfgOptions,
    position: Position,
    trees: TtIter<'a>,
    root: &str,
) -> Result<Item<'a>, AllocError>
    ensures { IfOk result (λ item. IsItemAt (known_of options.now) root.now position (rest_of trees.entry) (item_meant item)) }
{
    if position.is_verbatim() {
        return Ok(Item::Other);
    }
    match inactive_len(alloc, options, position, trees.remaining().iter())? {
        Some(len) => Ok(Item::Inactive(len)),
        None => Ok(active_item_at(position, trees, root)),
    }
}
