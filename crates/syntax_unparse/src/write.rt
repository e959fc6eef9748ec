//! Trees as Rust text. The rest of each subtree that was entered is kept in memory, so memory bounds the depth of a tree.
ghost use Rattle.std.specs.Prelude.{◌≡◌, ◌+◌, ◌<◌, ◌≤◌, ◌^◌, ◌++◌, [], ◌∷◌, IfOk, IfErr, None, OnOk, string_bytes, length};
ghost use Rattle.tt_base.specs.LeafText.{ident_text, leaf_text};
ghost use Rattle.syntax_unparse.specs.Marks.{closes, opens, word};
ghost use Rattle.syntax_unparse.specs.Settled.{ReadsBack};
ghost use Rattle.syntax_unparse.specs.Text.{text_of};
ghost use Rattle.syntax_unparse.specs.Writable.{IsWritable, IsWriteFault};
ghost use Rattle.syntax_unparse.specs.Writing.{IsFaultAtEnd, IsFaultBefore, IsLeafRefused, Refusing, Writes};
ghost use Rattle.syntax_unparse.specs.declared.fault.WriteFault.TheVariants.{Memory};
ghost use Rattle.tt_view.specs.Views.{trees_of};

use crate::behind::{Behind, behind_leaf, may_end, opens_apart, wants_space};
use crate::brackets::brackets_of;
use crate::fault::WriteFault;
use crate::reads::{may_follow, reads_alone};
use std::alloc::{AllocError, Global};
use syntax_lex::MOST_TEXT_BYTES;
use syntax_parse::Bracket;
use tt_base::{Ident, IdentIsRaw, Leaf};
use tt_view::text::{closing, opening, space};
use tt_view::{TokenTreesView, TtElement, TtIter};

// What was written last: the place of the last leaf, what may follow, and the place of the first leaf
// that cannot be written, if there is one.
#[derive(Clone, Copy)]
struct Last {
    at: usize,
    behind: Behind,
    refused: Option<usize>,
}

// The rest of a subtree that was entered, and its brackets.
#[derive(Drop)]
struct Level<'a> {
    rest: TtIter<'a>,
    brackets: Option<Bracket>,
}

// Adds an ident.
fn write_ident(text: &mut String, ident: &Ident) -> Result<(), AllocError>
    ensures { OnOk result (string_bytes text.new ≡ string_bytes text.old ++ ident_text ident.now) }
{
    text.push_str(ident.is_raw.as_str())?;
    text.push_str(ident.sym.as_str())
}

// Replaces the text with that of the leaf.
fn put_text(text: &mut String, leaf: &Leaf) -> Result<(), AllocError>
    ensures { OnOk result (string_bytes text.new ≡ leaf_text leaf.now) }
{
    text.clear();
    match leaf {
        Leaf::Literal(literal) => write!(text, "{literal}"),
        Leaf::Punct(punct) => text.push(punct.char),
        Leaf::Ident(ident) => write_ident(text, ident),
    }
}

// Returns the text of the leaf: the symbol itself of a plain ident, and else a text written into `room`.
fn text_in<'a>(room: &'a mut String, leaf: &'a Leaf) -> Result<&'a str, AllocError>
    ensures { IfOk result (λ text. text.now ≡ leaf_text leaf.now) }
{
    if let Leaf::Ident(
        Ident {
            sym,
            is_raw: IdentIsRaw::No,
            ..
        },
    ) = leaf
    {
        return Ok(sym.as_str());
    }
    put_text(room, leaf)?;
    Ok(room.as_str())
}

// Returns the first leaf that cannot be written, among those before, or else the last one or the leaf that follows with this text.
fn refused_by(
    alloc: Global,
    last: Last,
    at: usize,
    leaf: &Leaf,
    text: &str,
) -> Result<Option<usize>, WriteFault>
    requires text { text.now ≡ leaf_text leaf.now }
    requires fits { length text.now + 1 < 2 ^ 32 }
    ensures ok { IfOk result (λ refused. IsLeafRefused last.refused last.at last.behind at leaf.now refused) }
    ensures err { IfErr result (λ fault. fault ≡ Memory) }
{
    if let Some(place) = last.refused {
        return Ok(Some(place));
    }
    if !may_follow(alloc, last.behind, leaf)? {
        return Ok(Some(last.at));
    }
    if !reads_alone(alloc, text, leaf)? {
        return Ok(Some(at));
    }
    Ok(None)
}

// Returns the first leaf that cannot be written, among those before, or else the last one, before a bracket or the end.
fn refused_at_end(last: Last) -> Option<usize>
    ensures { Refusing last [] result }
{
    if let Some(place) = last.refused {
        return Some(place);
    }
    if may_end(last.behind) {
        None
    } else {
        Some(last.at)
    }
}

// Adds the leaf after what was written last; `room` is for its text.
#[tactic(auto, using(crate::proofs::WriteFacts::writes_leaf, crate::proofs::WriteFacts::leaf_within))]
fn write_leaf(
    alloc: Global,
    text: &mut String,
    room: &mut String,
    last: Last,
    at: usize,
    leaf: &Leaf,
) -> Result<Last, WriteFault>
    ensures ok { IfOk result (λ next. Writes (string_bytes text.old) last (word at leaf.now ∷ []) (string_bytes text.new) next) }
    ensures err { IfErr result (IsFaultBefore last (word at leaf.now ∷ [])) }
{
    let leaf_text = text_in(room, leaf)?;
    if leaf_text.len() >= MOST_TEXT_BYTES {
        return Err(WriteFault::TooLong);
    }
    let refused = refused_by(alloc, last, at, leaf, leaf_text)?;
    text.push_str(space(wants_space(last.behind, leaf, leaf_text)))?;
    text.push_str(leaf_text)?;
    Ok(Last {
        at,
        behind: behind_leaf(leaf),
        refused,
    })
}

// Adds the opening of a subtree, if it has brackets.
fn write_opening(
    text: &mut String,
    last: Last,
    brackets: Option<Bracket>,
) -> Result<Last, WriteFault>
    ensures ok { IfOk result (λ next. Writes (string_bytes text.old) last (opens brackets) (string_bytes text.new) next) }
    ensures err { IfErr result (IsFaultBefore last (opens brackets)) }
{
    let Some(bracket) = brackets else {
        return Ok(last);
    };
    let refused = refused_at_end(last);
    text.push_str(space(opens_apart(last.behind)))?;
    text.push_str(opening(bracket.kind()))?;
    Ok(Last {
        at: last.at,
        behind: Behind::Opening,
        refused,
    })
}

// Adds the closing of a subtree, if it has brackets.
fn write_closing(
    text: &mut String,
    last: Last,
    brackets: Option<Bracket>,
) -> Result<Last, WriteFault>
    ensures ok { IfOk result (λ next. Writes (string_bytes text.old) last (closes brackets) (string_bytes text.new) next) }
    ensures err { IfErr result (IsFaultBefore last (closes brackets)) }
{
    let Some(bracket) = brackets else {
        return Ok(last);
    };
    let refused = refused_at_end(last);
    text.push_str(closing(bracket.kind()))?;
    Ok(Last {
        at: last.at,
        behind: Behind::Apart,
        refused,
    })
}

// Returns the text after all is written.
fn ended(text: String, last: Last) -> Result<String, WriteFault>
    ensures ok { IfOk result (λ all. (string_bytes all ≡ string_bytes text) × (2 ^ 32 ≤ 1 + length (string_bytes text) → ⊥) × Refusing last [] None) }
    ensures err { IfErr result (IsFaultAtEnd (string_bytes text) last) }
{
    if text.len() >= MOST_TEXT_BYTES {
        return Err(WriteFault::TooLong);
    }
    if let Some(at) = refused_at_end(last) {
        return Err(WriteFault::NotWritable { at });
    }
    Ok(text)
}

/// Returns the Rust text of trees: that of Display, except for subtrees without brackets and for texts that would not read back.
///
/// An opaque subtree has parentheses if it shows two trees or more. A `'` touches its name. A `#` has a space before a string.
///
/// Returns `TooLong` if the text is too long, also if a leaf cannot be written.
pub fn rust_text(alloc: Global, trees: TokenTreesView<'_>) -> Result<String, WriteFault>
    ensures text { IfOk result (λ text. string_bytes text ≡ text_of (trees_of trees.entry)) }
    ensures writable { IfOk result (λ _. IsWritable (trees_of trees.entry)) }
    ensures back { IfOk result (λ text. ReadsBack (trees_of trees.entry) (string_bytes text)) }
    ensures short { IfOk result (λ text. 1 + length (string_bytes text) < 2 ^ 32) }
    ensures err { IfErr result (IsWriteFault (trees_of trees.entry)) }
{
    let tokens = trees.len();
    let mut text = String::new(alloc);
    let mut room = String::new(alloc);
    let mut last = Last {
        at: 0,
        behind: Behind::Opening,
        refused: None,
    };
    let mut at = 0;
    let mut level = Level {
        rest: trees.iter(),
        brackets: None,
    };
    // the rests of the levels around it, the innermost last
    let mut outer = Vec::new(alloc);
    'tokens: loop {
        match level.rest.next() {
            Some(TtElement::Leaf(leaf)) => {
                last = write_leaf(alloc, &mut text, &mut room, last, at, &leaf)?;
                at += 1;
            }
            Some(TtElement::Subtree(subtree, children)) => {
                let brackets = brackets_of(alloc, subtree.delimiter.kind, &children)?;
                last = write_opening(&mut text, last, brackets)?;
                at += 1;
                outer.push(level)?;
                level = Level {
                    rest: children,
                    brackets,
                };
            }
            None => {
                last = write_closing(&mut text, last, level.brackets)?;
                let Some(round) = outer.pop() else {
                    return ended(text, last);
                };
                level = round;
            }
        }
    }
}

/// Checks that trees can be written; returns the fault of `rust_text` if it has one.
pub fn is_writable(alloc: Global, trees: TokenTreesView<'_>) -> Result<(), WriteFault>
    ensures ok { OnOk result (IsWritable (trees_of trees.entry)) }
    ensures err { IfErr result (IsWriteFault (trees_of trees.entry)) }
{
    rust_text(alloc, trees)?;
    Ok(())
}
