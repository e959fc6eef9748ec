//! The gaps that rustfmt would choose within a line.
ghost use Rattle.std.specs.Prelude.{◌≡◌, ◌<◌, ◌+◌, ◌^◌, IfOk, IfErr, length, map, string_bytes};
ghost use Rattle.syntax_layout.specs.Gap.{AreGaps};
ghost use Rattle.syntax_layout.specs.Spaces.{AreSpaces, IsSpacedText, space_between};
ghost use Rattle.syntax_edit.specs.Splices.{IsSpelling};
ghost use Rattle.syntax_unparse.specs.Text.{text_of};
ghost use Rattle.syntax_unparse.specs.Writable.{IsWritable, IsWriteFault};
ghost use Rattle.tt_view.specs.Views.{trees_of};

use crate::gap::MOST_BYTES;
use crate::kinds::is_blank;
use crate::part::{Part, touches};
use crate::passed::{part_of, passed_after, start};
use crate::trees::lay_out_trees;
use std::alloc::{AllocError, Global};
use syntax_lex::first_token;
use syntax_unparse::{WriteFault, rust_text};
use tt_view::TokenTreesView;

/// Returns the gap between two tokens.
pub(crate) fn space_between(before: Part, next: Part) -> &'static str
    ensures { result.now ≡ space_between before next }
{
    if touches(before, next) { "" } else { " " }
}

/// Returns the gaps before the tokens of a text: a space or nothing, as rustfmt chooses between two tokens of a line.
pub fn spaces(alloc: Global, text: &str) -> Result<Vec<&'static str>, AllocError>
    requires fits { length text.now < 2 ^ 32 }
    ensures are { IfOk result (λ all. AreSpaces text.now (map (λ g. g.now) all.items)) }
    ensures gaps { IfOk result (λ all. AreGaps (map (λ g. g.now) all.items)) }
{
    let mut gaps = Vec::new(alloc);
    let mut passed = start();
    let mut touching = false;
    let mut rest = text;
    while !rest.is_empty() {
        let token = first_token(rest);
        let (word, behind) = rest.split_at(token.len as usize);
        if is_blank(token.kind) {
            touching = false;
        } else {
            let next = behind.as_bytes().first().copied();
            let part = part_of(passed, touching, next, token.kind, word);
            gaps.push(space_between(passed.part, part))?;
            passed = passed_after(passed, token.kind, word, part);
            touching = true;
        }
        rest = behind;
    }
    Ok(gaps)
}

/// Returns the Rust text of trees with the spaces that rustfmt would put between its tokens.
///
/// If the text has more than `MOST_BYTES` bytes, or the laid text would be too long, it is that of `rust_text`.
pub fn rust_text_spaced(alloc: Global, trees: TokenTreesView<'_>) -> Result<String, WriteFault>
    ensures layout { IfOk result (λ text. IsSpacedText (trees_of trees.entry) (string_bytes text)) }
    ensures spells { IfOk result (λ text. IsSpelling (trees_of trees.entry) (string_bytes text)) }
    ensures writable { IfOk result (λ _. IsWritable (trees_of trees.entry)) }
    ensures fits { IfOk result (λ _. 1 + length (text_of (trees_of trees.entry)) < 2 ^ 32) }
    ensures short { IfOk result (λ text. 1 + length (string_bytes text) < 2 ^ 32) }
    ensures err { IfErr result (IsWriteFault (trees_of trees.entry)) }
{
    let plain = rust_text(alloc, trees)?;
    if plain.len() > MOST_BYTES {
        return Ok(plain);
    }
    let gaps = spaces(alloc, plain.as_str())?;
    Ok(lay_out_trees(alloc, trees, plain, gaps.as_slice())?)
}
