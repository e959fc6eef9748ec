//! Trees as Rust text with the gaps that a caller chooses.
ghost use Rattle.std.specs.Prelude.{◌≡◌, ◌≤◌, ◌⊎◌, ◌<◌, ◌+◌, ◌^◌, IfOk, IfErr, length, map, string_bytes};
ghost use Rattle.syntax_layout.specs.Gap.{AreGaps};
ghost use Rattle.syntax_layout.specs.Layout.{AreFit, IsFit, IsLaidTree, IsTreeText};
ghost use Rattle.syntax_edit.specs.Splices.{IsSpelling};
ghost use Rattle.syntax_unparse.specs.Text.{text_of};
ghost use Rattle.syntax_unparse.specs.Writable.{IsWritable, IsWriteFault};
ghost use Rattle.tt_view.specs.Views.{trees_of};

use crate::gap::{MOST_BYTES, is_gap};
use crate::layout::laid_out;
use std::alloc::{AllocError, Global};
use syntax_lex::MOST_TEXT_BYTES;
use syntax_unparse::{WriteFault, rust_text};
use tt_view::TokenTreesView;

/// Returns the text if it is a gap, and else an empty one.
pub(crate) fn or_empty<'g>(gap: &'g str) -> &'g str
    ensures { IsFit gap.now result.now }
{
    if is_gap(gap) { gap } else { "" }
}

/// Returns these gaps, with an empty one in place of each text that is none.
pub fn fit<'g>(alloc: Global, gaps: &[&'g str]) -> Result<Vec<&'g str>, AllocError>
    ensures fit { IfOk result (λ all. AreFit (map (λ g. g.now) gaps.now) (map (λ g. g.now) all.items)) }
    ensures gaps { IfOk result (λ all. AreGaps (map (λ g. g.now) all.items)) }
{
    let mut all = Vec::new(alloc);
    for gap in gaps {
        all.push(or_empty(gap))?;
    }
    Ok(all)
}

// Returns the text that is laid out, or the plain text if the first is too long.
fn shorter(laid: String, plain: String) -> String
    requires { 1 + length (string_bytes plain) < 2 ^ 32 }
    ensures is { ((string_bytes result ≡ string_bytes laid) × (1 + length (string_bytes laid) < 2 ^ 32)) ⊎ ((string_bytes result ≡ string_bytes plain) × (2 ^ 32 ≤ 1 + length (string_bytes laid))) }
    ensures short { 1 + length (string_bytes result) < 2 ^ 32 }
{
    if laid.len() < MOST_TEXT_BYTES {
        laid
    } else {
        plain
    }
}

/// Returns the text of trees laid out with gaps, or as it is if the laid text is too long.
pub fn lay_out_trees(
    alloc: Global,
    trees: TokenTreesView<'_>,
    plain: String,
    gaps: &[&str],
) -> Result<String, AllocError>
    requires text { string_bytes plain ≡ text_of (trees_of trees) }
    requires writable { IsWritable (trees_of trees) }
    requires short { length (string_bytes plain) < 2 ^ 31 }
    requires gaps { AreGaps (map (λ g. g.now) gaps.now) }
    ensures layout { IfOk result (λ text. IsLaidTree (trees_of trees.entry) (map (λ g. g.now) gaps.now) (string_bytes text)) }
    ensures spells { IfOk result (λ text. IsSpelling (trees_of trees.entry) (string_bytes text)) }
    ensures short { IfOk result (λ text. 1 + length (string_bytes text) < 2 ^ 32) }
{
    match laid_out(alloc, plain.as_str(), gaps)? {
        Some(laid) => Ok(shorter(laid, plain)),
        // no token of it is a comment that documents something
        None => unreachable!(),
    }
}

/// Returns the Rust text of trees with the n-th of these gaps before its n-th token, a lifetime being one token, and one more behind the
/// last. A text that is no gap counts as an empty one.
///
/// If the text has more than `MOST_BYTES` bytes, or the laid text would be too long, it is that of `rust_text`.
pub fn rust_text_with_gaps(
    alloc: Global,
    trees: TokenTreesView<'_>,
    gaps: &[&str],
) -> Result<String, WriteFault>
    ensures layout { IfOk result (λ text. IsTreeText (trees_of trees.entry) (map (λ g. g.now) gaps.now) (string_bytes text)) }
    ensures spells { IfOk result (λ text. IsSpelling (trees_of trees.entry) (string_bytes text)) }
    ensures short { IfOk result (λ text. 1 + length (string_bytes text) < 2 ^ 32) }
    ensures err { IfErr result (IsWriteFault (trees_of trees.entry)) }
{
    let plain = rust_text(alloc, trees)?;
    if plain.len() > MOST_BYTES {
        return Ok(plain);
    }
    let gaps = fit(alloc, gaps)?;
    Ok(lay_out_trees(alloc, trees, plain, gaps.as_slice())?)
}
