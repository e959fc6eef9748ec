//! Trees as Rust text that looks like the source that they come from.
ghost use Rattle.std.specs.Prelude.{◌<◌, ◌+◌, ◌^◌, IfOk, IfErr, length, string_bytes};
ghost use Rattle.syntax_edit.specs.Splices.{IsSpelling};
ghost use Rattle.syntax_layout.specs.Layout.{IsLaidText};
ghost use Rattle.syntax_unparse.specs.Text.{text_of};
ghost use Rattle.syntax_unparse.specs.Writable.{IsWritable, IsWriteFault};
ghost use Rattle.tt_view.specs.Views.{trees_of};

use crate::choosing::{Chooser, Sources};
use crate::documenting::with_comments;
use crate::gap::MOST_BYTES;
use crate::indenting::Gaps;
use crate::pieces::gaps_of;
use crate::places::{Written, written_of};
use crate::trees::lay_out_trees;
use std::alloc::{AllocError, Global};
use syntax_unparse::{WriteFault, rust_text};
use tt_view::TokenTreesView;

// Chooses the gaps before the tokens that a plain text has, and the one behind the last.
fn choose_gaps(
    alloc: Global,
    plain: &str,
    written: &[Written],
    sources: &Sources<'_>,
    begin: usize,
) -> Result<Gaps, AllocError> {
    let mut chooser = Chooser::new(alloc, sources, begin, plain, written.len())?;
    for token in written {
        chooser.pass(*token)?;
    }
    chooser.close(begin)?;
    Ok(chooser.gaps)
}

/// Returns the Rust text of trees that replace a call, laid out as their tokens are in a source. `begin` is the byte at which the call begins
/// there. Between two tokens that are not side by side in the source, the gap is that of a template, or the space of `rust_text_spaced`.
/// Comments replace documenting attributes, as in `documented`.
///
/// If the text has more than `MOST_BYTES` bytes, or the laid text would be too long, it is that of `rust_text`.
pub fn rust_text_laid(
    alloc: Global,
    trees: TokenTreesView<'_>,
    sources: &Sources<'_>,
    begin: usize,
) -> Result<String, WriteFault>
    ensures layout { IfOk result (λ text. IsLaidText (trees_of trees.entry) (string_bytes text)) }
    ensures spells { IfOk result (λ text. IsSpelling (trees_of trees.entry) (string_bytes text)) }
    ensures writable { IfOk result (λ text. IsWritable (trees_of trees.entry)) }
    ensures fits { IfOk result (λ text. 1 + length (text_of (trees_of trees.entry)) < 2 ^ 32) }
    ensures short { IfOk result (λ text. 1 + length (string_bytes text) < 2 ^ 32) }
    ensures err { IfErr result (IsWriteFault (trees_of trees.entry)) }
{
    let plain = rust_text(alloc, trees)?;
    if plain.len() > MOST_BYTES {
        return Ok(plain);
    }
    let written = written_of(alloc, sources.text, trees)?;
    let chosen = choose_gaps(alloc, plain.as_str(), written.as_slice(), sources, begin)?;
    let moved = chosen.moved.as_str();
    let gaps = gaps_of(alloc, sources.text, moved, chosen.pieces.as_slice())?;
    let laid = lay_out_trees(alloc, trees, plain, gaps.as_slice())?;
    Ok(with_comments(alloc, laid)?)
}
