//! Texts, trees in bytes and macros, for callers in other languages (docs/EMBEDDING.md).
//!
//! Each function takes its input as slices and writes into a slice of the caller. It returns 0 or
//! the number of a `Fault`; it sets `written` to the number of bytes that it writes, or would write
//! if there were room for them, and `at` to the place of the fault. It keeps nothing between calls.
#![tactic(auto)]

ghost use Rattle.app_c.specs.Answers.{Answers, AnswersBoth};
ghost use Rattle.app_c.specs.Bytes.{IsChecked};
ghost use Rattle.app_c.specs.ExpandedTexts.{IsExpandedText, IsNotExpanded};
ghost use Rattle.app_c.specs.Expanding.{AreBytesOfExpansion, HasNoBytesOf};
ghost use Rattle.app_c.specs.Listings.{IsListed, IsNotListed};
ghost use Rattle.app_c.specs.declared.asked.Asked.{Asked};
ghost use Rattle.app_c.specs.Texts.{AreBytesOfText, HasNone, HaveNoText, IsTextOfBytes};
ghost use Rattle.app_c.specs.Tokens.{AreTokensIn, HaveNoTokens};

mod answer;
mod asked;
mod bytes;
mod conditions;
mod expanding;
mod failure;
mod fault;
mod listing;
mod macros;
mod text;
mod tokens;

use crate::answer::{give, give_both, tell};
use crate::asked::Asked;
use crate::bytes::tree_of_bytes;
use crate::expanding::{expanded_text, listed_text};
use crate::macros::expanded_bytes;
use crate::text::{bytes_of_text, text_of_bytes};
use crate::tokens::tokens_of_bytes;
use std::alloc::Global;

/// Writes the bytes of the tree of a Rust text.
#[unsafe(no_mangle)]
pub extern "C" fn tt_text_to_bytes(
    alloc: Global,
    text: &[u8],
    out: &mut [u8],
    written: &mut usize,
    at: &mut usize,
) -> u32
    ensures { Answers (AreBytesOfText text.now) (HasNone text.now) out.old out.new written.new at.new result }
{
    match bytes_of_text(alloc, text) {
        Ok(bytes) => give(bytes.as_slice(), out, written, at),
        Err(failure) => tell(failure, written, at),
    }
}

/// Writes the Rust text of the tree that has these bytes, spaced as by rustfmt within a line.
#[unsafe(no_mangle)]
pub extern "C" fn tt_bytes_to_text(
    alloc: Global,
    bytes: &[u8],
    out: &mut [u8],
    written: &mut usize,
    at: &mut usize,
) -> u32
    ensures { Answers (IsTextOfBytes bytes.now) (HaveNoText bytes.now) out.old out.new written.new at.new result }
{
    match text_of_bytes(alloc, bytes) {
        Ok(text) => give(text.as_bytes(), out, written, at),
        Err(failure) => tell(failure, written, at),
    }
}

/// Writes the texts of the tokens of the tree that has these bytes, in reading order, and words about the tokens.
#[unsafe(no_mangle)]
pub extern "C" fn tt_bytes_to_tokens(
    alloc: Global,
    bytes: &[u8],
    out: &mut [u8],
    written: &mut usize,
    tokens: &mut [usize],
    found: &mut usize,
    at: &mut usize,
) -> u32
    ensures { AnswersBoth (AreTokensIn bytes.now) (HaveNoTokens bytes.now) out.old out.new tokens.old tokens.new written.new found.new at.new result }
{
    match tokens_of_bytes(alloc, bytes) {
        Ok(made) => give_both(&made, out, written, tokens, found, at),
        Err(failure) => {
            *found = 0;
            tell(failure, written, at)
        }
    }
}

/// Writes the text in which each call of a macro in scope is replaced by its expansion, with the usual options.
#[unsafe(no_mangle)]
pub extern "C" fn tt_expand_text(
    alloc: Global,
    text: &[u8],
    out: &mut [u8],
    written: &mut usize,
    at: &mut usize,
) -> u32
    ensures { Answers (IsExpandedText text.now) (IsNotExpanded text.now) out.old out.new written.new at.new result }
{
    match expanded_text(alloc, text) {
        Ok(text) => give(text.as_bytes(), out, written, at),
        Err(failure) => tell(failure, written, at),
    }
}

/// Writes the text in which each call of a macro in scope is replaced by its expansion, with these options, whatever is found, and words about
/// the findings.
#[unsafe(no_mangle)]
pub extern "C" fn tt_expand_text_with(
    alloc: Global,
    text: &[u8],
    root: &[u8],
    only: &[u8],
    cfg: &[u8],
    everywhere: u32,
    one_line: u32,
    limit: usize,
    max_tokens: usize,
    out: &mut [u8],
    written: &mut usize,
    findings: &mut [usize],
    found: &mut usize,
    at: &mut usize,
) -> u32
    ensures { let asked : Asked = record { root = root.entry; only = only.entry; cfg = cfg.entry; everywhere = everywhere; one_line = one_line; limit = limit; max_tokens = max_tokens } in
        AnswersBoth (IsListed text.now asked) (IsNotListed text.now asked) out.old out.new findings.old findings.new written.new found.new at.new result }
{
    let asked = Asked {
        root,
        only,
        cfg,
        everywhere,
        one_line,
        limit,
        max_tokens,
    };
    match listed_text(alloc, text, asked) {
        Ok(made) => give_both(&made, out, written, findings, found, at),
        Err(failure) => {
            *found = 0;
            tell(failure, written, at)
        }
    }
}

/// Writes the bytes of the expansion of an input by a macro. The macro's arms and the input are trees in bytes.
#[unsafe(no_mangle)]
pub extern "C" fn tt_expand_bytes(
    alloc: Global,
    arms: &[u8],
    input: &[u8],
    out: &mut [u8],
    written: &mut usize,
    at: &mut usize,
) -> u32
    ensures { Answers (AreBytesOfExpansion arms.now input.now) (HasNoBytesOf arms.now input.now) out.old out.new written.new at.new result }
{
    match expanded_bytes(alloc, arms, input) {
        Ok(bytes) => give(bytes.as_slice(), out, written, at),
        Err(failure) => tell(failure, written, at),
    }
}

/// Checks whether bytes are those of a tree.
#[unsafe(no_mangle)]
pub extern "C" fn tt_check_bytes(alloc: Global, bytes: &[u8], at: &mut usize) -> u32
    ensures { IsChecked bytes.now at.new result }
{
    match tree_of_bytes(alloc, bytes) {
        Ok(tree) => {
            drop(tree);
            *at = 0;
            0
        }
        Err(failure) => {
            *at = failure.at;
            failure.fault.number()
        }
    }
}
