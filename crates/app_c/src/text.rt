//! Texts as trees in bytes, and trees in bytes as texts.
ghost use Rattle.std.specs.Prelude.{◌≡◌, IfOk, IfErr, IsUtf8, string_bytes};
ghost use Rattle.app_c.specs.Texts.{AreBytesOfText, HasNone, HasNoText, HasNoTree, HaveNoText, IsNoText, IsTextOf, IsTextOfBytes, IsTreeOf};

use crate::bytes::{bytes_of_tree, tree_of_bytes};
use crate::failure::{Failure, text_failure, write_failure};
use crate::fault::Fault;
use std::alloc::Global;
use syntax_layout::rust_text_spaced;
use syntax_parse::parse_to_token_tree;
use tt::{ErasedFileAstId, FileId, SpanAnchor, SyntaxContext, TopSubtree};

/// Returns the text of these bytes.
pub(crate) fn text_in(bytes: &[u8]) -> Result<&str, Failure>
    ensures ok { IfOk result (λ text. (text.now ≡ bytes.now) × IsUtf8 bytes.now) }
    ensures err { IfErr result (IsNoText bytes.now) }
{
    match str::from_utf8(bytes) {
        Ok(text) => Ok(text),
        Err(error) => Err(Failure {
            fault: Fault::NotUtf8,
            at: error.valid_up_to(),
        }),
    }
}

// Returns the tree of a text.
fn tree_of_text(alloc: Global, bytes: &[u8]) -> Result<TopSubtree, Failure>
    ensures ok { IfOk result (IsTreeOf bytes.now) }
    ensures err { IfErr result (HasNoTree bytes.now) }
{
    let text = text_in(bytes)?;
    let anchor = SpanAnchor {
        file_id: FileId(0),
        ast_id: ErasedFileAstId(0),
    };
    match parse_to_token_tree(alloc, anchor, SyntaxContext(0), text) {
        Ok(tree) => Ok(tree),
        Err(fault) => Err(text_failure(fault)),
    }
}

/// Returns the bytes of the tree of a text.
pub(crate) fn bytes_of_text(alloc: Global, text: &[u8]) -> Result<Vec<u8>, Failure>
    ensures ok { IfOk result (λ bytes. AreBytesOfText text.now bytes.items) }
    ensures err { IfErr result (HasNone text.now) }
{
    let tree = tree_of_text(alloc, text)?;
    bytes_of_tree(alloc, &tree)
}

// Returns the text of a tree, spaced as by rustfmt within a line.
fn text_of_tree(alloc: Global, tree: &TopSubtree) -> Result<String, Failure>
    ensures ok { IfOk result (λ text. IsTextOf tree.now (string_bytes text)) }
    ensures err { IfErr result (HasNoText tree.now) }
{
    match rust_text_spaced(alloc, tree.token_trees()) {
        Ok(text) => Ok(text),
        Err(fault) => Err(write_failure(fault)),
    }
}

/// Returns the text of the tree that has these bytes.
pub(crate) fn text_of_bytes(alloc: Global, bytes: &[u8]) -> Result<String, Failure>
    ensures ok { IfOk result (λ text. IsTextOfBytes bytes.now (string_bytes text)) }
    ensures err { IfErr result (HaveNoText bytes.now) }
{
    let tree = tree_of_bytes(alloc, bytes)?;
    text_of_tree(alloc, &tree)
}
