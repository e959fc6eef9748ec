//! The tree of a text.
use crate::error::BenchError;
use std::alloc::Global;
use syntax_parse::{TextFault, parse_to_token_tree};
use tt::{ErasedFileAstId, FileId, SpanAnchor, SyntaxContext, TopSubtree};

/// The character between one text and the next.
pub const BETWEEN_TEXTS: char = '\u{1}';

/// Returns the tree of a text of file 0, item 0 and context 0.
pub fn read(alloc: Global, text: &str) -> Result<TopSubtree, TextFault> {
    let anchor = SpanAnchor {
        file_id: FileId(0),
        ast_id: ErasedFileAstId(0),
    };
    parse_to_token_tree(alloc, anchor, SyntaxContext(0), text)
}

/// Returns the same, if the text has a tree, or `Refused`.
pub fn tree_of(alloc: Global, text: &str) -> Result<TopSubtree, BenchError> {
    match read(alloc, text) {
        Ok(tree) => Ok(tree),
        Err(fault) => Err(BenchError::Refused(fault)),
    }
}
