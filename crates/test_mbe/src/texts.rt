//! The trees and matchers of texts, for the examples.
use mbe_program::Matcher;
use std::alloc::Global;
use std::test::Fail;
use syntax_parse::parse_to_token_tree;
use tt::{ErasedFileAstId, FileId, SpanAnchor, SyntaxContext, TopSubtree};

/// Returns the tree of a text, if it has one.
pub(crate) fn tree_of(alloc: Global, text: &str) -> Option<TopSubtree> {
    let anchor = SpanAnchor {
        file_id: FileId(0),
        ast_id: ErasedFileAstId(0),
    };
    parse_to_token_tree(alloc, anchor, SyntaxContext(0), text).ok()
}

/// Returns the matcher of a text.
pub(crate) fn matcher_of(alloc: Global, pattern: &str) -> Option<Matcher> {
    let pattern = tree_of(alloc, pattern)?;
    Matcher::new(alloc, pattern.token_trees().iter()).ok()
}

/// Passes a test if its condition holds.
pub(crate) fn holds(is_so: bool) -> Result<(), Fail> {
    if is_so {
        Ok(())
    } else {
        Err(Fail::new("a row is answered otherwise"))
    }
}
