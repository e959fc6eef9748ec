//! Calls that read Rust text into a tree, find its templates, and write a tree as such text.
use std::alloc::Global;
use syntax_layout::{Sources, rust_text_laid};
use syntax_parse::{TextFault, parse_to_token_tree};
use syntax_unparse::{WriteFault, rust_text};
use test_sweep::{Call, When, judge};
use tt::{ErasedFileAstId, FileId, SpanAnchor, SyntaxContext, TopSubtree, TtFault};

// What is read, and what is written of it.
const TEXT: &str = "fn a<'b>(c: &'b str) { /* d */ g![\"f\", 1_u8, r#e] } //! h\n";

const WRITTEN: &str = "fn a <'b > (c : &'b str) {g ! [\"f\" , 1_u8 , r#e]} # ! [doc = r\" h\"]";

const LAID: &str = "fn a<'b>(c: &'b str) { /* d */ g![\"f\", 1_u8, r#e] } # ![doc = r\" h\"]";

// A text with a template.
const RULES: &str = "macro_rules! m { ($($a:tt)*) => { $($a)* }; }";

/// How that call of the group ended.
pub fn judged<R: Print>(rt: &R, alloc: Global, call: &str) -> Result<&'static str, TtFault> {
    let tree = read(alloc)?;
    let sources = Sources::read(alloc, TEXT)?;
    let mut call = OfText {
        call,
        alloc,
        tree: &tree,
        sources: &sources,
    };
    Ok(judge(rt, &mut call))
}

// A call that is lent a text, or its tree.
#[derive(Clone, Copy)]
struct OfText<'a> {
    call: &'a str,
    alloc: Global,
    tree: &'a TopSubtree,
    sources: &'a Sources<'a>,
}

impl Call for OfText<'_> {
    fn make(&mut self) -> Result<bool, TtFault> {
        match self.call {
            "parse_to_token_tree" => Ok(read(self.alloc)? == *self.tree),
            "rust_text" => is_written(rust_text(self.alloc, self.tree.token_trees()), WRITTEN),
            "Sources::read" => {
                let _found = Sources::read(self.alloc, RULES)?;
                Ok(true)
            }
            "rust_text_laid" => {
                let trees = self.tree.token_trees();
                is_written(rust_text_laid(self.alloc, trees, self.sources, 0), LAID)
            }
            _ => Ok(false),
        }
    }

    fn is_left(&self, _when: When) -> Result<bool, TtFault> {
        Ok(read(self.alloc)? == *self.tree)
    }
}

// Whether a tree is written as that text.
fn is_written(written: Result<String, WriteFault>, text: &str) -> Result<bool, TtFault> {
    match written {
        Ok(found) => Ok(found.as_str() == text),
        Err(WriteFault::Memory) => Err(TtFault::Memory),
        Err(_) => Ok(false),
    }
}

// The tree of the text.
fn read(alloc: Global) -> Result<TopSubtree, TtFault> {
    let anchor = SpanAnchor {
        file_id: FileId(0),
        ast_id: ErasedFileAstId(0),
    };
    match parse_to_token_tree(alloc, anchor, SyntaxContext(0), TEXT) {
        Ok(tree) => Ok(tree),
        Err(TextFault::Limit(fault)) => Err(fault),
        Err(_) => Err(TtFault::NotOneSubtree),
    }
}
