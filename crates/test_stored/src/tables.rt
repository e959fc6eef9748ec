//! The tables that the rows of tokens are written under.

use std::alloc::Global;
use tt_base::{
    ErasedFileAstId, FileId, Span, SpanAnchor, SpanPart, Symbol, SyntaxContext, TextRange,
    TextSize, TokenTree, TtFault,
};
use tt_pack::laws;

/// The number of a part, and where a span starts and ends.
pub(crate) type Spot = (u32, u32, u32);

/// Parts and symbols.
#[derive(Drop)]
pub(crate) struct Tables {
    parts: Vec<SpanPart>,
    symbols: Vec<Symbol>,
}

// The part with that number.
fn part(number: u32) -> SpanPart {
    SpanPart {
        anchor: SpanAnchor {
            file_id: FileId(number),
            ast_id: ErasedFileAstId(0),
        },
        ctx: SyntaxContext(0),
    }
}

/// The span there. It is empty where it would end before it starts.
pub(crate) fn span(spot: Spot) -> Span {
    let (number, start, end) = spot;
    let start = TextSize::new(start);
    let end = TextSize::new(end.max(spot.1));
    part(number).recombine(TextRange::new(start, end))
}

impl Tables {
    /// So many different parts, each at its number, and these symbols.
    pub(crate) fn new(alloc: Global, part_count: u32, texts: &[&str]) -> Result<Tables, TtFault> {
        let mut parts = Vec::new(alloc);
        for number in 0..part_count {
            parts.push(part(number))?;
        }
        let mut symbols = Vec::new(alloc);
        for text in texts {
            symbols.push(Symbol::new(alloc, text)?)?;
        }
        Ok(Tables { parts, symbols })
    }

    /// Whether the token has these bytes. What it holds takes `child_bytes` bytes.
    pub(crate) fn give(
        &self,
        alloc: Global,
        token: &TokenTree,
        child_bytes: u32,
        bytes: &[u8],
    ) -> Result<bool, TtFault> {
        match laws::token_bytes(alloc, token, &self.parts, &self.symbols, child_bytes)? {
            Some(found) => Ok(found.as_slice() == bytes),
            None => Ok(false),
        }
    }

    /// Whether they have what the token uses.
    pub(crate) fn know(&self, alloc: Global, token: &TokenTree) -> Result<bool, TtFault> {
        Ok(laws::token_bytes(alloc, token, &self.parts, &self.symbols, 0)?.is_some())
    }
}
