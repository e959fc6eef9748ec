//! Leaves that calls are given.
use std::alloc::Global;
use tt::{ErasedFileAstId, Ident, Leaf, Punct, Spacing, Span, TtFault};

/// An empty span with that id.
pub fn span(id: u32) -> Span {
    let mut span = Punct::default().span;
    span.anchor.ast_id = ErasedFileAstId(id);
    span
}

/// A punct with that id, as a leaf.
pub fn punct(char: char, spacing: Spacing, id: u32) -> Leaf {
    let span = span(id);
    Leaf::from(Punct {
        char,
        spacing,
        span,
    })
}

/// A joint plus with that id, as a leaf.
pub fn plus(id: u32) -> Leaf {
    punct('+', Spacing::Joint, id)
}

/// A leaf with that id: a joint plus, another sign, which is alone, or else an ident.
pub fn leaf(alloc: Global, text: &str, id: u32) -> Result<Leaf, TtFault> {
    match text {
        "+" => Ok(plus(id)),
        "-" => Ok(punct('-', Spacing::Alone, id)),
        "$" => Ok(punct('$', Spacing::Alone, id)),
        ":" => Ok(punct(':', Spacing::Alone, id)),
        ";" => Ok(punct(';', Spacing::Alone, id)),
        _ => Ok(Leaf::from(Ident::new(alloc, text, span(id))?)),
    }
}

/// The leaves of these texts and ids.
pub fn leaves_of(alloc: Global, rows: &[(&'static str, u32)]) -> Result<Vec<Leaf>, TtFault> {
    let mut leaves = Vec::new(alloc);
    for (text, id) in rows {
        leaves.push(leaf(alloc, text, *id)?)?;
    }
    Ok(leaves)
}

/// Ten pluses.
pub fn ten() -> [Leaf; 10] {
    [
        plus(1),
        plus(2),
        plus(3),
        plus(4),
        plus(5),
        plus(6),
        plus(7),
        plus(8),
        plus(9),
        plus(10),
    ]
}
