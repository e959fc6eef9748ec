//! Tokens in numbers, and their bytes (docs/FORMATS.md). This crate needs no tables and no trees: a part or a symbol is an index here.
#![tactic(auto)]

mod encodable;
mod entry;
mod entry_read;
mod form;
mod header_read;
mod header_write;
mod kinds;
mod leaf_read;
mod leaf_write;
mod overwrite;
mod reference;
mod span;
mod words;

pub use encodable::Encodable;
pub use entry::{Entry, HeaderEntry, LeafEntry};
pub use entry_read::{Visitor, visit_common_token, visit_token};
pub use kinds::kind_number;
pub use reference::{MOST_SYMBOLS, Reference};
pub use span::{MOST_PARTS, SpanNumbers};
