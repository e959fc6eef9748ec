//! Walks through trees, into and out of subtrees.

pub use tt_view::Cursor;
