//! Reads trees sibling by sibling.

pub use tt_view::{TtElement, TtIter, TtIterSavepoint};
