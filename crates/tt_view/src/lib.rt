//! Stored token trees, borrowed views of their parts, and the iterators that read them.
#![tactic(auto)]

mod cursor;
mod debug;
mod display;
mod expect;
mod flat;
mod glue;
mod iter;
mod lookahead;
mod split;
mod subtree_view;
pub mod text;
mod top_subtree;
mod tree_walk;
mod view;

pub use cursor::Cursor;
pub use flat::FlatTokens;
pub use glue::{MAX_GLUED_PUNCT_LEN, is_glued_three, is_glued_two};
pub use iter::{TtElement, TtIter, TtIterSavepoint};
pub use split::Split;
pub use subtree_view::SubtreeView;
pub use top_subtree::TopSubtree;
pub use tree_walk::TreeWalk;
pub use tt_pack::TokenKind;
pub use view::TokenTreesView;
