//! Functions over the public calls of the libraries, proved by the contracts of these calls alone. Some are a user's: they pack lists,
//! read trees in four ways, cut them, compare them and expand macros. Others call the store and have a single clause, so the store's
//! contract says it too; `must-fail/` has wrong bodies of these, which the clauses must refuse.
#![tactic(auto)]

mod arms;
mod builder;
mod commas;
mod cursor;
mod ids;
mod items;
mod list;
mod macros;
mod rewriting;
mod siblings;
mod tokens;
mod tree_walk;
mod walk;

pub use arms::{ArmsFault, expand_macro};
pub use builder::{push, push_both, restore_point};
pub use commas::arguments;
pub use cursor::bump_or_end;
pub use ids::set_ids;
pub use items::item;
pub use list::{flat_list, round_trip, same_tree};
pub use macros::{Expansions, MacroFault, expand_both};
pub use rewriting::transform;
pub use siblings::{pass_one, take_at};
pub use tokens::{count_tokens, mentions};
pub use tree_walk::walk_first;
pub use walk::crossed_by_walk;
