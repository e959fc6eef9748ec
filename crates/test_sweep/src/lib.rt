//! The parts of a program that sweeps calls: calls that may be refused, what the program says of them, and their arguments.
#![tactic(auto)]

mod call;
mod groups;
mod leaves;
mod lists;
mod refused;
mod trees;

pub use call::{Call, When, judge};
pub use groups::{Groups, run};
pub use leaves::{leaf, leaves_of, plus, punct, span, ten};
pub use lists::{braces, delimiter, header, invisible, long_list, plus_list, push_all};
pub use refused::{handed_back, taken};
pub use trees::{flat_tree, is_of, long_tree, tree_of};
