//! Rust's grammar as a table of parsing expressions: how many trees a fragment takes, and whole files.
//!
//! docs/GRAMMAR.md is the source of the table. `checks/lay_out_grammar.py` makes `src/rust.rt`, `src/rust_marks.rt`, `src/rust_known.rt`,
//! `src/rust_names.rt`, `specs/Names.antt`, `specs/Rust.antt` and `proofs/RustLaid.antt` from it. `reach` runs the machine of parsing
//! expressions on the siblings, with a stack of the rules that are under way. It does not look into subtrees; `reach_deep` also reads what
//! they contain.
//!
//! `parse_file` runs the same machine with a log: the names that begin and end, the units, and the subtrees with the names of what they
//! must contain. A choice that fails cuts the log back. A
//! `Derivation` then reads each subtree of the log by its name, without recursion, and hands out the events one by one. If a level is
//! refused, `find_wanted` runs the machine on that level again, and notes the tests that it tries at the farthest place. `beginnings` goes
//! along a derivation, and returns the places at which expressions of some names begin.
#![tactic(auto)]

mod begin;
mod beginning;
mod derivation;
mod entry;
mod event;
mod file;
mod fragments;
mod here;
mod kind;
mod known;
pub mod laws;
mod list;
mod machine;
mod rule;
mod rust;
mod rust_known;
mod rust_marks;
mod rust_names;
mod table;
mod test;
mod trying;
mod unit;
mod units;
mod words;

pub use beginning::{Beginning, beginnings, beginnings_by_first};
pub use derivation::{Derivation, Derived, NextEvent, derive};
pub use entry::Entry;
pub use event::{Event, Level};
pub use file::{ParsedFile, SyntaxError, is_file, parse_file, test_of};
pub use fragments::{is_block, reach, reach_deep, rust_table};
pub use known::Known;
pub use rule::{Mark, Rule};
pub use rust_names::{
    EXPRESSION, FIELD_PATTERN, IDENTIFIER_PATTERN, ITEMS, LABEL, LOOSE_MACRO_RULES_ITEM,
    MACRO_RULES_ITEM, NAMES, STATEMENTS, TOKENS,
};
pub use table::Table;
pub use test::Test;
pub use trying::{Wanted, find_wanted};
pub use unit::Unit;
pub use words::Word;
