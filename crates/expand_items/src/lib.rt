//! Items and statements among siblings: definitions and calls of macros, where statements and items begin, and which
//! `#[cfg(..)]` they are under.
//!
//! A `Position` says what the siblings are (items, statements or neither), whether one may begin at the next tree, what the words since its
//! beginning say of the braces that follow, which attributes are in force, and how the expansion of a call there is enclosed (`Enclosure`,
//! by its neighbours: `Front` and `expression`). `item_in` returns what is first there: a definition, a call or something else, with its
//! number of trees; `item_at` takes the attributes before a call together with the call, and returns as one what is under a condition that
//! is false. `macro_rules_places` finds definitions with their attributes by Rust's grammar. `definitions_in` returns all definitions in items, at all depths. `CfgOptions` has what is known of conditions: `check` says by
//! that whether a predicate is true, false or open, and `is_open_condition` whether a condition leaves open if what is behind it is there.
//! `parts` splits trees into items or statements by `reach` of `mbe_grammar`, and `put_under` adds them to a builder with the conditions
//! before each part but the first. `loosened` goes through a whole expansion and makes each opaque subtree invisible that needs no
//! parentheses, by what is beside it (`Front`, `fits_before`) or by its form (`Operand`).
//!
//! The definitions that contracts use are in `specs/` of this crate.
#![tactic(auto)]

mod attribute;
mod cfg;
mod condition;
mod definitions;
mod expression;
mod front;
mod head;
mod inactive;
mod item;
mod loosening;
mod macro_rules_item;
mod operand;
mod part;
mod position;
mod predicate;
mod spread;

pub use attribute::{attributes_len, is_attribute, is_attribute_sign, is_condition, item_at};
pub use cfg::{CfgAtom, CfgOptions};
pub use condition::is_open_condition;
pub use definitions::{Defined, definitions_in};
pub use expression::{Enclosure, without_semicolon};
pub use item::{Call, Definition, Item, MacroPath, definition_in, item_in};
pub use loosening::loosened;
pub use macro_rules_item::{
    MacroRulesItem, has_attribute, macro_rules_item_in, macro_rules_places,
};
pub use part::{Part, parts};
pub use position::{Position, Siblings};
pub use spread::put_under;
