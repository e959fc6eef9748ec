//! The macros that a Rust text defines, and the text with its calls of them expanded.
//!
//! `expand_text` reads the text into a tree, and `Walk` goes through it with a list of the open subtrees. A definition enters the `Scope`,
//! in which the last definition of a name wins, and which a subtree cuts back at its end unless it is under `#[macro_use]`.
//! `expand_call` finds the macro of a call and has `mbe_rules` expand the input. `expand_tree` walks the expansion in the same way, and
//! keeps a list of those that wait for the expansion of a call in them, at most as many as the limit. At the top, an `Output` of
//! `syntax_edit` copies the text and replaces each call by its expansion, which is `loosened` and then written: on one line, or laid out by
//! `syntax_layout`, whose `Sources` hold the text. `prepared` replaces `$crate` once per definition.
//!
//! A definition or call with a fault stays in the text and yields a finding, with the calls that wrote it (`Caller`). A call one expansion
//! too deep, or one for which too many tokens would be written, ends the expansion of its call of the text: a macro that calls itself twice
//! would not end in any reasonable time. The walk goes on behind that call. `shown_faults` says which faults the rules of a definition show
//! whatever the input of a call.
//!
//! The proofs go level by level (`Ends`, `Leads`), and `Weaving` places the expansions among the pieces of the text, so that the laws of
//! `syntax_edit` say how the written text reads.
#![tactic(auto)]

mod caller;
mod calling;
mod capturing;
mod config;
mod context;
mod defining;
mod expanding;
mod expecting;
mod exports;
mod fault;
mod invocation;
pub mod laws;
mod memory;
mod next;
mod options;
mod part;
mod placement;
mod places;
mod plain;
mod prepared;
mod scope;
mod shown;
mod source;
mod text;
mod walk;

pub use caller::Caller;
pub use fault::{ExpandTextError, Finding, MacroFault};
pub use options::{ExpandOptions, USUAL_LIMIT, USUAL_MAX_TOKENS};
pub use shown::{ShownFault, shown_faults};
pub use text::{Expanded, expand_leniently, expand_text};
