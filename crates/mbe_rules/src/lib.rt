//! Macros of several arms, each a pattern and a template with repetitions.
//!
//! A `Template` is a list of parts: tokens, uses of variables, and the ends of subtrees and repetitions. `Template::new` reads the parts
//! (`parse`, `first`), and finds what is wrong with a `$` (`spelling_fault`). `Template::fault` goes through the parts from the last to find
//! the first fault that they show (`validate`). `Template::transcribe` goes through them and writes with a `TopSubtreeBuilder`. It keeps an
//! index, the rounds under way and the close spans of the open subtrees. An expression, type, pattern or literal of several tokens goes into
//! an opaque subtree (`enclose`).
//!
//! A `MacroRules` is a list of arms, each a `Matcher` of `mbe_program`, a `Template` and a delimiter. `expand` returns what the first arm
//! that matches the input makes of it. `expand_within` does so with at most so many tokens: before each write, it takes them from those that
//! may still be written (`limit`). `faults` returns the faults that the templates show, whatever the input.
//!
//! The definitions that the contracts use are in `specs/` of this crate.
#![tactic(auto)]

mod arm;
mod arrow;
mod counting;
mod enclose;
mod error;
mod first;
mod limit;
mod macro_rules;
mod parse;
mod parts;
mod rules_error;
mod seams;
mod spelling_fault;
mod taken;
mod template;
mod transcribe;
mod transcribe_error;
mod validate;

pub use error::TemplateError;
pub use macro_rules::{ArmPart, Expansion, MacroRules};
pub use parts::Part;
pub use rules_error::{ArmFault, ExpandError, RulesError};
pub use template::Template;
pub use transcribe_error::TranscribeError;
