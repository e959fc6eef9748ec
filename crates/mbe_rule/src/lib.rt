//! Macros by example with one rule: a pattern without repetitions, and a template.
//!
//! In a pattern `$x:ident`, `$x:literal` and `$x:tt` are variables; each takes one tree. A leaf takes an equal leaf; spans and spacing do
//! not count. In a template `$x` is a use; the tree that `x` took replaces it.
//!
//! A `Rule` is two views and a set of the pattern's names. `expand` goes through pattern and input side by side with a stack of
//! pairs of iterators. It keeps a view of each tree that a variable takes. Then it goes through the template with a stack of
//! iterators and writes with a `TopSubtreeBuilder`.
#![tactic(auto)]

mod dollars;
mod fault;
mod matching;
mod names;
mod rule;
mod transcribe;
mod variable;

pub use fault::RuleFault;
pub use rule::Rule;
