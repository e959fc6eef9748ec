//! When an input is an instance of a pattern with repetitions, what it binds, and which trees a fragment takes.
//!
//! A reading says how a pattern takes trees, part by part: the trees of a variable, the inside of a subtree, the rounds of a repetition. An
//! input is an instance of a pattern if a reading takes all of it. If none does, the pattern still takes trees up to some place, where it
//! stops: there some of its parts come next, and the trees are not what they require.
//!
//! A reading binds to each variable its trees, or in a repetition a list of what each round binds. A `Binding` has this as marks, in the order
//! of the input: the trees that a variable takes, the beginning of a round, the end of a repetition. `trees` and `ends` read them. A `Found` is
//! the answer about an input: in how many ways it is an instance, and what one of them binds or where the pattern stops. A `Binder` is a
//! variable of a pattern, with the numbers that its marks have.
//!
//! `fragment` says which trees a variable takes. `takes` answers whether it takes any trees at the front, `reach` how many. For the fragments
//! of Rust's grammar `grammar_reach` asks `mbe_grammar`.
//!
//! `mbe_program` reads inputs, and answers by these definitions.
#![tactic(auto)]

mod binder;
mod binding;
mod fragment;
mod mark;

pub use binder::Binder;
pub use binding::{Binding, Found};
pub use fragment::{are_leaves_like, grammar_reach, reach, takes};
pub use mark::Mark;
pub use mbe_pattern::{Fragment, GrammarFragment, PatternError, RepeatKind, Variable};
