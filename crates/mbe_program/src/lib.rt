//! Patterns of macros with repetitions as programs: a list of instructions with jumps.
//!
//! A pattern is laid out once: a repetition begins, then come its separator and its round, which closes, and then what follows it. A place
//! is the rest of the program, and a jump says how many instructions are left at its place, so programs that are put together keep their
//! jumps. A run goes through the program and an input, and notes the trees that a variable takes, that a round begins, and that a repetition
//! has no further round.
//!
//! `Matcher::new` has `validate` of `mbe_pattern` check the trees of a pattern, and makes their program: `parse` cuts the pattern into pieces,
//! one for each instruction, and `assemble` goes through them from the last, so that it knows where each jump leads. `variables` finds the
//! variables in the instructions. `Matcher::read` runs the program through an input, and answers how the pattern reads it.
//! `part` finds the parts of the pattern among the instructions, and `waiting` those at which a search is stuck.
//!
//! `laws` state that the runs of a pattern's program are the readings of the pattern, one by one, that the pattern stops where the program's
//! steps do, and that a part of it waits where they are stuck.
//!
//! `run` answers in how many ways a program runs through an input. It searches all runs at once, from cell to cell. A cell is a place of the
//! program before a position of the input. It goes on once, and once more if another way leads there too, so a search has at most twice as
//! many arrivals as there are cells. `waiting` answers, by the same search, which parts of a pattern wait at a place of the input.
#![tactic(auto)]

mod assemble;
mod cell;
mod counting;
mod instruction;
pub mod laws;
mod matcher;
mod moves;
mod outcome;
mod parse;
mod part;
mod positions;
mod search;
mod stuck;
#[cfg(test)]
mod tests;
mod variables;

pub use assemble::program_of;
pub use instruction::Instruction;
pub use matcher::Matcher;
pub use mbe_matcher::{Binder, Binding, Found, Mark};
pub use outcome::{Answer, run};
pub use part::Part;
pub use stuck::waiting;
