//! The library of the console (docs/CONSOLE.md): it reads commands on token trees, one per line, and writes the answers.
//!
//! `run` reads blocks from a `Noted` reader, cuts them into lines, has `Command::parse_with` of `app_language` parse each, and gives the
//! command to `Machine::step`, which keeps a list of tokens, a builder and slots of trees. The answers wait in an `Output` until it
//! is full or the input ends. `Noted` keeps the first error of a stream, so a failing reader or writer ends the run with a status.
#![tactic(auto)]

mod answer;
mod arm_number;
mod glued;
mod machine;
mod noted;
mod outcome;
mod output;
mod pieces;
mod session;
mod stored_lines;
mod text_refusal;
mod token_lines;
mod tree_texts;
mod view_text;
mod walk_lines;

pub use answer::Answer;
pub use app_language::{Command, Slot, View};
pub use machine::Machine;
pub use noted::Noted;
pub use outcome::{End, RunFault};
pub use session::run;
