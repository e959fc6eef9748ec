//! The language of the console (docs/CONSOLE.md): how a line spells a command, and how a token is spelled.
#![tactic(auto)]

mod command;
mod digits;
mod many;
mod slot;
mod spelling;

pub use command::{Action, Command, View};
pub use digits::Digits;
pub use many::Many;
pub use slot::Slot;
pub use spelling::{Spelled, kind_name};
pub use tt_base::Texts;
