//! The command that writes a tree as Rust text.
ghost use Rattle.app_console.specs.Machine.{Step};

use crate::answer::Answer;
use crate::machine::Machine;
use crate::tree_texts::line_of;
use app_language::{Command, Slot};
use syntax_unparse::rust_text;

impl Machine {
    pub(super) fn text(&self, slot: Slot) -> Answer
        ensures { Step self.now (Command.Text slot) result self.now }
    {
        let Some(tree) = self.tree(slot) else {
            return Answer::empty();
        };
        match rust_text(self.alloc, tree.as_token_trees()) {
            Ok(text) => Answer::of_text(line_of(text)),
            Err(fault) => Answer::unwritten(fault),
        }
    }
}
