//! The commands that write a tree as one piece of bytes, and read it.
ghost use Rattle.app_console.specs.Machine.{Step};

use crate::answer::Answer;
use crate::machine::Machine;
use crate::stored_lines::digits_line;
use app_language::{Command, Digits, Slot};
use tt_bytes::{from_bytes, to_bytes};

impl Machine {
    pub(super) fn save(&self, slot: Slot) -> Answer
        ensures { Step self.now (Command.Save slot) result self.now }
    {
        let Some(tree) = self.tree(slot) else {
            return Answer::empty();
        };
        match to_bytes(self.alloc, tree) {
            Ok(bytes) => Answer::of_text(digits_line(self.alloc, bytes.as_slice())),
            Err(fault) => Answer::fault(fault),
        }
    }

    pub(super) fn load(&mut self, slot: Slot, digits: Digits) -> Answer
        ensures { Step self.old (Command.Load slot digits) result self.new }
    {
        match from_bytes(self.alloc, digits.as_slice()) {
            Ok(tree) => {
                self.put(slot, tree);
                Answer::ok()
            }
            Err(fault) => Answer::wrong_bytes(fault),
        }
    }
}
