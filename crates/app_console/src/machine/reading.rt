//! The command that reads a Rust text.
ghost use Rattle.std.specs.Prelude.{◌≡◌, ◌⊎◌};
ghost use Rattle.tt_base.specs.declared.fault.TtFault.TheVariants.{Memory};
ghost use Rattle.app_console.specs.Answer.{fault_line};
ghost use Rattle.app_console.specs.Machine.{Step};
ghost use Rattle.app_console.specs.Reading.{refusal_line};

use crate::answer::Answer;
use crate::machine::Machine;
use crate::text_refusal::syntax_line;
use app_language::{Command, Slot};
use syntax_parse::{TextFault, parse_to_token_tree};
use tt::{ErasedFileAstId, FileId, SpanAnchor, Symbol, SyntaxContext, TtFault};

impl Machine {
    // Returns why a text is refused.
    fn refusal(&self, fault: TextFault) -> Answer
        ensures { (result ≡ refusal_line fault) ⊎ (result ≡ fault_line Memory) }
    {
        match fault {
            TextFault::Syntax(fault) => Answer::of_text(syntax_line(self.alloc, fault)),
            TextFault::TooLong => Answer::fault(TtFault::TooManyBytes),
            TextFault::Limit(fault) => Answer::fault(fault),
        }
    }

    pub(super) fn read(&mut self, slot: Slot, text: Symbol) -> Answer
        ensures { Step self.old (Command.Read slot text) result self.new }
    {
        let anchor = SpanAnchor {
            file_id: FileId(0),
            ast_id: ErasedFileAstId(0),
        };
        match parse_to_token_tree(self.alloc, anchor, SyntaxContext(0), text.as_str()) {
            Ok(tree) => {
                self.put(slot, tree);
                Answer::ok()
            }
            Err(fault) => self.refusal(fault),
        }
    }
}
