//! The command that expands a macro of several arms.
ghost use Rattle.std.specs.Prelude.{◌≡◌, IfOk, IfErr};
ghost use Rattle.app_console.specs.Arms.{IsMadeByArms, TellsNoneByArms};
ghost use Rattle.app_console.specs.Machine.{Step};

use crate::answer::Answer;
use crate::machine::Machine;
use app_language::{Command, Slot};
use mbe_rules::{Expansion, MacroRules};
use std::alloc::Global;
use tt::TopSubtree;

// Returns the expansion of the input by the macro of these arms, or the answer that says why there is no such tree.
fn made_by_arms(alloc: Global, arms: &TopSubtree, input: &TopSubtree) -> Result<TopSubtree, Answer>
    ensures tree { IfOk result (λ tree. IsMadeByArms arms.now input.now tree) }
    ensures none { IfErr result (λ answer. TellsNoneByArms arms.now input.now answer) }
{
    match MacroRules::new(alloc, arms.token_trees().iter()) {
        Ok(rules) => match rules.expand(alloc, input.token_trees().iter()) {
            Ok(Expansion::Tree(tree)) => Ok(tree),
            Ok(Expansion::NoMatch(_)) => Err(Answer::no_match()),
            Ok(Expansion::Ambiguous(_)) => Err(Answer::ambiguous()),
            Err(error) => Err(Answer::unfilled(error)),
        },
        Err(error) => Err(Answer::no_macro(error)),
    }
}

impl Machine {
    pub(super) fn arms(&mut self, arms: Slot, input: Slot, to: Slot) -> Answer
        ensures { Step self.old (Command.Arms arms input to) result self.new }
    {
        let Some(arms) = self.tree(arms) else {
            return Answer::empty();
        };
        let Some(input) = self.tree(input) else {
            return Answer::empty();
        };
        match made_by_arms(self.alloc, arms, input) {
            Ok(tree) => {
                self.put(to, tree);
                Answer::ok()
            }
            Err(answer) => answer,
        }
    }
}
