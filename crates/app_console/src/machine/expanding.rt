//! The command that expands a rule.
ghost use Rattle.std.specs.Prelude.{◌≡◌, ◌⊎◌, IfOk, IfErr};
ghost use Rattle.tt_base.specs.declared.fault.TtFault.TheVariants.{Memory};
ghost use Rattle.mbe_rule.specs.Faults.{rule_fault};
ghost use Rattle.app_console.specs.Answer.{fault_line};
ghost use Rattle.app_console.specs.Expanding.{IsMadeByRule, TellsNoTree};
ghost use Rattle.app_console.specs.Machine.{Step};

use crate::answer::Answer;
use crate::machine::Machine;
use app_language::{Command, Slot};
use mbe_rule::Rule;
use std::alloc::Global;
use tt::TopSubtree;

// Returns the expansion of the input by the rule, or the answer that says why there is no such tree.
fn made_by_rule(
    alloc: Global,
    pattern: &TopSubtree,
    template: &TopSubtree,
    input: &TopSubtree,
) -> Result<TopSubtree, Answer>
    ensures tree { IfOk result (λ tree. IsMadeByRule pattern.now template.now input.now tree) }
    ensures none { IfErr result (λ answer. (answer ≡ fault_line Memory) ⊎ TellsNoTree pattern.now template.now input.now (rule_fault pattern.now.children template.now.children) answer) }
{
    match Rule::new(alloc, pattern.view(), template.view()) {
        Ok(rule) => match rule.expand(alloc, input.token_trees()) {
            Ok(Some(tree)) => Ok(tree),
            Ok(None) => Err(Answer::no_match()),
            Err(fault) => Err(Answer::fault(fault)),
        },
        Err(fault) => Err(Answer::rule(fault)),
    }
}

impl Machine {
    pub(super) fn expand(&mut self, pattern: Slot, template: Slot, input: Slot, to: Slot) -> Answer
        ensures { Step self.old (Command.Expand pattern template input to) result self.new }
    {
        let Some(pattern) = self.tree(pattern) else {
            return Answer::empty();
        };
        let Some(template) = self.tree(template) else {
            return Answer::empty();
        };
        let Some(input) = self.tree(input) else {
            return Answer::empty();
        };
        match made_by_rule(self.alloc, pattern, template, input) {
            Ok(tree) => {
                self.put(to, tree);
                Answer::ok()
            }
            Err(answer) => answer,
        }
    }
}
