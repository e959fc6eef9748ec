//! The command that rewrites a slot's tree by actions.
ghost use Rattle.std.specs.Prelude.{◌≡◌, ◌⊎◌, Some, drop, IfErr, OnOk, OnErr};
ghost use Rattle.std.specs.Option.{option_copied};
ghost use Rattle.tt.specs.OneRoot.{one_root};
ghost use Rattle.tt.specs.Rewrites.{action_of, IsResultFault};
ghost use Rattle.tt.specs.Stored.{IsWithinLimits};
ghost use Rattle.tt_base.specs.declared.fault.TtFault.TheVariants.{Memory};
ghost use Rattle.app_console.specs.Editing.{put_refusal, first_refusal, action_in, next_action, rewritten_by};
ghost use Rattle.app_console.specs.Machine.{Step};

use crate::answer::Answer;
use crate::machine::Machine;
use app_language::{Action, Command, Many, Slot};
use tt::{TopSubtree, TransformTtAction, TtFault, transform_tt};

impl Machine {
    pub(super) fn rewrite(&mut self, slot: Slot, actions: Many<Action>) -> Answer
        ensures { Step self.old (Command.Rewrite slot actions) result self.new }
    {
        let Some(mut tree) = self.take(slot) else {
            return Answer::empty();
        };
        if let Some(answer) = self.first_refusal(slot, actions.as_slice()) {
            self.put(slot, tree);
            return answer;
        }
        if let Err(fault) = self.rewrite_tree(&mut tree, actions.as_slice()) {
            self.put(slot, tree);
            return Answer::fault(fault);
        }
        self.put(slot, tree);
        Answer::ok()
    }

    // Returns why the actions are refused for this slot, if they are.
    fn first_refusal(&self, slot: Slot, actions: &[Action]) -> Option<Answer>
        ensures { result ≡ first_refusal self.now slot actions.now }
    {
        for action in actions {
            if let Some(answer) = self.put_refusal(slot, *action) {
                return Some(answer);
            }
        }
        None
    }

    // Returns why the action is refused, if it is.
    fn put_refusal(&self, slot: Slot, action: Action) -> Option<Answer>
        ensures { result ≡ put_refusal self.now slot action }
    {
        let Action::Put(from) = action else {
            return None;
        };
        if from == slot {
            return Some(Answer::same());
        }
        if self.tree(from).is_some() {
            return None;
        }
        Some(Answer::empty())
    }

    // Returns what the action does with a token.
    fn action(&self, action: Action) -> TransformTtAction<'_>
        ensures { action_of result ≡ action_in self.now action }
    {
        match action {
            Action::Keep => TransformTtAction::Keep,
            Action::Remove => TransformTtAction::remove(),
            Action::Put(from) => match self.tree(from) {
                Some(tree) => TransformTtAction::ReplaceWith(tree.as_token_trees()),
                None => TransformTtAction::remove(),
            },
        }
    }

    // Rewrites a tree by the actions; all later tokens are kept.
    fn rewrite_tree(&self, tree: &mut TopSubtree, actions: &[Action]) -> Result<(), TtFault>
        ensures ok { OnOk result (one_root (rewritten_by self.now actions.now tree.old) ≡ Some tree.new) }
        ensures limits { OnOk result (IsWithinLimits tree.new) }
        ensures err { OnErr result (tree.new ≡ tree.old) }
        ensures fault { IfErr result (λ fault. (fault ≡ Memory) ⊎ IsResultFault (rewritten_by self.now actions.now tree.old) fault) }
    {
        let machine = self;
        let mut rest = actions;
        transform_tt(
            self.alloc,
            tree,
            move |_token|
                ensures value { action_of result ≡ next_action machine.entry.now rest.entry.now }
                ensures rest { rest.exit.now ≡ drop 1 rest.entry.now }
                ensures same { machine.exit.now ≡ machine.entry.now }
            {
                match rest.split_first() {
                    Some((action, others)) => {
                        rest = others;
                        machine.action(*action)
                    }
                    None => TransformTtAction::Keep,
                }
            },
        )
    }
}
