//! The commands on the builder.
ghost use Rattle.std.specs.Prelude.{◌≡◌, IfErr, IfOk, string_bytes};
ghost use Rattle.app_console.specs.Answer.{fault_line, ok_line};
ghost use Rattle.app_console.specs.Building.{expected_text};
ghost use Rattle.app_console.specs.Machine.{Step};
ghost use Rattle.app_console.specs.State.{with_builder, with_tree};

use super::Machine;
use crate::answer::Answer;
use app_language::{Command, Slot, kind_name};
use std::alloc::{AllocError, Global};
use tt::{
    Delimiter, DelimiterKind, Leaf, Refused, Span, SubtreeBuilderRestorePoint, TopSubtree,
    TopSubtreeBuilder,
};

// Returns the kinds of the open subtrees, on one line.
fn expected_text(alloc: Global, builder: &TopSubtreeBuilder) -> Result<String, AllocError>
    ensures { IfOk result (λ text. string_bytes text ≡ expected_text builder.now) }
{
    let mut text = String::from_str(alloc, "expected")?;
    for kind in builder.expected_delimiters() {
        write!(text, " {}", kind_name(kind))?;
    }
    text.push_str("\n")?;
    Ok(text)
}

impl Machine {
    pub(super) fn begin(&mut self, delimiter: Delimiter) -> Answer
        ensures { Step self.old (Command.New delimiter) result self.new }
    {
        match TopSubtreeBuilder::new(self.alloc, delimiter) {
            Ok(builder) => {
                self.builder = Some(builder);
                Answer::ok()
            }
            Err(fault) => Answer::fault(fault),
        }
    }

    pub(super) fn open(&mut self, kind: DelimiterKind, span: Span) -> Answer
        ensures { Step self.old (Command.Open kind span) result self.new }
    {
        let Some(builder) = &mut self.builder else {
            return Answer::no_builder();
        };
        Answer::ok_or_fault(builder.open(kind, span))
    }

    pub(super) fn push(&mut self, leaf: Leaf) -> Answer
        ensures { Step self.old (Command.Push leaf) result self.new }
    {
        let Some(builder) = &mut self.builder else {
            return Answer::no_builder();
        };
        match builder.push(leaf) {
            Ok(()) => Answer::ok(),
            Err(refused) => Answer::fault(refused.fault),
        }
    }

    pub(super) fn close(&mut self, span: Span) -> Answer
        ensures { Step self.old (Command.Close span) result self.new }
    {
        let Some(builder) = &mut self.builder else {
            return Answer::no_builder();
        };
        if !builder.is_open() {
            return Answer::none_open();
        }
        Answer::ok_or_fault(builder.close(span))
    }

    pub(super) fn append(&mut self, slot: Slot) -> Answer
        ensures { Step self.old (Command.Append slot) result self.new }
    {
        let Some(mut builder) = self.builder.take() else {
            return Answer::no_builder();
        };
        let done = match self.tree(slot) {
            Some(tree) => Answer::ok_or_fault(builder.extend_with_tt(tree.as_token_trees())),
            None => Answer::empty(),
        };
        self.builder = Some(builder);
        done
    }

    pub(super) fn append_alone(&mut self, slot: Slot) -> Answer
        ensures { Step self.old (Command.Alone slot) result self.new }
    {
        let Some(mut builder) = self.builder.take() else {
            return Answer::no_builder();
        };
        let done = match self.tree(slot) {
            Some(tree) => Answer::ok_or_fault(builder.extend_with_tt_alone(tree.as_token_trees())),
            None => Answer::empty(),
        };
        self.builder = Some(builder);
        done
    }

    pub(super) fn unwrap(&mut self) -> Answer
        ensures { Step self.old Command.Unwrap result self.new }
    {
        let Some(builder) = &mut self.builder else {
            return Answer::no_builder();
        };
        builder.remove_last_subtree_if_invisible();
        Answer::ok()
    }

    pub(super) fn point(&mut self) -> Answer
        ensures { Step self.old Command.Point result self.new }
    {
        let Some(builder) = &mut self.builder else {
            return Answer::no_builder();
        };
        match builder.restore_point() {
            Ok(point) => Answer::point(point.number()),
            Err(fault) => Answer::fault(fault),
        }
    }

    pub(super) fn restore(&mut self, number: u64) -> Answer
        ensures { Step self.old (Command.Restore number) result self.new }
    {
        let Some(builder) = &mut self.builder else {
            return Answer::no_builder();
        };
        Answer::yes_or_no(builder.restore(SubtreeBuilderRestorePoint::from_number(number)))
    }

    pub(super) fn expected(&self) -> Answer
        ensures { Step self.now Command.Expected result self.now }
    {
        let Some(builder) = &self.builder else {
            return Answer::no_builder();
        };
        Answer::of_text(expected_text(self.alloc, builder))
    }

    pub(super) fn counts(&self) -> Answer
        ensures { Step self.now Command.Counts result self.now }
    {
        let Some(builder) = &self.builder else {
            return Answer::no_builder();
        };
        let (parts, symbols) = builder.distinct_counts();
        Answer::counts(parts, symbols)
    }

    // Stores the result of a builder: the tree in the slot, or the builder that was refused.
    fn keep_built(
        &mut self,
        slot: Slot,
        built: Result<TopSubtree, Refused<TopSubtreeBuilder>>,
    ) -> Answer
        ensures tree { IfOk built (λ tree. (result ≡ ok_line) × (self.new ≡ with_tree self.old slot tree)) }
        ensures builder { IfErr built (λ refused. (result ≡ fault_line refused.fault) × (self.new ≡ with_builder self.old refused.value)) }
    {
        match built {
            Ok(tree) => {
                self.put(slot, tree);
                Answer::ok()
            }
            Err(refused) => {
                self.builder = Some(refused.value);
                Answer::fault(refused.fault)
            }
        }
    }

    pub(super) fn build(&mut self, slot: Slot) -> Answer
        ensures { Step self.old (Command.Build slot) result self.new }
    {
        let Some(builder) = self.builder.take() else {
            return Answer::no_builder();
        };
        if builder.is_open() {
            self.builder = Some(builder);
            return Answer::still_open();
        }
        self.keep_built(slot, builder.build())
    }

    pub(super) fn skip(&mut self, slot: Slot) -> Answer
        ensures { Step self.old (Command.Skip slot) result self.new }
    {
        let Some(builder) = self.builder.take() else {
            return Answer::no_builder();
        };
        if builder.is_open() {
            self.builder = Some(builder);
            return Answer::still_open();
        }
        self.keep_built(slot, builder.build_skip_top_subtree())
    }
}
