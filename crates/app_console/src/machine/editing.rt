//! The commands that change a slot's tree.
ghost use Rattle.std.specs.Prelude.{◌≡◌, None, slice_set, drop};
ghost use Rattle.app_console.specs.Editing.{next_id};
ghost use Rattle.app_console.specs.State.{tree_in, with_tree};
ghost use Rattle.app_console.specs.Machine.{Step};

use crate::answer::Answer;
use crate::machine::Machine;
use app_language::{Command, Many, Slot};
use std::mem;
use tt::{DelimSpan, DelimiterKind, ErasedFileAstId, Leaf, Span, TopSubtree};

impl Machine {
    // Takes the tree out of a slot, if there is one.
    pub(super) fn take(&mut self, slot: Slot) -> Option<TopSubtree>
        ensures tree { result ≡ tree_in self.old slot }
        ensures state { self.new ≡ record self.old { slots = slice_set self.old.slots slot None } }
    {
        mem::replace(&mut self.slots[slot.index()], None)
    }

    // Puts a tree into a slot.
    pub(super) fn put(&mut self, slot: Slot, tree: TopSubtree)
        ensures { self.new ≡ with_tree self.old slot tree }
    {
        self.slots[slot.index()] = Some(tree);
    }

    pub(super) fn kind(&mut self, slot: Slot, kind: DelimiterKind) -> Answer
        ensures { Step self.old (Command.Kind slot kind) result self.new }
    {
        let Some(mut tree) = self.take(slot) else {
            return Answer::empty();
        };
        tree.set_top_subtree_delimiter_kind(kind);
        self.put(slot, tree);
        Answer::ok()
    }

    pub(super) fn spans(&mut self, slot: Slot, open_span: Span, close: Span) -> Answer
        ensures { Step self.old (Command.Spans slot open_span close) result self.new }
    {
        let Some(mut tree) = self.take(slot) else {
            return Answer::empty();
        };
        tree.set_top_subtree_delimiter_span(DelimSpan::from_pair(open_span, close));
        self.put(slot, tree);
        Answer::ok()
    }

    pub(super) fn set(&mut self, slot: Slot, place: u32, leaf: Leaf) -> Answer
        ensures { Step self.old (Command.Set slot place leaf) result self.new }
    {
        let Some(mut tree) = self.take(slot) else {
            return Answer::empty();
        };
        if let Err(refused) = tree.set_token(self.alloc, place as usize, leaf) {
            self.put(slot, tree);
            return Answer::fault(refused.fault);
        }
        self.put(slot, tree);
        Answer::ok()
    }

    pub(super) fn ids(&mut self, slot: Slot, ids: Many<u32>) -> Answer
        ensures { Step self.old (Command.Ids slot ids) result self.new }
    {
        let Some(mut tree) = self.take(slot) else {
            return Answer::empty();
        };
        let mut rest = ids.as_slice();
        let changed = tree.change_every_ast_id(
            self.alloc,
            move |id|
                ensures value { result ≡ next_id rest.entry.now id }
                ensures rest { rest.exit.now ≡ drop 1 rest.entry.now }
            {
                match rest.split_first() {
                    Some((number, others)) => {
                        rest = others;
                        ErasedFileAstId(*number)
                    }
                    None => id,
                }
            },
        );
        if let Err(fault) = changed {
            self.put(slot, tree);
            return Answer::fault(fault);
        }
        self.put(slot, tree);
        Answer::ok()
    }
}
