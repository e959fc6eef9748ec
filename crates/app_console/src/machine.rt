//! The slots, the list and the builder, and what each command changes in them.
ghost use Rattle.std.specs.Prelude.{◌≡◌};

mod arms;
mod building;
mod editing;
mod expanding;
mod reading;
mod rewriting;
mod saving;
mod writing;

use crate::answer::Answer;
use crate::pieces::piece_sizes;
use crate::view_text::view_text;
use app_language::{Command, Slot, View};
use std::alloc::Global;
use std::marker::Model;
use std::mem;
use tt::{TokenTree, TopSubtree, TopSubtreeBuilder, TtFault};

/// The state that the commands change: 16 slots, each empty or a tree; a list of tokens;
/// and a builder, or none. A contract sees it as a plain value.
#[derive(Drop)]
pub struct Machine {
    slots: [Option<TopSubtree>; 16],
    list: Vec<TokenTree>,
    builder: Option<TopSubtreeBuilder>,
    alloc: Global,
}

impl Model for Machine {
    ghost use Rattle.app_console.specs.State.{State, state_code};

    ghost Value = { State };

    ghost coded = { state_code };

    ghost view = { λ machine. record { slots = machine.slots; list = machine.list.items; builder = machine.builder } };
}

impl Machine {
    ghost use Rattle.std.specs.Option.{option_copied};
    ghost use Rattle.app_console.specs.State.{start, tree_in};
    ghost use Rattle.app_console.specs.Machine.{Step};

    /// Returns a machine with empty slots, an empty list and no builder.
    pub fn new(alloc: Global) -> Machine
        ensures { result ≡ start }
    {
        Machine {
            slots: [
                None, None, None, None, None, None, None, None, None, None, None, None, None, None,
                None, None,
            ],
            list: Vec::new(alloc),
            builder: None,
            alloc,
        }
    }

    /// Carries out the command. If memory runs out, answers `fault 1` and changes nothing.
    #[inline(always)]
    pub fn step(&mut self, command: Command) -> Answer
        ensures { Step self.old command result self.new }
    {
        match command {
            Command::Item(token) => self.item(token),
            Command::Clear => self.clear(),
            Command::List(slot) => self.list(slot),
            Command::New(delimiter) => self.begin(delimiter),
            Command::Open(kind, span) => self.open(kind, span),
            Command::Push(leaf) => self.push(leaf),
            Command::Close(span) => self.close(span),
            Command::Append(slot) => self.append(slot),
            Command::Alone(slot) => self.append_alone(slot),
            Command::Unwrap => self.unwrap(),
            Command::Point => self.point(),
            Command::Restore(number) => self.restore(number),
            Command::Expected => self.expected(),
            Command::Counts => self.counts(),
            Command::Build(slot) => self.build(slot),
            Command::Skip(slot) => self.skip(slot),
            Command::Copy(to, from) => self.copy(to, from),
            Command::Kind(slot, kind) => self.kind(slot, kind),
            Command::Spans(slot, open_span, close) => self.spans(slot, open_span, close),
            Command::Set(slot, place, leaf) => self.set(slot, place, leaf),
            Command::Ids(slot, ids) => self.ids(slot, ids),
            Command::Rewrite(slot, actions) => self.rewrite(slot, actions),
            Command::Expand(pattern, template, input, to) => {
                self.expand(pattern, template, input, to)
            }
            Command::Arms(arms, input, to) => self.arms(arms, input, to),
            Command::View(view, slot) => self.view(view, slot),
            Command::Split(slot, char) => self.split(slot, char),
            Command::Equal(left, right) => self.equal(left, right),
            Command::Save(slot) => self.save(slot),
            Command::Load(slot, digits) => self.load(slot, digits),
            Command::Read(slot, text) => self.read(slot, text),
            Command::Text(slot) => self.text(slot),
        }
    }

    #[inline(always)]
    fn item(&mut self, token: TokenTree) -> Answer
        ensures { Step self.old (Command.Item token) result self.new }
    {
        if self.list.push(token).is_err() {
            return Answer::fault(TtFault::Memory);
        }
        Answer::ok()
    }

    fn clear(&mut self) -> Answer
        ensures { Step self.old Command.Clear result self.new }
    {
        self.list.clear();
        Answer::ok()
    }

    fn list(&mut self, slot: Slot) -> Answer
        ensures { Step self.old (Command.List slot) result self.new }
    {
        let list = mem::replace(&mut self.list, Vec::new(self.alloc));
        match TopSubtree::from_serialized(self.alloc, list) {
            Ok(tree) => {
                self.put(slot, tree);
                Answer::ok()
            }
            Err(refused) => {
                self.list = refused.value;
                Answer::fault(refused.fault)
            }
        }
    }

    // Returns the tree in a slot, if there is one.
    fn tree(&self, slot: Slot) -> Option<&TopSubtree>
        ensures { option_copied result ≡ tree_in self.now slot }
    {
        self.slots[slot.index()].as_ref()
    }

    fn copy(&mut self, to: Slot, from: Slot) -> Answer
        ensures { Step self.old (Command.Copy to from) result self.new }
    {
        let Some(tree) = self.tree(from) else {
            return Answer::empty();
        };
        match tree.clone(self.alloc) {
            Ok(copy) => {
                self.put(to, copy);
                Answer::ok()
            }
            Err(fault) => Answer::fault(fault),
        }
    }

    fn view(&self, view: View, slot: Slot) -> Answer
        ensures { Step self.now (Command.View view slot) result self.now }
    {
        let Some(tree) = self.tree(slot) else {
            return Answer::empty();
        };
        Answer::of_text(view_text(self.alloc, view, tree))
    }

    fn split(&self, slot: Slot, char: char) -> Answer
        ensures { Step self.now (Command.Split slot char) result self.now }
    {
        let Some(tree) = self.tree(slot) else {
            return Answer::empty();
        };
        Answer::of_text(piece_sizes(self.alloc, tree, char))
    }

    fn equal(&self, left: Slot, right: Slot) -> Answer
        ensures { Step self.now (Command.Equal left right) result self.now }
    {
        let Some(left) = self.tree(left) else {
            return Answer::empty();
        };
        let Some(right) = self.tree(right) else {
            return Answer::empty();
        };
        Answer::yes_or_no(left == right)
    }
}
