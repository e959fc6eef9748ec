//! The positions of an input, numbered: those of a level follow one another.
ghost use Rattle.std.specs.Prelude.{◌≡◌, ◌+◌, ◌<◌, ◌≤◌, ◌^◌, ◌++◌, ◌∷◌, ◌↔◌, [], suc, drop, length, false, Contains, IfOk, IsTrue, OnOk, MatchOption};
ghost use Rattle.mbe_pattern.specs.Units.{IsNodeOf};
ghost use Rattle.tt.specs.Forest.{Forest, node, size};
ghost use Rattle.tt.specs.Iters.{rest_of};
ghost use Rattle.tt.specs.Moves.{after_tree};
ghost use Rattle.tt.specs.Types.Delimiter.{Delimiter};
ghost use Rattle.tt.specs.Types.DelimiterKind.{DelimiterKind as Kind};
ghost use Rattle.tt.specs.Views.{trees_of};
ghost use Rattle.mbe_program.specs.Laying.{AreLaid, level_spots, pending, places_in, spot, spots_of};
ghost use Rattle.mbe_program.specs.Moving.{instruction_of, instructions_of};
ghost use Rattle.mbe_program.specs.Positions.{table_of};
ghost use Rattle.mbe_program.specs.Program.{enter};
ghost use Rattle.mbe_program.specs.Tables.{IsTableOf, passed_to};

use crate::instruction::Instruction;
use std::alloc::{AllocError, Global};
use tt::{DelimiterKind, TokenTreesView, TtIter};

/// A position: the trees that are left of its level, the number of the position outside the level, and how many tokens are left.
#[derive(Clone, Copy)]
pub(crate) struct Position<'i> {
    trees: TokenTreesView<'i>,
    outside: usize,
    left: usize,
}

/// The positions of an input by number, and the number of the first position inside each one's first tree.
#[derive(Drop)]
pub(crate) struct Positions<'i> {
    pub(crate) all: Vec<Position<'i>>,
    insides: Vec<usize>,
}

impl<'i> Positions<'i> {
    /// Returns the trees that are left at the position of that number.
    pub(crate) fn trees(&self, number: usize) -> TokenTreesView<'i>
        ensures { trees_of result ≡ (table_of self.now).trees number }
    {
        let Some(it) = self.all.get(number) else {
            return TokenTreesView::empty();
        };
        it.trees
    }

    /// Returns the number of the position outside the level.
    pub(crate) fn outside(&self, number: usize) -> usize
        ensures { result ≡ (table_of self.now).outside number }
    {
        match self.all.get(number) {
            Some(it) => it.outside,
            None => 0,
        }
    }

    /// Returns how many tokens are left.
    pub(crate) fn left(&self, number: usize) -> usize
        ensures { result ≡ (table_of self.now).left number }
    {
        match self.all.get(number) {
            Some(it) => it.left,
            None => 0,
        }
    }

    /// Returns the number of the first position inside the first tree.
    pub(crate) fn inside(&self, number: usize) -> usize
        ensures { result ≡ (table_of self.now).inside number }
    {
        match self.insides.get(number) {
            Some(it) => *it,
            None => 0,
        }
    }

    /// Returns the number of the position after that many trees, or at the end of the level if it has fewer.
    pub(crate) fn passed_to(&self, count: usize, number: usize) -> usize
        ensures { result ≡ passed_to (table_of self.now) count number }
    {
        let mut to = number;
        for _ in 0..count {
            to = self.next_to(to);
        }
        to
    }

    // Returns the number of the position after the first tree, if there is one.
    fn next_to(&self, number: usize) -> usize
        ensures { result ≡ passed_to (table_of self.now) 1 number }
    {
        match self.all.get(number) {
            Some(it) => {
                if it.trees.is_empty() {
                    number
                } else {
                    number + 1
                }
            }
            None => number,
        }
    }

    // Adds one position before these trees.
    fn add(
        &mut self,
        trees: TokenTreesView<'i>,
        outside: usize,
        behind: usize,
    ) -> Result<(), AllocError>
        requires { size (trees_of trees) + behind < 2 ^ 64 }
        ensures spots { OnOk result (spots_of self.new ≡ spots_of self.old ++ spot outside behind (trees_of trees.entry) ∷ []) }
        ensures insides { self.new.insides ≡ self.old.insides }
    {
        let left = trees.len() + behind;
        self.all.push(Position {
            trees,
            outside,
            left,
        })?;
        Ok(())
    }

    // Adds the positions of a level.
    fn add_level(
        &mut self,
        trees: TtIter<'i>,
        outside: usize,
        behind: usize,
    ) -> Result<(), AllocError>
        requires { size (rest_of trees) + behind < 2 ^ 64 }
        ensures spots { OnOk result (spots_of self.new ≡ spots_of self.old ++ level_spots outside behind (rest_of trees.entry)) }
        ensures insides { self.new.insides ≡ self.old.insides }
    {
        let mut rest = trees;
        self.add(rest.remaining(), outside, behind)?;
        while !rest.is_empty() {
            rest.next_kind();
            self.add(rest.remaining(), outside, behind)?;
        }
        Ok(())
    }

    // Notes what is inside the first tree at the position of that number, if the program enters subtrees of its kind.
    fn look_into(
        &mut self,
        program: &[Instruction],
        enters_some: bool,
        number: usize,
    ) -> Result<(), AllocError>
        requires none { enters_some ≡ false → (kind : Kind) → Contains (instructions_of program.now) (enter kind) → ⊥ }
        requires number { number < length self.old.all.items }
        requires some { 0 < number }
        requires count { length self.old.insides.items ≡ number }
        requires laid { (input : Forest) × AreLaid (instructions_of program.now) input (spots_of self.old) self.old.insides.items }
        ensures laid { OnOk result ((input : Forest) → AreLaid (instructions_of program.now) input (spots_of self.old) self.old.insides.items → AreLaid (instructions_of program.now) input (spots_of self.new) self.new.insides.items) }
        ensures now_count { OnOk result (length self.new.insides.items ≡ suc number) }
        ensures grown { OnOk result (length (spots_of self.old) ≤ length (spots_of self.new)) }
        ensures pending { OnOk result (length (spots_of self.new) + pending (drop (suc number) (spots_of self.new)) ≤ length (spots_of self.old) + pending (drop number (spots_of self.old))) }
    {
        let Some(children) = children_of(program, enters_some, self.trees(number)) else {
            self.insides.push(0)?;
            return Ok(());
        };
        let count = children.remaining().len();
        let behind = self.left(number) - count - 1;
        self.insides.push(self.all.len())?;
        self.add_level(children, number + 1, behind)
    }
}

// Returns whether the instruction enters subtrees of that kind.
fn is_enter(instruction: &Instruction, kind: DelimiterKind) -> bool
    ensures { IsTrue result ↔ (instruction_of instruction.now ≡ enter kind) }
{
    match instruction {
        Instruction::Enter(own) => *own == kind,
        Instruction::Take(_)
        | Instruction::Pass(_)
        | Instruction::Leave
        | Instruction::Begin(_, _, _)
        | Instruction::Close(_, _) => false,
    }
}

// Returns whether the program enters subtrees of that kind.
fn enters(program: &[Instruction], kind: DelimiterKind) -> bool
    ensures { IsTrue result ↔ Contains (instructions_of program.now) (enter kind) }
{
    for instruction in program {
        if is_enter(instruction, kind) {
            return true;
        }
    }
    false
}

// Returns whether the instruction enters subtrees.
fn is_any_enter(instruction: &Instruction) -> bool
    ensures { result ≡ false → (kind : Kind) → instruction_of instruction.now ≡ enter kind → ⊥ }
{
    matches!(instruction, Instruction::Enter(_))
}

// Returns whether the program enters subtrees.
fn enters_any(program: &[Instruction]) -> bool
    ensures { result ≡ false → (kind : Kind) → Contains (instructions_of program.now) (enter kind) → ⊥ }
{
    for instruction in program {
        if is_any_enter(instruction) {
            return true;
        }
    }
    false
}

// Returns what the first tree holds, if it is a subtree of a kind that the program enters.
// `enters_some`: whether the program enters subtrees.
fn children_of<'i>(
    program: &[Instruction],
    enters_some: bool,
    trees: TokenTreesView<'i>,
) -> Option<TtIter<'i>>
    requires none { enters_some ≡ false → (kind : Kind) → Contains (instructions_of program.now) (enter kind) → ⊥ }
    ensures { MatchOption result ((kind : Kind) → Contains (instructions_of program.now) (enter kind) → IsNodeOf kind (trees_of trees.entry) → ⊥) (λ children. (delimiter : Delimiter) × (trees_of trees.entry ≡ node delimiter (rest_of children) (after_tree (trees_of trees.entry)))) }
{
    if !enters_some {
        return None;
    }
    let (header, children) = trees.iter().expect_subtree().ok()?;
    if enters(program, header.delimiter.kind) {
        Some(children)
    } else {
        None
    }
}

/// Returns the positions of an input that a program may come to: 0 is outside, and the input begins at position 1. Positions inside a subtree
/// are left out if the program enters no subtree of its kind.
pub(crate) fn lay_out<'i>(
    alloc: Global,
    program: &[Instruction],
    input: TtIter<'i>,
) -> Result<Positions<'i>, AllocError>
    ensures table { IfOk result (λ positions. IsTableOf (instructions_of program.now) (rest_of input.entry) (table_of positions)) }
    ensures count { IfOk result (λ positions. length positions.all.items ≤ suc (places_in (rest_of input.entry))) }
{
    let mut positions = Positions {
        all: Vec::new(alloc),
        insides: Vec::new(alloc),
    };
    positions.add(TokenTreesView::empty(), 0, 0)?;
    positions.insides.push(0)?;
    positions.add_level(input, 0, 0)?;
    let enters_some = enters_any(program);
    let mut number = 1;
    while number < positions.all.len() {
        positions.look_into(program, enters_some, number)?;
        number += 1;
    }
    Ok(positions)
}
