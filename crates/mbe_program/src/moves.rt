//! The steps from a cell of a search.
ghost use Rattle.std.specs.Prelude.{◌≡◌, ◌≤◌, ◌↔◌, ◌∷◌, true, false, List, length, IfOk, IsTrue, MatchOption};
ghost use Rattle.mbe_matcher.specs.Fragments.{takes, reach};
ghost use Rattle.mbe_pattern.specs.declared.pattern.Fragment.TheVariants as fragment;
ghost use Rattle.mbe_pattern.specs.Units.{front_trees, unit_size, AreLeavesLike, IsLeafLike, IsNodeOf, IsUnitLike};
ghost use Rattle.mbe_program.specs.Moving.{AreMoves, AreMovesAt, AreMovesOf, instructions_of, instruction_of};
ghost use Rattle.mbe_program.specs.Positions.{table_of};
ghost use Rattle.mbe_program.specs.Program.{Instruction as Step, take as take_step, pass as pass_step, enter as enter_step, leave as leave_step, begin as begin_step, close as close_step};
ghost use Rattle.mbe_program.specs.Tables.{Table};
ghost use Rattle.mbe_program.specs.declared.moves.Moves.TheVariants as only;
ghost use Rattle.tt.specs.Iters.{rest_of};
ghost use Rattle.tt.specs.Moves.{after_tree};
ghost use Rattle.tt.specs.Types.DelimiterKind.{DelimiterKind as Kind};
ghost use Rattle.tt.specs.Views.{trees_of};

use crate::cell::Cell;
use crate::instruction::Instruction;
use crate::positions::Positions;
use mbe_grammar::Unit;
use mbe_matcher::{Mark, grammar_reach, reach, takes};
use mbe_pattern::{Fragment, RepeatKind, Variable, passes_leaf};
use std::alloc::{AllocError, Global};
use tt::{DelimiterKind, Leaf, TokenKind, TokenTreesView, TtIter};

/// A step from a cell to another, and what it marks.
#[derive(Clone, Copy)]
pub(crate) struct Move<'i> {
    pub(crate) to: Cell,
    pub(crate) mark: Option<Mark<'i>>,
}

/// The steps from a cell.
#[derive(Clone, Copy)]
pub(crate) enum Moves<'i> {
    /// None.
    Nowhere,
    /// Only one.
    One(Move<'i>),
    /// Two, with different marks.
    Two(Move<'i>, Move<'i>),
}

// Returns how many trees the first unit has: those of a token, or one subtree. Reads them without their leaves.
fn size_of_first(trees: TokenTreesView<'_>) -> usize
    ensures { result ≡ unit_size (trees_of trees.entry) }
{
    Unit::take(&mut trees.iter()).size()
}

// Returns 1 if an ident other than `_` comes first.
fn ident_taken(trees: TokenTreesView<'_>) -> Option<usize>
    ensures { MatchOption result (takes fragment.Ident (trees_of trees.entry) ≡ false) (λ count. (takes fragment.Ident (trees_of trees.entry) ≡ true) × (count ≡ reach fragment.Ident (trees_of trees.entry))) }
{
    match trees.iter().next_kind() {
        Some(TokenKind::Ident(text, _)) if text != "_" => Some(1),
        _ => None,
    }
}

// Returns how many trees the first token or subtree has, if one comes first.
fn tree_taken(trees: TokenTreesView<'_>) -> Option<usize>
    ensures { MatchOption result (takes fragment.Tt (trees_of trees.entry) ≡ false) (λ count. (takes fragment.Tt (trees_of trees.entry) ≡ true) × (count ≡ reach fragment.Tt (trees_of trees.entry))) }
{
    match trees.iter().next_kind() {
        None => None,
        Some(TokenKind::Punct(_, _)) => Some(size_of_first(trees)),
        Some(_) => Some(1),
    }
}

// Returns how many trees the fragment takes, if it takes the trees at the front.
fn taken_by(
    alloc: Global,
    fragment: Fragment,
    trees: TokenTreesView<'_>,
) -> Result<Option<usize>, AllocError>
    ensures { IfOk result (λ found. MatchOption found (takes fragment (trees_of trees.entry) ≡ false) (λ count. (takes fragment (trees_of trees.entry) ≡ true) × (count ≡ reach fragment (trees_of trees.entry)))) }
{
    match fragment {
        Fragment::Grammar(which) => grammar_reach(alloc, which, trees.iter()),
        Fragment::Ident => Ok(ident_taken(trees)),
        Fragment::Tt => Ok(tree_taken(trees)),
        Fragment::Literal | Fragment::Lifetime | Fragment::Block | Fragment::Vis => {
            if !takes(alloc, fragment, trees.iter())? {
                return Ok(None);
            }
            let count = reach(alloc, fragment, trees.iter())?;
            Ok(Some(count))
        }
    }
}

// Passes the next tree and returns whether it is such a leaf. Only of a literal before a literal does it read the leaf.
fn passes_like(leaf: &Leaf, trees: &mut TtIter<'_>) -> bool
    ensures answer { IsTrue result ↔ IsLeafLike leaf.now (rest_of trees.old) }
    ensures rest { rest_of trees.new ≡ after_tree (rest_of trees.old) }
{
    let mut before = trees.remaining().iter();
    match (leaf, trees.next_kind()) {
        (Leaf::Punct(punct), Some(TokenKind::Punct(char, _))) => punct.char == char,
        (Leaf::Ident(ident), Some(TokenKind::Ident(text, is_raw))) => {
            ident.sym.as_str() == text && ident.is_raw == is_raw
        }
        (Leaf::Literal(_), Some(TokenKind::Literal(_))) => passes_leaf(leaf, &mut before),
        _ => false,
    }
}

// Returns whether the first trees are such leaves, one by one.
fn are_like(leaves: &[Leaf], trees: TokenTreesView<'_>) -> bool
    ensures { IsTrue result ↔ AreLeavesLike leaves.now (trees_of trees.entry) }
{
    let mut rest = trees.iter();
    for leaf in leaves {
        if !passes_like(leaf, &mut rest) {
            return false;
        }
    }
    true
}

// Returns whether the first token has these leaves. Most trees differ in the first leaf, so it compares the leaves before it counts those of
// the token. A token that begins with an ident or a literal has one leaf.
fn is_unit_like(leaves: &[Leaf], trees: TokenTreesView<'_>) -> bool
    ensures { IsTrue result ↔ IsUnitLike leaves.now (trees_of trees.entry) }
{
    match leaves.first() {
        Some(Leaf::Ident(_) | Leaf::Literal(_)) => leaves.len() == 1 && are_like(leaves, trees),
        _ => are_like(leaves, trees) && size_of_first(trees) == leaves.len(),
    }
}

// Returns the kind of the first tree, if it is a subtree.
fn kind_of(trees: TokenTreesView<'_>) -> Option<DelimiterKind>
    ensures { MatchOption result ((kind : Kind) → IsNodeOf kind (trees_of trees.entry) → ⊥) (λ kind. IsNodeOf kind (trees_of trees.entry)) }
{
    match trees.iter().next_kind() {
        Some(TokenKind::Subtree(kind, _)) => Some(kind),
        _ => None,
    }
}

// Returns the step to that cell, as the only one.
fn one<'i>(position: usize, left: usize, mark: Option<Mark<'i>>) -> Moves<'i>
    ensures { result ≡ only.One (record { to = record { position = position; left = left }; mark = mark.entry }) }
{
    Moves::One(Move {
        to: Cell { position, left },
        mark,
    })
}

// Returns that many trees at the front, or all if there are fewer.
fn front<'i>(trees: TokenTreesView<'i>, count: usize) -> TokenTreesView<'i>
    ensures { trees_of result ≡ front_trees count (trees_of trees.entry) }
{
    let mut rest = trees.iter();
    let start = rest.savepoint();
    for _ in 0..count {
        rest.next_kind();
    }
    rest.from_savepoint(start)
}

// Returns the step of a variable.
fn take_from<'i>(
    alloc: Global,
    variable: &Variable,
    positions: &Positions<'i>,
    number: usize,
    behind: usize,
) -> Result<Moves<'i>, AllocError>
    ensures { IfOk result (λ moves. (program rest : List Step) → length rest ≡ behind → AreMovesAt program (table_of positions.now) (take_step variable.now ∷ rest) number moves) }
{
    if number == 0 {
        return Ok(Moves::Nowhere);
    }
    let trees = positions.trees(number);
    let Some(count) = taken_by(alloc, variable.fragment, trees)? else {
        return Ok(Moves::Nowhere);
    };
    let view = front(trees, count);
    let to = positions.passed_to(count, number);
    Ok(one(to, behind, Some(Mark::Took(behind, view))))
}

// Returns the step of a token.
fn pass_from<'i>(
    leaves: &[Leaf],
    positions: &Positions<'i>,
    number: usize,
    behind: usize,
) -> Moves<'i>
    ensures { (program rest : List Step) → length rest ≡ behind → AreMovesAt program (table_of positions.now) (pass_step leaves.now ∷ rest) number result }
{
    if !is_unit_like(leaves, positions.trees(number)) {
        return Moves::Nowhere;
    }
    one(positions.passed_to(leaves.len(), number), behind, None)
}

// Returns the step out of a subtree.
fn leave_from<'i>(positions: &Positions<'i>, number: usize, behind: usize) -> Moves<'i>
    ensures { (program rest : List Step) → length rest ≡ behind → AreMovesAt program (table_of positions.now) (leave_step ∷ rest) number result }
{
    if number == 0 || !positions.trees(number).is_empty() {
        return Moves::Nowhere;
    }
    one(positions.outside(number), behind, None)
}

// Returns the step into a subtree of that kind.
fn enter_from<'i>(
    kind: DelimiterKind,
    positions: &Positions<'i>,
    number: usize,
    behind: usize,
) -> Moves<'i>
    ensures { (program rest : List Step) → length rest ≡ behind → AreMovesAt program (table_of positions.now) (enter_step kind ∷ rest) number result }
{
    let Some(own) = kind_of(positions.trees(number)) else {
        return Moves::Nowhere;
    };
    if own != kind {
        return Moves::Nowhere;
    }
    one(positions.inside(number), behind, None)
}

// Returns the steps at the beginning of a repetition, in a program of that many instructions.
fn begin_from<'i>(
    kind: RepeatKind,
    first: usize,
    after: usize,
    all: usize,
    number: usize,
) -> Moves<'i>
    ensures { (program rest : List Step) → (table : Table) → length program ≡ all → AreMovesAt program table (begin_step kind first after ∷ rest) number result }
{
    let into = Move {
        to: Cell {
            position: number,
            left: first.min(all),
        },
        mark: Some(Mark::Round(after)),
    };
    if !kind.may_be_none() {
        return Moves::One(into);
    }
    let around = Move {
        to: Cell {
            position: number,
            left: after.min(all),
        },
        mark: Some(Mark::Over(after)),
    };
    Moves::Two(into, around)
}

// Returns the steps at the end of a round, in a program of that many instructions.
fn close_from<'i>(
    kind: RepeatKind,
    again: usize,
    all: usize,
    number: usize,
    behind: usize,
) -> Moves<'i>
    ensures { (program rest : List Step) → (table : Table) → length program ≡ all → length rest ≡ behind → AreMovesAt program table (close_step kind again ∷ rest) number result }
{
    let out = Move {
        to: Cell {
            position: number,
            left: behind,
        },
        mark: Some(Mark::Over(behind)),
    };
    if !kind.may_be_more() {
        return Moves::One(out);
    }
    let back = Move {
        to: Cell {
            position: number,
            left: again.min(all),
        },
        mark: Some(Mark::Round(behind)),
    };
    Moves::Two(back, out)
}

// Returns the steps of an instruction, in a program of that many instructions.
fn moves_of<'i>(
    alloc: Global,
    instruction: &Instruction,
    positions: &Positions<'i>,
    number: usize,
    all: usize,
    behind: usize,
) -> Result<Moves<'i>, AllocError>
    ensures { IfOk result (AreMovesOf (table_of positions.now) (instruction_of instruction.now) number all behind) }
{
    match instruction {
        Instruction::Take(variable) => take_from(alloc, variable, positions, number, behind),
        Instruction::Pass(leaves) => Ok(pass_from(leaves, positions, number, behind)),
        Instruction::Enter(kind) => Ok(enter_from(*kind, positions, number, behind)),
        Instruction::Leave => Ok(leave_from(positions, number, behind)),
        Instruction::Begin(kind, first, after) => Ok(begin_from(
            *kind, *first, *after, all, number,
        )),
        Instruction::Close(kind, again) => Ok(close_from(*kind, *again, all, number, behind)),
    }
}

/// Returns the steps from a cell. Fails only if memory runs out.
pub(crate) fn moves_from<'i>(
    alloc: Global,
    program: &[Instruction],
    positions: &Positions<'i>,
    cell: Cell,
) -> Result<Moves<'i>, AllocError>
    requires { cell.left ≤ length program.now }
    ensures { IfOk result (AreMoves (instructions_of program.now) (table_of positions.now) cell) }
{
    if cell.left == 0 {
        return Ok(Moves::Nowhere);
    }
    let all = program.len();
    let instruction = &program[all - cell.left];
    moves_of(
        alloc,
        instruction,
        positions,
        cell.position,
        all,
        cell.left - 1,
    )
}
