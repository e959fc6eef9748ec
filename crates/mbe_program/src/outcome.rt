//! Runs a program through an input, in all ways at once.
ghost use Rattle.std.specs.Prelude.{◌≡◌, ◌<◌, ◌↔◌, ◌++◌, ℕ, suc, List, map, reverse, length, IfOk, OnOk, IsTrue, MatchOption};
ghost use Rattle.mbe_matcher.specs.Marks.{Note, note_of};
ghost use Rattle.tt.specs.Forest.{Forest, size};
ghost use Rattle.tt.specs.Iters.{rest_of};
ghost use Rattle.mbe_program.specs.Answers.{IsAnswer};
ghost use Rattle.mbe_program.specs.Cells.{IsCell};
ghost use Rattle.mbe_program.specs.Moving.{instructions_of, notes_of_mark};
ghost use Rattle.mbe_program.specs.Positions.{table_of};
ghost use Rattle.mbe_program.specs.Program.{Instruction as Step};
ghost use Rattle.mbe_program.specs.Searching.{coming_of, log_of, AreInOrder, EndsAt, HaveAllGoneOn, IsFewest};
ghost use Rattle.mbe_program.specs.Tables.{IsTableOf};
ghost use Rattle.mbe_program.specs.Ways.{Traces};
ghost use Rattle.mbe_program.specs.declared.cell.Cell.{Cell as OneCell};

use crate::cell::Cell;
use crate::instruction::Instruction;
use crate::positions::{Positions, lay_out};
use crate::search::{Arrival, Search, Way, search_all};
use mbe_matcher::Mark;
use std::alloc::{AllocError, Global};
use tt::TtIter;

/// In how many ways a program runs through an input.
#[derive(Drop)]
pub enum Answer<'i> {
    /// In none. The farthest flat place that its steps come to: that many tokens precede it.
    NoRun(usize),
    /// In exactly one, which makes these marks, in the order of the input.
    OneRun(Vec<Mark<'i>>),
    /// In two different ones, and maybe more.
    TwoRuns,
}

// Returns whether nothing is left of the program, and the position is outside of all levels.
fn is_last(arrival: &Arrival<'_>) -> bool
    ensures { IsTrue result ↔ IsCell arrival.now.cell 0 0 }
{
    arrival.cell.position == 0 && arrival.cell.left == 0
}

// Returns the number of an arrival at the last cell, if there is one.
fn last_arrival(log: &[Arrival<'_>]) -> Option<usize>
    ensures { MatchOption result ((k : ℕ) → EndsAt (map coming_of log.now) k → ⊥) (λ k. (k < length log.now) × EndsAt (map coming_of log.now) k) }
{
    for (number, arrival) in log.iter().enumerate() {
        if is_last(arrival) {
            return Some(number);
        }
    }
    None
}

// Returns the fewest tokens that are left at an arrival, or so many if all have more left.
fn fewest_left(log: &[Arrival<'_>], positions: &Positions<'_>, most: usize) -> usize
    ensures { IsFewest (table_of positions.now) most (map coming_of log.now) result }
{
    let mut fewest = most;
    for arrival in log {
        fewest = fewest.min(positions.left(arrival.cell.position));
    }
    fewest
}

// Adds a mark, if there is one, to marks of which the last comes first.
fn add_mark<'i>(marks: &mut Vec<Mark<'i>>, mark: Option<Mark<'i>>) -> Result<(), AllocError>
    ensures { OnOk result (map note_of (reverse marks.new.items) ≡ notes_of_mark mark.entry ++ map note_of (reverse marks.old.items)) }
{
    match mark {
        Some(mark) => Ok(marks.push(mark)?),
        None => Ok(()),
    }
}

// Returns the marks up to the arrival of that number.
fn marks_to<'i>(
    alloc: Global,
    log: &[Arrival<'i>],
    last: usize,
) -> Result<Vec<Mark<'i>>, AllocError>
    requires within { last < length log.now }
    requires in_order { AreInOrder (map coming_of log.now) }
    ensures { IfOk result (λ marks. (m : ℕ) × Traces OneCell Note (map coming_of log.now) m (suc last) (map note_of marks.items)) }
{
    let mut marks = Vec::new(alloc);
    let mut number = last + 1;
    while number > 0 {
        let arrival = log[number - 1];
        add_mark(&mut marks, arrival.mark)?;
        number = arrival.before;
    }
    marks.reverse();
    Ok(marks)
}

// Returns the answer of a search through an input of that many tokens.
fn answer_of<'i>(
    alloc: Global,
    search: &Search<'i>,
    positions: &Positions<'i>,
    count: usize,
) -> Result<Answer<'i>, AllocError>
    requires in_order { AreInOrder (log_of search.now) }
    requires some { (0 < search.now.width) × (0 < length search.now.cells.items) }
    ensures { IfOk result (λ answer. (program : List Step) → (input : Forest) → IsTableOf program input (table_of positions.now) → HaveAllGoneOn program (table_of positions.now) search.now → size input ≡ count → IsAnswer program input answer) }
{
    let Some(last) = last_arrival(&search.log) else {
        let left = fewest_left(&search.log, positions, count);
        return Ok(Answer::NoRun(count - left));
    };
    let cell = Cell {
        position: 0,
        left: 0,
    };
    match search.way(cell) {
        Way::Often => Ok(Answer::TwoRuns),
        Way::Unseen | Way::Once => Ok(Answer::OneRun(marks_to(alloc, &search.log, last)?)),
    }
}

/// Returns in how many ways the program runs through the input: in none, with the farthest flat place that it comes to; in exactly one, with
/// its marks; or in two and maybe more.
///
/// Any program ends, also one with a cycle of steps that take nothing. The search has at most two arrivals for each place of the program
/// before each position of the input, and an input has at most two positions for each token, and two more. So time and memory are at most
/// linear in the length of the program times that of the input, besides the trees that variables take or look at. Fails only if memory runs
/// out.
pub fn run<'i>(
    alloc: Global,
    program: &[Instruction],
    input: TtIter<'i>,
) -> Result<Answer<'i>, AllocError>
    ensures { IfOk result (IsAnswer (instructions_of program.now) (rest_of input.entry)) }
{
    let count = input.remaining().len();
    let positions = lay_out(alloc, program, input)?;
    let search = search_all(alloc, program, &positions)?;
    answer_of(alloc, &search, &positions, count)
}
