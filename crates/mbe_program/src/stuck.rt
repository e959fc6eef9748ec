//! Which parts of a pattern wait at a flat place of an input, by a search of the pattern's program.
ghost use Rattle.std.specs.Prelude.{◌≡◌, ◌≤◌, ◌↔◌, true, ℕ, IfOk, IsTrue, length, map, set};
ghost use Rattle.tt.specs.Iters.{rest_of};
ghost use Rattle.mbe_matcher.specs.Waiting.{AreWaiting, set_from};
ghost use Rattle.mbe_pattern.specs.Patterns.{Pattern};
ghost use Rattle.mbe_program.specs.Moving.{instructions_of};
ghost use Rattle.mbe_program.specs.Numbering.{part_at, parts_of};
ghost use Rattle.mbe_program.specs.Positions.{table_of};
ghost use Rattle.mbe_program.specs.Program.{program_of};
ghost use Rattle.mbe_program.specs.Searching.{coming_of};
ghost use Rattle.mbe_program.specs.Stuck.{AreInside, AreStuck, IsStuckCell};

use crate::cell::Cell;
use crate::counting::part_numbers;
use crate::instruction::Instruction;
use crate::moves::{Moves, moves_from};
use crate::positions::{Positions, lay_out};
use crate::search::{Arrival, search_all};
use std::alloc::{AllocError, Global};
use tt::TtIter;

// Returns the number beside the place with so many instructions left.
fn part_at(parts: &[usize], left: usize) -> usize
    ensures { result ≡ part_at parts.now left }
{
    match parts.get(parts.len().saturating_sub(left)) {
        Some(number) => *number,
        None => 0,
    }
}

// Returns whether the cell is inside a level and before an instruction, so many tokens are left, and no step leads on.
fn is_stuck(
    alloc: Global,
    program: &[Instruction],
    positions: &Positions<'_>,
    cell: Cell,
    left: usize,
) -> Result<bool, AllocError>
    requires { cell.left ≤ length program.now }
    ensures { IfOk result (λ answer. IsTrue answer ↔ IsStuckCell (instructions_of program.now) (table_of positions.now) left cell) }
{
    if cell.position == 0 || cell.left == 0 || positions.left(cell.position) != left {
        return Ok(false);
    }
    match moves_from(alloc, program, positions, cell)? {
        Moves::Nowhere => Ok(true),
        Moves::One(_) | Moves::Two(_, _) => Ok(false),
    }
}

// Sets the flag of that number, if there is one.
fn set_flag(flags: &mut Vec<bool>, number: usize)
    ensures { flags.new.items ≡ set flags.old.items number true }
{
    if number < flags.len() {
        flags[number] = true;
    }
}

// Returns a flag for each part: whether an arrival is stuck at the part of that number, and so many tokens are left.
fn stuck_parts(
    alloc: Global,
    program: &[Instruction],
    parts: &[usize],
    positions: &Positions<'_>,
    log: &[Arrival<'_>],
    left: usize,
) -> Result<Vec<bool>, AllocError>
    requires { AreInside (instructions_of program.now) (map coming_of log.now) }
    ensures { IfOk result (λ flags. AreStuck (instructions_of program.now) (table_of positions.now) left parts.now (map coming_of log.now) flags.items) }
{
    let mut flags = vec![in alloc; false; parts.len()]?;
    for arrival in log {
        if is_stuck(alloc, program, positions, arrival.cell, left)? {
            set_flag(&mut flags, part_at(parts, arrival.cell.left));
        }
    }
    Ok(flags)
}

// Returns the numbers of the flags that are set.
fn set_numbers(alloc: Global, flags: &[bool]) -> Result<Vec<usize>, AllocError>
    ensures { IfOk result (λ numbers. numbers.items ≡ set_from 0 flags.now) }
{
    let mut numbers = Vec::new(alloc);
    for (number, flag) in flags.iter().enumerate() {
        if *flag {
            numbers.push(number)?;
        }
    }
    Ok(numbers)
}

/// Returns what `waiting` does, from the numbers of the pattern's parts beside the program. Fails only if memory runs out.
pub(crate) fn waiting_in(
    alloc: Global,
    program: &[Instruction],
    numbers: &[usize],
    input: TtIter<'_>,
    at: usize,
) -> Result<Vec<usize>, AllocError>
    ensures { IfOk result (λ found. (pattern : Pattern) → instructions_of program.now ≡ program_of pattern → numbers.now ≡ parts_of pattern → AreWaiting pattern (rest_of input.entry) at found.items) }
{
    let count = input.remaining().len();
    if at > count {
        return Ok(Vec::new(alloc));
    }
    let positions = lay_out(alloc, program, input)?;
    let search = search_all(alloc, program, &positions)?;
    let flags = stuck_parts(alloc, program, numbers, &positions, &search.log, count - at)?;
    set_numbers(alloc, &flags)
}

/// Returns the numbers of the parts that wait at that flat place of the input, in order, if the program is that of a pattern: some reading of
/// the trees before the place leaves the part as the next one, and the trees there are not what the part requires. Where the pattern stops,
/// these parts are what is expected.
///
/// The parts of a pattern are numbered from 0 in its order: variables, tokens, the beginnings and the ends of subtrees, the separator of a
/// repetition after what it separates, and at last the end of the input.
///
/// Time and memory are those of `run`, which does nothing for it. Fails only if memory runs out.
pub fn waiting(
    alloc: Global,
    program: &[Instruction],
    input: TtIter<'_>,
    at: usize,
) -> Result<Vec<usize>, AllocError>
    ensures { IfOk result (λ numbers. (pattern : Pattern) → instructions_of program.now ≡ program_of pattern → AreWaiting pattern (rest_of input.entry) at numbers.items) }
{
    let numbers = part_numbers(alloc, program)?;
    waiting_in(alloc, program, &numbers, input, at)
}
