//! What the part of a number requires, found in a program and the numbers of its parts.
ghost use Rattle.std.specs.Prelude.{◌≡◌, None, Some, option_map, MatchOption};
ghost use Rattle.mbe_matcher.specs.Parts.{part_of};
ghost use Rattle.mbe_pattern.specs.Patterns.{Pattern};
ghost use Rattle.mbe_program.specs.Labelling.{label_of, required_at, required_by};
ghost use Rattle.mbe_program.specs.Moving.{instruction_of, instructions_of};
ghost use Rattle.mbe_program.specs.Numbering.{parts_of};
ghost use Rattle.mbe_program.specs.Program.{program_of};

use crate::instruction::Instruction;
use mbe_pattern::Variable;
use tt::{DelimiterKind, Leaf};

/// A part of a pattern, by what it requires of an input.
#[derive(Clone, Copy)]
pub enum Part<'p> {
    /// Trees that this variable takes.
    Take(&'p Variable),
    /// A token of these leaves.
    Same(&'p [Leaf]),
    /// A subtree of this kind.
    Enter(DelimiterKind),
    /// The end of a subtree, or of the input.
    Leave,
}

// Returns the part that the instruction is, if it is one and the number beside it is that one.
fn numbered_part(instruction: &Instruction, beside: usize, number: usize) -> Option<Part<'_>>
    ensures { option_map label_of result ≡ required_at (required_by (instruction_of instruction.now)) beside number }
{
    if beside != number {
        return None;
    }
    match instruction {
        Instruction::Take(variable) => Some(Part::Take(variable)),
        Instruction::Pass(leaves) => Some(Part::Same(leaves)),
        Instruction::Enter(kind) => Some(Part::Enter(*kind)),
        Instruction::Leave => Some(Part::Leave),
        Instruction::Begin(_, _, _) | Instruction::Close(_, _) => None,
    }
}

/// Returns the part of that number of a pattern, of which this is the program with the numbers of its parts; none if there are fewer parts.
pub(crate) fn part_in<'p>(
    program: &'p [Instruction],
    numbers: &[usize],
    number: usize,
) -> Option<Part<'p>>
    ensures { (pattern : Pattern) → instructions_of program.now ≡ program_of pattern → numbers.now ≡ parts_of pattern → MatchOption result (part_of pattern number ≡ None) (λ part. part_of pattern number ≡ Some (label_of part)) }
{
    for index in 0..program.len().min(numbers.len()) {
        if let Some(part) = numbered_part(&program[index], numbers[index], number) {
            return Some(part);
        }
    }
    None
}
