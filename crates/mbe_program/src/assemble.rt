//! Makes a program of the pieces of a pattern.
ghost use Rattle.std.specs.Prelude.{◌≡◌, IfOk, OnOk};
ghost use Rattle.tt.specs.Iters.{rest_of};
ghost use Rattle.mbe_pattern.specs.Placed.{pattern_of};
ghost use Rattle.mbe_program.specs.Assembling.{made_of, made_with};
ghost use Rattle.mbe_program.specs.Moving.{instructions_of};
ghost use Rattle.mbe_program.specs.Pieces.{bit_of};
ghost use Rattle.mbe_program.specs.Program.{program_of};

use crate::instruction::Instruction;
use crate::parse::{Piece, parse};
use std::alloc::{AllocError, Global};
use tt::TtIter;

/// The instructions so far, the last first, and how many follow each open repetition, the innermost last.
#[derive(Drop)]
pub(crate) struct Made {
    program: Vec<Instruction>,
    ends: Vec<usize>,
}

impl Made {
    // Adds the instruction of a piece, in a program of that many instructions.
    fn add(&mut self, piece: Piece, total: usize) -> Result<(), AllocError>
        ensures { OnOk result (made_of self.new ≡ made_with total (bit_of piece) (made_of self.old)) }
    {
        match piece {
            Piece::Plain(instruction) => Ok(self.program.push(instruction)?),
            Piece::Begin(kind, first) => {
                let Some(behind) = self.ends.pop() else {
                    return Ok(());
                };
                let left = total.saturating_sub(first);
                Ok(self.program.push(Instruction::Begin(kind, left, behind))?)
            }
            Piece::Close(kind, again) => {
                self.ends.push(self.program.len())?;
                let left = total.saturating_sub(again);
                Ok(self.program.push(Instruction::Close(kind, left))?)
            }
        }
    }
}

/// Returns the program of the pattern that the trees spell; `validate` of `mbe_pattern` tests whether they have a fault.
///
/// Time and memory are linear in the pattern. Fails only if memory runs out.
pub fn program_of(alloc: Global, pattern: TtIter<'_>) -> Result<Vec<Instruction>, AllocError>
    ensures { IfOk result (λ program. instructions_of program.items ≡ program_of (pattern_of (rest_of pattern.entry))) }
{
    let mut pieces = parse(alloc, pattern)?;
    let total = pieces.len();
    let mut made = Made {
        program: Vec::new(alloc),
        ends: Vec::new(alloc),
    };
    while let Some(piece) = pieces.pop() {
        made.add(piece, total)?;
    }
    let mut program = made.program;
    program.reverse();
    Ok(program)
}
