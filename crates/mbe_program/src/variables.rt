//! The variables of a program.
ghost use Rattle.std.specs.Prelude.{◌≡◌, [], map, IfOk, OnOk};
ghost use Rattle.mbe_matcher.specs.Binders.{where_of};
ghost use Rattle.mbe_program.specs.Moving.{instruction_of, instructions_of};
ghost use Rattle.mbe_program.specs.Variables.{variables_in, with_variable, known_of, known_with};

use crate::instruction::Instruction;
use mbe_matcher::Binder;
use mbe_pattern::Variable;
use std::alloc::{AllocError, Global};

/// The variables so far, and the numbers of the open repetitions, the innermost last.
#[derive(Drop)]
pub(crate) struct Variables {
    binders: Vec<Binder>,
    nest: Vec<usize>,
}

impl Variables {
    // Adds a variable that so many instructions follow.
    fn add(&mut self, alloc: Global, variable: &Variable, left: usize) -> Result<(), AllocError>
        ensures { OnOk result (known_of self.new ≡ with_variable variable.now left (known_of self.old)) }
    {
        let mut nest = Vec::new(alloc);
        nest.extend_from_slice(&self.nest)?;
        Ok(
            self.binders.push(Binder {
                name: variable.name.clone()?,
                fragment: variable.fragment,
                number: left,
                nest,
            })?,
        )
    }

    // Passes an instruction that so many others follow: adds its variable, or opens or closes a repetition.
    fn pass(
        &mut self,
        alloc: Global,
        instruction: &Instruction,
        left: usize,
    ) -> Result<(), AllocError>
        ensures { OnOk result (known_of self.new ≡ known_with (instruction_of instruction.now) left (known_of self.old)) }
    {
        match instruction {
            Instruction::Take(variable) => self.add(alloc, variable, left),
            Instruction::Begin(_, _, behind) => Ok(self.nest.push(*behind)?),
            Instruction::Close(..) => {
                self.nest.pop();
                Ok(())
            }
            Instruction::Pass(_) | Instruction::Enter(_) | Instruction::Leave => Ok(()),
        }
    }
}

/// Returns the variables of a program, in its order. The number of a variable is how many instructions follow it, and that of a repetition
/// how many follow all of it. Fails only if memory runs out.
pub(crate) fn variables_of(
    alloc: Global,
    program: &[Instruction],
) -> Result<Vec<Binder>, AllocError>
    ensures { IfOk result (λ binders. map where_of binders.items ≡ variables_in [] (instructions_of program.now)) }
{
    let mut variables = Variables {
        binders: Vec::new(alloc),
        nest: Vec::new(alloc),
    };
    let mut left = program.len();
    for instruction in program {
        left -= 1;
        variables.pass(alloc, instruction, left)?;
    }
    Ok(variables.binders)
}
