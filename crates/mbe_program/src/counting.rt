//! Finds the numbers of a pattern's parts beside the instructions of its program.
ghost use Rattle.std.specs.Prelude.{◌≡◌, ◌≤◌, suc, length, set, IfOk, OnOk};
ghost use Rattle.mbe_program.specs.Counting.{count_of, counted, counted_on, is_separated, nothing_counted, starts_later, with_none, with_part, with_separator};
ghost use Rattle.mbe_program.specs.Moving.{instruction_of, instructions_of};
ghost use Rattle.mbe_program.specs.Program.{place_at};

use crate::instruction::Instruction;
use std::alloc::{AllocError, Global};

/// The numbers so far, the number of the next part, and whether the next instruction is a separator.
#[derive(Drop)]
struct Counting {
    numbers: Vec<usize>,
    next: usize,
    separates: bool,
}

// Sets the number at that index, if there is one.
fn set_number(numbers: &mut Vec<usize>, index: usize, number: usize)
    ensures { numbers.new.items ≡ set numbers.old.items index number }
{
    if index < numbers.len() {
        numbers[index] = number;
    }
}

// Returns whether a repetition begins there, and its first round is behind the place with so many instructions left.
fn starts_later(instruction: &Instruction, left: usize) -> bool
    ensures { result ≡ starts_later (instruction_of instruction.now) left }
{
    match instruction {
        Instruction::Begin(_, first, _) => *first < left,
        Instruction::Take(_)
        | Instruction::Pass(_)
        | Instruction::Enter(_)
        | Instruction::Leave
        | Instruction::Close(_, _) => false,
    }
}

// Returns whether the round that closes with this jump has a separator, to which the jump leads.
fn is_separated(program: &[Instruction], again: usize) -> bool
    ensures { result ≡ is_separated (place_at (instructions_of program.now) (suc again)) again }
{
    let index = program.len().saturating_sub(again).saturating_sub(1);
    match program.get(index) {
        Some(instruction) => starts_later(instruction, again),
        None => false,
    }
}

impl Counting {
    // Adds a part.
    fn add_part(&mut self) -> Result<(), AllocError>
        requires { self.old.next ≤ length self.old.numbers.items }
        ensures { OnOk result (count_of self.new ≡ with_part (count_of self.old)) }
    {
        self.numbers.push(self.next)?;
        self.next += 1;
        self.separates = false;
        Ok(())
    }

    // Adds an instruction that has no number yet, or never.
    fn add_none(&mut self, separates: bool) -> Result<(), AllocError>
        ensures { OnOk result (count_of self.new ≡ with_none separates (count_of self.old)) }
    {
        self.numbers.push(0)?;
        self.separates = separates;
        Ok(())
    }

    // Adds the end of a round behind a separator at that index.
    fn add_separator(&mut self, index: usize) -> Result<(), AllocError>
        requires { self.old.next ≤ length self.old.numbers.items }
        ensures { OnOk result (count_of self.new ≡ with_separator index (count_of self.old)) }
    {
        set_number(&mut self.numbers, index, self.next);
        self.numbers.push(0)?;
        self.next += 1;
        self.separates = false;
        Ok(())
    }

    // Adds an instruction behind which so many are left.
    fn add(
        &mut self,
        program: &[Instruction],
        instruction: &Instruction,
        behind: usize,
    ) -> Result<(), AllocError>
        requires { self.old.next ≤ length self.old.numbers.items }
        ensures { OnOk result (count_of self.new ≡ counted_on (instructions_of program.now) (instruction_of instruction.now) behind (count_of self.old)) }
    {
        match instruction {
            Instruction::Take(_) | Instruction::Enter(_) | Instruction::Leave => self.add_part(),
            Instruction::Pass(_) => {
                if self.separates {
                    self.add_none(false)
                } else {
                    self.add_part()
                }
            }
            Instruction::Begin(_, first, _) => self.add_none(*first < behind),
            Instruction::Close(_, again) => {
                if is_separated(program, *again) {
                    self.add_separator(program.len().saturating_sub(*again))
                } else {
                    self.add_none(false)
                }
            }
        }
    }
}

/// Returns the numbers of the parts that the instructions of a program are.
pub(crate) fn part_numbers(alloc: Global, program: &[Instruction]) -> Result<Vec<usize>, AllocError>
    ensures { IfOk result (λ numbers. numbers.items ≡ (counted (instructions_of program.now) (instructions_of program.now) nothing_counted).numbers) }
{
    let mut counting = Counting {
        numbers: Vec::new(alloc),
        next: 0,
        separates: false,
    };
    let mut behind = program.len();
    for instruction in program {
        behind = behind.saturating_sub(1);
        counting.add(program, instruction, behind)?;
    }
    Ok(counting.numbers)
}
