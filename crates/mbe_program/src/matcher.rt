//! The matcher of a pattern. It reads any number of inputs.
ghost use Rattle.std.specs.Prelude.{◌≡◌, None, Some, IfOk, IfErr, MatchOption};
ghost use Rattle.tt.specs.Forest.{Forest};
ghost use Rattle.tt.specs.Iters.{rest_of};
ghost use Rattle.mbe_matcher.specs.Finding.{IsFound};
ghost use Rattle.mbe_matcher.specs.Parts.{part_of};
ghost use Rattle.mbe_matcher.specs.Waiting.{AreWaiting};
ghost use Rattle.mbe_pattern.specs.Faults.{pattern_fault, IsPatternError};
ghost use Rattle.mbe_pattern.specs.Patterns.{Pattern};
ghost use Rattle.mbe_pattern.specs.Placed.{pattern_of};
ghost use Rattle.mbe_program.specs.Answers.{IsAnswer};
ghost use Rattle.mbe_program.specs.Matchers.{IsMatcherOf};
ghost use Rattle.mbe_program.specs.Labelling.{label_of};
ghost use Rattle.mbe_program.specs.Program.{program_of};

use crate::assemble::program_of;
use crate::counting::part_numbers;
use crate::instruction::Instruction;
use crate::outcome::{Answer, run};
use crate::part::{Part, part_in};
use crate::stuck::waiting_in;
use crate::variables::variables_of;
use mbe_matcher::{Binder, Binding, Found};
use mbe_pattern::{PatternError, validate};
use std::alloc::{AllocError, Global};
use tt::TtIter;

/// A pattern that is ready to read inputs.
#[derive(Drop)]
pub struct Matcher {
    instructions: Vec<Instruction>,
    // the numbers of the parts that the instructions are
    numbers: Vec<usize>,
    binders: Vec<Binder>,
}

// Returns what is found in an input, from how the program of a pattern runs through it.
fn found_of<'i>(answer: Answer<'i>) -> Found<'i>
    ensures { (pattern : Pattern) → (input : Forest) → IsAnswer (program_of pattern) input answer.entry → IsFound pattern input result }
{
    match answer {
        Answer::NoRun(at) => Found::Nothing(at),
        Answer::OneRun(marks) => Found::One(Binding::new(marks)),
        Answer::TwoRuns => Found::Many,
    }
}

impl Matcher {
    /// Returns the matcher of the pattern that the trees spell.
    ///
    /// `$name:fragment` is a variable. `$( .. )`, with a separator if there is one, and `*`, `+` or `?` is a repetition. Everything
    /// else is matched literally, `$crate` too.
    ///
    /// Time and memory are linear in the pattern. Returns the first fault in reading order if the pattern has one; fails also if memory runs
    /// out.
    pub fn new(alloc: Global, pattern: TtIter<'_>) -> Result<Matcher, PatternError>
        ensures ok { IfOk result (IsMatcherOf (pattern_of (rest_of pattern.entry))) }
        ensures sound { IfOk result (λ _. pattern_fault (rest_of pattern.entry) ≡ None) }
        ensures err { IfErr result (IsPatternError (rest_of pattern.entry)) }
    {
        validate(alloc, pattern.remaining().iter())?;
        let instructions = program_of(alloc, pattern)?;
        let numbers = part_numbers(alloc, &instructions)?;
        let binders = variables_of(alloc, &instructions)?;
        Ok(Matcher {
            instructions,
            numbers,
            binders,
        })
    }

    /// Returns the variables of the pattern, in reading order.
    pub fn binders(&self) -> &[Binder]
        ensures { result.now ≡ self.now.binders.items }
    {
        &self.binders
    }

    /// Returns in how many ways the input is an instance of the pattern: in none, with the flat place where it stops; in exactly one, with
    /// what it binds; or in two and maybe more.
    ///
    /// Time and memory are those of the function `run`. Fails only if memory runs out.
    pub fn read<'i>(&self, alloc: Global, input: TtIter<'i>) -> Result<Found<'i>, AllocError>
        ensures { IfOk result (λ found. (pattern : Pattern) → IsMatcherOf pattern self.now → IsFound pattern (rest_of input.entry) found) }
    {
        let answer = run(alloc, &self.instructions, input)?;
        Ok(found_of(answer))
    }

    /// Returns what the part of that number requires; none if there are fewer parts.
    ///
    /// The parts of a pattern are numbered from 0 in its order: variables, tokens, the beginnings and the ends of subtrees, the separator of a
    /// repetition after what it separates, and at last the end of the input. Time is linear in the pattern.
    pub fn part(&self, number: usize) -> Option<Part<'_>>
        ensures { (pattern : Pattern) → IsMatcherOf pattern self.now → MatchOption result (part_of pattern number ≡ None) (λ part. part_of pattern number ≡ Some (label_of part)) }
    {
        part_in(&self.instructions, &self.numbers, number)
    }

    /// Returns the numbers of the parts that wait at that flat place of the input, in order: some reading of the trees before it leaves the
    /// part as the next one, and the trees there are not what the part requires. Where the pattern stops, these parts are what is expected.
    ///
    /// Time and memory are those of `read`, which does nothing for it. Fails only if memory runs out.
    pub fn waiting(
        &self,
        alloc: Global,
        input: TtIter<'_>,
        at: usize,
    ) -> Result<Vec<usize>, AllocError>
        ensures { IfOk result (λ numbers. (pattern : Pattern) → IsMatcherOf pattern self.now → AreWaiting pattern (rest_of input.entry) at numbers.items) }
    {
        waiting_in(alloc, &self.instructions, &self.numbers, input, at)
    }
}
