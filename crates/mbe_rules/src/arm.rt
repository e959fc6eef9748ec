//! One arm of a macro.
ghost use Rattle.std.specs.Prelude.{◌≡◌, None, Some, IfOk, IfErr, MatchOption};
ghost use Rattle.tt.specs.Forest.{Forest};
ghost use Rattle.tt.specs.Iters.{rest_of};
ghost use Rattle.mbe_matcher.specs.Parts.{part_of};
ghost use Rattle.mbe_matcher.specs.Waiting.{AreWaiting};
ghost use Rattle.mbe_program.specs.Labelling.{label_of};
ghost use Rattle.mbe_rules.specs.Arms.{Arm as ArmOf, IsArm, IsBehind, variables};
ghost use Rattle.mbe_rules.specs.Faults.{template_fault};
ghost use Rattle.mbe_rules.specs.Expansions.{IsMade, IsAnswer, IsAnswerWithin, IsRefusalWithin};
ghost use Rattle.mbe_rules.specs.ArmFaults.{place, body_fault, arm_fault, IsArmFault};

use crate::arrow::{ARROW_LEN, is_arrow_in, is_punct_in};
use crate::rules_error::ArmFault;
use crate::template::Template;
use crate::transcribe_error::TranscribeError;
use mbe_matcher::Found;
use mbe_pattern::pass;
use mbe_program::{Matcher, Part};
use std::alloc::{AllocError, Global};
use tt::{Delimiter, TopSubtree, TtIter};

/// An arm: a pattern that is ready to read inputs, and a template under a delimiter.
#[derive(Drop)]
pub(crate) struct Arm {
    pub(crate) matcher: Matcher,
    pub(crate) template: Template,
    pub(crate) delimiter: Delimiter,
}

/// The answer of an arm to an input.
#[derive(Drop)]
pub(crate) enum Answer {
    /// The input is no instance of the arm's pattern, which stops at that flat place.
    NoMatch(usize),
    /// The input is an instance by different readings.
    Ambiguous,
    Tree(TopSubtree),
}

// Returns the flat place before these trees, given the place after the last of them.
fn place(until: usize, trees: &TtIter<'_>) -> usize
    ensures { result ≡ place until (rest_of trees.now) }
{
    until.saturating_sub(trees.remaining().len())
}

impl Arm {
    // Reads and passes the arm that the trees begin with.
    fn read(alloc: Global, until: usize, trees: &mut TtIter<'_>) -> Result<Arm, ArmFault>
        ensures ok { IfOk result (λ it. (arm : ArmOf) × IsArm (rest_of trees.old) arm (rest_of trees.new) × IsMade arm it) }
        ensures err { IfErr result (IsArmFault (body_fault until (rest_of trees.old))) }
    {
        let at = place(until, trees);
        let Ok((_, pattern)) = trees.expect_subtree() else {
            return Err(ArmFault::NoPattern(at));
        };
        let matcher = Matcher::new(alloc, pattern)?;
        if !is_arrow_in(trees.remaining().iter()) {
            return Err(ArmFault::NoArrow(place(until, trees)));
        }
        pass(trees, ARROW_LEN);
        let at = place(until, trees);
        let Ok((header, template)) = trees.expect_subtree() else {
            return Err(ArmFault::NoTemplate(at));
        };
        let template = Template::new(alloc, matcher.binders(), template)?;
        Ok(Arm {
            matcher,
            template,
            delimiter: header.delimiter,
        })
    }

    /// Reads and passes the arm that the trees begin with, and a `;` after it, if there is one.
    pub(crate) fn next_in(
        alloc: Global,
        until: usize,
        trees: &mut TtIter<'_>,
    ) -> Result<Arm, ArmFault>
        ensures ok { IfOk result (λ it. (arm : ArmOf) × (rest : Forest) × IsArm (rest_of trees.old) arm rest × IsBehind rest (rest_of trees.new) × IsMade arm it) }
        ensures err { IfErr result (IsArmFault (arm_fault until (rest_of trees.old))) }
    {
        let arm = Arm::read(alloc, until, trees)?;
        if is_punct_in(trees.remaining().iter(), ';') {
            pass(trees, 1);
            return Ok(arm);
        }
        if trees.remaining().is_empty() {
            return Ok(arm);
        }
        Err(ArmFault::NoSemicolon(place(until, trees)))
    }

    /// Returns what the arm makes of an input, with at most so many tokens, if there is a limit.
    pub(crate) fn expand(
        &self,
        alloc: Global,
        input: TtIter<'_>,
        limit: Option<usize>,
    ) -> Result<Answer, TranscribeError>
        ensures ok { IfOk result (λ answer. (arm : ArmOf) → IsMade arm self.now → IsAnswer arm (rest_of input.entry) answer) }
        ensures within { IfOk result (IsAnswerWithin limit) }
        ensures err { IfErr result (λ error. (arm : ArmOf) → IsMade arm self.now → IsRefusalWithin limit arm (rest_of input.entry) error) }
    {
        let binding = match self.matcher.read(alloc, input)? {
            Found::Nothing(at) => return Ok(Answer::NoMatch(at)),
            Found::Many => return Ok(Answer::Ambiguous),
            Found::One(binding) => binding,
        };
        let tree = self.template.transcribe_within(
            alloc,
            self.matcher.binders(),
            binding,
            self.delimiter,
            limit,
        )?;
        Ok(Answer::Tree(tree))
    }

    /// Returns the first fault that the arm's template shows, whatever the input. Fails only if memory runs out.
    pub(crate) fn fault(&self, alloc: Global) -> Result<Option<TranscribeError>, AllocError>
        ensures { IfOk result (λ fault. (arm : ArmOf) → IsMade arm self.now → fault ≡ template_fault (variables arm.pattern) arm.template) }
    {
        self.template.fault(alloc, self.matcher.binders())
    }

    /// Returns the parts of the arm's pattern that wait at that flat place of an input. Fails only if memory runs out.
    pub(crate) fn waiting(
        &self,
        alloc: Global,
        input: TtIter<'_>,
        at: usize,
    ) -> Result<Vec<usize>, AllocError>
        ensures { IfOk result (λ parts. (arm : ArmOf) → IsMade arm self.now → AreWaiting arm.pattern (rest_of input.entry) at parts.items) }
    {
        self.matcher.waiting(alloc, input, at)
    }

    /// Returns what the part of that number of its pattern requires.
    pub(crate) fn part(&self, number: usize) -> Option<Part<'_>>
        ensures { (arm : ArmOf) → IsMade arm self.now → MatchOption result (part_of arm.pattern number ≡ None) (λ part. part_of arm.pattern number ≡ Some (label_of part)) }
    {
        self.matcher.part(number)
    }
}
