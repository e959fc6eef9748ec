//! A macro of several arms.
ghost use Rattle.std.specs.Prelude.{◌≡◌, ◌++◌, List, None, Some, IfOk, IfErr, OnOk, MatchOption, map};
ghost use Rattle.tt.specs.Forest.{size};
ghost use Rattle.tt.specs.Iters.{rest_of};
ghost use Rattle.mbe_program.specs.Labelling.{label_of};
ghost use Rattle.mbe_rules.specs.Arms.{Arm as ArmOf, Spell};
ghost use Rattle.mbe_rules.specs.Faults.{fault_in_arm, faults_of};
ghost use Rattle.mbe_rules.specs.Waiting.{in_arm, part_in, AreWaitingIn};

use crate::arm::{Answer, Arm};
use crate::rules_error::{ArmFault, ExpandError, RulesError};
use crate::transcribe_error::TranscribeError;
use mbe_program::Part;
use std::alloc::{AllocError, Global};
use tt::{TopSubtree, TtIter};

/// A macro: arms, each a pattern and a template.
#[derive(Drop)]
pub struct MacroRules {
    arms: Vec<Arm>,
}

/// What a macro makes of an input.
#[derive(Drop)]
pub enum Expansion {
    /// The input is no instance of the pattern of any arm. The arm that comes farthest stops at that flat place: that many tokens of
    /// the input precede it, at any depth.
    NoMatch(usize),
    /// The input is an instance of the pattern of that arm by different readings, and of no earlier arm's
    /// pattern. The arms are counted from 0.
    Ambiguous(usize),
    /// The template of the first arm that matches the input, filled with what its pattern binds, under the template's delimiter.
    Tree(TopSubtree),
}

/// A part of an arm's pattern: the number of the arm, and the number of the part in the pattern. Both are counted from 0.
#[derive(Debug, Clone, Copy, PartialEq, Eq)]
pub struct ArmPart {
    pub arm: usize,
    pub part: usize,
}

// Adds the parts of that arm.
fn add_parts(arm: usize, parts: &[usize], all: &mut Vec<ArmPart>) -> Result<(), AllocError>
    ensures { OnOk result (all.new.items ≡ all.old.items ++ map (in_arm arm) parts.now) }
{
    for part in parts {
        all.push(ArmPart { arm, part: *part })?;
    }
    Ok(())
}

// Adds the fault of that arm's template, if it has one.
fn add_fault(
    arm: usize,
    fault: Option<TranscribeError>,
    all: &mut Vec<ExpandError>,
) -> Result<(), AllocError>
    ensures { OnOk result (all.new.items ≡ all.old.items ++ fault_in_arm arm fault) }
{
    match fault {
        Some(fault) => Ok(all.push(ExpandError { arm, fault })?),
        None => Ok(()),
    }
}

impl MacroRules {
    ghost use Rattle.mbe_rules.specs.Expansions.{AreMade, IsExpansion, IsExpansionWithin, IsExpandError, IsExpandErrorWithin};
    ghost use Rattle.mbe_rules.specs.ArmFaults.{IsRulesError};

    /// Returns the macro whose arms the trees spell: `(pattern) => {template}`, in any brackets, with `;` between them, and optionally
    /// after the last. There is at least one arm.
    ///
    /// Time and memory are linear in the trees; for each pattern, they are those of `Matcher::new`. Returns the first fault in reading
    /// order; fails also if memory runs out.
    pub fn new(alloc: Global, arms: TtIter<'_>) -> Result<MacroRules, RulesError>
        ensures ok { IfOk result (λ rules. (spelled : List ArmOf) × Spell (rest_of arms.entry) spelled × AreMade spelled rules.arms.items) }
        ensures err { IfErr result (IsRulesError (rest_of arms.entry)) }
    {
        let until = arms.remaining().len();
        let mut arms = arms;
        let mut made = Vec::new(alloc);
        let mut is_more = true;
        while is_more {
            let arm = made.len();
            match Arm::next_in(alloc, until, &mut arms) {
                Ok(next) => {
                    if made.push(next).is_err() {
                        return Err(RulesError {
                            arm,
                            fault: ArmFault::Memory,
                        });
                    }
                }
                Err(fault) => return Err(RulesError { arm, fault }),
            }
            is_more = !arms.remaining().is_empty();
        }
        Ok(MacroRules { arms: made })
    }

    /// Returns what the macro makes of an input. The first arm that matches the input answers.
    ///
    /// Time and memory are those of `Matcher::read` for each pattern that is tried, and linear in what is written. Returns the first fault of
    /// filling that arm's template, or the limit that the tree exceeds; fails also if memory runs out.
    pub fn expand(&self, alloc: Global, input: TtIter<'_>) -> Result<Expansion, ExpandError>
        ensures ok { IfOk result (λ expansion. (arms : List ArmOf) → AreMade arms self.now.arms.items → IsExpansion arms 0 0 (rest_of input.entry) expansion) }
        ensures err { IfErr result (λ error. (arms : List ArmOf) → AreMade arms self.now.arms.items → IsExpandError arms 0 (rest_of input.entry) error) }
    {
        self.expand_with(alloc, input, None)
    }

    /// Does the same with at most `most` tokens below the template's delimiter. If what is filled up to the first fault has more, returns
    /// `TranscribeError::OverLimit`, and stops before it would write more: so memory for the tree is at most linear in `most`.
    ///
    /// A tree has at most 4,294,967,295 tokens (`TtFault::TooManyTokens`); only a lower `most` limits them further.
    pub fn expand_within(
        &self,
        alloc: Global,
        input: TtIter<'_>,
        most: usize,
    ) -> Result<Expansion, ExpandError>
        ensures ok { IfOk result (λ expansion. (arms : List ArmOf) → AreMade arms self.now.arms.items → IsExpansion arms 0 0 (rest_of input.entry) expansion) }
        ensures within { IfOk result (IsExpansionWithin (Some most)) }
        ensures err { IfErr result (λ error. (arms : List ArmOf) → AreMade arms self.now.arms.items → IsExpandErrorWithin (Some most) arms 0 (rest_of input.entry) error) }
    {
        self.expand_with(alloc, input, Some(most))
    }

    // Expands an input, with at most so many tokens, if there is a limit.
    fn expand_with(
        &self,
        alloc: Global,
        input: TtIter<'_>,
        limit: Option<usize>,
    ) -> Result<Expansion, ExpandError>
        ensures ok { IfOk result (λ expansion. (arms : List ArmOf) → AreMade arms self.now.arms.items → IsExpansion arms 0 0 (rest_of input.entry) expansion) }
        ensures within { IfOk result (IsExpansionWithin limit) }
        ensures err { IfErr result (λ error. (arms : List ArmOf) → AreMade arms self.now.arms.items → IsExpandErrorWithin limit arms 0 (rest_of input.entry) error) }
    {
        let mut number = 0;
        let mut farthest = 0;
        while let Some(arm) = self.arms.get(number) {
            match arm.expand(alloc, input.remaining().iter(), limit) {
                Ok(Answer::NoMatch(at)) => farthest = farthest.max(at),
                Ok(Answer::Ambiguous) => return Ok(Expansion::Ambiguous(number)),
                Ok(Answer::Tree(tree)) => return Ok(Expansion::Tree(tree)),
                Err(fault) => {
                    return Err(ExpandError { arm: number, fault });
                }
            }
            number += 1;
        }
        Ok(Expansion::NoMatch(farthest))
    }

    /// Returns the parts of the arms' patterns that wait at that flat place of an input, arm by arm, as `Matcher::waiting` does. At the
    /// place of `Expansion::NoMatch` they are what is expected there, in the arms that come farthest.
    ///
    /// Time and memory are those of `Matcher::waiting` for each arm. Fails only if memory runs out.
    pub fn waiting(
        &self,
        alloc: Global,
        input: TtIter<'_>,
        at: usize,
    ) -> Result<Vec<ArmPart>, AllocError>
        ensures { IfOk result (λ parts. (arms : List ArmOf) → AreMade arms self.now.arms.items → AreWaitingIn arms 0 (rest_of input.entry) at parts.items) }
    {
        let mut all = Vec::new(alloc);
        let mut number = 0;
        while let Some(arm) = self.arms.get(number) {
            let parts = arm.waiting(alloc, input.remaining().iter(), at)?;
            add_parts(number, &parts, &mut all)?;
            number += 1;
        }
        Ok(all)
    }

    /// Returns for each arm, in order, the first fault in reading order that its template shows whatever the input: a use in fewer repetitions
    /// than enclose its variable in the pattern, or a repetition that uses no variable in more repetitions than enclose the repetition.
    ///
    /// Time is linear in the parts of the templates, and memory in those of the longest. Fails only if memory runs out.
    pub fn faults(&self, alloc: Global) -> Result<Vec<ExpandError>, AllocError>
        ensures { IfOk result (λ faults. (arms : List ArmOf) → AreMade arms self.now.arms.items → faults.items ≡ faults_of arms 0) }
    {
        let mut faults = Vec::new(alloc);
        let mut number = 0;
        while let Some(arm) = self.arms.get(number) {
            let fault = arm.fault(alloc)?;
            add_fault(number, fault, &mut faults)?;
            number += 1;
        }
        Ok(faults)
    }

    /// Returns what a part requires; none if there is no such part.
    pub fn part(&self, it: ArmPart) -> Option<Part<'_>>
        ensures { (arms : List ArmOf) → AreMade arms self.now.arms.items → MatchOption result (part_in arms it.arm it.part ≡ None) (λ part. part_in arms it.arm it.part ≡ Some (label_of part)) }
    {
        let arm = self.arms.get(it.arm)?;
        arm.part(it.part)
    }
}
