//! Cuts a template's trees into parts.
ghost use Rattle.std.specs.Prelude.{◌≡◌, ◌++◌, ◌∷◌, [], List, None, map, IfOk, IfErr, OnOk};
ghost use Rattle.tt.specs.Iters.{rest_of};
ghost use Rattle.mbe_matcher.specs.Grouping.{Where};
ghost use Rattle.mbe_matcher.specs.Binders.{where_of};
ghost use Rattle.mbe_rules.specs.Parts.{bit_of, all_bits};
ghost use Rattle.mbe_rules.specs.Spelling.{template_of};
ghost use Rattle.mbe_rules.specs.SpellingFaults.{or_else, spelling_fault, IsTemplateError};
ghost use Rattle.mbe_rules.specs.Stepping.{end_bit, level_left, levels_left, stepped, IsStepped, fault_from, level_fault, fault_left};

use crate::error::TemplateError;
use crate::first::{First, next_part};
use crate::parts::Part;
use mbe_matcher::Binder;
use mbe_pattern::Tail;
use std::alloc::{AllocError, Global};
use tt::TtIter;

/// What is left of a subtree or a repetition, the flat place after it, and the tail of a repetition.
#[derive(Drop)]
pub(crate) struct Level<'t> {
    pub(crate) rest: TtIter<'t>,
    pub(crate) until: usize,
    pub(crate) closing: Option<Tail>,
}

/// The parts so far, and the levels that are left, the innermost last.
#[derive(Drop)]
pub(crate) struct Parser<'t> {
    pub(crate) parts: Vec<Part>,
    pub(crate) levels: Vec<Level<'t>>,
}

// Returns the part that ends a level.
fn end_of(closing: Option<Tail>) -> Part
    ensures { bit_of result ≡ end_bit closing }
{
    match closing {
        None => Part::Leave,
        Some(tail) => Part::Close(tail),
    }
}

impl<'t> Parser<'t> {
    // Adds a part, and puts back the level after it.
    fn add(&mut self, part: Part, level: Level<'t>) -> Result<(), AllocError>
        ensures parts { OnOk result (self.new.parts.items ≡ self.old.parts.items ++ part ∷ []) }
        ensures levels { OnOk result (self.new.levels.items ≡ self.old.levels.items ++ level.entry ∷ []) }
    {
        self.parts.push(part)?;
        Ok(self.levels.push(level)?)
    }

    // Adds the beginning of a subtree or a repetition, and a level for its inside.
    fn enter(&mut self, part: Part, level: Level<'t>, inner: Level<'t>) -> Result<(), AllocError>
        ensures parts { OnOk result (self.new.parts.items ≡ self.old.parts.items ++ part ∷ []) }
        ensures levels { OnOk result (self.new.levels.items ≡ (self.old.levels.items ++ level.entry ∷ []) ++ inner.entry ∷ []) }
    {
        self.add(part, level)?;
        Ok(self.levels.push(inner)?)
    }

    // Takes what was read from a level.
    fn take(&mut self, level: Level<'t>, first: First<'t>) -> Result<(), AllocError>
        ensures step { OnOk result ((variables : List Where) → IsStepped variables (stepped variables first.entry (level_left variables level.entry) (levels_left variables self.old.levels.items)) self.old self.new) }
        ensures fault { OnOk result (fault_left self.new.levels.items ≡ or_else (fault_from first.entry (level_fault level.entry)) (fault_left self.old.levels.items)) }
    {
        match first {
            First::End => Ok(self.parts.push(end_of(level.closing))?),
            First::Use(at, number, less_follows) => {
                self.add(Part::Use(at, number, less_follows), level)
            }
            First::Token(leaf) => self.add(Part::Token(leaf), level),
            First::Subtree(delimiter, inner, until) => {
                let inner = Level {
                    rest: inner,
                    until,
                    closing: None,
                };
                self.enter(Part::Enter(delimiter), level, inner)
            }
            First::Repetition(at, inner, until, tail) => {
                let inner = Level {
                    rest: inner,
                    until,
                    closing: Some(tail),
                };
                self.enter(Part::Begin(at), level, inner)
            }
        }
    }
}

/// Returns the parts of the template that the trees spell. Returns the first fault in reading order; fails also if memory runs out.
pub(crate) fn parse(
    alloc: Global,
    binders: &[Binder],
    trees: TtIter<'_>,
) -> Result<Vec<Part>, TemplateError>
    ensures ok { IfOk result (λ parts. map bit_of parts.items ≡ all_bits (template_of (map where_of binders.now) (rest_of trees.entry))) }
    ensures sound { OnOk result (spelling_fault (rest_of trees.entry) ≡ None) }
    ensures err { IfErr result (IsTemplateError (rest_of trees.entry)) }
{
    let until = trees.remaining().len();
    let mut parser = Parser {
        parts: Vec::new(alloc),
        levels: Vec::new(alloc),
    };
    parser.levels.push(Level {
        rest: trees,
        until,
        closing: None,
    })?;
    while let Some(level) = parser.levels.pop() {
        let mut level = level;
        let first = next_part(alloc, binders, level.until, &mut level.rest)?;
        parser.take(level, first)?;
    }
    Ok(parser.parts)
}
