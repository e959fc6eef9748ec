//! Finds what is wrong with a pattern, part by part.
ghost use Rattle.std.specs.Prelude.{◌≡◌, true, None, OnOk, IfOk, IfErr, not, is_some};
ghost use Rattle.tt.specs.Iters.{rest_of};
ghost use Rattle.mbe_pattern.specs.Faults.{or_else, names_with, name_fault, separator_fault, empty_fault, pattern_fault, IsPatternError};
ghost use Rattle.mbe_pattern.specs.Validating.{level_left, state_of, full, taken, level_of, fault_at_end, is_open_behind, ended, with_level, with_fault, with_name, begun, stepped};
ghost use Rattle.mbe_pattern.specs.Patterns.{may_take_none, may_be_none, may_be_more};
ghost use Rattle.mbe_pattern.specs.Placed.{placed_until};

use crate::dollar::Tail;
use crate::error::PatternError;
use crate::first::{First, next_first};
use crate::pattern::{Fragment, RepeatKind};
use indexmap::IndexSet;
use std::alloc::{AllocError, Global};
use tt::{Symbol, TtIter};

/// An open repetition: the flat place of its `$`, its kind, and whether no fault was found before it began.
#[derive(Clone, Copy)]
pub(crate) struct Opened {
    at: usize,
    kind: RepeatKind,
    is_sound: bool,
}

/// What is left of a subtree or a repetition. It has the flat place after it, the repetition, and
/// whether all of it so far may take no tree.
#[derive(Drop)]
pub(crate) struct Level<'p> {
    rest: TtIter<'p>,
    until: usize,
    closing: Option<Opened>,
    is_open: bool,
}

/// The names so far, the first fault so far, and the levels that are left, the innermost last.
#[derive(Drop)]
pub(crate) struct Validation<'p> {
    names: IndexSet<Symbol>,
    fault: Option<PatternError>,
    levels: Vec<Level<'p>>,
}

// Returns the first fault, or otherwise the other.
fn or_else(first: Option<PatternError>, other: Option<PatternError>) -> Option<PatternError>
    ensures { result ≡ or_else first other }
{
    match first {
        None => other,
        Some(fault) => Some(fault),
    }
}

// Returns the fault if the repetition at that place has a separator but never two rounds.
fn separator_fault(at: usize, tail: &Tail) -> Option<PatternError>
    ensures { result ≡ separator_fault at tail.now.separator.items tail.now.kind }
{
    if tail.separator.is_empty() {
        return None;
    }
    match tail.kind {
        RepeatKind::ZeroOrOne => Some(PatternError::NeedlessSeparator(at)),
        RepeatKind::ZeroOrMore | RepeatKind::OneOrMore => None,
    }
}

// Returns the fault if an earlier variable has the name of the variable at that place. Adds the name to the names.
fn name_fault(
    at: usize,
    name: Symbol,
    names: &mut IndexSet<Symbol>,
) -> Result<Option<PatternError>, AllocError>
    ensures fault { IfOk result (λ fault. fault ≡ name_fault at name names.old.keys) }
    ensures names { IfOk result (λ _. names.new.keys ≡ names_with name names.old.keys) }
{
    if names.insert(name)? {
        Ok(None)
    } else {
        Ok(Some(PatternError::NameTwice(at)))
    }
}

// Returns whether a variable of that fragment may take no tree.
fn may_take_none(fragment: Fragment) -> bool
    ensures { result ≡ may_take_none fragment }
{
    match fragment {
        Fragment::Vis => true,
        Fragment::Ident
        | Fragment::Literal
        | Fragment::Lifetime
        | Fragment::Block
        | Fragment::Tt
        | Fragment::Grammar(_) => false,
    }
}

// Returns the fault at the end of a level, given whether all of the level may take no tree.
fn fault_at_end(
    closing: Option<Opened>,
    is_empty: bool,
    fault: Option<PatternError>,
) -> Option<PatternError>
    ensures { result ≡ fault_at_end closing is_empty fault }
{
    match closing {
        Some(opened) if opened.is_sound && is_empty => {
            Some(PatternError::EmptyRepetition(opened.at))
        }
        _ => fault,
    }
}

// Returns whether all of the level around it may then take no tree.
fn is_open_behind(closing: Option<Opened>, is_empty: bool, is_open: bool) -> bool
    ensures { result ≡ is_open_behind closing is_empty is_open }
{
    match closing {
        None => is_open,
        Some(opened) => is_open && (opened.kind.may_be_none() || is_empty),
    }
}

impl<'p> Validation<'p> {
    // Puts back a level after a required part.
    fn stay(&mut self, level: Level<'p>) -> Result<(), AllocError>
        ensures { OnOk result (state_of self.new ≡ with_level (full (level_left level.entry)) (state_of self.old)) }
    {
        let Level {
            rest,
            until,
            closing,
            ..
        } = level;
        Ok(
            self.levels.push(Level {
                rest,
                until,
                closing,
                is_open: false,
            })?,
        )
    }

    // Puts back a level after a variable of that fragment.
    fn take_variable(&mut self, level: Level<'p>, fragment: Fragment) -> Result<(), AllocError>
        ensures { OnOk result (state_of self.new ≡ with_level (taken fragment (level_left level.entry)) (state_of self.old)) }
    {
        let Level {
            rest,
            until,
            closing,
            is_open,
        } = level;
        Ok(
            self.levels.push(Level {
                rest,
                until,
                closing,
                is_open: is_open & may_take_none(fragment),
            })?,
        )
    }

    // Adds a level that is not read yet.
    fn enter(
        &mut self,
        rest: TtIter<'p>,
        until: usize,
        closing: Option<Opened>,
    ) -> Result<(), AllocError>
        ensures { OnOk result (state_of self.new ≡ with_level (level_of (placed_until until (rest_of rest.entry)) closing true) (state_of self.old)) }
    {
        Ok(
            self.levels.push(Level {
                rest,
                until,
                closing,
                is_open: true,
            })?,
        )
    }

    // Ends a level.
    fn end(&mut self, level: Level<'p>) -> Result<(), AllocError>
        ensures { OnOk result (state_of self.new ≡ ended (level_left level.entry) (state_of self.old)) }
    {
        let Level {
            closing,
            is_open,
            ..
        } = level;
        self.fault = fault_at_end(closing, is_open, self.fault);
        let Some(next) = self.levels.pop() else {
            return Ok(());
        };
        let Level {
            rest,
            until,
            closing: outer,
            is_open: is_open_outside,
        } = next;
        Ok(
            self.levels.push(Level {
                rest,
                until,
                closing: outer,
                is_open: is_open_behind(closing, is_open, is_open_outside),
            })?,
        )
    }

    // Adds a fault, if there is one.
    fn note(&mut self, fault: Option<PatternError>)
        ensures { state_of self.new ≡ with_fault fault (state_of self.old) }
    {
        self.fault = or_else(self.fault, fault);
    }

    // Adds a variable's name.
    fn name(&mut self, at: usize, name: Symbol) -> Result<(), AllocError>
        ensures { OnOk result (state_of self.new ≡ with_name at name (state_of self.old)) }
    {
        let fault = name_fault(at, name, &mut self.names)?;
        self.note(fault);
        Ok(())
    }

    // Begins a repetition, and puts back the level around it.
    fn begin(
        &mut self,
        at: usize,
        kind: RepeatKind,
        inner: TtIter<'p>,
        until: usize,
        level: Level<'p>,
    ) -> Result<(), AllocError>
        ensures { OnOk result (state_of self.new ≡ begun at kind (placed_until until (rest_of inner.entry)) (level_left level.entry) (state_of self.old)) }
    {
        let opened = Opened {
            at,
            kind,
            is_sound: self.fault.is_none(),
        };
        self.levels.push(level)?;
        self.enter(inner, until, Some(opened))
    }

    // Takes what was read from a level.
    fn take(&mut self, level: Level<'p>, first: First<'p>) -> Result<(), AllocError>
        ensures { OnOk result (state_of self.new ≡ stepped first.entry (level_left level.entry) (state_of self.old)) }
    {
        match first {
            First::End => self.end(level),
            First::Variable(at, variable) => {
                self.name(at, variable.name)?;
                self.take_variable(level, variable.fragment)
            }
            First::Wrong(fault, _) => {
                self.note(Some(fault));
                self.stay(level)
            }
            First::Token(_) => self.stay(level),
            First::Subtree(_, inner, until) => {
                self.stay(level)?;
                self.enter(inner, until, None)
            }
            First::Repetition(at, inner, until, tail) => {
                self.note(separator_fault(at, &tail));
                self.begin(at, tail.kind, inner, until, level)
            }
        }
    }
}

// Returns the first fault of the pattern that the trees spell, if it has one.
fn first_fault(alloc: Global, trees: TtIter<'_>) -> Result<Option<PatternError>, AllocError>
    ensures { IfOk result (λ fault. fault ≡ pattern_fault (rest_of trees.entry)) }
{
    let mut validated = Validation {
        names: IndexSet::new(alloc),
        fault: None,
        levels: Vec::new(alloc),
    };
    let until = trees.remaining().len();
    validated.enter(trees, until, None)?;
    while let Some(level) = validated.levels.pop() {
        let mut level = level;
        let first = next_first(alloc, level.until, &mut level.rest)?;
        validated.take(level, first)?;
    }
    Ok(validated.fault)
}

/// Checks that the trees spell a pattern without faults.
///
/// Each name is given once. Each `$` begins something whose fragment is known, or is a token. The parts of a repetition may not all take no
/// tree, and a repetition that never has two rounds has no separator.
///
/// Time and memory are linear in the number of tokens. Returns the first fault in reading order; fails also if memory runs out.
pub fn validate(alloc: Global, trees: TtIter<'_>) -> Result<(), PatternError>
    ensures ok { OnOk result (pattern_fault (rest_of trees.entry) ≡ None) }
    ensures err { IfErr result (IsPatternError (rest_of trees.entry)) }
{
    match first_fault(alloc, trees)? {
        Some(fault) => Err(fault),
        None => Ok(()),
    }
}
