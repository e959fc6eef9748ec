//! What is wanted where trees stop being an expression: the units that it tries at the farthest place, if it does not end there.
ghost use Rattle.std.specs.Prelude.{◌≡◌, ◌+◌, ◌-◌, ◌^◌, ◌<◌, ◌≤◌, [], reverse, length, slice_get, Some, IfOk};
ghost use Rattle.tt.specs.Views.{trees_of};
ghost use Rattle.mbe_grammar.specs.Known.{glance_at};
ghost use Rattle.mbe_grammar.specs.Machine.{IsStep};
ghost use Rattle.mbe_grammar.specs.Positions.{first_position};
ghost use Rattle.mbe_grammar.specs.Running.{state_at, frames_of, HasRoom, next_at};
ghost use Rattle.mbe_grammar.specs.Tried.{tried_by, tried_now, more_negations, fewer_negations, negations_after, rank_among, is_at, IsShort, IsNoted, IsStopped};
ghost use Rattle.mbe_grammar.specs.Trying.{IsFarthest};

use crate::machine::{Frame, Next, State, step};
use crate::rule::Rule;
use crate::table::Table;
use crate::units::Units;
use std::alloc::{AllocError, Global};
use tt::TokenTreesView;

/// The farthest place where an expression tries a unit or ends, and the units that it tries there.
#[derive(Drop)]
pub struct Wanted {
    /// How many trees are before that place.
    pub passed: usize,
    /// The indices of the unit rules that it tries there, in the order of the table; only the first eight, if there are more.
    pub units: Vec<usize>,
}

// Returns how many of the first numbers are less than this one.
fn rank_among(it: usize, numbers: &[usize]) -> usize
    ensures rank { result ≡ rank_among it numbers.now }
    ensures within { result ≤ length numbers.now }
{
    let mut rank = 0;
    while rank < numbers.len() && numbers[rank] < it {
        rank += 1;
    }
    rank
}

// Returns whether this number is at that index.
fn is_at(numbers: &[usize], at: usize, it: usize) -> bool
    ensures { result ≡ is_at (slice_get numbers.now at) it }
{
    match numbers.get(at) {
        Some(other) => *other == it,
        None => false,
    }
}

impl Wanted {
    // Adds a unit to the list, unless it is listed or eight others come first.
    fn list(&mut self, unit: usize) -> Result<(), AllocError>
        requires short { IsShort self.now }
        ensures passed { self.new.passed ≡ self.old.passed }
        ensures noted { IfOk result (λ _. IsNoted (Some unit) self.old.passed self.old self.new) }
    {
        let rank = rank_among(unit, &self.units);
        if !is_at(&self.units, rank, unit) {
            self.units.insert(rank, unit)?;
            self.units.truncate(8);
        }
        Ok(())
    }

    // Notes that a unit is tried after that many trees.
    fn note(&mut self, unit: usize, passed: usize) -> Result<(), AllocError>
        requires short { IsShort self.now }
        ensures { IfOk result (λ _. IsNoted (Some unit) passed self.old self.new) }
    {
        if passed < self.passed {
            return Ok(());
        }
        if self.passed < passed {
            self.passed = passed;
            self.units.clear();
            return self.list(unit);
        }
        self.list(unit)
    }

    // Notes that the expression ends after that many trees.
    fn stop(&mut self, passed: usize)
        ensures { IsStopped passed self.old self.new }
    {
        if self.passed < passed {
            self.passed = passed;
            self.units.clear();
        }
    }
}

// Returns the unit that an expression tries as it begins: itself, or the first part of a sequence.
fn tried_by(rules: &[Rule], at: usize) -> Option<usize>
    ensures { result ≡ tried_by rules.now at (slice_get rules.now at) }
{
    match rules.get(at) {
        Some(Rule::Unit(_)) => Some(at),
        Some(Rule::Sequence(first, _)) => match rules.get(*first as usize) {
            Some(Rule::Unit(_)) => Some(*first as usize),
            _ => None,
        },
        _ => None,
    }
}

// Notes the unit that the next step tries, unless a negation waits.
fn note_step(
    rules: &[Rule],
    state: State,
    passed: usize,
    negations: usize,
    wanted: &mut Wanted,
) -> Result<(), AllocError>
    requires short { IsShort wanted.now }
    ensures { IfOk result (λ _. IsNoted (tried_now rules.now state negations) passed wanted.old wanted.new) }
{
    if negations > 0 {
        return Ok(());
    }
    let State::Reading(at) = state else {
        return Ok(());
    };
    match tried_by(rules, at) {
        Some(unit) => wanted.note(unit, passed),
        None => Ok(()),
    }
}

// Returns how many negations wait after an expression begins.
fn more_negations(rules: &[Rule], at: usize, negations: usize) -> usize
    requires few { negations + 1 < 2 ^ 64 }
    ensures { result ≡ more_negations (slice_get rules.now at) negations }
{
    match rules.get(at) {
        Some(Rule::Not(_)) => negations + 1,
        _ => negations,
    }
}

// Returns how many negations wait after the newest frame has its answer.
fn fewer_negations(frames: &[Frame], negations: usize) -> usize
    ensures { result ≡ fewer_negations (slice_get frames.now (length frames.now - 1)) negations }
{
    match frames.last() {
        Some(Frame::InNot(_)) => negations.saturating_sub(1),
        _ => negations,
    }
}

// Returns how many negations wait after the next step.
fn negations_after(rules: &[Rule], state: State, frames: &[Frame], negations: usize) -> usize
    requires few { negations ≤ length frames.now }
    ensures { result ≡ negations_after rules.now state (slice_get frames.now (length frames.now - 1)) negations }
{
    match state {
        State::Reading(at) => more_negations(rules, at, negations),
        State::Answered(_) => fewer_negations(frames, negations),
    }
}

// Returns the table without what is known of its expressions.
fn unknown<'t>(table: Table<'t>) -> Table<'t>
    ensures rules { result.rules.now ≡ table.entry.rules.now }
    ensures known { result.known.now ≡ [] }
{
    Table {
        rules: table.rules,
        marks: table.marks,
        known: &[],
    }
}

// Returns what the expression wants, by a table of which nothing is known.
fn wanted_from(
    alloc: Global,
    table: Table<'_>,
    at: usize,
    trees: TokenTreesView<'_>,
) -> Result<Wanted, AllocError>
    requires known { table.known.now ≡ [] }
    ensures { IfOk result (λ it. IsFarthest table.entry.rules.now at (first_position (trees_of trees.entry)) it.passed it.units.items) }
{
    let mut units = Units::new(alloc, trees);
    units.reach(0)?;
    let mut frames = Vec::new(alloc);
    let mut log = Vec::new(alloc);
    let mut here = 0;
    let mut state = State::Reading(at);
    let mut waiting = 0;
    let mut wanted = Wanted {
        passed: 0,
        units: Vec::new(alloc),
    };
    loop {
        note_step(table.rules, state, here, waiting, &mut wanted)?;
        waiting = negations_after(table.rules, state, &frames, waiting);
        match step(
            false,
            table,
            state,
            &mut units,
            &mut here,
            &mut log,
            &mut frames,
        )? {
            Next::Goes(next) => state = next,
            Next::Ends(ends) => {
                if ends {
                    wanted.stop(here);
                }
                return Ok(wanted);
            }
        }
    }
}

/// Returns the farthest place among the trees where the expression at that index of the table tries a unit or ends, and the units that it
/// tries there: what is wanted, if the expression does not take all trees. Fails only if memory runs out.
pub fn find_wanted(
    alloc: Global,
    table: Table<'_>,
    at: usize,
    trees: TokenTreesView<'_>,
) -> Result<Wanted, AllocError>
    ensures { IfOk result (λ it. IsFarthest table.entry.rules.now at (first_position (trees_of trees.entry)) it.passed it.units.items) }
{
    wanted_from(alloc, unknown(table), at, trees)
}
