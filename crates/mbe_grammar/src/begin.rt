//! How the machine enters an expression, by what is known of it, and how it begins the expression, by its rule.
ghost use Rattle.std.specs.Prelude.{◌≡◌, slice_get, IfOk};
ghost use Rattle.mbe_grammar.specs.Known.{glance_at};
ghost use Rattle.mbe_grammar.specs.Machine.{entered, begun_name, begun_first, begun_sequence, begun_try, begun_choice, begun};
ghost use Rattle.mbe_grammar.specs.Places.{position_of, trees_in, IsDecoded};
ghost use Rattle.mbe_grammar.specs.Running.{state_at, begun_at, Extends};

use crate::entry::Entry;
use crate::known::Glance;
use crate::list::put;
use crate::machine::{Begun, State, Waiting};
use crate::rule::Rule;
use crate::table::Table;
use crate::units::Units;
use std::alloc::AllocError;

// Returns that this is next; nothing waits.
#[inline(always)]
fn free(state: State) -> Begun
    ensures state { result.state ≡ state }
    ensures waiting { result.waiting ≡ None }
{
    Begun {
        state,
        waiting: None,
    }
}

// Returns that a part is read, and what waits for it.
#[inline(always)]
fn within(part: usize, waiting: Waiting) -> Begun
    ensures state { result.state ≡ State.Reading part }
    ensures waiting { result.waiting ≡ Some waiting }
{
    Begun {
        state: State::Reading(part),
        waiting: Some(waiting),
    }
}

/// Enters an expression. Returns what is next.
#[inline(always)]
pub(crate) fn enter<'t>(
    table: Table<'_>,
    at: usize,
    units: &Units<'t>,
    here: usize,
    log: &Vec<Entry<'t>>,
) -> State
    requires decoded { IsDecoded units.now here }
    ensures { state_at (position_of (trees_in units.now) log.now.items here) result ≡ entered (glance_at table.entry.known.now) at (position_of (trees_in units.now) log.now.items here) }
{
    match units.glance(table.known, at, here) {
        Glance::Fails => State::Answered(false),
        Glance::Idles => State::Answered(true),
        Glance::Open => State::Reading(at),
    }
}

// Begins the expression of a name; the name waits for its end only if entries are noted.
#[inline(always)]
fn begin_name<'t>(
    noting: bool,
    at: usize,
    other: usize,
    units: &Units<'t>,
    here: usize,
    log: &mut Vec<Entry<'t>>,
) -> Result<Begun, AllocError>
    ensures begun { IfOk result (λ it. begun_at (position_of (trees_in units.now) log.new.items here) it ≡ begun_name noting at other (position_of (trees_in units.now) log.old.items here)) }
    ensures log { Extends log.old.items log.new.items }
{
    if !noting {
        return Ok(free(State::Reading(other)));
    }
    let since = log.len();
    put(log, Entry::Enter(at))?;
    Ok(within(other, Waiting::InName(since)))
}

// Begins a sequence whose first part is no unit.
#[inline(always)]
fn begin_first<'t>(
    table: Table<'_>,
    first: usize,
    second: usize,
    units: &Units<'t>,
    here: usize,
    log: &Vec<Entry<'t>>,
) -> Begun
    requires decoded { IsDecoded units.now here }
    ensures begun { begun_at (position_of (trees_in units.now) log.now.items here) result ≡ begun_first first second (position_of (trees_in units.now) log.now.items here) (glance_at table.entry.known.now first (position_of (trees_in units.now) log.now.items here)) }
{
    match units.glance(table.known, first, here) {
        Glance::Idles => free(State::Reading(second)),
        Glance::Fails | Glance::Open => within(first, Waiting::InSequence(second)),
    }
}

// Begins a sequence. A unit that is its first part is taken at once.
#[inline(always)]
fn begin_sequence<'t>(
    noting: bool,
    table: Table<'_>,
    first: usize,
    second: usize,
    units: &mut Units<'t>,
    here: &mut usize,
    log: &mut Vec<Entry<'t>>,
) -> Result<Begun, AllocError>
    requires decoded { IsDecoded units.now here.now }
    ensures begun { IfOk result (λ it. begun_at (position_of (trees_in units.old) log.new.items here.new) it ≡ begun_sequence noting (glance_at table.entry.known.now) first second (position_of (trees_in units.old) log.old.items here.old) (slice_get table.entry.rules.now first)) }
    ensures log { Extends log.old.items log.new.items }
    ensures same { trees_in units.new ≡ trees_in units.old }
    ensures decoded { IfOk result (λ _. IsDecoded units.new here.new) }
{
    match table.rules.get(first) {
        Some(Rule::Unit(test)) => {
            if units.take(noting, *test, here, log)? {
                Ok(free(enter(table, second, units, *here, log)))
            } else {
                Ok(free(State::Answered(false)))
            }
        }
        _ => Ok(begin_first(table, first, second, units, *here, log)),
    }
}

// Begins a choice whose first part is tried.
#[inline(always)]
fn begin_try<'t>(
    table: Table<'_>,
    first: usize,
    other: usize,
    units: &Units<'t>,
    here: usize,
    log: &Vec<Entry<'t>>,
) -> Begun
    requires decoded { IsDecoded units.now here }
    ensures begun { begun_at (position_of (trees_in units.now) log.now.items here) result ≡ begun_try first other (position_of (trees_in units.now) log.now.items here) (glance_at table.entry.known.now other (position_of (trees_in units.now) log.now.items here)) }
{
    match units.glance(table.known, other, here) {
        Glance::Fails => free(State::Reading(first)),
        Glance::Idles | Glance::Open => within(first, Waiting::InChoice(other)),
    }
}

// Begins a choice.
#[inline(always)]
fn begin_choice<'t>(
    table: Table<'_>,
    first: usize,
    other: usize,
    units: &Units<'t>,
    here: usize,
    log: &Vec<Entry<'t>>,
) -> Begun
    requires decoded { IsDecoded units.now here }
    ensures begun { begun_at (position_of (trees_in units.now) log.now.items here) result ≡ begun_choice first other (position_of (trees_in units.now) log.now.items here) (glance_at table.entry.known.now first (position_of (trees_in units.now) log.now.items here)) (glance_at table.entry.known.now other (position_of (trees_in units.now) log.now.items here)) }
{
    match units.glance(table.known, first, here) {
        Glance::Fails => free(State::Reading(other)),
        Glance::Idles | Glance::Open => begin_try(table, first, other, units, here, log),
    }
}

/// Begins the expression of a rule. Returns what is next, and what waits for it. Fails only if memory runs out.
#[inline(always)]
pub(crate) fn begin<'t>(
    noting: bool,
    table: Table<'_>,
    at: usize,
    units: &mut Units<'t>,
    here: &mut usize,
    log: &mut Vec<Entry<'t>>,
) -> Result<Begun, AllocError>
    requires decoded { IsDecoded units.now here.now }
    ensures begun { IfOk result (λ it. begun_at (position_of (trees_in units.old) log.new.items here.new) it ≡ begun noting (glance_at table.entry.known.now) table.entry.rules.now at (position_of (trees_in units.old) log.old.items here.old)) }
    ensures log { Extends log.old.items log.new.items }
    ensures same { trees_in units.new ≡ trees_in units.old }
    ensures decoded { IfOk result (λ _. IsDecoded units.new here.new) }
{
    let Some(rule) = table.rules.get(at) else {
        return Ok(free(State::Answered(false)));
    };
    match *rule {
        Rule::Empty => Ok(free(State::Answered(true))),
        Rule::Unit(test) => Ok(free(State::Answered(units.take(noting, test, here, log)?))),
        Rule::Name(other) => begin_name(noting, at, other as usize, units, *here, log),
        Rule::Sequence(first, second) => {
            begin_sequence(
                noting,
                table,
                first as usize,
                second as usize,
                units,
                here,
                log,
            )
        }
        Rule::Choice(first, other) => Ok(begin_choice(
            table,
            first as usize,
            other as usize,
            units,
            *here,
            log,
        )),
        Rule::ZeroOrMore(part) => Ok(within(part as usize, Waiting::InRepetition(at))),
        Rule::Not(part) => Ok(within(part as usize, Waiting::InNot)),
    }
}
