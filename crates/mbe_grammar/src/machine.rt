//! The machine: what it does next, and what waits for the answer.
ghost use Rattle.std.specs.Prelude.{◌≡◌, ◌≤◌, true, reverse, length, take, IfOk, option_map, ℕ, IfSome};
ghost use Rattle.tt.specs.Forest.{Forest};
ghost use Rattle.mbe_grammar.specs.Known.{glance_at};
ghost use Rattle.mbe_grammar.specs.Machine.{resumed, IsStep};
ghost use Rattle.mbe_grammar.specs.Parses.{Parses};
ghost use Rattle.mbe_grammar.specs.Places.{position_of, trees_in, IsDecoded};
ghost use Rattle.mbe_grammar.specs.Positions.{closed};
ghost use Rattle.mbe_grammar.specs.Running.{answer_at, state_at, kept_at, frame_of, room_of, waiting_room, left_in, frames_of, HasRoom, HasFloor, Extends, waiting_at, next_at};

use crate::begin::{begin, enter};
use crate::entry::Entry;
use crate::list::put;
use crate::table::Table;
use crate::units::Units;
use std::alloc::AllocError;

/// What the machine does next at its place.
#[derive(Clone, Copy)]
pub(crate) enum State {
    /// It reads the expression at that index, from its place on.
    Reading(usize),
    /// An expression has answered: it ends at the machine's place, or it fails.
    Answered(bool),
}

/// A place to return to: how many trees were passed, and the length of the log there.
#[derive(Clone, Copy)]
pub(crate) struct Kept {
    passed: usize,
    taken: usize,
}

/// What waits for the answer of a part.
#[derive(Clone, Copy)]
pub(crate) enum Frame {
    /// A name waits for the end of its expression; the log had that length before it.
    InName(usize),
    /// A sequence waits to read its second part.
    InSequence(usize),
    /// A choice waits to try its other part from that place on.
    InChoice(usize, Kept),
    /// A repetition waits to read its part again, or to end at that place.
    InRepetition(usize, Kept),
    /// A negation waits to give the opposite answer, from that place on.
    InNot(Kept),
}

/// A frame without its place, which is the machine's place.
#[derive(Clone, Copy)]
pub(crate) enum Waiting {
    /// A name waits for the end of its expression; the log had that length before it.
    InName(usize),
    /// A sequence waits to read its second part.
    InSequence(usize),
    /// A choice waits to try its other part.
    InChoice(usize),
    /// A repetition waits to read its part again, or to end.
    InRepetition(usize),
    /// A negation waits to give the opposite answer.
    InNot,
}

/// What is next after an expression begins, and what waits for it.
#[derive(Clone, Copy)]
pub(crate) struct Begun {
    pub state: State,
    pub waiting: Option<Waiting>,
}

/// The outcome of a step: what is next, or whether the expression ends at the machine's place.
#[derive(Clone, Copy)]
pub(crate) enum Next {
    Goes(State),
    Ends(bool),
}

// Keeps this place and the length of the log.
#[inline(always)]
fn keep<'t>(here: usize, log: &Vec<Entry<'t>>) -> Kept
    ensures at { (trees : Forest) → kept_at trees log.now.items result ≡ position_of trees log.now.items here }
    ensures taken { result.taken ≡ length log.now.items }
{
    Kept {
        passed: here,
        taken: log.len(),
    }
}

impl Waiting {
    // Returns the frame, with the machine's place.
    #[inline(always)]
    fn frame<'t>(self, here: usize, log: &Vec<Entry<'t>>) -> Frame
        ensures frame { (trees : Forest) → frame_of trees log.now.items result ≡ waiting_at (position_of trees log.now.items here) self }
        ensures room { room_of (length log.now.items) result ≡ waiting_room (length log.now.items) self }
    {
        match self {
            Waiting::InName(since) => Frame::InName(since),
            Waiting::InSequence(second) => Frame::InSequence(second),
            Waiting::InChoice(other) => Frame::InChoice(other, keep(here, log)),
            Waiting::InRepetition(at) => Frame::InRepetition(at, keep(here, log)),
            Waiting::InNot => Frame::InNot(keep(here, log)),
        }
    }
}

// Returns to a place that was kept, and cuts the log back.
#[inline(always)]
fn come_back<'t>(
    kept: Kept,
    units: &mut Units<'t>,
    here: &mut usize,
    log: &mut Vec<Entry<'t>>,
) -> Result<(), AllocError>
    ensures at { (trees : Forest) → position_of trees log.new.items here.new ≡ kept_at trees log.old.items kept }
    ensures log { log.new.items ≡ take kept.taken log.old.items }
    ensures same { trees_in units.new ≡ trees_in units.old }
    ensures decoded { IfOk result (λ _. IsDecoded units.new here.new) }
{
    *here = kept.passed;
    log.truncate(kept.taken);
    units.reach(kept.passed)
}

// Ends the expression of a name before which the log had that length. A name that took nothing leaves no entry.
#[inline(always)]
fn close<'t>(since: usize, log: &mut Vec<Entry<'t>>) -> Result<(), AllocError>
    requires room { since ≤ length log.now.items }
    ensures closed { (trees : Forest) → (passed : ℕ) → IfOk result (λ _. position_of trees log.new.items passed ≡ closed true since (position_of trees log.old.items passed)) }
    ensures log { Extends (take since log.old.items) log.new.items }
{
    if log.len() - since == 1 {
        log.truncate(since);
        Ok(())
    } else {
        put(log, Entry::Leave)
    }
}

// Returns what is next after an answer to a waiting frame.
#[inline(always)]
fn resume<'t>(
    table: Table<'_>,
    frame: Frame,
    ends: bool,
    units: &mut Units<'t>,
    here: &mut usize,
    log: &mut Vec<Entry<'t>>,
) -> Result<State, AllocError>
    requires decoded { IsDecoded units.now here.now }
    requires room { room_of (length log.now.items) frame ≤ length log.now.items }
    ensures state { IfOk result (λ state. state_at (position_of (trees_in units.old) log.new.items here.new) state ≡ resumed (glance_at table.entry.known.now) (frame_of (trees_in units.old) log.old.items frame) (answer_at (position_of (trees_in units.old) log.old.items here.old) ends)) }
    ensures log { Extends (left_in log.old.items frame) log.new.items }
    ensures same { trees_in units.new ≡ trees_in units.old }
    ensures decoded { IfOk result (λ _. IsDecoded units.new here.new) }
{
    Ok(match (frame, ends) {
        (Frame::InName(_), false) => State::Answered(false),
        (Frame::InName(since), true) => {
            close(since, log)?;
            State::Answered(true)
        }
        (Frame::InSequence(_), false) => State::Answered(false),
        (Frame::InSequence(second), true) => enter(table, second, units, *here, log),
        (Frame::InChoice(other, kept), false) => {
            come_back(kept, units, here, log)?;
            enter(table, other, units, *here, log)
        }
        (Frame::InChoice(_, _), true) => State::Answered(true),
        (Frame::InRepetition(_, kept), false) => {
            come_back(kept, units, here, log)?;
            State::Answered(true)
        }
        (Frame::InRepetition(at, _), true) => enter(table, at, units, *here, log),
        (Frame::InNot(kept), false) => {
            come_back(kept, units, here, log)?;
            State::Answered(true)
        }
        (Frame::InNot(before), true) => {
            log.truncate(before.taken);
            State::Answered(false)
        }
    })
}

// Does one step of the machine.
#[inline(always)]
pub(crate) fn step<'t>(
    noting: bool,
    table: Table<'_>,
    state: State,
    units: &mut Units<'t>,
    here: &mut usize,
    log: &mut Vec<Entry<'t>>,
    frames: &mut Vec<Frame>,
) -> Result<Next, AllocError>
    requires decoded { IsDecoded units.now here.now }
    requires room { HasRoom (length log.now.items) (reverse frames.now.items) }
    ensures step { IfOk result (λ next. IsStep noting (glance_at table.entry.known.now) table.entry.rules.now (state_at (position_of (trees_in units.old) log.old.items here.old) state) (frames_of (trees_in units.old) log.old.items (reverse frames.old.items)) (next_at (position_of (trees_in units.old) log.new.items here.new) next) (frames_of (trees_in units.old) log.new.items (reverse frames.new.items))) }
    ensures room { IfOk result (λ _. HasRoom (length log.new.items) (reverse frames.new.items)) }
    ensures floor { (floor : ℕ) → HasFloor floor (length log.old.items) (reverse frames.old.items) → IfOk result (λ _. HasFloor floor (length log.new.items) (reverse frames.new.items)) }
    ensures kept { (floor : ℕ) → HasFloor floor (length log.old.items) (reverse frames.old.items) → take floor log.new.items ≡ take floor log.old.items }
    ensures same { trees_in units.new ≡ trees_in units.old }
    ensures decoded { IfOk result (λ _. IsDecoded units.new here.new) }
{
    match state {
        State::Reading(at) => {
            let Begun { state, waiting } = begin(noting, table, at, units, here, log)?;
            if let Some(it) = waiting {
                put(frames, it.frame(*here, log))?;
            }
            Ok(Next::Goes(state))
        }
        State::Answered(ends) => match frames.pop() {
            None => Ok(Next::Ends(ends)),
            Some(frame) => Ok(Next::Goes(resume(table, frame, ends, units, here, log)?)),
        },
    }
}

/// Reads the expression at that index of the table from the first tree on. Returns how many trees it takes, if it does not fail. If `noting`,
/// then each name, each unit and each subtree that it took was added to the log, in order. Keeps what was in the log before. Fails only if
/// memory runs out.
#[inline(always)]
pub(crate) fn parse<'t>(
    noting: bool,
    table: Table<'_>,
    at: usize,
    units: &mut Units<'t>,
    frames: &mut Vec<Frame>,
    log: &mut Vec<Entry<'t>>,
) -> Result<Option<usize>, AllocError>
    ensures log { Extends log.old.items log.new.items }
    ensures parses { IfOk result (λ answer. Parses noting table.entry.rules.now at (position_of (trees_in units.old) log.old.items 0) (option_map (position_of (trees_in units.old) log.new.items) answer)) }
    ensures same { trees_in units.new ≡ trees_in units.old }
    ensures decoded { IfOk result (λ answer. IfSome answer (λ passed. IsDecoded units.new passed)) }
{
    frames.truncate(0);
    units.reach(0)?;
    let mut here = 0;
    let mut state = enter(table, at, units, here, log);
    loop {
        match step(noting, table, state, units, &mut here, log, frames)? {
            Next::Goes(next) => state = next,
            Next::Ends(ends) => return Ok(if ends { Some(here) } else { None }),
        }
    }
}
