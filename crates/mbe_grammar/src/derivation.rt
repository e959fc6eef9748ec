//! The derivation of trees: for each token the expressions that took it, at all depths.
ghost use Rattle.std.specs.Prelude.{◌≡◌, ◌+◌, ◌^◌, ◌<◌, ◌≤◌, List, None, Some, if◌then◌else◌, length, option_map, reverse, slice_get, vec_capacity, vec_len, IfOk, IfSome, OnErr};
ghost use Rattle.tt.specs.Views.{trees_of};
ghost use Rattle.mbe_grammar.specs.declared.derivation.Open.{Open as OpenLevel};
ghost use Rattle.mbe_grammar.specs.declared.entry.Entry.{Entry as EntryOf};
ghost use Rattle.mbe_grammar.specs.declared.event.Event.{Event as EventOf};
ghost use Rattle.mbe_grammar.specs.Derivations.{Derives, Refuses, IsDerived, IsJudged, TakesDeep, Place, whole, place};
ghost use Rattle.mbe_grammar.specs.Deriving.{behind_level, IsRead, IsEntered, GivesAhead, StopsAhead, IsNext, IsSameAhead, IsPassed, plain_event};
ghost use Rattle.mbe_grammar.specs.Left.{around, inside};

use crate::entry::Entry;
use crate::event::{Event, Level};
use crate::list::put;
use crate::machine::{Frame, parse};
use crate::table::Table;
use crate::units::Units;
use std::alloc::{AllocError, Global};
use tt::{Span, TokenTreesView};

// For how many events or entries of the log there is room at first, for each token: about as many as source has.
const EVENTS_OF_TOKEN: usize = 5;

// For at most so many tokens of a level the log has room at first.
const MOST_TOKENS: usize = 256;

/// The outcome for trees that must be the expression of a name.
pub enum Derived<'t> {
    /// They are, with these events.
    Whole(Vec<Event>),
    /// They are not. This is the first level in reading order that its expression does not take.
    Refused(Level<'t>),
}

/// What comes next in a derivation.
#[derive(Clone, Copy)]
pub enum NextEvent<'t> {
    /// An event.
    Event(Event),
    /// The end: the trees are the expression of their name.
    End,
    /// The first level in reading order that its expression does not take.
    Refused(Level<'t>),
}

// A level that was read and is not passed: what is left of its entries, which are in the log of all such levels.
#[derive(Clone, Copy)]
pub(crate) struct Open<'t> {
    // the index of its first entry
    since: usize,
    // the index of the entry that is passed next
    next: usize,
    // the level, if its expression stops before the end of the trees
    stop: Option<Level<'t>>,
}

// What the reading of a level needs. The next level uses it again.
#[derive(Drop)]
pub(crate) struct Room<'t> {
    units: Units<'t>,
    frames: Vec<Frame>,
}

// Returns the level if its expression stops before the end of its trees.
fn stop_of<'t>(ends: bool, it: Level<'t>) -> Option<Level<'t>>
    ensures { result ≡ (if ends then None else Some it.entry) }
{
    if ends { None } else { Some(it) }
}

// Reads the trees of a level, and adds what its expression took to the log of the open levels. Returns the level as an open one; none if the
// expression fails. If memory runs out, the log stays as it was.
#[inline(never)]
fn read<'t>(
    table: Table<'_>,
    it: Level<'t>,
    room: &mut Room<'t>,
    log: &mut Vec<Entry<'t>>,
) -> Result<Option<Open<'t>>, AllocError>
    ensures fits { (older : List OpenLevel) → IfOk result (λ inner. IfSome inner (λ o. length (inside log.new.items o older) ≤ length (around log.old.items older) + 2 ^ 64)) }
    ensures read { (older : List OpenLevel) → IfOk result (λ inner. IsRead table.entry.rules.now (place it.entry) (around log.old.items older) (option_map (λ o. inside log.new.items o older) inner)) }
    ensures err { OnErr result (log.new.items ≡ log.old.items) }
{
    log.reserve(EVENTS_OF_TOKEN * it.trees.len().min(MOST_TOKENS))?;
    let since = log.len();
    room.units.restart(it.trees);
    let taken = parse(true, table, it.name, &mut room.units, &mut room.frames, log);
    match taken {
        Ok(Some(to)) => {
            let stop = stop_of(room.units.is_at_end(to), it);
            let _taken = log.len();
            Ok(Some(Open {
                since,
                next: since,
                stop,
            }))
        }
        Ok(None) => Ok(None),
        Err(error) => {
            log.truncate(since);
            Err(error)
        }
    }
}

// Returns the event of the entry at that index of a log; none if there is no entry, or if it is a subtree that is to be read.
#[inline(always)]
fn plain_event(log: &[Entry<'_>], at: usize) -> Option<Event>
    ensures event { result ≡ plain_event (slice_get log.now at) }
    ensures within { IfSome result (λ _. at < length log.now) }
{
    match log.get(at) {
        Some(Entry::Enter(name)) => Some(Event::Enter(*name)),
        Some(Entry::Leave) => Some(Event::Leave),
        Some(Entry::Unit(count)) => Some(Event::Token(*count)),
        Some(Entry::Holds(_, _, _)) | None => None,
    }
}

// Adds an open level to those around the level that is read next, if that is a subtree; nothing is around a file.
fn put_around<'t>(close: Option<Span>, inner: Open<'t>, levels: &mut Vec<Open<'t>>)
    requires { vec_len levels.now < vec_capacity levels.now }
    ensures { (log : List EntryOf) → around log (reverse levels.new.items) ≡ behind_level close log inner.entry (reverse levels.old.items) }
{
    match close {
        Some(_) => levels.push_reserved(inner),
        None => levels.truncate(0),
    }
}

/// The derivation of some trees, which hands out its events one by one. It reads a level when the level's first event is wanted, so it keeps
/// what is left of the open levels, and not all events.
#[derive(Drop)]
pub struct Derivation<'a, 't> {
    table: Table<'a>,
    // the level that is read next
    level: Option<Level<'t>>,
    // the entries of all open levels, the innermost level last
    log: Vec<Entry<'t>>,
    // the innermost open level
    inner: Open<'t>,
    // the open levels around it, the outermost first
    around: Vec<Open<'t>>,
    room: Room<'t>,
}

impl<'a, 't> Derivation<'a, 't> {
    /// Returns the derivation of trees that must be the expression at that index of the table: it takes all of them, and in each subtree that
    /// it takes by a name the trees are the expression of that name. Reads nothing yet.
    pub fn new(
        alloc: Global,
        table: Table<'a>,
        name: usize,
        trees: TokenTreesView<'t>,
    ) -> Derivation<'a, 't>
        ensures gives { (events : List EventOf) → GivesAhead result events → Derives table.entry.rules.now name (trees_of trees.entry) events }
        ensures stops { (at : Place) → StopsAhead result at → Refuses table.entry.rules.now (whole name (trees_of trees.entry)) at }
    {
        let level = Level {
            trees,
            close: None,
            name,
        };
        Derivation {
            table,
            level: Some(level),
            log: Vec::new(alloc),
            inner: Open {
                since: 0,
                next: 0,
                stop: None,
            },
            around: Vec::new(alloc),
            room: Room {
                units: Units::new(alloc, trees),
                frames: Vec::new(alloc),
            },
        }
    }

    // Reads the level that is read next, so that it is the innermost open one. Returns whether its expression does not fail. If memory runs
    // out, it has the same ahead as before.
    fn enter(&mut self, level: Level<'t>) -> Result<bool, AllocError>
        requires { self.now.level ≡ Some level }
        ensures read { IfOk result (λ yes. IsEntered self.old level.entry yes self.new) }
        ensures err { OnErr result (IsSameAhead self.old self.new) }
    {
        self.around.reserve(1)?;
        let Some(inner) = read(self.table, level, &mut self.room, &mut self.log)? else {
            return Ok(false);
        };
        put_around(level.close, self.inner, &mut self.around);
        self.inner = inner;
        self.level = None;
        Ok(true)
    }

    // Leaves the innermost level, of which no entry is left.
    fn leave(&mut self) -> NextEvent<'t>
        requires level { self.now.level ≡ None }
        requires end { length self.now.log.items ≤ self.now.inner.next }
        ensures { IsNext self.old result self.new }
    {
        if let Some(level) = self.inner.stop {
            return NextEvent::Refused(level);
        }
        match self.around.pop() {
            None => NextEvent::End,
            Some(outer) => {
                self.log.truncate(self.inner.since);
                self.inner = outer;
                NextEvent::Event(Event::Close)
            }
        }
    }

    // Passes the entries of the innermost level before the next subtree that is to be read, and adds their events to the list. Passes nothing
    // if a level is to be read before them.
    fn pass_plain(&mut self, events: &mut Vec<Event>) -> Result<(), AllocError>
        ensures { IfOk result (λ _. IsPassed self.old events.old.items self.new events.new.items) }
    {
        if self.level.is_some() {
            return Ok(());
        }
        let mut at = self.inner.next;
        events.reserve(self.log.len().saturating_sub(at))?;
        while let Some(event) = plain_event(&self.log, at) {
            events.push_reserved(event);
            at += 1;
        }
        self.inner.next = at;
        Ok(())
    }

    // Passes the next entry of the innermost level. No level is to be read before it.
    #[inline(always)]
    fn pass(&mut self) -> NextEvent<'t>
        requires { self.now.level ≡ None }
        ensures { IsNext self.old result self.new }
    {
        let at = self.inner.next;
        if at >= self.log.len() {
            return self.leave();
        }
        self.inner.next = at + 1;
        match self.log[at] {
            Entry::Enter(name) => NextEvent::Event(Event::Enter(name)),
            Entry::Leave => NextEvent::Event(Event::Leave),
            Entry::Unit(count) => NextEvent::Event(Event::Token(count)),
            Entry::Holds(trees, close, name) => {
                let close = Some(close);
                self.level = Some(Level { trees, close, name });
                NextEvent::Event(Event::Open)
            }
        }
    }

    /// Returns the next event. At the end of a subtree or a name it returns its end; behind the last event `End`; if the trees of a level are
    /// not the expression of its name, that level. Reads each level once, without recursion. If memory runs out, it fails, and has the same
    /// ahead as before.
    #[inline(always)]
    pub fn next_event(&mut self) -> Result<NextEvent<'t>, AllocError>
        ensures next { IfOk result (λ it. IsNext self.old it self.new) }
        ensures err { OnErr result (IsSameAhead self.old self.new) }
    {
        if let Some(level) = self.level {
            if !self.enter(level)? {
                return Ok(NextEvent::Refused(level));
            }
        }
        Ok(self.pass())
    }
}

/// Reads the trees as the expression at that index of the table: it takes all of them, and in each subtree that it took by a name the trees
/// are the expression of that name. Returns the events in reading order, or the first level that its expression does not take. Reads each
/// level once, without recursion. Fails only if memory runs out.
pub fn derive<'t>(
    alloc: Global,
    table: Table<'_>,
    at: usize,
    trees: TokenTreesView<'t>,
) -> Result<Derived<'t>, AllocError>
    ensures { IfOk result (λ it. IsDerived table.entry.rules.now at (trees_of trees.entry) it) }
{
    let mut events = Vec::with_capacity(alloc, trees.len().saturating_mul(EVENTS_OF_TOKEN))?;
    let mut derivation = Derivation::new(alloc, table, at, trees);
    loop {
        derivation.pass_plain(&mut events)?;
        match derivation.next_event()? {
            NextEvent::Event(event) => put(&mut events, event)?,
            NextEvent::End => return Ok(Derived::Whole(events)),
            NextEvent::Refused(level) => return Ok(Derived::Refused(level)),
        }
    }
}

/// Returns whether the trees are the expression at that index of the table, as `derive` says. Keeps no events. Reads each level once,
/// without recursion. Fails only if memory runs out.
pub(crate) fn is_whole(
    alloc: Global,
    table: Table<'_>,
    at: usize,
    trees: TokenTreesView<'_>,
) -> Result<bool, AllocError>
    ensures { IfOk result (λ answer. IsJudged table.entry.rules.now at (trees_of trees.entry) answer) }
{
    let mut derivation = Derivation::new(alloc, table, at, trees);
    loop {
        match derivation.next_event()? {
            NextEvent::Event(_) => {}
            NextEvent::End => return Ok(true),
            NextEvent::Refused(_) => return Ok(false),
        }
    }
}

/// Returns how many of the trees the expression at that index of the table takes from the first on, if in each subtree that it takes by a
/// name the trees are the expression of that name; none if it fails, or if a subtree has other contents. Reads each level once, without
/// recursion. Fails only if memory runs out.
pub(crate) fn take_deep(
    alloc: Global,
    table: Table<'_>,
    at: usize,
    trees: TokenTreesView<'_>,
) -> Result<Option<usize>, AllocError>
    ensures { IfOk result (λ count. TakesDeep table.entry.rules.now at (trees_of trees.entry) count) }
{
    let mut units = Units::with_room(alloc, trees)?;
    let mut frames = Vec::with_capacity(alloc, 16)?;
    let mut log = Vec::with_capacity(alloc, 8)?;
    let Some(count) = parse(true, table, at, &mut units, &mut frames, &mut log)? else {
        return Ok(None);
    };
    let around = Vec::new(alloc);
    let mut derivation = Derivation {
        table,
        level: None,
        log,
        inner: Open {
            since: 0,
            next: 0,
            stop: None,
        },
        around,
        room: Room { units, frames },
    };
    loop {
        match derivation.next_event()? {
            NextEvent::Event(_) => {}
            NextEvent::End => return Ok(Some(count)),
            NextEvent::Refused(_) => return Ok(None),
        }
    }
}
