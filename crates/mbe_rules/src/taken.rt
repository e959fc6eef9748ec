//! What a variable took, and what of it is bound in a round.
ghost use Rattle.std.specs.Prelude.{◌≡◌, map, slice_get, IfOk};
ghost use Rattle.tt.specs.Views.{trees_of};
ghost use Rattle.mbe_matcher.specs.Bindings.{Bound, Binding as Bindings};
ghost use Rattle.mbe_matcher.specs.Grouping.{binding_by, named_by};
ghost use Rattle.mbe_matcher.specs.Marks.{note_of};
ghost use Rattle.mbe_matcher.specs.Binders.{where_of};
ghost use Rattle.mbe_rules.specs.Rounds.{fragment_of, IsTaken, IsTakenBy, AreTaken, seen_as, seen_of, seen_at, time_seen, bound_in, dones, binding_in, times_at, lesser, first_at, count_at};

use mbe_matcher::{Binder, Binding};
use mbe_pattern::Fragment;
use std::alloc::{AllocError, Global};
use tt::TokenTreesView;

/// What a variable takes, what it took each time, and for each repetition around it, the outermost first, where its rounds end each time.
#[derive(Drop)]
pub(crate) struct Taken<'i> {
    pub(crate) fragment: Fragment,
    pub(crate) trees: Vec<TokenTreesView<'i>>,
    pub(crate) ends: Vec<Vec<usize>>,
}

/// A round of a repetition of a template: the index of its first part, how many rounds are done, and how
/// many are done when the last begins.
#[derive(Clone, Copy)]
pub(crate) struct Round {
    pub(crate) body: usize,
    pub(crate) done: usize,
    pub(crate) last: usize,
}

/// What is seen of a bound: trees, or how many rounds.
#[derive(Clone, Copy)]
pub(crate) enum Seen<'i> {
    Trees(TokenTreesView<'i>),
    Rounds(usize),
}

/// The rounds of one time: the number of the first one among all, and how many there are.
#[derive(Clone, Copy)]
struct Rounds {
    first: usize,
    count: usize,
}

// Returns the lesser number.
fn lesser(a: usize, b: usize) -> usize
    ensures { result ≡ lesser a b }
{
    if a < b { a } else { b }
}

// Returns the number of the first round of that time, given where the rounds of each time end.
fn first_at(ends: &[usize], time: usize) -> usize
    ensures { result ≡ first_at ends.now time }
{
    match time.checked_sub(1) {
        None => 0,
        Some(before) => match ends.get(before) {
            Some(end) => *end,
            None => 0,
        },
    }
}

// Returns the rounds of that time, given where the rounds of each time end and how many rounds there are in all.
fn rounds_at(ends: &[usize], time: usize, all: usize) -> Rounds
    ensures first { result.first ≡ first_at ends.now time }
    ensures count { result.count ≡ count_at ends.now time all }
{
    let first = first_at(ends, time);
    match ends.get(time) {
        Some(end) => Rounds {
            first,
            count: lesser(*end, all).saturating_sub(first),
        },
        None => Rounds { first, count: 0 },
    }
}

impl<'i> Taken<'i> {
    // Returns how many times the repetition at that depth occurred, or how many times the variable took
    // trees if there is no such repetition.
    fn times(&self, depth: usize) -> usize
        ensures { result ≡ times_at depth self.now }
    {
        match self.ends.get(depth) {
            Some(ends) => ends.len(),
            None => self.trees.len(),
        }
    }

    // Returns the trees of that time.
    fn trees_at(&self, time: usize) -> Seen<'i>
        ensures { seen_as result ≡ time_seen (slice_get (map trees_of self.now.trees.items) time) }
    {
        match self.trees.get(time) {
            Some(trees) => Seen::Trees(*trees),
            None => Seen::Rounds(0),
        }
    }

    // Returns what is bound in nested rounds, the outermost first.
    fn seen_in(&self, rounds: &[Round]) -> Seen<'i>
        ensures { (bound : Bound) → IsTaken bound self.now → seen_as result ≡ seen_of (bound_in (dones rounds.now) bound) }
    {
        let mut time = 0;
        let mut depth = 0;
        while let Some(ends) = self.ends.get(depth) {
            depth += 1;
            let here = rounds_at(ends, time, self.times(depth));
            let Some(round) = rounds.get(depth - 1) else {
                return Seen::Rounds(here.count);
            };
            if round.done >= here.count {
                return Seen::Rounds(0);
            }
            time = here.first + round.done;
        }
        self.trees_at(time)
    }

    // Returns what a variable took.
    fn of(alloc: Global, binder: &Binder, binding: &Binding<'i>) -> Result<Taken<'i>, AllocError>
        ensures { IfOk result (IsTakenBy (named_by (map note_of binding.now.marks.items) (where_of binder.now))) }
    {
        let trees = binding.trees(alloc, binder.number)?;
        let mut ends = Vec::new(alloc);
        for number in &binder.nest {
            ends.push(binding.ends(alloc, *number)?)?;
        }
        Ok(Taken {
            fragment: binder.fragment,
            trees,
            ends,
        })
    }
}

/// Returns what each variable took.
pub(crate) fn taken_by<'i>(
    alloc: Global,
    binders: &[Binder],
    binding: &Binding<'i>,
) -> Result<Vec<Taken<'i>>, AllocError>
    ensures { IfOk result (λ taken. AreTaken (binding_by (map where_of binders.now) (map note_of binding.now.marks.items)) taken.items) }
{
    let mut taken = Vec::new(alloc);
    for binder in binders {
        taken.push(Taken::of(alloc, binder, binding)?)?;
    }
    Ok(taken)
}

/// Returns what is bound to the variable of that index in nested rounds, the outermost first; no trees if there is no such variable.
pub(crate) fn seen_in<'i>(taken: &[Taken<'i>], number: usize, rounds: &[Round]) -> Seen<'i>
    ensures { (binding : Bindings) → AreTaken binding taken.now → seen_as result ≡ seen_at (slice_get (binding_in (dones rounds.now) binding) number) }
{
    match taken.get(number) {
        Some(taken) => taken.seen_in(rounds),
        None => Seen::Trees(TokenTreesView::empty()),
    }
}

/// Returns the fragment of the variable of that index; none if there is no such variable.
pub(crate) fn fragment_of(taken: &[Taken<'_>], number: usize) -> Option<Fragment>
    ensures { (binding : Bindings) → AreTaken binding taken.now → result ≡ fragment_of (slice_get binding number) }
{
    match taken.get(number) {
        Some(taken) => Some(taken.fragment),
        None => None,
    }
}
