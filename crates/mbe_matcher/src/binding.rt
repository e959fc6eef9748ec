//! What an input binds if it is an instance of a pattern in one way.
ghost use Rattle.std.specs.Prelude.{◌≡◌, ◌<◌, ◌++◌, ◌∷◌, [], map, IfOk, OnOk};
ghost use Rattle.tt.specs.Views.{trees_of};
ghost use Rattle.mbe_matcher.specs.Ends.{counted_on, ends_with, sums};
ghost use Rattle.mbe_matcher.specs.Grouping.{taken_by, counts_by};
ghost use Rattle.mbe_matcher.specs.Marks.{note_of};

use crate::mark::Mark;
use std::alloc::{AllocError, Global};
use tt::TokenTreesView;

/// What the one reading of an input binds.
#[derive(Drop)]
pub struct Binding<'i> {
    marks: Vec<Mark<'i>>,
}

/// In how many ways an input is an instance of a pattern.
#[derive(Drop)]
pub enum Found<'i> {
    /// In none. The pattern, read as far as it goes, stops at that flat place: that many tokens precede it.
    Nothing(usize),
    /// In exactly one, which binds this.
    One(Binding<'i>),
    /// In two different ones, and maybe more.
    Many,
}

impl<'i> Binding<'i> {
    /// Returns the binding of these marks.
    pub fn new(marks: Vec<Mark<'i>>) -> Binding<'i>
        ensures { result.marks ≡ marks.entry }
    {
        Binding { marks }
    }

    /// Returns what is bound, one mark after the other, in the order of the input.
    pub fn marks(&self) -> &[Mark<'i>]
        ensures { result.now ≡ self.now.marks.items }
    {
        &self.marks
    }

    /// Returns the trees that the variable of that number took, each time.
    ///
    /// Time is linear in the length of the input. Fails only if memory runs out.
    pub fn trees(&self, alloc: Global, number: usize) -> Result<Vec<TokenTreesView<'i>>, AllocError>
        ensures { IfOk result (λ trees. map trees_of trees.items ≡ taken_by number (map note_of self.now.marks.items)) }
    {
        let mut trees = Vec::new(alloc);
        for mark in &self.marks {
            add_taken(mark, number, &mut trees)?;
        }
        Ok(trees)
    }

    /// Returns, for each time that the repetition of that number ended, how many rounds it had up to that end.
    ///
    /// The counts include the rounds of all earlier times: the rounds of one time are those from the previous end on. Time is linear in the
    /// length of the input. Fails only if memory runs out.
    pub fn ends(&self, alloc: Global, number: usize) -> Result<Vec<usize>, AllocError>
        ensures { IfOk result (λ ends. ends.items ≡ sums 0 (counts_by number 0 (map note_of self.now.marks.items))) }
    {
        let mut ends = Vec::new(alloc);
        let mut so_far = 0;
        for mark in &self.marks {
            so_far = count_on(mark, number, so_far, &mut ends)?;
        }
        Ok(ends)
    }
}

// Adds the trees of the mark if it says what the variable of that number took.
fn add_taken<'i>(
    mark: &Mark<'i>,
    number: usize,
    trees: &mut Vec<TokenTreesView<'i>>,
) -> Result<(), AllocError>
    ensures { OnOk result (map trees_of trees.new.items ≡ map trees_of trees.old.items ++ taken_by number (note_of mark.now ∷ [])) }
{
    match mark {
        Mark::Took(other, view) if *other == number => Ok(trees.push(*view)?),
        Mark::Took(..) | Mark::Round(_) | Mark::Over(_) => Ok(()),
    }
}

// Counts a round of the repetition of that number, or adds the count so far if the repetition has no further round. Returns the new count.
fn count_on(
    mark: &Mark<'_>,
    number: usize,
    so_far: usize,
    ends: &mut Vec<usize>,
) -> Result<usize, AllocError>
    requires { so_far < 18446744073709551615 }
    ensures count { IfOk result (λ next. next ≡ counted_on number so_far (note_of mark.now)) }
    ensures ends { OnOk result (ends.new.items ≡ ends.old.items ++ ends_with number so_far (note_of mark.now) []) }
{
    match mark {
        Mark::Round(other) if *other == number => Ok(so_far + 1),
        Mark::Over(other) if *other == number => {
            ends.push(so_far)?;
            Ok(so_far)
        }
        Mark::Took(..) | Mark::Round(_) | Mark::Over(_) => Ok(so_far),
    }
}
