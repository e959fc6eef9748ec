//! Searches all ways of a program through an input. Each cell goes on once, and once more if another way leads there too.
ghost use Rattle.std.specs.Prelude.{◌≡◌, ◌<◌, ◌≤◌, ◌*◌, suc, IfOk, OnOk, length, ◌++◌, ◌∷◌, set, []};
ghost use Rattle.mbe_program.specs.Moving.{instructions_of};
ghost use Rattle.mbe_program.specs.Positions.{table_of};
ghost use Rattle.mbe_program.specs.Searching.{index_in, ways_of, log_of, coming_of, coming_by, HasCell, HasRows, AreAlike, IsRoomy, IsTable, HaveGoneOn, HaveAllGoneOn};
ghost use Rattle.mbe_matcher.specs.Marks.{Note};
ghost use Rattle.mbe_program.specs.Ways.{IsAdded, way_of};
ghost use Rattle.mbe_program.specs.declared.search.Way.TheVariants as way;
ghost use Rattle.mbe_program.specs.declared.cell.Cell.{Cell as OneCell};

use crate::cell::Cell;
use crate::instruction::Instruction;
use crate::moves::{Move, Moves, moves_from};
use crate::positions::Positions;
use mbe_matcher::Mark;
use std::alloc::{AllocError, Global};

/// How many ways to a cell are known.
#[derive(Clone, Copy)]
pub(crate) enum Way {
    /// None.
    Unseen,
    /// One.
    Once,
    /// Two, and maybe more.
    Often,
}

/// An arrival at a cell: the number of the arrival before it, from 1 on, or 0 if there is none; what the last step
/// marks; and whether several ways lead there.
#[derive(Clone, Copy)]
pub(crate) struct Arrival<'i> {
    pub(crate) cell: Cell,
    pub(crate) before: usize,
    pub(crate) mark: Option<Mark<'i>>,
    pub(crate) is_many: bool,
}

/// How many ways to each cell are known, in a row of that width for each position, and all arrivals.
#[derive(Drop)]
pub(crate) struct Search<'i> {
    pub(crate) width: usize,
    pub(crate) cells: Vec<Way>,
    pub(crate) log: Vec<Arrival<'i>>,
}

// Returns how many ways there are: several, or one.
fn way_of(is_many: bool) -> Way
    ensures { result ≡ way_of is_many }
{
    if is_many { Way::Often } else { Way::Once }
}

impl<'i> Search<'i> {
    // Returns the number of the cell.
    fn index(&self, cell: Cell) -> usize
        requires { HasCell self.now cell }
        ensures { result ≡ index_in self.now.width cell }
    {
        cell.position * self.width + cell.left
    }

    /// Returns how many ways to the cell are known.
    pub(crate) fn way(&self, cell: Cell) -> Way
        requires { HasCell self.now cell }
        ensures { result ≡ ways_of self.now cell }
    {
        self.cells[self.index(cell)]
    }

    // Sets the ways to the arrival's cell, and logs the arrival.
    fn put(&mut self, arrival: Arrival<'i>) -> Result<(), AllocError>
        requires { HasCell self.old arrival.cell }
        ensures width { self.new.width ≡ self.old.width }
        ensures cells { OnOk result (self.new.cells.items ≡ set self.old.cells.items (index_in self.old.width arrival.entry.cell) (way_of arrival.entry.is_many)) }
        ensures log { OnOk result (log_of self.new ≡ log_of self.old ++ coming_of arrival.entry ∷ []) }
    {
        let index = self.index(arrival.cell);
        self.cells[index] = way_of(arrival.is_many);
        self.log.push(arrival)?;
        Ok(())
    }

    // Adds an arrival, unless two ways to its cell are known already.
    fn add(&mut self, arrival: Arrival<'i>) -> Result<(), AllocError>
        requires cell { HasCell self.old arrival.cell }
        requires roomy { IsRoomy self.old }
        ensures added { OnOk result (IsAdded OneCell Note (coming_of arrival.entry) (ways_of self.old) (log_of self.old) (ways_of self.new) (log_of self.new)) }
        ensures now_roomy { OnOk result (IsRoomy self.new) }
        ensures alike { OnOk result (AreAlike self.new self.old) }
    {
        match self.way(arrival.cell) {
            Way::Unseen => self.put(arrival),
            Way::Once => self.put(Arrival {
                is_many: true,
                ..arrival
            }),
            Way::Often => Ok(()),
        }
    }

    // Adds the arrivals by the steps from the arrival of that number.
    fn go_on(
        &mut self,
        alloc: Global,
        program: &[Instruction],
        positions: &Positions<'i>,
        number: usize,
    ) -> Result<(), AllocError>
        requires number { number < length self.old.log.items }
        requires table { IsTable (instructions_of program.now) (table_of positions.now) }
        requires gone_on { HaveGoneOn (instructions_of program.now) (table_of positions.now) number self.old }
        ensures { OnOk result (HaveGoneOn (instructions_of program.now) (table_of positions.now) (suc number) self.new) }
    {
        let from = self.log[number];
        match moves_from(alloc, program, positions, from.cell)? {
            Moves::Nowhere => Ok(()),
            Moves::One(step) => self.add(arrival_by(step, from, number)),
            Moves::Two(one, other) => {
                self.add(arrival_by(one, from, number))?;
                self.add(arrival_by(other, from, number))
            }
        }
    }
}

// Returns the arrival by that step from the arrival of that number.
fn arrival_by<'i>(step: Move<'i>, from: Arrival<'i>, number: usize) -> Arrival<'i>
    requires { number < 9223372036854775807 }
    ensures { coming_of result ≡ coming_by (coming_of from.entry) number step.entry }
{
    Arrival {
        cell: step.to,
        before: number + 1,
        mark: step.mark,
        is_many: from.is_many,
    }
}

// Returns a search in which no way is known, with so many rows of that width. Fails only if memory runs out, and so where there are more
// cells than a `usize` counts.
fn empty<'i>(alloc: Global, count: usize, width: usize) -> Result<Search<'i>, AllocError>
    ensures rows { IfOk result (HasRows count width) }
    ensures none { IfOk result (λ search. (it : OneCell) → ways_of search it ≡ way.Unseen) }
    ensures log { IfOk result (λ search. search.log.items ≡ []) }
{
    let Some(size) = count.checked_mul(width) else {
        return Err(AllocError);
    };
    Ok(Search {
        width,
        cells: vec![in alloc; Way::Unseen; size]?,
        log: Vec::new(alloc),
    })
}

// Returns a search in which only the start has an arrival.
fn begin<'i>(
    alloc: Global,
    program: &[Instruction],
    positions: &Positions<'i>,
) -> Result<Search<'i>, AllocError>
    requires { IsTable (instructions_of program.now) (table_of positions.now) }
    ensures { IfOk result (HaveGoneOn (instructions_of program.now) (table_of positions.now) 0) }
{
    let mut search = empty(alloc, positions.all.len(), program.len() + 1)?;
    let cell = Cell {
        position: 1,
        left: program.len(),
    };
    search.add(Arrival {
        cell,
        before: 0,
        mark: None,
        is_many: false,
    })?;
    Ok(search)
}

/// Returns the search of all ways of the program through the input that has these positions. It has at most two arrivals for each place of
/// the program before each position. Fails only if memory runs out.
pub(crate) fn search_all<'i>(
    alloc: Global,
    program: &[Instruction],
    positions: &Positions<'i>,
) -> Result<Search<'i>, AllocError>
    requires { IsTable (instructions_of program.now) (table_of positions.now) }
    ensures all { IfOk result (HaveAllGoneOn (instructions_of program.now) (table_of positions.now)) }
    ensures few { IfOk result (λ search. length search.log.items ≤ 2 * (suc (length program.now) * length positions.now.all.items)) }
{
    let mut search = begin(alloc, program, positions)?;
    let mut number = 0;
    while number < search.log.len() {
        search.go_on(alloc, program, positions, number)?;
        number += 1;
    }
    Ok(search)
}
