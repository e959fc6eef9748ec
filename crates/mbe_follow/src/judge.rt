//! Goes through the pieces of a pattern, from the last to the first, and finds what may not follow a variable.
ghost use Rattle.std.specs.Prelude.{◌≡◌, ◌∷◌, ◌++◌, [], None, map, reverse, IfOk, OnOk, option_to_list, if◌then◌else◌};
ghost use Rattle.tt.specs.Iters.{rest_of};
ghost use Rattle.mbe_pattern.specs.Placed.{pattern_of};
ghost use Rattle.mbe_follow.specs.Following.{first_refused, follow_faults_of};
ghost use Rattle.mbe_follow.specs.Judging.{all_before, around, begun, ending, entered, judged, judged_by, judged_of, judged_with, reach_of, required};

use crate::layout::{Piece, lay_out};
use crate::next::Next;
use mbe_pattern::{Fragment, RepeatKind};
use std::alloc::{AllocError, Global};
use std::mem;
use tt::TtIter;

/// A variable that something follows which may not, by their numbers among the parts in reading order.
#[derive(Clone, Copy)]
pub struct FollowFault {
    /// The number of the variable.
    pub variable: usize,
    /// What the variable takes.
    pub fragment: Fragment,
    /// The number of the first part that may come right behind the variable and is refused there.
    pub next: usize,
}

/// What may come first in the rest of a level. Whether the end of the level may come first, and the separator there.
#[derive(Drop)]
pub(crate) struct Reach {
    firsts: Vec<Next>,
    is_open: bool,
    separator: Option<Next>,
}

/// The faults so far, the last first. The innermost level, and the levels around it, the outermost first.
#[derive(Drop)]
pub(crate) struct Judge {
    faults: Vec<FollowFault>,
    level: Reach,
    outer: Vec<Reach>,
}

// Returns the number of the first of the parts that may not come behind the fragment.
fn refused_in(nexts: &[Next], fragment: Fragment) -> Option<usize>
    ensures { result ≡ first_refused fragment nexts.now }
{
    for next in nexts {
        if !next.may_follow(fragment) {
            return Some(next.number);
        }
    }
    None
}

impl Reach {
    // Returns a level at its end.
    fn ending(alloc: Global, is_open: bool, separator: Option<Next>) -> Reach
        ensures { reach_of result ≡ ending is_open separator }
    {
        Reach {
            firsts: Vec::new(alloc),
            is_open,
            separator,
        }
    }

    // Notes a part that is always there.
    fn require(&mut self, next: Next) -> Result<(), AllocError>
        ensures { OnOk result (reach_of self.new ≡ required next (reach_of self.old)) }
    {
        self.firsts.clear();
        self.firsts.push(next)?;
        self.is_open = false;
        Ok(())
    }

    // Returns the number of the first part of the level that may not come behind the fragment.
    fn refused(&self, fragment: Fragment) -> Option<usize>
        ensures { result ≡ first_refused fragment (self.now.firsts.items ++ (if self.now.is_open then option_to_list self.now.separator else [])) }
    {
        if let Some(next) = refused_in(&self.firsts, fragment) {
            return Some(next);
        }
        if !self.is_open {
            return None;
        }
        match self.separator {
            Some(next) if !next.may_follow(fragment) => Some(next.number),
            _ => None,
        }
    }
}

// Returns what is refused behind the fragment, given the levels, the outermost first.
fn refused_by(levels: &[Reach], fragment: Fragment) -> Option<usize>
    ensures { result ≡ first_refused fragment (all_before (map reach_of (reverse levels.now))) }
{
    let mut left = levels.len();
    while left > 0 {
        left -= 1;
        let level = &levels[left];
        if let Some(next) = level.refused(fragment) {
            return Some(next);
        }
        if !level.is_open {
            return None;
        }
    }
    None
}

// Returns the level before a repetition of that kind, given what may come first in it.
fn around(kind: RepeatKind, inner: Reach, level: Reach) -> Result<Reach, AllocError>
    ensures { IfOk result (λ made. reach_of made ≡ around kind (reach_of inner) (reach_of level)) }
{
    let Reach {
        firsts,
        is_open,
        separator,
    } = inner;
    let mut firsts = firsts;
    if let (Some(next), true) = (separator, is_open) {
        firsts.push(next)?;
    }
    let is_passed = kind.may_be_none() | is_open;
    if is_passed {
        firsts.extend_from_slice(&level.firsts)?;
    }
    Ok(Reach {
        firsts,
        is_open: is_passed & level.is_open,
        separator: level.separator,
    })
}

impl Judge {
    // Judges a variable.
    fn meet(&mut self, variable: usize, fragment: Fragment) -> Result<(), AllocError>
        ensures { OnOk result (judged_by self.new ≡ judged_with (Piece.Variable variable fragment) (judged_by self.old)) }
    {
        if let Some(next) = self.refused(fragment) {
            self.faults.push(FollowFault {
                variable,
                fragment,
                next,
            })?;
        }
        self.level.require(Next::of_variable(variable, fragment))
    }

    // Returns what is refused behind the fragment, before the pieces so far.
    fn refused(&self, fragment: Fragment) -> Option<usize>
        ensures { result ≡ first_refused fragment (all_before ((judged_by self.now).level ∷ (judged_by self.now).outer)) }
    {
        if let Some(next) = self.level.refused(fragment) {
            return Some(next);
        }
        if self.level.is_open {
            refused_by(&self.outer, fragment)
        } else {
            None
        }
    }

    // Begins a level at its end.
    fn close(
        &mut self,
        alloc: Global,
        is_open: bool,
        separator: Option<Next>,
    ) -> Result<(), AllocError>
        ensures { OnOk result (judged_by self.new ≡ judged (judged_by self.old).faults (ending is_open separator) ((judged_by self.old).level ∷ (judged_by self.old).outer)) }
    {
        let inner = Reach::ending(alloc, is_open, separator);
        let level = mem::replace(&mut self.level, inner);
        Ok(self.outer.push(level)?)
    }

    // Leaves a level at its beginning: a subtree.
    fn enter(&mut self, next: Next) -> Result<(), AllocError>
        ensures { OnOk result (judged_by self.new ≡ entered next (judged_by self.old).faults (judged_by self.old).level (judged_by self.old).outer) }
    {
        let Some(level) = self.outer.pop() else {
            return Ok(());
        };
        self.level = level;
        self.level.require(next)
    }

    // Leaves a level at its beginning: a repetition.
    fn begin(&mut self, alloc: Global, kind: RepeatKind) -> Result<(), AllocError>
        ensures { OnOk result (judged_by self.new ≡ begun kind (judged_by self.old).faults (judged_by self.old).level (judged_by self.old).outer) }
    {
        let Some(level) = self.outer.pop() else {
            return Ok(());
        };
        let inner = mem::replace(&mut self.level, Reach::ending(alloc, false, None));
        self.level = around(kind, inner, level)?;
        Ok(())
    }

    // Judges one more piece; the pieces come from the last to the first.
    fn add(&mut self, alloc: Global, piece: Piece) -> Result<(), AllocError>
        ensures { OnOk result (judged_by self.new ≡ judged_with piece (judged_by self.old)) }
    {
        match piece {
            Piece::Variable(number, fragment) => self.meet(number, fragment),
            Piece::Token(next) => self.level.require(next),
            Piece::Enter(next) => self.enter(next),
            Piece::Leave => self.close(alloc, false, None),
            Piece::Begin(kind) => self.begin(alloc, kind),
            Piece::Close(separator) => self.close(alloc, true, separator),
        }
    }
}

// Returns the faults of these pieces, the last first.
fn faults_in(alloc: Global, pieces: &[Piece]) -> Result<Vec<FollowFault>, AllocError>
    ensures { IfOk result (λ faults. reverse faults.items ≡ (judged_of pieces.now).faults) }
{
    let mut judge = Judge {
        faults: Vec::new(alloc),
        level: Reach::ending(alloc, false, None),
        outer: Vec::new(alloc),
    };
    let mut left = pieces.len();
    while left > 0 {
        left -= 1;
        judge.add(alloc, pieces[left])?;
    }
    Ok(judge.faults)
}

/// Returns each variable that something follows which may not, in reading order, with the first part behind it that is refused.
///
/// The parts are numbered in reading order from 0: variables, tokens, subtrees, and repetitions, each before what it holds; the separator of a
/// repetition is a part behind what the repetition holds. Behind the last variable of a repetition come its separator and what follows the
/// repetition, but not another round.
///
/// Time is at most the number of parts times how many parts and ends of repetitions may come behind one place. Memory is linear. Fails only
/// if memory runs out.
pub fn follow_faults(alloc: Global, pattern: TtIter<'_>) -> Result<Vec<FollowFault>, AllocError>
    ensures { IfOk result (λ faults. faults.items ≡ follow_faults_of (pattern_of (rest_of pattern.entry))) }
{
    let layout = lay_out(alloc, pattern)?;
    let mut faults = faults_in(alloc, &layout.pieces)?;
    faults.reverse();
    Ok(faults)
}
