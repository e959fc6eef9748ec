//! Cuts a pattern's trees into numbered pieces.
ghost use Rattle.std.specs.Prelude.{◌≡◌, ◌∷◌, ◌++◌, [], length, IfOk, OnOk};
ghost use Rattle.tt.specs.Iters.{rest_of};
ghost use Rattle.mbe_pattern.specs.Placed.{pattern_of};
ghost use Rattle.mbe_follow.specs.Following.{begins_with_crate, part_count};
ghost use Rattle.mbe_follow.specs.Pieces.{all_pieces, ended, level_left, levels_left, stepped, IsStepped};

use crate::next::Next;
use mbe_pattern::{Fragment, Part, RepeatKind, Tail, is_crate_in, next_part};
use std::alloc::{AllocError, Global};
use tt::{Span, TtIter};

/// A piece of a pattern.
#[derive(Clone, Copy)]
pub(crate) enum Piece {
    /// A variable: its number and what it takes.
    Variable(usize, Fragment),
    Token(Next),
    /// The beginning of a subtree.
    Enter(Next),
    /// The end of a subtree, or of the whole pattern.
    Leave,
    /// The beginning of a repetition.
    Begin(RepeatKind),
    /// The end of a repetition, with its separator.
    Close(Option<Next>),
}

/// What is left of a subtree or a repetition, and the tail of a repetition.
#[derive(Drop)]
pub(crate) struct Level<'p> {
    rest: TtIter<'p>,
    closing: Option<Tail>,
}

/// The pieces so far, the spans of the numbered parts, and the levels that are left, the innermost last.
#[derive(Drop)]
pub(crate) struct Layout<'p> {
    pub(crate) pieces: Vec<Piece>,
    pub(crate) spans: Vec<Span>,
    levels: Vec<Level<'p>>,
}

// Returns whether the pattern that these trees spell begins with `crate`.
fn begins_with_crate(trees: TtIter<'_>) -> bool
    ensures { result ≡ begins_with_crate (pattern_of (rest_of trees.entry)) }
{
    is_crate_in(trees)
}

impl<'p> Layout<'p> {
    // Ends a level.
    fn end(&mut self, closing: Option<Tail>) -> Result<(), AllocError>
        ensures { OnOk result (IsStepped (ended (length self.old.spans.items) closing (levels_left self.old.levels.items)) self.old self.new) }
    {
        let Some(tail) = closing else {
            return Ok(self.pieces.push(Piece::Leave)?);
        };
        let separator = Next::of_separator(self.spans.len(), &tail.separator);
        self.pieces.push(Piece::Close(separator))?;
        match tail.separator.first() {
            Some(leaf) => Ok(self.spans.push(*leaf.span())?),
            None => Ok(()),
        }
    }

    // Adds a piece that has a number, and puts back the level after it.
    fn add(&mut self, span: Span, piece: Piece, level: Level<'p>) -> Result<(), AllocError>
        ensures pieces { OnOk result (self.new.pieces.items ≡ self.old.pieces.items ++ piece ∷ []) }
        ensures spans { OnOk result (self.new.spans.items ≡ self.old.spans.items ++ span ∷ []) }
        ensures levels { OnOk result (self.new.levels.items ≡ self.old.levels.items ++ level.entry ∷ []) }
    {
        self.pieces.push(piece)?;
        self.spans.push(span)?;
        Ok(self.levels.push(level)?)
    }

    // Takes what was read from a level.
    fn take(&mut self, span: Span, level: Level<'p>, part: Part<'p>) -> Result<(), AllocError>
        ensures { OnOk result (IsStepped (stepped (length self.old.spans.items) part.entry (level_left level.entry) (levels_left self.old.levels.items)) self.old self.new) }
    {
        let number = self.spans.len();
        match part {
            Part::End => self.end(level.closing),
            Part::Variable(variable) => {
                self.add(span, Piece::Variable(number, variable.fragment), level)
            }
            Part::Token(leaves) => {
                let before_crate = begins_with_crate(level.rest.remaining().iter());
                let next = Next::of_token(number, &leaves, before_crate);
                self.add(span, Piece::Token(next), level)
            }
            Part::Subtree(kind, rest) => {
                self.add(span, Piece::Enter(Next::of_subtree(number, kind)), level)?;
                let closing = None;
                Ok(self.levels.push(Level { rest, closing })?)
            }
            Part::Repetition(rest, tail) => {
                self.add(span, Piece::Begin(tail.kind), level)?;
                let closing = Some(tail);
                Ok(self.levels.push(Level { rest, closing })?)
            }
        }
    }
}

/// Returns the pieces of the pattern that the trees spell, and the spans of its parts.
pub(crate) fn lay_out<'p>(alloc: Global, pattern: TtIter<'p>) -> Result<Layout<'p>, AllocError>
    ensures pieces { IfOk result (λ layout. layout.pieces.items ≡ all_pieces (pattern_of (rest_of pattern.entry))) }
    ensures spans { IfOk result (λ layout. length layout.spans.items ≡ part_count (pattern_of (rest_of pattern.entry))) }
{
    let mut layout = Layout {
        pieces: Vec::new(alloc),
        spans: Vec::new(alloc),
        levels: Vec::new(alloc),
    };
    layout.levels.push(Level {
        rest: pattern,
        closing: None,
    })?;
    while let Some(level) = layout.levels.pop() {
        let mut level = level;
        match level.rest.next_span() {
            Some(span) => {
                let part = next_part(alloc, &mut level.rest)?;
                layout.take(span, level, part)?;
            }
            None => layout.end(level.closing)?,
        }
    }
    Ok(layout)
}

/// Returns the span of each part in reading order. That of a variable and a repetition is the span of its `$`, that of a token or a subtree
/// its first.
///
/// The parts are variables, tokens, subtrees, and repetitions, each before what it holds; the separator of a repetition is a part behind what
/// the repetition holds. Time and memory are linear. Fails only if memory runs out.
pub fn part_spans(alloc: Global, pattern: TtIter<'_>) -> Result<Vec<Span>, AllocError>
    ensures { IfOk result (λ spans. length spans.items ≡ part_count (pattern_of (rest_of pattern.entry))) }
{
    let layout = lay_out(alloc, pattern)?;
    Ok(layout.spans)
}
