//! Cuts a pattern into pieces, part by part.
ghost use Rattle.std.specs.Prelude.{◌≡◌, ◌∷◌, IfOk, OnOk, length, map};
ghost use Rattle.tt.specs.Iters.{rest_of};
ghost use Rattle.mbe_pattern.specs.Placed.{pattern_of};
ghost use Rattle.mbe_program.specs.Cutting.{cut_by, level_of, level_left, levels_left, with_piece, IsCut};
ghost use Rattle.mbe_program.specs.Pieces.{bit_of, all_bits};
ghost use Rattle.mbe_pattern.specs.declared.parts.Part.TheVariants as part;

use crate::instruction::Instruction;
use mbe_pattern::{Part, RepeatKind, Tail, next_part};
use std::alloc::{AllocError, Global};
use tt::TtIter;

/// An instruction without jumps, or the beginning or the end of a repetition. Pieces are numbered from 0: the beginning says where its first
/// round begins, and the end where another one does.
#[derive(Drop)]
pub(crate) enum Piece {
    Plain(Instruction),
    Begin(RepeatKind, usize),
    Close(RepeatKind, usize),
}

/// What is left of a subtree or a repetition, and the piece that ends it.
#[derive(Drop)]
pub(crate) struct Level<'p> {
    rest: TtIter<'p>,
    ending: Piece,
}

/// The pieces so far, and the levels that are left, the innermost last.
#[derive(Drop)]
pub(crate) struct Parser<'p> {
    pieces: Vec<Piece>,
    levels: Vec<Level<'p>>,
}

impl<'p> Parser<'p> {
    // Adds a piece, and the level after it.
    fn add(&mut self, piece: Piece, level: Level<'p>) -> Result<(), AllocError>
        ensures { OnOk result (IsCut (with_piece (bit_of piece) (level_left level.entry) (levels_left self.old.levels.items)) self.old self.new) }
    {
        self.pieces.push(piece)?;
        self.levels.push(level)?;
        Ok(())
    }

    // Adds a level inside the innermost, with the piece that ends it.
    fn enter(&mut self, rest: TtIter<'p>, ending: Piece) -> Result<(), AllocError>
        ensures pieces { self.new.pieces ≡ self.old.pieces }
        ensures levels { OnOk result (levels_left self.new.levels.items ≡ level_of (pattern_of (rest_of rest.entry)) (bit_of ending) ∷ levels_left self.old.levels.items) }
    {
        self.levels.push(Level { rest, ending })?;
        Ok(())
    }

    // Adds the beginning of a repetition, its separator if it has one, and a level for its inside.
    fn begin(&mut self, level: Level<'p>, inner: TtIter<'p>, tail: Tail) -> Result<(), AllocError>
        ensures { OnOk result (IsCut (cut_by (part.Repetition inner.entry tail) (length self.old.pieces.items) (level_left level.entry) (levels_left self.old.levels.items)) self.old self.new) }
    {
        let Tail { separator, kind } = tail;
        let again = self.pieces.len() + 1;
        if separator.is_empty() {
            self.add(Piece::Begin(kind, again), level)?;
        } else {
            self.add(Piece::Begin(kind, again + 1), level)?;
            self.pieces
                .push(Piece::Plain(Instruction::Pass(separator)))?;
        }
        self.enter(inner, Piece::Close(kind, again))
    }

    // Adds the pieces of a part, and the level that is left after it.
    fn take_part(&mut self, level: Level<'p>, part: Part<'p>) -> Result<(), AllocError>
        ensures { OnOk result (IsCut (cut_by part.entry (length self.old.pieces.items) (level_left level.entry) (levels_left self.old.levels.items)) self.old self.new) }
    {
        match part {
            Part::End => Ok(self.pieces.push(level.ending)?),
            Part::Variable(variable) => self.add(Piece::Plain(Instruction::Take(variable)), level),
            Part::Token(leaves) => self.add(Piece::Plain(Instruction::Pass(leaves)), level),
            Part::Subtree(kind, inner) => {
                self.add(Piece::Plain(Instruction::Enter(kind)), level)?;
                self.enter(inner, Piece::Plain(Instruction::Leave))
            }
            Part::Repetition(inner, tail) => self.begin(level, inner, tail),
        }
    }
}

/// Returns the pieces of the pattern that the trees spell. Fails only if memory runs out.
pub(crate) fn parse(alloc: Global, pattern: TtIter<'_>) -> Result<Vec<Piece>, AllocError>
    ensures { IfOk result (λ pieces. map bit_of pieces.items ≡ all_bits (pattern_of (rest_of pattern.entry))) }
{
    let mut parser = Parser {
        pieces: Vec::new(alloc),
        levels: Vec::new(alloc),
    };
    parser.enter(pattern, Piece::Plain(Instruction::Leave))?;
    while let Some(level) = parser.levels.pop() {
        let mut level = level;
        let part = next_part(alloc, &mut level.rest)?;
        parser.take_part(level, part)?;
    }
    Ok(parser.pieces)
}
