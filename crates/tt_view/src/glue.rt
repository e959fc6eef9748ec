//! Puncts that together make one operator.
ghost use Rattle.std.specs.Prelude.{◌≡◌, ◌∷◌, [], option_map, IfSome, MatchOption, Some};
ghost use Rattle.std.specs.Result.{result_ok};
ghost use Rattle.tt_base.specs.Gluing.{glued, glued_behind, glued_two, after_trees, passed_by, is_one_of, twos, threes};

use crate::iter::TtIter;
use arrayvec::ArrayVec;
use tt_base::{Punct, Spacing};

/// The largest number of puncts in one operator.
pub const MAX_GLUED_PUNCT_LEN: usize = 3;

// The operators of three puncts.
const THREES: [[char; 3]; 4] = [
    ['.', '.', '.'],
    ['.', '.', '='],
    ['<', '<', '='],
    ['>', '>', '='],
];

// The operators of two puncts.
const TWOS: [[char; 2]; 21] = [
    ['-', '='],
    ['!', '='],
    ['*', '='],
    ['/', '='],
    ['&', '='],
    ['%', '='],
    ['^', '='],
    ['+', '='],
    ['<', '='],
    ['=', '='],
    ['>', '='],
    ['|', '='],
    ['-', '>'],
    ['=', '>'],
    ['>', '>'],
    ['<', '-'],
    [':', ':'],
    ['.', '.'],
    ['&', '&'],
    ['<', '<'],
    ['|', '|'],
];

/// Returns whether the characters of two puncts are one operator (docs/FORMATS.md, "Puncts of one operator").
pub fn is_glued_two(first: char, second: char) -> bool
    ensures { result ≡ is_one_of twos (first ∷ second ∷ []) }
{
    TWOS.contains(&[first, second])
}

/// Returns whether the characters of three puncts are one operator (docs/FORMATS.md, "Puncts of one operator").
pub fn is_glued_three(first: char, second: char, third: char) -> bool
    ensures { result ≡ is_one_of threes (first ∷ second ∷ third ∷ []) }
{
    THREES.contains(&[first, second, third])
}

impl<'a> TtIter<'a> {
    ghost use Rattle.tt_view.specs.Iters.{rest_of, steps_of_iter, steps_after, PassesOne};

    /// Takes the puncts of the next operator, and returns them: two or three that are in the tables, otherwise the first punct alone
    /// (docs/FORMATS.md, "Puncts of one operator"). If the next element is no punct, takes it and returns an error.
    pub fn expect_glued_punct(&mut self) -> Result<ArrayVec<Punct, MAX_GLUED_PUNCT_LEN>, ()>
        ensures answer { option_map (λ puncts. puncts.items) (result_ok result) ≡ glued (rest_of self.old) }
        ensures rest { rest_of self.new ≡ after_trees (passed_by (glued (rest_of self.old))) (rest_of self.old) }
        ensures steps { steps_of_iter self.new ≡ steps_after (passed_by (glued (rest_of self.old))) (steps_of_iter self.old) (rest_of self.old) }
    {
        let first = self.expect_single_punct()?;
        let mut puncts = ArrayVec::new();
        puncts.push(first);
        if first.spacing == Spacing::Alone {
            return Ok(puncts);
        }
        let mut behind = self.fork();
        let Ok(second) = behind.expect_single_punct() else {
            return Ok(puncts);
        };
        if let Some((third, last)) = behind.third_of(&first, &second) {
            puncts.push(second);
            puncts.push(third);
            *self = last;
            return Ok(puncts);
        }
        if is_glued_two(first.char, second.char) {
            puncts.push(second);
            *self = behind;
            return Ok(puncts);
        }
        Ok(puncts)
    }

    // After two puncts, returns a third that makes one operator with them, and the iterator after it.
    fn third_of(&self, first: &Punct, second: &Punct) -> Option<(Punct, TtIter<'a>)>
        ensures third { MatchOption result (glued_behind first.now (Some second.now) (rest_of self.now) ≡ glued_two first.now second.now) (λ found. glued_behind first.now (Some second.now) (rest_of self.now) ≡ first.now ∷ second.now ∷ found.0 ∷ []) }
        ensures passes { IfSome result (λ found. PassesOne self.now found.1) }
    {
        if second.spacing != Spacing::Joint {
            return None;
        }
        let mut last = self.fork();
        let third = last.expect_single_punct().ok()?;
        if is_glued_three(first.char, second.char, third.char) {
            Some((third, last))
        } else {
            None
        }
    }
}
