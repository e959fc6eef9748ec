//! Walks through trees from `$` to `$`.
ghost use Rattle.std.specs.Prelude.{◌≡◌, ◌∷◌, [], IfOk, MatchOption};
ghost use Rattle.tt.specs.Iters.{rest_of};
ghost use Rattle.mbe_rule.specs.Variables.{behind_dollars};
ghost use Rattle.mbe_rule.specs.DollarsLeft.{dollars_left};

use crate::variable::is_dollar;
use std::alloc::{AllocError, Global};
use tt::{TtElement, TtIter};

/// A walk through trees in reading order that stops after each `$`.
#[derive(Drop)]
pub(crate) struct Dollars<'a> {
    // What is left of each list of siblings that was entered, the innermost last.
    levels: Vec<TtIter<'a>>,
}

impl<'a> Dollars<'a> {
    /// Returns a walk that is still before the trees.
    pub(crate) fn new(alloc: Global, trees: TtIter<'a>) -> Result<Dollars<'a>, AllocError>
        ensures { IfOk result (λ dollars. dollars_left dollars ≡ behind_dollars (rest_of trees.entry)) }
    {
        let mut levels = Vec::new(alloc);
        levels.push(trees)?;
        Ok(Dollars { levels })
    }

    /// Returns the siblings after the next `$`, if there is one.
    pub(crate) fn next(&mut self) -> Result<Option<TtIter<'a>>, AllocError>
        ensures { IfOk result (λ found. MatchOption found (dollars_left self.old ≡ []) (λ behind. dollars_left self.old ≡ rest_of behind ∷ dollars_left self.new)) }
    {
        while let Some(mut level) = self.levels.pop() {
            match level.next() {
                None => {}
                Some(TtElement::Leaf(leaf)) => {
                    let behind = level.remaining().iter();
                    self.levels.push(level)?;
                    if is_dollar(&leaf) {
                        return Ok(Some(behind));
                    }
                }
                Some(TtElement::Subtree(_header, children)) => {
                    self.levels.push(level)?;
                    self.levels.push(children)?;
                }
            }
        }
        Ok(None)
    }
}
