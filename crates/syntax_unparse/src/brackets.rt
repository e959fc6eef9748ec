//! The brackets that subtrees are written in.
ghost use Rattle.std.specs.Prelude.{◌≡◌, IfOk, nat_lt};
ghost use Rattle.syntax_unparse.specs.Marks.{brackets_of, shown};
ghost use Rattle.tt_view.specs.Iters.{rest_of};

use std::alloc::{AllocError, Global};
use syntax_parse::Bracket;
use tt_base::{Delimiter, DelimiterKind, Subtree};
use tt_view::{TtElement, TtIter};

// Returns whether two trees or more are left after each invisible subtree is replaced by its children.
fn shows_several(alloc: Global, trees: TtIter<'_>) -> Result<bool, AllocError>
    ensures { IfOk result (λ several. several ≡ nat_lt 1 (shown (rest_of trees.entry))) }
{
    let mut found = false;
    let mut level = trees;
    // the rests of the levels around it, the innermost last
    let mut outer = Vec::new(alloc);
    'trees: loop {
        match level.next() {
            Some(
                TtElement::Subtree(
                    Subtree {
                        delimiter: Delimiter {
                            kind: DelimiterKind::Invisible,
                            ..
                        },
                        ..
                    },
                    children,
                ),
            ) => {
                outer.push(level)?;
                level = children;
            }
            Some(_) => {
                if found {
                    return Ok(true);
                }
                found = true;
            }
            None => {
                let Some(round) = outer.pop() else {
                    return Ok(false);
                };
                level = round;
            }
        }
    }
}

/// Returns the brackets that a subtree is written in, if it has any.
pub fn brackets_of(
    alloc: Global,
    kind: DelimiterKind,
    children: &TtIter<'_>,
) -> Result<Option<Bracket>, AllocError>
    ensures { IfOk result (λ brackets. brackets ≡ brackets_of kind (shown (rest_of children.now))) }
{
    match kind {
        DelimiterKind::Parenthesis => Ok(Some(Bracket::Parenthesis)),
        DelimiterKind::Brace => Ok(Some(Bracket::Brace)),
        DelimiterKind::Bracket => Ok(Some(Bracket::Square)),
        DelimiterKind::Invisible => Ok(None),
        DelimiterKind::InvisibleOpaque => {
            if shows_several(alloc, children.remaining().iter())? {
                Ok(Some(Bracket::Parenthesis))
            } else {
                Ok(None)
            }
        }
    }
}
