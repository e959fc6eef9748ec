//! Calls that take no memory, a group at a time: each is made with every request refused.
use crate::prepared::{Prepared, stored};
use crate::{quiet_stored, quiet_tokens, quiet_views};
use test_sweep::{Call, When, judge, leaf, long_tree, span};
use tt::{Leaf, LitKind, Literal, TopSubtree, TtFault};
use tt_pack::Packed;

/// How that group of calls ended.
pub fn judged<R: Print>(rt: &R, given: Prepared<'_>, call: &str) -> Result<&'static str, TtFault> {
    let leaves = leaves(given)?;
    judged_of(rt, given, &leaves, call)
}

// The ident `a` and the number `1u8`.
fn leaves(given: Prepared<'_>) -> Result<Vec<Leaf>, TtFault> {
    let mut leaves = vec![in given.alloc; leaf(given.alloc, "a", 1)?]?;
    let number = Literal::new(given.alloc, "1", span(1), LitKind::Integer, "u8")?;
    leaves.push(Leaf::from(number))?;
    Ok(leaves)
}

// The same, given leaves that are in no tree. The long tree, and what is stored of it, are there once more, to be changed and
// to be taken.
fn judged_of<R: Print>(
    rt: &R,
    given: Prepared<'_>,
    leaves: &[Leaf],
    call: &str,
) -> Result<&'static str, TtFault> {
    let mut stored = stored(given.alloc)?;
    let mut tree = long_tree(given.alloc)?;
    let mut call = Quiet {
        call,
        given,
        leaves,
        tree: &mut tree,
        stored: &mut stored,
    };
    Ok(judge(rt, &mut call))
}

// A group of calls, and what they are given.
#[derive(Drop)]
struct Quiet<'a> {
    call: &'a str,
    given: Prepared<'a>,
    leaves: &'a [Leaf],
    tree: &'a mut TopSubtree,
    stored: &'a mut Vec<Packed>,
}

impl Call for Quiet<'_> {
    fn make(&mut self) -> Result<bool, TtFault> {
        let given = self.given;
        let sum = given.sum;
        match self.call {
            "ranges" => Ok(quiet_tokens::ranges() && quiet_tokens::spans()),
            "tokens" => Ok(quiet_tokens::tokens(self.leaves)),
            "literals" => Ok(quiet_tokens::literals(self.leaves)),
            "numbers" => Ok(quiet_stored::numbers()),
            "stored" => Ok(quiet_stored::stored(given.packed, given.tree)),
            "setters" => Ok(quiet_stored::set(self.stored, self.tree)),
            "trees" => Ok(
                quiet_views::trees(&given) && quiet_stored::is_made(self.stored.pop(), given.tree),
            ),
            "texts" => Ok(quiet_views::texts(sum)),
            "views" => Ok(quiet_views::views(&given)),
            "siblings" => Ok(quiet_views::siblings(sum.iter())),
            "expectations" => Ok(quiet_views::expectations(sum.token_trees())),
            "cursors" => quiet_views::cursors(given.alloc, sum.token_trees()),
            _ => Ok(false),
        }
    }

    // None of these calls may be refused.
    fn is_left(&self, when: When) -> Result<bool, TtFault> {
        match when {
            When::Refused => Ok(false),
            When::Done => Ok(true),
        }
    }
}
