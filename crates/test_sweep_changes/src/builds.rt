//! Calls that take a builder, and hand it back if they are refused.
use crate::alike::{are_alike, built};
use std::alloc::Global;
use test_sweep::{Call, When, invisible, judge, long_tree};
use tt::{TopSubtree, TopSubtreeBuilder, TtFault};

/// How that call of the group ended.
pub fn judged<R: Print>(rt: &R, alloc: Global, call: &str) -> Result<&'static str, TtFault> {
    let trees = trees(alloc, call)?;
    let [tree, after] = trees.as_slice() else {
        return Err(TtFault::NoSuchPlace);
    };
    let mut builders = Vec::new(alloc);
    builders.push(over(alloc, tree)?)?;
    builders.push(over(alloc, tree)?)?;
    let mut call = Building {
        call,
        builders: &mut builders,
        after,
    };
    Ok(judge(rt, &mut call))
}

// The tree that a builder holds, and the one that the call makes of it.
fn trees(alloc: Global, call: &str) -> Result<Vec<TopSubtree>, TtFault> {
    let mut trees = Vec::new(alloc);
    trees.push(long_tree(alloc)?)?;
    let after = match (call, trees.as_slice()) {
        ("build", [tree]) => {
            TopSubtree::from_token_trees(alloc, invisible(), tree.as_token_trees())?
        }
        ("build_skip_top_subtree", [tree]) => tree.clone(alloc)?,
        _ => return Err(TtFault::NoSuchPlace),
    };
    trees.push(after)?;
    Ok(trees)
}

// A builder that holds a tree, with a point in front of it and one behind it.
fn over(alloc: Global, tree: &TopSubtree) -> Result<TopSubtreeBuilder, TtFault> {
    let mut builder = TopSubtreeBuilder::new(alloc, invisible())?;
    hold(&mut builder, tree)?;
    Ok(builder)
}

fn hold(builder: &mut TopSubtreeBuilder, tree: &TopSubtree) -> Result<(), TtFault> {
    builder.restore_point()?;
    builder.extend_with_tt(tree.as_token_trees())?;
    builder.restore_point()?;
    Ok(())
}

// A call that takes the second of two builders that are alike, and the tree that it makes.
#[derive(Drop)]
struct Building<'a> {
    call: &'a str,
    builders: &'a mut Vec<TopSubtreeBuilder>,
    after: &'a TopSubtree,
}

impl Call for Building<'_> {
    // There is room to put the builder back.
    fn make(&mut self) -> Result<bool, TtFault> {
        let Some(builder) = self.builders.pop() else {
            return Ok(false);
        };
        match built(self.call, builder) {
            Ok(tree) => Ok(tree == *self.after),
            Err(refused) => {
                self.builders.push(refused.value)?;
                Err(refused.fault)
            }
        }
    }

    fn is_left(&self, when: When) -> Result<bool, TtFault> {
        match (when, self.builders.as_slice()) {
            (When::Refused, [before, builder]) => are_alike(builder, before),
            (When::Done, [_before]) => Ok(true),
            _ => Ok(false),
        }
    }
}
