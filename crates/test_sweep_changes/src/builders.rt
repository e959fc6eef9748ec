//! Calls of a builder, and those that make one.
use crate::alike::{are_alike, close_at, restored};
use crate::grown::{NEW, NEW_ID, NEW_NAMES, TAKEN, after, builder};
use std::alloc::Global;
use test_sweep::{Call, When, flat_tree, handed_back, invisible, judge, leaves_of, span, ten};
use tt::{DelimiterKind, Leaf, TopSubtree, TopSubtreeBuilder, TtFault};

/// How that call of the group ended. A list of trees or of builders is let go in one step, and each of them in many.
pub fn judged<R: Print>(rt: &R, alloc: Global, call: &str) -> Result<&'static str, TtFault> {
    let trees = trees(alloc, call)?;
    let mut builders = builders(alloc)?;
    let mut names = names(alloc)?;
    let ([after, trees], [builder, before]) = (trees.as_slice(), builders.as_mut_slice()) else {
        return Err(TtFault::NoSuchPlace);
    };
    let mut call = Growing {
        call,
        alloc,
        builder,
        before,
        after,
        trees,
        names: &mut names,
    };
    Ok(judge(rt, &mut call))
}

// The tree that is built behind the call, and one that is appended.
fn trees(alloc: Global, call: &str) -> Result<Vec<TopSubtree>, TtFault> {
    let mut trees = Vec::new(alloc);
    trees.push(after(alloc, call)?)?;
    trees.push(flat_tree(alloc, &ten())?)?;
    Ok(trees)
}

// Two builders that are alike.
fn builders(alloc: Global) -> Result<Vec<TopSubtreeBuilder>, TtFault> {
    let mut builders = Vec::new(alloc);
    builders.push(builder(alloc)?)?;
    builders.push(builder(alloc)?)?;
    Ok(builders)
}

// The new names twice, since a call that is refused has taken them, and in front of them the new leaf.
fn names(alloc: Global) -> Result<Vec<Vec<Leaf>>, TtFault> {
    let mut names = Vec::new(alloc);
    names.push(leaves_of(alloc, &NEW)?)?;
    names.push(leaves_of(alloc, &NEW_NAMES)?)?;
    names.push(leaves_of(alloc, &NEW_NAMES)?)?;
    Ok(names)
}

// A call of a builder, of which there is a copy, the tree that it makes behind it, and what is appended.
#[derive(Drop)]
struct Growing<'a> {
    call: &'a str,
    alloc: Global,
    builder: &'a mut TopSubtreeBuilder,
    before: &'a TopSubtreeBuilder,
    after: &'a TopSubtree,
    trees: &'a TopSubtree,
    names: &'a mut Vec<Vec<Leaf>>,
}

impl Call for Growing<'_> {
    fn make(&mut self) -> Result<bool, TtFault> {
        let trees = self.trees.token_trees();
        match self.call {
            "TopSubtreeBuilder::new" | "TopSubtreeBuilder::clone" => self.renew()?,
            "open" => self.builder.open(DelimiterKind::Parenthesis, span(NEW_ID))?,
            "push" => return self.push(),
            "close" => close_at(self.builder, span(NEW_ID))?,
            "extend" => self.builder.extend(ten().into_iter())?,
            "extend_by_names" => self.extend_by_names()?,
            "extend_with_tt" => self.builder.extend_with_tt(trees)?,
            "extend_with_tt_alone" => self.builder.extend_with_tt_alone(trees)?,
            "restore_point" => return Ok(self.builder.restore_point()?.number() == TAKEN),
            _ => return Ok(false),
        }
        Ok(true)
    }

    fn is_left(&self, when: When) -> Result<bool, TtFault> {
        match when {
            When::Refused => are_alike(self.builder, self.before),
            When::Done => self.is_grown(),
        }
    }
}

impl Growing<'_> {
    // Puts a new builder, or a copy, in the place of the builder.
    fn renew(&mut self) -> Result<(), TtFault> {
        let builder = match self.call {
            "TopSubtreeBuilder::new" => TopSubtreeBuilder::new(self.alloc, invisible())?,
            _ => self.builder.clone()?,
        };
        *self.builder = builder;
        Ok(())
    }

    // A clone of a leaf takes no memory.
    fn push(&mut self) -> Result<bool, TtFault> {
        let Some([leaf]) = self.names.first().map(Vec::as_slice) else {
            return Ok(false);
        };
        match self.builder.push(leaf.clone()?) {
            Ok(()) => Ok(true),
            Err(refused) => handed_back(refused, leaf),
        }
    }

    fn extend_by_names(&mut self) -> Result<(), TtFault> {
        match self.names.pop() {
            Some(names) => self.builder.extend(names.into_iter()),
            None => Ok(()),
        }
    }

    // Whether as many points are taken as have to be, and the tree is built that has to be. No point has the last number.
    fn is_grown(&self) -> Result<bool, TtFault> {
        let taken = match self.call {
            "TopSubtreeBuilder::new" => 0,
            "restore_point" => TAKEN + 1,
            _ => TAKEN,
        };
        let (stood, tree) = restored(self.builder, taken)?;
        Ok(self.builder.points_taken() == taken && !stood && tree == *self.after)
    }
}
