//! Calls of a cursor, and of a walk that owns its tree, that enter subtrees.
use std::alloc::Global;
use test_sweep::{Call, When, braces, header, judge, tree_of};
use tt::buffer::Cursor;
use tt::{TokenTree, TreeWalk, TtFault};

// How deep the subtrees are nested.
const DEPTH: u32 = 20;

/// How that call of the group ended, made at each place on the way into nested subtrees.
pub fn judged<R: Print>(rt: &R, alloc: Global, call: &str) -> Result<&'static str, TtFault> {
    let list = nest(alloc)?;
    let tree = tree_of(alloc, nest(alloc)?)?;
    match call {
        "bump" => Ok(walked(rt, false, &list, tree.as_token_trees().cursor(alloc))),
        "bump_or_end" => Ok(walked(rt, true, &list, tree.as_token_trees().cursor(alloc))),
        "TreeWalk::enter" => Ok(entered(rt, &list, TreeWalk::new(alloc, tree))),
        _ => Err(TtFault::NoSuchPlace),
    }
}

// The same of a cursor in front of that list.
fn walked<R: Print>(rt: &R, both: bool, list: &[TokenTree], cursor: Cursor<'_>) -> &'static str {
    let mut call = Walking {
        both,
        list,
        cursor,
        passed: 0,
    };
    judge(rt, &mut call)
}

// The same of a walk through the trees below the first header of that list.
fn entered<R: Print>(rt: &R, list: &[TokenTree], walk: TreeWalk) -> &'static str {
    let mut call = Entering {
        list,
        walk,
        passed: 1,
    };
    judge(rt, &mut call)
}

// Braces in one another.
fn nest(alloc: Global) -> Result<Vec<TokenTree>, TtFault> {
    let mut list = Vec::new(alloc);
    for level in 0..DEPTH {
        list.push(header(braces(), DEPTH - 1 - level))?;
    }
    Ok(list)
}

// A walk into all subtrees of a list, and how many it has entered.
#[derive(Drop)]
struct Walking<'a> {
    // whether it leaves subtrees too, as `bump_or_end` does
    both: bool,
    list: &'a [TokenTree],
    cursor: Cursor<'a>,
    passed: usize,
}

impl Call for Walking<'_> {
    fn make(&mut self) -> Result<bool, TtFault> {
        for _ in self.passed..self.list.len() {
            if !self.is_here() {
                return Ok(false);
            }
            self.go_on()?;
            self.passed = self.passed.saturating_add(1);
        }
        Ok(true)
    }

    fn is_left(&self, when: When) -> Result<bool, TtFault> {
        let (cursor, passed) = (&self.cursor, self.passed);
        match when {
            When::Refused => {
                Ok(self.is_here() && !cursor.eof() && cursor.is_root() == (passed == 0))
            }
            When::Done => Ok(passed == self.list.len() && cursor.token_tree().is_none()),
        }
    }
}

impl Walking<'_> {
    // Whether the cursor is at the first token that it has not passed.
    fn is_here(&self) -> bool {
        self.cursor.token_tree().as_ref() == self.list.get(self.passed)
    }

    // Goes one place on.
    fn go_on(&mut self) -> Result<(), TtFault> {
        if self.both {
            return self.cursor.bump_or_end();
        }
        if self.cursor.token_tree().is_some() {
            return self.cursor.bump();
        }
        Ok(())
    }
}

// A walk into all subtrees of a list, and how many headers are behind it.
#[derive(Drop)]
struct Entering<'a> {
    list: &'a [TokenTree],
    walk: TreeWalk,
    passed: usize,
}

impl Call for Entering<'_> {
    fn make(&mut self) -> Result<bool, TtFault> {
        for _ in self.passed..self.list.len() {
            let header = self.walk.enter()?;
            if header.map(TokenTree::from).as_ref() != self.list.get(self.passed) {
                return Ok(false);
            }
            self.passed = self.passed.saturating_add(1);
        }
        Ok(true)
    }

    fn is_left(&self, when: When) -> Result<bool, TtFault> {
        let left = self.list.len().saturating_sub(self.passed);
        let are_left = self.walk.rest().remaining().len() == left;
        match when {
            When::Refused => Ok(are_left),
            When::Done => Ok(are_left && left == 0),
        }
    }
}
