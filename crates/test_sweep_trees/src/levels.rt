//! The levels of a list, which take it token by token.
use std::alloc::Global;
use test_sweep::{Call, When, judge, plus_list};
use tt::{Levels, TokenTree, TtFault};

/// How the taking of a whole list ended.
pub fn judged<R: Print>(rt: &R, alloc: Global) -> Result<&'static str, TtFault> {
    let list = plus_list(alloc)?;
    let mut levels = Levels::new(alloc, list.len());
    let mut call = Taking {
        list: &list,
        levels: &mut levels,
        taken: 0,
    };
    Ok(judge(rt, &mut call))
}

// A list, its levels, and how many of its tokens they have taken.
#[derive(Drop)]
struct Taking<'a> {
    list: &'a [TokenTree],
    levels: &'a mut Levels,
    taken: usize,
}

impl Call for Taking<'_> {
    // A token that is refused is not taken, and is offered again.
    fn make(&mut self) -> Result<bool, TtFault> {
        for _ in self.taken..self.list.len() {
            let Some(token) = self.list.get(self.taken) else {
                return Ok(false);
            };
            if !self.levels.take(token)? {
                return Ok(false);
            }
            self.taken = self.taken.saturating_add(1);
        }
        Ok(true)
    }

    fn is_left(&self, when: When) -> Result<bool, TtFault> {
        match when {
            When::Refused => Ok(self.taken < self.list.len() && !self.levels.is_done()),
            When::Done => Ok(self.levels.is_done()),
        }
    }
}
