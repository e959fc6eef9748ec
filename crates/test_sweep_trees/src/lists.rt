//! Calls that take a list, and hand it back if they are refused; and calls that borrow one.
use std::alloc::Global;
use std::mem;
use test_sweep::{Call, When, is_of, judge, plus_list, taken};
use tt::{TokenTree, TopSubtree, TtFault, is_one_subtree};
use tt_pack::Packed;

/// How that call of the group ended.
pub fn judged<R: Print>(rt: &R, alloc: Global, call: &str) -> Result<&'static str, TtFault> {
    let copy = plus_list(alloc)?;
    let mut call = OfList {
        call,
        alloc,
        copy: &copy,
        list: plus_list(alloc)?,
    };
    Ok(judge(rt, &mut call))
}

// A call that takes a list or is lent one, of which there is a copy.
#[derive(Drop)]
struct OfList<'a> {
    call: &'a str,
    alloc: Global,
    copy: &'a [TokenTree],
    list: Vec<TokenTree>,
}

impl Call for OfList<'_> {
    fn make(&mut self) -> Result<bool, TtFault> {
        let alloc = self.alloc;
        let tree = match self.call {
            "is_one_subtree" => return Ok(is_one_subtree(alloc, &self.list)?),
            "from_serialized" => {
                taken(
                    TopSubtree::from_serialized(alloc, self.take()),
                    &mut self.list,
                )?
            }
            "pack" => {
                TopSubtree::from_packed(taken(Packed::pack(alloc, self.take()), &mut self.list)?)
            }
            "of_list" => TopSubtree::from_packed(Packed::of_list(alloc, &self.list)?),
            "from_tokens" => TopSubtree::from_tokens(alloc, &self.list)?,
            _ => return Ok(false),
        };
        Ok(is_of(&tree, self.copy))
    }

    // A list that is lent stays, and so does one that is handed back.
    fn is_left(&self, when: When) -> Result<bool, TtFault> {
        match (when, self.call) {
            (When::Done, "from_serialized" | "pack") => Ok(self.list.is_empty()),
            _ => Ok(self.list.as_slice() == self.copy),
        }
    }
}

impl OfList<'_> {
    // The list, for a call that takes it.
    fn take(&mut self) -> Vec<TokenTree> {
        mem::replace(&mut self.list, Vec::new(self.alloc))
    }
}
