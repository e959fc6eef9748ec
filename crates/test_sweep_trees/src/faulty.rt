//! Calls that are wrong, each in one way: the judge must find each wrong.
use std::alloc::Global;
use std::mem;
use test_sweep::{Call, When, judge, plus_list, span};
use tt::{DelimSpan, Symbol, TokenTree, TopSubtree, TtFault};

/// How that call of the group ended.
pub fn judged<R: Print>(rt: &R, alloc: Global, call: &str) -> Result<&'static str, TtFault> {
    let mut list = plus_list(alloc)?;
    let len = list.len();
    let mut call = Faulty {
        call,
        alloc,
        list: &mut list,
        len,
    };
    Ok(judge(rt, &mut call))
}

// A call that must request memory and then take the last token off a list, and how long the list was. Its name is its flaw.
#[derive(Drop)]
struct Faulty<'a> {
    call: &'a str,
    alloc: Global,
    list: &'a mut Vec<TokenTree>,
    len: usize,
}

impl Call for Faulty<'_> {
    fn make(&mut self) -> Result<bool, TtFault> {
        let alloc = self.alloc;
        match self.call {
            // it changes its list before it asks, and leaves it so if memory is refused
            "forgets_to_undo" => {
                self.list.pop();
                ask(alloc)?;
                return Ok(true);
            }
            "always_refused" => {
                ask(alloc)?;
                return Err(TtFault::Memory);
            }
            "another_fault" if ask(alloc).is_err() => return Err(TtFault::TooManyBytes),
            "hides_refusal" => {
                let _ = ask(alloc);
            }
            "changes_nothing" => {
                ask(alloc)?;
                return Ok(true);
            }
            "leaks" => leak(alloc)?,
            "leaks_where_refused" => leak_where_refused(alloc)?,
            "another_fault" | "never_asks" => {}
            _ => return Ok(false),
        }
        self.list.pop();
        Ok(true)
    }

    fn is_left(&self, when: When) -> Result<bool, TtFault> {
        match when {
            When::Refused => Ok(self.list.len() == self.len),
            When::Done => Ok(self.list.len() < self.len),
        }
    }
}

// Requests memory, and gives it back.
fn ask(alloc: Global) -> Result<(), TtFault> {
    TopSubtree::empty(alloc, DelimSpan::from_single(span(0)))?;
    Ok(())
}

// Requests memory, and never gives it back.
fn leak(alloc: Global) -> Result<(), TtFault> {
    mem::forget(Symbol::new(alloc, "leaked")?);
    Ok(())
}

// Requests memory and then more, and gives the first back only if it gets that.
fn leak_where_refused(alloc: Global) -> Result<(), TtFault> {
    let symbol = Symbol::new(alloc, "leaked")?;
    match ask(alloc) {
        Ok(()) => Ok(()),
        Err(fault) => {
            mem::forget(symbol);
            Err(fault)
        }
    }
}
