//! Calls that take the counts of the values in their list.
ghost use Rattle.std.specs.Prelude.{◌≡◌, [], bytes_eq, drop};
ghost use Rattle.tt_tables.specs.Counts.{CountsUses};
ghost use Rattle.tt_tables.specs.Uses.{same_part, part_uses, symbol_uses};

use crate::counts::add_all;
use indexmap::IndexMap;
use std::alloc::Global;
use test_sweep::{Call, When, is_of, judge, plus_list};
use tt::{Refused, SpanPart, Symbol, TokenTree, TopSubtree, TtFault};
use tt_pack::Packed;

/// How that call of the group ended.
pub fn judged<R: Print>(rt: &R, alloc: Global, call: &str) -> Result<&'static str, TtFault> {
    let mut parts = IndexMap::new(alloc);
    let mut symbols = IndexMap::new(alloc);
    judged_by(rt, alloc, call, &mut parts, &mut symbols)
}

// More than any list here has.
const MOST_TOKENS: usize = 1000;

// The same, given two maps in which nothing is counted yet.
fn judged_by<R: Print>(
    rt: &R,
    alloc: Global,
    call: &str,
    parts: &mut IndexMap<SpanPart, usize>,
    symbols: &mut IndexMap<Symbol, usize>,
) -> Result<&'static str, TtFault>
    requires parts { parts.old.entries ≡ [] }
    requires symbols { symbols.old.entries ≡ [] }
{
    let copy = plus_list(alloc)?;
    let counted = Counted::new(plus_list(alloc)?, parts, symbols)?;
    Ok(judged_of(rt, alloc, call, &copy, counted))
}

// The same of a list that is counted, given a copy of it.
fn judged_of<'a, R: Print>(
    rt: &R,
    alloc: Global,
    call: &'a str,
    copy: &'a [TokenTree],
    counted: Counted<'a>,
) -> &'static str {
    let counted = Some(counted);
    let mut call = OfCounted {
        call,
        alloc,
        copy,
        counted,
    };
    judge(rt, &mut call)
}

// A list, and how often each part and each symbol is used below its first token.
#[derive(Drop)]
struct Counted<'a> {
    list: Vec<TokenTree>,
    parts: &'a IndexMap<SpanPart, usize>,
    symbols: &'a IndexMap<Symbol, usize>,
    ghost part_counts: { CountsUses same_part (part_uses (drop 1 list.items)) parts.now.entries },
    ghost symbol_counts: { CountsUses bytes_eq (symbol_uses (drop 1 list.items)) symbols.now.entries },
}

impl<'a> Counted<'a> {
    // The list, counted into two maps in which nothing is counted yet.
    fn new(
        list: Vec<TokenTree>,
        parts: &'a mut IndexMap<SpanPart, usize>,
        symbols: &'a mut IndexMap<Symbol, usize>,
    ) -> Result<Counted<'a>, TtFault>
        requires parts { parts.old.entries ≡ [] }
        requires symbols { symbols.old.entries ≡ [] }
    {
        match list.split_first() {
            Some((_top, below)) if below.len() < MOST_TOKENS => add_all(parts, symbols, below)?,
            _ => return Err(TtFault::NotOneSubtree),
        }
        Ok(Counted {
            list,
            parts,
            symbols,
        })
    }

    // The list packed, or handed back with its counts.
    fn packed(self, alloc: Global) -> Result<Packed, Refused<Counted<'a>>> {
        let Counted {
            list,
            parts,
            symbols,
        } = self;
        match Packed::pack_counted(alloc, list, parts, symbols) {
            Ok(packed) => Ok(packed),
            Err(refused) => Err(Refused {
                fault: refused.fault,
                value: Counted {
                    list: refused.value,
                    parts,
                    symbols,
                },
            }),
        }
    }
}

// A call that takes the counts of values, the list that it takes or borrows, and a copy of that.
#[derive(Drop)]
struct OfCounted<'a> {
    call: &'a str,
    alloc: Global,
    copy: &'a [TokenTree],
    counted: Option<Counted<'a>>,
}

impl Call for OfCounted<'_> {
    fn make(&mut self) -> Result<bool, TtFault> {
        let packed = match self.call {
            "pack_counted" => self.pack()?,
            "of_list_counted" => self.of_list()?,
            _ => return Ok(false),
        };
        Ok(is_of(&TopSubtree::from_packed(packed), self.copy))
    }

    // `pack_counted` takes the list, and `of_list_counted` is lent it.
    fn is_left(&self, when: When) -> Result<bool, TtFault> {
        match (when, self.call, &self.counted) {
            (When::Done, "pack_counted", None) => Ok(true),
            (When::Done, "pack_counted", Some(_)) | (_, _, None) => Ok(false),
            (_, _, Some(counted)) => Ok(counted.list.as_slice() == self.copy),
        }
    }
}

impl OfCounted<'_> {
    fn pack(&mut self) -> Result<Packed, TtFault> {
        let Some(counted) = self.counted.take() else {
            return Err(TtFault::NoSuchPlace);
        };
        match counted.packed(self.alloc) {
            Ok(packed) => Ok(packed),
            Err(refused) => {
                self.counted = Some(refused.value);
                Err(refused.fault)
            }
        }
    }

    fn of_list(&self) -> Result<Packed, TtFault> {
        match &self.counted {
            Some(counted) => {
                Packed::of_list_counted(self.alloc, &counted.list, counted.parts, counted.symbols)
            }
            None => Err(TtFault::NoSuchPlace),
        }
    }
}
