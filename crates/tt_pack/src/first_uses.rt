//! The parts that interned tokens use, by their places, in the order of first uses.
ghost use Rattle.std.specs.Prelude.{◌≡◌, ◌<◌, ◌≤◌, ◌^◌, ◌+◌, [], true, false, All, nat_eq, nat_lt, fold, length, count_by, IfOk, IfSome, IfNone, OnOk};
ghost use Rattle.std.specs.Bool.{OnTrue};
ghost use Rattle.std.specs.List.{list_any, range_with_len};
ghost use Rattle.tt_tables.specs.TableOrder.{different};
ghost use Rattle.tt_pack.specs.Counted.{note_value};
ghost use Rattle.tt_pack.specs.Places.{leaf_place, token_places, places_from, part_places, IsWithin, AreRanked, HasOutOfTurn};

use std::alloc::{AllocError, Global};
use tt_codec::LeafEntry;
use tt_tables::InternedToken;

/// The places of the used parts in the order of first uses, and the rank of each in this order.
#[derive(Drop)]
pub(crate) struct FirstUses {
    /// The places, by rank.
    pub(crate) order: Vec<u32>,
    /// The ranks, by place. The rank of a part that is not used has no meaning.
    pub(crate) ranks: Vec<u32>,
}

/// Returns how many of the numbers are above 0.
pub(crate) fn count_used(numbers: &[usize]) -> usize
    ensures { result ≡ count_by (nat_lt 0) numbers.now }
{
    let mut used = 0;
    for index in 0..numbers.len() {
        if numbers[index] > 0 {
            used += 1;
        }
    }
    used
}

// Returns the place of a leaf's part.
#[inline(always)]
fn leaf_place(entry: &LeafEntry) -> u32
    ensures { result ≡ leaf_place entry.now }
{
    match entry {
        LeafEntry::Punct(_, _, numbers) => numbers.part,
        LeafEntry::Ident(_, _, numbers) => numbers.part,
        LeafEntry::Literal(_, _, _, numbers) => numbers.part,
    }
}

// Returns the places of a token's parts: for a header its open part, then its close part.
#[inline(always)]
fn token_places(token: &InternedToken) -> (u32, Option<u32>)
    ensures { token_places token.now ≡ places_from result.0 result.1 }
{
    match token {
        InternedToken::Leaf(entry) => (leaf_place(entry), None),
        InternedToken::Open(_, opening) => (opening.part, None),
        InternedToken::Header(entry) => (entry.opening.part, Some(entry.closing.part)),
    }
}

// Returns how many of the first places are used after the next use, which is at a place, or `None` if that use is out of order.
#[inline(always)]
fn met_with(met: usize, place: u32) -> Option<usize>
    ensures turn { IfSome result (λ more. note_value nat_eq (range_with_len 0 met) place ≡ range_with_len 0 more) }
    ensures none { IfNone result (HasOutOfTurn (note_value nat_eq (range_with_len 0 met) place)) }
{
    let place = place as usize;
    if place < met {
        return Some(met);
    }
    if place > met {
        return None;
    }
    Some(place + 1)
}

// The same for all that the next token uses.
#[inline(always)]
fn met_with_token(met: usize, token: &InternedToken) -> Option<usize>
    ensures turn { IfSome result (λ more. fold (note_value nat_eq) (range_with_len 0 met) (token_places token.now) ≡ range_with_len 0 more) }
    ensures none { IfNone result (HasOutOfTurn (fold (note_value nat_eq) (range_with_len 0 met) (token_places token.now))) }
{
    let (first, second) = token_places(token);
    let met = met_with(met, first)?;
    match second {
        Some(place) => met_with(met, place),
        None => Some(met),
    }
}

/// Returns whether the used parts are in the order of first uses already: the first one at the place 0, the second at 1, and so on. There
/// are `used` of them. Stops as soon as all were used, or at the first one out of order.
#[inline(never)]
pub(crate) fn stand_by_first_use(tokens: &[InternedToken], used: usize) -> bool
    requires { used ≡ length (different nat_eq (part_places tokens.now)) }
    ensures yes { OnTrue result (different nat_eq (part_places tokens.now) ≡ range_with_len 0 used) }
    ensures no { result ≡ false → HasOutOfTurn (different nat_eq (part_places tokens.now)) }
{
    let mut met = 0;
    for token in tokens {
        if met == used {
            return true;
        }
        let Some(more) = met_with_token(met, token) else {
            return false;
        };
        met = more;
    }
    met == used
}

impl FirstUses {
    // Returns whether the part at the place was used so far.
    #[inline(always)]
    fn is_met(&self, place: u32) -> bool
        requires within { place < length self.now.ranks.items }
        requires ranked { AreRanked self.now.order.items self.now.ranks.items }
        ensures { result ≡ list_any (λ other. nat_eq other place) self.now.order.items }
    {
        let rank = self.ranks[place as usize] as usize;
        if rank >= self.order.len() {
            return false;
        }
        self.order[rank] == place
    }

    // Notes the next use of a part.
    #[inline(always)]
    fn meet(&mut self, place: u32) -> Result<(), AllocError>
        requires within { place < length self.old.ranks.items }
        requires few { length self.old.order.items < 2 ^ 32 }
        requires ranked { AreRanked self.old.order.items self.old.ranks.items }
        ensures order { OnOk result (self.new.order.items ≡ note_value nat_eq self.old.order.items place) }
        ensures ranked { OnOk result (AreRanked self.new.order.items self.new.ranks.items) }
        ensures places { length self.new.ranks.items ≡ length self.old.ranks.items }
        ensures few { length self.new.order.items ≤ length self.old.order.items + 1 }
    {
        if self.is_met(place) {
            return Ok(());
        }
        self.ranks[place as usize] = self.order.len() as u32;
        self.order.push(place)?;
        Ok(())
    }

    // Notes all that the next token uses.
    #[inline(always)]
    fn meet_token(&mut self, token: &InternedToken) -> Result<(), AllocError>
        requires within { IsWithin (length self.old.ranks.items) token.now }
        requires few { length self.old.order.items + 1 < 2 ^ 32 }
        requires ranked { AreRanked self.old.order.items self.old.ranks.items }
        ensures order { OnOk result (self.new.order.items ≡ fold (note_value nat_eq) self.old.order.items (token_places token.now)) }
        ensures ranked { OnOk result (AreRanked self.new.order.items self.new.ranks.items) }
        ensures places { length self.new.ranks.items ≡ length self.old.ranks.items }
    {
        let (first, second) = token_places(token);
        self.meet(first)?;
        match second {
            Some(place) => self.meet(place),
            None => Ok(()),
        }
    }

    // Notes all that the tokens use, until all used parts are noted. None is noted before.
    #[inline(never)]
    fn meet_list(&mut self, tokens: &[InternedToken], used: usize) -> Result<(), AllocError>
        requires within { All (IsWithin (length self.old.ranks.items)) tokens.now }
        requires used { used ≡ length (different nat_eq (part_places tokens.now)) }
        requires few { used < 2 ^ 31 }
        requires order { self.old.order.items ≡ [] }
        ensures order { OnOk result (self.new.order.items ≡ different nat_eq (part_places tokens.now)) }
        ensures ranked { OnOk result (AreRanked self.new.order.items self.new.ranks.items) }
        ensures places { length self.new.ranks.items ≡ length self.old.ranks.items }
    {
        for token in tokens {
            if self.order.len() >= used {
                return Ok(());
            }
            self.meet_token(token)?;
        }
        Ok(())
    }

    /// Returns the order of the parts that the tokens use. There are `used` of them, among all parts that they can name. Reads the tokens
    /// only up to the last first use. Fails only if memory runs out.
    pub(crate) fn of_tokens(
        alloc: Global,
        tokens: &[InternedToken],
        parts: usize,
        used: usize,
    ) -> Result<FirstUses, AllocError>
        requires within { All (IsWithin parts) tokens.now }
        requires used { used ≡ length (different nat_eq (part_places tokens.now)) }
        requires few { used < 2 ^ 31 }
        ensures order { IfOk result (λ uses. uses.order.items ≡ different nat_eq (part_places tokens.now)) }
        ensures ranked { IfOk result (λ uses. AreRanked uses.order.items uses.ranks.items) }
        ensures places { IfOk result (λ uses. length uses.ranks.items ≡ parts) }
    {
        let mut uses = FirstUses {
            order: Vec::with_capacity(alloc, used)?,
            ranks: Vec::from_elem(alloc, 0, parts)?,
        };
        uses.meet_list(tokens, used)?;
        Ok(uses)
    }
}
