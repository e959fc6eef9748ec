//! Different values, each at a place of its own, and how many times each is used.
ghost use Rattle.std.specs.Prelude.{◌≡◌, ◌+◌, ◌<◌, ◌^◌, [], ◌∷◌, ℕ, suc, true, List, None, Some, drop, length, slice_get, IfOk, OnOk, OnErr};
ghost use Rattle.std.specs.Bool.{OnTrue};
ghost use Rattle.std.specs.List.{AllByRecursion, IsDistinct};
ghost use Rattle.std.specs.Map.{keys_of, values_of};
ghost use Rattle.std.proofs.Props.{props};
ghost use Rattle.tt_tables.specs.TableOrder.{different};
ghost use Rattle.tt_tables.specs.Counts.{number_in, used_count, CountsUses, CountsMore};
ghost use Rattle.tt_tables.specs.Entries.{with_entry};

use indexmap::IndexMap;
use std::alloc::{AllocError, Global};
use std::hash::Hash;

// The number of values for which the first value makes room. One more value makes room for many.
const FEW_VALUES: usize = 18;

const MANY_VALUES: usize = 288;

// Returns whether the value is at the index.
#[inline(always)]
fn is_at<T: Eq>(values: &[T], index: usize, value: &T) -> bool
    requires { (x y : T) → T.eq x y ≡ true → x ≡ y }
    ensures { OnTrue result (slice_get values.now index ≡ Some value.now) }
{
    if index >= values.len() {
        return false;
    }
    values[index] == *value
}

// Returns how many numbers there are up to the last one that is not 0.
fn len_to_last_used(numbers: &[usize]) -> usize
    ensures unused { AllByRecursion (λ number. number ≡ 0) (drop result numbers.now) }
    ensures ends_used { (k : ℕ) → result ≡ suc k → (number : ℕ) × (slice_get numbers.now k ≡ Some number) × (0 < number) }
{
    for unused in 0..numbers.len() {
        let len = numbers.len() - unused;
        if numbers[len - 1] != 0 {
            return len;
        }
    }
    0
}

// Makes room before a new value, for few values or for many. A map that grows by itself doubles, and moves all its entries each time.
fn reserve_more<T: Eq + Hash>(entries: &mut IndexMap<T, usize>, value: &T) -> Result<(), AllocError>
    ensures { entries.new.entries ≡ entries.old.entries }
{
    match entries.len() {
        0 => entries.reserve(FEW_VALUES),
        FEW_VALUES if !entries.contains_key(value) => entries.reserve(MANY_VALUES - FEW_VALUES),
        _ => Ok(()),
    }
}

// Returns the index of a value. A new value comes last, with no uses. One call finds or inserts it, so that its hash is computed once.
#[inline(always)]
fn insert<T: Eq + Hash + Clone + Drop>(
    entries: &mut IndexMap<T, usize>,
    value: &T,
) -> Result<usize, AllocError>
    requires copies { (x y : T) → T.is_clone x y → y ≡ x }
    requires same { (x y : T) → T.eq x y ≡ true → x ≡ y }
    ensures ok { OnOk result (entries.new.entries ≡ with_entry T.eq entries.old.entries value.now) }
    ensures err { OnErr result (entries.new.entries ≡ entries.old.entries) }
    ensures index { IfOk result (λ index. slice_get (keys_of entries.new.entries) index ≡ Some value.now) }
    ensures distinct { OnOk result (IsDistinct T.eq (keys_of entries.new.entries)) }
{
    reserve_more(entries, value)?;
    let (index, uses) = entries.insert_full(value.clone()?, 0)?;
    if let Some(uses) = uses {
        entries[index] = uses;
    }
    Ok(index)
}

/// Different values, each at a place of its own, and how many times each is used. They are in the order in which they came first. A value
/// may have no uses.
#[derive(Drop, Debug)]
pub struct Interner<T: Eq + Hash> {
    /// Each value, with its number of uses.
    pub entries: IndexMap<T, usize>,
    // the number of values that have uses
    used: usize,
    // the place that `place_near` returned last
    last: u32,
    pub ghost distinct: { IsDistinct T.eq (keys_of entries.entries) } by { Prim.hlevel props },
    ghost tallied: { used ≡ used_count entries.entries },
}

impl<T: Eq + Hash + Clone + Drop> Interner<T> {
    ghost use Rattle.tt_tables.specs.Interner.{entries_of};
    ghost use Rattle.tt_tables.specs.Entries.{IsCut};

    /// Returns an empty interner. Takes no memory.
    pub fn new(alloc: Global) -> Interner<T>
        ensures { entries_of result ≡ [] }
    {
        Interner {
            entries: IndexMap::new(alloc),
            used: 0,
            last: 0,
        }
    }

    /// Returns the place of a value. A new value comes last, with no uses. Fails, and changes nothing, if there are 2^32 values already,
    /// or if memory runs out.
    #[inline(never)]
    pub fn place_of(&mut self, value: &T) -> Result<u32, AllocError>
        requires copies { (x y : T) → T.is_clone x y → y ≡ x }
        requires same { (x y : T) → T.eq x y ≡ true → x ≡ y }
        ensures ok { OnOk result (entries_of self.new ≡ with_entry T.eq (entries_of self.old) value.now) }
        ensures err { OnErr result (entries_of self.new ≡ entries_of self.old) }
        ensures stays { CountsMore T.eq [] (entries_of self.old) (entries_of self.new) }
        ensures place { IfOk result (λ place. slice_get (keys_of (entries_of self.new)) place ≡ Some value.now) }
    {
        if self.entries.len() > u32::MAX as usize {
            return Err(AllocError);
        }
        let index = insert(&mut self.entries, value)?;
        Ok(index as u32)
    }

    /// The same, but looks first at `place`.
    #[inline(always)]
    pub fn place_at(&mut self, place: u32, value: &T) -> Result<u32, AllocError>
        requires copies { (x y : T) → T.is_clone x y → y ≡ x }
        requires same { (x y : T) → T.eq x y ≡ true → x ≡ y }
        ensures ok { OnOk result (entries_of self.new ≡ with_entry T.eq (entries_of self.old) value.now) }
        ensures err { OnErr result (entries_of self.new ≡ entries_of self.old) }
        ensures stays { CountsMore T.eq [] (entries_of self.old) (entries_of self.new) }
        ensures place { IfOk result (λ place. slice_get (keys_of (entries_of self.new)) place ≡ Some value.now) }
    {
        if is_at(self.values(), place as usize, value) {
            return Ok(place);
        }
        self.place_of(value)
    }

    /// The same, but looks first at the place that this function returned last.
    #[inline(always)]
    pub fn place_near(&mut self, value: &T) -> Result<u32, AllocError>
        requires copies { (x y : T) → T.is_clone x y → y ≡ x }
        requires same { (x y : T) → T.eq x y ≡ true → x ≡ y }
        ensures ok { OnOk result (entries_of self.new ≡ with_entry T.eq (entries_of self.old) value.now) }
        ensures err { OnErr result (entries_of self.new ≡ entries_of self.old) }
        ensures stays { CountsMore T.eq [] (entries_of self.old) (entries_of self.new) }
        ensures place { IfOk result (λ place. slice_get (keys_of (entries_of self.new)) place ≡ Some value.now) }
    {
        let place = self.place_at(self.last, value)?;
        self.last = place;
        Ok(place)
    }

    /// Adds one use of the value at a place. Does nothing if there is no value.
    #[inline(always)]
    pub fn add_at(&mut self, place: u32)
        requires same { (x y : T) → T.eq x y ≡ true → x ≡ y }
        requires room { (x : T) → number_in T.eq (entries_of self.old) x + 1 < 2 ^ 64 }
        ensures more { (x : T) → slice_get (keys_of (entries_of self.old)) place ≡ Some x → CountsMore T.eq (x ∷ []) (entries_of self.old) (entries_of self.new) }
        ensures values { keys_of (entries_of self.new) ≡ keys_of (entries_of self.old) }
        ensures none { slice_get (keys_of (entries_of self.old)) place ≡ None → entries_of self.new ≡ entries_of self.old }
    {
        let index = place as usize;
        if index >= self.entries.len() {
            return;
        }
        let (_, uses) = self.entries.pair_mut(index);
        // No branch, since a processor cannot predict which value is new.
        self.used += usize::from(*uses == 0);
        *uses += 1;
    }

    /// Removes one use of the value at a place, which has at least one. Does nothing if there is no value.
    #[inline(always)]
    pub fn take_at(&mut self, place: u32)
        requires same { (x y : T) → T.eq x y ≡ true → x ≡ y }
        requires some { (x : T) → slice_get (keys_of (entries_of self.old)) place ≡ Some x → 0 < number_in T.eq (entries_of self.old) x }
        ensures less { (x : T) → slice_get (keys_of (entries_of self.old)) place ≡ Some x → CountsMore T.eq (x ∷ []) (entries_of self.new) (entries_of self.old) }
        ensures values { keys_of (entries_of self.new) ≡ keys_of (entries_of self.old) }
        ensures none { slice_get (keys_of (entries_of self.old)) place ≡ None → entries_of self.new ≡ entries_of self.old }
    {
        let index = place as usize;
        if index >= self.entries.len() {
            return;
        }
        let (_, uses) = self.entries.pair_mut(index);
        self.used -= usize::from(*uses == 1);
        *uses -= 1;
    }

    /// Drops the last values up to one that has uses, so that the next new value comes right after a used one.
    pub fn drop_last_unused(&mut self)
        ensures cut { IsCut (entries_of self.old) (entries_of self.new) }
        ensures numbers { (x : T) → number_in T.eq (entries_of self.new) x ≡ number_in T.eq (entries_of self.old) x }
    {
        let len = len_to_last_used(self.numbers());
        self.entries.truncate(len);
    }

    /// Returns the values, in the order of their places.
    pub fn values(&self) -> &[T]
        ensures { result.now ≡ keys_of (entries_of self.now) }
    {
        self.entries.keys().as_slice()
    }

    /// Returns the number of uses of each value, in the order of their places.
    pub fn numbers(&self) -> &[usize]
        ensures { result.now ≡ values_of (entries_of self.now) }
    {
        self.entries.values().as_slice()
    }

    /// Returns the number of uses of a value.
    pub fn uses(&self, value: &T) -> usize
        ensures { result ≡ number_in T.eq (entries_of self.now) value.now }
    {
        match self.entries.get(value) {
            Some(uses) => *uses,
            None => 0,
        }
    }

    /// Returns how many different values have uses.
    pub fn used(&self) -> usize
        requires { (x y : T) → T.eq x y ≡ true → x ≡ y }
        ensures { (uses : List T) → CountsUses T.eq uses (entries_of self.now) → result ≡ length (different T.eq uses) }
    {
        self.used
    }

    /// Returns a copy with the same values at the same places, and the same numbers of uses. Fails only if memory runs out.
    pub fn clone(&self) -> Result<Interner<T>, AllocError>
        requires { (x y : T) → T.is_clone x y → y ≡ x }
        ensures { IfOk result (λ copy. entries_of copy ≡ entries_of self.now) }
    {
        Ok(Interner {
            entries: self.entries.clone()?,
            used: self.used,
            last: self.last,
        })
    }
}
