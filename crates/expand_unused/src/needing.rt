//! What a text needs of the macros that it defines.
ghost use Rattle.std.specs.Prelude.{◌≡◌, ◌++◌, ◌+◌, ◌∷◌, [], ℕ, List, IfOk, OnOk, MatchOption, None, Some, map, option_map, bytes_eq, is_some, if◌then◌else◌};
ghost use Rattle.indexmap.specs.IndexMap.{index_map_len};
ghost use Rattle.expand_unused.specs.Needing.{AreRight};
ghost use Rattle.expand_unused.specs.Parts.{Part as PartOf, part_of};
ghost use Rattle.expand_unused.specs.Waiting.{waiting_in, waits_in, words_of, words_outside, IsWaiting, GoesOn};

use crate::part::Part;
use indexmap::IndexMap;
use std::alloc::{AllocError, Global};
use tt::Symbol;

// Adds words.
fn add_words(words: &mut Vec<Symbol>, more: &[Symbol]) -> Result<(), AllocError>
    ensures { OnOk result (words.new.items ≡ words.old.items ++ more.now) }
{
    for word in more {
        words.push(word.clone()?)?;
    }
    Ok(())
}

// Returns the words that wait under a name, and removes them.
fn take(waiting: &mut IndexMap<Symbol, Vec<Symbol>>, name: &Symbol) -> Option<Vec<Symbol>>
    ensures words { option_map (λ words. words.items) result ≡ waiting_in waiting.old name.now }
    ensures others { (other : List ℕ) → waiting_in waiting.new other ≡ (if bytes_eq name.now other then None else waiting_in waiting.old other) }
    ensures len { index_map_len waiting.new + (if is_some result then 1 else 0) ≡ index_map_len waiting.old }
{
    waiting.swap_remove(name)
}

// The same, or no words if none wait.
fn take_words(
    alloc: Global,
    waiting: &mut IndexMap<Symbol, Vec<Symbol>>,
    name: &Symbol,
) -> Vec<Symbol>
    ensures words { result.items ≡ words_of (waiting_in waiting.old name.now) }
    ensures others { (other : List ℕ) → waiting_in waiting.new other ≡ (if bytes_eq name.now other then None else waiting_in waiting.old other) }
{
    match take(waiting, name) {
        Some(words) => words,
        None => Vec::new(alloc),
    }
}

// Adds a definition of that name to the waiting ones, with the words in its arms.
fn wait(
    alloc: Global,
    waiting: &mut IndexMap<Symbol, Vec<Symbol>>,
    name: Symbol,
    inside: &[Symbol],
) -> Result<(), AllocError>
    ensures { OnOk result ((other : List ℕ) → waiting_in waiting.new other ≡ (if bytes_eq name other then Some (words_of (waiting_in waiting.old name) ++ inside.now) else waiting_in waiting.old other)) }
{
    let mut words = take_words(alloc, waiting, &name);
    add_words(&mut words, inside)?;
    waiting.insert(name, words)?;
    Ok(())
}

// Adds a part of a text to the waiting ones, if it may go.
fn wait_part(
    alloc: Global,
    waiting: &mut IndexMap<Symbol, Vec<Symbol>>,
    part: &Part,
) -> Result<(), AllocError>
    ensures { OnOk result ((parts : List PartOf) → IsWaiting parts (waiting_in waiting.old) → IsWaiting (parts ++ part_of part.now ∷ []) (waiting_in waiting.new)) }
{
    match part {
        Part::Word(_) => Ok(()),
        Part::Rules(rules) => {
            let name = rules.name.clone()?;
            wait(alloc, waiting, name, rules.inside.as_slice())?;
            Ok(())
        }
    }
}

// Returns all definitions that may go, as waiting ones.
fn all_waiting(alloc: Global, parts: &[Part]) -> Result<IndexMap<Symbol, Vec<Symbol>>, AllocError>
    ensures { IfOk result (λ waiting. IsWaiting (map part_of parts.now) (waiting_in waiting)) }
{
    let mut waiting = IndexMap::new(alloc);
    for part in parts {
        wait_part(alloc, &mut waiting, part)?;
    }
    Ok(waiting)
}

// Returns the words outside of them.
fn words_outside(alloc: Global, parts: &[Part]) -> Result<Vec<Symbol>, AllocError>
    ensures { IfOk result (λ words. words.items ≡ words_outside (map part_of parts.now)) }
{
    let mut words = Vec::new(alloc);
    for part in parts {
        if let Part::Word(word) = part {
            words.push(word.clone()?)?;
        }
    }
    Ok(words)
}

// Takes names from `needed` up to the first one under which words wait, and returns those words.
fn next_needed(
    waiting: &mut IndexMap<Symbol, Vec<Symbol>>,
    needed: &mut Vec<Symbol>,
) -> Option<Vec<Symbol>>
    ensures goes { GoesOn (waiting_in waiting.old) (waiting_in waiting.new) needed.old.items (needed.new.items ++ words_of (option_map (λ words. words.items) result)) }
    ensures len { index_map_len waiting.new + (if is_some result then 1 else 0) ≡ index_map_len waiting.old }
    ensures last { MatchOption result (needed.new.items ≡ []) (λ _. Unit {0}) }
{
    while let Some(name) = needed.pop() {
        if let Some(words) = take(waiting, &name) {
            return Some(words);
        }
    }
    None
}

// Removes from the waiting names all that these names need.
fn settle(
    waiting: &mut IndexMap<Symbol, Vec<Symbol>>,
    mut needed: Vec<Symbol>,
) -> Result<(), AllocError>
    ensures { OnOk result (GoesOn (waiting_in waiting.old) (waiting_in waiting.new) needed.items []) }
{
    while let Some(mut words) = next_needed(waiting, &mut needed) {
        needed.append(&mut words)?;
    }
    Ok(())
}

/// Returns the names of the macros that may go and are not needed.
pub(crate) fn unneeded(
    alloc: Global,
    parts: &[Part],
) -> Result<IndexMap<Symbol, Vec<Symbol>>, AllocError>
    ensures { IfOk result (λ waiting. AreRight (waits_in waiting) (map part_of parts.now)) }
{
    let mut waiting = all_waiting(alloc, parts)?;
    let needed = words_outside(alloc, parts)?;
    settle(&mut waiting, needed)?;
    Ok(waiting)
}
