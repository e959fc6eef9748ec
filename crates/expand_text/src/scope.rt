//! The macros in scope.
ghost use Rattle.std.specs.Prelude.{◌≡◌, ◌++◌, ◌∷◌, ◌-◌, [], ℕ, List, take, length, map, bytes_eq, option_copied, OnOk, OnErr, IsSome, Some};
ghost use Rattle.std.proofs.Props.{props};
ghost use Rattle.indexmap.specs.IndexMap.{get, Updates};
ghost use Rattle.expand_text.specs.LastPlaces.{last_place, links_of};

use crate::fault::MacroFault;
use indexmap::IndexMap;
use mbe_rules::MacroRules;
use std::alloc::{AllocError, Global};
use tt::Symbol;

/// A macro in scope: its name, and its rules unless it is left as it is.
#[derive(Drop)]
pub(crate) struct Macro {
    pub(crate) name: Symbol,
    /// The byte of the text at which the name begins in the definition.
    pub(crate) defined_at: u32,
    /// Why a call of it is left as it is, if it has no rules.
    pub(crate) left: MacroFault,
    pub(crate) rules: Option<MacroRules>,
}

/// The macros in scope, in the order of their definitions.
#[derive(Drop)]
pub(crate) struct Scope {
    macros: Vec<Macro>,
    // for each macro, the place of the last macro before it of the same name
    links: Vec<Option<usize>>,
    // for each name, the place of the last macro of that name
    places: IndexMap<Symbol, usize>,
    ghost linked: { links.items ≡ links_of (map (λ it. it.name) macros.items) } by { Prim.hlevel props },
    ghost indexed: { (name : List ℕ) → get bytes_eq places name ≡ last_place (map (λ it. it.name) macros.items) name } by { Prim.hlevel props },
}

// Makes `place` the last place of a name, and links it to the last before it. Changes neither if memory runs out.
fn link(
    links: &mut Vec<Option<usize>>,
    places: &mut IndexMap<Symbol, usize>,
    name: Symbol,
    place: usize,
) -> Result<(), AllocError>
    ensures links { OnOk result (links.new.items ≡ links.old.items ++ get bytes_eq places.old name ∷ []) }
    ensures places { OnOk result (Updates bytes_eq places.old places.new name (Some place)) }
    ensures err { OnErr result ((links.new.items ≡ links.old.items) × (places.new.entries ≡ places.old.entries)) }
{
    let before = match places.get(&name) {
        Some(before) => Some(*before),
        None => None,
    };
    links.push(before)?;
    match places.insert(name, place) {
        Ok(_) => Ok(()),
        Err(_) => {
            links.pop();
            Err(AllocError)
        }
    }
}

// Puts back the last place of a name, or removes the name if there is none.
fn put_back(places: &mut IndexMap<Symbol, usize>, name: &Symbol, place: Option<usize>)
    requires { IsSome (get bytes_eq places.old name.now) }
    ensures { Updates bytes_eq places.old places.new name.now place }
{
    match place {
        Some(place) => {
            if let Some(last) = places.get_mut(name) {
                *last = place;
            }
        }
        None => {
            places.swap_remove(name);
        }
    }
}

impl Scope {
    ghost use Rattle.expand_text.specs.Scopes.{last_by};

    /// Returns the empty scope.
    pub(crate) fn new(alloc: Global) -> Scope
        ensures { result.macros.items ≡ [] }
    {
        Scope {
            macros: Vec::new(alloc),
            links: Vec::new(alloc),
            places: IndexMap::new(alloc),
        }
    }

    /// Returns the number of macros.
    pub(crate) fn len(&self) -> usize
        ensures { result ≡ length self.now.macros.items }
    {
        self.macros.len()
    }

    /// Adds a macro. Changes nothing if memory runs out.
    pub(crate) fn define(&mut self, it: Macro) -> Result<(), AllocError>
        ensures ok { OnOk result (self.new.macros.items ≡ self.old.macros.items ++ it ∷ []) }
        ensures err { OnErr result (self.new.macros.items ≡ self.old.macros.items) }
    {
        let name = it.name.clone()?;
        let place = self.macros.len();
        self.macros.push(it)?;
        match link(&mut self.links, &mut self.places, name, place) {
            Ok(()) => Ok(()),
            Err(error) => {
                self.macros.pop();
                Err(error)
            }
        }
    }

    // Removes the last macro.
    fn drop_last(&mut self)
        ensures { self.new.macros.items ≡ take (length self.old.macros.items - 1) self.old.macros.items }
    {
        let Some(it) = self.macros.pop() else {
            return;
        };
        let before = self.links.pop().flatten();
        put_back(&mut self.places, &it.name, before);
    }

    /// Keeps the first `len` macros.
    pub(crate) fn leave(&mut self, len: usize)
        ensures { self.new.macros.items ≡ take len self.old.macros.items }
    {
        while self.macros.len() > len {
            self.drop_last();
        }
    }

    /// Returns the last macro of that name.
    pub(crate) fn last(&self, name: &Symbol) -> Option<&Macro>
        ensures { option_copied result ≡ last_by (λ it. it.name) name.now self.now.macros.items }
    {
        match self.places.get(name) {
            Some(place) => Some(&self.macros[*place]),
            None => None,
        }
    }
}
