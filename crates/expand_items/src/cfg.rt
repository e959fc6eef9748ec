//! What is known of the conditions `#[cfg(..)]`.
ghost use Rattle.std.specs.Prelude.{◌≡◌, IfOk, OnOk, OnErr};
ghost use Rattle.expand_items.specs.Cfg.{complete, flag_says, is_flag, is_key_value, key_value_says, known_as, known_of, unknown, with_atom};

use std::alloc::{AllocError, Global};
use tt::Symbol;

/// What a predicate asks for.
#[derive(Drop)]
pub enum CfgAtom {
    /// `NAME`.
    Flag(Symbol),
    /// `KEY = "VALUE"`.
    KeyValue { key: Symbol, value: Symbol },
}

/// What is known of conditions: which atoms are true, and whether all others are false. Else the others are open. A call that looks for an
/// atom takes time in proportion to the number of atoms.
#[derive(Drop)]
pub struct CfgOptions {
    atoms: Vec<CfgAtom>,
    is_complete: bool,
}

impl CfgAtom {
    // Returns whether this is that name.
    fn is_flag(&self, name: &str) -> bool
        ensures { result ≡ is_flag name.now self.now }
    {
        match self {
            CfgAtom::Flag(its) => its.as_str() == name,
            CfgAtom::KeyValue { .. } => false,
        }
    }

    // Returns whether this is that key with that value.
    fn is_key_value(&self, key: &str, value: &str) -> bool
        ensures { result ≡ is_key_value key.now value.now self.now }
    {
        match self {
            CfgAtom::Flag(_) => false,
            CfgAtom::KeyValue {
                key: its,
                value: its_value,
            } => { its.as_str() == key && its_value.as_str() == value }
        }
    }
}

// Returns the symbol of a text.
fn symbol(alloc: Global, text: &str) -> Result<Symbol, AllocError>
    ensures { IfOk result (λ symbol. symbol ≡ text.now) }
{
    match Symbol::new(alloc, text) {
        Ok(symbol) => Ok(symbol),
        Err(_memory) => Err(AllocError),
    }
}

impl CfgOptions {
    /// Returns the options by which nothing is known: all atoms are open. Asks for no memory.
    pub fn new(alloc: Global) -> CfgOptions
        ensures { known_of result ≡ unknown }
    {
        CfgOptions {
            atoms: Vec::new(alloc),
            is_complete: false,
        }
    }

    // Adds an atom that is true.
    fn insert(&mut self, atom: CfgAtom) -> Result<(), AllocError>
        ensures ok { OnOk result (known_of self.new ≡ with_atom atom (known_of self.old)) }
        ensures err { OnErr result (known_of self.new ≡ known_of self.old) }
    {
        self.atoms.push(atom)?;
        Ok(())
    }

    /// Says that a name is true, as `--cfg NAME` does. Changes nothing if memory runs out.
    pub fn insert_flag(&mut self, alloc: Global, name: &str) -> Result<(), AllocError>
        ensures ok { OnOk result (known_of self.new ≡ with_atom (CfgAtom.Flag name.now) (known_of self.old)) }
        ensures err { OnErr result (known_of self.new ≡ known_of self.old) }
    {
        let name = symbol(alloc, name)?;
        self.insert(CfgAtom::Flag(name))
    }

    /// Says that a key with a value is true, as `--cfg KEY="VALUE"` does. Changes nothing if memory runs out.
    pub fn insert_key_value(
        &mut self,
        alloc: Global,
        key: &str,
        value: &str,
    ) -> Result<(), AllocError>
        ensures ok { OnOk result (known_of self.new ≡ with_atom (CfgAtom.KeyValue key.now value.now) (known_of self.old)) }
        ensures err { OnErr result (known_of self.new ≡ known_of self.old) }
    {
        let key = symbol(alloc, key)?;
        let value = symbol(alloc, value)?;
        self.insert(CfgAtom::KeyValue { key, value })
    }

    /// Says that all other atoms are false.
    pub fn set_complete(&mut self)
        ensures { known_of self.new ≡ complete (known_of self.old) }
    {
        self.is_complete = true;
    }

    // Returns what is known of an atom that is among those that are true, or not.
    fn known_as(&self, is_there: bool) -> Option<bool>
        ensures { result ≡ known_as is_there self.now.is_complete }
    {
        if is_there {
            Some(true)
        } else if self.is_complete {
            Some(false)
        } else {
            None
        }
    }

    /// Returns what a name says.
    pub(crate) fn flag_says(&self, name: &str) -> Option<bool>
        ensures { result ≡ flag_says (known_of self.now) name.now }
    {
        let mut is_there = false;
        for atom in self.atoms.as_slice() {
            is_there |= atom.is_flag(name);
        }
        self.known_as(is_there)
    }

    /// Returns what a key with a value says.
    pub(crate) fn key_value_says(&self, key: &str, value: &str) -> Option<bool>
        ensures { result ≡ key_value_says (known_of self.now) key.now value.now }
    {
        let mut is_there = false;
        for atom in self.atoms.as_slice() {
            is_there |= atom.is_key_value(key, value);
        }
        self.known_as(is_there)
    }
}
