//! Shared texts.
ghost use Rattle.std.specs.Prelude.{◌≡◌, IfOk, IfErr, Some, bytes_eq, ⊤};
ghost use Rattle.std.proofs.Common.{rules};
ghost use Rattle.std.specs.Cmp.Rules.{comparing, hashing};
ghost use Rattle.std.specs.Hash as fed;

use crate::fault::TtFault;
use crate::text::Text;
use std::alloc::{AllocError, Global};
use std::cell::Cell;
use std::fmt;
use std::hash::{Hash, Hasher};
use std::marker::Model;
use tt_shared::Shared;

/// A name, or the text of a literal. Symbols are equal if their texts are. A clone shares the text, takes no memory and cannot fail. A
/// contract sees the bytes of the text.
#[derive(Drop)]
pub struct Symbol {
    shared: Shared<SharedText>,
}

// What all clones of a symbol share: the text, and the place that was noted last.
#[derive(Drop)]
struct SharedText {
    text: Text,
    place: Cell<u32>,
}

impl Model for Symbol {
    ghost use Rattle.std.specs.Prelude.{ℕ, List};
    ghost use Rattle.tt_shared.specs.Shared.{shared_value};
    ghost use Rattle.tt_base.specs.Text.{text_bytes};

    ghost Value = { List ℕ };

    ghost view = { λ symbol. text_bytes (shared_value symbol.shared).text };
}

impl Symbol {
    /// Returns the symbol of a text, with a copy of the text. Fails only if memory runs out (`Memory`).
    pub fn new(alloc: Global, text: &str) -> Result<Symbol, TtFault>
        ensures ok { IfOk result (λ symbol. symbol ≡ text.now) }
        ensures err { IfErr result (λ fault. fault ≡ TtFault.Memory) }
    {
        let text = Text::new(alloc, text)?;
        let place = Cell::new(0);
        let shared = Shared::new(alloc, SharedText { text, place })?;
        Ok(Symbol { shared })
    }

    /// Returns the text.
    pub fn as_str(&self) -> &str
        ensures { result.now ≡ self.now }
    {
        self.shared.get().text.as_str()
    }

    /// Returns the place that `note_place` noted last for this symbol or a clone of it, or 0. No contract says more: a caller that looks
    /// for the symbol in a table may try this place first, and must check that the symbol is there.
    #[inline(always)]
    pub fn place(&self) -> u32 {
        self.shared.get().place.get()
    }

    /// Notes a place of this symbol in a table, for all its clones.
    #[inline(always)]
    pub fn note_place(&self, place: u32) {
        self.shared.get().place.set(place);
    }

    // Returns whether the bytes of the texts are equal.
    #[inline(never)]
    fn has_text_of(&self, other: &Symbol) -> bool
        ensures { result ≡ bytes_eq self.now other.now }
    {
        self.as_str() == other.as_str()
    }
}

impl Clone for Symbol {
    ghost is_clone = { λ symbol copy. copy ≡ symbol };

    ghost is_infallible = { λ _. ⊤ };

    fn clone(&self) -> Result<Symbol, AllocError> {
        let shared = self.shared.share();
        Ok(Symbol { shared })
    }
}

impl PartialEq for Symbol {
    ghost eq = { bytes_eq };

    ghost laws = { Prim.search (comparing, rules) };

    // Equal symbols mostly share their text, so this test is inline, and the other one is a call.
    #[inline(always)]
    fn eq(&self, other: &Symbol) -> bool {
        self.shared.ptr_eq(&other.shared) || self.has_text_of(other)
    }
}

impl Eq for Symbol {
    ghost laws = { Prim.search (comparing, rules) };
}

impl Hash for Symbol {
    ghost hash_input = { fed.str };

    ghost respects_eq = { Prim.search (hashing, rules) };

    fn hash<H: Hasher>(&self, state: &mut H) {
        self.as_str().hash(state);
    }
}

impl fmt::Display for Symbol {
    ghost output = { λ symbol. Some symbol };

    fn fmt<W: fmt::Write>(&self, f: &mut fmt::Formatter<W>) -> fmt::Result {
        fmt::Display::fmt(self.as_str(), f)
    }
}

impl fmt::Debug for Symbol {
    fn fmt<W: fmt::Write>(&self, f: &mut fmt::Formatter<W>) -> fmt::Result {
        fmt::Debug::fmt(self.as_str(), f)
    }
}
