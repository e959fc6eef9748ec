//! Equal texts as one symbol.
ghost use Rattle.std.specs.Prelude.{◌≡◌, IfOk, IfErr, IfSome, MatchOption, IsUtf8};
ghost use Rattle.tt_base.specs.declared.fault.TtFault.TheVariants.{Memory};

use crate::fault::TtFault;
use crate::symbol::Symbol;
use std::alloc::Global;
use std::str::from_utf8;

// The largest number of symbols that are kept.
const MOST_PLACES: usize = 1024;

// The largest number of bytes of a text that is looked for; names are short.
const MOST_BYTES: usize = 64;

// In a text with fewer bytes, each name has a symbol of its own: few names come twice, and to keep the symbols costs more.
const SHORT_TEXT: usize = 512;

// The number of bytes of a text for which one place is kept.
const BYTES_OF_PLACE: usize = 16;

/// The symbols of earlier texts, each at a place that its text determines. So equal texts that are near one another mostly share one
/// symbol, as in a front end that interns its names. No contract says which texts are kept.
#[derive(Drop)]
pub struct Texts {
    known: Vec<Symbol>,
    alloc: Global,
}

impl Texts {
    /// Returns a table that keeps nothing: each text has a symbol of its own. Takes no memory.
    pub fn apart(alloc: Global) -> Texts {
        Texts {
            known: Vec::new(alloc),
            alloc,
        }
    }

    /// Returns a table by which equal texts mostly share a symbol. If there is no memory for it, each text has a symbol of its own.
    pub fn shared(alloc: Global) -> Texts {
        Texts::with_places(alloc, MOST_PLACES)
    }

    /// Returns a table for the names of one text with that many bytes. If the text has fewer than 512 bytes, each name has a symbol of
    /// its own; otherwise this is the same as `shared`, with a place for each 16 bytes, at most 1,024.
    pub fn of_source(alloc: Global, bytes: usize) -> Texts {
        if bytes < SHORT_TEXT {
            return Texts::apart(alloc);
        }
        Texts::with_places(alloc, (bytes / BYTES_OF_PLACE).min(MOST_PLACES))
    }

    // Returns a table with that many places, or one without places if there is no memory for them.
    fn with_places(alloc: Global, places: usize) -> Texts {
        let known = match empty_symbols(alloc, places) {
            Ok(known) => known,
            Err(_) => Vec::new(alloc),
        };
        Texts { known, alloc }
    }

    /// Returns the allocator.
    pub fn alloc(&self) -> Global {
        self.alloc
    }

    /// Returns the symbol of a text. Fails only if memory runs out (`Memory`).
    #[inline]
    pub fn symbol(&mut self, text: &str) -> Result<Symbol, TtFault>
        ensures ok { IfOk result (λ symbol. symbol ≡ text.now) }
        ensures err { IfErr result (λ fault. fault ≡ Memory) }
    {
        if self.known.is_empty() || text.len() > MOST_BYTES {
            return Symbol::new(self.alloc, text);
        }
        let place = self.place_of(text.as_bytes());
        if let Some(symbol) = self.kept(place, text.as_bytes())? {
            return Ok(symbol);
        }
        let symbol = Symbol::new(self.alloc, text)?;
        self.keep(place, &symbol)?;
        Ok(symbol)
    }

    /// Returns the symbol of a text, or `None` if the bytes are not UTF-8. Fails only if memory runs out (`Memory`).
    #[inline(always)]
    pub fn symbol_of_bytes(&mut self, text: &[u8]) -> Result<Option<Symbol>, TtFault>
        ensures reads { IfOk result (λ found. MatchOption found (IsUtf8 text.now → ⊥) (λ symbol. (symbol ≡ text.now) × IsUtf8 text.now)) }
        ensures err { IfErr result (λ fault. fault ≡ Memory) }
    {
        if text.len() > MOST_BYTES {
            return new_symbol(self.alloc, text);
        }
        let place = self.place_of(text);
        if let Some(symbol) = self.kept(place, text)? {
            return Ok(Some(symbol));
        }
        let Some(symbol) = new_symbol(self.alloc, text)? else {
            return Ok(None);
        };
        self.keep(place, &symbol)?;
        Ok(Some(symbol))
    }

    // Returns the place of a text.
    #[inline(always)]
    fn place_of(&self, text: &[u8]) -> usize {
        let mut sum = 0u32;
        for b in text {
            sum = sum.wrapping_mul(31).wrapping_add(u32::from(*b));
        }
        let places = self.known.len() as u64;
        (u64::from(sum.wrapping_mul(0x9e37_79b1)).wrapping_mul(places) >> 32) as usize
    }

    // Returns the symbol at a place if it has that text.
    #[inline(always)]
    fn kept(&self, place: usize, text: &[u8]) -> Result<Option<Symbol>, TtFault>
        ensures is { IfOk result (λ found. IfSome found (λ symbol. (symbol ≡ text.now) × IsUtf8 text.now)) }
        ensures err { IfErr result (λ fault. fault ≡ Memory) }
    {
        if let Some(known) = self.known.get(place) {
            if known.as_str().as_bytes() == text {
                return Ok(Some(known.clone()?));
            }
        }
        Ok(None)
    }

    // Puts the symbol at a place, if there are places.
    #[inline(always)]
    fn keep(&mut self, place: usize, symbol: &Symbol) -> Result<(), TtFault>
        ensures { IfErr result (λ fault. fault ≡ Memory) }
    {
        if let Some(known) = self.known.get_mut(place) {
            *known = symbol.clone()?;
        }
        Ok(())
    }
}

// Returns a list of that many symbols of the empty text.
fn empty_symbols(alloc: Global, count: usize) -> Result<Vec<Symbol>, TtFault> {
    let empty = Symbol::new(alloc, "")?;
    let mut known = Vec::with_capacity(alloc, count)?;
    for _place in 0..count {
        known.push(empty.clone()?)?;
    }
    Ok(known)
}

/// Returns the text as a symbol of its own, or `None` if the bytes are not UTF-8. Fails only if memory runs out (`Memory`).
#[inline(never)]
pub fn new_symbol(alloc: Global, text: &[u8]) -> Result<Option<Symbol>, TtFault>
    ensures reads { IfOk result (λ found. MatchOption found (IsUtf8 text.now → ⊥) (λ symbol. (symbol ≡ text.now) × IsUtf8 text.now)) }
    ensures err { IfErr result (λ fault. fault ≡ Memory) }
{
    let Ok(text) = from_utf8(text) else {
        return Ok(None);
    };
    Ok(Some(Symbol::new(alloc, text)?))
}
