//! A list of tokens in little memory: most take twelve bytes.
ghost use Rattle.std.specs.Prelude.{◌≡◌, ◌+◌, ◌<◌, ◌≤◌, ◌^◌, ◌++◌, [], ◌∷◌, ℕ, List, IfOk, OnOk, OnErr, Some, bytes_eq, get_or, length, set, slice_get};
ghost use Rattle.std.specs.Map.{keys_of};
ghost use Rattle.tt_base.specs.declared.token_tree.TokenTree.{TokenTree as Token};
ghost use Rattle.tt_base.specs.declared.token_tree.TokenTree.TheVariants as token;
ghost use Rattle.tt_tables.specs.Counts.{number_in};
ghost use Rattle.tt_tables.specs.Interner.{entries_of};
ghost use Rattle.tt_tables.specs.OneSmall.{HasSmall-prop};
ghost use Rattle.tt_tables.specs.SmallHeld.{HasSmall, CountsSymbols, closed_token};
ghost use Rattle.tt_tables.specs.SmallMeaning.{NamesSymbol};
ghost use Rattle.tt_tables.specs.Uses.{leaf_symbols};

use crate::interner::Interner;
use crate::numbers::symbol_place;
use crate::small::{Form, Small, small_leaf};
use std::alloc::{AllocError, Global};
use std::marker::Model;
use tt_base::{Leaf, Span, SpanPart, Subtree, Symbol};

/// A list of tokens, most of which take twelve bytes: those whose span has one given part and is short. A header takes 48 bytes more. A
/// contract sees the tokens.
#[derive(Drop)]
pub struct SmallTokens {
    pub(crate) part: SpanPart,
    pub(crate) tokens: Vec<Small>,
    pub(crate) headers: Vec<Subtree>,
    /// The leaves that do not fit twelve bytes.
    pub(crate) leaves: Vec<Leaf>,
    pub(crate) symbols: Interner<Symbol>,
    pub ghost held: { HasSmall part tokens.items headers.items leaves.items (entries_of symbols) } by { HasSmall-prop part tokens.items headers.items leaves.items (entries_of symbols) },
}

impl Model for SmallTokens {
    ghost use Rattle.std.specs.Prelude.{List};
    ghost use Rattle.tt_base.specs.declared.token_tree.TokenTree.{TokenTree};
    ghost use Rattle.tt_tables.specs.SmallHeld.{tokens_code};

    ghost Value = { List TokenTree };

    ghost coded = { tokens_code };

    ghost view = { λ list. list.held.0 };
}

// Adds one use of a symbol, and returns its place. Fails only if memory runs out, and then changes nothing.
#[inline(always)]
fn use_symbol(symbols: &mut Interner<Symbol>, symbol: &Symbol) -> Result<u32, AllocError>
    requires { (x : List ℕ) → number_in bytes_eq (entries_of symbols.old) x + 1 < 2 ^ 64 }
    ensures ok { OnOk result (CountsSymbols (entries_of symbols.old) (entries_of symbols.new) (symbol.now ∷ [])) }
    ensures place { IfOk result (λ place. slice_get (keys_of (entries_of symbols.new)) place ≡ Some symbol.now) }
    ensures err { OnErr result (entries_of symbols.new ≡ entries_of symbols.old) }
{
    let place = symbol_place(symbols, symbol)?;
    symbols.add_at(place);
    Ok(place)
}

// Adds one use of the symbol of a leaf, and returns its place, or 0 if the leaf has none. Fails as `use_symbol` does.
#[inline(always)]
fn use_leaf(symbols: &mut Interner<Symbol>, leaf: &Leaf) -> Result<u32, AllocError>
    requires { (x : List ℕ) → number_in bytes_eq (entries_of symbols.old) x + 1 < 2 ^ 64 }
    ensures ok { OnOk result (CountsSymbols (entries_of symbols.old) (entries_of symbols.new) (leaf_symbols leaf.now)) }
    ensures place { IfOk result (λ place. NamesSymbol (keys_of (entries_of symbols.new)) place leaf.now) }
    ensures err { OnErr result (entries_of symbols.new ≡ entries_of symbols.old) }
{
    match leaf {
        Leaf::Literal(literal) => use_symbol(symbols, literal.symbol()),
        Leaf::Punct(_) => Ok(0),
        Leaf::Ident(ident) => use_symbol(symbols, &ident.sym),
    }
}

impl SmallTokens {
    /// Returns an empty list. Spans with that part take little memory. Takes no memory.
    pub fn new(alloc: Global, part: SpanPart) -> SmallTokens
        ensures { result ≡ [] }
    {
        SmallTokens {
            part,
            tokens: Vec::new(alloc),
            headers: Vec::new(alloc),
            leaves: Vec::new(alloc),
            symbols: Interner::new(alloc),
        }
    }

    /// Returns the number of tokens.
    #[inline(always)]
    pub fn len(&self) -> usize
        ensures { result ≡ length self.now }
    {
        self.tokens.len()
    }

    /// Appends a leaf. Fails only if memory runs out, and then changes nothing.
    pub fn push_leaf(&mut self, leaf: Leaf) -> Result<(), AllocError>
        requires few { length self.old < 4294967296 }
        ensures ok { OnOk result (self.new ≡ self.old ++ token.Leaf leaf ∷ []) }
        ensures err { OnErr result (self.new ≡ self.old) }
    {
        self.tokens.reserve(1)?;
        self.leaves.reserve(1)?;
        let place = use_leaf(&mut self.symbols, &leaf)?;
        if let Some(small) = small_leaf(&self.part, &leaf, place) {
            self.tokens.push_reserved(small);
            return Ok(());
        }
        self.tokens.push_reserved(Small {
            value: self.leaves.len() as u32,
            start: place,
            length: 0,
            form: Form::Odd,
        });
        self.leaves.push_reserved(leaf);
        Ok(())
    }

    /// Appends a header. Fails only if memory runs out, and then changes nothing.
    pub fn push_header(&mut self, subtree: Subtree) -> Result<(), AllocError>
        requires few { length self.old < 4294967296 }
        ensures ok { OnOk result (self.new ≡ self.old ++ token.Subtree subtree ∷ []) }
        ensures err { OnErr result (self.new ≡ self.old) }
    {
        self.tokens.reserve(1)?;
        self.headers.reserve(1)?;
        self.tokens.push_reserved(Small {
            value: self.headers.len() as u32,
            start: 0,
            length: 0,
            form: Form::Header,
        });
        self.headers.push_reserved(subtree);
        Ok(())
    }

    /// Gives the header at a place its close span and its count. Does nothing if a leaf is there.
    pub fn close(&mut self, place: usize, close_span: Span, len: u32)
        requires within { place < length self.old }
        ensures { (d : Token) → self.new ≡ set self.old place (closed_token close_span len (get_or self.old place d)) }
    {
        let small = self.tokens[place];
        if let Form::Header = small.form {
            let header = &mut self.headers[small.value as usize];
            header.delimiter.close = close_span;
            header.len = len;
        }
    }
}
