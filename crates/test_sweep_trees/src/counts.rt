//! How often span parts and symbols are used in tokens.
ghost use Rattle.std.specs.Prelude.{◌≡◌, ◌+◌, ◌*◌, ◌<◌, ◌^◌, [], ◌∷◌, true, List, ℕ, bytes_eq, length, OnOk};
ghost use Rattle.tt_base.specs.declared.span.SpanPart.{SpanPart};
ghost use Rattle.tt_tables.specs.Counts.{number_in, CountsMore};
ghost use Rattle.tt_tables.specs.Uses.{same_part, leaf_symbols, token_parts, token_symbols, part_uses, symbol_uses};

use indexmap::IndexMap;
use std::alloc::AllocError;
use std::hash::Hash;
use tt::{Leaf, SpanPart, Symbol, TokenTree};

// One use more of a value.
fn add_use<T: Eq + Hash + Clone + Drop>(
    uses: &mut IndexMap<T, usize>,
    value: &T,
) -> Result<(), AllocError>
    requires copies { (x y : T) → T.is_clone x y → y ≡ x }
    requires same { (x y : T) → T.eq x y ≡ true → x ≡ y }
    requires room { (x : T) → number_in T.eq uses.old.entries x + 1 < 2 ^ 64 }
    ensures { OnOk result (CountsMore T.eq (value.now ∷ []) uses.old.entries uses.new.entries) }
{
    let before = uses.get(value).copied().unwrap_or(0);
    uses.insert(value.clone()?, before + 1)?;
    Ok(())
}

// One use more of the symbol of a leaf, if it has one.
fn add_symbol(symbols: &mut IndexMap<Symbol, usize>, leaf: &Leaf) -> Result<(), AllocError>
    requires { (x : List ℕ) → number_in bytes_eq symbols.old.entries x + 1 < 2 ^ 64 }
    ensures { OnOk result (CountsMore bytes_eq (leaf_symbols leaf.now) symbols.old.entries symbols.new.entries) }
{
    match leaf {
        Leaf::Literal(literal) => add_use(symbols, literal.symbol()),
        Leaf::Punct(_) => Ok(()),
        Leaf::Ident(ident) => add_use(symbols, &ident.sym),
    }
}

// One use more of what a token uses.
fn add_token(
    parts: &mut IndexMap<SpanPart, usize>,
    symbols: &mut IndexMap<Symbol, usize>,
    token: &TokenTree,
) -> Result<(), AllocError>
    requires parts { (x : SpanPart) → number_in same_part parts.old.entries x + 2 < 2 ^ 64 }
    requires symbols { (x : List ℕ) → number_in bytes_eq symbols.old.entries x + 1 < 2 ^ 64 }
    ensures parts { OnOk result (CountsMore same_part (token_parts token.now) parts.old.entries parts.new.entries) }
    ensures symbols { OnOk result (CountsMore bytes_eq (token_symbols token.now) symbols.old.entries symbols.new.entries) }
{
    match token {
        TokenTree::Leaf(leaf) => {
            add_use(parts, &SpanPart::from_span(leaf.span()))?;
            add_symbol(symbols, leaf)
        }
        TokenTree::Subtree(header) => {
            add_use(parts, &SpanPart::from_span(&header.delimiter.open_span))?;
            add_use(parts, &SpanPart::from_span(&header.delimiter.close))
        }
    }
}

/// One use more of all that the tokens use.
pub fn add_all(
    parts: &mut IndexMap<SpanPart, usize>,
    symbols: &mut IndexMap<Symbol, usize>,
    tokens: &[TokenTree],
) -> Result<(), AllocError>
    requires parts { (x : SpanPart) → number_in same_part parts.old.entries x + 2 * length tokens.now < 2 ^ 64 }
    requires symbols { (x : List ℕ) → number_in bytes_eq symbols.old.entries x + length tokens.now < 2 ^ 64 }
    ensures parts { OnOk result (CountsMore same_part (part_uses tokens.now) parts.old.entries parts.new.entries) }
    ensures symbols { OnOk result (CountsMore bytes_eq (symbol_uses tokens.now) symbols.old.entries symbols.new.entries) }
{
    for token in tokens {
        add_token(parts, symbols, token)?;
    }
    Ok(())
}
