//! Removes uses of values.
ghost use Rattle.std.specs.Prelude.{◌≡◌, ◌≤◌, ℕ, List, bytes_eq};
ghost use Rattle.std.specs.Map.{keys_of};
ghost use Rattle.tt_base.specs.declared.span.SpanPart.{SpanPart as Part};
ghost use Rattle.tt_tables.specs.Held.{HeldToken, counted_parts, counted_symbols, parts_in, symbols_in};
ghost use Rattle.tt_tables.specs.Interned.{tables_of, CanTake, CanTakeAll};
ghost use Rattle.tt_tables.specs.Names.{Names, AllName};
ghost use Rattle.tt_tables.specs.Interner.{entries_of};
ghost use Rattle.tt_tables.specs.Counts.{CountsMore};
ghost use Rattle.tt_tables.specs.Uses.{same_part};

use crate::interner::Interner;
use crate::token::InternedToken;
use tt_base::{SpanPart, Symbol};
use tt_codec::LeafEntry;

// Removes one use of each value that a token uses. Each of them has at least one use.
#[inline(always)]
fn uncount(parts: &mut Interner<SpanPart>, symbols: &mut Interner<Symbol>, token: InternedToken)
    requires { CanTake (entries_of parts.old) (entries_of symbols.old) token }
    ensures parts { (it : HeldToken) → Names (tables_of (entries_of parts.old) (entries_of symbols.old)) token it → CountsMore same_part (counted_parts it) (entries_of parts.new) (entries_of parts.old) }
    ensures symbols { (it : HeldToken) → Names (tables_of (entries_of parts.old) (entries_of symbols.old)) token it → CountsMore bytes_eq (counted_symbols it) (entries_of symbols.new) (entries_of symbols.old) }
    ensures part_values { keys_of (entries_of parts.new) ≡ keys_of (entries_of parts.old) }
    ensures symbol_values { keys_of (entries_of symbols.new) ≡ keys_of (entries_of symbols.old) }
{
    match token {
        InternedToken::Leaf(LeafEntry::Punct(_, _, numbers)) => parts.take_at(numbers.part),
        InternedToken::Leaf(LeafEntry::Ident(symbol, _, numbers)) => {
            parts.take_at(numbers.part);
            symbols.take_at(symbol);
        }
        InternedToken::Leaf(LeafEntry::Literal(symbol, _, _, numbers)) => {
            parts.take_at(numbers.part);
            symbols.take_at(symbol);
        }
        InternedToken::Open(_, opening) => parts.take_at(opening.part),
        InternedToken::Header(header) => {
            parts.take_at(header.opening.part);
            parts.take_at(header.closing.part);
        }
    }
}

/// Removes all uses by these tokens. Each value has at least as many uses.
pub(crate) fn uncount_all(
    parts: &mut Interner<SpanPart>,
    symbols: &mut Interner<Symbol>,
    tokens: &[InternedToken],
)
    requires { CanTakeAll (entries_of parts.old) (entries_of symbols.old) tokens.now }
    ensures parts { (held : List HeldToken) → AllName (tables_of (entries_of parts.old) (entries_of symbols.old)) tokens.now held → CountsMore same_part (parts_in held) (entries_of parts.new) (entries_of parts.old) }
    ensures symbols { (held : List HeldToken) → AllName (tables_of (entries_of parts.old) (entries_of symbols.old)) tokens.now held → CountsMore bytes_eq (symbols_in held) (entries_of symbols.new) (entries_of symbols.old) }
    ensures part_values { keys_of (entries_of parts.new) ≡ keys_of (entries_of parts.old) }
    ensures symbol_values { keys_of (entries_of symbols.new) ≡ keys_of (entries_of symbols.old) }
{
    for token in tokens {
        uncount(parts, symbols, *token);
    }
}
