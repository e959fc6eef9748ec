//! A stored tree, and the calls that make it and show it.
ghost use Rattle.std.specs.Prelude.{◌≡◌, ◌≤◌, ◌+◌, ◌*◌, ◌-◌, ◌∷◌, suc, length, drop, take, IfOk, IfErr, IsTrue, ◌↔◌, bytes_eq};
ghost use Rattle.tt_base.specs.declared.fault.TtFault.TheVariants.{Memory};
ghost use Rattle.tt_base.specs.declared.token_tree.TokenTree.TheVariants as token;
ghost use Rattle.tt_tables.specs.Cost.{IsCheapest};
ghost use Rattle.tt_base.specs.Forest.{size, flat, flat_root};
ghost use Rattle.tt_tables.specs.Stored.{most_tokens, packed, IsInRange, IsWithinLimits};
ghost use Rattle.tt_tables.specs.Meaning.{HasMeaning};
ghost use Rattle.tt_tables.specs.PackFault.{IsPackFault};
ghost use Rattle.tt_tables.specs.Shortest.{HasShortestHeaders};
ghost use Rattle.tt_base.proofs.SameTree.{same_root_iff};
ghost use Rattle.tt_tables.proofs.StoredAlike.{HasMeaning-prop};
ghost use Rattle.tt_tables.specs.Counts.{CountsUses};
ghost use Rattle.tt_tables.specs.TableOrder.{IsTable};
ghost use Rattle.tt_tables.specs.Tables.{tables_for, short_parts, short_symbols};
ghost use Rattle.tt_tables.specs.Uses.{same_part, part_uses, symbol_uses};
ghost use Rattle.tt_pack.specs.Packed.{fed_tree, stored_of};
ghost use Rattle.tt_pack.specs.TablesOf.{AreTablesOf};
ghost use Rattle.std.proofs.Common.{rules, ap};
ghost use Rattle.std.specs.Cmp.Rules.{comparing};
ghost use Rattle.tt_base.specs.Equality.{same_token-equivalence, same_root};

mod ids;
mod interned;
mod small;
mod top;

use crate::counted::FirstRoom;
use crate::numbered::Numbered;
use crate::pack::write_tree;
use crate::tables::ListTables;
use indexmap::IndexMap;
use std::alloc::Global;
use std::hash::{Hash, Hasher};
use std::marker::Model;
use tt_base::{Refused, SpanPart, Subtree, Symbol, TokenTree, TtFault};
use tt_tables::Tables;

/// A token tree as bytes and two tables. A contract sees the tree. The bytes and tables are a function of the tree (docs/FORMATS.md), so
/// equal trees have equal bytes and tables.
#[derive(Drop)]
pub struct Packed {
    bytes: Vec<u8>,
    parts: Vec<SpanPart>,
    symbols: Vec<Symbol>,
    len: usize,
    ghost meaning: { HasMeaning (stored_of bytes.items parts.items symbols.items len) } by { HasMeaning-prop (stored_of bytes.items parts.items symbols.items len) },
}

impl Model for Packed {
    ghost use Rattle.tt_base.specs.Forest.{Root};
    ghost use Rattle.tt_base.specs.Unflat.{root_code};

    ghost Value = { Root };

    ghost coded = { root_code };

    ghost view = { λ stored. stored.meaning.0 };
}

impl Packed {
    ghost use Rattle.tt_pack.specs.StoredIn.{tables_stored};
    ghost use Rattle.tt_tables.specs.TablesOf.{tables_of};

    /// Returns the tree of a flat list. Fails if the list is not that of exactly one subtree, or has too many span parts, too many
    /// symbols or too many bytes, in this order (docs/FORMATS.md, "Limits"), or if memory runs out. A failure returns the list.
    pub fn pack(alloc: Global, tokens: Vec<TokenTree>) -> Result<Packed, Refused<Vec<TokenTree>>>
        ensures ok { IfOk result (λ stored. tokens.items ≡ flat_root stored) }
        ensures counts { IfOk result (λ stored. size stored.children ≤ most_tokens) }
        ensures limits { IfOk result (λ stored. IsWithinLimits stored) }
        ensures fault { IfErr result (λ refused. IsPackFault tokens.items refused.fault) }
        ensures list { IfErr result (λ refused. refused.value ≡ tokens) }
    {
        match Packed::of_list(alloc, &tokens) {
            Ok(stored) => Ok(stored),
            Err(fault) => Err(Refused {
                fault,
                value: tokens,
            }),
        }
    }

    /// Returns the tree of a flat list, and fails, as `pack` does. Each map has the number of uses of every value in the list below the
    /// top; a value that is not in the map, or has the number 0, has no use. The code takes memory at once for as many values as the maps
    /// have. It counts the uses again, since only the list has their order.
    pub fn pack_counted(
        alloc: Global,
        tokens: Vec<TokenTree>,
        parts: &IndexMap<SpanPart, usize>,
        symbols: &IndexMap<Symbol, usize>,
    ) -> Result<Packed, Refused<Vec<TokenTree>>>
        requires parts { CountsUses same_part (part_uses (drop 1 tokens.items)) parts.now.entries }
        requires symbols { CountsUses bytes_eq (symbol_uses (drop 1 tokens.items)) symbols.now.entries }
        ensures ok { IfOk result (λ stored. tokens.items ≡ flat_root stored) }
        ensures counts { IfOk result (λ stored. size stored.children ≤ most_tokens) }
        ensures limits { IfOk result (λ stored. IsWithinLimits stored) }
        ensures fault { IfErr result (λ refused. IsPackFault tokens.items refused.fault) }
        ensures list { IfErr result (λ refused. refused.value ≡ tokens) }
    {
        match Packed::of_list_counted(alloc, &tokens, parts, symbols) {
            Ok(stored) => Ok(stored),
            Err(fault) => {
                let value = tokens;
                Err(Refused { fault, value })
            }
        }
    }

    /// Returns the tree of a flat list that stays with the caller. Fails as `pack` does.
    pub fn of_list(alloc: Global, tokens: &[TokenTree]) -> Result<Packed, TtFault>
        ensures ok { IfOk result (λ stored. (tokens.now ≡ flat_root stored) × (size stored.children ≤ most_tokens) × IsWithinLimits stored) }
        ensures err { IfErr result (IsPackFault tokens.now) }
    {
        Packed::of_list_with(alloc, tokens, FirstRoom::for_tokens(tokens.len()))
    }

    /// The same, with the numbers of uses as for `pack_counted`.
    pub fn of_list_counted(
        alloc: Global,
        tokens: &[TokenTree],
        parts: &IndexMap<SpanPart, usize>,
        symbols: &IndexMap<Symbol, usize>,
    ) -> Result<Packed, TtFault>
        requires parts { CountsUses same_part (part_uses (drop 1 tokens.now)) parts.now.entries }
        requires symbols { CountsUses bytes_eq (symbol_uses (drop 1 tokens.now)) symbols.now.entries }
        ensures ok { IfOk result (λ stored. (tokens.now ≡ flat_root stored) × (size stored.children ≤ most_tokens) × IsWithinLimits stored) }
        ensures err { IfErr result (IsPackFault tokens.now) }
    {
        let room = FirstRoom {
            parts: parts.len(),
            symbols: symbols.len(),
        };
        Packed::of_list_with(alloc, tokens, room)
    }

    // Returns the tree of a flat list. If the code counts uses, it takes memory for that many values at first.
    fn of_list_with(alloc: Global, tokens: &[TokenTree], room: FirstRoom) -> Result<Packed, TtFault>
        ensures ok { IfOk result (λ stored. (tokens.now ≡ flat_root stored) × (size stored.children ≤ most_tokens) × IsWithinLimits stored) }
        ensures err { IfErr result (IsPackFault tokens.now) }
    {
        let Some((TokenTree::Subtree(top), below)) = tokens.split_first() else {
            return Err(TtFault::NotOneSubtree);
        };
        if top.len as usize != below.len() {
            return Err(TtFault::NotOneSubtree);
        }
        let tables = ListTables::of_tokens(alloc, below, room)?;
        Packed::of_numbered(alloc, *top, tables)
    }

    // Returns the tree of a header and the tokens below it.
    fn of_numbered<N: Numbered + Drop>(
        alloc: Global,
        top: Subtree,
        numbers: N,
    ) -> Result<Packed, TtFault>
        requires counted { top.len ≡ length (N.list numbers) }
        requires tables { AreTablesOf (N.list numbers) (N.tables numbers) }
        requires leads { N.leads numbers }
        ensures ok { IfOk result (λ stored. (token.Subtree top ∷ N.list numbers ≡ flat_root stored) × (size stored.children ≤ most_tokens) × IsWithinLimits stored) }
        ensures err { IfErr result (IsPackFault (token.Subtree top ∷ N.list numbers)) }
    {
        let (bytes, parts, symbols) = write_tree(alloc, top, numbers)?;
        Ok(Packed {
            bytes,
            parts,
            symbols,
            len: top.len as usize + 1,
        })
    }

    /// Returns the stored bytes: 33 for the top's header, then 5 to 33 for each token below it. Each header below the top has the
    /// shortest format that can hold it.
    pub fn bytes(&self) -> &[u8]
        ensures value { result.now ≡ (packed self.now).bytes }
        ensures range { IsInRange self.now }
        ensures limits { IsWithinLimits self.now }
        ensures least { 33 + 5 * size self.now.children ≤ length result.now }
        ensures most { length result.now ≤ 33 * suc (size self.now.children) }
        ensures shortest { HasShortestHeaders (tables_for (flat self.now.children)) self.now.children (drop 33 result.now) }
    {
        self.bytes.as_slice()
    }

    /// Returns the span parts that the tokens below the top use, and then the two of the top's spans. If the tokens use more than 15,
    /// those are ordered by number of uses, the largest first, and then by first use; otherwise by first use.
    pub fn parts(&self) -> &[SpanPart]
        ensures value { result.now ≡ (packed self.now).parts }
        ensures table { IsTable same_part short_parts (part_uses (flat self.now.children)) (take (length result.now - 2) result.now) }
    {
        self.parts.as_slice()
    }

    /// Returns the symbols that the tokens use. If there are more than 63, they are ordered by number of uses, the largest first, and
    /// then by first use; otherwise by first use. In no other order do the references to them take fewer bytes.
    pub fn symbols(&self) -> &[Symbol]
        ensures value { result.now ≡ (packed self.now).symbols }
        ensures table { IsTable bytes_eq short_symbols (symbol_uses (flat self.now.children)) result.now }
        ensures least { IsCheapest bytes_eq (symbol_uses (flat self.now.children)) result.now }
    {
        self.symbols.as_slice()
    }

    /// Returns the tables of the tree's tokens.
    pub(crate) fn tables(&self) -> Tables<'_>
        ensures { tables_of result ≡ tables_stored self.now }
    {
        Tables {
            parts: self.parts.as_slice(),
            symbols: self.symbols.as_slice(),
        }
    }

    /// Returns the number of tokens, with the top's header.
    pub fn len(&self) -> usize
        ensures { result ≡ suc (size self.now.children) }
    {
        self.len
    }

    /// Returns the same tree, stored again. Fails only if memory runs out.
    pub fn clone(&self, alloc: Global) -> Result<Packed, TtFault>
        ensures ok { IfOk result (λ copy. copy ≡ self.now) }
        ensures err { IfErr result (λ fault. fault ≡ Memory) }
    {
        let mut bytes = Vec::with_capacity(alloc, self.bytes.len())?;
        bytes.extend_from_slice(self.bytes.as_slice())?;
        let mut parts = Vec::with_capacity(alloc, self.parts.len())?;
        parts.extend_from_slice(self.parts.as_slice())?;
        let symbols = self.symbols.clone()?;
        Ok(Packed {
            bytes,
            parts,
            symbols,
            len: self.len,
        })
    }
}

impl PartialEq for Packed {
    ghost eq = { same_root };

    ghost laws = { Prim.search (comparing, same_token-equivalence, rules) };

    fn eq(&self, other: &Packed) -> bool
        ensures value { result ≡ same_root self.now other.now }
        ensures tree { IsTrue result ↔ self.now ≡ other.now }
    {
        if self.bytes.as_slice() != other.bytes.as_slice() {
            return false;
        }
        if self.parts.as_slice() != other.parts.as_slice() {
            return false;
        }
        self.symbols.as_slice() == other.symbols.as_slice()
    }
}

impl Eq for Packed {
    ghost laws = { Prim.search (comparing, same_token-equivalence, rules) };
}

impl Hash for Packed {
    ghost hash_input = { fed_tree };

    ghost respects_eq = { λ a b same. ap fed_tree ((same_root_iff a b).0 same) };

    fn hash<H: Hasher>(&self, state: &mut H) {
        let bytes = self.bytes.as_slice();
        state.write_usize(bytes.len());
        state.write(bytes);
        self.parts.as_slice().hash(state);
        self.symbols.as_slice().hash(state);
    }
}
