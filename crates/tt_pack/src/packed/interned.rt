//! Makes the tree of tokens that name values by places.
ghost use Rattle.std.specs.Prelude.{◌≡◌, ◌<◌, ◌≤◌, ◌^◌, ◌∷◌, length, IfOk, IfErr};
ghost use Rattle.tt_base.specs.Forest.{IsWhole, header, size, flat_root};
ghost use Rattle.tt_tables.specs.ListOf.{list_of};
ghost use Rattle.tt_tables.specs.OneNode.{IsOneNode};
ghost use Rattle.tt_tables.specs.PackFault.{IsPackFault};
ghost use Rattle.tt_tables.specs.Stored.{most_tokens, IsWithinLimits};

use super::Packed;
use crate::interned::InternedTables;
use std::alloc::Global;
use tt_base::{Delimiter, Subtree, TtFault};
use tt_tables::CountedTokens;

impl Packed {
    /// Returns the tree of tokens that name values by places, under a top of that delimiter. Fails as `pack` does for the flat list of
    /// that tree. Looks up no value: it reads the tokens once to write them, and those up to the last first use of a part once before.
    pub fn of_interned(
        alloc: Global,
        top: Delimiter,
        below: CountedTokens<'_>,
    ) -> Result<Packed, TtFault>
        requires whole { IsWhole (list_of below) }
        requires few { length (list_of below) < 2 ^ 32 }
        ensures ok { IfOk result (λ stored. (header top (length (list_of below.entry)) ∷ list_of below.entry ≡ flat_root stored) × (size stored.children ≤ most_tokens) × IsWithinLimits stored) }
        ensures err { IfErr result (IsPackFault (header top (length (list_of below.entry)) ∷ list_of below.entry)) }
    {
        let header = Subtree {
            delimiter: top,
            len: below.len() as u32,
        };
        let tables = InternedTables::of_tokens(alloc, below)?;
        Packed::of_numbered(alloc, header, tables)
    }

    /// Returns the tree of tokens that name values by places, and are those of one subtree. Its header becomes the top. Fails as `pack`
    /// does for the flat list. Besides the work of `of_interned`, it copies the numbers of uses of parts.
    pub fn of_interned_node(alloc: Global, tokens: CountedTokens<'_>) -> Result<Packed, TtFault>
        requires whole { IsWhole (list_of tokens) }
        requires few { length (list_of tokens) ≤ 2 ^ 32 }
        requires one { IsOneNode (list_of tokens) }
        ensures ok { IfOk result (λ stored. (list_of tokens.entry ≡ flat_root stored) × (size stored.children ≤ most_tokens) × IsWithinLimits stored) }
        ensures err { IfErr result (IsPackFault (list_of tokens.entry)) }
    {
        let top = tokens.delimiter();
        let part_uses = tokens.part_uses_behind(alloc)?;
        Packed::of_interned(alloc, top, tokens.behind(&part_uses))
    }
}
