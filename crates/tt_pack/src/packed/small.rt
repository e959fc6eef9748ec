//! Makes the tree of tokens in little memory.
ghost use Rattle.std.specs.Prelude.{◌≡◌, ◌<◌, ◌≤◌, ◌^◌, ◌∷◌, length, IfOk, IfErr};
ghost use Rattle.tt_base.specs.declared.token_tree.TokenTree.TheVariants as token;
ghost use Rattle.tt_base.specs.Forest.{IsWhole, header, size, flat_root};
ghost use Rattle.tt_tables.specs.PackFault.{IsPackFault};
ghost use Rattle.tt_tables.specs.Stored.{most_tokens, IsWithinLimits};

use super::Packed;
use crate::small::SmallTables;
use std::alloc::{AllocError, Global};
use tt_base::{Delimiter, Subtree, TokenTree, TtFault};
use tt_tables::SmallTokens;

// Returns the flat list of a header and the tokens below it.
fn whole_tokens(
    alloc: Global,
    header: Subtree,
    below: &SmallTokens,
) -> Result<Vec<TokenTree>, AllocError>
    ensures { IfOk result (λ tokens. tokens.items ≡ token.Subtree header ∷ below.now) }
{
    let mut tokens = Vec::new(alloc);
    tokens.reserve(below.len().saturating_add(1))?;
    tokens.push(TokenTree::Subtree(header))?;
    for place in 0..below.len() {
        tokens.push(below.token(place)?)?;
    }
    Ok(tokens)
}

impl Packed {
    /// Returns the tree of tokens in little memory, under a top of that delimiter. Fails as `pack` does for the flat list of that tree.
    /// If the spans of the tokens have several parts, it takes as much memory as `pack`.
    pub fn of_small(alloc: Global, top: Delimiter, below: SmallTokens) -> Result<Packed, TtFault>
        requires whole { IsWhole below }
        requires few { length below < 2 ^ 32 }
        requires some { 0 < length below }
        ensures ok { IfOk result (λ stored. (header top (length below) ∷ below ≡ flat_root stored) × (size stored.children ≤ most_tokens) × IsWithinLimits stored) }
        ensures err { IfErr result (IsPackFault (header top (length below) ∷ below)) }
    {
        let header = Subtree {
            delimiter: top,
            len: below.len() as u32,
        };
        let Some(part) = below.one_part() else {
            let tokens = whole_tokens(alloc, header, &below)?;
            return Packed::of_list(alloc, &tokens);
        };
        let tables = SmallTables::of_tokens(alloc, below, part)?;
        Packed::of_numbered(alloc, header, tables)
    }
}
