//! Changes to the list of tokens that a builder holds.
ghost use Rattle.std.specs.Prelude.{◌≡◌, ◌≤◌, ◌<◌, ◌+◌, ◌++◌, ◌⊎◌, IfErr, OnErr, OnOk, List, Some, suc, if◌then◌else◌, length, map, take};
ghost use Rattle.std.specs.Iterator.{Drains, IsFinite, YieldsThen};
ghost use Rattle.tt_base.specs.Building.{alone};
ghost use Rattle.tt_base.specs.Forest.{flat, size};
ghost use Rattle.tt_base.specs.declared.fault.TtFault.TheVariants.{Memory, TooManyTokens};
ghost use Rattle.tt_base.specs.declared.leaf.Leaf.{Leaf};
ghost use Rattle.tt_base.specs.declared.token_tree.TokenTree.TheVariants as token;
ghost use Rattle.tt_tables.specs.Held.{whole};
ghost use Rattle.tt_view.specs.Views.{trees_of};
ghost use Rattle.tt.specs.InternedKinds.{named_kind, named_kind_at, is_named_invisible, is_named_node};

use std::alloc::AllocError;
use tt_base::{DelimiterKind, Leaf, TtFault};
use tt_tables::{InternedToken, InternedTokens};
use tt_view::TokenTreesView;

// Returns the kind of a header's delimiter, or invisible for a leaf.
fn kind_of(token: InternedToken) -> DelimiterKind
    ensures { result ≡ named_kind token }
{
    match token {
        InternedToken::Leaf(_) => DelimiterKind::Invisible,
        InternedToken::Open(kind, _) => kind,
        InternedToken::Header(header) => header.kind,
    }
}

/// Returns the kind of the header at a place, or invisible if no header is there.
pub(crate) fn kind_at(tokens: &[InternedToken], place: usize) -> DelimiterKind
    ensures { result ≡ named_kind_at tokens.now place }
{
    if place < tokens.len() {
        kind_of(tokens[place])
    } else {
        DelimiterKind::Invisible
    }
}

/// Returns whether the token is an invisible header that is closed.
pub(crate) fn is_invisible(token: InternedToken) -> bool
    ensures { result ≡ is_named_invisible token }
{
    match token {
        InternedToken::Leaf(_) | InternedToken::Open(..) => false,
        InternedToken::Header(header) => matches!(header.kind, DelimiterKind::Invisible),
    }
}

/// Returns whether the tokens of whole trees are those of exactly one subtree.
pub(crate) fn is_one_node(tokens: &[InternedToken]) -> bool
    ensures { result ≡ is_named_node tokens.now }
{
    match tokens.split_first() {
        Some((InternedToken::Header(header), below)) => header.len as usize == below.len(),
        _ => false,
    }
}

// Appends the tokens of whole trees. If memory runs out, some of them may stay at the end of the list.
fn push_all(held: &mut InternedTokens, trees: TokenTreesView<'_>) -> Result<(), AllocError>
    requires { length held.old + size (trees_of trees) ≤ 4294967295 }
    ensures ok { OnOk result (held.new ≡ held.old ++ map whole (flat (trees_of trees.entry))) }
    ensures err { OnErr result (take (length held.old) held.new ≡ held.old) }
{
    for token in trees.iter_flat_tokens() {
        held.push(&token)?;
    }
    Ok(())
}

/// Appends the tokens of whole trees. Returns false, and leaves the list as it was, if memory runs out.
pub(crate) fn add_trees(held: &mut InternedTokens, trees: TokenTreesView<'_>) -> bool
    requires { length held.old + size (trees_of trees) ≤ 4294967295 }
    ensures { held.new ≡ (if result then held.old ++ map whole (flat (trees_of trees.entry)) else held.old) }
{
    let len = held.len();
    if held.reserve(trees.len()).is_err() {
        return false;
    }
    if push_all(held, trees).is_err() {
        held.truncate(len);
        return false;
    }
    true
}

/// The same; if the last of the tokens is a punct, it becomes alone.
pub(crate) fn add_trees_alone(held: &mut InternedTokens, trees: TokenTreesView<'_>) -> bool
    requires { length held.old + size (trees_of trees) ≤ 4294967295 }
    ensures { held.new ≡ (if result then held.old ++ map whole (flat (alone (trees_of trees.entry))) else held.old) }
{
    if !add_trees(held, trees) {
        return false;
    }
    if !trees.is_empty() {
        held.set_last_alone();
    }
    true
}

/// Appends leaves until the iterator ends. Fails if the list is full or memory runs out; the leaves before that one stay in the list.
pub(crate) fn add_leaves<I: Iterator<Item = Leaf> + Drop>(
    held: &mut InternedTokens,
    leaves: I,
) -> Result<(), TtFault>
    requires can { I.can_next leaves }
    requires ends { IsFinite (I.remaining leaves) }
    requires few { length held.old ≤ 4294967295 }
    ensures ok { OnOk result ((given : List Leaf) × Drains I.next_gives leaves given × (held.new ≡ held.old ++ map whole (map token.Leaf given)) × (length held.new ≤ 4294967295)) }
    ensures err { OnErr result ((given : List Leaf) × (held.new ≡ held.old ++ map whole (map token.Leaf given))) }
    ensures fault { IfErr result (λ fault. (given : List Leaf) × (next : Leaf) × (rest : I) × YieldsThen I.next_gives leaves given (Some next) rest × (((fault ≡ Memory) × (length held.old + suc (length given) ≤ 4294967295)) ⊎ ((fault ≡ TooManyTokens) × (4294967295 < length held.old + suc (length given))))) }
{
    for leaf in leaves {
        if held.len() >= u32::MAX as usize {
            return Err(TtFault::TooManyTokens);
        }
        if held.push_leaf(&leaf).is_err() {
            return Err(TtFault::Memory);
        }
    }
    Ok(())
}
