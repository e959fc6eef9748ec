//! A stored token tree.
ghost use Rattle.std.specs.Prelude.{◌≡◌, ◌<◌, ◌≤◌, ◌+◌, ◌*◌, ◌-◌, ◌^◌, ◌∷◌, suc, length, drop, take, ◌↔◌, IsTrue, IfOk, IfErr, bytes_eq};
ghost use Rattle.std.proofs.Common.{rules, ap};
ghost use Rattle.std.specs.Cmp.Rules.{comparing};
ghost use Rattle.tt_base.specs.declared.delimiter.DelimiterKind.TheVariants.{Invisible};
ghost use Rattle.tt_base.specs.declared.fault.TtFault.TheVariants.{Memory};
ghost use Rattle.tt_base.specs.Equality.{same_token-equivalence, same_root};
ghost use Rattle.tt_base.specs.Forest.{only, end, size, header, flat, flat_root, IsWhole};
ghost use Rattle.tt_base.specs.Siblings.{leaves as leaf_trees};
ghost use Rattle.tt_base.specs.Token.{delimiter};
ghost use Rattle.tt_base.proofs.SameTree.{same_root_iff};
ghost use Rattle.tt_tables.specs.ListOf.{list_of};
ghost use Rattle.tt_tables.specs.Cost.{IsCheapest};
ghost use Rattle.tt_tables.specs.PackFault.{IsPackFault};
ghost use Rattle.tt_tables.specs.Shortest.{HasShortestHeaders};
ghost use Rattle.tt_tables.specs.Stored.{most_tokens, packed, IsInRange, IsWithinLimits};
ghost use Rattle.tt_tables.specs.TableOrder.{IsTable};
ghost use Rattle.tt_tables.specs.Tables.{tables_for, short_parts, short_symbols};
ghost use Rattle.tt_tables.specs.Uses.{same_part, part_uses, symbol_uses};
ghost use Rattle.tt_tables.specs.OneNode.{IsOneNode};
ghost use Rattle.tt_pack.specs.Packed.{fed_tree};
ghost use Rattle.tt_view.specs.TreeFault.{under, IsTreeFault};

mod ast_ids;
mod edits;
mod setters;

use crate::iter::TtIter;
use crate::subtree_view::SubtreeView;
use crate::view::TokenTreesView;
use std::alloc::Global;
use std::hash::{Hash, Hasher};
use std::marker::Model;
use tt_base::{
    DelimSpan, Delimiter, Leaf, Refused, Span, SpanPart, Subtree, Symbol, TokenTree, TtFault,
};
use tt_pack::Packed;
use tt_tables::{CountedTokens, SmallTokens};

/// A token tree: a delimiter and the trees inside. A contract sees the tree. Memory has it as bytes and two tables, which are a function
/// of the tree (docs/FORMATS.md).
#[derive(Drop)]
pub struct TopSubtree {
    packed: Packed,
}

impl Model for TopSubtree {
    ghost use Rattle.tt_base.specs.Forest.{Root};
    ghost use Rattle.tt_base.specs.Unflat.{root_code};

    ghost Value = { Root };

    ghost coded = { root_code };

    ghost view = { λ tree. tree.packed };
}

impl TopSubtree {
    ghost use Rattle.tt_view.specs.Views.{trees_of};
    ghost use Rattle.tt_view.specs.SubtreeViews.{root_of};
    ghost use Rattle.tt_view.specs.Iters.{rest_of};

    /// Returns the tree with an invisible delimiter, these spans, and nothing inside. Fails only if memory runs out.
    pub fn empty(alloc: Global, span: DelimSpan) -> Result<TopSubtree, TtFault>
        ensures ok { IfOk result (λ tree. tree ≡ under (delimiter Invisible span.open_span span.close) end) }
        ensures limits { IfOk result (λ tree. IsWithinLimits tree) }
        ensures err { IfErr result (λ fault. fault ≡ Memory) }
    {
        let mut tokens = Vec::new(alloc);
        tokens.push(TokenTree::Subtree(Subtree {
            delimiter: Delimiter::invisible_delim_spanned(span),
            len: 0,
        }))?;
        let packed = Packed::pack(alloc, tokens)?;
        Ok(TopSubtree { packed })
    }

    /// Returns the tree of these leaves under an invisible delimiter, both spans of which are `span`. Fails if the tree exceeds a limit
    /// (`docs/FORMATS.md`), or if memory runs out.
    pub fn invisible_from_leaves<const N: usize>(
        alloc: Global,
        span: Span,
        leaves: [Leaf; N],
    ) -> Result<TopSubtree, TtFault>
        ensures ok { IfOk result (λ tree. tree ≡ under (delimiter Invisible span span) (leaf_trees leaves.entry)) }
        ensures limits { IfOk result (λ tree. IsWithinLimits tree) }
        ensures err { IfErr result (IsTreeFault (under (delimiter Invisible span span) (leaf_trees leaves.entry))) }
    {
        let leaves = Vec::from_array(alloc, leaves)?;
        let Ok(len) = u32::try_from(leaves.len()) else {
            return Err(TtFault::TooManyTokens);
        };
        let mut tokens = Vec::new(alloc);
        tokens.push(TokenTree::Subtree(Subtree {
            delimiter: Delimiter::invisible_spanned(span),
            len,
        }))?;
        for leaf in leaves {
            tokens.push(TokenTree::Leaf(leaf))?;
        }
        let packed = Packed::pack(alloc, tokens)?;
        Ok(TopSubtree { packed })
    }

    /// Returns the tree of a flat list. Fails if the list is not that of exactly one subtree, or has too many span parts, too many
    /// symbols or too many bytes, in this order, or if memory runs out. A failure returns the list.
    pub fn from_serialized(
        alloc: Global,
        tokens: Vec<TokenTree>,
    ) -> Result<TopSubtree, Refused<Vec<TokenTree>>>
        ensures ok { IfOk result (λ tree. tokens.items ≡ flat_root tree) }
        ensures counts { IfOk result (λ tree. size tree.children ≤ most_tokens) }
        ensures limits { IfOk result (λ tree. IsWithinLimits tree) }
        ensures fault { IfErr result (λ refused. IsPackFault tokens.items refused.fault) }
        ensures list { IfErr result (λ refused. refused.value ≡ tokens) }
    {
        Packed::pack(alloc, tokens).map(TopSubtree::from_packed)
    }

    /// Returns the tree of a flat list that stays with the caller. Fails as `from_serialized` does.
    pub fn from_tokens(alloc: Global, tokens: &[TokenTree]) -> Result<TopSubtree, TtFault>
        ensures ok { IfOk result (λ tree. tokens.now ≡ flat_root tree) }
        ensures counts { IfOk result (λ tree. size tree.children ≤ most_tokens) }
        ensures limits { IfOk result (λ tree. IsWithinLimits tree) }
        ensures err { IfErr result (IsPackFault tokens.now) }
    {
        let packed = Packed::of_list(alloc, tokens)?;
        Ok(TopSubtree { packed })
    }

    /// Returns the tree of tokens that name values by places, under a top of that delimiter. Fails as `from_serialized` does for the flat
    /// list of that tree.
    pub fn from_interned(
        alloc: Global,
        top: Delimiter,
        below: CountedTokens<'_>,
    ) -> Result<TopSubtree, TtFault>
        requires whole { IsWhole (list_of below) }
        requires few { length (list_of below) < 2 ^ 32 }
        ensures ok { IfOk result (λ tree. header top (length (list_of below.entry)) ∷ list_of below.entry ≡ flat_root tree) }
        ensures counts { IfOk result (λ tree. size tree.children ≤ most_tokens) }
        ensures limits { IfOk result (λ tree. IsWithinLimits tree) }
        ensures err { IfErr result (IsPackFault (header top (length (list_of below.entry)) ∷ list_of below.entry)) }
    {
        let packed = Packed::of_interned(alloc, top, below)?;
        Ok(TopSubtree { packed })
    }

    /// Returns the tree of tokens in little memory, under a top of that delimiter. Fails as `from_serialized` does for the flat list of
    /// that tree.
    pub fn from_small(
        alloc: Global,
        top: Delimiter,
        below: SmallTokens,
    ) -> Result<TopSubtree, TtFault>
        requires whole { IsWhole below }
        requires few { length below < 2 ^ 32 }
        requires some { 0 < length below }
        ensures ok { IfOk result (λ tree. header top (length below) ∷ below ≡ flat_root tree) }
        ensures counts { IfOk result (λ tree. size tree.children ≤ most_tokens) }
        ensures limits { IfOk result (λ tree. IsWithinLimits tree) }
        ensures err { IfErr result (IsPackFault (header top (length below) ∷ below)) }
    {
        let packed = Packed::of_small(alloc, top, below)?;
        Ok(TopSubtree { packed })
    }

    /// Returns the tree of tokens that are those of one subtree, whose header becomes the top. Fails as `from_serialized` does.
    pub fn from_interned_node(
        alloc: Global,
        tokens: CountedTokens<'_>,
    ) -> Result<TopSubtree, TtFault>
        requires whole { IsWhole (list_of tokens) }
        requires few { length (list_of tokens) ≤ 2 ^ 32 }
        requires one { IsOneNode (list_of tokens) }
        ensures ok { IfOk result (λ tree. list_of tokens.entry ≡ flat_root tree) }
        ensures counts { IfOk result (λ tree. size tree.children ≤ most_tokens) }
        ensures limits { IfOk result (λ tree. IsWithinLimits tree) }
        ensures err { IfErr result (IsPackFault (list_of tokens.entry)) }
    {
        let packed = Packed::of_interned_node(alloc, tokens)?;
        Ok(TopSubtree { packed })
    }

    /// Returns the trees of a list under that delimiter. Fails if the tree exceeds a limit (`docs/FORMATS.md`), or if memory runs out.
    pub fn from_token_trees(
        alloc: Global,
        delimiter: Delimiter,
        trees: TokenTreesView<'_>,
    ) -> Result<TopSubtree, TtFault>
        ensures ok { IfOk result (λ tree. tree ≡ under delimiter (trees_of trees.entry)) }
        ensures limits { IfOk result (λ tree. IsWithinLimits tree) }
        ensures err { IfErr result (IsTreeFault (under delimiter (trees_of trees.entry))) }
    {
        let Ok(len) = u32::try_from(trees.len()) else {
            return Err(TtFault::TooManyTokens);
        };
        let mut tokens = Vec::with_capacity(alloc, trees.len() + 1)?;
        tokens.push(TokenTree::Subtree(Subtree { delimiter, len }))?;
        tokens.extend(trees.iter_flat_tokens())?;
        let packed = Packed::of_list(alloc, &tokens)?;
        Ok(TopSubtree { packed })
    }

    /// Returns one subtree as a tree of its own. Fails if that tree exceeds a limit (`docs/FORMATS.md`), or if memory runs out.
    pub fn from_subtree(alloc: Global, subtree: SubtreeView<'_>) -> Result<TopSubtree, TtFault>
        ensures ok { IfOk result (λ tree. tree ≡ root_of subtree.entry) }
        ensures limits { IfOk result (λ tree. IsWithinLimits tree) }
        ensures err { IfErr result (IsTreeFault (root_of subtree.entry)) }
    {
        let delimiter = subtree.top_subtree().delimiter;
        TopSubtree::from_token_trees(alloc, delimiter, subtree.token_trees())
    }

    /// Returns the tree that the stored form means.
    pub fn from_packed(packed: Packed) -> TopSubtree
        ensures { result ≡ packed }
    {
        TopSubtree { packed }
    }

    // Returns the packed form.
    pub(crate) fn packed(&self) -> &Packed
        ensures { result.now ≡ self.now }
    {
        &self.packed
    }

    /// Returns the same tree, stored again. Fails only if memory runs out.
    pub fn clone(&self, alloc: Global) -> Result<TopSubtree, TtFault>
        ensures ok { IfOk result (λ copy. copy ≡ self.now) }
        ensures err { IfErr result (λ fault. fault ≡ Memory) }
    {
        let packed = self.packed.clone(alloc)?;
        Ok(TopSubtree { packed })
    }

    /// Returns a view of the whole tree.
    pub fn view(&self) -> SubtreeView<'_>
        ensures { root_of result ≡ self.now }
    {
        SubtreeView::of_one(TokenTreesView::whole(&self.packed))
    }

    /// Returns the whole tree as a list of one.
    pub fn as_token_trees(&self) -> TokenTreesView<'_>
        ensures { trees_of result ≡ only self.now }
    {
        TokenTreesView::whole(&self.packed)
    }

    /// Returns the trees below the top.
    pub fn token_trees(&self) -> TokenTreesView<'_>
        ensures { trees_of result ≡ self.now.children }
    {
        TokenTreesView::below_top(&self.packed)
    }

    /// Returns the top's header.
    pub fn top_subtree(&self) -> Subtree
        ensures delimiter { result.delimiter ≡ self.now.delimiter }
        ensures len { result.len ≡ size self.now.children }
    {
        self.view().top_subtree()
    }

    /// Returns an iterator over the trees below the top.
    pub fn iter(&self) -> TtIter<'_>
        ensures { rest_of result ≡ self.now.children }
    {
        self.token_trees().iter()
    }

    /// Returns the stored bytes: 33 for the top's header, then 5 to 33 for each token below it. Each header below the top has the
    /// shortest format that can hold it.
    pub fn packed_bytes(&self) -> &[u8]
        ensures value { result.now ≡ (packed self.now).bytes }
        ensures range { IsInRange self.now }
        ensures limits { IsWithinLimits self.now }
        ensures least { 33 + 5 * size self.now.children ≤ length result.now }
        ensures most { length result.now ≤ 33 * suc (size self.now.children) }
        ensures shortest { HasShortestHeaders (tables_for (flat self.now.children)) self.now.children (drop 33 result.now) }
    {
        self.packed.bytes()
    }

    /// Returns the span parts that the tokens below the top use, and then the two of the top's spans. If the tokens use more than 15,
    /// those are ordered by number of uses, the largest first, and then by first use; otherwise by first use.
    pub fn span_part_table(&self) -> &[SpanPart]
        ensures value { result.now ≡ (packed self.now).parts }
        ensures table { IsTable same_part short_parts (part_uses (flat self.now.children)) (take (length result.now - 2) result.now) }
    {
        self.packed.parts()
    }

    /// Returns the symbols that the tokens use. If there are more than 63, they are ordered by number of uses, the largest first, and
    /// then by first use; otherwise by first use. In no other order do the references to them take fewer bytes.
    pub fn symbol_table(&self) -> &[Symbol]
        ensures value { result.now ≡ (packed self.now).symbols }
        ensures table { IsTable bytes_eq short_symbols (symbol_uses (flat self.now.children)) result.now }
        ensures least { IsCheapest bytes_eq (symbol_uses (flat self.now.children)) result.now }
    {
        self.packed.symbols()
    }
}

impl PartialEq for TopSubtree {
    ghost eq = { same_root };

    ghost laws = { Prim.search (comparing, same_token-equivalence, rules) };

    fn eq(&self, other: &TopSubtree) -> bool
        ensures value { result ≡ same_root self.now other.now }
        ensures tree { IsTrue result ↔ self.now ≡ other.now }
    {
        self.packed == other.packed
    }
}

impl Eq for TopSubtree {
    ghost laws = { Prim.search (comparing, same_token-equivalence, rules) };
}

impl Hash for TopSubtree {
    ghost hash_input = { fed_tree };

    ghost respects_eq = { λ a b same. ap fed_tree ((same_root_iff a b).0 same) };

    fn hash<H: Hasher>(&self, state: &mut H) {
        self.packed.hash(state);
    }
}
