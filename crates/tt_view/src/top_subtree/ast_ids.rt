//! New ids for all spans of a tree.
ghost use Rattle.std.specs.Prelude.{◌≡◌, ◌<◌, ◌≤◌, ◌⊎◌, ◌∷◌, List, map, length, IfOk, IfErr, OnOk, OnErr};
ghost use Rattle.indexmap.specs.IndexMap.{get};
ghost use Rattle.tt_base.specs.declared.fault.TtFault.TheVariants.{Memory, TooManyBytes};
ghost use Rattle.tt_base.specs.declared.span.ErasedFileAstId.{ErasedFileAstId as Id};
ghost use Rattle.tt_base.specs.declared.span.SpanPart.{SpanPart as Part};
ghost use Rattle.tt_base.specs.declared.token_tree.TokenTree.TheVariants as token;
ghost use Rattle.tt_base.specs.Asked.{AsksAll};
ghost use Rattle.tt_base.specs.Edits.{with_id, respanned_leaf};
ghost use Rattle.tt_base.specs.Forest.{flat};
ghost use Rattle.tt_tables.specs.AstIds.{with_id_at, ids_changed, respanned_token, parts_with_ids, under_parts, KeepApart};
ghost use Rattle.tt_tables.specs.Stored.{packed as stored_for, root_parts, IsWithinLimits};
ghost use Rattle.tt_tables.specs.Uses.{same_part};
ghost use Rattle.tt_view.specs.NewIds.{AnswersIds, id_for, span_with};
ghost use Rattle.tt_view.specs.TreeFault.{IsTreeFault};
ghost use Rattle.tt_view.specs.Views.{trees_of};

use crate::top_subtree::TopSubtree;
use crate::view::TokenTreesView;
use indexmap::IndexMap;
use std::alloc::{AllocError, Global};
use tt_base::{
    Delimiter, ErasedFileAstId, Ident, Leaf, Punct, Span, SpanAnchor, SpanPart, Subtree, TokenTree,
    TtFault,
};
use tt_pack::Packed;

// The last parts of a table are those of the top's two spans.
const TOP_PARTS: usize = 2;

// Calls the callback for each part's id, in order, and returns its answers.
fn ask_all<F: FnMut(ErasedFileAstId) -> ErasedFileAstId>(
    alloc: Global,
    parts: &[SpanPart],
    mut callback: F,
) -> Result<Vec<ErasedFileAstId>, AllocError>
    requires { F.IsAlwaysCallable callback }
    ensures { IfOk result (λ ids. (last : F) × AsksAll (λ p x y q. F.step p x y q) callback (map (λ part. part.anchor.ast_id) parts.now) ids.items last) }
{
    let mut ids = Vec::with_capacity(alloc, parts.len())?;
    let mut rest = parts;
    while let Some((part, others)) = rest.split_first() {
        ids.push(callback(part.anchor.ast_id))?;
        rest = others;
    }
    Ok(ids)
}

// Returns the map from each part to its id. The first of equal parts counts.
fn by_part(
    alloc: Global,
    parts: &[SpanPart],
    ids: &[ErasedFileAstId],
) -> Result<IndexMap<SpanPart, ErasedFileAstId>, AllocError>
    requires { length parts.now ≤ length ids.now }
    ensures { IfOk result (λ found. (part : Part) → get same_part found part ≡ id_for parts.now ids.now part) }
{
    let mut found = IndexMap::new(alloc);
    let mut index = parts.len();
    // from the last to the first, so the id of the first of equal parts stays
    while index > 0 {
        index -= 1;
        found.insert(parts[index], ids[index])?;
    }
    Ok(found)
}

// Returns the span with another id.
fn with_id(id: ErasedFileAstId, span: Span) -> Span
    ensures { result ≡ with_id id span }
{
    Span {
        range: span.range,
        anchor: SpanAnchor {
            file_id: span.anchor.file_id,
            ast_id: id,
        },
        ctx: span.ctx,
    }
}

// Returns the span with the id at an index.
fn with_id_at(ids: &[ErasedFileAstId], index: usize, span: Span) -> Span
    requires { index < length ids.now }
    ensures { result ≡ with_id_at ids.now index span }
{
    with_id(ids[index], span)
}

// Returns the span with the id of its part.
fn new_span(ids: &IndexMap<SpanPart, ErasedFileAstId>, span: Span) -> Span
    ensures { result ≡ span_with (get same_part ids.now) span }
{
    match ids.get(&SpanPart::from_span(&span)) {
        Some(id) => with_id(*id, span),
        None => span,
    }
}

// Returns the leaf with the id of its part.
fn new_leaf(ids: &IndexMap<SpanPart, ErasedFileAstId>, leaf: Leaf) -> Leaf
    ensures { result ≡ respanned_leaf (span_with (get same_part ids.now)) leaf }
{
    let span = new_span(ids, *leaf.span());
    match leaf {
        Leaf::Literal(literal) => Leaf::Literal(literal.with_span(span)),
        Leaf::Punct(punct) => Leaf::Punct(Punct {
            char: punct.char,
            spacing: punct.spacing,
            span,
        }),
        Leaf::Ident(ident) => Leaf::Ident(Ident {
            sym: ident.sym,
            span,
            is_raw: ident.is_raw,
        }),
    }
}

// Returns the token with the ids of its parts.
fn new_token(ids: &IndexMap<SpanPart, ErasedFileAstId>, token: TokenTree) -> TokenTree
    ensures { result ≡ respanned_token (span_with (get same_part ids.now)) token }
{
    match token {
        TokenTree::Leaf(leaf) => TokenTree::Leaf(new_leaf(ids, leaf)),
        TokenTree::Subtree(subtree) => TokenTree::Subtree(Subtree {
            delimiter: Delimiter {
                open_span: new_span(ids, subtree.delimiter.open_span),
                close: new_span(ids, subtree.delimiter.close),
                kind: subtree.delimiter.kind,
            },
            len: subtree.len,
        }),
    }
}

// Returns the flat list of a header and the trees, in which each token has the ids of its parts.
fn new_list(
    alloc: Global,
    ids: &IndexMap<SpanPart, ErasedFileAstId>,
    top: Subtree,
    below: TokenTreesView<'_>,
) -> Result<Vec<TokenTree>, AllocError>
    ensures { IfOk result (λ list. list.items ≡ token.Subtree top ∷ map (respanned_token (span_with (get same_part ids.now))) (flat (trees_of below.entry))) }
{
    let mut list = Vec::with_capacity(alloc, below.len().saturating_add(1))?;
    list.push(TokenTree::Subtree(top))?;
    for token in below.iter_flat_tokens() {
        list.push(new_token(ids, token))?;
    }
    Ok(list)
}

impl TopSubtree {
    /// Changes the ids of all spans. Calls the callback once with the id of each entry of the table of span parts, in order, and so with
    /// those of the top's open and close span last. A span takes the answer for its entry. The callback must accept any id, as one
    /// without a `requires` does.
    ///
    /// If no two entries below the top become equal, the change is in place: the entries take their ids, and the bytes and the symbols
    /// stay. Otherwise the tree is stored again. Fails, and leaves the tree as it was, if the tree would take too many bytes, or if
    /// memory runs out. The new tree has no more span parts than the old one, and the same symbols, so it cannot exceed another limit.
    pub fn change_every_ast_id<F: FnMut(ErasedFileAstId) -> ErasedFileAstId>(
        &mut self,
        alloc: Global,
        callback: F,
    ) -> Result<(), TtFault>
        requires { F.IsAlwaysCallable callback }
        ensures ok { OnOk result ((ids : List Id) × AnswersIds (λ p x y q. F.step p x y q) callback self.old ids × (self.new ≡ ids_changed ids self.old)) }
        ensures stored { OnOk result ((ids : List Id) → self.new ≡ ids_changed ids self.old → KeepApart ids self.old → stored_for self.new ≡ under_parts (parts_with_ids ids (root_parts self.old)) (stored_for self.old)) }
        ensures limits { OnOk result (IsWithinLimits self.new) }
        ensures err { OnErr result (self.new ≡ self.old) }
        ensures fault { IfErr result (λ fault. (fault ≡ Memory) ⊎ ((ids : List Id) × AnswersIds (λ p x y q. F.step p x y q) callback self.old ids × IsTreeFault (ids_changed ids self.old) fault)) }
        ensures limit { IfErr result (λ fault. (fault ≡ Memory) ⊎ (fault ≡ TooManyBytes)) }
    {
        // the contract of `bytes` says that the tree is within the limits
        let _bytes = self.packed.bytes();
        let ids = ask_all(alloc, self.packed.parts(), callback)?;
        self.take_ids(alloc, &ids)
    }

    // Changes the ids to these, in place if no two entries below the top become equal.
    fn take_ids(&mut self, alloc: Global, ids: &[ErasedFileAstId]) -> Result<(), TtFault>
        requires { length ids.now ≡ length (root_parts self.old) }
        ensures ok { OnOk result (self.new ≡ ids_changed ids.now self.old) }
        ensures limits { OnOk result (IsWithinLimits self.new) }
        ensures err { OnErr result (self.new ≡ self.old) }
        ensures fault { IfErr result (IsTreeFault (ids_changed ids.now self.old)) }
    {
        if self.packed.ids_keep_apart(alloc, ids)? {
            self.packed.set_ids(ids);
            return Ok(());
        }
        self.packed = self.with_ids(alloc, ids)?;
        Ok(())
    }

    // Returns the tree with these ids, stored again.
    fn with_ids(&self, alloc: Global, ids: &[ErasedFileAstId]) -> Result<Packed, TtFault>
        requires { length ids.now ≡ length (root_parts self.now) }
        ensures ok { IfOk result (λ packed. packed ≡ ids_changed ids.now self.now) }
        ensures limits { IfOk result (λ packed. IsWithinLimits packed) }
        ensures err { IfErr result (IsTreeFault (ids_changed ids.now self.now)) }
    {
        let parts = self.packed.parts();
        let below = parts.len() - TOP_PARTS;
        let found = by_part(alloc, &parts[..below], ids)?;
        let top = self.top_subtree();
        let delimiter = Delimiter {
            open_span: with_id_at(ids, below, top.delimiter.open_span),
            close: with_id_at(ids, below + 1, top.delimiter.close),
            kind: top.delimiter.kind,
        };
        let header = Subtree {
            delimiter,
            len: top.len,
        };
        let list = new_list(alloc, &found, header, self.token_trees())?;
        Ok(Packed::pack(alloc, list)?)
    }
}
