//! The values that each token of a list uses, found in one pass over the list.
ghost use Rattle.std.specs.Prelude.{◌≡◌, true, [], IfOk, IfErr, IfSome, IfNone, OnOk};
ghost use Rattle.tt_base.specs.declared.token_tree.TokenTree.TheVariants as token;
ghost use Rattle.tt_base.specs.Levels.{open_levels, TakesToken};
ghost use Rattle.tt_base.specs.Span.{part_of};
ghost use Rattle.tt_tables.specs.Uses.{part_uses, symbol_uses};
ghost use Rattle.tt_pack.specs.Meeting.{CanMeet, MeetsBoth, MeetsToken, AreListUses};
ghost use Rattle.tt_pack.specs.Packed.{IsCountFault};
ghost use Rattle.tt_pack.specs.Room.{TakesRoom, IsTakeFault};

use crate::room::{MOST_HEADER_BYTES, MOST_IDENT_BYTES, MOST_LITERAL_BYTES, most_punct_bytes};
use crate::values::Values;
use std::alloc::{AllocError, Global};
use tt_base::{Leaf, Levels, Span, Subtree, Symbol, TokenTree, TtFault};

/// The values that a token uses, as indices in the order of first uses.
#[derive(Debug, Clone, Copy, PartialEq)]
pub(crate) struct TokenUses {
    /// The part of a leaf, or the open part of a header.
    pub(crate) part: u32,
    /// The symbol of an ident or a literal, or the close part of a header. That of a punct has no meaning.
    pub(crate) other: u32,
}

/// The values that each token of a list uses, and the number of bytes that all tokens can take.
#[derive(Drop)]
pub(crate) struct ListUses {
    pub(crate) tokens: Vec<TokenUses>,
    pub(crate) room: usize,
}

// Adds a use of a part and a use of a symbol. Tokens side by side mostly have the same part, so this looks first at `before`, the index
// of the part of the token before. Returns `None` if a value has no place.
#[inline(always)]
fn meet_both<V: Values>(
    values: &mut V,
    before: u32,
    span: &Span,
    symbol: &Symbol,
) -> Result<Option<TokenUses>, AllocError>
    requires { CanMeet V.has_met values.old 1 1 }
    ensures met { IfOk result (λ found. IfSome found (MeetsBoth V.has_met values.old values.new (part_of span.now) symbol.now)) }
    ensures none { IfOk result (λ found. IfNone found V.may_lack) }
{
    let Some(part) = values.part_index(before, span)? else {
        return Ok(None);
    };
    let Some(other) = values.symbol_index(symbol)? else {
        return Ok(None);
    };
    Ok(Some(TokenUses { part, other }))
}

impl ListUses {
    // Adds the uses of a leaf, and the largest number of bytes that it can take. Returns `None` if a value has no place.
    #[inline(always)]
    fn meet_leaf<V: Values>(
        &mut self,
        values: &mut V,
        before: u32,
        leaf: &Leaf,
    ) -> Result<Option<TokenUses>, AllocError>
        requires { CanMeet V.has_met values.old 1 1 }
        ensures met { IfOk result (λ found. IfSome found (MeetsToken V.has_met values.old values.new (token.Leaf leaf.now))) }
        ensures none { IfOk result (λ found. IfNone found V.may_lack) }
        ensures room { TakesRoom (token.Leaf leaf.now) self.old.room self.new.room }
        ensures tokens { self.new.tokens ≡ self.old.tokens }
    {
        match leaf {
            Leaf::Literal(literal) => {
                self.room = self.room.saturating_add(MOST_LITERAL_BYTES);
                meet_both(values, before, literal.span(), literal.symbol())
            }
            Leaf::Punct(punct) => {
                self.room = self.room.saturating_add(most_punct_bytes(punct.char));
                let Some(part) = values.part_index(before, &punct.span)? else {
                    return Ok(None);
                };
                Ok(Some(TokenUses { part, other: part }))
            }
            Leaf::Ident(ident) => {
                self.room = self.room.saturating_add(MOST_IDENT_BYTES);
                meet_both(values, before, &ident.span, &ident.sym)
            }
        }
    }

    // The same for a header.
    #[inline(always)]
    fn meet_header<V: Values>(
        &mut self,
        values: &mut V,
        before: u32,
        header: Subtree,
    ) -> Result<Option<TokenUses>, AllocError>
        requires { CanMeet V.has_met values.old 2 0 }
        ensures met { IfOk result (λ found. IfSome found (MeetsToken V.has_met values.old values.new (token.Subtree header))) }
        ensures none { IfOk result (λ found. IfNone found V.may_lack) }
        ensures room { TakesRoom (token.Subtree header) self.old.room self.new.room }
        ensures tokens { self.new.tokens ≡ self.old.tokens }
    {
        self.room = self.room.saturating_add(MOST_HEADER_BYTES);
        let Some(part) = values.part_index(before, &header.delimiter.open_span)? else {
            return Ok(None);
        };
        let Some(other) = values.part_index(part, &header.delimiter.close)? else {
            return Ok(None);
        };
        Ok(Some(TokenUses { part, other }))
    }

    // The same for the next token. Fails if it does not fit after those before it, or if memory runs out. The code tests the kind of the
    // token only once, so each arm calls `levels`.
    #[inline(always)]
    fn meet_token<V: Values>(
        &mut self,
        values: &mut V,
        levels: &mut Levels,
        before: u32,
        token: &TokenTree,
    ) -> Result<Option<TokenUses>, TtFault>
        requires { CanMeet V.has_met values.old 2 1 }
        ensures levels { OnOk result (TakesToken (open_levels levels.old) token.now (open_levels levels.new) true) }
        ensures met { IfOk result (λ found. IfSome found (MeetsToken V.has_met values.old values.new token.now)) }
        ensures none { IfOk result (λ found. IfNone found V.may_lack) }
        ensures room { OnOk result (TakesRoom token.now self.old.room self.new.room) }
        ensures tokens { self.new.tokens ≡ self.old.tokens }
        ensures err { IfErr result (IsTakeFault (open_levels levels.old) token.now) }
    {
        match token {
            TokenTree::Leaf(leaf) => {
                if !levels.take(token)? {
                    return Err(TtFault::NotOneSubtree);
                }
                Ok(self.meet_leaf(values, before, leaf)?)
            }
            TokenTree::Subtree(header) => {
                if !levels.take(token)? {
                    return Err(TtFault::NotOneSubtree);
                }
                Ok(self.meet_header(values, before, *header)?)
            }
        }
    }

    /// Returns the values that the tokens use, or `None` if a value has no place. `values` has no values yet. The same pass checks that
    /// the tokens are a whole list, and counts the bytes that they can take. Fails if they are not a whole list (`NotOneSubtree`), or if
    /// memory runs out.
    #[inline(never)]
    pub(crate) fn of_tokens<V: Values>(
        alloc: Global,
        values: &mut V,
        tokens: &[TokenTree],
    ) -> Result<Option<ListUses>, TtFault>
        requires { V.has_met values.old [] [] }
        ensures met { IfOk result (λ found. IfSome found (λ uses. V.has_met values.new (part_uses tokens.now) (symbol_uses tokens.now))) }
        ensures uses { IfOk result (λ found. IfSome found (AreListUses tokens.now)) }
        ensures none { IfOk result (λ found. IfNone found V.may_lack) }
        ensures err { IfErr result (IsCountFault tokens.now) }
    {
        let mut levels = Levels::new(alloc, tokens.len());
        let mut uses = ListUses {
            tokens: Vec::with_capacity(alloc, tokens.len())?,
            room: 0,
        };
        let mut before = 0;
        for token in tokens {
            let Some(found) = uses.meet_token(values, &mut levels, before, token)? else {
                return Ok(None);
            };
            uses.tokens.push(found)?;
            before = found.part;
        }
        if !levels.is_done() {
            return Err(TtFault::NotOneSubtree);
        }
        Ok(Some(uses))
    }
}
