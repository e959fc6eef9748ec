//! Decodes the tokens of packed bytes, which need not be those of a tree.
ghost use Rattle.std.specs.Prelude.{◌≡◌, ◌<◌, ◌≤◌, ◌+◌, ◌^◌, length, IfSome, MatchOption, MatchResult, Some};
ghost use Rattle.tt_base.specs.Fits.{SpanInRange, TokenInRange};
ghost use Rattle.tt_base.specs.Forest.{Forest, Root, end, only, flat_root};
ghost use Rattle.tt_base.specs.Moves.{first_token, after_token};
ghost use Rattle.tt_bytes.specs.Decoding.{GivesToken, Names, Stand, Stands, StandsNone, IsStop};
ghost use Rattle.tt_bytes.specs.declared.fault.BytesFault.TheVariants.{Memory};
ghost use Rattle.tt_tables.specs.Meaning.{IsAhead};
ghost use Rattle.tt_tables.specs.TablesOf.{tables_of};

use crate::fault::BytesFault;
use std::alloc::Global;
use tt::{Leaf, Span, TokenTree};
use tt_codec::Entry;
use tt_tables::Tables;

// Shows that both ends of a span are in range, by their types.
fn keep_span_in_range(span: &Span)
    ensures { SpanInRange span.now }
{
    let _start = span.range.start().raw();
    let _end = span.range.end().raw();
}

// Shows that all numbers that the bytes of a token need are in range.
fn keep_in_range(token: &TokenTree)
    ensures { TokenInRange token.now }
{
    match token {
        TokenTree::Leaf(Leaf::Literal(literal)) => keep_span_in_range(literal.span()),
        TokenTree::Leaf(Leaf::Punct(punct)) => {
            let _char = punct.char;
            keep_span_in_range(&punct.span);
        }
        TokenTree::Leaf(Leaf::Ident(ident)) => keep_span_in_range(&ident.span),
        TokenTree::Subtree(subtree) => {
            keep_span_in_range(&subtree.delimiter.open_span);
            keep_span_in_range(&subtree.delimiter.close);
        }
    }
}

// Returns the token that the numbers name, or `None` if they name none.
fn token_of(tables: Tables<'_>, entry: Entry) -> Option<TokenTree>
    ensures gives { GivesToken (tables_of tables.entry) entry result }
    ensures only { IfSome result (λ it. Names (tables_of tables.entry) entry it × TokenInRange it) }
{
    let token = match entry {
        Entry::Leaf(leaf) => tables.leaf(leaf)?,
        Entry::Header(header) => tables.subtree(header)?,
    };
    keep_in_range(&token);
    Some(token)
}

// Returns the token at an offset and the offset of the next token, or `None` if no token is there.
fn token_at(tables: Tables<'_>, packed: &[u8], offset: usize) -> Option<(TokenTree, usize)>
    ensures stands { MatchOption result (StandsNone (tables_of tables.entry) packed.now offset)
        (λ found. Stands (tables_of tables.entry) packed.now offset found.0 found.1) }
    ensures next { IfSome result (λ found. (offset < found.1) × (found.1 ≤ length packed.now)) }
    ensures token { (trees : Forest) → IsAhead (tables_of tables.entry) packed.now offset trees
        → MatchOption result (trees ≡ end) (λ found. (first_token trees ≡ Some found.0) × IsAhead (tables_of tables.entry) packed.now found.1 (after_token trees)) }
{
    let (_, from) = packed.split_at_checked(offset)?;
    let (entry, rest) = Entry::read(from)?;
    if rest.len() >= from.len() {
        return None;
    }
    let token = token_of(tables, entry)?;
    Some((token, packed.len() - rest.len()))
}

/// Returns the tokens of the packed bytes, one after the other. `before` is the number of bytes of the piece before them. Fails at the
/// first byte at which no token begins (`NoTree`, with its place in the piece), or if memory runs out.
pub(crate) fn tokens_of(
    alloc: Global,
    tables: Tables<'_>,
    before: usize,
    packed: &[u8],
) -> Result<Vec<TokenTree>, BytesFault>
    requires { before + length packed.now < 2 ^ 64 }
    ensures stand { MatchResult result (λ list. Stand (tables_of tables.entry) packed.now list.items (length packed.now)) (IsStop (tables_of tables.entry) packed.now before) }
    ensures list { (root : Root) → IsAhead (tables_of tables.entry) packed.now 0 (only root) → MatchResult result (λ list. list.items ≡ flat_root root) (λ fault. fault ≡ Memory) }
{
    let mut tokens = Vec::new(alloc);
    let mut offset = 0;
    while offset < packed.len() {
        let Some((token, next)) = token_at(tables, packed, offset) else {
            return Err(BytesFault::NoTree(before + offset));
        };
        tokens.push(token)?;
        offset = next;
    }
    Ok(tokens)
}
