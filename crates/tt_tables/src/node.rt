//! Interned tokens of one subtree: the first is the header of all others.
ghost use Rattle.std.specs.Prelude.{◌≡◌, ◌∷◌, List, drop, length, map, IfOk};
ghost use Rattle.tt_base.specs.declared.span.Span.{Span as SpanOf};
ghost use Rattle.tt_base.specs.declared.span.SpanPart.{SpanPart as Part};
ghost use Rattle.tt_base.specs.Forest.{header};
ghost use Rattle.tt_tables.specs.ListOf.{list_of, tokens_of, parts_of};
ghost use Rattle.tt_tables.specs.OneNode.{IsOneNode, BeginsWith, IsSpanAt, HasUseAt, AreUsedBehind};
ghost use Rattle.tt_tables.specs.TableOrder.{uses_of};
ghost use Rattle.tt_tables.specs.Uses.{same_part};

use crate::counted::CountedTokens;
use crate::token::InternedToken;
use std::alloc::{AllocError, Global};
use tt_base::{Delimiter, Span, SpanPart, TextRange, TextSize};
use tt_codec::{HeaderEntry, SpanNumbers};

// Returns the span with these numbers.
fn span_at(parts: &[SpanPart], numbers: SpanNumbers) -> Span
    requires { (span : SpanOf) × IsSpanAt parts.now numbers span }
    ensures { (span : SpanOf) → IsSpanAt parts.now numbers span → result ≡ span }
{
    let start = TextSize::new(numbers.start);
    match TextRange::at(start, TextSize::new(numbers.length)) {
        Some(range) => parts[numbers.part as usize].recombine(range),
        None => unreachable!(),
    }
}

// Returns the numbers with one use less of the part at a place.
fn with_less(numbers: Vec<usize>, place: u32) -> Vec<usize>
    requires { (parts : List Part) × (others : List Part) × HasUseAt parts place others numbers.items }
    ensures { (parts : List Part) → (others : List Part) → HasUseAt parts place others numbers.items → result.items ≡ map (uses_of same_part others) parts }
{
    let mut numbers = numbers;
    numbers[place as usize] -= 1;
    numbers
}

impl<'a> CountedTokens<'a> {
    // Returns the header, which is the first token.
    fn first_header(self) -> HeaderEntry
        requires { IsOneNode (list_of self) }
        ensures { BeginsWith (tokens_of self.entry) result }
    {
        match self.tokens[0] {
            InternedToken::Header(entry) => entry,
            InternedToken::Leaf(_) | InternedToken::Open(..) => unreachable!(),
        }
    }

    /// Returns the delimiter of the header. The tokens are those of one subtree.
    pub fn delimiter(self) -> Delimiter
        requires { IsOneNode (list_of self) }
        ensures { list_of self.entry ≡ header result (length (drop 1 (list_of self.entry))) ∷ drop 1 (list_of self.entry) }
    {
        let entry = self.first_header();
        let open_span = span_at(self.parts, entry.opening);
        let close = span_at(self.parts, entry.closing);
        Delimiter {
            open_span,
            close,
            kind: entry.kind,
        }
    }

    /// Returns the number of uses of each part in the tokens after the header. The tokens are those of one subtree. Fails only if memory
    /// runs out.
    pub fn part_uses_behind(self, alloc: Global) -> Result<Vec<usize>, AllocError>
        requires { IsOneNode (list_of self) }
        ensures { IfOk result (λ found. AreUsedBehind self.entry found.items) }
    {
        let entry = self.first_header();
        let mut numbers = Vec::with_capacity(alloc, self.part_uses.len())?;
        numbers.extend_from_slice(self.part_uses)?;
        let numbers = with_less(numbers, entry.opening.part);
        Ok(with_less(numbers, entry.closing.part))
    }

    /// Returns the tokens after the header. These are the numbers of uses of parts in them.
    pub fn behind(self, part_uses: &'a [usize]) -> CountedTokens<'a>
        requires node { IsOneNode (list_of self) }
        requires counted { AreUsedBehind self part_uses.now }
        ensures { list_of result ≡ drop 1 (list_of self.entry) }
    {
        CountedTokens {
            tokens: &self.tokens[1..],
            parts: self.parts,
            part_uses,
            symbols: self.symbols,
            symbol_uses: self.symbol_uses,
        }
    }
}
