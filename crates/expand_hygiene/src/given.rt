//! The mentions of an input.
ghost use Rattle.std.specs.Prelude.{◌≡◌, ◌∷◌, ℕ, List, OnOk, None, Some, bytes_eq, if◌then◌else◌};
ghost use Rattle.std.specs.Option.{option_or};
ghost use Rattle.indexmap.specs.IndexMap.{get};

use crate::mention::{BindingKind, Mention, is_quote};
use indexmap::{IndexMap, IndexSet};
use std::alloc::{AllocError, Global};
use tt::{Ident, Span, Symbol, TokenTreesView};

/// The mentions of an input.
#[derive(Drop)]
pub(crate) struct Given {
    // for each name the span of its first mention
    locals: IndexMap<Symbol, Span>,
    labels: IndexMap<Symbol, Span>,
    // the idents of all mentions
    idents: IndexSet<Ident>,
}

// Notes the span for the name, unless one is noted.
fn note_first(
    spans: &mut IndexMap<Symbol, Span>,
    name: Symbol,
    span: Span,
) -> Result<(), AllocError>
    ensures { OnOk result ((other : List ℕ) → get bytes_eq spans.new other ≡ option_or (get bytes_eq spans.old other) (if bytes_eq name other then Some span else None)) }
{
    if spans.get(&name).is_none() {
        spans.insert(name, span)?;
    }
    Ok(())
}

impl Given {
    ghost use Rattle.std.specs.Prelude.{IfOk};
    ghost use Rattle.tt.specs.Views.{trees_of};
    ghost use Rattle.expand_hygiene.specs.Captures.{captured_by};
    ghost use Rattle.expand_hygiene.specs.declared.mention.Mention.{Mention as MentionOf};
    ghost use Rattle.expand_hygiene.specs.Given.{IsGiven, IsPartGiven, NotesSpan};
    ghost use Rattle.expand_hygiene.specs.Mentions.{mentions_in};

    // Notes the span for the name of that kind, unless one is noted.
    fn note(&mut self, kind: BindingKind, name: Symbol, span: Span) -> Result<(), AllocError>
        ensures { OnOk result (NotesSpan self.old kind name span self.new) }
    {
        match kind {
            BindingKind::Local => {
                note_first(&mut self.locals, name, span)?;
                Ok(())
            }
            BindingKind::Label => {
                note_first(&mut self.labels, name, span)?;
                Ok(())
            }
        }
    }

    // Notes a mention.
    fn add(&mut self, it: Mention) -> Result<(), AllocError>
        ensures { OnOk result ((others all : List MentionOf) → IsPartGiven self.old (it ∷ others) all → IsPartGiven self.new others all) }
    {
        let name = it.ident.sym.clone()?;
        self.note(it.kind, name, it.ident.span)?;
        self.idents.insert(it.ident)?;
        Ok(())
    }

    /// Returns the mentions in these trees. Fails only if memory runs out.
    pub(crate) fn of(alloc: Global, input: TokenTreesView<'_>) -> Result<Given, AllocError>
        ensures { IfOk result (λ it. IsGiven it (mentions_in (trees_of input.entry))) }
    {
        let mut given = Given {
            locals: IndexMap::new(alloc),
            labels: IndexMap::new(alloc),
            idents: IndexSet::new(alloc),
        };
        let mut is_behind_quote = false;
        for token in input.iter_flat_tokens() {
            let is_quote = is_quote(&token);
            if let Some(it) = Mention::of(is_behind_quote, token) {
                given.add(it)?;
            }
            is_behind_quote = is_quote;
        }
        Ok(given)
    }

    /// Returns the span of the first mention of that kind with the name of the ident; none if the ident is one of the input.
    pub(crate) fn captured(&self, kind: BindingKind, ident: &Ident) -> Option<Span>
        ensures { (mentions : List MentionOf) → IsGiven self.now mentions → result ≡ captured_by mentions kind ident.now }
    {
        let spans = match kind {
            BindingKind::Local => &self.locals,
            BindingKind::Label => &self.labels,
        };
        let span = *spans.get(&ident.sym)?;
        if self.idents.contains(ident) {
            return None;
        }
        Some(span)
    }
}
