//! Builds a tree as one flat list: a caller opens and closes subtrees.
ghost use Rattle.std.specs.Prelude.{◌≡◌, IfOk, IfErr, OnOk, OnErr};
ghost use Rattle.tt_base.specs.declared.fault.TtFault.TheVariants.{Memory};
ghost use Rattle.tt.specs.FlatFields.{HasHeld};
ghost use Rattle.tt.specs.FlatHeld.{IsGrowthFault, IsOpen, built, closed, none_held, opened, pushed};
ghost use Rattle.tt.specs.OneFlatHeld.{HasHeld-prop};
ghost use Rattle.tt_view.specs.Stored.{IsWithinLimits};
ghost use Rattle.tt_view.specs.TreeFault.{IsTreeFault};

use crate::flat_list::FlatList;
use std::alloc::Global;
use std::marker::Model;
use tt_base::{Delimiter, DelimiterKind, Leaf, Span, Subtree, TokenTree, TtFault};
use tt_view::TopSubtree;

/// Builds a tree as one flat list: a caller opens and closes subtrees. `build` packs the list. Before that, this builder looks at no
/// value of a token, while `TopSubtreeBuilder` counts each value when it comes; so this builder cannot go back. A contract sees the
/// levels.
#[derive(Drop)]
pub struct FlatBuilder {
    // the top's header and the tokens held; `close` sets the count and the close span of a header
    tokens: FlatList,
    // the places of the headers of the open subtrees, outermost first
    headers: Vec<usize>,
    ghost state: { HasHeld tokens headers.items } by { HasHeld-prop tokens headers.items },
}

impl Model for FlatBuilder {
    ghost use Rattle.tt.specs.FlatHeld.{Held, held_code};

    ghost Value = { Held };

    ghost coded = { held_code };

    ghost view = { λ builder. builder.state.0 };
}

impl FlatBuilder {
    /// Returns a builder of a tree under that delimiter, with room for `tokens` tokens below the top. It holds no tokens. Fails only if
    /// memory runs out.
    pub fn with_capacity(
        alloc: Global,
        top: Delimiter,
        tokens: usize,
    ) -> Result<FlatBuilder, TtFault>
        ensures ok { IfOk result (λ builder. builder ≡ none_held top) }
        ensures err { IfErr result (λ fault. fault ≡ Memory) }
    {
        Ok(FlatBuilder {
            tokens: FlatList::with_capacity(alloc, top, tokens)?,
            headers: Vec::new(alloc),
        })
    }

    /// Opens a subtree. Fails, and changes nothing, if the tree would have more than 4,294,967,295 tokens below the top
    /// (`TooManyTokens`), or if memory runs out.
    pub fn open(&mut self, kind: DelimiterKind, open_span: Span) -> Result<(), TtFault>
        ensures ok { OnOk result (self.new ≡ opened kind open_span self.old) }
        ensures err { OnErr result (self.new ≡ self.old) }
        ensures fault { IfErr result (IsGrowthFault self.old) }
    {
        let place = self.tokens.len();
        if place > u32::MAX as usize {
            return Err(TtFault::TooManyTokens);
        }
        if self.headers.reserve(1).is_err() {
            return Err(TtFault::Memory);
        }
        let delimiter = Delimiter {
            open_span,
            close: open_span,
            kind,
        };
        let header = TokenTree::Subtree(Subtree { delimiter, len: 0 });
        if self.tokens.push(header).is_err() {
            return Err(TtFault::Memory);
        }
        self.headers.push_reserved(place);
        Ok(())
    }

    /// Appends a leaf. Fails as `open` does.
    #[inline]
    pub fn push(&mut self, leaf: Leaf) -> Result<(), TtFault>
        ensures ok { OnOk result (self.new ≡ pushed leaf self.old) }
        ensures err { OnErr result (self.new ≡ self.old) }
        ensures fault { IfErr result (IsGrowthFault self.old) }
    {
        if self.tokens.len() > u32::MAX as usize {
            return Err(TtFault::TooManyTokens);
        }
        if self.tokens.push(TokenTree::Leaf(leaf)).is_err() {
            return Err(TtFault::Memory);
        }
        Ok(())
    }

    /// Closes the innermost open subtree. A subtree is open: a caller knows this from its calls of `open` and `close`.
    pub fn close(&mut self, close_span: Span)
        requires { IsOpen self.old }
        ensures { self.new ≡ closed close_span self.old }
    {
        let Some(place) = self.headers.pop() else {
            return;
        };
        let len = (self.tokens.len() - place - 1) as u32;
        self.tokens.close(place, close_span, len);
    }

    /// Returns the tree. No subtree is open: a caller knows this from its calls of `open` and `close`.
    pub fn build(self) -> Result<TopSubtree, TtFault>
        requires { IsOpen self → ⊥ }
        ensures ok { IfOk result (λ tree. tree ≡ built self) }
        ensures limits { IfOk result (λ tree. IsWithinLimits tree) }
        ensures fault { IfErr result (IsTreeFault (built self)) }
    {
        self.tokens.build()
    }
}
