//! Builds a token tree: a caller opens and closes subtrees and appends leaves.
ghost use Rattle.std.specs.Prelude.{◌≡◌, ◌⊎◌, ◌^◌, ◌-◌, ◌<◌, List, length, suc, IfOk, IfErr, OnOk, OnErr, MatchBool, Some, is_some, bytes_eq};
ghost use Rattle.std.specs.Iterator.{Drains, IsFinite, YieldsThen};
ghost use Rattle.tt_base.specs.Building.{empty_builder, opened, pushed, extended, alone, closed, removed, open_kinds, point_taken, noted, restored, built, built_skipping, HasRoom, IsOpen, IsGrowthFault};
ghost use Rattle.tt_base.specs.Forest.{size};
ghost use Rattle.tt_base.specs.Siblings.{leaves as leaf_trees};
ghost use Rattle.tt_base.specs.Span.{part_of};
ghost use Rattle.tt_base.specs.declared.fault.TtFault.TheVariants.{Memory, PointsSpent};
ghost use Rattle.tt_base.specs.declared.leaf.Leaf.{Leaf};
ghost use Rattle.tt_tables.specs.TableOrder.{uses_of};
ghost use Rattle.tt_tables.specs.Uses.{same_part};
ghost use Rattle.tt_view.specs.Stored.{IsWithinLimits};
ghost use Rattle.tt_view.specs.TreeFault.{IsTreeFault};
ghost use Rattle.tt_view.specs.Views.{trees_of};
ghost use Rattle.tt.specs.BuilderFields.{HasState};
ghost use Rattle.tt.specs.HeldList.{all_tokens, AreOpenIn};
ghost use Rattle.tt.specs.OneState.{HasState-prop};
ghost use Rattle.tt.specs.HeldUses.{held_parts, held_symbols, distinct_parts, distinct_symbols};
ghost use Rattle.std.proofs.Props.{props};

mod expected;
mod standing;
mod tokens;

pub use expected::ExpectedDelimiters;
pub use standing::SubtreeBuilderRestorePoint;
use standing::{Standing, drop_deeper, drop_later, find};
use std::alloc::Global;
use std::marker::Model;
use tokens::{add_leaves, add_trees, add_trees_alone, is_invisible, is_one_node};
use tt_base::{Delimiter, DelimiterKind, Leaf, Refused, Span, SpanPart, Symbol, TtFault};
use tt_tables::InternedTokens;
use tt_view::{TokenTreesView, TopSubtree};

// The number of tokens for which `new` asks for memory. They take 1,000 bytes, which allocators still take for a small block.
const FEW_TOKENS: usize = 25;

/// Builds a token tree: a caller opens and closes subtrees. A contract sees the levels, the mark and the valid restore points.
#[derive(Drop, Debug)]
pub struct TopSubtreeBuilder {
    top: Delimiter,
    // the tokens held, with the number of uses of each span part and symbol
    held: InternedTokens,
    // the places of the headers of the open subtrees, outermost first; place 0 is the top
    headers: Vec<usize>,
    // the place of the header of the subtree that was closed last
    mark: Option<usize>,
    // the valid restore points, oldest first
    points: Vec<Standing>,
    taken: u64,
    alloc: Global,
    ghost state: { HasState (all_tokens top held) headers.items mark points.items taken } by { HasState-prop (all_tokens top held) headers.items mark points.items taken },
    ghost open_headers: { AreOpenIn held headers.items } by { Prim.hlevel props },
}

impl Model for TopSubtreeBuilder {
    ghost use Rattle.tt_base.specs.Building.{BuilderState};
    ghost use Rattle.tt_base.specs.BuildingCode.{builder_code};

    ghost Value = { BuilderState };

    ghost coded = { builder_code };

    ghost view = { λ builder. builder.state.0 };
}

impl TopSubtreeBuilder {
    ghost use Rattle.tt.specs.Points.{number_of, kinds_left};

    /// Returns a builder of a tree under that delimiter. It holds no tokens. Fails only if memory runs out.
    pub fn new(alloc: Global, top: Delimiter) -> Result<TopSubtreeBuilder, TtFault>
        ensures ok { IfOk result (λ builder. builder ≡ empty_builder top) }
        ensures err { IfErr result (λ fault. fault ≡ Memory) }
    {
        Ok(TopSubtreeBuilder {
            top,
            held: InternedTokens::with_capacity(alloc, FEW_TOKENS)?,
            headers: Vec::new(alloc),
            mark: None,
            points: Vec::new(alloc),
            taken: 0,
            alloc,
        })
    }

    /// Opens a subtree, and clears the mark. Fails, and changes nothing, if the tree would have more than 4,294,967,295 tokens below the
    /// top (`TooManyTokens`), or if memory runs out.
    pub fn open(&mut self, kind: DelimiterKind, open_span: Span) -> Result<(), TtFault>
        ensures ok { OnOk result (self.new ≡ opened kind open_span self.old) }
        ensures room { OnOk result (HasRoom 1 self.old) }
        ensures err { OnErr result (self.new ≡ self.old) }
        ensures fault { IfErr result (IsGrowthFault 1 self.old) }
    {
        let place = self.held.len() + 1;
        if place > u32::MAX as usize {
            return Err(TtFault::TooManyTokens);
        }
        if self.headers.reserve(1).is_err() {
            return Err(TtFault::Memory);
        }
        if self.held.push_open(kind, &open_span).is_err() {
            return Err(TtFault::Memory);
        }
        self.headers.push_reserved(place);
        self.mark = None;
        Ok(())
    }

    /// Appends a leaf, and keeps the mark. Fails as `open` does, and then returns the leaf.
    pub fn push(&mut self, leaf: Leaf) -> Result<(), Refused<Leaf>>
        ensures ok { OnOk result (self.new ≡ pushed leaf self.old) }
        ensures room { OnOk result (HasRoom 1 self.old) }
        ensures err { OnErr result (self.new ≡ self.old) }
        ensures leaf { IfErr result (λ refused. refused.value ≡ leaf) }
        ensures fault { IfErr result (λ refused. IsGrowthFault 1 self.old refused.fault) }
    {
        if self.held.len() >= u32::MAX as usize {
            return Err(Refused {
                fault: TtFault::TooManyTokens,
                value: leaf,
            });
        }
        if self.held.push_leaf(&leaf).is_err() {
            return Err(Refused {
                fault: TtFault::Memory,
                value: leaf,
            });
        }
        Ok(())
    }

    /// Closes the innermost open subtree, and marks it. The restore points that were taken while it was open become invalid. `is_open`
    /// returns whether a subtree is open. Fails, and changes nothing, if memory runs out.
    pub fn close(&mut self, close_span: Span) -> Result<(), TtFault>
        requires { IsOpen self.old }
        ensures ok { OnOk result (self.new ≡ closed close_span self.old) }
        ensures err { OnErr result (self.new ≡ self.old) }
        ensures fault { IfErr result (λ fault. fault ≡ Memory) }
    {
        let Some(place) = self.headers.pop() else {
            return Ok(());
        };
        let len = (self.held.len() - place) as u32;
        if self.held.close(place - 1, &close_span, len).is_err() {
            self.headers.push_reserved(place);
            return Err(TtFault::Memory);
        }
        drop_deeper(&mut self.points, self.headers.len());
        self.mark = Some(place);
        Ok(())
    }

    /// Appends the leaves of an iterator, and keeps the mark. The iterator must end; those of vectors and arrays do. Fails as `open`
    /// does, at the first leaf that it cannot append; the builder then holds what it held, and drops the leaves that it took.
    pub fn extend<I: Iterator<Item = Leaf> + Drop>(&mut self, leaves: I) -> Result<(), TtFault>
        requires can { I.can_next leaves }
        requires ends { IsFinite (I.remaining leaves) }
        ensures ok { OnOk result ((given : List Leaf) × Drains I.next_gives leaves given × HasRoom (length given) self.old × (self.new ≡ extended (leaf_trees given) self.old)) }
        ensures err { OnErr result (self.new ≡ self.old) }
        ensures fault { IfErr result (λ fault. (given : List Leaf) × (next : Leaf) × (rest : I) × YieldsThen I.next_gives leaves given (Some next) rest × IsGrowthFault (suc (length given)) self.old fault) }
    {
        let len = self.held.len();
        match add_leaves(&mut self.held, leaves) {
            Ok(()) => Ok(()),
            Err(fault) => {
                self.held.truncate(len);
                Err(fault)
            }
        }
    }

    /// Appends trees, and keeps the mark. Fails, and changes nothing, if the tree would have more than 4,294,967,295 tokens below the top
    /// (`TooManyTokens`), or if memory runs out.
    pub fn extend_with_tt(&mut self, trees: TokenTreesView<'_>) -> Result<(), TtFault>
        ensures ok { OnOk result (self.new ≡ extended (trees_of trees.entry) self.old) }
        ensures room { OnOk result (HasRoom (size (trees_of trees.entry)) self.old) }
        ensures err { OnErr result (self.new ≡ self.old) }
        ensures fault { IfErr result (IsGrowthFault (size (trees_of trees.entry)) self.old) }
    {
        let room = (u32::MAX as usize).saturating_sub(self.held.len());
        if trees.len() > room {
            return Err(TtFault::TooManyTokens);
        }
        if !add_trees(&mut self.held, trees) {
            return Err(TtFault::Memory);
        }
        Ok(())
    }

    /// Appends trees, and keeps the mark. If the last token is a punct, it becomes alone. Fails as `extend_with_tt` does.
    pub fn extend_with_tt_alone(&mut self, trees: TokenTreesView<'_>) -> Result<(), TtFault>
        ensures ok { OnOk result (self.new ≡ extended (alone (trees_of trees.entry)) self.old) }
        ensures room { OnOk result (HasRoom (size (trees_of trees.entry)) self.old) }
        ensures err { OnErr result (self.new ≡ self.old) }
        ensures fault { IfErr result (IsGrowthFault (size (trees_of trees.entry)) self.old) }
    {
        let room = (u32::MAX as usize).saturating_sub(self.held.len());
        if trees.len() > room {
            return Err(TtFault::TooManyTokens);
        }
        if !add_trees_alone(&mut self.held, trees) {
            return Err(TtFault::Memory);
        }
        Ok(())
    }

    /// Puts the children of the marked subtree in its place if that subtree is invisible. Clears the mark in any case.
    pub fn remove_last_subtree_if_invisible(&mut self)
        ensures { self.new ≡ removed self.old }
    {
        let Some(place) = self.mark else {
            return;
        };
        self.mark = None;
        if is_invisible(self.held.tokens()[place - 1]) {
            self.held.remove_header(place - 1);
        }
    }

    /// Returns a new restore point, and clears the mark. The point is valid until a subtree that is open now is closed, or a valid point
    /// with fewer tokens is restored. Fails, and changes nothing, if all numbers of points are used (`PointsSpent`), or if memory runs
    /// out.
    pub fn restore_point(&mut self) -> Result<SubtreeBuilderRestorePoint, TtFault>
        ensures ok { IfOk result (λ point. number_of point ≡ self.old.taken) }
        ensures state { OnOk result (self.new ≡ point_taken self.old) }
        ensures number { OnOk result (self.old.taken < 2 ^ 64 - 1) }
        ensures err { OnErr result (self.new ≡ self.old) }
        ensures fault { IfErr result (λ fault. ((fault ≡ Memory) × (self.old.taken < 2 ^ 64 - 1)) ⊎ ((fault ≡ PointsSpent) × (self.old.taken ≡ 2 ^ 64 - 1))) }
    {
        let number = self.taken;
        if number == u64::MAX {
            return Err(TtFault::PointsSpent);
        }
        if self.points.reserve(1).is_err() {
            return Err(TtFault::Memory);
        }
        self.points.push_reserved(Standing {
            number,
            tokens: self.held.len() + 1,
            depth: self.headers.len(),
        });
        self.taken = number + 1;
        self.mark = None;
        Ok(SubtreeBuilderRestorePoint::from_number(number))
    }

    /// Returns the number of restore points that were ever taken. This is also the number of the next one.
    pub fn points_taken(&self) -> u64
        ensures { result ≡ self.now.taken }
    {
        self.taken
    }

    /// Returns whether the restore point is valid. If it is, goes back to what the builder held when the point was taken, and clears the
    /// mark; otherwise changes nothing.
    pub fn restore(&mut self, point: SubtreeBuilderRestorePoint) -> bool
        ensures answer { result ≡ is_some (noted (number_of point) self.old.points) }
        ensures state { self.new ≡ restored (number_of point) self.old }
    {
        let Some(kept) = find(&self.points, point.number()) else {
            return false;
        };
        self.held.truncate(kept.tokens - 1);
        self.headers.truncate(kept.depth);
        drop_later(&mut self.points, kept.tokens);
        self.mark = None;
        true
    }

    /// Returns the tree. No subtree is open; `is_open` returns whether one is. A failure returns the builder.
    pub fn build(self) -> Result<TopSubtree, Refused<TopSubtreeBuilder>>
        requires { IsOpen self → ⊥ }
        ensures ok { IfOk result (λ tree. tree ≡ built self) }
        ensures limits { IfOk result (λ tree. IsWithinLimits tree) }
        ensures fault { IfErr result (λ refused. IsTreeFault (built self) refused.fault) }
        ensures value { IfErr result (λ refused. refused.value ≡ self) }
    {
        match TopSubtree::from_interned(self.alloc, self.top, self.held.counted()) {
            Ok(tree) => Ok(tree),
            Err(fault) => Err(Refused { fault, value: self }),
        }
    }

    /// Returns what the builder holds as a tree of its own if that is exactly one subtree; otherwise the same as `build`. No subtree is
    /// open; `is_open` returns whether one is. A failure returns the builder.
    pub fn build_skip_top_subtree(self) -> Result<TopSubtree, Refused<TopSubtreeBuilder>>
        requires { IsOpen self → ⊥ }
        ensures ok { IfOk result (λ tree. tree ≡ built_skipping self) }
        ensures limits { IfOk result (λ tree. IsWithinLimits tree) }
        ensures fault { IfErr result (λ refused. IsTreeFault (built_skipping self) refused.fault) }
        ensures value { IfErr result (λ refused. refused.value ≡ self) }
    {
        if !is_one_node(self.held.tokens()) {
            return self.build();
        }
        match TopSubtree::from_interned_node(self.alloc, self.held.counted()) {
            Ok(tree) => Ok(tree),
            Err(fault) => Err(Refused { fault, value: self }),
        }
    }

    /// Returns the kinds of the delimiters of the open subtrees, innermost first, without the top.
    pub fn expected_delimiters(&self) -> ExpectedDelimiters<'_>
        ensures { kinds_left result ≡ open_kinds self.now.stack }
    {
        ExpectedDelimiters {
            tokens: self.held.tokens(),
            places: &self.headers,
        }
    }

    /// Returns whether a subtree other than the top is open.
    pub fn is_open(&self) -> bool
        ensures { MatchBool result (IsOpen self.now) (IsOpen self.now → ⊥) }
    {
        !self.headers.is_empty()
    }

    /// Returns a builder that holds the same, with the same restore points. Fails only if memory runs out.
    pub fn clone(&self) -> Result<TopSubtreeBuilder, TtFault>
        ensures ok { IfOk result (λ copy. copy ≡ self.now) }
        ensures err { IfErr result (λ fault. fault ≡ Memory) }
    {
        let held = self.held.clone(self.alloc)?;
        let mut headers = Vec::new(self.alloc);
        headers.extend_from_slice(&self.headers)?;
        let mut points = Vec::new(self.alloc);
        points.extend_from_slice(&self.points)?;
        Ok(TopSubtreeBuilder {
            top: self.top,
            held,
            headers,
            mark: self.mark,
            points,
            taken: self.taken,
            alloc: self.alloc,
        })
    }

    /// Returns how many times the tokens held use the part of this span. The spans of the top and the close span of an open subtree do
    /// not count.
    pub fn span_part_uses(&self, span: &Span) -> usize
        ensures { result ≡ uses_of same_part (held_parts self.now.stack) (part_of span.now) }
    {
        self.held.part_uses(&SpanPart::from_span(span))
    }

    /// Returns how many times the tokens held use a symbol.
    pub fn symbol_uses(&self, symbol: &Symbol) -> usize
        ensures { result ≡ uses_of bytes_eq (held_symbols self.now.stack) symbol.now }
    {
        self.held.symbol_uses(symbol)
    }

    /// Returns how many different span parts and how many different symbols the tokens held use.
    pub fn distinct_counts(&self) -> (usize, usize)
        ensures parts { result.0 ≡ distinct_parts self.now.stack }
        ensures symbols { result.1 ≡ distinct_symbols self.now.stack }
    {
        self.held.distinct_counts()
    }
}
