//! Fills a template, part by part.
ghost use Rattle.std.specs.Prelude.{◌≡◌, List, map, slice_get, reverse, IfOk, IfErr, OnOk};
ghost use Rattle.tt.specs.Forest.{end, leaf as leaf_of, size};
ghost use Rattle.tt.specs.Building.{alone};
ghost use Rattle.tt.specs.Siblings.{leaves};
ghost use Rattle.tt.specs.Stored.{IsWithinLimits};
ghost use Rattle.tt.specs.Types.TtFault.TheVariants.{Memory};
ghost use Rattle.tt.specs.Views.{trees_of};
ghost use Rattle.mbe_matcher.specs.Bindings.{Binding as Bindings};
ghost use Rattle.mbe_matcher.specs.Grouping.{binding_by};
ghost use Rattle.mbe_matcher.specs.Marks.{note_of};
ghost use Rattle.mbe_matcher.specs.Binders.{where_of};
ghost use Rattle.mbe_rules.specs.declared.taken.Taken.{Taken};
ghost use Rattle.mbe_rules.specs.declared.transcribe_error.TranscribeError.TheVariants.{Tree};
ghost use Rattle.mbe_rules.specs.Limits.{IsWithin};
ghost use Rattle.mbe_rules.specs.Transcribing.{transcribed, use_transcribed};
ghost use Rattle.mbe_rules.specs.Parts.{bit_of, begin, close};
ghost use Rattle.mbe_rules.specs.Enclosing.{enclosed_between, enclosed, as_piece};
ghost use Rattle.mbe_rules.specs.Results.{IsTranscribed, IsTranscribeError};
ghost use Rattle.mbe_rules.specs.Rounds.{AreTaken};
ghost use Rattle.mbe_rules.specs.Filling.{bound_here, Grows, IsUsed, IsUseError, IsWant, Opens, Enters, Leaves, StepsTo, StopsAt};
ghost use Rattle.mbe_rules.specs.Wholes.{AreWhole, whole_of};

use crate::counting::{rounds_by, scan};
use crate::enclose::is_enclosed;
use crate::limit::left_after;
use crate::parts::Part;
use crate::taken::{Round, Seen, Taken, fragment_of, seen_in, taken_by};
use crate::transcribe_error::TranscribeError;
use mbe_matcher::{Binder, Binding};
use mbe_pattern::{Fragment, Tail};
use std::alloc::Global;
use tt::{Delimiter, DelimiterKind, Leaf, Span, TokenTreesView, TopSubtree, TopSubtreeBuilder};

/// The trees written so far, the rounds under way, the close spans of the open subtrees, the innermost last, and how many more tokens may
/// be written, if that is limited.
#[derive(Drop)]
pub(crate) struct Transcriber {
    pub(crate) builder: TopSubtreeBuilder,
    pub(crate) rounds: Vec<Round>,
    pub(crate) closes: Vec<Span>,
    pub(crate) left: Option<usize>,
}

impl Transcriber {
    // Writes the trees. Their last token does not form one token with what follows.
    fn append(&mut self, trees: TokenTreesView<'_>) -> Result<(), TranscribeError>
        ensures ok { OnOk result (Grows (alone (trees_of trees.entry)) self.old self.new) }
        ensures err { IfErr result (IsWant (size (alone (trees_of trees.entry))) self.old) }
    {
        self.left = left_after(self.left, trees.len())?;
        self.builder.extend_with_tt_alone(trees)?;
        Ok(())
    }

    // Opens a subtree.
    fn open(&mut self, kind: DelimiterKind, open_span: Span) -> Result<(), TranscribeError>
        ensures ok { OnOk result (Opens kind open_span self.old self.new) }
        ensures err { IfErr result (IsWant 1 self.old) }
    {
        self.left = left_after(self.left, 1)?;
        self.builder.open(kind, open_span)?;
        Ok(())
    }

    // Writes the trees in an opaque subtree with these spans.
    fn enclose_between(
        &mut self,
        trees: TokenTreesView<'_>,
        first: Span,
        last: Span,
    ) -> Result<(), TranscribeError>
        ensures ok { OnOk result (Grows (enclosed_between first last (alone (trees_of trees.entry))) self.old self.new) }
        ensures err { IfErr result (IsWant (size (enclosed_between first last (alone (trees_of trees.entry)))) self.old) }
    {
        self.open(DelimiterKind::InvisibleOpaque, first)?;
        self.append(trees)?;
        self.builder.close(last)?;
        Ok(())
    }

    // Writes the trees in an opaque subtree with the spans of their first and last token.
    fn enclose(&mut self, trees: TokenTreesView<'_>) -> Result<(), TranscribeError>
        ensures ok { OnOk result (Grows (enclosed (trees_of trees.entry)) self.old self.new) }
        ensures err { IfErr result (IsWant (size (enclosed (trees_of trees.entry))) self.old) }
    {
        match (trees.first_span(), trees.last_span()) {
            (Some(first), Some(last)) => self.enclose_between(trees, first, last),
            _ => self.append(trees),
        }
    }

    // Writes what a fragment took, before a `<` or not.
    fn write(
        &mut self,
        fragment: Option<Fragment>,
        less_follows: bool,
        trees: TokenTreesView<'_>,
    ) -> Result<(), TranscribeError>
        ensures ok { OnOk result (Grows (as_piece fragment less_follows (trees_of trees.entry)) self.old self.new) }
        ensures err { IfErr result (IsWant (size (as_piece fragment less_follows (trees_of trees.entry))) self.old) }
    {
        if is_enclosed(fragment, less_follows, trees) {
            self.enclose(trees)
        } else {
            self.append(trees)
        }
    }

    // Writes what is bound to the variable of that index, before a `<` or not. The `$` of the use is at that flat place.
    fn transcribe_variable(
        &mut self,
        taken: &[Taken<'_>],
        at: usize,
        number: usize,
        less_follows: bool,
    ) -> Result<(), TranscribeError>
        ensures ok { OnOk result ((binding : Bindings) → AreTaken binding taken.now → IsUsed (use_transcribed at less_follows (slice_get (bound_here binding (reverse self.old.rounds.items)) number)) self.old self.new) }
        ensures err { IfErr result (λ error. (binding : Bindings) → AreTaken binding taken.now → IsUseError (use_transcribed at less_follows (slice_get (bound_here binding (reverse self.old.rounds.items)) number)) self.old error) }
    {
        match seen_in(taken, number, &self.rounds) {
            Seen::Trees(trees) => self.write(fragment_of(taken, number), less_follows, trees),
            Seen::Rounds(_) => Err(TranscribeError::StillRepeats(at)),
        }
    }

    // Writes a token.
    fn push(&mut self, leaf: &Leaf) -> Result<(), TranscribeError>
        ensures ok { OnOk result (Grows (leaf_of leaf.now end) self.old self.new) }
        ensures err { IfErr result (IsWant 1 self.old) }
    {
        self.left = left_after(self.left, 1)?;
        let leaf = leaf.clone()?;
        self.builder.push(leaf)?;
        Ok(())
    }

    // Opens a subtree, and remembers how it is closed.
    fn enter(&mut self, delimiter: &Delimiter) -> Result<(), TranscribeError>
        ensures ok { OnOk result (Enters delimiter.now self.old self.new) }
        ensures err { IfErr result (IsWant 1 self.old) }
    {
        self.closes.push(delimiter.close)?;
        self.open(delimiter.kind, delimiter.open_span)
    }

    // Closes a subtree, if one is open.
    fn leave(&mut self) -> Result<(), TranscribeError>
        ensures ok { OnOk result (Leaves self.old self.new) }
        ensures err { IfErr result (λ error. error ≡ Tree Memory) }
    {
        let Some(close) = self.closes.pop() else {
            return Ok(());
        };
        if self.builder.is_open() {
            self.builder.close(close)?;
        }
        Ok(())
    }

    // Begins a repetition whose body starts with that part. Returns the next part.
    fn begin(
        &mut self,
        parts: &[Part],
        taken: &[Taken<'_>],
        at: usize,
        body: usize,
    ) -> Result<usize, TranscribeError>
        ensures ok { IfOk result (StepsTo parts.now taken.now (begin at) body self.old self.new) }
        ensures err { IfErr result (StopsAt parts.now taken.now (begin at) body self.old) }
    {
        let scanned = scan(parts, taken, &self.rounds, body);
        let count = rounds_by(at, scanned.kind, scanned.count)?;
        if count == 0 {
            return Ok(scanned.behind);
        }
        self.rounds.push(Round {
            body,
            done: 0,
            last: count - 1,
        })?;
        Ok(body)
    }

    // Writes a separator.
    fn separate(&mut self, separator: &[Leaf]) -> Result<(), TranscribeError>
        ensures ok { OnOk result (Grows (leaves separator.now) self.old self.new) }
        ensures err { IfErr result (IsWant (size (leaves separator.now)) self.old) }
    {
        for leaf in separator {
            self.push(leaf)?;
        }
        Ok(())
    }

    // Ends a round of the innermost repetition; the part `behind` follows it. Returns the next part.
    fn close(
        &mut self,
        parts: &[Part],
        tail: &Tail,
        behind: usize,
    ) -> Result<usize, TranscribeError>
        ensures ok { IfOk result (λ next. (taken : List Taken) → StepsTo parts.now taken (close tail.now.separator.items tail.now.kind) behind self.old self.new next) }
        ensures err { IfErr result (λ error. (taken : List Taken) → StopsAt parts.now taken (close tail.now.separator.items tail.now.kind) behind self.old error) }
    {
        let Some(round) = self.rounds.pop() else {
            return Ok(behind);
        };
        if round.done >= round.last {
            return Ok(behind);
        }
        self.separate(&tail.separator)?;
        self.rounds.push(Round {
            body: round.body,
            done: round.done + 1,
            last: round.last,
        })?;
        Ok(round.body)
    }

    // Fills a part; the part `behind` follows it. Returns the next part.
    fn step(
        &mut self,
        parts: &[Part],
        taken: &[Taken<'_>],
        part: &Part,
        behind: usize,
    ) -> Result<usize, TranscribeError>
        ensures ok { IfOk result (StepsTo parts.now taken.now (bit_of part.now) behind self.old self.new) }
        ensures err { IfErr result (StopsAt parts.now taken.now (bit_of part.now) behind self.old) }
    {
        match part {
            Part::Use(at, number, less_follows) => {
                self.transcribe_variable(taken, *at, *number, *less_follows)?
            }
            Part::Token(leaf) => self.push(leaf)?,
            Part::Enter(delimiter) => self.enter(delimiter)?,
            Part::Leave => self.leave()?,
            Part::Begin(at) => return self.begin(parts, taken, *at, behind),
            Part::Close(tail) => return self.close(parts, tail, behind),
        }
        Ok(behind)
    }
}

/// Returns the template of these parts under that delimiter, filled with what is bound to the variables.
///
/// With a limit, it stops before it would write more tokens. The binding is dropped as soon as it is no longer read, before the written
/// trees are packed.
pub(crate) fn transcribed(
    alloc: Global,
    parts: &[Part],
    binders: &[Binder],
    binding: Binding<'_>,
    delimiter: Delimiter,
    limit: Option<usize>,
) -> Result<TopSubtree, TranscribeError>
    requires { AreWhole parts.now }
    ensures ok { IfOk result (IsTranscribed delimiter (transcribed (whole_of parts.now) (binding_by (map where_of binders.now) (map note_of binding.entry.marks.items)))) }
    ensures limits { IfOk result (λ tree. IsWithinLimits tree) }
    ensures within { IfOk result (λ tree. IsWithin limit (size tree.children)) }
    ensures err { IfErr result (IsTranscribeError limit delimiter (transcribed (whole_of parts.now) (binding_by (map where_of binders.now) (map note_of binding.entry.marks.items)))) }
{
    let taken = taken_by(alloc, binders, &binding)?;
    drop(binding);
    let mut transcriber = Transcriber {
        builder: TopSubtreeBuilder::new(alloc, delimiter)?,
        rounds: Vec::new(alloc),
        closes: Vec::new(alloc),
        left: limit,
    };
    let mut next = 0;
    while let Some(part) = parts.get(next) {
        next = transcriber.step(parts, &taken, part, next + 1)?;
    }
    drop(taken);
    Ok(transcriber.builder.build()?)
}
