//! Templates of macros.
ghost use Rattle.std.specs.Prelude.{◌≡◌, None, map, IfOk, IfErr, OnOk};
ghost use Rattle.tt.specs.Forest.{size};
ghost use Rattle.tt.specs.Iters.{rest_of};
ghost use Rattle.tt.specs.Stored.{IsWithinLimits};
ghost use Rattle.mbe_matcher.specs.Grouping.{binding_by};
ghost use Rattle.mbe_matcher.specs.Marks.{note_of};
ghost use Rattle.mbe_matcher.specs.Binders.{where_of};
ghost use Rattle.mbe_rules.specs.Limits.{IsWithin};
ghost use Rattle.mbe_rules.specs.Faults.{template_fault};
ghost use Rattle.mbe_rules.specs.Transcribing.{transcribed};
ghost use Rattle.mbe_rules.specs.Spelling.{template_of};
ghost use Rattle.mbe_rules.specs.SpellingFaults.{spelling_fault, IsTemplateError};
ghost use Rattle.mbe_rules.specs.Wholes.{AreWhole};

use crate::error::TemplateError;
use crate::parse::parse;
use crate::parts::Part;
use crate::transcribe::transcribed;
use crate::transcribe_error::TranscribeError;
use crate::validate::fault_of;
use mbe_matcher::{Binder, Binding};
use std::alloc::{AllocError, Global};
use tt::{Delimiter, TopSubtree, TtIter};

/// What a macro writes: uses of a pattern's variables, tokens, subtrees and repetitions.
#[derive(Drop)]
pub struct Template {
    parts: Vec<Part>,
    ghost whole: { AreWhole parts.items },
}

impl Template {
    ghost use Rattle.mbe_rules.specs.Results.{meant, IsTranscribed, IsTranscribeError};

    /// Returns the template that the trees spell; the variables are those of a pattern.
    ///
    /// `$name` is a use of the first variable of that name, raw or not. `$( .. )`, with a separator if there is one, and `*`, `+` or `?` is
    /// a repetition. `$$` is a `$`. Everything else is written as it is, also `$crate` and a `$` before a name that no variable has. But a `$` before a
    /// literal, a punct other than `$`, or brackets `[ .. ]` is a fault. So is `$( .. )` without `*`, `+` or `?`, or with a separator and `?`.
    ///
    /// Time is linear in the number of trees times the number of variables, and memory in the number of trees. Returns the first fault in
    /// reading order; fails also if memory runs out.
    pub fn new(
        alloc: Global,
        binders: &[Binder],
        trees: TtIter<'_>,
    ) -> Result<Template, TemplateError>
        ensures ok { IfOk result (λ it. meant it ≡ template_of (map where_of binders.now) (rest_of trees.entry)) }
        ensures sound { OnOk result (spelling_fault (rest_of trees.entry) ≡ None) }
        ensures err { IfErr result (IsTemplateError (rest_of trees.entry)) }
    {
        let parts = parse(alloc, binders, trees)?;
        Ok(Template { parts })
    }

    /// Returns the first fault, in reading order, that the template shows whatever it is filled with: a use in fewer repetitions than enclose
    /// its variable in the pattern, or a repetition that uses no variable in more repetitions than enclose the repetition. The variables must
    /// be those that the template was made for.
    ///
    /// Time and memory are linear in the number of parts. Fails only if memory runs out.
    pub fn fault(
        &self,
        alloc: Global,
        binders: &[Binder],
    ) -> Result<Option<TranscribeError>, AllocError>
        ensures { IfOk result (λ fault. fault ≡ template_fault (map where_of binders.now) (meant self.now)) }
    {
        fault_of(alloc, binders, &self.parts)
    }

    /// Returns the template filled with what an input binds. Each use is replaced by what is bound to its variable. Each
    /// repetition is filled as often as its variables have rounds, with its separator between the rounds. The variables must be
    /// those that the template was made for.
    ///
    /// Time and memory are linear in what is written, and in the number of marks of the binding times the number of variables. They are
    /// also linear in the number of parts of the repetitions, counted each time that one begins. Returns the first fault in the order of
    /// filling, or the limit that the tree exceeds; fails also if memory runs out.
    pub fn transcribe(
        &self,
        alloc: Global,
        binders: &[Binder],
        binding: Binding<'_>,
        delimiter: Delimiter,
    ) -> Result<TopSubtree, TranscribeError>
        ensures ok { IfOk result (IsTranscribed delimiter (transcribed (meant self.now) (binding_by (map where_of binders.now) (map note_of binding.entry.marks.items)))) }
        ensures limits { IfOk result (λ tree. IsWithinLimits tree) }
        ensures err { IfErr result (IsTranscribeError None delimiter (transcribed (meant self.now) (binding_by (map where_of binders.now) (map note_of binding.entry.marks.items)))) }
    {
        self.transcribe_within(alloc, binders, binding, delimiter, None)
    }

    /// Does the same with at most so many tokens below the delimiter, if there is a limit. Stops before it would write more.
    pub(crate) fn transcribe_within(
        &self,
        alloc: Global,
        binders: &[Binder],
        binding: Binding<'_>,
        delimiter: Delimiter,
        limit: Option<usize>,
    ) -> Result<TopSubtree, TranscribeError>
        ensures ok { IfOk result (IsTranscribed delimiter (transcribed (meant self.now) (binding_by (map where_of binders.now) (map note_of binding.entry.marks.items)))) }
        ensures limits { IfOk result (λ tree. IsWithinLimits tree) }
        ensures within { IfOk result (λ tree. IsWithin limit (size tree.children)) }
        ensures err { IfErr result (IsTranscribeError limit delimiter (transcribed (meant self.now) (binding_by (map where_of binders.now) (map note_of binding.entry.marks.items)))) }
    {
        transcribed(alloc, &self.parts, binders, binding, delimiter, limit)
    }

    /// Returns the parts of the template, in reading order, and the final end.
    pub fn parts(&self) -> &[Part]
        ensures { result.now ≡ self.now.parts.items }
    {
        &self.parts
    }
}
