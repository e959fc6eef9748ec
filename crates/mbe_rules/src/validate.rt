//! Finds the fault that a template shows, by its parts from the last to the first.
ghost use Rattle.std.specs.Prelude.{◌≡◌, map, reverse, IfOk, OnOk};
ghost use Rattle.mbe_matcher.specs.Binders.{where_of};
ghost use Rattle.mbe_rules.specs.Validating.{raised, used_with, begun, validated_with, validated_by, validated_of};
ghost use Rattle.mbe_rules.specs.Parts.{bit_of};
ghost use Rattle.mbe_rules.specs.Templates.{depth_of, greater};

use crate::parts::Part;
use crate::transcribe_error::TranscribeError;
use mbe_matcher::Binder;
use std::alloc::{AllocError, Global};

/// The first fault so far; and for each open repetition, the innermost last, the greatest depth of a variable that it uses. The depth is
/// the number of repetitions around a variable in its pattern.
#[derive(Drop)]
pub(crate) struct Validation {
    fault: Option<TranscribeError>,
    depths: Vec<usize>,
}

// Returns the depth of a variable: how many repetitions enclose it in its pattern.
fn depth_of(binders: &[Binder], number: usize) -> usize
    ensures { result ≡ depth_of (map where_of binders.now) number }
{
    match binders.get(number) {
        Some(binder) => binder.nest.len(),
        None => 0,
    }
}

// Returns the greater number.
fn greater(a: usize, b: usize) -> usize
    ensures { result ≡ greater a b }
{
    if a < b { b } else { a }
}

impl Validation {
    // Notes that the innermost open repetition uses a variable of that depth.
    fn raise(&mut self, depth: usize) -> Result<(), AllocError>
        ensures fault { self.new.fault ≡ self.old.fault }
        ensures depths { OnOk result (reverse self.new.depths.items ≡ raised depth (reverse self.old.depths.items)) }
    {
        let Some(deepest) = self.depths.pop() else {
            return Ok(());
        };
        Ok(self.depths.push(greater(depth, deepest))?)
    }

    // Judges a use of a variable of that depth.
    fn use_at(&mut self, at: usize, depth: usize) -> Result<(), AllocError>
        ensures { OnOk result (validated_by self.new ≡ used_with at depth (validated_by self.old)) }
    {
        if self.depths.len() < depth {
            self.fault = Some(TranscribeError::StillRepeats(at));
        }
        self.raise(depth)
    }

    // Judges the beginning of the innermost open repetition.
    fn begin(&mut self, at: usize) -> Result<(), AllocError>
        ensures { OnOk result (validated_by self.new ≡ begun at (validated_by self.old).depths (validated_by self.old).fault) }
    {
        let Some(deepest) = self.depths.pop() else {
            return Ok(());
        };
        if self.depths.len() >= deepest {
            self.fault = Some(TranscribeError::NothingRepeats(at));
        }
        self.raise(deepest)
    }

    // Judges one more part; the parts come from the last to the first.
    fn add(&mut self, binders: &[Binder], part: &Part) -> Result<(), AllocError>
        ensures { OnOk result (validated_by self.new ≡ validated_with (map where_of binders.now) (bit_of part.now) (validated_by self.old)) }
    {
        match part {
            Part::Use(at, number, _) => self.use_at(*at, depth_of(binders, *number)),
            Part::Begin(at) => self.begin(*at),
            Part::Close(_) => Ok(self.depths.push(0)?),
            Part::Token(_) | Part::Enter(_) | Part::Leave => Ok(()),
        }
    }
}

/// Returns the first fault that the template of these parts shows, if there is one.
pub(crate) fn fault_of(
    alloc: Global,
    binders: &[Binder],
    parts: &[Part],
) -> Result<Option<TranscribeError>, AllocError>
    ensures { IfOk result (λ fault. fault ≡ (validated_of (map where_of binders.now) (map bit_of parts.now)).fault) }
{
    let mut validated = Validation {
        fault: None,
        depths: Vec::new(alloc),
    };
    let mut left = parts.len();
    while left > 0 {
        left -= 1;
        validated.add(binders, &parts[left])?;
    }
    Ok(validated.fault)
}
