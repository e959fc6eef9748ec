//! Byte places in the text.
ghost use Rattle.std.specs.Prelude.{◌≡◌, ◌*◌};
ghost use Rattle.tt.specs.Gluing.{after_trees};
ghost use Rattle.tt.specs.Iters.{rest_of};
ghost use Rattle.tt.specs.Span.{start_of};
ghost use Rattle.tt.specs.Views.{trees_of};
ghost use Rattle.expand_text.specs.Places.{byte_at, byte_within, pattern_place, spelling_place, fault_place, arm_len, definition_byte, template_byte};

use mbe_pattern::{PatternError, pass};
use mbe_rules::{ArmFault, ExpandError, RulesError, TemplateError, TranscribeError};
use syntax_edit::start_of;
use tt::{TokenTreesView, TtIter};

/// The number of trees of an arm with the `;` after it: a pattern, `=`, `>`, a template and `;`.
const ARM_LEN: usize = 5;

/// The number of trees before an arm's template.
const BEFORE_TEMPLATE: usize = 3;

/// Returns the byte at which the token of a flat place among trees begins, or `behind` if there is none.
pub(crate) fn start_at(trees: TokenTreesView<'_>, place: usize, behind: u32) -> u32
    ensures { result ≡ byte_at (trees_of trees.entry) place behind }
{
    match trees.iter_flat_tokens().nth(place) {
        Some(token) => start_of(token.first_span()),
        None => behind,
    }
}

// The same in the first tree if that is a subtree, or the byte at which it closes. Returns `behind` if the first tree is no subtree.
fn start_within(mut trees: TtIter<'_>, place: usize, behind: u32) -> u32
    ensures { result ≡ byte_within (rest_of trees.entry) place behind }
{
    match trees.expect_subtree() {
        Ok((header, inside)) => start_at(
            inside.remaining(),
            place,
            start_of(header.delimiter.close),
        ),
        Err(()) => behind,
    }
}

// Returns the flat place of a pattern's fault.
fn pattern_place(error: PatternError) -> usize
    ensures { result ≡ pattern_place error }
{
    match error {
        PatternError::BeginsNothing(at)
        | PatternError::UnknownFragment(at)
        | PatternError::NameTwice(at)
        | PatternError::NeedlessSeparator(at)
        | PatternError::EmptyRepetition(at) => at,
        PatternError::Memory => 0,
    }
}

// Returns the flat place of a template's fault.
fn spelling_place(error: TemplateError) -> usize
    ensures { result ≡ spelling_place error }
{
    match error {
        TemplateError::BeginsNothing(at)
        | TemplateError::NoOperator(at)
        | TemplateError::NeedlessSeparator(at) => at,
        TemplateError::Memory => 0,
    }
}

// Returns the flat place of a fault of filling, if it has one.
fn fault_place(error: TranscribeError) -> usize
    ensures { result ≡ fault_place error }
{
    match error {
        TranscribeError::StillRepeats(at)
        | TranscribeError::NothingRepeats(at)
        | TranscribeError::LengthsDiffer(at)
        | TranscribeError::NoRound(at) => at,
        TranscribeError::OverLimit | TranscribeError::Tree(_) => 0,
    }
}

// Passes `count` arms.
fn pass_arms(trees: &mut TtIter<'_>, count: usize)
    ensures { rest_of trees.new ≡ after_trees (count * arm_len) (rest_of trees.old) }
{
    for _ in 0..count {
        pass(trees, ARM_LEN);
    }
}

/// Returns the byte at which the fault of a definition shows. The definition has these arms, which end at the byte `behind`.
pub(crate) fn definition_place(arms: TtIter<'_>, error: RulesError, behind: u32) -> u32
    ensures { result ≡ definition_byte (rest_of arms.entry) error behind }
{
    let mut left = arms.remaining().iter();
    pass_arms(&mut left, error.arm);
    match error.fault {
        ArmFault::NoPattern(at)
        | ArmFault::NoArrow(at)
        | ArmFault::NoTemplate(at)
        | ArmFault::NoSemicolon(at) => start_at(arms.remaining(), at, behind),
        ArmFault::Pattern(error) => start_within(left, pattern_place(error), behind),
        ArmFault::Template(error) => {
            pass(&mut left, BEFORE_TEMPLATE);
            start_within(left, spelling_place(error), behind)
        }
        ArmFault::Memory => behind,
    }
}

/// Returns the byte at which a fault of filling shows in the template of its arm. It is one of these arms, which end at the byte `behind`.
pub(crate) fn template_place(arms: TtIter<'_>, error: ExpandError, behind: u32) -> u32
    ensures { result ≡ template_byte (rest_of arms.entry) error behind }
{
    let mut left = arms;
    pass_arms(&mut left, error.arm);
    pass(&mut left, BEFORE_TEMPLATE);
    start_within(left, fault_place(error.fault), behind)
}
