//! The faults that the rules of a definition show, whatever the input of a call.
ghost use Rattle.std.specs.Prelude.{◌≡◌, map, IfOk};
ghost use Rattle.tt.specs.Iters.{rest_of};
ghost use Rattle.expand_items.specs.Items.{definition_of};
ghost use Rattle.expand_text.specs.Prepared.{prepared};
ghost use Rattle.expand_text.specs.Shown.{shown_at, AreShown};

use crate::defining::{Rules, rules_of};
use crate::places::template_place;
use crate::prepared::prepared;
use expand_items::Definition;
use mbe_rules::ExpandError;
use std::alloc::{AllocError, Global};
use syntax_edit::start_of;
use tt::{Symbol, TtIter};

/// A fault that a rule of a definition shows whatever the input of a call.
#[derive(Debug, Clone, Copy, PartialEq, Eq)]
pub struct ShownFault {
    /// The number of the rule, from 0, and the fault of a call if filling the template of the rule comes to it.
    pub error: ExpandError,
    /// The byte of its `$` in that template.
    pub at: u32,
}

// Returns the fault with its byte in the arms, which end at the byte `behind`.
fn placed_at(error: &ExpandError, arms: TtIter<'_>, behind: u32) -> ShownFault
    ensures { result ≡ shown_at (rest_of arms.entry) behind error.now }
{
    ShownFault {
        error: *error,
        at: template_place(arms, *error, behind),
    }
}

// Returns these faults, each with its byte in the arms, which end at the byte `behind`.
fn placed(
    alloc: Global,
    errors: &[ExpandError],
    arms: TtIter<'_>,
    behind: u32,
) -> Result<Vec<ShownFault>, AllocError>
    ensures { IfOk result (λ faults. faults.items ≡ map (shown_at (rest_of arms.entry) behind) errors.now) }
{
    let mut faults = Vec::new(alloc);
    for error in errors {
        faults.push(placed_at(error, arms.remaining().iter(), behind))?;
    }
    Ok(faults)
}

/// Returns for each rule of a definition, in order, the first fault that its template shows whatever the input of a call. The macro has that
/// word for each `$crate`. Returns no fault if the definition has one. Fails only if memory runs out.
pub fn shown_faults(
    alloc: Global,
    root: &Symbol,
    definition: &Definition<'_>,
) -> Result<Vec<ShownFault>, AllocError>
    ensures { IfOk result (λ faults. AreShown (definition_of definition.now) (prepared root.now (rest_of definition.now.arms)) faults.items) }
{
    let rules = match rules_of(alloc, root, definition) {
        Ok(Rules::Context(rules)) => rules,
        Ok(Rules::Faulty(..)) => return Ok(Vec::new(alloc)),
        Err(_memory) => return Err(AllocError),
    };
    let errors = rules.faults(alloc)?;
    let delimiter = definition.header.delimiter;
    let Ok(arms) = prepared(alloc, delimiter, definition.arms.remaining(), root) else {
        return Err(AllocError);
    };
    let behind = start_of(delimiter.close);
    let faults = placed(alloc, &errors, arms.iter(), behind)?;
    Ok(faults)
}
