//! Judges a pattern and a template at each `$`, in reading order.
ghost use Rattle.std.specs.Prelude.{◌≡◌, ◌⊎◌, None, Some, IfOk, IfErr, OnOk};
ghost use Rattle.tt.specs.Views.{trees_of};
ghost use Rattle.mbe_rule.specs.declared.fault.RuleFault.TheVariants.{Memory as NoMemory};
ghost use Rattle.mbe_rule.specs.Faults.{pattern_fault, template_fault};
ghost use Rattle.mbe_rule.specs.Variables.{names_in};

use crate::dollars::Dollars;
use crate::fault::RuleFault;
use crate::variable::{Name, name_in, variable_in};
use indexmap::IndexSet;
use std::alloc::Global;
use tt::TokenTreesView;

/// Returns the names of the pattern's variables, in reading order, or the pattern's first fault.
pub(crate) fn pattern_names(
    alloc: Global,
    pattern: TokenTreesView<'_>,
) -> Result<IndexSet<Name>, RuleFault>
    ensures names { IfOk result (λ names. names.keys ≡ names_in (trees_of pattern.entry)) }
    ensures ok { IfOk result (λ _. pattern_fault (trees_of pattern.entry) ≡ None) }
    ensures fault { IfErr result (λ fault. (fault ≡ NoMemory) ⊎ (pattern_fault (trees_of pattern.entry) ≡ Some fault)) }
{
    let mut names = IndexSet::new(alloc);
    let mut dollars = Dollars::new(alloc, pattern.iter())?;
    while let Some(mut siblings) = dollars.next()? {
        let Some(variable) = variable_in(&mut siblings) else {
            return Err(RuleFault::BadPattern);
        };
        if !names.insert(variable.name)? {
            return Err(RuleFault::DuplicateName);
        }
    }
    Ok(names)
}

/// Finds the template's first fault, if the variables have these names.
pub(crate) fn check_template(
    alloc: Global,
    template: TokenTreesView<'_>,
    names: &IndexSet<Name>,
) -> Result<(), RuleFault>
    ensures ok { OnOk result (template_fault names.now.keys (trees_of template.entry) ≡ None) }
    ensures fault { IfErr result (λ fault. (fault ≡ NoMemory) ⊎ (template_fault names.now.keys (trees_of template.entry) ≡ Some fault)) }
{
    let mut dollars = Dollars::new(alloc, template.iter())?;
    while let Some(mut siblings) = dollars.next()? {
        let Some(name) = name_in(&mut siblings) else {
            return Err(RuleFault::BadTemplate);
        };
        if !names.contains(&name) {
            return Err(RuleFault::UnknownName);
        }
    }
    Ok(())
}
