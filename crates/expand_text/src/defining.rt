//! Reading the definition of a macro.
ghost use Rattle.std.specs.Prelude.{◌≡◌, ◌&&◌, List, None, Some, is_some, IfOk, OnOk, if◌then◌else◌};
ghost use Rattle.tt.specs.Iters.{rest_of};
ghost use Rattle.expand_text.specs.Defining.{IsRules};
ghost use Rattle.expand_items.specs.Items.{definition_of};
ghost use Rattle.expand_text.specs.Contexts.{IsSameBudget, Learns, config_of};
ghost use Rattle.expand_text.specs.Macros.{IsBuiltIn, IsDefined, IsRead, left_by};
ghost use Rattle.expand_text.specs.Prepared.{prepared};
ghost use Rattle.expand_text.specs.Scopes.{Macro as MacroOf, AreReady, last_named};

use crate::config::Config;
use crate::context::Context;
use crate::fault::MacroFault;
use crate::memory::OutOfMemory;
use crate::places::definition_place;
use crate::prepared::prepared;
use crate::scope::{Macro, Scope};
use expand_items::{Definition, Position};
use mbe_rules::{ArmFault, MacroRules};
use std::alloc::Global;
use syntax_edit::start_of;
use tt::{Symbol, TtFault};

/// The rules of a definition, or its fault and the byte at which it shows.
#[derive(Drop)]
pub(crate) enum Rules {
    Context(MacroRules),
    Faulty(u32, MacroFault),
}

/// Reads the rules of a definition, with the root's word for each `$crate`.
pub(crate) fn rules_of(
    alloc: Global,
    root: &Symbol,
    definition: &Definition<'_>,
) -> Result<Rules, OutOfMemory>
    ensures { IfOk result (IsRules (definition_of definition.now) (prepared root.now (rest_of definition.now.arms))) }
{
    let delimiter = definition.header.delimiter;
    let trees = definition.arms.remaining();
    let arms = match prepared(alloc, delimiter, trees, root) {
        Ok(arms) => arms,
        Err(TtFault::Memory) => return Err(OutOfMemory),
        Err(fault) => {
            let at = start_of(definition.name.span);
            return Ok(Rules::Faulty(at, MacroFault::TooLarge(fault)));
        }
    };
    match MacroRules::new(alloc, arms.iter()) {
        Ok(rules) => Ok(Rules::Context(rules)),
        Err(error) => match error.fault {
            ArmFault::Memory => Err(OutOfMemory),
            _ => {
                let behind = start_of(delimiter.close);
                let at = definition_place(arms.iter(), error, behind);
                Ok(Rules::Faulty(at, MacroFault::Definition(error)))
            }
        },
    }
}

// Returns whether a definition of that name is one of several: it is under a condition, and a macro of that name is in scope.
fn is_one_of_several(scope: &Scope, is_open: bool, name: &Symbol) -> bool
    ensures { (macros : List MacroOf) → AreReady macros scope.now.macros.items → result ≡ (is_open && is_some (last_named name.now macros)) }
{
    if !is_open {
        return false;
    }
    match scope.last(name) {
        Some(_) => true,
        None => false,
    }
}

// Returns why a macro is left as it is, if it is.
fn left_by(is_several: bool) -> MacroFault
    ensures { result ≡ left_by is_several }
{
    if is_several {
        MacroFault::SeveralDefinitions
    } else {
        MacroFault::Left
    }
}

// Returns the rules, unless the macro is one of several.
fn unless_several(is_several: bool, rules: MacroRules) -> Option<MacroRules>
    ensures { result ≡ (if is_several then None else Some rules) }
{
    if is_several { None } else { Some(rules) }
}

// Adds the macro to the scope, whose definition is under a condition if `is_open`. It is left as it is if another macro of its name is in
// scope then. If the definition has a fault, adds a finding too, and the macro is left as it is.
fn define(
    config: &Config<'_>,
    context: &mut Context,
    is_open: bool,
    definition: &Definition<'_>,
) -> Result<(), OutOfMemory>
    ensures defined { OnOk result (Learns context.old context.new (IsDefined is_open (definition_of definition.now) (prepared config.now.root (rest_of definition.now.arms)))) }
    ensures kept { OnOk result (IsSameBudget context.old context.new) }
{
    let name = definition.name.sym.clone()?;
    let mut left = MacroFault::Left;
    let rules = match rules_of(config.alloc, &config.root, definition)? {
        Rules::Context(rules) => {
            let is_several = is_one_of_several(&context.scope, is_open, &name);
            left = left_by(is_several);
            unless_several(is_several, rules)
        }
        Rules::Faulty(at, fault) => {
            context.find(&name, at, fault, None)?;
            None
        }
    };
    context.scope.define(Macro {
        name,
        defined_at: start_of(definition.name.span),
        left,
        rules,
    })?;
    Ok(())
}

// Adds a macro that is built into the compiler to the scope: it has no rules.
fn define_built_in(context: &mut Context, definition: &Definition<'_>) -> Result<(), OutOfMemory>
    ensures defined { OnOk result (Learns context.old context.new (IsBuiltIn (definition_of definition.now))) }
    ensures kept { OnOk result (IsSameBudget context.old context.new) }
{
    let name = definition.name.sym.clone()?;
    context.scope.define(Macro {
        name,
        defined_at: start_of(definition.name.span),
        left: MacroFault::BuiltIn,
        rules: None,
    })?;
    Ok(())
}

/// Adds the macro to the scope that a definition at a position defines, if the options ask for macros of its name.
pub(crate) fn read_definition(
    config: &Config<'_>,
    context: &mut Context,
    position: Position,
    definition: &Definition<'_>,
) -> Result<(), OutOfMemory>
    ensures read { OnOk result (Learns context.old context.new (IsRead (config_of config.now) position (definition_of definition.now))) }
    ensures kept { OnOk result (IsSameBudget context.old context.new) }
{
    if !config.asks_for(&definition.name.sym) {
        return Ok(());
    }
    if position.is_built_in() {
        define_built_in(context, definition)?;
    } else {
        define(config, context, position.is_open(), definition)?;
    }
    Ok(())
}
