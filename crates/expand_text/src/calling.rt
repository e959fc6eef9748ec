//! What a call expands to.
ghost use Rattle.std.specs.Prelude.{◌≡◌, List, None, IfOk, OnOk, is_some, option_copied};
ghost use Rattle.tt.specs.Iters.{rest_of};
ghost use Rattle.expand_text.specs.Calling.{IsMade, IsMadeWithin, IsCalled, IsCalledWithin};
ghost use Rattle.expand_items.specs.Items.{call_of};
ghost use Rattle.expand_text.specs.Contexts.{Context as ContextOf, IsContext, IsSameBudget, Learns, config_of, tokens_by};
ghost use Rattle.expand_text.specs.Meaning.{body};
ghost use Rattle.tt.specs.Views.{trees_of};
ghost use Rattle.expand_text.specs.Macros.{arms_of, called_by, left_behind, unexported_by};
ghost use Rattle.expand_text.specs.Scopes.{IsReadyIf};
ghost use Rattle.mbe_rules.specs.Arms.{Arm};
ghost use Rattle.mbe_rules.specs.Expansions.{AreMade};

use crate::config::Config;
use crate::context::Context;
use crate::expecting::expected_at;
use crate::fault::MacroFault;
use crate::memory::OutOfMemory;
use crate::places::start_at;
use crate::scope::Macro;
use expand_items::{Call, MacroPath, without_semicolon};
use mbe_rules::{Expansion, MacroRules, TranscribeError};
use std::alloc::Global;
use syntax_edit::start_of;
use tt::{Symbol, TokenTreesView, TopSubtree, TtFault};

/// What rules make of a call: a tree, or a fault, the byte at which it shows, and what is expected there.
#[derive(Drop)]
pub(crate) enum Made {
    Tree(TopSubtree),
    Faulty(u32, MacroFault, Option<Symbol>),
}

/// What becomes of a call.
#[derive(Drop)]
pub(crate) enum Called {
    /// No macro expands it.
    Other,
    /// It has a fault.
    Faulty,
    /// The tree, and the byte at which the macro's name begins in its definition.
    Tree(TopSubtree, u32),
}

// Expands a call by rules, with at most `limit` nested expansions and `allowed` tokens.
fn make(
    alloc: Global,
    limit: usize,
    allowed: usize,
    rules: &MacroRules,
    call: &Call<'_>,
) -> Result<Made, OutOfMemory>
    ensures within { IfOk result (IsMadeWithin limit allowed) }
    ensures made { IfOk result (λ made. (arms : List Arm) → AreMade arms rules.now.arms.items → IsMade limit allowed arms (call_of call.now) made) }
{
    let at = start_of(call.name.span);
    if limit == 0 {
        return Ok(Made::Faulty(at, MacroFault::TooDeep, None));
    }
    match rules.expand_within(alloc, call.input.remaining().iter(), allowed) {
        Ok(Expansion::Tree(tree)) => Ok(Made::Tree(tree)),
        Ok(Expansion::NoMatch(place)) => {
            let behind = start_of(call.header.delimiter.close);
            let stop = start_at(call.input.remaining(), place, behind);
            let input = call.input.remaining().iter();
            let expected = expected_at(alloc, rules, input, place)?;
            Ok(Made::Faulty(stop, MacroFault::NoMatch, Some(expected)))
        }
        Ok(Expansion::Ambiguous(arm)) => Ok(Made::Faulty(at, MacroFault::Ambiguous(arm), None)),
        Err(error) => match error.fault {
            TranscribeError::Tree(TtFault::Memory) => Err(OutOfMemory),
            TranscribeError::OverLimit => Ok(Made::Faulty(at, MacroFault::OverMaxTokens, None)),
            _ => Ok(Made::Faulty(at, MacroFault::Expansion(error), None)),
        },
    }
}

// Returns the macro that a call names, if macros of that name are expanded.
fn called_by<'k>(config: &Config<'_>, context: &'k Context, call: &Call<'_>) -> Option<&'k Macro>
    ensures { (known : ContextOf) → IsContext known context.now → IsReadyIf (called_by (config_of config.now) known (call_of call.now)) (option_copied result) }
{
    let name = &call.name.sym;
    if !config.asks_for(name) {
        return None;
    }
    match call.path {
        MacroPath::Name => context.scope.last(name),
        MacroPath::Root => context.exported.last(name),
        MacroPath::Other => None,
    }
}

// Returns the macro in scope that a call would name without the crate's root before its name.
fn unexported_by<'k>(
    config: &Config<'_>,
    context: &'k Context,
    call: &Call<'_>,
) -> Option<&'k Macro>
    ensures { (known : ContextOf) → IsContext known context.now → IsReadyIf (unexported_by (config_of config.now) known (call_of call.now)) (option_copied result) }
{
    let name = &call.name.sym;
    if config.asks_for(name) && call.path == MacroPath::Root {
        context.scope.last(name)
    } else {
        None
    }
}

/// Returns whether arms expand the call.
pub(crate) fn is_expanded(config: &Config<'_>, context: &Context, call: &Call<'_>) -> bool
    ensures { (known : ContextOf) → IsContext known context.now → result ≡ is_some (arms_of (called_by (config_of config.now) known (call_of call.now))) }
{
    match called_by(config, context, call) {
        Some(it) => it.rules.is_some(),
        None => false,
    }
}

// Adds a finding if a call that names no macro would name one in scope without the crate's root before its name.
fn find_unexported(
    config: &Config<'_>,
    context: &mut Context,
    call: &Call<'_>,
) -> Result<(), OutOfMemory>
    ensures left { OnOk result ((known : ContextOf) → IsContext known context.old → IsContext (left_behind (call_of call.now) None (unexported_by (config_of config.now) known (call_of call.now)) known) context.new) }
    ensures kept { OnOk result (IsSameBudget context.old context.new) }
{
    let Some(it) = unexported_by(config, context, call) else {
        return Ok(());
    };
    let defined_at = it.defined_at;
    let at = start_of(call.name.span);
    context.find(
        &call.name.sym,
        at,
        MacroFault::NotExported,
        Some(defined_at),
    )?;
    Ok(())
}

/// Expands a call, with at most `limit` nested expansions. Adds a finding if the call has a fault, if its macro is left as it is, or if its
/// macro is in scope but not exported.
pub(crate) fn expand_call(
    config: &Config<'_>,
    context: &mut Context,
    limit: usize,
    call: &Call<'_>,
) -> Result<Called, OutOfMemory>
    ensures within { IfOk result (IsCalledWithin limit (tokens_by context.old.caller config.now.max_tokens context.old.left)) }
    ensures kept { IfOk result (λ _. IsSameBudget context.old context.new) }
    ensures called { IfOk result (λ called. Learns context.old context.new (IsCalled (config_of config.now) limit (call_of call.now) called)) }
{
    let name = &call.name.sym;
    let at = start_of(call.name.span);
    let allowed = context.tokens_left(config);
    let Some(it) = called_by(config, context, call) else {
        find_unexported(config, context, call)?;
        return Ok(Called::Other);
    };
    let defined_at = it.defined_at;
    let left = it.left;
    let Some(rules) = &it.rules else {
        context.find(name, at, left, Some(defined_at))?;
        return Ok(Called::Other);
    };
    match make(config.alloc, limit, allowed, rules, call)? {
        Made::Tree(tree) => Ok(Called::Tree(tree, defined_at)),
        Made::Faulty(place, fault, expected) => {
            context.find_expecting(name, place, fault, Some(defined_at), expected)?;
            Ok(Called::Faulty)
        }
    }
}

/// Returns what an arm made of a call: without a `;` at the end, if that is an expression.
pub(crate) fn body(is_statement: bool, tree: &TopSubtree) -> TokenTreesView<'_>
    ensures { trees_of result ≡ body is_statement tree.now }
{
    if is_statement {
        tree.token_trees()
    } else {
        without_semicolon(tree.iter())
    }
}
