//! The next event of a walk.
ghost use Rattle.std.specs.Prelude.{◌≡◌, ℕ, Bool, IfErr, IfOk};
ghost use Rattle.expand_items.specs.Items.{calls, call_of};
ghost use Rattle.expand_text.specs.Contexts.{Learns, IsSameBudget, config_of, tokens_by};
ghost use Rattle.expand_text.specs.Choices.{IsChoiceWithin, IsChosen, Advances};
ghost use Rattle.expand_text.specs.Meaning.{IsPlain};
ghost use Rattle.expand_text.specs.Events.{IsWithin, IsNext, Steps};
ghost use Rattle.expand_text.specs.Stops.{IsChoiceFirst, IsEventFirst, IsStop};
ghost use Rattle.expand_text.specs.Walks.{first_level, levels_of, IsAtItem, IsFirst};

use crate::calling::{Called, expand_call, is_expanded};
use crate::capturing::find_capture;
use crate::config::Config;
use crate::context::Context;
use crate::defining::read_definition;
use crate::invocation::{Invocation, begin_byte, call_part, invocation_of};
use crate::memory::{OutOfMemory, OutOfMemoryAt};
use crate::part::Part;
use crate::plain::plain_behind_part;
use crate::walk::Walk;
use expand_items::{Call, Item, item_at};
use std::alloc::AllocError;
use tt::{Leaf, Span, Subtree, TopSubtree, TtElement};

/// The next event of a walk.
#[derive(Drop)]
pub(crate) enum Event {
    /// The end of the trees.
    End,
    Leaf(Leaf),
    Opens(Subtree),
    Closes(Span),
    /// A part that stays with all that it contains. It comes first, and is not passed yet.
    Stays(Part),
    /// A call that is expanded, and what an arm made of it. It comes first, and is not passed yet.
    Invocation(Invocation, TopSubtree),
}

/// What becomes of the trees that come first.
#[derive(Drop)]
pub(crate) enum Choice {
    /// The first tree is taken as it is, and so many in all.
    Plain(usize),
    Stays(Part),
    Invocation(Invocation, TopSubtree),
}

// Takes the first tree as it is, or ends a level.
fn next_tree(
    walk: &mut Walk,
    config: &Config<'_>,
    context: &mut Context,
) -> Result<Event, AllocError>
    ensures within { IfOk result (λ event. (limit allowed : ℕ) → IsWithin limit allowed event) }
    ensures steps { IfOk result (λ event. Steps (levels_of walk.old) event (levels_of walk.new)) }
    ensures kept { IfOk result (λ _. IsSameBudget context.old context.new) }
    ensures next { IfOk result (λ event. (limit : ℕ) → Learns context.old context.new (λ before after. IsPlain (config_of config.now) before (first_level walk.old).position (first_level walk.old).plain (first_level walk.old).rest → (in_text : Bool) → IsNext (config_of config.now) in_text limit (levels_of walk.old) before event (levels_of walk.new) after)) }
{
    match walk.rest().peek() {
        None => {
            context.leave(walk.level().kept);
            match walk.leave() {
                Some(close) => Ok(Event::Closes(close)),
                None => Ok(Event::End),
            }
        }
        Some(TtElement::Leaf(leaf)) => {
            walk.pass_leaf(config, &leaf)?;
            Ok(Event::Leaf(leaf))
        }
        Some(TtElement::Subtree(header, _)) => {
            walk.enter(header.delimiter, context.scope.len())?;
            Ok(Event::Opens(header))
        }
    }
}

// Returns what becomes of the call that comes first.
fn choose_call(
    walk: &Walk,
    config: &Config<'_>,
    context: &mut Context,
    limit: usize,
    call: &Call<'_>,
) -> Result<Choice, OutOfMemory>
    ensures within { IfOk result (IsChoiceWithin limit (tokens_by context.old.caller config.now.max_tokens context.old.left)) }
    ensures steps { IfOk result (λ choice. IsFirst (calls (call_of call.now)) (config_of config.now) (first_level walk.now) → Advances (levels_of walk.now) choice) }
    ensures first { IfOk result (λ choice. IsFirst (calls (call_of call.now)) (config_of config.now) (first_level walk.now) → IsChoiceFirst (config_of config.now) (levels_of walk.now) choice) }
    ensures kept { IfOk result (λ _. IsSameBudget context.old context.new) }
    ensures chosen { IfOk result (λ choice. Learns context.old context.new (λ before after. IsAtItem (calls (call_of call.now)) (config_of config.now) (first_level walk.now) before → (in_text : Bool) → IsChosen (config_of config.now) in_text limit (levels_of walk.now) before choice after)) }
{
    if call.attributes > 0 && !is_expanded(config, context, call) {
        return Ok(Choice::Plain(call.attributes));
    }
    match expand_call(config, context, limit, call)? {
        Called::Tree(tree, defined_at) => {
            let invocation = invocation_of(walk, call, &tree, defined_at)?;
            find_capture(config, context, call, &invocation, &tree)?;
            Ok(Choice::Invocation(invocation, tree))
        }
        Called::Faulty => Ok(Choice::Stays(call_part(walk.level(), call, false))),
        Called::Other => {
            if config.everywhere {
                Ok(Choice::Plain(call.len))
            } else {
                Ok(Choice::Stays(call_part(walk.level(), call, false)))
            }
        }
    }
}

// Returns what becomes of the trees that come first. A definition is in scope from then on. If memory runs out while a call is expanded,
// returns where that begins.
fn choose(
    walk: &Walk,
    config: &Config<'_>,
    context: &mut Context,
    limit: usize,
) -> Result<Choice, OutOfMemoryAt>
    ensures within { IfOk result (IsChoiceWithin limit (tokens_by context.old.caller config.now.max_tokens context.old.left)) }
    ensures steps { IfOk result (Advances (levels_of walk.now)) }
    ensures first { IfOk result (IsChoiceFirst (config_of config.now) (levels_of walk.now)) }
    ensures stop { IfErr result (λ out. IsStop (config_of config.now) (levels_of walk.now) out.call) }
    ensures kept { IfOk result (λ _. IsSameBudget context.old context.new) }
    ensures chosen { IfOk result (λ choice. Learns context.old context.new (λ before after. (in_text : Bool) → IsChosen (config_of config.now) in_text limit (levels_of walk.now) before choice after)) }
{
    let level = walk.level();
    if level.plain > 0 || context.is_over {
        return Ok(Choice::Plain(level.plain));
    }
    let position = level.position;
    let root = config.root.as_str();
    match item_at(config.alloc, config.cfg, position, walk.rest(), root)? {
        Item::Definition(definition) => {
            read_definition(config, context, position, &definition)?;
            Ok(Choice::Stays(Part {
                len: definition.len,
                semicolon: false,
                position: position.behind(true),
                plain: level.plain,
            }))
        }
        Item::Call(call) => match choose_call(walk, config, context, limit, &call) {
            Ok(choice) => Ok(choice),
            Err(OutOfMemory) => Err(OutOfMemoryAt {
                call: Some(begin_byte(walk, &call)),
            }),
        },
        Item::Inactive(len) => Ok(Choice::Stays(Part {
            len,
            semicolon: false,
            position: position.behind(true),
            plain: plain_behind_part(len, walk.rest()),
        })),
        Item::Other => Ok(Choice::Plain(level.plain)),
    }
}

/// Returns the next event, with at most `limit` nested expansions. A definition is in scope from then on. If memory runs out while a call is
/// expanded, returns where that begins.
pub(crate) fn next(
    walk: &mut Walk,
    config: &Config<'_>,
    context: &mut Context,
    limit: usize,
) -> Result<Event, OutOfMemoryAt>
    ensures within { IfOk result (IsWithin limit (tokens_by context.old.caller config.now.max_tokens context.old.left)) }
    ensures steps { IfOk result (λ event. Steps (levels_of walk.old) event (levels_of walk.new)) }
    ensures first { IfOk result (IsEventFirst (config_of config.now) (levels_of walk.old)) }
    ensures stop { IfErr result (λ out. IsStop (config_of config.now) (levels_of walk.old) out.call) }
    ensures kept { IfOk result (λ _. IsSameBudget context.old context.new) }
    ensures next { IfOk result (λ event. Learns context.old context.new (λ before after. (in_text : Bool) → IsNext (config_of config.now) in_text limit (levels_of walk.old) before event (levels_of walk.new) after)) }
{
    match choose(walk, config, context, limit)? {
        Choice::Plain(plain) => {
            walk.take_plain(plain);
            Ok(next_tree(walk, config, context)?)
        }
        Choice::Stays(part) => Ok(Event::Stays(part)),
        Choice::Invocation(invocation, tree) => Ok(Event::Invocation(invocation, tree)),
    }
}
