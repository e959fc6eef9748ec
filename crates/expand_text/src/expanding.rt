//! Expanding calls into a builder.
ghost use Rattle.std.specs.Prelude.{◌≡◌, ◌<◌, IfOk, OnOk};
ghost use Rattle.tt.specs.Building.{BuilderState, append, depth};
ghost use Rattle.tt.specs.Forest.{Forest, Root};
ghost use Rattle.tt.specs.Views.{trees_of};
ghost use Rattle.expand_text.specs.Contexts.{Context as ContextOf, HasCaller, IsContext, IsOutside, Learns, config_of};
ghost use Rattle.expand_text.specs.Expanding.{AreExpanded, IsPlaced};
ghost use Rattle.expand_text.specs.Invocations.{body_of};
ghost use Rattle.expand_text.specs.Waiting.{IsEntered, IsEnded, CanGoOn, depth_behind, top_behind};
ghost use Rattle.expand_text.specs.Walks.{levels_of, past_in};

use crate::config::Config;
use crate::context::{Context, Outside};
use crate::fault::MacroFault;
use crate::invocation::Invocation;
use crate::memory::OutOfMemory;
use crate::next::{Event, next};
use crate::placement::{begin, end};
use crate::walk::Walk;
use syntax_edit::start_of;
use tt::{TokenTreesView, TopSubtree, TopSubtreeBuilder};

/// An expansion that waits for that of a call in it.
#[derive(Drop)]
pub(crate) struct Waiting {
    /// The walk through it. The call comes first.
    walk: Walk,
    call: Invocation,
    outside: Outside,
    /// What is built around the call's expansion, if that is built apart.
    outer: Option<TopSubtreeBuilder>,
}

// Enters the call that comes first, and adds its attributes. Returns the expansion that it is in, which waits, and a walk through what an
// arm made of the call.
fn enter(
    config: &Config<'_>,
    context: &mut Context,
    walk: Walk,
    call: Invocation,
    tree: TopSubtree,
    builder: &mut TopSubtreeBuilder,
) -> Result<(Waiting, Walk), OutOfMemory>
    ensures { IfOk result (λ entered. IsEntered (config_of config.now) walk call tree builder.old context.old entered.0 entered.1 builder.new context.new) }
{
    let whole = walk.front(&call.part);
    builder.extend_with_tt(call.attributes_in(whole))?;
    let at = start_of(call.first_span);
    let tokens = tree.token_trees().len();
    let outside = context.enter_call(config, &call.name, at, tokens)?;
    let outer = begin(config, &call, builder)?;
    let inside = call.walk(config.alloc, tree);
    Ok((
        Waiting {
            walk,
            call,
            outside,
            outer,
        },
        inside,
    ))
}

// Leaves the call for which an expansion waits, and puts what was built in its place; if that does not fit there, adds the call itself and a
// finding. Returns the walk behind the call.
fn leave(
    config: &Config<'_>,
    context: &mut Context,
    waiting: Waiting,
    builder: &mut TopSubtreeBuilder,
) -> Result<Walk, OutOfMemory>
    requires { CanGoOn waiting (depth builder.old.stack) }
    ensures walk { IfOk result (λ walk. levels_of walk ≡ past_in waiting.call.part (levels_of waiting.walk)) }
    ensures ended { OnOk result (IsEnded waiting context.old builder.old context.new builder.new) }
    ensures depth { OnOk result (depth builder.new.stack ≡ depth_behind waiting (depth builder.old.stack)) }
    ensures top { OnOk result (builder.new.top ≡ top_behind waiting builder.old.top) }
    ensures left { OnOk result (context.new.left ≡ context.old.left) }
    ensures caller { OnOk result (context.new.caller ≡ waiting.outside.caller) }
{
    let Waiting {
        mut walk,
        call,
        outside,
        outer,
    } = waiting;
    let attributes = call.attributes_in(walk.front(&call.part));
    let misplaced = end(config, &call, attributes, outer, builder)?;
    context.leave_call(outside);
    if let Some(fault) = misplaced {
        let at = start_of(call.first_span);
        context.find(&call.name, at, fault, Some(call.defined_at))?;
        builder.extend_with_tt(call.call_in(walk.front(&call.part)))?;
    }
    walk.pass(&call.part);
    Ok(walk)
}

// Expands what an arm made of a call, with at most `limit` nested expansions, into the builder. Each expansion of a call waits for those of
// the calls in it in a list.
fn expand_tree(
    config: &Config<'_>,
    context: &mut Context,
    limit: usize,
    call: &Invocation,
    tree: TopSubtree,
    builder: &mut TopSubtreeBuilder,
) -> Result<(), OutOfMemory>
    requires { HasCaller context.old }
    ensures depth { OnOk result (depth builder.new.stack ≡ depth builder.old.stack) }
    ensures top { OnOk result (builder.new.top ≡ builder.old.top) }
    ensures expanded { OnOk result (Learns context.old context.new (AreExpanded (config_of config.now) limit call.now.position (body_of call.now tree) builder.old.stack builder.new.stack)) }
{
    let mut walk = call.walk(config.alloc, tree);
    let mut waiting = Vec::new(config.alloc);
    'trees: loop {
        match next(&mut walk, config, context, limit - waiting.len())? {
            Event::End => {
                let Some(outer) = waiting.pop() else {
                    return Ok(());
                };
                walk = leave(config, context, outer, builder)?;
            }
            Event::Leaf(leaf) => builder.push(leaf)?,
            Event::Opens(header) => {
                builder.open(header.delimiter.kind, header.delimiter.open_span)?;
            }
            Event::Closes(close) => builder.close(close)?,
            Event::Stays(part) => {
                builder.extend_with_tt(walk.front(&part))?;
                walk.pass(&part);
            }
            Event::Invocation(inner, made) => {
                let (outer, inside) = enter(config, context, walk, inner, made, builder)?;
                waiting.push(outer)?;
                walk = inside;
            }
        }
    }
}

/// Enters a call of these trees, expands what an arm made of it, with at most `limit` nested expansions, and adds the result in the place of
/// the call. Returns the fault if the result does not fit there.
pub(crate) fn expand_invocation(
    config: &Config<'_>,
    context: &mut Context,
    limit: usize,
    call: &Invocation,
    whole: TokenTreesView<'_>,
    tree: TopSubtree,
    builder: &mut TopSubtreeBuilder,
) -> Result<Option<MacroFault>, OutOfMemory>
    ensures top { OnOk result (builder.new.top ≡ builder.old.top) }
    ensures depth { OnOk result (depth builder.new.stack ≡ depth builder.old.stack) }
    ensures placed { IfOk result (λ misplaced. Learns context.old context.new (IsPlaced (config_of config.now) limit call.now (trees_of whole.entry) tree misplaced builder.old.stack builder.new.stack)) }
{
    let at = start_of(call.first_span);
    let tokens = tree.token_trees().len();
    let outside = context.enter_call(config, &call.name, at, tokens)?;
    let outer = begin(config, call, builder)?;
    expand_tree(config, context, limit, call, tree, builder)?;
    let misplaced = end(config, call, call.attributes_in(whole), outer, builder)?;
    context.leave_call(outside);
    Ok(misplaced)
}
