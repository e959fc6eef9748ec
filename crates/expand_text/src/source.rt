//! A source text, and the text with its calls replaced.
ghost use Rattle.std.specs.Prelude.{◌≡◌, ◌<◌, ◌+◌, ◌^◌, true, IfErr, IfOk, OnOk, Some, length, string_bytes};
ghost use Rattle.tt.specs.Span.{start_of};
ghost use Rattle.tt.specs.Stored.{IsWithinLimits};
ghost use Rattle.expand_text.specs.Macros.{tree_of};
ghost use Rattle.expand_items.specs.Loosening.{loosened, place_of};
ghost use Rattle.expand_text.specs.Expansion.{IsTextOf, IsInvocationText, IsInvocationWritten, IsSourceText};
ghost use Rattle.expand_text.specs.Contexts.{Context as ContextOf, IsContext, Learns, config_of};
ghost use Rattle.expand_text.specs.Reading.{Spells};
ghost use Rattle.expand_text.specs.Stops.{IsStop, IsStopIn};
ghost use Rattle.syntax_edit.specs.Texts.{writing_of};
ghost use Rattle.syntax_unparse.specs.Text.{text_of};
ghost use Rattle.syntax_unparse.specs.Writable.{IsWritable, IsWriteFault};
ghost use Rattle.tt.specs.Views.{trees_of};
ghost use Rattle.expand_text.specs.Walks.{front_in, levels_of, past_in, work_in};
ghost use Rattle.expand_text.specs.Writing.{IsNextWritten};

use crate::config::Config;
use crate::context::Context;
use crate::expanding::expand_invocation;
use crate::fault::MacroFault;
use crate::invocation::Invocation;
use crate::memory::{OutOfMemory, OutOfMemoryAt};
use crate::next::{Event, next};
use crate::places::start_at;
use crate::walk::Walk;
use expand_items::{Position, Siblings, loosened};
use syntax_edit::{Output, end_of, start_of};
use syntax_layout::rust_text_laid;
use syntax_unparse::{WriteFault, rust_text};
use tt::{
    Delimiter, DelimiterKind, Refused, TokenTreesView, TopSubtree, TopSubtreeBuilder, TreeWalk,
    TtFault,
};

/// The text of an expansion, or why there is none and the byte at which that shows.
#[derive(Drop)]
pub(crate) enum Written {
    Text(String),
    Faulty(u32, MacroFault),
}

// Returns the Rust text of trees that replace a call: on one line if that is asked for, and otherwise laid out. The call begins at the byte
// `begin`.
fn spelled(config: &Config<'_>, begin: u32, trees: TokenTreesView<'_>) -> Result<String, WriteFault>
    ensures spells { IfOk result (λ text. Spells config.now.one_line (trees_of trees.entry) (string_bytes text)) }
    ensures writable { IfOk result (λ _. IsWritable (trees_of trees.entry)) }
    ensures fits { IfOk result (λ _. 1 + length (text_of (trees_of trees.entry)) < 2 ^ 32) }
    ensures err { IfErr result (IsWriteFault (trees_of trees.entry)) }
{
    if config.one_line {
        rust_text(config.alloc, trees)
    } else {
        rust_text_laid(config.alloc, trees, &config.sources, begin as usize)
    }
}

// Writes the expansion of a call as a text, or returns why it has none. The call begins at
// the byte `begin`. The tree must be within the limits.
fn write_tree(
    config: &Config<'_>,
    begin: u32,
    delimiter: Delimiter,
    tree: &TopSubtree,
) -> Result<Written, OutOfMemory>
    requires { IsWithinLimits (tree_of delimiter tree.now.children) }
    ensures { IfOk result (IsTextOf config.now.one_line delimiter tree.now.children begin) }
{
    match spelled(config, begin, tree.token_trees()) {
        Ok(text) => Ok(Written::Text(text)),
        Err(WriteFault::Memory) => Err(OutOfMemory),
        Err(WriteFault::NotWritable { at: place }) => {
            let at = start_at(tree.token_trees(), place, begin);
            Ok(Written::Faulty(at, MacroFault::NotWritable))
        }
        Err(WriteFault::TooLong) => Ok(Written::Faulty(begin, MacroFault::TooLong)),
    }
}

// Writes an expansion, this tree in the place of its call, with only the parentheses that it needs, or returns why it has no text. The call
// begins at the byte `begin`.
fn write_loosened(
    config: &Config<'_>,
    begin: u32,
    invocation: &Invocation,
    tree: &TopSubtree,
) -> Result<Written, OutOfMemory>
    ensures { IfOk result (IsTextOf config.now.one_line invocation.now.delimiter (loosened (place_of invocation.now.enclosure invocation.now.position) tree.now.children) begin) }
{
    let top = Delimiter {
        kind: DelimiterKind::Invisible,
        ..invocation.delimiter
    };
    let position = invocation.position;
    match loosened(
        config.alloc,
        top,
        invocation.enclosure,
        position,
        tree.token_trees(),
    ) {
        Ok(shown) => Ok(write_tree(config, begin, invocation.delimiter, &shown)?),
        Err(TtFault::Memory) => Err(OutOfMemory),
        Err(fault) => Ok(Written::Faulty(begin, MacroFault::TooLarge(fault))),
    }
}

// Returns the text of what a call of these trees expands to, or why it has none.
fn invocation_text(
    config: &Config<'_>,
    context: &mut Context,
    limit: usize,
    invocation: &Invocation,
    whole: TokenTreesView<'_>,
    tree: TopSubtree,
) -> Result<Written, OutOfMemory>
    ensures { IfOk result (λ written. Learns context.old context.new (IsInvocationText (config_of config.now) limit invocation.now (trees_of whole.entry) tree written)) }
{
    let top = Delimiter {
        kind: DelimiterKind::Invisible,
        ..invocation.delimiter
    };
    let mut builder = TopSubtreeBuilder::new(config.alloc, top)?;
    let begin = start_of(invocation.first_span);
    match expand_invocation(
        config,
        context,
        limit,
        invocation,
        whole,
        tree,
        &mut builder,
    )? {
        Some(fault) => return Ok(Written::Faulty(begin, fault)),
        None => {}
    }
    match builder.build() {
        Ok(tree) => Ok(write_loosened(config, begin, invocation, &tree)?),
        Err(
            Refused {
                fault: TtFault::Memory,
                ..
            },
        ) => Err(OutOfMemory),
        Err(refused) => Ok(Written::Faulty(begin, MacroFault::TooLarge(refused.fault))),
    }
}

// Expands a call of these trees with at most `limit` nested expansions, and writes the result in its place. Adds a finding if there is no
// text.
fn write_invocation(
    config: &Config<'_>,
    context: &mut Context,
    limit: usize,
    invocation: &Invocation,
    whole: TokenTreesView<'_>,
    tree: TopSubtree,
    output: &mut Output<'_>,
) -> Result<(), OutOfMemory>
    ensures { OnOk result (Learns context.old context.new (IsInvocationWritten (config_of config.now) limit invocation.now (trees_of whole.entry) tree (writing_of output.old) (writing_of output.new))) }
{
    match invocation_text(config, context, limit, invocation, whole, tree)? {
        Written::Text(text) => {
            let start = start_of(invocation.first_span) as usize;
            let end = end_of(invocation.last_span) as usize;
            let _is_left = output.replace(start, end, text.as_str())?;
            Ok(())
        }
        Written::Faulty(at, fault) => {
            let defined_at = Some(invocation.defined_at);
            context.find(&invocation.name, at, fault, defined_at)?;
            Ok(())
        }
    }
}

// Writes the expansion of the call that comes first, and passes the call. If memory runs out, returns where the call begins.
fn write_call(
    config: &Config<'_>,
    context: &mut Context,
    limit: usize,
    walk: &mut Walk,
    call: Invocation,
    tree: TopSubtree,
    output: &mut Output<'_>,
) -> Result<(), OutOfMemoryAt>
    ensures stop { IfErr result (λ out. out.call ≡ Some (start_of call.first_span.range)) }
    ensures walk { OnOk result (levels_of walk.new ≡ past_in call.part (levels_of walk.old)) }
    ensures written { OnOk result (Learns context.old context.new (IsInvocationWritten (config_of config.now) limit call (front_in call.part (levels_of walk.old)) tree (writing_of output.old) (writing_of output.new))) }
{
    let whole = walk.front(&call.part);
    match write_invocation(config, context, limit, &call, whole, tree, output) {
        Ok(()) => {
            walk.pass(&call.part);
            Ok(())
        }
        Err(OutOfMemory) => Err(OutOfMemoryAt {
            call: Some(start_of(call.first_span)),
        }),
    }
}

// Goes to the next event of the walk, and writes the expansion if it is a call; all other trees stay as they are. Returns whether the walk
// goes on. If memory runs out while a call is expanded, returns where that begins.
fn write_next(
    config: &Config<'_>,
    context: &mut Context,
    limit: usize,
    walk: &mut Walk,
    output: &mut Output<'_>,
) -> Result<bool, OutOfMemoryAt>
    ensures stop { IfErr result (λ out. IsStop (config_of config.now) (levels_of walk.old) out.call) }
    ensures steps { IfOk result (λ goes_on. goes_on ≡ true → work_in (levels_of walk.new) < work_in (levels_of walk.old)) }
    ensures written { IfOk result (λ goes_on. Learns context.old context.new (IsNextWritten goes_on (config_of config.now) limit (levels_of walk.old) (levels_of walk.new) (writing_of output.old) (writing_of output.new))) }
{
    match next(walk, config, context, limit)? {
        Event::End => return Ok(false),
        Event::Leaf(_leaf) => {}
        Event::Opens(_header) => {}
        Event::Closes(_close) => {}
        Event::Stays(part) => walk.pass(&part),
        Event::Invocation(call, tree) => {
            write_call(config, context, limit - 1, walk, call, tree, output)?;
        }
    }
    Ok(true)
}

/// Returns the text with each call replaced by its expansion. If memory runs out while a call is expanded, returns where that begins.
pub(crate) fn expand_source(
    config: &Config<'_>,
    context: &mut Context,
    limit: usize,
    source: &str,
    tree: TopSubtree,
) -> Result<String, OutOfMemoryAt>
    ensures written { IfOk result (λ text. Learns context.old context.new (IsSourceText (config_of config.now) limit source.now tree.children (string_bytes text))) }
    ensures stop { IfErr result (λ out. (before : ContextOf) → IsContext before context.old → IsStopIn (config_of config.now) limit tree.children before out.call) }
{
    let mut output = Output::new(config.alloc, source);
    let close = tree.top_subtree().delimiter.close;
    let first = Position::begun(Siblings::Items);
    let trees = TreeWalk::new(config.alloc, tree);
    let mut walk = Walk::new(config.alloc, trees, first, close);
    'trees: while write_next(config, context, limit, &mut walk, &mut output)? {}
    Ok(output.finish()?)
}
