//! Where the expansion of a call is built, and how it is put in the place of the call.
ghost use Rattle.std.specs.Prelude.{◌≡◌, IfOk, OnOk};
ghost use Rattle.tt.specs.Building.{BuilderState, append, depth};
ghost use Rattle.tt.specs.Forest.{Forest};
ghost use Rattle.tt.specs.Views.{trees_of};
ghost use Rattle.mbe_pattern.specs.Units.{front_trees};
ghost use Rattle.expand_text.specs.Expanding.{IsAdded, IsBegun, CanEnd, brackets_in, depth_outside, top_outside};
ghost use Rattle.expand_text.specs.Invocations.{site_of};
ghost use Rattle.expand_text.specs.Outcomes.{brackets_of};

use crate::config::Config;
use crate::fault::MacroFault;
use crate::invocation::Invocation;
use crate::memory::OutOfMemory;
use expand_items::{Enclosure, put_under};
use tt::{Delimiter, DelimiterKind, Refused, TokenTreesView, TopSubtreeBuilder, TtFault};

// Returns the brackets that enclose an expansion, if there are any, unless it is refused.
fn brackets_of(enclosure: Enclosure) -> Option<Option<DelimiterKind>>
    ensures { result ≡ brackets_of enclosure }
{
    match enclosure {
        Enclosure::Bare => Some(None),
        Enclosure::Opaque => Some(Some(DelimiterKind::InvisibleOpaque)),
        Enclosure::Parentheses => Some(Some(DelimiterKind::Parenthesis)),
        Enclosure::Refused => None,
    }
}

// Returns the brackets in which a call's expansion is built in its place, if there are any, unless it is built apart.
fn brackets_in(call: &Invocation) -> Option<Option<DelimiterKind>>
    ensures { result ≡ brackets_in call.now }
{
    if call.attributes > 0 {
        return None;
    }
    brackets_of(call.enclosure)
}

/// Begins the expansion of a call. Returns the builder, if the expansion is built apart from it: if it goes under the conditions of the call,
/// or is refused.
pub(crate) fn begin(
    config: &Config<'_>,
    call: &Invocation,
    builder: &mut TopSubtreeBuilder,
) -> Result<Option<TopSubtreeBuilder>, OutOfMemory>
    ensures { IfOk result (λ outer. IsBegun call.now builder.old outer builder.new) }
{
    let Some(brackets) = brackets_in(call) else {
        let top = Delimiter {
            kind: DelimiterKind::Invisible,
            ..call.delimiter
        };
        let apart = TopSubtreeBuilder::new(config.alloc, top)?;
        return Ok(Some(std::mem::replace(builder, apart)));
    };
    if let Some(kind) = brackets {
        builder.open(kind, call.delimiter.open_span)?;
    }
    Ok(None)
}

/// Puts the expansion of a call, which was built since `begin`, in the place of the call, behind the attributes. Returns the fault if it does not
/// fit there; then nothing is put.
pub(crate) fn end(
    config: &Config<'_>,
    call: &Invocation,
    attributes: TokenTreesView<'_>,
    outer: Option<TopSubtreeBuilder>,
    builder: &mut TopSubtreeBuilder,
) -> Result<Option<MacroFault>, OutOfMemory>
    requires { CanEnd call.now outer (depth builder.old.stack) }
    ensures added { IfOk result (λ misplaced. (whole trees : Forest) (before begun : BuilderState) → trees_of attributes.entry ≡ front_trees call.now.attributes whole → IsBegun call.now before outer begun → builder.old.top ≡ begun.top → builder.old.stack ≡ append trees begun.stack → IsAdded (site_of whole call.now) trees misplaced before.stack builder.new.stack) }
    ensures depth { OnOk result (depth builder.new.stack ≡ depth_outside call.now outer (depth builder.old.stack)) }
    ensures top { OnOk result (builder.new.top ≡ top_outside outer builder.old.top) }
{
    let Some(outer) = outer else {
        if let Some(Some(_)) = brackets_in(call) {
            builder.close(call.delimiter.close)?;
        }
        return Ok(None);
    };
    let apart = std::mem::replace(builder, outer);
    if call.attributes == 0 {
        return Ok(Some(MacroFault::Statements));
    }
    let held = match apart.build() {
        Ok(tree) => tree,
        Err(
            Refused {
                fault: TtFault::Memory,
                ..
            },
        ) => return Err(OutOfMemory),
        Err(refused) => return Ok(Some(MacroFault::TooLarge(refused.fault))),
    };
    if put_under(
        config.alloc,
        call.position.siblings(),
        call.delimiter,
        attributes,
        held.token_trees(),
        builder,
    )? {
        Ok(None)
    } else {
        Ok(Some(MacroFault::Conditional))
    }
}
