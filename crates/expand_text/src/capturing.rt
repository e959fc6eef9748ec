//! Names that an expansion binds, and that its call was given.
ghost use Rattle.std.specs.Prelude.{◌≡◌, OnOk};
ghost use Rattle.expand_items.specs.Items.{call_of};
ghost use Rattle.expand_text.specs.Capturing.{expand_to, IsCaptureFound};
ghost use Rattle.expand_text.specs.Contexts.{IsSameBudget, Learns};
ghost use Rattle.expand_text.specs.Invocations.{body_of};

use crate::calling::body;
use crate::config::Config;
use crate::context::Context;
use crate::fault::MacroFault;
use crate::invocation::Invocation;
use crate::memory::OutOfMemory;
use expand_hygiene::{ExpandTo, first_capture};
use expand_items::{Call, Siblings};
use syntax_edit::start_of;
use tt::TopSubtree;

// Returns what an expansion of such siblings is read as.
fn expand_to(siblings: Siblings) -> ExpandTo
    ensures { result ≡ expand_to siblings }
{
    match siblings {
        Siblings::Items => ExpandTo::Items,
        Siblings::Statements => ExpandTo::Statements,
        Siblings::Others => ExpandTo::Expr,
    }
}

/// Adds a finding if the expansion of a call binds a name that is in the call's input: in the text the two become one name.
pub(crate) fn find_capture(
    config: &Config<'_>,
    context: &mut Context,
    call: &Call<'_>,
    invocation: &Invocation,
    tree: &TopSubtree,
) -> Result<(), OutOfMemory>
    ensures found { OnOk result (Learns context.old context.new (IsCaptureFound invocation.now.defined_at (call_of call.now) invocation.now.position (body_of invocation.now tree.now))) }
    ensures kept { OnOk result (IsSameBudget context.old context.new) }
{
    let to = expand_to(invocation.position.siblings());
    let input = call.input.remaining().iter();
    let body = body(invocation.is_statement, tree).iter();
    if let Some(found) = first_capture(config.alloc, to, input, body)? {
        let fault = MacroFault::Captured(start_of(found.binding));
        let at = start_of(found.captured);
        context.find(&call.name.sym, at, fault, Some(invocation.defined_at))?;
    }
    Ok(())
}
