//! The macros that a text exports.
ghost use Rattle.std.specs.List.{list_any};
ghost use Rattle.std.specs.Prelude.{◌≡◌, bytes_eq, false, List, IfOk, OnOk};
ghost use Rattle.expand_items.specs.Definitions.{defined_of};
ghost use Rattle.expand_text.specs.Contexts.{Learns, config_of};
ghost use Rattle.expand_text.specs.Exports.{AreExported, IsReadIfExported};
ghost use Rattle.expand_text.specs.Lacking.{Lacks};
ghost use Rattle.expand_text.specs.Scopes.{Macro, AreReady};

use crate::config::Config;
use crate::context::Context;
use crate::defining::read_definition;
use crate::memory::OutOfMemory;
use crate::scope::Scope;
use expand_items::{Defined, definitions_in};
use tt::{Symbol, TopSubtree};

// Reads a definition if it exports its macro.
fn read_if_exported(
    config: &Config<'_>,
    context: &mut Context,
    it: &Defined<'_>,
) -> Result<(), OutOfMemory>
    ensures { OnOk result (Learns context.old context.new (IsReadIfExported it.now.position.is_exported (config_of config.now) (defined_of it.now))) }
{
    if it.position.is_exported() {
        read_definition(config, context, it.position, &it.definition)?;
    }
    Ok(())
}

// Returns whether a symbol of a table has that text.
fn has_symbol(table: &[Symbol], word: &str) -> bool
    ensures { result ≡ list_any (λ it. bytes_eq word.now it) table.now }
{
    table.iter().any(|it| word == it.as_str())
}

// Returns whether a tree may have an ident with that text: all its symbols are in one table.
fn may_have(tree: &TopSubtree, word: &str) -> bool
    ensures { result ≡ false → Lacks word.now tree.now.children }
{
    has_symbol(tree.symbol_table(), word)
}

/// Returns the macros that a text with these trees exports. It reports no finding, because the walk through the text reads each definition
/// again.
pub(crate) fn exported_macros(config: &Config<'_>, tree: &TopSubtree) -> Result<Scope, OutOfMemory>
    ensures { IfOk result (λ scope. (macros : List Macro) × AreExported (config_of config.now) tree.now.children macros × AreReady macros scope.macros.items) }
{
    if !may_have(tree, "macro_export") {
        return Ok(Scope::new(config.alloc));
    }
    let definitions = definitions_in(config.alloc, config.cfg, tree.iter(), config.root.as_str())?;
    let mut context = Context::new(config.alloc, Scope::new(config.alloc));
    'definitions: for place in 0..definitions.len() {
        read_if_exported(config, &mut context, &definitions[place])?;
    }
    Ok(context.scope)
}
