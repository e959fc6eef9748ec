//! Warnings about the definitions of a text: what the compiler allows behind a variable, and what it reports when a call comes to it.
use crate::follow::warn_of_rules;
use crate::templates::warn_of_templates;
use crate::warnings::Warnings;
use expand_items::definitions_in;
use expand_text::{ExpandOptions, Finding};
use std::alloc::{AllocError, Global};
use syntax_diagnostic::{SourceFile, Style};
use tt::TokenTreesView;

// Returns whether the definitions of that name are read.
fn is_read(options: ExpandOptions<'_>, name: &str) -> bool {
    match options.only {
        Some(only) => name == only,
        None => true,
    }
}

/// Returns the warnings about the definitions in the trees of a text of that name, in which these findings were made.
pub fn definition_warnings(
    alloc: Global,
    style: Style,
    name: &str,
    text: &str,
    options: ExpandOptions<'_>,
    findings: &[Finding],
    trees: TokenTreesView<'_>,
) -> Result<Warnings, AllocError> {
    let mut warnings = Warnings::none(alloc);
    let source = SourceFile::new(alloc, name, text)?;
    for defined in &definitions_in(alloc, options.cfg, trees.iter(), options.root)? {
        let definition = &defined.definition;
        if is_read(options, definition.name.sym.as_str()) {
            let rules = definition.arms.remaining().iter();
            warn_of_rules(alloc, style, &source, rules, &mut warnings)?;
            warn_of_templates(
                alloc,
                style,
                &source,
                options,
                findings,
                definition,
                &mut warnings,
            )?;
        }
    }
    Ok(warnings)
}
