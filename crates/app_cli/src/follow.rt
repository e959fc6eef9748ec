//! Warnings about the patterns of rules: what the compiler allows behind a variable.
use crate::warnings::Warnings;
use mbe_follow::{FollowFault, allowed_behind, follow_faults, part_spans};
use mbe_pattern::Fragment;
use std::alloc::{AllocError, Global};
use syntax_diagnostic::{Diagnostic, Level, PlacedNote, SourceFile, Style};
use tt::{Leaf, Span, TtElement, TtIter};

// Adds the warning of a variable of that fragment, which begins at one byte of the text; what follows it begins at another.
fn warn(
    alloc: Global,
    style: Style,
    source: &SourceFile<'_>,
    fragment: Fragment,
    variable: Span,
    next: Span,
    warnings: &mut Warnings,
) -> Result<(), AllocError> {
    let name = fragment.name();
    let allowed = allowed_behind(fragment).unwrap_or("anything");
    let message = format!(in alloc;
        "the compiler does not allow this behind a variable of `{name}`"
    )?;
    let mut notes = Vec::new(alloc);
    notes.push(format!(in alloc; "allowed there: {allowed}")?)?;
    let mut placed_notes = Vec::new(alloc);
    placed_notes.push(PlacedNote {
        message: "the variable is here",
        spot: source.spot(variable.range.start().raw() as usize),
    })?;
    let diagnostic = Diagnostic {
        level: Level::Warning,
        message: message.as_str(),
        spot: Some(source.spot(next.range.start().raw() as usize)),
        notes,
        placed_notes,
    };
    warnings.add(alloc, style, &diagnostic)
}

// Adds the warnings of the pattern of a rule.
fn warn_of_pattern(
    alloc: Global,
    style: Style,
    source: &SourceFile<'_>,
    pattern: TtIter<'_>,
    warnings: &mut Warnings,
) -> Result<(), AllocError> {
    let faults = follow_faults(alloc, pattern.remaining().iter())?;
    if faults.is_empty() {
        return Ok(());
    }
    let spans = part_spans(alloc, pattern)?;
    for fault in &faults {
        if let (Some(variable), Some(next)) = (spans.get(fault.variable), spans.get(fault.next)) {
            warn(
                alloc,
                style,
                source,
                fault.fragment,
                *variable,
                *next,
                warnings,
            )?;
        }
    }
    Ok(())
}

/// Adds the warnings of the patterns of these rules: a pattern comes first, and behind each `;`.
pub fn warn_of_rules(
    alloc: Global,
    style: Style,
    source: &SourceFile<'_>,
    mut rules: TtIter<'_>,
    warnings: &mut Warnings,
) -> Result<(), AllocError> {
    let mut begins = true;
    while let Some(tree) = rules.next() {
        match tree {
            TtElement::Subtree(_, pattern) if begins => {
                warn_of_pattern(alloc, style, source, pattern, warnings)?;
                begins = false;
            }
            TtElement::Leaf(Leaf::Punct(punct)) if punct.char == ';' => begins = true,
            _ => {}
        }
    }
    Ok(())
}
