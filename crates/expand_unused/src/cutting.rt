//! A text without some definitions.
ghost use Rattle.std.specs.Prelude.{◌≡◌, ◌∷◌, [], IfOk, OnOk, map, string_bytes};
ghost use Rattle.expand_unused.specs.Parts.{part_of, rules_of};
ghost use Rattle.expand_unused.specs.Without.{cut_of, cuts, cut_behind};
ghost use Rattle.expand_unused.specs.Waiting.{waits_in};
ghost use Rattle.syntax_edit.specs.Texts.{begun, replaced, writing_of, with_all, FitsIn, FitAll};

use crate::part::{Part, Rules};
use indexmap::IndexMap;
use std::alloc::{AllocError, Global};
use syntax_edit::Output;
use tt::Symbol;

// Writes the text up to a definition, and passes the definition.
fn cut(output: &mut Output<'_>, rules: &Rules) -> Result<(), AllocError>
    requires { FitsIn rules.now.start rules.now.end (writing_of output.old) }
    ensures { OnOk result (writing_of output.new ≡ replaced (cut_of (rules_of rules.now)) (writing_of output.old)) }
{
    let _fits = output.replace(rules.start as usize, rules.end as usize, "")?;
    Ok(())
}

// The same if the part is a definition that goes; otherwise does nothing.
fn cut_part(
    output: &mut Output<'_>,
    part: &Part,
    unneeded: &IndexMap<Symbol, Vec<Symbol>>,
) -> Result<(), AllocError>
    requires { FitAll (cuts (waits_in unneeded.now) (part_of part.now ∷ [])) (writing_of output.old) }
    ensures { OnOk result (writing_of output.new ≡ cut_behind (waits_in unneeded.now) (part_of part.now) (writing_of output.old)) }
{
    let Part::Rules(rules) = part else {
        return Ok(());
    };
    if unneeded.contains_key(&rules.name) {
        cut(output, rules)?;
    }
    Ok(())
}

/// Returns the text without the definitions of names that are not needed.
pub(crate) fn without(
    alloc: Global,
    text: &str,
    parts: &[Part],
    unneeded: &IndexMap<Symbol, Vec<Symbol>>,
) -> Result<String, AllocError>
    requires { FitAll (cuts (waits_in unneeded.now) (map part_of parts.now)) (begun text.now) }
    ensures { IfOk result (λ it. string_bytes it ≡ with_all (cuts (waits_in unneeded.now) (map part_of parts.now)) (begun text.now)) }
{
    let mut output = Output::new(alloc, text);
    for part in parts {
        cut_part(&mut output, part, unneeded)?;
    }
    output.finish()
}
