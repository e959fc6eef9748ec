//! A table without left recursion and without a repetition of nothing.
ghost use Rattle.std.specs.Prelude.{◌≡◌, true};
ghost use Rattle.mbe_grammar.specs.Good.{are_good};
ghost use Rattle.mbe_grammar.specs.Known.{are_right};

use crate::known::Known;
use crate::rule::{Mark, Rule};

/// Expressions without left recursion and without a repetition of nothing, as their marks show.
#[derive(Clone, Copy)]
pub struct Table<'t> {
    pub rules: &'t [Rule],
    pub marks: &'t [Mark],
    pub known: &'t [Known],
    ghost good: { are_good marks.now 0 rules.now ≡ true },
    ghost right: { are_right known.now rules.now 0 rules.now ≡ true },
}

impl<'t> Table<'t> {
    /// Returns the table of these expressions.
    pub fn new(rules: &'t [Rule], marks: &'t [Mark]) -> Table<'t>
        requires good { are_good marks.now 0 rules.now ≡ true }
        ensures { result.rules.now ≡ rules.now }
    {
        Table {
            rules,
            marks,
            known: &[],
        }
    }

    /// Returns the table of these expressions, with what is known of them before they are read.
    pub fn with_known(rules: &'t [Rule], marks: &'t [Mark], known: &'t [Known]) -> Table<'t>
        requires good { are_good marks.now 0 rules.now ≡ true }
        requires right { are_right known.now rules.now 0 rules.now ≡ true }
        ensures { result.rules.now ≡ rules.now }
    {
        Table {
            rules,
            marks,
            known,
        }
    }
}
