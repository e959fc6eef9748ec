//! The setting of a walk.
ghost use Rattle.std.specs.Prelude.{◌≡◌};
ghost use Rattle.expand_text.specs.Contexts.{asks_for};

use expand_items::CfgOptions;
use std::alloc::Global;
use syntax_layout::Sources;
use tt::Symbol;

/// The setting of a walk, and the allocator.
#[derive(Drop)]
pub(crate) struct Config<'a> {
    pub(crate) alloc: Global,
    /// What is known of the conditions `#[cfg(..)]`.
    pub(crate) cfg: &'a CfgOptions,
    /// The word that `$crate` becomes.
    pub(crate) root: Symbol,
    /// Whether the walk enters calls that are not expanded.
    pub(crate) everywhere: bool,
    /// How many tokens arms may write for one call of the text, with all calls in what they write.
    pub(crate) max_tokens: usize,
    /// The name of the only macros that are read and expanded; `None` for all macros.
    pub(crate) only: Option<Symbol>,
    /// Whether each expansion is written on one line.
    pub(crate) one_line: bool,
    /// The text, from which expansions take their gaps, unless each is written on one line.
    pub(crate) sources: Sources<'a>,
}

impl<'a> Config<'a> {
    /// Returns whether macros of that name are read and expanded.
    pub(crate) fn asks_for(&self, name: &Symbol) -> bool
        ensures { result ≡ asks_for self.now.only name.now }
    {
        match &self.only {
            None => true,
            Some(it) => *it == *name,
        }
    }
}
