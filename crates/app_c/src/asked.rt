//! The options of a caller.

/// The options of an expansion, as a caller gives them.
#[derive(Clone, Copy)]
pub(crate) struct Asked<'a> {
    /// The word that `$crate` becomes.
    pub(crate) root: &'a [u8],
    /// The name of the only macros that are read and expanded; empty for all macros.
    pub(crate) only: &'a [u8],
    /// What is true in conditions, each with a 0 behind it; what is not named is open.
    pub(crate) cfg: &'a [u8],
    /// Whether the walk enters calls that are not expanded: 0 for no.
    pub(crate) everywhere: u32,
    /// Whether what a call becomes is written on one line: 0 for no.
    pub(crate) one_line: u32,
    /// The limit of nested expansions.
    pub(crate) limit: usize,
    /// The limit of the tokens that arms write for one call of the text.
    pub(crate) max_tokens: usize,
}
