//! The options of an expansion.
ghost use Rattle.std.specs.Prelude.{◌≡◌, false, None, codes};

use expand_items::CfgOptions;

/// The default limit of nested expansions.
pub const USUAL_LIMIT: usize = 128;

/// The default limit of the tokens that arms write for one call of the text.
pub const USUAL_MAX_TOKENS: usize = 4_000_000;

/// The options of an expansion.
#[derive(Clone, Copy)]
pub struct ExpandOptions<'a> {
    /// The limit of nested expansions.
    pub limit: usize,
    /// The limit of the tokens that arms write for one call of the text, with all calls in what they write.
    pub max_tokens: usize,
    /// What is known of the conditions `#[cfg(..)]`.
    pub cfg: &'a CfgOptions,
    /// The word that `$crate` becomes.
    pub root: &'a str,
    /// Whether the walk enters calls that are not expanded.
    pub everywhere: bool,
    /// The name of the only macros that are read and expanded; `None` for all macros.
    pub only: Option<&'a str>,
    /// Whether each expansion is written on one line, with the spaces of `rust_text`. If not, it is laid out as its tokens are in the text.
    pub one_line: bool,
}

impl<'a> ExpandOptions<'a> {
    /// The usual options: all macros, with at most 128 nested expansions and 4,000,000 tokens for a call of the text. `$crate` becomes
    /// `crate`, calls that are not expanded stay as they are, and an expansion is laid out.
    pub fn usual(cfg: &'a CfgOptions) -> ExpandOptions<'a>
        ensures cfg { result.cfg ≡ cfg.entry }
        ensures limit { result.limit ≡ 128 }
        ensures max_tokens { result.max_tokens ≡ 4000000 }
        ensures root { result.root.now ≡ codes "crate" }
        ensures everywhere { result.everywhere ≡ false }
        ensures only { result.only ≡ None }
        ensures one_line { result.one_line ≡ false }
    {
        ExpandOptions {
            limit: USUAL_LIMIT,
            max_tokens: USUAL_MAX_TOKENS,
            cfg,
            root: "crate",
            everywhere: false,
            only: None,
            one_line: false,
        }
    }
}
