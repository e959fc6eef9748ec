//! Expanded texts.
ghost use Rattle.std.specs.Prelude.{◌≡◌, IfOk, IfErr, option_map, string_bytes};
ghost use Rattle.expand_items.specs.Cfg.{known_of, unknown};
ghost use Rattle.app_c.specs.Conditions.{IsSaid};
ghost use Rattle.app_c.specs.ExpandedTexts.{IsExpandedText, IsNotExpanded, IsUsual};
ghost use Rattle.app_c.specs.Listings.{only_of, AreAsked, IsListed, IsNotListed};

use crate::asked::Asked;
use crate::conditions::conditions_in;
use crate::failure::{Failure, expand_text_failure};
use crate::listing::Listing;
use crate::text::text_in;
use expand_items::CfgOptions;
use expand_text::{ExpandOptions, expand_leniently, expand_text};
use std::alloc::Global;

// Returns the usual options, if no condition is known.
fn usual(cfg: &CfgOptions) -> ExpandOptions<'_>
    requires { known_of cfg.now ≡ unknown }
    ensures { IsUsual result }
{
    ExpandOptions::usual(cfg)
}

/// Returns the text in which each call of a macro in scope is replaced by its expansion.
pub(crate) fn expanded_text(alloc: Global, text: &[u8]) -> Result<String, Failure>
    ensures ok { IfOk result (λ made. IsExpandedText text.now (string_bytes made)) }
    ensures err { IfErr result (IsNotExpanded text.now) }
{
    let text = text_in(text)?;
    let cfg = CfgOptions::new(alloc);
    match expand_text(alloc, text, usual(&cfg)) {
        Ok(expanded) => Ok(expanded.text),
        Err(error) => Err(expand_text_failure(error)),
    }
}

// Returns the name of the only macros that are expanded: an empty one means all macros.
fn only_of(name: &str) -> Option<&str>
    ensures { option_map (λ it. it.now) result ≡ only_of name.now }
{
    if name.is_empty() { None } else { Some(name) }
}

// Returns the options of a caller, whose words are these texts, and whose conditions are these.
fn options_of<'a>(
    cfg: &'a CfgOptions,
    asked: Asked<'a>,
    root: &'a str,
    only: &'a str,
) -> ExpandOptions<'a>
    requires cfg { IsSaid asked.cfg.now (known_of cfg.now) }
    requires root { root.now ≡ asked.root.now }
    requires only { only.now ≡ asked.only.now }
    ensures { AreAsked asked.entry result }
{
    ExpandOptions {
        limit: asked.limit,
        max_tokens: asked.max_tokens,
        cfg,
        root,
        everywhere: asked.everywhere > 0,
        only: only_of(only),
        one_line: asked.one_line > 0,
    }
}

/// Returns the listing of a text that is expanded with the options of a caller, whatever is found.
pub(crate) fn listed_text(alloc: Global, text: &[u8], asked: Asked<'_>) -> Result<Listing, Failure>
    ensures ok { IfOk result (λ it. IsListed text.now asked.entry it.bytes.items it.words.items) }
    ensures err { IfErr result (IsNotListed text.now asked.entry) }
{
    let text = text_in(text)?;
    let root = text_in(asked.root)?;
    let only = text_in(asked.only)?;
    let cfg = conditions_in(alloc, asked.cfg)?;
    match expand_leniently(alloc, text, options_of(&cfg, asked, root, only)) {
        Ok(expanded) => Listing::of(alloc, &expanded),
        Err(error) => Err(expand_text_failure(error)),
    }
}
