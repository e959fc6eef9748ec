//! The options of macro expansion.
use crate::arguments::{
    MOST_LIMIT, is_everywhere, is_one_line, limit_of, max_tokens_of, only_of, root_of,
};
use app_files::{Failure, recursion_limit_of};
use clap::ArgMatches;
use expand_items::CfgOptions;
use expand_text::{ExpandOptions, USUAL_LIMIT, USUAL_MAX_TOKENS};
use syntax_cfg::is_name;
use syntax_lex::MOST_TEXT_BYTES;

/// The options for the expansion of texts.
#[derive(Clone, Copy)]
pub struct Options<'a> {
    limit: Option<usize>,
    max_tokens: usize,
    cfg: &'a CfgOptions,
    root: &'a str,
    /// Whether the walk enters calls that are not expanded.
    pub everywhere: bool,
    /// The only name whose macros are expanded, if one is given.
    pub only: Option<&'a str>,
    one_line: bool,
}

// Returns the limit of nested expansions that a text sets, as far as it is allowed, or else the usual one.
fn limit_in(text: &str) -> usize {
    if text.len() > MOST_TEXT_BYTES {
        return USUAL_LIMIT;
    }
    match recursion_limit_of(text) {
        Some(limit) => limit.clamp(1, MOST_LIMIT as usize),
        None => USUAL_LIMIT,
    }
}

// Refuses a value of an option if that name is none.
fn wants_name(rt: &HostRuntime, option: &str, value: &str, name: &str) -> Result<(), Failure> {
    if is_name(name) {
        return Ok(());
    }
    let message = format!(in rt.alloc(); "{value:?} is no name, as {option} wants one")?;
    Err(Failure::usage(rt, message.as_str()))
}

// Returns the only name whose macros are expanded, if one is given: a raw name is the same name.
fn only<'a>(rt: &HostRuntime, matches: &'a ArgMatches<'_>) -> Result<Option<&'a str>, Failure> {
    let Some(value) = only_of(matches) else {
        return Ok(None);
    };
    let name = value.strip_prefix("r#").unwrap_or(value);
    wants_name(rt, "--only", value, name)?;
    Ok(Some(name))
}

impl<'a> Options<'a> {
    /// Returns the options that the arguments give; fails if an option that needs a name has none.
    pub fn of(
        rt: &HostRuntime,
        matches: &'a ArgMatches<'_>,
        cfg: &'a CfgOptions,
    ) -> Result<Options<'a>, Failure> {
        let root = root_of(matches);
        wants_name(rt, "--crate", root, root)?;
        Ok(Options {
            limit: limit_of(matches),
            max_tokens: max_tokens_of(matches).unwrap_or(USUAL_MAX_TOKENS),
            cfg,
            root,
            everywhere: is_everywhere(matches),
            only: only(rt, matches)?,
            one_line: is_one_line(matches),
        })
    }

    /// Returns the options with which what a call becomes is not laid out.
    pub fn on_one_line(self) -> Options<'a> {
        Options {
            one_line: true,
            ..self
        }
    }

    /// Returns the options for a text: if no limit is given, the one that the text sets counts.
    pub fn for_text(self, text: &str) -> ExpandOptions<'a> {
        ExpandOptions {
            limit: match self.limit {
                Some(limit) => limit,
                None => limit_in(text),
            },
            max_tokens: self.max_tokens,
            cfg: self.cfg,
            root: self.root,
            everywhere: self.everywhere,
            only: self.only,
            one_line: self.one_line,
        }
    }
}
