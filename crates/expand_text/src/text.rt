//! The macros of a text, and the expansion of its calls.
ghost use Rattle.std.specs.Prelude.{◌≡◌, None, IfOk, IfErr, MatchOption};
ghost use Rattle.expand_text.specs.Expansion.{config_by, IsExpanded, IsLenientError, IsExpandTextError, first_fault, IsFirstFault};
ghost use Rattle.expand_text.specs.Contexts.{config_of};

use crate::caller::Caller;
use crate::config::Config;
use crate::context::Context;
use crate::exports::exported_macros;
use crate::fault::{ExpandTextError, Finding};
use crate::memory::OutOfMemory;
use crate::options::ExpandOptions;
use crate::source::expand_source;
use std::alloc::Global;
use syntax_edit::parse;
use syntax_layout::Sources;
use tt::Symbol;

/// An expanded text.
#[derive(Drop)]
pub struct Expanded {
    /// The text.
    pub text: String,
    /// The findings in its macros and calls, in the order of the walk.
    pub findings: Vec<Finding>,
    /// The calls that wrote the places of findings, each behind the call that wrote it.
    pub callers: Vec<Caller>,
}

// Returns the setting of these options for a text.
fn config_by<'a>(
    alloc: Global,
    text: &'a str,
    options: ExpandOptions<'a>,
) -> Result<Config<'a>, OutOfMemory>
    ensures { IfOk result (λ config. config_of config ≡ config_by options.entry) }
{
    let only = match options.only {
        None => None,
        Some(name) => Some(Symbol::new(alloc, name)?),
    };
    Ok(Config {
        alloc,
        cfg: options.cfg,
        root: Symbol::new(alloc, options.root)?,
        everywhere: options.everywhere,
        max_tokens: options.max_tokens,
        only,
        one_line: options.one_line,
        sources: Sources::read(alloc, if options.one_line { "" } else { text })?,
    })
}

/// Returns the text in which each call of a macro in scope is replaced by its expansion, written as Rust: on one line, or laid out as
/// its tokens are in the text. A definition or a call with a fault stays as it is, and yields a finding. If memory runs out while a call
/// of the text is expanded, the error has its place.
///
/// Time is linear in the text, and in what the macros read and write. The stack does not grow with nested expansions.
pub fn expand_leniently(
    alloc: Global,
    text: &str,
    options: ExpandOptions<'_>,
) -> Result<Expanded, ExpandTextError>
    ensures ok { IfOk result (IsExpanded options.entry text.now) }
    ensures err { IfErr result (IsLenientError options.entry text.now) }
{
    let tree = parse(alloc, text)?;
    let config = config_by(alloc, text, options)?;
    let exported = exported_macros(&config, &tree)?;
    let mut context = Context::new(alloc, exported);
    let text = expand_source(&config, &mut context, options.limit, text, tree)?;
    Ok(Expanded {
        text,
        findings: context.findings,
        callers: context.callers,
    })
}

// Returns the place of the first finding that is no warning.
fn first_fault(findings: &[Finding]) -> Option<usize>
    ensures { MatchOption result (first_fault findings.now ≡ None) (IsFirstFault findings.now) }
{
    for place in 0..findings.len() {
        if !findings[place].fault.is_warning() {
            return Some(place);
        }
    }
    None
}

/// The same if there is no fault, though a call may be left as it is; otherwise returns the first fault.
pub fn expand_text(
    alloc: Global,
    text: &str,
    options: ExpandOptions<'_>,
) -> Result<Expanded, ExpandTextError>
    ensures ok { IfOk result (IsExpanded options.entry text.now) }
    ensures warnings { IfOk result (λ it. first_fault it.findings.items ≡ None) }
    ensures err { IfErr result (IsExpandTextError options.entry text.now) }
{
    let mut expanded = expand_leniently(alloc, text, options)?;
    match first_fault(expanded.findings.as_slice()) {
        None => Ok(expanded),
        Some(place) => Err(ExpandTextError::Macro(expanded.findings.remove(place))),
    }
}
