//! The macros of texts: the expansions of calls, and the faults.
use crate::counts::Counts;
use crate::definitions::definition_warnings;
use crate::diagnostics::diagnostics_text;
use crate::dropping::{Drops, without_definitions};
use crate::options::Options;
use crate::report::{Report, report_on, summary};
use app_files::{
    Failure, Input, Mentions, error_text_at, grammar_failure, shebang_of, style_of, syntax_failure,
    tree_of, without_shebang,
};
use expand_text::{ExpandOptions, ExpandTextError, Finding, expand_leniently};
use mbe_grammar::{ParsedFile, is_file, parse_file};
use std::io::{self, Write};
use std::process::ExitCode;
use syntax_lex::MOST_TEXT_BYTES;
use tt::TokenTreesView;

const BYTE_ORDER_MARK: &str = "\u{feff}";

/// The expansion of an input, and its number of errors and warnings.
#[derive(Drop)]
pub struct Outcome {
    /// The bytes of the input.
    pub source: Vec<u8>,
    // the expanded text, unless there is an error
    output: Option<String>,
    // whether the text begins with a byte order mark
    has_mark: bool,
    // the first line, which the output has as spaces, if it names a program
    shebang: String,
    /// The number of errors and warnings.
    pub counts: Counts,
}

// Returns the failure of a text of that name that cannot be expanded.
fn refused(
    rt: &HostRuntime,
    name: &str,
    text: &str,
    options: ExpandOptions<'_>,
    error: ExpandTextError,
) -> Failure {
    let alloc = rt.alloc();
    let style = style_of(rt);
    match error {
        ExpandTextError::Text(fault) => syntax_failure(rt, name, text, fault),
        ExpandTextError::Memory { at: None } => Failure::Memory,
        ExpandTextError::Memory { at: Some(at) } => {
            let message = "out of memory in this call";
            let at = at as usize;
            Failure::from_text(error_text_at(alloc, style, name, text, message, at, None))
        }
        ExpandTextError::Macro(finding) => {
            Failure::from_text(diagnostics_text(alloc, style, name, text, options, &[], &[finding]))
        }
    }
}

// Reports the first syntax error of the trees of a text, and returns its number of errors.
fn syntax_counts(
    rt: &HostRuntime,
    name: &str,
    text: &str,
    trees: TokenTreesView<'_>,
) -> Result<Counts, Failure> {
    if is_file(rt.alloc(), trees)? {
        return Ok(Counts::NONE);
    }
    match parse_file(rt.alloc(), trees)? {
        ParsedFile::Whole(_) => Ok(Counts::NONE),
        ParsedFile::Refused(error) => {
            grammar_failure(rt, name, text, &error).report(rt);
            let _ = eprintln!(rt; "");
            Ok(Counts::ONE_ERROR)
        }
    }
}

// Reports what the compiler refuses in a text, which has a tree without its first line: the first syntax error, and what it does not allow in
// rules. These findings were made in the text. Returns the number of errors and warnings.
fn refusals(
    rt: &HostRuntime,
    name: &str,
    text: &str,
    source: &str,
    options: ExpandOptions<'_>,
    findings: &[Finding],
) -> Result<Counts, Failure> {
    let tree = tree_of(rt, name, source)?;
    let syntax = syntax_counts(rt, name, text, tree.token_trees())?;
    let warnings = definition_warnings(
        rt.alloc(),
        style_of(rt),
        name,
        text,
        options,
        findings,
        tree.token_trees(),
    )?;
    let texts = warnings.texts.as_str();
    let _ = eprint!(rt; "{texts}");
    Ok(syntax.plus(warnings.counts()))
}

// Reports the findings in the text of an input, after what the compiler refuses if `checks`, and returns its expansion.
fn expanded(
    rt: &HostRuntime,
    input: Input<'_>,
    options: Options<'_>,
    checks: bool,
) -> Result<Outcome, Failure> {
    let bytes = input.bytes(rt)?;
    let text = input.text(rt, bytes.as_slice())?;
    let name = input.name();
    let blank = without_shebang(rt.alloc(), text)?;
    let source = match &blank {
        Some(blank) => blank.as_str(),
        None => text,
    };
    let options = options.for_text(source);
    let found = match expand_leniently(rt.alloc(), source, options) {
        Ok(found) => found,
        Err(error) => return Err(refused(rt, name, text, options, error)),
    };
    let refused = if checks {
        refusals(rt, name, text, source, options, &found.findings)?
    } else {
        Counts::NONE
    };
    let Report {
        output,
        diagnostics,
        counts,
    } = report_on(rt.alloc(), style_of(rt), name, text, options, found)?;
    let _ = eprint!(rt; "{diagnostics}");
    let has_mark = text.len() < bytes.len();
    let shebang = String::from_str(rt.alloc(), shebang_of(text))?;
    Ok(Outcome {
        source: bytes,
        output,
        has_mark,
        shebang,
        counts: refused.plus(counts),
    })
}

/// Reports the findings in the text of an input, after what the compiler refuses if `checks`, and returns its expansion. An input that cannot
/// be read or has no tree counts as one error.
pub fn outcome_of(
    rt: &HostRuntime,
    input: Input<'_>,
    options: Options<'_>,
    checks: bool,
) -> Outcome {
    match expanded(rt, input, options, checks) {
        Ok(outcome) => outcome,
        Err(failure) => {
            failure.report_on(rt, input.name());
            let _ = eprintln!(rt; "");
            Outcome {
                source: Vec::new(rt.alloc()),
                output: None,
                has_mark: false,
                shebang: String::new(rt.alloc()),
                counts: Counts::ONE_ERROR,
            }
        }
    }
}

/// Reports the number of errors and warnings.
pub fn write_summary(rt: &HostRuntime, counts: Counts) -> Result<(), Failure> {
    let text = summary(rt.alloc(), style_of(rt), counts)?;
    let _ = eprint!(rt; "{text}");
    Ok(())
}

// Writes a text, behind a byte order mark if the source had one, with the first line of the source in place of as many bytes.
fn write<W: Write>(out: &mut W, has_mark: bool, shebang: &str, text: &str) -> io::Result<()> {
    if has_mark {
        out.write_all(BYTE_ORDER_MARK.as_bytes())?;
    }
    out.write_all(shebang.as_bytes())?;
    let rest = match text.split_at_checked(shebang.len()) {
        Some((_, rest)) => rest,
        None => text,
    };
    out.write_all(rest.as_bytes())
}

// Reports on standard error that the expanded text of that name defines no macro `only`, or has calls of it left.
fn note_mentions(rt: &HostRuntime, name: &str, text: &str, only: &str, everywhere: bool) {
    if text.len() > MOST_TEXT_BYTES {
        return;
    }
    let Mentions { definitions, calls } = Mentions::of(text, only);
    if definitions == 0 {
        let _ = eprintln!(rt; "note: {name} defines no macro `{only}`");
    } else if calls > 0 && !everywhere {
        let _ = eprintln!(rt;
            "note: calls of `{only}` that are left: {calls}; --everywhere expands those in the brackets of other calls"
        );
    }
}

/// Writes the expanded text of an input of that name, without the definitions that are to be dropped, and reports which calls of the only macro
/// it has left. Writes nothing if the text has an error.
pub fn write_output<W: Write>(
    rt: &HostRuntime,
    out: &mut W,
    name: &str,
    outcome: Outcome,
    options: Options<'_>,
    drops: Drops,
) -> Result<(), Failure> {
    let Outcome {
        output,
        has_mark,
        shebang,
        source: _source,
        counts: _counts,
    } = outcome;
    let Some(text) = output else {
        return Ok(());
    };
    let only = options.only;
    if let Some(only) = only {
        note_mentions(rt, name, text.as_str(), only, options.everywhere);
    }
    let text = match drops {
        Drops::Nothing => text,
        Drops::Unexported => without_definitions(rt, name, text.as_str(), only, false)?,
        Drops::Unneeded => without_definitions(rt, name, text.as_str(), only, true)?,
    };
    write(out, has_mark, shebang.as_str(), text.as_str())?;
    Ok(())
}

/// Writes the text of an input in which calls are expanded, without the definitions that are to be dropped. If the text has an error, it
/// writes nothing.
pub fn expand(
    rt: &HostRuntime,
    input: Input<'_>,
    options: Options<'_>,
    drops: Drops,
) -> Result<ExitCode, Failure> {
    let outcome = outcome_of(rt, input, options, false);
    let counts = outcome.counts;
    write_summary(rt, counts)?;
    write_output(rt, &mut rt.stdout(), input.name(), outcome, options, drops)?;
    Ok(counts.status())
}

/// Reports the first syntax error of these files and the faults in their macros, one file after the other.
pub fn check(rt: &HostRuntime, names: &[&str], options: Options<'_>) -> Result<ExitCode, Failure> {
    let mut counts = Counts::NONE;
    for name in names {
        let outcome = outcome_of(rt, Input::new(Some(name)), options, true);
        counts = counts.plus(outcome.counts);
    }
    write_summary(rt, counts)?;
    Ok(counts.status())
}
