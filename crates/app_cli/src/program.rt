//! The commands of the program.
use crate::arguments::{
    drops_of, file_of, files_of, is_diff, is_write, out_of, parse, shows_syntax,
};
use crate::cfg_options::cfg_options_of;
use crate::changing::{write_diffs, write_files};
use crate::expanding::{check, expand};
use crate::options::Options;
use crate::packing::{pack, unpack};
use app_files::{
    Failure, Input, grammar_failure, syntax_failure, tree_of, without_shebang, write_syntax,
    write_tokens, write_tree,
};
use clap::ArgMatches;
use mbe_grammar::{ParsedFile, parse_file};
use std::env;
use std::io::{BufWriter, Write};
use std::process::ExitCode;
use syntax_lex::MOST_TEXT_BYTES;
use syntax_parse::TextFault;

/// Runs the command that the arguments name, and returns the exit status.
pub fn run(rt: &HostRuntime) -> Result<ExitCode, Failure> {
    let words: Vec<String> = env::args(rt)?.collect(rt.alloc())?;
    match parse(rt.alloc(), words.as_slice()) {
        Ok(matches) => run_command(rt, &matches),
        Err(error) => {
            error.print(rt)?;
            let mistake = error.use_stderr();
            Ok(ExitCode::from(if mistake { 2 } else { 0 }))
        }
    }
}

// Runs the command, and returns the exit status.
fn run_command(rt: &HostRuntime, matches: &ArgMatches<'_>) -> Result<ExitCode, Failure> {
    let Some((name, given)) = matches.subcommand() else {
        return Ok(ExitCode::SUCCESS);
    };
    match name {
        "expand" => expand_files(rt, given),
        "check" => match files_of(given) {
            Some(names) => {
                let cfg = cfg_options_of(rt, given)?;
                let options = Options::of(rt, given, &cfg)?;
                // what calls become is not shown, so it needs no layout
                check(rt, names, options.on_one_line())
            }
            None => Ok(ExitCode::SUCCESS),
        },
        _ => {
            run_on_file(rt, name, given)?;
            Ok(ExitCode::SUCCESS)
        }
    }
}

// Expands the macros of files, or of standard input if there are none.
fn expand_files(rt: &HostRuntime, given: &ArgMatches<'_>) -> Result<ExitCode, Failure> {
    let names = files_of(given).unwrap_or(&["-"]);
    let cfg = cfg_options_of(rt, given)?;
    let options = Options::of(rt, given, &cfg)?;
    let drops = drops_of(given);
    if is_write(given) {
        return write_files(rt, names, options, drops);
    }
    if is_diff(given) {
        return write_diffs(rt, names, options, drops);
    }
    match names {
        [name] => expand(rt, Input::new(Some(name)), options, drops),
        _ => Err(Failure::usage(rt, "several files want --write or --diff")),
    }
}

// Runs the command of that name that reads a file and expands no macros.
fn run_on_file(rt: &HostRuntime, name: &str, given: &ArgMatches<'_>) -> Result<(), Failure> {
    let input = Input::new(file_of(given));
    match name {
        "tokens" => tokens(rt, input),
        "tree" if shows_syntax(given) => syntax(rt, input),
        "tree" => tree(rt, input),
        "pack" => pack(rt, input, out_of(given)),
        "unpack" => unpack(rt, input),
        _ => Ok(()),
    }
}

// Writes the tokens of a text.
fn tokens(rt: &HostRuntime, input: Input<'_>) -> Result<(), Failure> {
    let bytes = input.bytes(rt)?;
    let text = input.text(rt, bytes.as_slice())?;
    if text.len() > MOST_TEXT_BYTES {
        return Err(syntax_failure(rt, input.name(), text, TextFault::TooLong));
    }
    let mut out = BufWriter::new(rt.alloc(), rt.stdout())?;
    write_tokens(&mut out, text)?;
    out.flush()?;
    Ok(())
}

// Writes the tree of a text.
fn tree(rt: &HostRuntime, input: Input<'_>) -> Result<(), Failure> {
    let bytes = input.bytes(rt)?;
    let text = input.text(rt, bytes.as_slice())?;
    let tree = tree_of(rt, input.name(), text)?;
    let mut out = BufWriter::new(rt.alloc(), rt.stdout())?;
    write_tree(&mut out, rt.alloc(), text, &tree)?;
    out.flush()?;
    Ok(())
}

// Writes the derivation of a text by Rust's grammar.
fn syntax(rt: &HostRuntime, input: Input<'_>) -> Result<(), Failure> {
    let alloc = rt.alloc();
    let bytes = input.bytes(rt)?;
    let text = input.text(rt, bytes.as_slice())?;
    let blank = without_shebang(alloc, text)?;
    let file = match &blank {
        Some(blank) => blank.as_str(),
        None => text,
    };
    let tree = tree_of(rt, input.name(), file)?;
    let events = match parse_file(alloc, tree.token_trees())? {
        ParsedFile::Whole(events) => events,
        ParsedFile::Refused(error) => {
            return Err(grammar_failure(rt, input.name(), text, &error));
        }
    };
    let mut out = BufWriter::new(alloc, rt.stdout())?;
    write_syntax(&mut out, alloc, text, &tree, &events)?;
    out.flush()?;
    Ok(())
}
