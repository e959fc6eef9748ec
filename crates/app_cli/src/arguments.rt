//! The command line.
use crate::dropping::Drops;
use clap::builder::ValueParser;
use clap::{Arg, ArgAction, ArgMatches, Command, Error};
use std::alloc::{AllocError, Global};

const FILE: &str = "FILE";

const OUT: &str = "OUT";

const EVERYWHERE: &str = "everywhere";

const CRATE: &str = "crate";

const ONLY: &str = "only";

const LIMIT: &str = "limit";

const MAX_TOKENS: &str = "max-tokens";

const CFG: &str = "cfg";

const CFG_FROM: &str = "cfg-from";

const ONE_LINE: &str = "one-line";

const DROP_RULES: &str = "drop-rules";

const DROP_EXPORTED: &str = "drop-exported";

const DIFF: &str = "diff";

const WRITE: &str = "write";

const SYNTAX: &str = "syntax";

/// The largest limit that the options allow for nested expansions.
pub const MOST_LIMIT: u64 = 1000;

// The largest limit that the options allow for the tokens that are written for a call: as many as a tree may have.
const MOST_TOKENS: u64 = 4_294_967_295;

// Returns a command that reads a file.
fn reads<'a>(
    alloc: Global,
    name: &'a str,
    about: &'a str,
    file: Arg<'a>,
) -> Result<Command<'a>, AllocError> {
    Command::new(alloc, name).about(about).arg(file)
}

// Returns the argument for the file that a command reads.
fn file<'a>(alloc: Global) -> Arg<'a> {
    Arg::new(alloc, FILE).help("The file that is read; - is standard input")
}

// Returns the argument for the files that a command reads.
fn files<'a>(alloc: Global) -> Arg<'a> {
    Arg::new(alloc, FILE)
        .required(true)
        .action(ArgAction::Append)
        .num_args(1..)
        .help("The files that are read; - is standard input")
}

// Returns the argument for what is true in conditions.
fn cfg<'a>(alloc: Global) -> Arg<'a> {
    Arg::new(alloc, CFG)
        .long(CFG)
        .value_name("SPEC")
        .action(ArgAction::Append)
        .help("Takes NAME or NAME=\"VALUE\" as true in #[cfg(..)]; what no option names stays open")
}

// Returns the argument for the file of all that is true in conditions.
fn cfg_from<'a>(alloc: Global) -> Arg<'a> {
    Arg::new(alloc, CFG_FROM)
        .long(CFG_FROM)
        .value_name(FILE)
        .help(
            "Takes the lines of a file, as rustc --print cfg writes them, as true, and all else as false",
        )
}

// Returns a command that expands macros.
fn expands<'a>(
    alloc: Global,
    name: &'a str,
    about: &'a str,
    file: Arg<'a>,
) -> Result<Command<'a>, AllocError> {
    let everywhere = Arg::new(alloc, EVERYWHERE)
        .long(EVERYWHERE)
        .action(ArgAction::SetTrue)
        .help("Goes into calls that are not expanded");
    let root = Arg::new(alloc, CRATE)
        .long(CRATE)
        .value_name("NAME")
        .default_value("crate")
        .help("The name that $crate becomes");
    let only = Arg::new(alloc, ONLY)
        .long(ONLY)
        .value_name("NAME")
        .help("Reads and expands the macros of that name alone");
    let limit = Arg::new(alloc, LIMIT)
        .long(LIMIT)
        .value_name("N")
        .value_parser(ValueParser::unsigned(1, MOST_LIMIT))
        .help(
            "How many expansions may be nested, from 1 to 1000; by default what #![recursion_limit] says, or 128",
        );
    let max_tokens = Arg::new(alloc, MAX_TOKENS)
        .long(MAX_TOKENS)
        .value_name("N")
        .value_parser(ValueParser::unsigned(1, MOST_TOKENS))
        .help(
            "How many tokens may be written for a call and the calls in its result; by default 4000000",
        );
    reads(alloc, name, about, file)?
        .arg(everywhere)?
        .arg(root)?
        .arg(only)?
        .arg(limit)?
        .arg(max_tokens)?
        .arg(cfg(alloc))?
        .arg(cfg_from(alloc))
}

// Returns the command that writes the text with its calls expanded.
fn expand<'a>(alloc: Global) -> Result<Command<'a>, AllocError> {
    let drops = Arg::new(alloc, DROP_RULES)
        .long(DROP_RULES)
        .action(ArgAction::SetTrue)
        .help("Leaves out the definitions of macros that nothing in what is written needs");
    let drops_exported = Arg::new(alloc, DROP_EXPORTED)
        .long(DROP_EXPORTED)
        .action(ArgAction::SetTrue)
        .requires_arg(DROP_RULES)?
        .help("Leaves out also those under #[macro_export], which other crates may use");
    let one_line = Arg::new(alloc, ONE_LINE)
        .long(ONE_LINE)
        .action(ArgAction::SetTrue)
        .help("Writes what a call becomes on one line, with a space between all tokens");
    let diff = Arg::new(alloc, DIFF)
        .long(DIFF)
        .action(ArgAction::SetTrue)
        .help("Writes how the files would change, as diff -u does");
    let write = Arg::new(alloc, WRITE)
        .long(WRITE)
        .action(ArgAction::SetTrue)
        .conflicts_with(DIFF)?
        .help("Writes the files anew, all of them or none");
    let about = "Writes the text in which calls of its own macros are expanded";
    expands(alloc, "expand", about, files(alloc).required(false))?
        .arg(diff)?
        .arg(write)?
        .arg(one_line)?
        .arg(drops)?
        .arg(drops_exported)
}

// Returns the command that reports errors.
fn check<'a>(alloc: Global) -> Result<Command<'a>, AllocError> {
    let about = "Reports the first syntax error of texts, and the errors in their macros and calls";
    expands(alloc, "check", about, files(alloc))
}

// Returns the command that writes tokens.
fn tokens<'a>(alloc: Global) -> Result<Command<'a>, AllocError> {
    let about = "Writes a line for each token: its bytes, its kind and its text";
    reads(alloc, "tokens", about, file(alloc))
}

// Returns the command that writes a tree.
fn tree<'a>(alloc: Global) -> Result<Command<'a>, AllocError> {
    let syntax = Arg::new(alloc, SYNTAX)
        .long(SYNTAX)
        .action(ArgAction::SetTrue)
        .help("Writes also the names of Rust's grammar that took the tokens");
    let about = "Writes the tree of a text, a line for each token, with lines and columns";
    reads(alloc, "tree", about, file(alloc))?.arg(syntax)
}

// Returns the command that writes a tree as bytes.
fn pack<'a>(alloc: Global) -> Result<Command<'a>, AllocError> {
    let out = Arg::new(alloc, OUT)
        .short('o')
        .value_name(OUT)
        .required(true)
        .help("The file that is written");
    let about = "Writes the tree of a text as one piece of bytes";
    reads(alloc, "pack", about, file(alloc).required(true))?.arg(out)
}

// Returns the command that writes the text of such bytes.
fn unpack<'a>(alloc: Global) -> Result<Command<'a>, AllocError> {
    let about = "Writes the tree of such a piece as Rust text";
    reads(alloc, "unpack", about, file(alloc).required(true))
}

// Returns the whole command line.
fn command<'a>(alloc: Global) -> Result<Command<'a>, AllocError> {
    Command::new(alloc, "cuvolemin")
        .bin_name("cuvolemin")?
        .version("0.1.0")
        .about("Macros and token trees of Rust texts")
        .subcommand_required(true)
        .arg_required_else_help(true)
        .subcommand(expand(alloc)?)?
        .subcommand(check(alloc)?)?
        .subcommand(tokens(alloc)?)?
        .subcommand(tree(alloc)?)?
        .subcommand(pack(alloc)?)?
        .subcommand(unpack(alloc)?)
}

/// Parses these words, the first of which is the program's name. An `Err` is a mistake in them, or the answer to `--help` or `--version`.
pub fn parse<'a>(alloc: Global, words: &'a [String]) -> Result<ArgMatches<'a>, Error> {
    command(alloc)?.try_get_matches_from(words)
}

/// Returns the file that a command reads, if one is named.
pub fn file_of<'a>(matches: &ArgMatches<'a>) -> Option<&'a str> {
    matches.get_str(FILE)
}

/// Returns the files that a command reads, if some are named.
pub fn files_of<'m, 'a>(matches: &'m ArgMatches<'a>) -> Option<&'m [&'a str]> {
    matches.get_strs(FILE)
}

/// Returns whether the walk enters calls that are not expanded.
pub fn is_everywhere(matches: &ArgMatches<'_>) -> bool {
    matches.get_flag(EVERYWHERE)
}

/// Returns whether what a call becomes is written on one line. A command without that option says no.
pub fn is_one_line(matches: &ArgMatches<'_>) -> bool {
    matches.get_flag(ONE_LINE)
}

/// Returns which definitions are left out.
pub fn drops_of(matches: &ArgMatches<'_>) -> Drops {
    if !matches.get_flag(DROP_RULES) {
        Drops::Nothing
    } else if matches.get_flag(DROP_EXPORTED) {
        Drops::Unneeded
    } else {
        Drops::Unexported
    }
}

/// Returns whether the files are not written, but how they would change.
pub fn is_diff(matches: &ArgMatches<'_>) -> bool {
    matches.get_flag(DIFF)
}

/// Returns whether the files are written anew.
pub fn is_write(matches: &ArgMatches<'_>) -> bool {
    matches.get_flag(WRITE)
}

/// Returns whether the derivation is written.
pub fn shows_syntax(matches: &ArgMatches<'_>) -> bool {
    matches.get_flag(SYNTAX)
}

/// Returns the name that `$crate` becomes.
pub fn root_of<'a>(matches: &ArgMatches<'a>) -> &'a str {
    matches.get_str(CRATE).unwrap_or("crate")
}

/// Returns the only name whose macros are expanded, if one is given.
pub fn only_of<'a>(matches: &ArgMatches<'a>) -> Option<&'a str> {
    matches.get_str(ONLY)
}

/// Returns the limit of nested expansions, if one is given.
pub fn limit_of(matches: &ArgMatches<'_>) -> Option<usize> {
    matches.get_one(LIMIT)
}

/// Returns the limit of the tokens that are written for a call, if one is given.
pub fn max_tokens_of(matches: &ArgMatches<'_>) -> Option<usize> {
    matches.get_one(MAX_TOKENS)
}

/// Returns what the options take as true in conditions.
pub fn cfgs_of<'m, 'a>(matches: &'m ArgMatches<'a>) -> Option<&'m [&'a str]> {
    matches.get_strs(CFG)
}

/// Returns the file that has all that is true in conditions, if one is given.
pub fn cfg_file_of<'a>(matches: &ArgMatches<'a>) -> Option<&'a str> {
    matches.get_str(CFG_FROM)
}

/// Returns the file that a command writes.
pub fn out_of<'a>(matches: &ArgMatches<'a>) -> &'a str {
    matches.get_str(OUT).unwrap_or("")
}
