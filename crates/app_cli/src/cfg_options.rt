//! What the options say of conditions, `#[cfg(..)]`.
use crate::arguments::{cfg_file_of, cfgs_of};
use app_files::{Failure, Input};
use clap::ArgMatches;
use expand_items::CfgOptions;
use syntax_cfg::{Cfg, cfg_in};

// Adds what is true.
fn insert(rt: &HostRuntime, options: &mut CfgOptions, it: Cfg<'_>) -> Result<(), Failure> {
    match it.value {
        None => options.insert_flag(rt.alloc(), it.name)?,
        Some(value) => options.insert_key_value(rt.alloc(), it.name, value)?,
    }
    Ok(())
}

// Adds the value of an option `--cfg`.
fn insert_value(rt: &HostRuntime, options: &mut CfgOptions, value: &str) -> Result<(), Failure> {
    let Some(it) = cfg_in(value) else {
        let message = format!(in rt.alloc();
            "{value:?} is no NAME and no NAME=\"VALUE\", as --cfg wants one"
        )?;
        return Err(Failure::usage(rt, message.as_str()));
    };
    insert(rt, options, it)
}

// Adds a line of the file of that name, which is not empty.
fn insert_line(
    rt: &HostRuntime,
    options: &mut CfgOptions,
    name: &str,
    number: usize,
    line: &str,
) -> Result<(), Failure> {
    let Some(it) = cfg_in(line) else {
        let message = format!(in rt.alloc();
            "{name}:{number}: {line:?} is no NAME and no NAME=\"VALUE\""
        )?;
        return Err(Failure::from_message(rt, message.as_str()));
    };
    insert(rt, options, it)
}

// Adds the lines of a file. Empty lines say nothing.
fn insert_file(rt: &HostRuntime, options: &mut CfgOptions, file: &str) -> Result<(), Failure> {
    let input = Input::new(Some(file));
    let bytes = input.bytes(rt)?;
    let text = input.text(rt, bytes.as_slice())?;
    let mut number: usize = 0;
    for line in text.lines() {
        number = number.saturating_add(1);
        if !line.trim().is_empty() {
            insert_line(rt, options, input.name(), number, line)?;
        }
    }
    options.set_complete();
    Ok(())
}

/// Returns what the options say of conditions; fails if an option or a line of the file does not read as `NAME` or `NAME="VALUE"`.
pub fn cfg_options_of(rt: &HostRuntime, matches: &ArgMatches<'_>) -> Result<CfgOptions, Failure> {
    let mut options = CfgOptions::new(rt.alloc());
    if let Some(values) = cfgs_of(matches) {
        for value in values {
            insert_value(rt, &mut options, value)?;
        }
    }
    if let Some(file) = cfg_file_of(matches) {
        insert_file(rt, &mut options, file)?;
    }
    Ok(options)
}
