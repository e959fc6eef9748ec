//! Files that are written anew with their calls expanded, or shown as they would change.
use crate::counts::Counts;
use crate::dropping::Drops;
use crate::expanding::{outcome_of, write_output, write_summary};
use crate::options::Options;
use app_diff::unified_diff;
use app_files::{Failure, Input, Staged};
use std::fs;
use std::io::Write;
use std::process::ExitCode;

// A file, what it holds, and what it is to hold.
#[derive(Drop)]
struct Change<'a> {
    input: Input<'a>,
    old: Vec<u8>,
    new: Vec<u8>,
}

// Returns the change of an input, and its number of errors and warnings. A text with an error does not change.
fn change_of<'a>(
    rt: &HostRuntime,
    input: Input<'a>,
    options: Options<'_>,
    drops: Drops,
) -> Result<(Change<'a>, Counts), Failure> {
    let mut outcome = outcome_of(rt, input, options, false);
    let counts = outcome.counts;
    let old = std::mem::replace(&mut outcome.source, Vec::new(rt.alloc()));
    let mut new = Vec::new(rt.alloc());
    write_output(rt, &mut new, input.name(), outcome, options, drops)?;
    if counts.has_errors() {
        new.extend_from_slice(old.as_slice())?;
    }
    Ok((Change { input, old, new }, counts))
}

// Returns the changes of these files that change, and the number of errors and warnings of all.
fn changes_of<'a>(
    rt: &HostRuntime,
    names: &[&'a str],
    options: Options<'_>,
    drops: Drops,
) -> Result<(Vec<Change<'a>>, Counts), Failure> {
    let mut changes = Vec::new(rt.alloc());
    let mut counts = Counts::NONE;
    for name in names {
        let (change, found) = change_of(rt, Input::new(Some(name)), options, drops)?;
        counts = counts.plus(found);
        if change.old == change.new {
            continue;
        }
        changes.push(change)?;
    }
    write_summary(rt, counts)?;
    Ok((changes, counts))
}

// Returns the failure about a file that is not written.
fn unwritten(rt: &HostRuntime, name: &str, why: &str) -> Failure {
    match format!(in rt.alloc(); "couldn't write {name}: {why}") {
        Ok(message) => Failure::from_message(rt, message.as_str()),
        Err(_refused) => Failure::Memory,
    }
}

// Returns the failure of a file of that name that is not written for this reason.
fn write_failure(rt: &HostRuntime, name: &str, failure: Failure) -> Failure {
    match failure {
        Failure::Stream(error) => match format!(in rt.alloc(); "{error}") {
            Ok(why) => unwritten(rt, name, why.as_str()),
            Err(_refused) => Failure::Memory,
        },
        other => other,
    }
}

// Returns whether a path leads to a regular file.
fn is_regular(rt: &HostRuntime, path: &str) -> bool {
    match fs::metadata(rt, path) {
        Ok(found) => found.is_file(),
        Err(_missing) => false,
    }
}

// Puts the new text of a file beside it, if the file still holds what was read.
fn stage(rt: &HostRuntime, change: &Change<'_>) -> Result<Staged, Failure> {
    let name = change.input.name();
    if !is_regular(rt, name) {
        return Err(unwritten(rt, name, "it is no regular file"));
    }
    if change.input.bytes(rt)? != change.old {
        return Err(unwritten(rt, name, "it changed meanwhile"));
    }
    match Staged::new(rt, name, change.new.as_slice()) {
        Ok(staged) => Ok(staged),
        Err(failure) => Err(write_failure(rt, name, failure)),
    }
}

// Puts the new texts of files beside them. On failure it removes those that it has put.
fn stage_all(rt: &HostRuntime, changes: &[Change<'_>]) -> Result<Vec<Staged>, Failure> {
    let mut all = Vec::with_capacity(rt.alloc(), changes.len())?;
    for change in changes {
        match stage(rt, change) {
            Ok(staged) => all.push(staged)?,
            Err(failure) => {
                for staged in all {
                    staged.remove(rt);
                }
                return Err(failure);
            }
        }
    }
    Ok(all)
}

// Puts new texts in the places of their files. After a failure it puts no other.
fn put_all(rt: &HostRuntime, all: Vec<Staged>) -> Result<(), Failure> {
    let mut put = Ok(());
    for staged in all {
        if put.is_ok() {
            put = staged.put(rt);
        } else {
            staged.remove(rt);
        }
    }
    put
}

/// Writes these files anew with their calls expanded, without the definitions that are to be dropped. If one of them has an error, cannot be
/// written or changes meanwhile, all stay as they are.
pub fn write_files(
    rt: &HostRuntime,
    names: &[&str],
    options: Options<'_>,
    drops: Drops,
) -> Result<ExitCode, Failure> {
    for name in names {
        if Input::new(Some(name)).path().is_none() {
            return Err(Failure::usage(rt, "--write wants files"));
        }
    }
    let (changes, counts) = changes_of(rt, names, options, drops)?;
    if !counts.has_errors() {
        put_all(rt, stage_all(rt, &changes)?)?;
    }
    Ok(counts.status())
}

/// Writes how these files would change, as `diff -u` does.
pub fn write_diffs(
    rt: &HostRuntime,
    names: &[&str],
    options: Options<'_>,
    drops: Drops,
) -> Result<ExitCode, Failure> {
    let (changes, counts) = changes_of(rt, names, options, drops)?;
    for change in changes {
        let old = std::str::from_utf8(change.old.as_slice());
        let new = std::str::from_utf8(change.new.as_slice());
        if let (Ok(old), Ok(new)) = (old, new) {
            let diff = unified_diff(rt.alloc(), change.input.name(), old, new)?;
            rt.stdout().write_all(diff.as_bytes())?;
        }
    }
    Ok(counts.status())
}
