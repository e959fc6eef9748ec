//! Trees as pieces of bytes, in files.
use app_files::{Failure, Input, is_same_file, tree_of, write_whole};
use std::fmt::Display;
use std::io::Write;
use syntax_layout::rust_text_spaced;
use tt_bytes::{from_bytes, to_bytes};

// Returns the failure about a file, in one line.
fn of_file(rt: &HostRuntime, name: &str, what: impl Display + Drop) -> Failure {
    match format!(in rt.alloc(); "{name}: {what}") {
        Ok(message) => Failure::from_message(rt, message.as_str()),
        Err(_refused) => Failure::Memory,
    }
}

/// Writes the tree of a text as one piece of bytes into a file. The file stays as it was if the text has no tree, if it is the input
/// itself, or if not all bytes can be written.
pub fn pack(rt: &HostRuntime, input: Input<'_>, out: &str) -> Result<(), Failure> {
    let alloc = rt.alloc();
    if input.path().is_some_and(|path| is_same_file(rt, path, out)) {
        return Err(of_file(rt, out, "this is the input, so it is not written"));
    }
    let bytes = input.bytes(rt)?;
    let text = input.text(rt, bytes.as_slice())?;
    let tree = tree_of(rt, input.name(), text)?;
    let piece = match to_bytes(alloc, &tree) {
        Ok(piece) => piece,
        Err(fault) => return Err(of_file(rt, input.name(), fault)),
    };
    match write_whole(rt, out, piece.as_slice()) {
        Err(Failure::Stream(error)) => {
            let message = format!(in alloc; "couldn't write {out}: {error}")?;
            Err(Failure::from_message(rt, message.as_str()))
        }
        written => written,
    }
}

/// Writes the tree of a piece of bytes as Rust text in one line, spaced as by rustfmt, and a line feed behind it if the text is not empty.
pub fn unpack(rt: &HostRuntime, input: Input<'_>) -> Result<(), Failure> {
    let alloc = rt.alloc();
    let bytes = input.bytes(rt)?;
    let tree = match from_bytes(alloc, bytes.as_slice()) {
        Ok(tree) => tree,
        Err(fault) => return Err(of_file(rt, input.name(), fault)),
    };
    let mut text = match rust_text_spaced(alloc, tree.token_trees()) {
        Ok(text) => text,
        Err(fault) => return Err(of_file(rt, input.name(), fault)),
    };
    if !text.is_empty() {
        text.push_str("\n")?;
    }
    rt.stdout().write_all(text.as_bytes())?;
    Ok(())
}
