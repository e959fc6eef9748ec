//! The tree of a text: the time of reading, writing or parsing it, or its Debug text.
use crate::error::BenchError;
use crate::reading::{BETWEEN_TEXTS, read, tree_of};
use crate::rounds::nanos_of_round;
use mbe_grammar::parse_file;
use std::alloc::Global;
use std::io::{BufWriter, Write};
use std::time::CpuClock;
use syntax_unparse::rust_text;
use tt::{TopSubtree, debug_text, display_text};

/// The work of a round. A round drops what it makes.
#[derive(Clone, Copy)]
pub enum Timing {
    /// Reads the text into a tree.
    Read,
    /// Writes its tree as Rust text.
    Write,
    /// Writes its tree as Display does.
    Display,
    /// Reads its tree as a file.
    Parse,
}

impl Timing {
    /// Returns the timing with that name.
    pub fn named(word: &str) -> Option<Timing> {
        match word {
            "time" => Some(Timing::Read),
            "write" => Some(Timing::Write),
            "display" => Some(Timing::Display),
            "parse" => Some(Timing::Parse),
            _ => None,
        }
    }
}

/// Times the rounds and prints a line: the nanoseconds of a round, the bytes of the text and the tokens of its tree. Or shows the tree of
/// each text, or why it has none, and a line of U+0001 after each.
pub fn run(rt: &HostRuntime, text: &str, job: Option<(Timing, u32)>) -> Result<(), BenchError> {
    let alloc = rt.alloc();
    match job {
        Some((timing, rounds)) => {
            let tree = tree_of(alloc, text)?;
            let begun = rt.thread_cpu_time()?;
            for _ in 0..rounds {
                round(alloc, text, &tree, timing)?;
            }
            let nanos = nanos_of_round(begun, rt.thread_cpu_time()?, rounds);
            let bytes = text.len();
            let tokens = tree.token_trees().len();
            println!(rt; "{nanos} {bytes} {tokens}")?;
        }
        None => {
            let mut out = BufWriter::new(alloc, rt.stdout())?;
            for part in text.split(BETWEEN_TEXTS) {
                show(&mut out, alloc, part)?;
                writeln!(out, "{BETWEEN_TEXTS}")?;
            }
            out.flush()?;
        }
    }
    Ok(())
}

// Does one round with the text or with its tree.
fn round(alloc: Global, text: &str, tree: &TopSubtree, timing: Timing) -> Result<(), BenchError> {
    match timing {
        Timing::Read => {
            tree_of(alloc, text)?;
            Ok(())
        }
        Timing::Write => match rust_text(alloc, tree.token_trees()) {
            Ok(_text) => Ok(()),
            Err(fault) => Err(BenchError::NotWritten(fault)),
        },
        Timing::Display => {
            display_text(alloc, tree.token_trees())?;
            Ok(())
        }
        Timing::Parse => {
            parse_file(alloc, tree.token_trees())?;
            Ok(())
        }
    }
}

// Writes the tree of a text, or why it has none.
fn show<W: Write>(out: &mut W, alloc: Global, text: &str) -> Result<(), BenchError> {
    match read(alloc, text) {
        Ok(tree) => {
            let shown = debug_text(alloc, tree.token_trees())?;
            writeln!(out, "{shown}")?;
        }
        Err(fault) => writeln!(out, "refused: {fault}")?,
    }
    Ok(())
}
