//! A macro and an input: the time of making the macro or of expanding the input, or the expansion on a line.
use crate::error::BenchError;
use crate::reading::{BETWEEN_TEXTS, tree_of};
use crate::rounds::nanos_of_round;
use mbe_rules::{Expansion, MacroRules, TranscribeError};
use std::alloc::Global;
use std::io::{BufWriter, Write};
use std::time::CpuClock;
use tt::{DelimiterKind, TokenTree, TopSubtree};

/// The work of a round. A round drops what it makes.
#[derive(Clone, Copy)]
pub enum Timing {
    /// Makes the macro.
    New,
    /// Expands the input.
    Expand,
}

impl Timing {
    /// Returns the timing with that name.
    pub fn named(word: &str) -> Option<Timing> {
        match word {
            "new" => Some(Timing::New),
            "expand" => Some(Timing::Expand),
            _ => None,
        }
    }
}

// The arms, their macro, and an input.
#[derive(Drop)]
struct Macro {
    arms: TopSubtree,
    rules: MacroRules,
    input: TopSubtree,
}

// Returns the macro of these arms.
fn rules_of(alloc: Global, arms: &TopSubtree) -> Result<MacroRules, BenchError> {
    match MacroRules::new(alloc, arms.token_trees().iter()) {
        Ok(rules) => Ok(rules),
        Err(error) => Err(BenchError::NoMacro(error)),
    }
}

impl Macro {
    // Returns the macro and the input for a text: that of the arms, U+0001, and that of the input.
    fn of_texts(alloc: Global, texts: &str) -> Result<Macro, BenchError> {
        let (arms, input) = texts.split_once(BETWEEN_TEXTS).ok_or(BenchError::OneText)?;
        let arms = tree_of(alloc, arms)?;
        let input = tree_of(alloc, input)?;
        let rules = rules_of(alloc, &arms)?;
        Ok(Macro { arms, rules, input })
    }

    // Returns the expansion of the input.
    fn expanded(&self, alloc: Global) -> Result<TopSubtree, BenchError> {
        match self.rules.expand(alloc, self.input.token_trees().iter()) {
            Ok(Expansion::Tree(tree)) => Ok(tree),
            Ok(Expansion::NoMatch(_)) | Ok(Expansion::Ambiguous(_)) => Err(BenchError::NoTree),
            Err(error) => Err(BenchError::NotExpanded(error)),
        }
    }

    // Does one round.
    fn round(&self, alloc: Global, timing: Timing) -> Result<(), BenchError> {
        match timing {
            Timing::New => {
                rules_of(alloc, &self.arms)?;
            }
            Timing::Expand => {
                self.expanded(alloc)?;
            }
        }
        Ok(())
    }

    // Writes the expansion of the input on one line: its tokens, with a bracket and the number of tokens in it for a subtree; or `no match
    // PLACE`, `ambiguous ARM`, `still repeats ARM PLACE`, `nothing repeats ARM PLACE`, `lengths ARM PLACE` or `no round ARM PLACE`.
    fn show<W: Write>(&self, out: &mut W, alloc: Global) -> Result<(), BenchError> {
        match self.rules.expand(alloc, self.input.token_trees().iter()) {
            Ok(Expansion::Tree(tree)) => show_tree(out, &tree)?,
            Ok(Expansion::NoMatch(at)) => writeln!(out, "no match {at}")?,
            Ok(Expansion::Ambiguous(arm)) => writeln!(out, "ambiguous {arm}")?,
            Err(error) => match error.fault {
                TranscribeError::StillRepeats(at) => writeln!(
                    out,
                    "still repeats {} {at}",
                    error.arm
                )?,
                TranscribeError::NothingRepeats(at) => writeln!(
                    out,
                    "nothing repeats {} {at}",
                    error.arm
                )?,
                TranscribeError::LengthsDiffer(at) => writeln!(out, "lengths {} {at}", error.arm)?,
                TranscribeError::NoRound(at) => writeln!(out, "no round {} {at}", error.arm)?,
                TranscribeError::OverLimit | TranscribeError::Tree(_) => {
                    return Err(BenchError::NotExpanded(error));
                }
            },
        }
        Ok(())
    }
}

// Returns the bracket for a subtree.
fn bracket(kind: DelimiterKind) -> char {
    match kind {
        DelimiterKind::Parenthesis => '(',
        DelimiterKind::Brace => '{',
        DelimiterKind::Bracket => '[',
        DelimiterKind::Invisible | DelimiterKind::InvisibleOpaque => '<',
    }
}

// Writes the tokens of a tree.
fn show_tree<W: Write>(out: &mut W, tree: &TopSubtree) -> Result<(), BenchError> {
    let mut tokens = tree.token_trees().iter_flat_tokens();
    for token in &mut tokens {
        match token {
            TokenTree::Leaf(leaf) => write!(out, "{leaf} ")?,
            TokenTree::Subtree(header) => {
                let open = bracket(header.delimiter.kind);
                write!(out, "{open}{} ", header.len)?;
            }
        }
    }
    writeln!(out)?;
    Ok(())
}

/// Times the rounds and prints a line: the nanoseconds of a round, and the tokens of the arms, of the input and
/// of the expansion. Or shows the expansion.
pub fn run(rt: &HostRuntime, texts: &str, job: Option<(Timing, u32)>) -> Result<(), BenchError> {
    let alloc = rt.alloc();
    let made = Macro::of_texts(alloc, texts)?;
    match job {
        Some((timing, rounds)) => {
            let output = made.expanded(alloc)?.token_trees().len();
            let begun = rt.thread_cpu_time()?;
            for _ in 0..rounds {
                made.round(alloc, timing)?;
            }
            let nanos = nanos_of_round(begun, rt.thread_cpu_time()?, rounds);
            let arms = made.arms.token_trees().len();
            let input = made.input.token_trees().len();
            println!(rt; "{nanos} {arms} {input} {output}")?;
        }
        None => {
            let mut out = BufWriter::new(alloc, rt.stdout())?;
            made.show(&mut out, alloc)?;
            out.flush()?;
        }
    }
    Ok(())
}
