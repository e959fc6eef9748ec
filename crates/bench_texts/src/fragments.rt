//! Fragments of Rust's grammar, one after the other: the time of taking them or of reading the text, or how many there are.
use crate::error::BenchError;
use crate::reading::tree_of;
use crate::rounds::nanos_of_round;
use mbe_grammar::reach;
use mbe_pattern::{GrammarFragment, pass};
use std::alloc::Global;
use std::time::CpuClock;
use tt::TopSubtree;

/// The work of a round. A round drops what it makes.
#[derive(Clone, Copy)]
pub enum Timing {
    /// Reads the text into a tree.
    Read,
    /// Takes one fragment after the other from its tree.
    Reach,
}

impl Timing {
    /// Returns the timing with that name.
    pub fn named(word: &str) -> Option<Timing> {
        match word {
            "read" => Some(Timing::Read),
            "reach" => Some(Timing::Reach),
            _ => None,
        }
    }
}

/// Returns the fragment with that name.
pub fn fragment_named(word: &str) -> Option<GrammarFragment> {
    match word {
        "expr" => Some(GrammarFragment::Expr),
        "ty" => Some(GrammarFragment::Ty),
        "pat" => Some(GrammarFragment::Pat),
        "path" => Some(GrammarFragment::Path),
        "stmt" => Some(GrammarFragment::Stmt),
        "item" => Some(GrammarFragment::Item),
        "meta" => Some(GrammarFragment::Meta),
        _ => None,
    }
}

// How many fragments there are, how many trees they take, and how many trees no fragment takes.
#[derive(Clone, Copy)]
struct Taken {
    pieces: usize,
    trees: usize,
    others: usize,
}

// Takes fragments from the first tree on, and passes a tree at which none begins.
fn take_all(
    alloc: Global,
    fragment: GrammarFragment,
    tree: &TopSubtree,
) -> Result<Taken, BenchError> {
    let mut taken = Taken {
        pieces: 0,
        trees: 0,
        others: 0,
    };
    let mut trees = tree.token_trees().iter();
    for _ in 0..tree.token_trees().len() {
        if trees.peek().is_none() {
            return Ok(taken);
        }
        match reach(alloc, fragment, trees.remaining().iter())? {
            Some(count) => {
                pass(&mut trees, count);
                taken.pieces = taken.pieces.saturating_add(1);
                taken.trees = taken.trees.saturating_add(count);
            }
            None => {
                trees.next();
                taken.others = taken.others.saturating_add(1);
            }
        }
    }
    Ok(taken)
}

// Does one round.
fn round(
    alloc: Global,
    text: &str,
    tree: &TopSubtree,
    fragment: GrammarFragment,
    timing: Timing,
) -> Result<(), BenchError> {
    match timing {
        Timing::Read => {
            tree_of(alloc, text)?;
        }
        Timing::Reach => {
            take_all(alloc, fragment, tree)?;
        }
    }
    Ok(())
}

/// Prints one line: the nanoseconds of a round if there are rounds, the tokens of the text's tree, how many fragments it has, how many
/// trees they take, and how many trees no fragment takes.
pub fn run(
    rt: &HostRuntime,
    text: &str,
    fragment: GrammarFragment,
    job: Option<(Timing, u32)>,
) -> Result<(), BenchError> {
    let alloc = rt.alloc();
    let tree = tree_of(alloc, text)?;
    if let Some((timing, rounds)) = job {
        let begun = rt.thread_cpu_time()?;
        for _ in 0..rounds {
            round(alloc, text, &tree, fragment, timing)?;
        }
        let nanos = nanos_of_round(begun, rt.thread_cpu_time()?, rounds);
        print!(rt; "{nanos} ")?;
    }
    let taken = take_all(alloc, fragment, &tree)?;
    let tokens = tree.token_trees().len();
    println!(rt;
        "{tokens} {} {} {}",
        taken.pieces, taken.trees, taken.others
    )?;
    Ok(())
}
