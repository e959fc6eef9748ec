//! Why nothing was timed.
use mbe_rule::RuleFault;
use std::io;
use thiserror::Error;
use tt::TtFault;
use tt_bytes::BytesFault;

/// Why nothing was timed.
#[derive(Debug, Clone, Copy, Error)]
pub enum BenchError {
    /// The arguments describe no job.
    #[error("usage: bench_store MODE ROUNDS [apart] < ITEMS\n\
        MODE: pack build rewrite ids expand load flat flat_whole skip siblings siblings_whole walk show display pretty debug equal fold sip clone save drop")]
    Usage,
    /// That line, counted from 1, is no `item` line.
    #[error("line {0} is no item")]
    BadLine(u64),
    /// The list is refused, or memory is.
    #[error("refused: {0}")]
    Fault(#[from] TtFault),
    /// The tree is no pattern.
    #[error("no rule: {0}")]
    Rule(#[from] RuleFault),
    /// The input is no instance of the pattern.
    #[error("no match")]
    NoMatch,
    /// The bytes are those of no tree.
    #[error("no tree: {0}")]
    NoTree(#[from] BytesFault),
    /// A walk by siblings would need too much stack.
    #[error("too deep to walk by siblings")]
    TooDeep,
    /// Input, output or the clock failed.
    #[error(transparent)]
    Io(#[from] io::Error),
}
