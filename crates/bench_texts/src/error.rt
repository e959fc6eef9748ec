//! Why the program measures or shows nothing.
use mbe_rules::{ExpandError, RulesError};
use std::alloc::AllocError;
use std::io;
use syntax_parse::TextFault;
use syntax_unparse::WriteFault;
use thiserror::Error;
use tt::TtFault;

/// Why the program measures or shows nothing.
#[derive(Debug, Drop, Error)]
pub enum BenchError {
    /// The arguments name no job.
    #[error("usage: bench_texts tokens time ROUNDS | tokens show | trees time|write|display|parse ROUNDS | trees show | \
         macros new|expand ROUNDS | macros show | fragments read|reach FRAGMENT ROUNDS | fragments show FRAGMENT")]
    Usage,
    /// The text has more bytes than a `u32` counts.
    #[error("the text has more than 4294967295 bytes")]
    TooLong,
    /// A text is refused: it has no tree.
    #[error("{0}")]
    Refused(TextFault),
    /// A tree that the program writes cannot be written.
    #[error("{0}")]
    NotWritten(WriteFault),
    /// Memory ran out for the shown text.
    #[error("{0}")]
    Show(TtFault),
    /// There is no U+0001 between the arms and the input.
    #[error("no U+0001 between the arms and the input")]
    OneText,
    /// The arms are no macro.
    #[error("{0}")]
    NoMacro(RulesError),
    /// No arm takes the input in one way.
    #[error("no arm takes the input in one way")]
    NoTree,
    /// The arm that takes the input cannot be filled.
    #[error("{0}")]
    NotExpanded(ExpandError),
    /// Memory ran out for the machine of the grammar.
    #[error("no memory")]
    NoMemory,
    /// Input, output or the clock failed, or the input is not UTF-8.
    #[error(transparent)]
    Io(#[from] io::Error),
}

impl From<AllocError> for BenchError {
    fn from(_error: AllocError) -> BenchError {
        BenchError::NoMemory
    }
}

impl From<TtFault> for BenchError {
    fn from(fault: TtFault) -> BenchError {
        BenchError::Show(fault)
    }
}
