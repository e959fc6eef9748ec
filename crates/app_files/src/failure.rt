//! Why a command failed.
ghost use Rattle.std.specs.Prelude.{◌≡◌};
ghost use Rattle.app_files.specs.declared.failure.Failure.TheVariants.{Memory, Stream};

use crate::plain::plain_text;
use crate::style::style_of;
use std::alloc::{AllocError, AllocFailed};
use std::io::{self, ErrorKind};
use std::process::ExitCode;
use syntax_diagnostic::Level;

/// The reason why a command failed.
#[derive(Drop)]
pub enum Failure {
    /// The message: whole lines.
    Diagnostic(String),
    /// The message about a mistake in the arguments: whole lines.
    Usage(String),
    /// The arguments could not be read, or standard output did not take what was written.
    Stream(io::Error),
    /// Memory ran out.
    Memory,
}

impl From<AllocError> for Failure {
    ghost from_gives = { λ _ failure. failure ≡ Memory };

    fn from(_error: AllocError) -> Failure {
        Failure::Memory
    }
}

impl<T: Drop> From<AllocFailed<T>> for Failure {
    ghost from_gives = { λ _ failure. failure ≡ Memory };

    fn from(_error: AllocFailed<T>) -> Failure {
        Failure::Memory
    }
}

impl From<io::Error> for Failure {
    ghost from_gives = { λ error failure. failure ≡ Stream error };

    fn from(error: io::Error) -> Failure {
        Failure::Stream(error)
    }
}

impl Failure {
    /// Returns the failure with that text.
    pub fn from_text(text: Result<String, AllocError>) -> Failure {
        match text {
            Ok(text) => Failure::Diagnostic(text),
            Err(_refused) => Failure::Memory,
        }
    }

    /// Returns the failure of a message that has no place in a text.
    pub fn from_message(rt: &HostRuntime, message: &str) -> Failure {
        Failure::from_text(plain_text(rt.alloc(), style_of(rt), Level::Error, message))
    }

    /// Returns the failure of a mistake in the arguments.
    pub fn usage(rt: &HostRuntime, message: &str) -> Failure {
        match plain_text(rt.alloc(), style_of(rt), Level::Error, message) {
            Ok(text) => Failure::Usage(text),
            Err(_refused) => Failure::Memory,
        }
    }

    /// Prints the failure of a command over the file of that name on standard error.
    pub fn report_on(&self, rt: &HostRuntime, name: &str) {
        match self {
            Failure::Memory => {
                let _ = eprintln!(rt; "error: {name}: out of memory");
            }
            Failure::Diagnostic(_) | Failure::Usage(_) | Failure::Stream(_) => {
                self.report(rt);
            }
        }
    }

    /// Prints the failure on standard error, and returns the exit status. If standard output was closed, it prints nothing and returns
    /// success: the reader has read enough.
    pub fn report(&self, rt: &HostRuntime) -> ExitCode {
        match self {
            Failure::Diagnostic(text) => {
                let _ = eprint!(rt; "{text}");
            }
            Failure::Usage(text) => {
                let _ = eprint!(rt; "{text}");
                return ExitCode::from(2);
            }
            Failure::Stream(error) => {
                if error.kind() == ErrorKind::BrokenPipe {
                    return ExitCode::SUCCESS;
                }
                let _ = eprintln!(rt; "error: {error}");
            }
            Failure::Memory => {
                let _ = eprintln!(rt; "error: out of memory");
            }
        }
        ExitCode::FAILURE
    }
}
