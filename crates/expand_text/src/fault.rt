//! Findings in the macros of a text, and why a text is not expanded.
ghost use Rattle.std.specs.Prelude.{◌≡◌, None};
ghost use Rattle.expand_text.specs.Findings.{is_warning, ends_call};
ghost use Rattle.expand_text.specs.declared.fault.ExpandTextError.TheVariants.{Text, Memory};

use crate::memory::{OutOfMemory, OutOfMemoryAt};
use mbe_rules::{ExpandError, RulesError};
use syntax_parse::TextFault;
use thiserror::Error;
use tt::{Symbol, TtFault};

/// A fault of a macro or of a call, or the reason why it is left as it is.
#[derive(Debug, Clone, Copy, PartialEq, Eq, Error)]
pub enum MacroFault {
    /// The definition has a fault.
    #[error("{0}")]
    Definition(RulesError),
    /// The macro's definition has a fault, so the call is left as it is.
    #[error("its definition is left as it is")]
    Left,
    /// The macro is built into the compiler: `#[rustc_builtin_macro]` is before its definition, whose arms mean nothing. The call is left as
    /// it is. The byte is the beginning of the call's name.
    #[error("it is built into the compiler")]
    BuiltIn,
    /// The macro has several definitions in scope, the last of them under `#[cfg(..)]`, so the call is left as it is: the text does not say
    /// which of them holds. The byte is the beginning of the call's name.
    #[error("several definitions of it are in scope")]
    SeveralDefinitions,
    /// The call has the crate's root before its name, and a macro of that name is in scope, but none is under `#[macro_export]`. The call is
    /// left as it is. The byte is the beginning of the call's name.
    #[error("no macro of its name is exported")]
    NotExported,
    /// The expansion binds a local or a label whose name is in the input of the call, so that in the text the two are one. The byte is that
    /// of the name in the input; the payload is the byte at which the macro binds it.
    #[error("its result binds a name of its input")]
    Captured(u32),
    /// The call is under `#[cfg(..)]`, and its expansion is empty, or no run of items or statements that can each have that condition. It
    /// is left as it is. The byte is the beginning of the call.
    #[error("its result cannot have its condition before each part")]
    Conditional,
    /// The call is no statement, but its expansion is statements: it begins with `let`, or has a `;` before its end. The call is left as it
    /// is. The byte is the beginning of the call.
    #[error("its result is statements")]
    Statements,
    /// No arm matches the input. The byte is the place at which the arm that comes farthest stops.
    #[error("no arm matches its input")]
    NoMatch,
    /// The arm of that number, from 0, matches the input in two ways, and no arm before it matches.
    #[error("arm {0} matches its input in two ways")]
    Ambiguous(usize),
    /// The arm that matches the input cannot be filled.
    #[error("{0}")]
    Expansion(ExpandError),
    /// The call is nested in as many expansions as the limit allows.
    #[error("too many expansions, one inside the other")]
    TooDeep,
    /// With what an arm writes for the call, the tokens written for the call of the text would exceed the limit. The byte is the beginning
    /// of the call's name.
    #[error("too many tokens are written for one call")]
    OverMaxTokens,
    /// The expansion cannot be written as Rust, so the call is left as it is. The byte is the place from which the first token comes that
    /// would read back as something else; if that is no token, it is the beginning of the call.
    #[error("its result cannot be written as Rust")]
    NotWritable,
    /// The text of the expansion would have 4,294,967,295 bytes or more, so the call is
    /// left as it is. The byte is the beginning of the call.
    #[error("its result would be too long a text")]
    TooLong,
    /// As a tree, the arms of a definition (with the root's word for each `$crate`) or the expansion of a call exceed a limit, so the
    /// definition or the call is left as it is. The byte is the beginning of the definition's name, or of the call.
    #[error("{0}")]
    TooLarge(TtFault),
}

/// A finding in a macro or in a call, and its byte.
#[derive(Debug, PartialEq, Eq, Drop, Error)]
#[error("{name} at {at}: {fault}")]
pub struct Finding {
    /// The name of the macro.
    pub name: Symbol,
    /// The byte of the text at which it shows.
    pub at: u32,
    /// The fault, or why it is left as it is.
    pub fault: MacroFault,
    /// The byte of the text at which the macro's name begins in its definition, if this is about a call.
    pub defined_at: Option<u32>,
    /// What the macro's rules expect at that byte if none of them matches: up to three parts of their patterns, each with the number of its
    /// rule, counted from 1, as a text: `` `,` (rule 1) or the end (rule 1) ``. A variable is named as in the pattern, `` `$e:expr` ``. None
    /// for any other fault.
    pub expected: Option<Symbol>,
    /// The number of the caller that wrote the definition or the call; none if it is in the text itself.
    pub caller: Option<usize>,
}

/// The reason why a text is not expanded.
#[derive(Debug, PartialEq, Eq, Drop, Error)]
pub enum ExpandTextError {
    /// The text cannot be read as trees.
    #[error("{0}")]
    Text(TextFault),
    /// A macro or a call has a fault. This is the first such finding.
    #[error("{0}")]
    Macro(Finding),
    /// Memory runs out. It is returned also if an expansion has more than 4,294,967,295 tokens while it is built.
    #[error("out of memory")]
    Memory {
        /// The byte at which a call of the text begins, after its attributes, if memory runs out while that is expanded.
        at: Option<u32>,
    },
}

impl MacroFault {
    /// Returns whether this is a warning: there is no fault, but something is left as it is, or may mean something else than before.
    pub fn is_warning(&self) -> bool
        ensures { result ≡ is_warning self.now }
    {
        matches!(
            self,
            MacroFault::Left
                | MacroFault::BuiltIn
                | MacroFault::SeveralDefinitions
                | MacroFault::NotExported
                | MacroFault::Captured(_)
                | MacroFault::Conditional
        )
    }

    // Returns whether no other call is expanded in the result of the call of the text.
    pub(crate) fn ends_call(&self) -> bool
        ensures { result ≡ ends_call self.now }
    {
        matches!(self, MacroFault::TooDeep | MacroFault::OverMaxTokens)
    }
}

impl From<TextFault> for ExpandTextError {
    ghost from_gives = { λ fault error. error ≡ Text fault };

    fn from(fault: TextFault) -> ExpandTextError {
        ExpandTextError::Text(fault)
    }
}

impl From<OutOfMemory> for ExpandTextError {
    ghost from_gives = { λ _ error. error ≡ Memory None };

    fn from(_error: OutOfMemory) -> ExpandTextError {
        ExpandTextError::Memory { at: None }
    }
}

impl From<OutOfMemoryAt> for ExpandTextError {
    ghost from_gives = { λ out error. error ≡ Memory out.call };

    fn from(out: OutOfMemoryAt) -> ExpandTextError {
        ExpandTextError::Memory { at: out.call }
    }
}
