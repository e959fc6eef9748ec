//! Why a call wrote no bytes, and where: the fault of this library for each fault of the libraries below.
ghost use Rattle.std.specs.Prelude.{◌≡◌};
ghost use Rattle.app_c.specs.Failures.{arm_fault, bad_token, bytes_failure, expand_failure, expand_text_failure, transcribe_fault, input_failure, limit_fault, macro_fault, pattern_fault, placeless, rules_failure, syntax_failure, template_fault, text_failure, write_failure};

use crate::fault::Fault;
use expand_text::{ExpandTextError, MacroFault};
use mbe_pattern::PatternError;
use mbe_rules::{ArmFault, ExpandError, RulesError, TemplateError, TranscribeError};
use std::alloc::AllocError;
use syntax_parse::{BadToken, SyntaxFault, TextFault};
use syntax_unparse::WriteFault;
use tt::TtFault;
use tt_bytes::BytesFault;

/// The reason why a call wrote no bytes, and the place at which it shows.
#[derive(Clone, Copy)]
pub(crate) struct Failure {
    pub(crate) fault: Fault,
    pub(crate) at: usize,
}

impl From<AllocError> for Failure {
    ghost use Rattle.app_c.specs.declared.fault.Fault.TheVariants.{Memory};

    ghost from_gives = { λ _ failure. failure ≡ placeless Memory };

    fn from(_error: AllocError) -> Failure {
        placeless(Fault::Memory)
    }
}

// Returns a fault without a place.
fn placeless(fault: Fault) -> Failure
    ensures { result ≡ placeless fault }
{
    Failure { fault, at: 0 }
}

// Returns the fault of an exceeded limit of trees, or of memory.
fn limit_fault(fault: TtFault) -> Fault
    ensures { result ≡ limit_fault fault }
{
    match fault {
        TtFault::Memory => Fault::Memory,
        TtFault::TooManyTokens => Fault::TooManyTokens,
        TtFault::TooManySpanParts => Fault::TooManySpanParts,
        TtFault::TooManySymbols => Fault::TooManySymbols,
        TtFault::TooManyBytes => Fault::TooManyBytes,
        _ => Fault::OtherLimit,
    }
}

/// Returns the failure of trees that exceed a limit.
pub(crate) fn limit_failure(fault: TtFault) -> Failure
    ensures { result ≡ placeless (limit_fault fault) }
{
    placeless(limit_fault(fault))
}

// Returns the fault of a token.
fn bad_token(why: BadToken) -> Fault
    ensures { result ≡ bad_token why }
{
    match why {
        BadToken::UnterminatedComment => Fault::UnterminatedComment,
        BadToken::UnterminatedLiteral => Fault::UnterminatedLiteral,
        BadToken::RawWithoutQuote => Fault::RawWithoutQuote,
        BadToken::TooManyHashes => Fault::TooManyHashes,
        BadToken::SuffixTooLong => Fault::SuffixTooLong,
        BadToken::NeverRaw => Fault::NeverRaw,
        BadToken::UnknownCharacter => Fault::UnknownCharacter,
        BadToken::UnknownPrefix => Fault::UnknownPrefix,
        BadToken::InvalidIdent => Fault::InvalidIdent,
        BadToken::GuardedPrefix => Fault::GuardedPrefix,
        BadToken::NoDigits => Fault::NoDigits,
        BadToken::EmptyExponent => Fault::EmptyExponent,
        BadToken::FloatOfAnotherBase => Fault::FloatOfAnotherBase,
        BadToken::ForeignDigit => Fault::ForeignDigit,
        BadToken::BeyondAscii => Fault::BeyondAscii,
        BadToken::BareReturn => Fault::BareReturn,
        BadToken::UnknownEscape => Fault::UnknownEscape,
        BadToken::BadHexEscape => Fault::BadHexEscape,
        BadToken::HexEscapeTooLarge => Fault::HexEscapeTooLarge,
        BadToken::BadUnicodeEscape => Fault::BadUnicodeEscape,
        BadToken::WantsEscape => Fault::WantsEscape,
        BadToken::EmptyChar => Fault::EmptyChar,
        BadToken::SeveralChars => Fault::SeveralChars,
        BadToken::NullInCStr => Fault::NullInCStr,
        BadToken::LifetimeBeginsWithDigit => Fault::LifetimeBeginsWithDigit,
    }
}

// Returns the failure of tokens that are no trees.
fn syntax_failure(fault: SyntaxFault) -> Failure
    ensures { result ≡ syntax_failure fault }
{
    let (fault, at) = match fault {
        SyntaxFault::BadToken { why, at } => (bad_token(why), at),
        SyntaxFault::Unopened { at, .. } => (Fault::Unopened, at),
        SyntaxFault::Mismatched { at, .. } => (Fault::Mismatched, at),
        SyntaxFault::Unclosed { at, .. } => (Fault::Unclosed, at),
    };
    Failure {
        fault,
        at: at as usize,
    }
}

/// Returns the failure of a text that is refused.
pub(crate) fn text_failure(fault: TextFault) -> Failure
    ensures { result ≡ text_failure fault }
{
    match fault {
        TextFault::Syntax(fault) => syntax_failure(fault),
        TextFault::TooLong => placeless(Fault::TextTooLong),
        TextFault::Limit(fault) => limit_failure(fault),
    }
}

/// Returns the failure of trees that are not written.
pub(crate) fn write_failure(fault: WriteFault) -> Failure
    ensures { result ≡ write_failure fault }
{
    match fault {
        WriteFault::NotWritable { at } => Failure {
            fault: Fault::NotWritable,
            at,
        },
        WriteFault::TooLong => placeless(Fault::MadeTooLong),
        WriteFault::Memory => placeless(Fault::Memory),
    }
}

/// Returns the failure of bytes that are those of no tree.
pub(crate) fn bytes_failure(fault: BytesFault) -> Failure
    ensures { result ≡ bytes_failure fault }
{
    let (fault, at) = match fault {
        BytesFault::Memory => (Fault::Memory, 0),
        BytesFault::TooShort(at) => (Fault::BytesTooShort, at),
        BytesFault::OtherFormat(at) => (Fault::BytesOfOtherFormat, at),
        BytesFault::NoText(at) => (Fault::BytesWithoutText, at),
        BytesFault::NoTree(at) => (Fault::BytesWithoutTree, at),
        BytesFault::StoredOtherwise(at) => (Fault::BytesStoredOtherwise, at),
    };
    Failure { fault, at }
}

/// Returns the failure of the bytes of an input that are those of no tree.
pub(crate) fn input_failure(fault: BytesFault) -> Failure
    ensures { result ≡ input_failure fault }
{
    let (fault, at) = match fault {
        BytesFault::Memory => (Fault::Memory, 0),
        BytesFault::TooShort(at) => (Fault::InputTooShort, at),
        BytesFault::OtherFormat(at) => (Fault::InputOfOtherFormat, at),
        BytesFault::NoText(at) => (Fault::InputWithoutText, at),
        BytesFault::NoTree(at) => (Fault::InputWithoutTree, at),
        BytesFault::StoredOtherwise(at) => (Fault::InputStoredOtherwise, at),
    };
    Failure { fault, at }
}

// Returns the fault of a pattern.
fn pattern_fault(error: PatternError) -> Fault
    ensures { result ≡ pattern_fault error }
{
    match error {
        PatternError::BeginsNothing(_) => Fault::BeginsNothing,
        PatternError::UnknownFragment(_) => Fault::UnknownFragment,
        PatternError::NameTwice(_) => Fault::NameTwice,
        PatternError::NeedlessSeparator(_) => Fault::NeedlessSeparator,
        PatternError::EmptyRepetition(_) => Fault::EmptyRepetition,
        PatternError::Memory => Fault::Memory,
    }
}

// Returns the fault of a template, the same as that of a pattern.
fn template_fault(error: TemplateError) -> Fault
    ensures { result ≡ template_fault error }
{
    match error {
        TemplateError::BeginsNothing(_) | TemplateError::NoOperator(_) => Fault::BeginsNothing,
        TemplateError::NeedlessSeparator(_) => Fault::NeedlessSeparator,
        TemplateError::Memory => Fault::Memory,
    }
}

// Returns the fault of an arm.
fn arm_fault(fault: ArmFault) -> Fault
    ensures { result ≡ arm_fault fault }
{
    match fault {
        ArmFault::NoPattern(_) => Fault::NoPattern,
        ArmFault::Pattern(error) => pattern_fault(error),
        ArmFault::NoArrow(_) => Fault::NoArrow,
        ArmFault::NoTemplate(_) => Fault::NoTemplate,
        ArmFault::Template(error) => template_fault(error),
        ArmFault::NoSemicolon(_) => Fault::NoSemicolon,
        ArmFault::Memory => Fault::Memory,
    }
}

/// Returns the failure of trees that are no macro, with the number of the arm.
pub(crate) fn rules_failure(error: RulesError) -> Failure
    ensures { result ≡ rules_failure error }
{
    Failure {
        fault: arm_fault(error.fault),
        at: error.arm,
    }
}

// Returns why a template is not filled.
fn transcribe_fault(fault: TranscribeError) -> Fault
    ensures { result ≡ transcribe_fault fault }
{
    match fault {
        TranscribeError::StillRepeats(_) => Fault::StillRepeats,
        TranscribeError::NothingRepeats(_) => Fault::NothingRepeats,
        TranscribeError::LengthsDiffer(_) => Fault::LengthsDiffer,
        TranscribeError::NoRound(_) => Fault::NoRound,
        TranscribeError::OverLimit => Fault::OverMaxTokens,
        TranscribeError::Tree(fault) => limit_fault(fault),
    }
}

/// Returns the failure of a macro that does not expand an input, with the number of the arm.
pub(crate) fn expand_failure(error: ExpandError) -> Failure
    ensures { result ≡ expand_failure error }
{
    Failure {
        fault: transcribe_fault(error.fault),
        at: error.arm,
    }
}

/// Returns the fault of a macro of a text, or of a call of one.
pub(crate) fn macro_fault(fault: MacroFault) -> Fault
    ensures { result ≡ macro_fault fault }
{
    match fault {
        MacroFault::Definition(error) => arm_fault(error.fault),
        MacroFault::Left => Fault::Left,
        MacroFault::BuiltIn => Fault::BuiltIn,
        MacroFault::SeveralDefinitions => Fault::SeveralDefinitions,
        MacroFault::NotExported => Fault::NotExported,
        MacroFault::Captured(_) => Fault::Captured,
        MacroFault::Conditional => Fault::Conditional,
        MacroFault::NoMatch => Fault::NoMatch,
        MacroFault::Ambiguous(_) => Fault::Ambiguous,
        MacroFault::Expansion(error) => transcribe_fault(error.fault),
        MacroFault::TooDeep => Fault::TooDeep,
        MacroFault::OverMaxTokens => Fault::OverMaxTokens,
        MacroFault::NotWritable => Fault::NotWritable,
        MacroFault::TooLong => Fault::MadeTooLong,
        MacroFault::Statements => Fault::Statements,
        MacroFault::TooLarge(fault) => limit_fault(fault),
    }
}

/// Returns the failure of a text that cannot be expanded.
pub(crate) fn expand_text_failure(error: ExpandTextError) -> Failure
    ensures { result ≡ expand_text_failure error }
{
    match error {
        ExpandTextError::Text(fault) => text_failure(fault),
        ExpandTextError::Macro(finding) => Failure {
            fault: macro_fault(finding.fault),
            at: finding.at as usize,
        },
        ExpandTextError::Memory { at: Some(at) } => Failure {
            fault: Fault::Memory,
            at: at as usize,
        },
        ExpandTextError::Memory { at: None } => placeless(Fault::Memory),
    }
}
