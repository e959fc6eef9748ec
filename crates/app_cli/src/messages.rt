//! The messages of faults of macros, in the words of the author of the macro.
ghost use Rattle.std.specs.Prelude.{◌≡◌, ◌++◌, ℕ, IfOk, codes, decimal, string_bytes};
ghost use Rattle.expand_text.specs.Expecting.{rule_number};
ghost use Rattle.app_cli.specs.Messages.{about, about_rule, definition_message, transcribe_message, message, pattern_message, template_message, size_message};

use expand_text::MacroFault;
use mbe_pattern::PatternError;
use mbe_rules::{ArmFault, RulesError, TemplateError, TranscribeError};
use std::alloc::{AllocError, Global};
use tt::TtFault;

// Returns the message of a fault of a pattern.
fn pattern_message(alloc: Global, error: PatternError) -> Result<String, AllocError>
    ensures { IfOk result (λ text. string_bytes text ≡ pattern_message error) }
{
    let words = match error {
        PatternError::BeginsNothing(_) => "this `$` begins no variable and no repetition",
        PatternError::UnknownFragment(_) => "this variable names an unknown fragment",
        PatternError::NameTwice(_) => "an earlier variable has the same name",
        PatternError::NeedlessSeparator(_) => "a `?` repetition takes no separator",
        PatternError::EmptyRepetition(_) => "this repetition matches empty input",
        PatternError::Memory => "out of memory",
    };
    String::from_str(alloc, words)
}

// Returns the message of a fault of a template.
fn template_message(alloc: Global, error: TemplateError) -> Result<String, AllocError>
    ensures { IfOk result (λ text. string_bytes text ≡ template_message error) }
{
    let words = match error {
        TemplateError::BeginsNothing(_) => "expected a name, `(` or `{` after `$`",
        TemplateError::NoOperator(_) => "expected `*`, `+` or `?`",
        TemplateError::NeedlessSeparator(_) => "a `?` repetition takes no separator",
        TemplateError::Memory => "out of memory",
    };
    String::from_str(alloc, words)
}

/// Returns the name between words.
pub fn about(alloc: Global, before: &str, name: &str, behind: &str) -> Result<String, AllocError>
    ensures { IfOk result (λ text. string_bytes text ≡ about before.now name.now behind.now) }
{
    let mut text = String::from_str(alloc, before)?;
    text.push_str("`")?;
    text.push_str(name)?;
    text.push_str("`")?;
    text.push_str(behind)?;
    Ok(text)
}

// Returns the rule of that index and the name before words. People count rules from 1.
fn about_rule(alloc: Global, arm: usize, name: &str, behind: &str) -> Result<String, AllocError>
    ensures { IfOk result (λ text. string_bytes text ≡ about_rule arm name.now behind.now) }
{
    let rule = arm.saturating_add(1).to_string(alloc)?;
    let mut before = String::from_str(alloc, "rule ")?;
    before.push_str(rule.as_str())?;
    before.push_str(" of ")?;
    about(alloc, before.as_str(), name, behind)
}

// Returns the message of a fault in the definition of the macro of that name.
fn definition_message(alloc: Global, name: &str, error: RulesError) -> Result<String, AllocError>
    ensures { IfOk result (λ text. string_bytes text ≡ definition_message name.now error) }
{
    let arm = error.arm;
    match error.fault {
        ArmFault::NoPattern(_) => about_rule(alloc, arm, name, " has no pattern"),
        ArmFault::Pattern(error) => pattern_message(alloc, error),
        ArmFault::NoArrow(_) => about_rule(alloc, arm, name, " has no `=>` after its pattern"),
        ArmFault::NoTemplate(_) => about_rule(alloc, arm, name, " has no template"),
        ArmFault::Template(error) => template_message(alloc, error),
        ArmFault::NoSemicolon(_) => about_rule(alloc, arm, name, " has no `;` after it"),
        ArmFault::Memory => String::from_str(alloc, "out of memory"),
    }
}

// Returns why a rule of the macro of that name writes nothing.
fn transcribe_message(
    alloc: Global,
    name: &str,
    arm: usize,
    error: TranscribeError,
) -> Result<String, AllocError>
    ensures { IfOk result (λ text. string_bytes text ≡ transcribe_message name.now arm error) }
{
    match error {
        TranscribeError::StillRepeats(_) => about_rule(
            alloc,
            arm,
            name,
            ": this variable is still repeating at this depth",
        ),
        TranscribeError::NothingRepeats(_) => about_rule(
            alloc,
            arm,
            name,
            ": this repetition contains no variable that repeats",
        ),
        TranscribeError::LengthsDiffer(_) => about_rule(
            alloc,
            arm,
            name,
            " repeats variables together that have different numbers of rounds",
        ),
        TranscribeError::NoRound(_) => about_rule(
            alloc,
            arm,
            name,
            " needs at least one round here",
        ),
        TranscribeError::OverLimit => about_rule(alloc, arm, name, " writes too many tokens"),
        TranscribeError::Tree(fault) => {
            let why = fault.to_string(alloc)?;
            let words = format!(in alloc; " writes too much: {why}")?;
            about_rule(alloc, arm, name, words.as_str())
        }
    }
}

// Returns the limit of trees that the macro of that name or its expansion exceeds.
fn size_message(alloc: Global, name: &str, fault: TtFault) -> Result<String, AllocError>
    ensures { IfOk result (λ text. string_bytes text ≡ size_message name.now fault) }
{
    let why = fault.to_string(alloc)?;
    let words = format!(in alloc; " is too large: {why}")?;
    about(alloc, "", name, words.as_str())
}

/// Returns the message of a fault of the macro of that name, or of a call of it.
pub fn message(alloc: Global, name: &str, fault: MacroFault) -> Result<String, AllocError>
    ensures { IfOk result (λ text. string_bytes text ≡ message name.now fault) }
{
    let (before, behind) = match fault {
        MacroFault::Definition(error) => return definition_message(alloc, name, error),
        MacroFault::Ambiguous(arm) => {
            return about_rule(alloc, arm, name, " matches this in two ways");
        }
        MacroFault::Expansion(error) => {
            return transcribe_message(alloc, name, error.arm, error.fault);
        }
        MacroFault::TooLarge(fault) => return size_message(alloc, name, fault),
        MacroFault::Left => ("this call of ", " is left as it is"),
        MacroFault::BuiltIn => (
            "this call of ",
            " is left as it is: the compiler expands it itself",
        ),
        MacroFault::SeveralDefinitions => (
            "this call of ",
            " is left as it is: which of its definitions holds depends on `#[cfg(..)]`",
        ),
        MacroFault::NotExported => (
            "this call of ",
            " is left as it is: no macro of this name has `#[macro_export]`",
        ),
        MacroFault::Captured(_) => (
            "",
            " binds this name too, and the expansion does not keep the two apart",
        ),
        MacroFault::Conditional => (
            "this call of ",
            " is left as it is: its attributes cannot apply to its expansion",
        ),
        MacroFault::Statements => (
            "the expansion of ",
            " is statements, but an expression is wanted here",
        ),
        MacroFault::NoMatch => ("no rule of ", " matches this"),
        MacroFault::TooDeep => ("recursion limit reached while expanding ", ""),
        MacroFault::OverMaxTokens => ("too many tokens are written while expanding ", ""),
        MacroFault::NotWritable => (
            "the expansion of ",
            " cannot be written: this would read back as something else",
        ),
        MacroFault::TooLong => ("the expansion of ", " has 4294967295 bytes or more"),
    };
    about(alloc, before, name, behind)
}
