//! What the arms of a macro expect where none of them matches an input.
ghost use Rattle.std.specs.Prelude.{◌≡◌, ◌++◌, [], List, IfOk, OnOk, codes, map, string_bytes};
ghost use Rattle.std.specs.List.{list_any};
ghost use Rattle.tt.specs.Iters.{rest_of};
ghost use Rattle.mbe_program.specs.Labelling.{label_of};
ghost use Rattle.mbe_rules.specs.Arms.{Arm};
ghost use Rattle.mbe_rules.specs.Expansions.{AreMade};
ghost use Rattle.mbe_rules.specs.Waiting.{part_in};
ghost use Rattle.expand_text.specs.Expecting.{IsExpected, added, is_control, label_text, opening, part_added, parts_named, quoted, rule_text, token_text, variable_text};

use crate::memory::OutOfMemory;
use mbe_pattern::Variable;
use mbe_program::Part;
use mbe_rules::{ArmPart, MacroRules};
use std::alloc::{AllocError, Global};
use tt::{DelimiterKind, Leaf, Symbol, TtIter};

// A message names at most so many parts.
const MOST_NAMED: usize = 3;

// The longest text of a part that a message quotes, in bytes.
const MOST_QUOTED: usize = 40;

// Returns how a bracket opens.
fn opening(kind: DelimiterKind) -> &'static str
    ensures { result.now ≡ opening kind }
{
    match kind {
        DelimiterKind::Parenthesis => "(",
        DelimiterKind::Brace => "{",
        DelimiterKind::Bracket => "[",
        DelimiterKind::Invisible | DelimiterKind::InvisibleOpaque => "",
    }
}

// Returns a variable as it is in its pattern.
fn variable_text(alloc: Global, variable: &Variable) -> Result<String, AllocError>
    ensures { IfOk result (λ text. string_bytes text ≡ variable_text variable.now) }
{
    let mut text = "$".to_string(alloc)?;
    text.push_str(variable.name.as_str())?;
    text.push_str(":")?;
    text.push_str(variable.fragment.name())?;
    Ok(text)
}

// Returns the text of a token of these leaves.
fn token_text(alloc: Global, leaves: &[Leaf]) -> Result<String, AllocError>
    ensures { IfOk result (λ text. string_bytes text ≡ token_text leaves.now) }
{
    let mut text = String::new(alloc);
    for leaf in leaves {
        let one = leaf.to_string(alloc)?;
        text.push_str(one.as_str())?;
    }
    Ok(text)
}

// Returns whether a byte belongs to a control character, or may do so.
fn is_control(byte: u8) -> bool
    ensures { result ≡ is_control byte }
{
    byte < 32 || byte == 127 || byte == 194
}

// Returns whether a text may have control characters.
fn has_control(text: &str) -> bool
    ensures { result ≡ list_any is_control text.now }
{
    for byte in text.as_bytes() {
        if is_control(*byte) {
            return true;
        }
    }
    false
}

// Returns a text in backquotes, or the other one if it is too long for a message or may have control characters.
fn quoted(alloc: Global, text: &str, other: &str) -> Result<String, AllocError>
    ensures { IfOk result (λ made. string_bytes made ≡ quoted text.now other.now) }
{
    if text.len() > MOST_QUOTED || has_control(text) {
        return other.to_string(alloc);
    }
    format!(in alloc; "`{text}`")
}

// Returns how a message names what a part of a pattern requires.
fn label_text(alloc: Global, part: Part<'_>) -> Result<String, AllocError>
    ensures { IfOk result (λ text. string_bytes text ≡ label_text (label_of part.entry)) }
{
    match part {
        Part::Take(variable) => {
            let text = variable_text(alloc, variable)?;
            quoted(alloc, text.as_str(), "a variable")
        }
        Part::Same(leaves) => {
            let text = token_text(alloc, leaves)?;
            quoted(alloc, text.as_str(), "a token")
        }
        Part::Enter(kind) => quoted(alloc, opening(kind), ""),
        Part::Leave => "the end".to_string(alloc),
    }
}

// Returns how a message names a rule behind what it expects.
fn rule_text(alloc: Global, arm: usize) -> Result<String, AllocError>
    ensures { IfOk result (λ text. string_bytes text ≡ rule_text arm) }
{
    let number = arm.saturating_add(1);
    format!(in alloc; " (rule {number})")
}

// Adds how a message names a part, unless that is there already.
fn add(alloc: Global, texts: &mut Vec<String>, text: String) -> Result<(), AllocError>
    ensures { OnOk result (map string_bytes texts.new.items ≡ added (map string_bytes texts.old.items) (string_bytes text)) }
{
    if texts.contains(&text) || texts.len() > MOST_NAMED {
        return Ok(());
    }
    if texts.len() == MOST_NAMED {
        texts.push("others".to_string(alloc)?)?;
    } else {
        texts.push(text)?;
    }
    Ok(())
}

// Adds how a message names a part of the pattern of a rule, if there is one.
fn add_part(
    alloc: Global,
    rules: &MacroRules,
    part: &ArmPart,
    texts: &mut Vec<String>,
) -> Result<(), AllocError>
    ensures { OnOk result ((arms : List Arm) → AreMade arms rules.now.arms.items → map string_bytes texts.new.items ≡ part_added (map string_bytes texts.old.items) part.now.arm (part_in arms part.now.arm part.now.part)) }
{
    if texts.len() > MOST_NAMED {
        return Ok(());
    }
    let Some(required) = rules.part(*part) else {
        return Ok(());
    };
    let mut text = label_text(alloc, required)?;
    let rule = rule_text(alloc, part.arm)?;
    text.push_str(rule.as_str())?;
    add(alloc, texts, text)
}

// Returns how a message names these parts of the patterns of rules.
fn parts_named(
    alloc: Global,
    rules: &MacroRules,
    parts: &[ArmPart],
) -> Result<Vec<String>, AllocError>
    ensures { IfOk result (λ texts. (arms : List Arm) → AreMade arms rules.now.arms.items → map string_bytes texts.items ≡ parts_named arms parts.now) }
{
    let mut texts = Vec::new(alloc);
    for part in parts {
        add_part(alloc, rules, part, &mut texts)?;
    }
    Ok(texts)
}

/// Returns what the rules expect at a flat place of an input, as a text.
pub(crate) fn expected_at(
    alloc: Global,
    rules: &MacroRules,
    input: TtIter<'_>,
    place: usize,
) -> Result<Symbol, OutOfMemory>
    ensures { IfOk result (λ expected. (arms : List Arm) → AreMade arms rules.now.arms.items → IsExpected arms (rest_of input.entry) place expected) }
{
    let parts = rules.waiting(alloc, input, place)?;
    let texts = parts_named(alloc, rules, &parts)?;
    let text = texts.join(alloc, " or ")?;
    Ok(Symbol::new(alloc, text.as_str())?)
}
