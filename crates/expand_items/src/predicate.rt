//! What the predicate of a condition says, in Kleene's logic. The operators around a predicate are kept in memory, so only memory limits
//! their depth.
ghost use Rattle.std.specs.Prelude.{◌≡◌, ◌≤◌, ◌+◌, IfOk, None, codes, false, true, if◌then◌else◌};
ghost use Rattle.tt.specs.Forest.{size};
ghost use Rattle.tt.specs.Iters.{rest_of};
ghost use Rattle.expand_items.specs.Cfg.{Known, known_of};
ghost use Rattle.expand_items.specs.Checking.{IsBelow, begun_by, behind_operand, with_one, with_operand};
ghost use Rattle.expand_items.specs.Predicates.{behind_word, both, check, either, has_backslash, is_plain, is_plain_text, negated, operator_of, predicate, predicates, separator, value, value_says, word_says};
ghost use Rattle.mbe_pattern.specs.Units.{is_at_punct};

use crate::cfg::CfgOptions;
use std::alloc::{AllocError, Global};
use tt::{DelimiterKind, Ident, IdentIsRaw, Leaf, LitKind, Literal, TtIter};

// What makes one truth of several.
#[derive(Clone, Copy)]
enum Operator {
    /// `all(..)`.
    All,
    /// `any(..)`.
    Any,
    /// `not(..)`, which takes one predicate.
    Not,
    /// The whole, which is one predicate.
    Only,
    /// Another word.
    Unknown,
}

// A list of predicates of which some are read.
#[derive(Drop)]
struct Level<'a> {
    rest: TtIter<'a>,
    operator: Operator,
    /// Whether none is read.
    is_first: bool,
    /// What the operator makes of those that are read.
    says: Option<bool>,
}

// What comes first in the rest of a list.
#[derive(Drop)]
enum Operand<'a> {
    /// A predicate that says this.
    Value(Option<bool>),
    /// An operator before a list.
    List(Operator, TtIter<'a>),
    /// The end, or something that belongs to no list.
    End { is_list: bool },
}

/// Returns whether both are true: false if one is false, open if one is open.
pub(crate) fn both(a: Option<bool>, b: Option<bool>) -> Option<bool>
    ensures { result ≡ both a b }
{
    match a {
        Some(false) => Some(false),
        Some(true) => b,
        None => { if b == Some(false) { Some(false) } else { None } }
    }
}

/// Returns whether one is true: true if one is true, open if one is open.
pub(crate) fn either(a: Option<bool>, b: Option<bool>) -> Option<bool>
    ensures { result ≡ either a b }
{
    match a {
        Some(true) => Some(true),
        Some(false) => b,
        None => { if b == Some(true) { Some(true) } else { None } }
    }
}

/// Returns the opposite.
pub(crate) fn negated(it: Option<bool>) -> Option<bool>
    ensures { result ≡ negated it }
{
    match it {
        Some(it) => Some(!it),
        None => None,
    }
}

impl Operator {
    // Returns the operator of a name.
    fn of(name: &str) -> Operator
        ensures { result ≡ operator_of name.now }
    {
        match name {
            "all" => Operator::All,
            "any" => Operator::Any,
            "not" => Operator::Not,
            _ => Operator::Unknown,
        }
    }

    // Returns what it makes of no operand.
    fn begun(self) -> Option<bool>
        ensures { result ≡ begun_by self }
    {
        match self {
            Operator::All => Some(true),
            Operator::Any => Some(false),
            Operator::Not | Operator::Only | Operator::Unknown => None,
        }
    }

    // Returns what it makes of the operands so far and one more.
    fn with(self, is_first: bool, so_far: Option<bool>, it: Option<bool>) -> Option<bool>
        ensures { result ≡ with_operand self is_first so_far it }
    {
        match self {
            Operator::All => both(so_far, it),
            Operator::Any => either(so_far, it),
            Operator::Not => { if is_first { negated(it) } else { None } }
            Operator::Only => { if is_first { it } else { None } }
            Operator::Unknown => None,
        }
    }
}

impl<'a> Level<'a> {
    // Returns a list of which none is read.
    fn begun(operator: Operator, rest: TtIter<'a>) -> Level<'a>
        ensures { result ≡ record { rest = rest.entry; operator = operator; is_first = true; says = begun_by operator } }
    {
        Level {
            rest,
            operator,
            is_first: true,
            says: operator.begun(),
        }
    }

    // Adds what one more predicate says.
    fn add(&mut self, it: Option<bool>)
        ensures { self.new ≡ with_one it self.old }
    {
        self.says = self.operator.with(self.is_first, self.says, it);
        self.is_first = false;
    }

    // Returns what the operator makes of the list, which ends; nothing if it is no list.
    fn end(&self, is_list: bool) -> Option<bool>
        ensures { result ≡ (if is_list then self.now.says else None) }
    {
        if is_list { self.says } else { None }
    }
}

// Returns whether a text has a `\`.
fn has_backslash(text: &str) -> bool
    ensures { result ≡ has_backslash text.now }
{
    let mut found = false;
    for byte in text.as_bytes() {
        found |= *byte == b'\\';
    }
    found
}

// Returns whether a literal of a kind is a string that means its text: it is raw or has no escape.
fn is_plain_text(kind: LitKind, text: &str) -> bool
    ensures { result ≡ is_plain_text kind text.now }
{
    match kind {
        LitKind::Str => !has_backslash(text),
        LitKind::StrRaw(_) => true,
        LitKind::Byte
        | LitKind::Char
        | LitKind::Integer
        | LitKind::Float
        | LitKind::ByteStr
        | LitKind::ByteStrRaw(_)
        | LitKind::CStr
        | LitKind::CStrRaw(_)
        | LitKind::Err(()) => false,
    }
}

// Returns whether a literal is such a string.
fn is_plain(literal: &Literal) -> bool
    ensures { result ≡ is_plain literal.now }
{
    literal.suffix_len() == 0 && is_plain_text(literal.kind(), literal.text())
}

// Takes the `,` that may follow a predicate. Returns whether the list is one up to here.
fn take_separator(trees: &mut TtIter<'_>) -> bool
    ensures says { (known : Known) → predicates known separator (rest_of trees.old) ≡ (if result then predicates known predicate (rest_of trees.new) else None) }
    ensures less { size (rest_of trees.new) ≤ size (rest_of trees.old) }
{
    if trees.is_empty() {
        return true;
    }
    trees.expect_comma().is_ok()
}

impl CfgOptions {
    // Returns what a word says.
    fn word_says(&self, word: &Ident) -> Option<bool>
        ensures { result ≡ word_says (known_of self.now) word.now }
    {
        let text = word.sym.as_str();
        if word.is_raw == IdentIsRaw::No && text == "true" {
            return Some(true);
        }
        if word.is_raw == IdentIsRaw::No && text == "false" {
            return Some(false);
        }
        self.flag_says(text)
    }

    // Returns what a key with a value says.
    fn value_says(&self, key: &str, value: &Leaf) -> Option<bool>
        ensures { result ≡ value_says (known_of self.now) key.now value.now }
    {
        match value {
            Leaf::Literal(literal) => {
                if is_plain(literal) {
                    self.key_value_says(key, literal.text())
                } else {
                    None
                }
            }
            Leaf::Punct(_) | Leaf::Ident(_) => None,
        }
    }

    // Takes the value after a key and `=`.
    fn take_value<'a>(&self, key: &str, trees: &mut TtIter<'a>) -> Operand<'a>
        ensures says { predicates (known_of self.now) (value key.now) (rest_of trees.old) ≡ behind_operand (known_of self.now) result (predicates (known_of self.now) predicate (rest_of trees.new)) }
        ensures less { IsBelow result (size (rest_of trees.old) + 1) (rest_of trees.new) }
    {
        let Ok(value) = trees.expect_leaf() else {
            return Operand::End { is_list: false };
        };
        if take_separator(trees) {
            Operand::Value(self.value_says(key, &value))
        } else {
            Operand::End { is_list: false }
        }
    }

    // Takes what comes after the first word of a predicate, if it is no `=`.
    fn take_rest<'a>(&self, word: &Ident, trees: &mut TtIter<'a>) -> Operand<'a>
        requires { is_at_punct (codes "=") (rest_of trees.old) ≡ false }
        ensures says { predicates (known_of self.now) (behind_word word.now) (rest_of trees.old) ≡ behind_operand (known_of self.now) result (predicates (known_of self.now) predicate (rest_of trees.new)) }
        ensures less { IsBelow result (size (rest_of trees.old) + 1) (rest_of trees.new) }
    {
        let mut behind = trees.remaining().iter();
        let Ok((header, inside)) = behind.expect_subtree() else {
            if take_separator(trees) {
                return Operand::Value(self.word_says(word));
            }
            return Operand::End { is_list: false };
        };
        *trees = behind;
        if header.delimiter.kind != DelimiterKind::Parenthesis {
            return Operand::End { is_list: false };
        }
        if take_separator(trees) {
            Operand::List(Operator::of(word.sym.as_str()), inside)
        } else {
            Operand::End { is_list: false }
        }
    }

    // Takes what comes first in the rest of a list.
    fn take_operand<'a>(&self, trees: &mut TtIter<'a>) -> Operand<'a>
        ensures says { predicates (known_of self.now) predicate (rest_of trees.old) ≡ behind_operand (known_of self.now) result (predicates (known_of self.now) predicate (rest_of trees.new)) }
        ensures less { IsBelow result (size (rest_of trees.old)) (rest_of trees.new) }
    {
        if trees.is_empty() {
            return Operand::End { is_list: true };
        }
        let Ok(word) = trees.expect_ident_or_underscore() else {
            return Operand::End { is_list: false };
        };
        let mut behind = trees.remaining().iter();
        if behind.expect_char('=').is_ok() {
            *trees = behind;
            self.take_value(word.sym.as_str(), trees)
        } else {
            self.take_rest(&word, trees)
        }
    }

    /// Returns what a predicate says: `None` if it is open. `true` and `false` are what they are, a name or a key with a value is what the
    /// options say, and `all`, `any` and `not` follow Kleene's logic. Open is also what has another operator, is no predicate, or
    /// compares a key with something else than a string without escapes. The time is linear in the predicate, times the number of atoms.
    pub fn check(&self, alloc: Global, predicate: TtIter<'_>) -> Result<Option<bool>, AllocError>
        ensures { IfOk result (λ says. says ≡ check (known_of self.now) (rest_of predicate.entry)) }
    {
        let mut level = Level::begun(Operator::Only, predicate);
        // the lists around it, the innermost last
        let mut outer = Vec::new(alloc);
        'operands: loop {
            match self.take_operand(&mut level.rest) {
                Operand::Value(says) => level.add(says),
                Operand::List(operator, inside) => {
                    outer.push(level)?;
                    level = Level::begun(operator, inside);
                }
                Operand::End { is_list } => {
                    let says = level.end(is_list);
                    let Some(upper) = outer.pop() else {
                        return Ok(says);
                    };
                    level = upper;
                    level.add(says);
                }
            }
        }
    }
}
