//! The answers of the machine, in bytes.
ghost use Rattle.std.specs.Prelude.{◌≡◌, ◌≤◌, ◌++◌, ◌∷◌, [], length, codes, decimal, Some, MatchResult, string_bytes, if◌then◌else◌};
ghost use Rattle.tt_base.specs.declared.fault.TtFault.TheVariants.{Memory};

use crate::arm_number::arm_fault_number;
use arrayvec::ArrayString;
use itoa::Buffer;
use mbe_rule::RuleFault;
use mbe_rules::{ExpandError, RulesError, TranscribeError};
use std::alloc::AllocError;
use std::marker::Model;
use syntax_unparse::WriteFault;
use tt_base::TtFault;
use tt_bytes::BytesFault;

// The largest number of bytes of a line that is made without memory: a word, and two numbers of at most 20 digits.
const MOST_SHORT_BYTES: usize = 49;

#[derive(Drop)]
enum Held {
    Fixed(&'static [u8]),
    Short(ArrayString<MOST_SHORT_BYTES>),
    Built(String),
}

/// The answer of the machine to one command: one or several lines, each with its line feed. A contract sees its bytes.
#[derive(Drop)]
pub struct Answer {
    held: Held,
}

impl Model for Answer {
    ghost use Rattle.std.specs.Prelude.{ℕ, List};
    ghost use Rattle.app_console.specs.Held.{held_bytes};

    ghost Value = { List ℕ };

    ghost view = { λ answer. held_bytes answer.held };
}

impl Answer {
    ghost use Rattle.app_console.specs.Answer.{line, ok_line, empty_line, same_line, no_builder_line, none_open_line, still_open_line, yes_line, no_line, fault_line, no_match_line, rule_line, bytes_line};
    ghost use Rattle.app_console.specs.Arms.{arm_line, rules_line, ambiguous_line, unfilled_line};
    ghost use Rattle.app_console.specs.Building.{point_line, counts_line};
    ghost use Rattle.app_console.specs.Writing.{unwritten_line};

    /// Returns the text of the answer, with the line feed at its end.
    pub fn as_bytes(&self) -> &[u8]
        ensures { result.now ≡ self.now }
    {
        match &self.held {
            Held::Fixed(bytes) => *bytes,
            Held::Short(text) => text.as_str().as_bytes(),
            Held::Built(text) => text.as_bytes(),
        }
    }

    fn fixed(bytes: &'static [u8]) -> Answer
        ensures { result ≡ bytes.entry.now }
    {
        Answer {
            held: Held::Fixed(bytes),
        }
    }

    /// Returns the lines of a text, which ends in a line feed; `fault 1` if memory for it ran out.
    pub(crate) fn of_text(text: Result<String, AllocError>) -> Answer
        ensures { MatchResult text (λ built. result ≡ string_bytes built) (λ _. result ≡ fault_line Memory) }
    {
        match text {
            Ok(text) => Answer {
                held: Held::Built(text),
            },
            Err(_) => Answer::fault(TtFault::Memory),
        }
    }

    /// Returns `point` and the number, made without memory.
    pub(crate) fn point(number: u64) -> Answer
        ensures { result ≡ point_line number }
    {
        let mut text = ArrayString::new();
        text.push_str("point ");
        text.push_str(Buffer::new().format(number));
        text.push_str("\n");
        Answer {
            held: Held::Short(text),
        }
    }

    /// Returns `counts` and the two numbers, made without memory.
    pub(crate) fn counts(parts: usize, symbols: usize) -> Answer
        ensures { result ≡ counts_line parts symbols }
    {
        let mut text = ArrayString::new();
        text.push_str("counts ");
        text.push_str(Buffer::new().format(parts));
        text.push_str(" ");
        text.push_str(Buffer::new().format(symbols));
        text.push_str("\n");
        Answer {
            held: Held::Short(text),
        }
    }

    /// Returns `ok`.
    pub(crate) fn ok() -> Answer
        ensures { result ≡ ok_line }
    {
        Answer::fixed(b"ok\n")
    }

    /// Returns `empty`: a slot that a command reads contains no tree.
    pub(crate) fn empty() -> Answer
        ensures { result ≡ empty_line }
    {
        Answer::fixed(b"empty\n")
    }

    /// Returns `same`: a command puts a slot's own tree into it.
    pub(crate) fn same() -> Answer
        ensures { result ≡ same_line }
    {
        Answer::fixed(b"same\n")
    }

    /// Returns `no builder`: a command needs one.
    pub(crate) fn no_builder() -> Answer
        ensures { result ≡ no_builder_line }
    {
        Answer::fixed(b"no builder\n")
    }

    /// Returns `none open`: no subtree can be closed.
    pub(crate) fn none_open() -> Answer
        ensures { result ≡ none_open_line }
    {
        Answer::fixed(b"none open\n")
    }

    /// Returns `still open`: no tree can be built.
    pub(crate) fn still_open() -> Answer
        ensures { result ≡ still_open_line }
    {
        Answer::fixed(b"still open\n")
    }

    /// Returns `yes` or `no`.
    pub(crate) fn yes_or_no(yes: bool) -> Answer
        ensures { result ≡ (if yes then yes_line else no_line) }
    {
        if yes {
            Answer::fixed(b"yes\n")
        } else {
            Answer::fixed(b"no\n")
        }
    }

    /// Returns `ok`, or the fault.
    pub(crate) fn ok_or_fault(done: Result<(), TtFault>) -> Answer
        ensures { MatchResult done (λ _. result ≡ ok_line) (λ fault. result ≡ fault_line fault) }
    {
        match done {
            Ok(()) => Answer::ok(),
            Err(fault) => Answer::fault(fault),
        }
    }

    /// Returns `fault N`, made without memory.
    pub(crate) fn fault(fault: TtFault) -> Answer
        ensures { result ≡ fault_line fault }
    {
        Answer::fixed(match fault {
            TtFault::Memory => b"fault 1\n",
            TtFault::NotOneSubtree => b"fault 2\n",
            TtFault::NoSuchPlace => b"fault 3\n",
            TtFault::NotALeaf => b"fault 4\n",
            TtFault::SuffixTooLong => b"fault 5\n",
            TtFault::BadScan => b"fault 6\n",
            TtFault::TooManyTokens => b"fault 7\n",
            TtFault::TooManySpanParts => b"fault 8\n",
            TtFault::TooManySymbols => b"fault 9\n",
            TtFault::TooManyBytes => b"fault 10\n",
            TtFault::PointsSpent => b"fault 11\n",
        })
    }

    /// Returns `no match`: the input is no instance of the pattern.
    pub(crate) fn no_match() -> Answer
        ensures { result ≡ no_match_line }
    {
        Answer::fixed(b"no match\n")
    }

    /// Returns `rule N` for a fault of a rule, and `fault 1` if memory ran out. Made without memory.
    pub(crate) fn rule(fault: RuleFault) -> Answer
        ensures { result ≡ rule_line fault }
    {
        Answer::fixed(match fault {
            RuleFault::BadPattern => b"rule 1\n",
            RuleFault::BadTemplate => b"rule 2\n",
            RuleFault::DuplicateName => b"rule 3\n",
            RuleFault::UnknownName => b"rule 4\n",
            RuleFault::Memory => b"fault 1\n",
        })
    }

    /// Returns `ambiguous`: the input is an instance of a pattern in different ways.
    pub(crate) fn ambiguous() -> Answer
        ensures { result ≡ ambiguous_line }
    {
        Answer::fixed(b"ambiguous\n")
    }

    /// Returns `rule`, the number of the arm and that of its fault, for trees that are no
    /// macro; `fault 1` if memory ran out. Made without memory.
    pub(crate) fn no_macro(error: RulesError) -> Answer
        ensures { result ≡ rules_line error }
    {
        match arm_fault_number(error.fault) {
            Some(number) => Answer::arm(error.arm, number),
            None => Answer::fault(TtFault::Memory),
        }
    }

    /// Returns why the template of an arm is not filled: `rule` and two numbers, `lengths`, or the fault.
    pub(crate) fn unfilled(error: ExpandError) -> Answer
        ensures { result ≡ unfilled_line error }
    {
        match error.fault {
            TranscribeError::StillRepeats(_) => Answer::arm(error.arm, 10),
            TranscribeError::NothingRepeats(_) => Answer::arm(error.arm, 11),
            TranscribeError::LengthsDiffer(_) | TranscribeError::NoRound(_) => Answer::fixed(
                b"lengths\n",
            ),
            TranscribeError::OverLimit => Answer::fault(TtFault::TooManyTokens),
            TranscribeError::Tree(fault) => Answer::fault(fault),
        }
    }

    /// Returns why bytes are those of no tree, and the byte at which that shows; `fault 1` if memory ran out. Made without memory.
    pub(crate) fn wrong_bytes(fault: BytesFault) -> Answer
        ensures { result ≡ bytes_line fault }
    {
        match fault {
            BytesFault::Memory => Answer::fault(TtFault::Memory),
            BytesFault::TooShort(at) => Answer::bytes(at, " too short\n"),
            BytesFault::OtherFormat(at) => Answer::bytes(at, " another format\n"),
            BytesFault::NoText(at) => Answer::bytes(at, " no text\n"),
            BytesFault::NoTree(at) => Answer::bytes(at, " no tree\n"),
            BytesFault::StoredOtherwise(at) => Answer::bytes(at, " stored otherwise\n"),
        }
    }

    /// Returns why a tree is not written as Rust text; `fault 1` if memory ran out. Made without memory.
    pub(crate) fn unwritten(fault: WriteFault) -> Answer
        ensures { result ≡ unwritten_line fault }
    {
        match fault {
            WriteFault::NotWritable { at } => Answer::not_writable(at),
            WriteFault::TooLong => Answer::fault(TtFault::TooManyBytes),
            WriteFault::Memory => Answer::fault(TtFault::Memory),
        }
    }

    // Returns `not writable` and the flat place of the leaf.
    fn not_writable(at: usize) -> Answer
        ensures { result ≡ line (codes "not writable " ++ decimal at) }
    {
        let mut text = ArrayString::new();
        text.push_str("not writable ");
        text.push_str(Buffer::new().format(at));
        text.push_str("\n");
        Answer {
            held: Held::Short(text),
        }
    }

    // Returns `rule` and the two numbers.
    fn arm(arm: usize, number: usize) -> Answer
        ensures { result ≡ arm_line arm (Some number) }
    {
        let mut text = ArrayString::new();
        text.push_str("rule ");
        text.push_str(Buffer::new().format(arm));
        text.push_str(" ");
        text.push_str(Buffer::new().format(number));
        text.push_str("\n");
        Answer {
            held: Held::Short(text),
        }
    }

    // Returns `bytes`, the number, and the short text that follows it.
    fn bytes(at: usize, what: &str) -> Answer
        requires { length what.now ≤ 18 }
        ensures { result ≡ codes "bytes " ++ decimal at ++ what.now }
    {
        let mut text = ArrayString::new();
        text.push_str("bytes ");
        text.push_str(Buffer::new().format(at));
        text.push_str(what);
        Answer {
            held: Held::Short(text),
        }
    }
}
