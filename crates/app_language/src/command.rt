//! The commands that a line may spell, and how a line is read.
ghost use Rattle.std.specs.Prelude.{◌≡◌, ◌++◌, IfOk, IfErr, IfSome, MatchOption};
ghost use Rattle.tt_base.specs.declared.fault.TtFault.TheVariants.{Memory};
ghost use Rattle.app_language.specs.Reading.{IsOneLine, IsTail, Reads};
ghost use Rattle.app_language.specs.Verb.{verb_word};

mod action;
mod front;
mod kinds;
mod numbers;
mod part;
mod span;
mod tokens;
mod verb;
mod view;
mod word;

use crate::digits::Digits;
use crate::many::Many;
use crate::slot::Slot;
pub use action::Action;
use front::after_item;
use part::Part;
use std::alloc::Global;
use tokens::token;
use tt_base::{Delimiter, DelimiterKind, Leaf, Span, Symbol, Texts, TokenTree, TtFault};
use verb::Verb;
pub use view::View;
use word::{Word, cut, first_word};

/// A command that a line spells.
#[derive(Debug, PartialEq, Eq, Drop)]
pub enum Command {
    /// Appends a token to the list.
    Item(TokenTree),
    /// Empties the list.
    Clear,
    /// Makes the list a tree, in the slot.
    List(Slot),
    /// Makes a builder, in place of any.
    New(Delimiter),
    /// Opens a subtree in the builder.
    Open(DelimiterKind, Span),
    /// Appends a leaf.
    Push(Leaf),
    /// Closes the subtree that was opened last.
    Close(Span),
    /// Appends a slot's tree.
    Append(Slot),
    /// Appends a slot's tree; its last token becomes alone if it is a punct.
    Alone(Slot),
    /// Removes the delimiter of the subtree that was closed last, if it is invisible.
    Unwrap,
    /// Takes a restore point.
    Point,
    /// Returns to the restore point of that number.
    Restore(u64),
    /// The kinds of the open subtrees, innermost first.
    Expected,
    /// How many different span parts and symbols the builder's tokens use.
    Counts,
    /// Builds the tree, in the slot.
    Build(Slot),
    /// Builds the tree without the top, if the top contains one subtree only.
    Skip(Slot),
    /// Copies a tree: to the first slot, from the second.
    Copy(Slot, Slot),
    /// Changes the kind of the top.
    Kind(Slot, DelimiterKind),
    /// Changes the spans of the top.
    Spans(Slot, Span, Span),
    /// Changes the leaf at a place of the flat list.
    Set(Slot, u32, Leaf),
    /// Sets the ids of the stored span parts, in order; the others keep theirs.
    Ids(Slot, Many<u32>),
    /// Rewrites a tree by these actions, in order; all later tokens are kept.
    Rewrite(Slot, Many<Action>),
    /// Expands a rule: its pattern is in the first slot, its template in the second, the input in the third. The result goes to the last.
    Expand(Slot, Slot, Slot, Slot),
    /// Expands a macro: its arms are in the first slot, the input in the second. The result goes to the third.
    Arms(Slot, Slot, Slot),
    /// The text of a slot's tree in one of its forms.
    View(View, Slot),
    /// How many tokens each piece between the puncts of that character has, below the top.
    Split(Slot, char),
    /// Whether two slots contain the same tree.
    Equal(Slot, Slot),
    /// A slot's tree as one piece of bytes.
    Save(Slot),
    /// Makes the tree of one piece of bytes, in the slot.
    Load(Slot, Digits),
    /// Reads a Rust text into a tree, in the slot.
    Read(Slot, Symbol),
    /// A slot's tree as Rust text.
    Text(Slot),
}

// For each verb, reads what follows it as the values of its command.
macro_rules! read {
    ($texts:expr, $rest:expr, $verb:expr; $($pattern:pat => $make:expr),+) => {
        match $verb {
            $($pattern => Ok(Part::read($texts, $rest)?.map($make)),)+
        }
    };
}

impl Command {
    ghost use Rattle.app_language.specs.Command.{CommandFits, IsNoCommand, StandsFor, spell};

    /// Reads the command that the line spells, if there is one. The line comes without its line feed. Fails only if memory runs out.
    pub fn parse(alloc: Global, line: &[u8]) -> Result<Option<Command>, TtFault>
        ensures reads { IfOk result (λ found. MatchOption found (IsNoCommand line.now) (StandsFor line.now)) }
        ensures one_line { IfOk result (λ found. IfSome found (λ _. IsOneLine line.now)) }
        ensures unique { (one other : Command) → StandsFor line.now one → StandsFor line.now other → one ≡ other }
        ensures err { IfErr result (λ fault. fault ≡ Memory) }
    {
        if cut(line, b'\n').is_some() {
            return Ok(None);
        }
        let mut texts = Texts::apart(alloc);
        Command::parse_with(&mut texts, line)
    }

    /// The same for a line without a line feed, which is not searched for again. The texts of tokens come from `texts`.
    #[inline(always)]
    pub fn parse_with(texts: &mut Texts, line: &[u8]) -> Result<Option<Command>, TtFault>
        requires one_line { IsOneLine line.now }
        ensures reads { IfOk result (λ found. MatchOption found (IsNoCommand line.now) (StandsFor line.now)) }
        ensures err { IfErr result (λ fault. fault ≡ Memory) }
    {
        if let Some(rest) = after_item(line) {
            return Ok(token(texts, rest)?.map(Command::Item));
        }
        Command::read(texts, line)
    }

    // Reads the first word, which says how to read the rest.
    fn read(texts: &mut Texts, line: &[u8]) -> Result<Option<Command>, TtFault>
        ensures reads { IfOk result (Reads spell CommandFits line.now) }
        ensures err { IfErr result (λ fault. fault ≡ Memory) }
    {
        let (word, rest) = first_word(line);
        let Some(verb) = Verb::read(word) else {
            return Ok(None);
        };
        Command::read_behind(texts, verb, rest)
    }

    // Reads the command of the verb from what follows the verb.
    fn read_behind(texts: &mut Texts, verb: Verb, rest: &[u8]) -> Result<Option<Command>, TtFault>
        requires tail { IsTail rest.now }
        ensures reads { IfOk result (Reads spell CommandFits (verb_word verb ++ rest.now)) }
        ensures err { IfErr result (λ fault. fault ≡ Memory) }
    {
        read!(texts, rest, verb;
            Verb::Item => Command::Item,
            Verb::Clear => |()| Command::Clear,
            Verb::List => |(slot, ())| Command::List(slot),
            Verb::New => |(kind, (open_span, (close, ())))|
                Command::New(Delimiter { open_span, close, kind }),
            Verb::Open => |(kind, (span, ()))| Command::Open(kind, span),
            Verb::Push => Command::Push,
            Verb::Close => |(span, ())| Command::Close(span),
            Verb::Append => |(slot, ())| Command::Append(slot),
            Verb::Alone => |(slot, ())| Command::Alone(slot),
            Verb::Unwrap => |()| Command::Unwrap,
            Verb::Point => |()| Command::Point,
            Verb::Restore => |(number, ())| Command::Restore(number),
            Verb::Expected => |()| Command::Expected,
            Verb::Counts => |()| Command::Counts,
            Verb::Build => |(slot, ())| Command::Build(slot),
            Verb::Skip => |(slot, ())| Command::Skip(slot),
            Verb::Copy => |(to, (from, ()))| Command::Copy(to, from),
            Verb::Kind => |(slot, (kind, ()))| Command::Kind(slot, kind),
            Verb::Spans => |(slot, (open, (close, ())))| Command::Spans(slot, open, close),
            Verb::Set => |(slot, (place, leaf))| Command::Set(slot, place, leaf),
            Verb::Ids => |(slot, ids)| Command::Ids(slot, ids),
            Verb::Rewrite => |(slot, actions)| Command::Rewrite(slot, actions),
            Verb::Expand => |(pattern, (template, (input, (to, ()))))|
                Command::Expand(pattern, template, input, to),
            Verb::View(view) => |(slot, ())| Command::View(view, slot),
            Verb::Split => |(slot, char)| Command::Split(slot, char),
            Verb::Equal => |(left, (right, ()))| Command::Equal(left, right),
            Verb::Save => |(slot, ())| Command::Save(slot),
            Verb::Load => |(slot, digits)| Command::Load(slot, digits),
            Verb::Read => |(slot, text)| Command::Read(slot, text),
            Verb::Text => |(slot, ())| Command::Text(slot),
            Verb::Arms => |(arms, (input, (to, ())))| Command::Arms(arms, input, to)
        )
    }
}
