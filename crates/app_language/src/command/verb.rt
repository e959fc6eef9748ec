//! The first word of a line.
use crate::command::view::View;
use crate::command::word::{Word, is, named};

/// What a command does, as the first word of its line.
#[derive(Clone, Copy)]
pub enum Verb {
    Item,
    Clear,
    List,
    New,
    Open,
    Push,
    Close,
    Append,
    Alone,
    Unwrap,
    Point,
    Restore,
    Expected,
    Counts,
    Build,
    Skip,
    Copy,
    Kind,
    Spans,
    Set,
    Ids,
    Rewrite,
    Expand,
    Arms,
    Split,
    Equal,
    Save,
    Load,
    Read,
    Text,
    View(View),
}

impl Word for Verb {
    ghost use Rattle.app_language.specs.Verb.{verb_word};
    ghost use Rattle.app_language.specs.WordLaws.{spaceless_verb};

    ghost spelling = { verb_word };

    ghost fits = { λ _. Unit {0} };

    fn read(word: &[u8]) -> Option<Verb> {
        if let Some(view) = View::read(word) {
            return Some(Verb::View(view));
        }
        named!(word;
            b"item" => Verb::Item,
            b"clear" => Verb::Clear,
            b"list" => Verb::List,
            b"new" => Verb::New,
            b"open" => Verb::Open,
            b"push" => Verb::Push,
            b"close" => Verb::Close,
            b"append" => Verb::Append,
            b"alone" => Verb::Alone,
            b"unwrap" => Verb::Unwrap,
            b"point" => Verb::Point,
            b"restore" => Verb::Restore,
            b"expected" => Verb::Expected,
            b"counts" => Verb::Counts,
            b"build" => Verb::Build,
            b"skip" => Verb::Skip,
            b"copy" => Verb::Copy,
            b"kind" => Verb::Kind,
            b"spans" => Verb::Spans,
            b"set" => Verb::Set,
            b"ids" => Verb::Ids,
            b"rewrite" => Verb::Rewrite,
            b"expand" => Verb::Expand,
            b"arms" => Verb::Arms,
            b"split" => Verb::Split,
            b"equal" => Verb::Equal,
            b"save" => Verb::Save,
            b"load" => Verb::Load,
            b"read" => Verb::Read,
            b"text" => Verb::Text
        )
    }

    ghost has_no_space = { λ verb _. spaceless_verb verb };
}
