//! An action of a rewriting, as one word.
ghost use Rattle.app_language.specs.Token.{action_word, ActionFits};
ghost use Rattle.app_language.specs.WordLaws.{spaceless_action};

use crate::command::word::{Word, is, named};
use crate::slot::Slot;

/// What happens to a token that is shown.
#[derive(Debug, Clone, Copy, PartialEq, Eq)]
pub enum Action {
    /// The token stays.
    Keep,
    /// The token is removed.
    Remove,
    /// The trees of a slot replace the token.
    Put(Slot),
}

impl Word for Action {
    ghost spelling = { action_word };

    ghost fits = { ActionFits };

    fn read(word: &[u8]) -> Option<Action> {
        if let Some(slot) = word.strip_prefix(b"put:".as_slice()) {
            return Some(Action::Put(Slot::read(slot)?));
        }
        named!(word; b"keep" => Action::Keep, b"remove" => Action::Remove)
    }

    ghost has_no_space = { spaceless_action };
}
