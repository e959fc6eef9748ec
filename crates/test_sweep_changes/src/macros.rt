//! Calls that make a macro of a tree, and use it on another.
use mbe_rules::{ArmFault, Expansion, MacroRules, TranscribeError};
use std::alloc::Global;
use syntax_parse::{TextFault, parse_to_token_tree};
use test_sweep::{Call, When, judge};
use tt::{ErasedFileAstId, FileId, SpanAnchor, SyntaxContext, TopSubtree, TtFault};

// Two arms, of which the second takes the input: lists in lists, with separators, in subtrees, of expressions, which the grammar reads. The
// template of the first shows a fault.
const ARMS: &str = "(a) => {$()*}; ($($k:ident => [$($v:expr),*]);* $(;)?) => {$($k { $($v)* })*}";

const INPUT: &str = "a => [1 + 2, 3]; b => []; c => [d(e).f];";

/// How that call of the group ended.
pub fn judged<R: Print>(rt: &R, alloc: Global, call: &str) -> Result<&'static str, TtFault> {
    let arms = tree_of(alloc, ARMS)?;
    let input = tree_of(alloc, INPUT)?;
    let rules = rules_of(alloc, &arms)?;
    let Some(after) = expanded(alloc, &rules, &input)? else {
        return Err(TtFault::NoSuchPlace);
    };
    let mut call = Macro {
        call,
        alloc,
        arms: &arms,
        rules: &rules,
        input: &input,
        after: &after,
    };
    Ok(judge(rt, &mut call))
}

// The tree of a text that is one.
fn tree_of(alloc: Global, text: &str) -> Result<TopSubtree, TtFault> {
    let anchor = SpanAnchor {
        file_id: FileId(0),
        ast_id: ErasedFileAstId(0),
    };
    match parse_to_token_tree(alloc, anchor, SyntaxContext(0), text) {
        Ok(tree) => Ok(tree),
        Err(TextFault::Limit(fault)) => Err(fault),
        Err(_) => Err(TtFault::NotOneSubtree),
    }
}

// The macro of these arms, which have no fault, so there is one or no memory.
fn rules_of(alloc: Global, arms: &TopSubtree) -> Result<MacroRules, TtFault> {
    match MacroRules::new(alloc, arms.token_trees().iter()) {
        Ok(rules) => Ok(rules),
        Err(error) => match error.fault {
            ArmFault::Memory => Err(TtFault::Memory),
            _ => Err(TtFault::NotOneSubtree),
        },
    }
}

// The expansion of the input, if there is one.
fn expanded(
    alloc: Global,
    rules: &MacroRules,
    input: &TopSubtree,
) -> Result<Option<TopSubtree>, TtFault> {
    match rules.expand(alloc, input.token_trees().iter()) {
        Ok(Expansion::Tree(tree)) => Ok(Some(tree)),
        Ok(Expansion::NoMatch(_)) | Ok(Expansion::Ambiguous(_)) => Ok(None),
        Err(error) => match error.fault {
            TranscribeError::Tree(fault) => Err(fault),
            TranscribeError::StillRepeats(_)
            | TranscribeError::NothingRepeats(_)
            | TranscribeError::LengthsDiffer(_)
            | TranscribeError::NoRound(_)
            | TranscribeError::OverLimit => Err(TtFault::NotOneSubtree),
        },
    }
}

// The arms of a macro, that macro, an input for it, and its expansion.
#[derive(Clone, Copy)]
struct Macro<'a> {
    call: &'a str,
    alloc: Global,
    arms: &'a TopSubtree,
    rules: &'a MacroRules,
    input: &'a TopSubtree,
    after: &'a TopSubtree,
}

impl Call for Macro<'_> {
    fn make(&mut self) -> Result<bool, TtFault> {
        match self.call {
            "MacroRules::new" => self.is_made(),
            "MacroRules::expand" => self.expands(),
            "MacroRules::waiting" => self.waits(),
            "MacroRules::faults" => self.shows(),
            _ => Ok(false),
        }
    }

    // It has only references.
    fn is_left(&self, _when: When) -> Result<bool, TtFault> {
        Ok(true)
    }
}

impl Macro<'_> {
    fn is_made(&self) -> Result<bool, TtFault> {
        rules_of(self.alloc, self.arms)?;
        Ok(true)
    }

    fn expands(&self) -> Result<bool, TtFault> {
        match expanded(self.alloc, self.rules, self.input)? {
            Some(tree) => Ok(tree == *self.after),
            None => Ok(false),
        }
    }

    // Before the input the `;` and the end of the second arm wait, since its first repetition may have no round.
    fn waits(&self) -> Result<bool, TtFault> {
        let input = self.input.token_trees().iter();
        Ok(self.rules.waiting(self.alloc, input, 0)?.len() == 2)
    }

    fn shows(&self) -> Result<bool, TtFault> {
        Ok(self.rules.faults(self.alloc)?.len() == 1)
    }
}
