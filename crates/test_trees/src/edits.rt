//! Trees that are rewritten by a callback.
use crate::tokens::{header, holds, ident, punct, tree_of};
use std::alloc::{AllocError, Global};
use std::test::Fail;
use tt::{DelimiterKind, Spacing, TokenTree, TopSubtree, TransformTtAction, TtFault, transform_tt};

// The kind of delimiter that opens so.
fn kind_of(char: char) -> Option<DelimiterKind> {
    match char {
        '(' => Some(DelimiterKind::Parenthesis),
        '{' => Some(DelimiterKind::Brace),
        '[' => Some(DelimiterKind::Bracket),
        '$' => Some(DelimiterKind::Invisible),
        _ => None,
    }
}

// The token that a character spells, behind a delimiter of that kind.
fn token(alloc: Global, kind: DelimiterKind, char: char) -> Result<TokenTree, TtFault> {
    if let Some(len) = char.to_digit(10) {
        return Ok(header(kind, 1, 2, len));
    }
    if !char.is_ascii_alphabetic() {
        return Ok(punct(char, Spacing::Alone));
    }
    let text = format!(in alloc; "{char}")?;
    ident(alloc, text.as_str(), 3)
}

// The tokens that a text spells: a letter is an ident, and an opening delimiter with a digit the header of a subtree of that
// kind that holds so many tokens. Any other character is a punct.
fn spelled(alloc: Global, text: &str) -> Result<Vec<TokenTree>, TtFault> {
    let mut tokens = Vec::new(alloc);
    let mut kind = DelimiterKind::Invisible;
    for char in text.chars() {
        match kind_of(char) {
            Some(opened) => kind = opened,
            None => tokens.push(token(alloc, kind, char)?)?,
        }
    }
    Ok(tokens)
}

// The tree that a text spells.
fn tree(alloc: Global, text: &str) -> Result<TopSubtree, TtFault> {
    tree_of(alloc, spelled(alloc, text)?)
}

// A tree rewritten by a callback that gives those answers in turn, behind which all is kept. The tokens that are shown for that
// go to the list.
fn rewrite(
    alloc: Global,
    changed: &mut TopSubtree,
    answers: &[TransformTtAction<'_>],
    shown: &mut Vec<TokenTree>,
) -> Result<(), TtFault> {
    transform_tt(alloc, changed, |token| {
        let answer = answers.get(shown.len());
        if let Ok(copy) = token.clone() {
            let _noted = shown.push(copy);
        }
        match answer {
            Some(answer) => *answer,
            None => TransformTtAction::Keep,
        }
    })
}

// Whether the tokens are those that a text spells.
fn are_spelled(alloc: Global, found: &[TokenTree], text: &str) -> Result<bool, TtFault> {
    Ok(found == spelled(alloc, text)?.as_slice())
}

// A tree, the tokens that are shown when it is rewritten, the tree that is there then, and how the rewriting ends.
type Rewriting<'a> = (&'a str, &'a str, &'a str, Result<(), TtFault>);

// Whether a rewriting of the tree by those answers shows the row's tokens, and ends as the row says.
fn shows(
    alloc: Global,
    changed: &mut TopSubtree,
    answers: &[TransformTtAction<'_>],
    row: &Rewriting<'_>,
) -> Result<bool, TtFault> {
    let mut shown = Vec::new(alloc);
    let ended = rewrite(alloc, changed, answers, &mut shown);
    Ok(ended == row.3 && are_spelled(alloc, shown.as_slice(), row.1)?)
}

// Whether the tree is the one that a text spells.
fn is_spelled(alloc: Global, found: &TopSubtree, text: &str) -> Result<bool, TtFault> {
    Ok(*found == tree(alloc, text)?)
}

// Whether a rewriting of the row's tree does so, and leaves the tree that the row says. The callback gives those answers in
// turn, behind which all is kept.
fn is_rewritten(
    alloc: Global,
    answers: &[TransformTtAction<'_>],
    row: &Rewriting<'_>,
) -> Result<bool, TtFault> {
    let mut changed = tree(alloc, row.0)?;
    if !shows(alloc, &mut changed, answers, row)? {
        return Ok(false);
    }
    is_spelled(alloc, &changed, row.2)
}

// The answer that a letter spells: `k` keeps, `r` removes, `p` puts a bracket with its header, `o` what it holds, and `t` the
// two trees that the pair holds.
fn answer<'a>(
    letter: char,
    bracket: &'a TopSubtree,
    pair: &'a TopSubtree,
) -> TransformTtAction<'a> {
    match letter {
        'r' => TransformTtAction::remove(),
        'p' => TransformTtAction::ReplaceWith(bracket.as_token_trees()),
        'o' => TransformTtAction::ReplaceWith(bracket.token_trees()),
        't' => TransformTtAction::ReplaceWith(pair.token_trees()),
        _ => TransformTtAction::Keep,
    }
}

// The answers that a text spells.
fn answers_of<'a>(
    alloc: Global,
    text: &str,
    bracket: &'a TopSubtree,
    pair: &'a TopSubtree,
) -> Result<Vec<TransformTtAction<'a>>, AllocError> {
    let mut answers = Vec::new(alloc);
    for letter in text.chars() {
        answers.push(answer(letter, bracket, pair))?;
    }
    Ok(answers)
}

// Why a tree is not rewritten here.
const REFUSED: Result<(), TtFault> = Err(TtFault::NotOneSubtree);

// Answers, and what they make. Behind the last answer all is kept.
const REWRITINGS: [(&str, Rewriting<'_>); 10] = [
    ("kkkk", ("(2a;", "(2a;", "(2a;", Ok(()))),
    ("kp", ("(2a;", "(2a;", "(3[1b;", Ok(()))),
    ("kr", ("(2a;", "(2a;", "(1;", Ok(()))),
    ("p", ("(2a;", "(2", "[1b", Ok(()))),
    ("r", ("(2a;", "(2", "(2a;", REFUSED)),
    ("o", ("(2a;", "(2", "(2a;", REFUSED)),
    ("t", ("(2a;", "(2", "(2a;", REFUSED)),
    // the counts of all that held what went
    ("kkkr", ("$3{2ab", "$3{2ab", "$2{1a", Ok(()))),
    // what a replaced subtree holds is not shown
    ("ktkp", ("(7{3[1ab;[1c", "(7{3;[1", "(5xy;[1b", Ok(()))),
    // no answer at all
    ("", ("(2a;", "(2a;", "(2a;", Ok(()))),
];

// Whether the answers of those letters rewrite as the row says. What is put is a bracket over an ident, with its header or
// without, or two idents.
fn rewrite_so(
    alloc: Global,
    letters: &str,
    row: &Rewriting<'_>,
    bracket: &TopSubtree,
    pair: &TopSubtree,
) -> Result<bool, TtFault> {
    is_rewritten(
        alloc,
        answers_of(alloc, letters, bracket, pair)?.as_slice(),
        row,
    )
}

// Whether all rows are so.
fn are_rewritten(alloc: Global, bracket: &TopSubtree, pair: &TopSubtree) -> Result<bool, TtFault> {
    for (letters, row) in &REWRITINGS {
        if !rewrite_so(alloc, letters, row, bracket, pair)? {
            return Ok(false);
        }
    }
    Ok(true)
}

#[test]
fn trees_rewritten(rt: HostRuntime) -> Result<(), Fail> {
    let bracket = tree(rt.alloc(), "[1b")?;
    let pair = tree(rt.alloc(), "$2xy")?;
    holds(are_rewritten(rt.alloc(), &bracket, &pair))
}
