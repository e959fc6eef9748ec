//! Single elements: which expectation takes which, what is looked at and not passed, and what is stripped.
use crate::tokens::{header, holds, ident, is_ident, parentheses, punct, span, tree_of, under};
use std::alloc::{AllocError, Global};
use std::test::Fail;
use tt::{
    DelimiterKind, Spacing, TokenTree, TokenTreesView, TopSubtree, TtElement, TtFault, TtIter,
};

// Whether the first sibling is taken for a dollar, a comma, one of `+` and `-`, and any punct.
fn taken_as_punct(trees: TokenTreesView<'_>) -> [bool; 4] {
    let (mut dollar, mut comma) = (trees.iter(), trees.iter());
    let (mut sign, mut any) = (trees.iter(), trees.iter());
    [
        dollar.expect_dollar().is_ok(),
        comma.expect_comma().is_ok(),
        sign.expect_any_char(&['+', '-']).is_ok(),
        any.expect_single_punct().is_ok(),
    ]
}

// Whether it is taken for an ident, an ident or `_`, and a literal.
fn taken_as_text(trees: TokenTreesView<'_>) -> [bool; 3] {
    let (mut ident, mut underscore, mut literal) = (trees.iter(), trees.iter(), trees.iter());
    [
        ident.expect_ident().is_ok(),
        underscore.expect_ident_or_underscore().is_ok(),
        literal.expect_literal().is_ok(),
    ]
}

// Whether it is taken for a leaf, and for a subtree.
fn taken_as_tree(trees: TokenTreesView<'_>) -> [bool; 2] {
    let (mut leaf, mut subtree) = (trees.iter(), trees.iter());
    [leaf.expect_leaf().is_ok(), subtree.expect_subtree().is_ok()]
}

// Whether the token is taken so.
fn is_taken(
    alloc: Global,
    token: TokenTree,
    as_punct: [bool; 4],
    as_text: [bool; 3],
) -> Result<bool, TtFault> {
    let tree = under(alloc, &[token])?;
    let is_right = taken_as_punct(tree.token_trees()) == as_punct;
    Ok(is_right && taken_as_text(tree.token_trees()) == as_text)
}

const PUNCTS: [(char, [bool; 4]); 4] = [
    ('$', [true, false, false, true]),
    ('#', [false, false, false, true]),
    (',', [false, true, false, true]),
    ('-', [false, false, true, true]),
];

// Whether each punct is taken so, and for no text.
fn are_puncts(alloc: Global) -> Result<bool, TtFault> {
    for (char, as_punct) in &PUNCTS {
        let token = punct(*char, Spacing::Alone);
        if !is_taken(alloc, token, *as_punct, [false, false, false])? {
            return Ok(false);
        }
    }
    Ok(true)
}

#[test]
fn puncts_taken(rt: HostRuntime) -> Result<(), Fail> {
    holds(are_puncts(rt.alloc()))
}

const IDENTS: [(&str, [bool; 3]); 4] = [
    ("a", [true, true, false]),
    ("_", [false, true, false]),
    ("true", [true, true, true]),
    ("false", [true, true, true]),
];

// Whether each ident is taken so, and for no punct.
fn are_idents(alloc: Global) -> Result<bool, TtFault> {
    for (text, as_text) in &IDENTS {
        let token = ident(alloc, text, 0)?;
        if !is_taken(alloc, token, [false, false, false, false], *as_text)? {
            return Ok(false);
        }
    }
    Ok(true)
}

#[test]
fn idents_taken(rt: HostRuntime) -> Result<(), Fail> {
    holds(are_idents(rt.alloc()))
}

// Whether the token is taken for a leaf, and for a subtree, as these two say.
fn is_tree(alloc: Global, token: TokenTree, as_tree: [bool; 2]) -> Result<bool, TtFault> {
    let tree = under(alloc, &[token])?;
    Ok(taken_as_tree(tree.token_trees()) == as_tree)
}

// Whether an ident is taken for a leaf, parentheses for a subtree, and nothing for neither.
fn are_trees(alloc: Global) -> Result<bool, TtFault> {
    Ok(
        is_tree(alloc, ident(alloc, "a", 0)?, [true, false])?
            && is_tree(alloc, parentheses(0, 1, 0), [false, true])?
            && taken_as_tree(TokenTreesView::empty()) == [false, false],
    )
}

#[test]
fn trees_taken(rt: HostRuntime) -> Result<(), Fail> {
    holds(are_trees(rt.alloc()))
}

// An ident `a` at 1 and a punct.
fn two_siblings(alloc: Global, char: char) -> Result<TopSubtree, TtFault> {
    let name = ident(alloc, "a", 1)?;
    under(alloc, &[name, punct(char, Spacing::Alone)])
}

// Whether the next sibling is that ident, which is only looked at.
fn is_ahead(siblings: &TtIter<'_>) -> bool {
    match siblings.peek() {
        Some(TtElement::Leaf(leaf)) => {
            is_ident(&leaf, "a", 1) && siblings.next_span() == Some(span(1))
        }
        _ => false,
    }
}

// How many tokens the next sibling has, a savepoint in front of it has ahead, and are left behind it.
fn lengths(siblings: &mut TtIter<'_>) -> [usize; 3] {
    let start = siblings.savepoint();
    let passed = match siblings.next_as_view() {
        Some(passed) => passed.len(),
        None => 0,
    };
    [passed, start.remaining().len(), siblings.remaining().len()]
}

// Whether what is looked at is not passed, and a savepoint has what was left.
fn are_looked_at(alloc: Global) -> Result<bool, TtFault> {
    let tree = two_siblings(alloc, ';')?;
    let mut siblings = tree.iter();
    Ok(is_ahead(&siblings) && lengths(&mut siblings) == [1, 2, 1])
}

#[test]
fn elements_looked_at(rt: HostRuntime) -> Result<(), Fail> {
    holds(are_looked_at(rt.alloc()))
}

// A tree of that kind over one ident.
fn over_one(alloc: Global, kind: DelimiterKind) -> Result<TopSubtree, TtFault> {
    let name = ident(alloc, "a", 1)?;
    tree_of(alloc, vec![in alloc; header(kind, 0, 2, 1), name]?)
}

// Kinds of a tree over one ident, and how many tokens are left of it when it is stripped.
const STRIPPED: [(DelimiterKind, usize); 5] = [
    (DelimiterKind::Parenthesis, 2),
    (DelimiterKind::Brace, 2),
    (DelimiterKind::Bracket, 2),
    (DelimiterKind::Invisible, 1),
    (DelimiterKind::InvisibleOpaque, 2),
];

// Whether so many are left.
fn are_stripped(alloc: Global) -> Result<bool, TtFault> {
    for (kind, left) in &STRIPPED {
        let tree = over_one(alloc, *kind)?;
        let is_kind = tree.top_subtree().delimiter.kind == *kind;
        if !is_kind || tree.view().strip_invisible().len() != *left {
            return Ok(false);
        }
    }
    Ok(true)
}

#[test]
fn roots_stripped(rt: HostRuntime) -> Result<(), Fail> {
    holds(are_stripped(rt.alloc()))
}

// Whether an ident is no comma, and what is expected in vain is passed.
fn are_told_apart(siblings: &mut TtIter<'_>) -> bool {
    siblings.expect_char(',').is_err()
        && siblings.remaining().len() == 1
        && siblings.expect_char(',').is_ok()
        && siblings.expect_comma().is_err()
}

#[test]
fn single_elements(rt: HostRuntime) -> Result<(), Fail> {
    let tree = two_siblings(rt.alloc(), ',')?;
    holds(Ok(are_told_apart(&mut tree.iter())))
}

// Returns how many steps it takes to expect the puncts of one operator.
fn steps_of_glued(siblings: &mut TtIter<'_>) -> u64 {
    let start = siblings.steps();
    let _found = siblings.expect_glued_punct();
    siblings.steps().wrapping_sub(start)
}

// A joint punct of each of these characters.
fn joint(alloc: Global, chars: &str) -> Result<Vec<TokenTree>, AllocError> {
    let mut tokens = Vec::new(alloc);
    for char in chars.chars() {
        tokens.push(punct(char, Spacing::Joint))?;
    }
    Ok(tokens)
}

// Returns whether the puncts of the first operator are passed in that many steps.
fn takes_steps(alloc: Global, below: &[TokenTree], steps: u64) -> Result<bool, TtFault> {
    let tree = under(alloc, below)?;
    Ok(steps_of_glued(&mut tree.iter()) == steps)
}

// A step for each punct that is passed, and one for another element; what is only looked at counts for nothing.
const GLUED: [(&str, u64); 6] = [
    ("", 0),
    ("-", 1),
    ("-,", 1),
    ("->", 2),
    ("..,", 2),
    ("..=", 3),
];

// Whether joint puncts take so many steps, and an ident one.
fn take_steps(alloc: Global) -> Result<bool, TtFault> {
    for (chars, steps) in &GLUED {
        let puncts = joint(alloc, chars)?;
        if !takes_steps(alloc, puncts.as_slice(), *steps)? {
            return Ok(false);
        }
    }
    takes_steps(alloc, &[ident(alloc, "a", 0)?], 1)
}

#[test]
fn steps_of_puncts_that_stand_as_one(rt: HostRuntime) -> Result<(), Fail> {
    holds(take_steps(rt.alloc()))
}
