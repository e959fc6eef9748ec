//! What a `$` of a pattern begins, read from what follows it.
ghost use Rattle.std.specs.Prelude.{◌≡◌, ◌≤◌, IfOk, option_map};
ghost use Rattle.tt.specs.Forest.{size};
ghost use Rattle.tt.specs.Gluing.{after_trees};
ghost use Rattle.tt.specs.Iters.{rest_of};
ghost use Rattle.mbe_pattern.specs.Dollars.{tail_of, dollar_of};
ghost use Rattle.mbe_pattern.specs.Spelling.{is_dollar, grammar_named, fragment_named, fragment_in, variable_in, repeat_kind_of, as_repeat_kind, tail_in, is_parenthesis, repetition_in, is_crate_in, is_token_before, dollar_in};
ghost use Rattle.mbe_pattern.specs.Units.{front_leaves, first_unit};

use crate::front::pass;
use crate::pattern::{Fragment, GrammarFragment, RepeatKind, Variable};
use crate::units::unit_size;
use std::alloc::{AllocError, Global};
use tt::{DelimiterKind, IdentIsRaw, Leaf, Symbol, TtElement, TtIter};

/// What follows the inside of a repetition: a separator or none, and its kind.
#[derive(Drop)]
pub struct Tail {
    pub separator: Vec<Leaf>,
    pub kind: RepeatKind,
}

/// What a `$` begins.
#[derive(Drop)]
pub(crate) enum Dollar {
    Variable(Variable),
    Repetition(Tail),
    /// The `$` is a token.
    Token,
    Nothing,
}

/// Returns whether the leaf is the punct `$`.
pub fn is_dollar(leaf: &Leaf) -> bool
    ensures { result ≡ is_dollar leaf.now }
{
    match leaf {
        Leaf::Punct(punct) => punct.char == '$',
        Leaf::Literal(_) | Leaf::Ident(_) => false,
    }
}

/// Returns the first `count` leaves, or fewer if a subtree or the end comes before.
pub(crate) fn front_leaves(
    alloc: Global,
    count: usize,
    mut trees: TtIter<'_>,
) -> Result<Vec<Leaf>, AllocError>
    ensures { IfOk result (λ leaves. leaves.items ≡ front_leaves count (rest_of trees.entry)) }
{
    let mut leaves = Vec::with_capacity(alloc, count)?;
    for _ in 0..count {
        let Ok(leaf) = trees.expect_leaf() else {
            return Ok(leaves);
        };
        leaves.push(leaf)?;
    }
    Ok(leaves)
}

// Returns the leaves of the first token; none if no leaf comes first.
fn first_unit(alloc: Global, trees: TtIter<'_>) -> Result<Vec<Leaf>, AllocError>
    ensures { IfOk result (λ leaves. leaves.items ≡ first_unit (rest_of trees.entry)) }
{
    let count = unit_size(trees.remaining().iter());
    front_leaves(alloc, count, trees)
}

impl GrammarFragment {
    // Returns the fragment of Rust's grammar that has that name.
    fn named(name: &Symbol) -> Option<GrammarFragment>
        ensures { result ≡ grammar_named name.now }
    {
        match name.as_str() {
            "expr" => Some(GrammarFragment::Expr),
            "expr_2021" => Some(GrammarFragment::Expr2021),
            "ty" => Some(GrammarFragment::Ty),
            "pat" => Some(GrammarFragment::Pat),
            "pat_param" => Some(GrammarFragment::PatParam),
            "path" => Some(GrammarFragment::Path),
            "stmt" => Some(GrammarFragment::Stmt),
            "item" => Some(GrammarFragment::Item),
            "meta" => Some(GrammarFragment::Meta),
            _ => None,
        }
    }
}

impl Fragment {
    // Returns the fragment of that name.
    fn named(name: &Symbol) -> Option<Fragment>
        ensures { result ≡ fragment_named name.now }
    {
        match name.as_str() {
            "ident" => Some(Fragment::Ident),
            "literal" => Some(Fragment::Literal),
            "lifetime" => Some(Fragment::Lifetime),
            "block" => Some(Fragment::Block),
            "vis" => Some(Fragment::Vis),
            "tt" => Some(Fragment::Tt),
            _ => Some(Fragment::Grammar(GrammarFragment::named(name)?)),
        }
    }
}

// Returns the variable whose `$` precedes these siblings.
fn variable_in(mut siblings: TtIter<'_>) -> Option<Variable>
    ensures { result ≡ variable_in (rest_of siblings.entry) }
{
    let ident = siblings.expect_ident_or_underscore().ok()?;
    siblings.expect_char(':').ok()?;
    let fragment = Fragment::named(&siblings.expect_ident_or_underscore().ok()?.sym)?;
    Some(Variable {
        name: ident.sym,
        fragment,
    })
}

// Returns the kind of repetition that a token spells, if it is one punct.
fn as_repeat_kind(leaves: &[Leaf]) -> Option<RepeatKind>
    ensures { result ≡ as_repeat_kind leaves.now }
{
    if leaves.len() != 1 {
        return None;
    }
    let Leaf::Punct(punct) = &leaves[0] else {
        return None;
    };
    match punct.char {
        '*' => Some(RepeatKind::ZeroOrMore),
        '+' => Some(RepeatKind::OneOrMore),
        '?' => Some(RepeatKind::ZeroOrOne),
        _ => None,
    }
}

// Returns the tail at the front, if there is one.
fn tail_in(alloc: Global, mut siblings: TtIter<'_>) -> Result<Option<Tail>, AllocError>
    ensures { IfOk result (λ tail. option_map tail_of tail ≡ tail_in (rest_of siblings.entry)) }
{
    let token = first_unit(alloc, siblings.remaining().iter())?;
    if let Some(kind) = as_repeat_kind(&token) {
        return Ok(Some(Tail {
            separator: Vec::new(alloc),
            kind,
        }));
    }
    if token.is_empty() {
        return Ok(None);
    }
    pass(&mut siblings, token.len());
    let operator = first_unit(alloc, siblings)?;
    match as_repeat_kind(&operator) {
        Some(kind) => Ok(Some(Tail {
            separator: token,
            kind,
        })),
        None => Ok(None),
    }
}

/// Returns the tail after parentheses, if both come first. Fails only if memory runs out.
pub fn repetition_in(alloc: Global, mut siblings: TtIter<'_>) -> Result<Option<Tail>, AllocError>
    ensures { IfOk result (λ tail. option_map tail_of tail ≡ repetition_in (rest_of siblings.entry)) }
{
    match siblings.next() {
        Some(TtElement::Subtree(header, _)) => {
            if header.delimiter.kind == DelimiterKind::Parenthesis {
                tail_in(alloc, siblings)
            } else {
                Ok(None)
            }
        }
        _ => Ok(None),
    }
}

/// Returns whether the first tree is the plain ident `crate`.
pub fn is_crate_in(mut siblings: TtIter<'_>) -> bool
    ensures { result ≡ is_crate_in (rest_of siblings.entry) }
{
    match siblings.expect_ident_or_underscore() {
        Ok(ident) => matches!(
            (ident.is_raw, ident.sym.as_str()),
            (IdentIsRaw::No, "crate")
        ),
        Err(()) => false,
    }
}

// Returns whether a `$` before these siblings is a token: `crate` follows it, or nothing.
fn is_token_before(siblings: TtIter<'_>) -> bool
    ensures { result ≡ is_token_before (rest_of siblings.entry) }
{
    is_crate_in(siblings.remaining().iter()) || siblings.is_empty()
}

/// Returns what a `$` before these siblings begins.
pub(crate) fn dollar_in(alloc: Global, siblings: TtIter<'_>) -> Result<Dollar, AllocError>
    ensures { IfOk result (λ dollar. dollar_of dollar ≡ dollar_in (rest_of siblings.entry)) }
{
    if let Some(tail) = repetition_in(alloc, siblings.remaining().iter())? {
        return Ok(Dollar::Repetition(tail));
    }
    if is_token_before(siblings.remaining().iter()) {
        return Ok(Dollar::Token);
    }
    match variable_in(siblings) {
        Some(variable) => Ok(Dollar::Variable(variable)),
        None => Ok(Dollar::Nothing),
    }
}
