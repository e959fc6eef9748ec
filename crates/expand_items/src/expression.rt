//! Expansions in the place of an expression: how they begin, how they end, and what follows them.
ghost use Rattle.std.specs.Prelude.{◌≡◌, ◌&&◌, not};
ghost use Rattle.tt.specs.Forest.{leaf as leaf_of};
ghost use Rattle.tt.specs.Iters.{rest_of};
ghost use Rattle.tt.specs.Moves.{after_tree};
ghost use Rattle.tt.specs.Siblings.{is_end};
ghost use Rattle.tt.specs.Views.{trees_of};
ghost use Rattle.mbe_pattern.specs.Units.{is_brace};
ghost use Rattle.expand_items.specs.Expressions.{are_statements, begins_block, begins_with_block, block_goes_on, enclosure_at_start, ends_with_semicolon, fits_before, goes_on, has_no_block, has_semicolon, is_at_arrow, is_at_assignment, is_at_block, is_at_braces, is_at_call, is_at_invisible, is_at_subtree, is_invisible, is_last_semicolon, is_split, may_end, needs_no_semicolon, takes_block, without_semicolon};

use mbe_pattern::{is_at_punct, is_at_word, take, unit_size};
use tt::{DelimiterKind, IdentIsRaw, Leaf, TokenTreesView, TtElement, TtIter};

/// How the expansion of a call is enclosed in its place.
#[derive(Debug, Clone, Copy, PartialEq, Eq)]
pub enum Enclosure {
    /// Not at all.
    Bare,
    /// As one opaque subtree, whose text has parentheses if it is several trees.
    Opaque,
    /// In parentheses.
    Parentheses,
    /// It is refused: it is statements, and one expression is wanted there.
    Refused,
}

// Returns whether a subtree of a kind has braces.
fn is_brace(kind: DelimiterKind) -> bool
    ensures { result ≡ is_brace kind }
{
    kind == DelimiterKind::Brace
}

// Returns whether braces come first.
fn is_at_braces(mut trees: TtIter<'_>) -> bool
    ensures { result ≡ is_at_braces (rest_of trees.entry) }
{
    match trees.next() {
        Some(TtElement::Subtree(header, _)) => header.delimiter.kind == DelimiterKind::Brace,
        _ => false,
    }
}

// Returns whether an expression that begins with a word begins with a block.
fn begins_with_block(word: &str) -> bool
    ensures { result ≡ begins_with_block word.now }
{
    match word {
        "if" | "match" | "loop" | "while" | "for" | "unsafe" | "const" | "async" => true,
        _ => false,
    }
}

// Returns whether a subtree of a kind has no brackets.
pub(crate) fn is_invisible(kind: DelimiterKind) -> bool
    ensures { result ≡ is_invisible kind }
{
    match kind {
        DelimiterKind::Invisible | DelimiterKind::InvisibleOpaque => true,
        DelimiterKind::Parenthesis | DelimiterKind::Brace | DelimiterKind::Bracket => false,
    }
}

// Returns whether a leaf before these trees begins an expression that begins with a block.
fn is_block_word(leaf: &Leaf, mut behind: TtIter<'_>) -> bool
    ensures { result ≡ begins_block (leaf_of leaf.now (rest_of behind.entry)) }
{
    match leaf {
        Leaf::Punct(punct) => punct.char == '\'',
        Leaf::Ident(ident) => match ident.is_raw {
            IdentIsRaw::Yes => false,
            IdentIsRaw::No => {
                begins_with_block(ident.sym.as_str())
                    || behind.expect_char('!').is_ok() && is_at_braces(behind)
            }
        },
        Leaf::Literal(_) => false,
    }
}

// Returns whether an expression of these trees begins with a block: with braces, a word such as `if` or `unsafe`, a label, a call in
// braces, or an invisible subtree that does. At the beginning of a statement, it ends with that block.
fn begins_block(mut trees: TtIter<'_>) -> bool
    ensures { result ≡ begins_block (rest_of trees.entry) }
{
    'trees: loop {
        match trees.next() {
            Some(TtElement::Subtree(header, inside)) => {
                if !is_invisible(header.delimiter.kind) {
                    return is_brace(header.delimiter.kind);
                }
                trees = inside;
            }
            Some(TtElement::Leaf(leaf)) => return is_block_word(&leaf, trees),
            None => return false,
        }
    }
}

// Returns whether a subtree comes first.
fn is_at_subtree(mut trees: TtIter<'_>) -> bool
    ensures { result ≡ is_at_subtree (rest_of trees.entry) }
{
    match trees.next() {
        Some(TtElement::Subtree(_, _)) => true,
        _ => false,
    }
}

// Returns whether a call of a macro by its name comes first: it may become a block.
fn is_at_call(mut trees: TtIter<'_>) -> bool
    ensures { result ≡ is_at_call (rest_of trees.entry) }
{
    match trees.next() {
        Some(TtElement::Leaf(Leaf::Ident(_))) => {
            trees.expect_char('!').is_ok() && is_at_subtree(trees)
        }
        _ => false,
    }
}

// Returns whether something follows the first braces, and each that come after `else`.
fn block_goes_on(mut trees: TtIter<'_>) -> bool
    ensures { result ≡ block_goes_on (rest_of trees.entry) }
{
    while !trees.is_empty() {
        let is_block = is_at_braces(trees.remaining().iter());
        trees.next();
        if is_block && !is_at_word(trees.remaining().iter(), "else") {
            return !trees.is_empty();
        }
    }
    false
}

// Returns whether an expression of these trees ends before its end at the beginning of a statement or an arm, with the block that it
// begins with.
pub(crate) fn is_split(trees: TtIter<'_>) -> bool
    ensures { result ≡ is_split (rest_of trees.entry) }
{
    begins_block(trees.remaining().iter())
        && (block_goes_on(trees.remaining().iter()) || goes_on_behind_invisible(trees))
}

// Returns whether something follows the first tree, and that is an invisible subtree.
fn goes_on_behind_invisible(mut trees: TtIter<'_>) -> bool
    ensures { result ≡ (is_at_invisible (rest_of trees.entry) && not (is_end (after_tree (rest_of trees.entry)))) }
{
    match trees.next() {
        Some(TtElement::Subtree(header, _)) => {
            is_invisible(header.delimiter.kind) && !trees.is_empty()
        }
        _ => false,
    }
}

/// Returns whether the expression that a call in braces begins goes on after the call: with `.` or `?`.
pub(crate) fn goes_on(trees: TtIter<'_>) -> bool
    ensures { result ≡ goes_on (rest_of trees.entry) }
{
    unit_size(trees.remaining().iter()) == 1
        && (is_at_punct(trees.remaining().iter(), '.') || is_at_punct(trees, '?'))
}

// Returns whether `=>` comes first.
fn is_at_arrow(mut trees: TtIter<'_>) -> bool
    ensures { result ≡ is_at_arrow (rest_of trees.entry) }
{
    trees.expect_char('=').is_ok() && is_at_punct(trees, '>')
}

// Returns whether an expression may end before these trees, whatever it is: at the end, or before `,`, `;` or `=>`.
fn may_end(trees: TtIter<'_>) -> bool
    ensures { result ≡ may_end (rest_of trees.entry) }
{
    trees.is_empty()
        || is_at_punct(trees.remaining().iter(), ',')
        || is_at_punct(trees.remaining().iter(), ';')
        || is_at_arrow(trees)
}

// Returns whether a leaf before these trees makes a block of them, or takes the braces behind them: the `!` of a call, or `return`.
fn takes_block(leaf: &Leaf, behind: TtIter<'_>) -> bool
    ensures { result ≡ takes_block leaf.now (rest_of behind.entry) }
{
    match leaf {
        Leaf::Literal(_) => false,
        Leaf::Punct(punct) => punct.char == '!' && is_at_subtree(behind),
        Leaf::Ident(ident) => match ident.is_raw {
            IdentIsRaw::No => ident.sym.as_str() == "return",
            IdentIsRaw::Yes => false,
        },
    }
}

// Returns whether the first tree is, may become or takes a block: braces, an invisible subtree, the `!` of a call, or `return`.
fn is_at_block(mut trees: TtIter<'_>) -> bool
    ensures { result ≡ is_at_block (rest_of trees.entry) }
{
    match trees.next() {
        Some(TtElement::Leaf(leaf)) => takes_block(&leaf, trees),
        Some(TtElement::Subtree(header, _)) => {
            is_brace(header.delimiter.kind) || is_invisible(header.delimiter.kind)
        }
        None => false,
    }
}

// Returns whether none of these trees is, may become or takes a block.
fn has_no_block(mut trees: TtIter<'_>) -> bool
    ensures { result ≡ has_no_block (rest_of trees.entry) }
{
    while !trees.is_empty() {
        if is_at_block(trees.remaining().iter()) {
            return false;
        }
        trees.next();
    }
    true
}

/// Returns whether an expression of these trees may end before others: before braces only if it has no block, as in `if a == b {}`.
pub(crate) fn fits_before(trees: TtIter<'_>, behind: TtIter<'_>) -> bool
    ensures { result ≡ fits_before (rest_of trees.entry) (rest_of behind.entry) }
{
    may_end(behind.remaining().iter()) || is_at_braces(behind) && has_no_block(trees)
}

/// Returns whether an `=` that is a token comes first.
pub(crate) fn is_at_assignment(trees: TtIter<'_>) -> bool
    ensures { result ≡ is_at_assignment (rest_of trees.entry) }
{
    unit_size(trees.remaining().iter()) == 1 && is_at_punct(trees, '=')
}

/// Returns how an expansion is enclosed at the beginning of a statement or an arm, before these trees.
pub(crate) fn enclosure_at_start(behind: TtIter<'_>, expansion: TtIter<'_>) -> Enclosure
    ensures { result ≡ enclosure_at_start (rest_of behind.entry) (rest_of expansion.entry) }
{
    if fits_before(expansion.remaining().iter(), behind) {
        if is_split(expansion) {
            Enclosure::Opaque
        } else {
            Enclosure::Bare
        }
    } else if begins_block(expansion.remaining().iter()) || is_at_call(expansion) {
        Enclosure::Parentheses
    } else {
        Enclosure::Opaque
    }
}

// Returns whether a `;` is the only tree.
fn is_last_semicolon(mut trees: TtIter<'_>) -> bool
    ensures { result ≡ is_last_semicolon (rest_of trees.entry) }
{
    trees.expect_char(';').is_ok() && trees.is_empty()
}

// Returns whether one of these trees is a `;`.
fn has_semicolon(mut trees: TtIter<'_>) -> bool
    ensures { result ≡ has_semicolon (rest_of trees.entry) }
{
    while !trees.is_empty() {
        if is_at_punct(trees.remaining().iter(), ';') {
            return true;
        }
        trees.next();
    }
    false
}

/// Returns whether these trees are statements and no expression: they begin with `let`, or one of them is a `;`.
pub(crate) fn are_statements(trees: TtIter<'_>) -> bool
    ensures { result ≡ are_statements (rest_of trees.entry) }
{
    is_at_word(trees.remaining().iter(), "let") || has_semicolon(trees)
}

// Returns whether the last of these trees is a `;`.
fn ends_with_semicolon(mut trees: TtIter<'_>) -> bool
    ensures { result ≡ ends_with_semicolon (rest_of trees.entry) }
{
    while !trees.is_empty() {
        if is_last_semicolon(trees.remaining().iter()) {
            return true;
        }
        trees.next();
    }
    false
}

/// Returns whether a statement of these trees needs no `;` behind them, if a `;` and others follow: the last of the trees is a `;`; or there
/// are none, and the `;` does not end a block, since it keeps an expression before it from being the value of the block.
pub(crate) fn needs_no_semicolon(trees: TtIter<'_>, mut behind: TtIter<'_>) -> bool
    ensures { result ≡ needs_no_semicolon (rest_of trees.entry) (rest_of behind.entry) }
{
    if trees.is_empty() {
        behind.next();
        !behind.is_empty()
    } else {
        ends_with_semicolon(trees)
    }
}

/// Returns the trees without a `;` at their end: the compiler drops it from an expansion that is an expression.
pub fn without_semicolon<'a>(mut trees: TtIter<'a>) -> TokenTreesView<'a>
    ensures { trees_of result ≡ without_semicolon (rest_of trees.entry) }
{
    let mut rest = trees.remaining().iter();
    let mut len = 0;
    'trees: while !rest.is_empty() && !is_last_semicolon(rest.remaining().iter()) {
        rest.next();
        len += 1;
    }
    take(&mut trees, len)
}
