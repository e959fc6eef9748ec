//! The first name of a call's input that the expansion captures.
ghost use Rattle.std.specs.Prelude.{◌≡◌, false, List, IfOk};
ghost use Rattle.tt.specs.Forest.{flat};
ghost use Rattle.tt.specs.Iters.{rest_of};
ghost use Rattle.tt.specs.Views.{trees_of};
ghost use Rattle.mbe_grammar.specs.Names.{start};
ghost use Rattle.expand_hygiene.specs.declared.mention.Mention.{Mention as MentionOf};
ghost use Rattle.expand_hygiene.specs.Captures.{name_of, IsCapture};
ghost use Rattle.expand_hygiene.specs.Given.{IsGiven};
ghost use Rattle.expand_hygiene.specs.Walks.{IsUncaptured, AreUncaptured};

use crate::binder::first_capture_in;
use crate::given::Given;
use crate::mention::BindingKind;
use mbe_grammar::laws::are_judged;
use mbe_grammar::{Derived, EXPRESSION, ITEMS, STATEMENTS, derive, rust_table};
use std::alloc::{AllocError, Global};
use tt::{Leaf, Span, Symbol, TokenTree, TokenTreesView, TtIter};

/// What the expansion of a call must be, by the place of the call.
#[derive(Clone, Copy, Debug, PartialEq, Eq)]
pub enum ExpandTo {
    /// Items.
    Items,
    /// The statements of a block.
    Statements,
    /// An expression.
    Expr,
}

/// A name of the input that would mean something else in the text of the expansion.
#[derive(Debug, Drop)]
pub struct Capture {
    /// What the template binds the name to.
    pub kind: BindingKind,
    /// The name, without `r#` and without the `'` of a label.
    pub name: Symbol,
    /// The ident of the template that binds it.
    pub binding: Span,
    /// The first ident of the input with this name; of a label, the first behind a `'`.
    pub captured: Span,
}

// Returns the index of the expression of the grammar that the expansion must be.
fn start_of(expand_to: ExpandTo) -> usize
    ensures { result ≡ start (name_of expand_to) }
{
    match expand_to {
        ExpandTo::Items => ITEMS,
        ExpandTo::Statements => STATEMENTS,
        ExpandTo::Expr => EXPRESSION,
    }
}

// Returns whether a token is an ident of the template whose name the input has.
fn may_capture_by(given: &Given, token: &TokenTree) -> bool
    ensures { result ≡ false → (input : List MentionOf) → IsGiven given.now input → IsUncaptured input token.now }
{
    match token {
        TokenTree::Leaf(Leaf::Ident(ident)) => {
            given.captured(BindingKind::Local, ident).is_some()
                || given.captured(BindingKind::Label, ident).is_some()
        }
        _ => false,
    }
}

// Returns whether there is such a token.
fn may_capture(given: &Given, trees: TokenTreesView<'_>) -> bool
    ensures { result ≡ false → (input : List MentionOf) → IsGiven given.now input → AreUncaptured input (flat (trees_of trees.entry)) }
{
    for token in trees.iter_flat_tokens() {
        if may_capture_by(given, &token) {
            return true;
        }
    }
    false
}

/// Returns the first name of a call's input that the expansion captures, or none.
///
/// `input` are the trees in the brackets of the call, `expansion` what the template makes of them, before the calls in it are expanded. A
/// binding of the template captures a name if an ident of the input, at any depth, has the same name: of a label an ident behind a `'`, of a
/// local another one that is no keyword; `r#` does not count. A binding is an ident whose innermost name in the derivation is
/// `identifier_pattern`, `field_pattern` or `label`. The template wrote it if no ident of the input has the same text and span.
///
/// Such an ident of the input may still mean something else than a local, so a capture is a reason to warn. In turn, some captures are not
/// found:
/// - An ident that begins with an upper-case letter of ASCII is taken for a constant or a unit struct, which it is by convention. It binds
///   nothing.
/// - `self` in the parameters of a function binds nothing: the compiler never takes an input's `self` for it, so a program that compiles has
///   no such input.
/// - An ident that the same template wrote in an expansion around this one has the same span, so it counts as the input's.
/// - An expansion without a derivation captures nothing.
///
/// Takes time linear in the tokens of both. Derives the expansion only if an ident that the template wrote has a name of the input. Fails
/// only if memory runs out.
pub fn first_capture(
    alloc: Global,
    expand_to: ExpandTo,
    input: TtIter<'_>,
    expansion: TtIter<'_>,
) -> Result<Option<Capture>, AllocError>
    ensures { IfOk result (λ found. IsCapture expand_to (rest_of input.entry) (rest_of expansion.entry) found) }
{
    let given = Given::of(alloc, input.remaining())?;
    let trees = expansion.remaining();
    if !may_capture(&given, trees) {
        are_judged();
        return Ok(None);
    }
    match derive(alloc, rust_table(), start_of(expand_to), trees)? {
        Derived::Whole(events) => {
            let found = first_capture_in(alloc, &given, trees, &events)?;
            Ok(found)
        }
        Derived::Refused(_) => Ok(None),
    }
}
