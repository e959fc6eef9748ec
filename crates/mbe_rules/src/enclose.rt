//! Which trees become one subtree in the place of a use.
ghost use Rattle.std.specs.Prelude.{◌≡◌};
ghost use Rattle.tt.specs.Views.{trees_of};
ghost use Rattle.mbe_rules.specs.Enclosing.{is_one_piece, is_bound_as_one, is_more, is_type, is_joined, is_enclosed};

use mbe_pattern::{Fragment, GrammarFragment, pass, unit_size};
use tt::TokenTreesView;

// Returns whether the fragment is an expression, a type or a pattern.
fn is_one_piece(fragment: GrammarFragment) -> bool
    ensures { result ≡ is_one_piece fragment }
{
    match fragment {
        GrammarFragment::Expr
        | GrammarFragment::Expr2021
        | GrammarFragment::Ty
        | GrammarFragment::Pat
        | GrammarFragment::PatParam => true,
        GrammarFragment::Path
        | GrammarFragment::Stmt
        | GrammarFragment::Item
        | GrammarFragment::Meta => false,
    }
}

// Returns whether the fragment takes an expression, a type, a pattern or a literal, which may be a number after `-`.
fn is_bound_as_one(fragment: Fragment) -> bool
    ensures { result ≡ is_bound_as_one fragment }
{
    match fragment {
        Fragment::Grammar(which) => is_one_piece(which),
        Fragment::Literal => true,
        Fragment::Ident | Fragment::Lifetime | Fragment::Block | Fragment::Vis | Fragment::Tt =>
            false,
    }
}

// Returns whether the fragment takes a type.
fn is_type(fragment: Fragment) -> bool
    ensures { result ≡ is_type fragment }
{
    matches!(fragment, Fragment::Grammar(GrammarFragment::Ty))
}

// Returns whether there is more than one token or subtree.
fn is_more(trees: TokenTreesView<'_>) -> bool
    ensures { result ≡ is_more (trees_of trees.entry) }
{
    let mut rest = trees.iter();
    pass(&mut rest, unit_size(trees.iter()));
    !rest.is_empty()
}

// Returns whether the fragment took a type of one token, which `<` behind it would join.
fn is_joined(fragment: Fragment, less_follows: bool, trees: TokenTreesView<'_>) -> bool
    ensures { result ≡ is_joined fragment less_follows (trees_of trees.entry) }
{
    less_follows && is_type(fragment) && trees.iter().expect_ident_or_underscore().is_ok()
}

/// Returns whether what the fragment took becomes one subtree, if a `<` follows or does not. Without a fragment nothing was taken.
pub(crate) fn is_enclosed(
    fragment: Option<Fragment>,
    less_follows: bool,
    trees: TokenTreesView<'_>,
) -> bool
    ensures { result ≡ is_enclosed fragment less_follows (trees_of trees.entry) }
{
    match fragment {
        Some(fragment) => {
            is_bound_as_one(fragment) && is_more(trees) || is_joined(fragment, less_follows, trees)
        }
        None => false,
    }
}
