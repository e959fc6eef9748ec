//! What a part of a pattern may come behind.
ghost use Rattle.std.specs.Prelude.{◌≡◌};
ghost use Rattle.mbe_follow.specs.Following.{token_next, separator_next, next_with, subtree_next, variable_next, may_follow};

use crate::token::{ends_expr, ends_pat, ends_ty, ends_vis, is_one};
use mbe_pattern::{Fragment, GrammarFragment};
use tt::{DelimiterKind, Leaf};

/// A part of a pattern: its number, and whether it may come right behind an expression or a statement, a pattern, a pattern without
/// alternatives, a type or a path, and a visibility.
#[derive(Clone, Copy)]
pub(crate) struct Next {
    pub(crate) number: usize,
    ends_expr: bool,
    ends_pat: bool,
    ends_pat_param: bool,
    ends_ty: bool,
    ends_vis: bool,
}

impl Next {
    /// Returns the token of that number, given whether `crate` follows it.
    pub(crate) fn of_token(number: usize, leaves: &[Leaf], before_crate: bool) -> Next
        ensures { result ≡ token_next number leaves.now before_crate }
    {
        Next {
            number,
            ends_expr: ends_expr(leaves),
            ends_pat: ends_pat(leaves),
            ends_pat_param: ends_pat(leaves) | is_one(leaves, '|'),
            ends_ty: ends_ty(leaves),
            ends_vis: ends_vis(leaves) | (before_crate & is_one(leaves, '$')),
        }
    }

    /// Returns the separator of that number, if there is one.
    pub(crate) fn of_separator(number: usize, leaves: &[Leaf]) -> Option<Next>
        ensures { result ≡ separator_next number leaves.now }
    {
        if leaves.is_empty() {
            None
        } else {
            Some(Next::of_token(number, leaves, false))
        }
    }

    // Returns a part that is no token, and may come behind a type and a visibility or not.
    fn with(number: usize, ty: bool, vis: bool) -> Next
        ensures { result ≡ next_with number ty vis }
    {
        Next {
            number,
            ends_expr: false,
            ends_pat: false,
            ends_pat_param: false,
            ends_ty: ty,
            ends_vis: vis,
        }
    }

    /// Returns the subtree of that number.
    pub(crate) fn of_subtree(number: usize, kind: DelimiterKind) -> Next
        ensures { result ≡ subtree_next number kind }
    {
        match kind {
            DelimiterKind::Parenthesis => Next::with(number, false, true),
            DelimiterKind::Brace => Next::with(number, true, false),
            DelimiterKind::Bracket => Next::with(number, true, true),
            DelimiterKind::Invisible | DelimiterKind::InvisibleOpaque => {
                Next::with(number, false, false)
            }
        }
    }

    /// Returns the variable of that number.
    pub(crate) fn of_variable(number: usize, fragment: Fragment) -> Next
        ensures { result ≡ variable_next number fragment }
    {
        match fragment {
            Fragment::Ident
            | Fragment::Grammar(GrammarFragment::Ty)
            | Fragment::Grammar(GrammarFragment::Path) => Next::with(number, false, true),
            Fragment::Block => Next::with(number, true, false),
            _ => Next::with(number, false, false),
        }
    }

    /// Returns whether the part may come right behind a variable of that fragment.
    pub(crate) fn may_follow(self, fragment: Fragment) -> bool
        ensures { result ≡ may_follow fragment self }
    {
        match fragment {
            Fragment::Vis => self.ends_vis,
            Fragment::Grammar(GrammarFragment::Expr)
            | Fragment::Grammar(GrammarFragment::Expr2021)
            | Fragment::Grammar(GrammarFragment::Stmt) => self.ends_expr,
            Fragment::Grammar(GrammarFragment::Pat) => self.ends_pat,
            Fragment::Grammar(GrammarFragment::PatParam) => self.ends_pat_param,
            Fragment::Grammar(GrammarFragment::Ty) | Fragment::Grammar(GrammarFragment::Path) =>
                self.ends_ty,
            _ => true,
        }
    }
}
