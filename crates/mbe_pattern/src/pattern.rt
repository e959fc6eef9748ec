//! What a pattern is made of.
ghost use Rattle.std.specs.Prelude.{◌≡◌};
ghost use Rattle.mbe_pattern.specs.Patterns.{may_be_none, may_be_more};
ghost use Rattle.mbe_pattern.specs.Spelling.{fragment_name, grammar_name};

use tt::Symbol;

/// What a variable takes.
#[derive(Clone, Copy)]
pub enum Fragment {
    /// An ident other than `_`.
    Ident,
    /// A literal or a truth value, which may stand after `-`.
    Literal,
    /// A `'` and its ident.
    Lifetime,
    /// A subtree in braces.
    Block,
    /// A visibility, or nothing before any tree.
    Vis,
    /// Any token or subtree.
    Tt,
    /// A piece of Rust, as far as its grammar reaches.
    Grammar(GrammarFragment),
}

/// A variable of a pattern. Its name may be `_`.
#[derive(Drop)]
pub struct Variable {
    pub name: Symbol,
    pub fragment: Fragment,
}

/// How many rounds a repetition has.
#[derive(Clone, Copy)]
pub enum RepeatKind {
    /// `*`: any number.
    ZeroOrMore,
    /// `+`: one or more.
    OneOrMore,
    /// `?`: none or one.
    ZeroOrOne,
}

/// A fragment of Rust's grammar.
#[derive(Debug, Clone, Copy, PartialEq, Eq)]
pub enum GrammarFragment {
    /// `expr`.
    Expr,
    /// `expr_2021`.
    Expr2021,
    /// `ty`.
    Ty,
    /// `pat`.
    Pat,
    /// `pat_param`.
    PatParam,
    /// `path`.
    Path,
    /// `stmt`.
    Stmt,
    /// `item`.
    Item,
    /// `meta`.
    Meta,
}

impl RepeatKind {
    /// Returns whether a repetition may have no round.
    pub fn may_be_none(self) -> bool
        ensures { result ≡ may_be_none self }
    {
        match self {
            RepeatKind::ZeroOrMore | RepeatKind::ZeroOrOne => true,
            RepeatKind::OneOrMore => false,
        }
    }

    /// Returns whether it may have more than one.
    pub fn may_be_more(self) -> bool
        ensures { result ≡ may_be_more self }
    {
        match self {
            RepeatKind::ZeroOrMore | RepeatKind::OneOrMore => true,
            RepeatKind::ZeroOrOne => false,
        }
    }
}

impl GrammarFragment {
    /// Returns the name of the fragment, as a pattern writes it.
    pub fn name(self) -> &'static str
        ensures { result.now ≡ grammar_name self }
    {
        match self {
            GrammarFragment::Expr => "expr",
            GrammarFragment::Expr2021 => "expr_2021",
            GrammarFragment::Ty => "ty",
            GrammarFragment::Pat => "pat",
            GrammarFragment::PatParam => "pat_param",
            GrammarFragment::Path => "path",
            GrammarFragment::Stmt => "stmt",
            GrammarFragment::Item => "item",
            GrammarFragment::Meta => "meta",
        }
    }
}

impl Fragment {
    /// Returns the name of the fragment, as a pattern writes it.
    pub fn name(self) -> &'static str
        ensures { result.now ≡ fragment_name self }
    {
        match self {
            Fragment::Ident => "ident",
            Fragment::Literal => "literal",
            Fragment::Lifetime => "lifetime",
            Fragment::Block => "block",
            Fragment::Vis => "vis",
            Fragment::Tt => "tt",
            Fragment::Grammar(fragment) => fragment.name(),
        }
    }
}
