//! The position of a tree among its siblings, as far as it matters to the tree.
ghost use Rattle.std.specs.Prelude.{◌≡◌, true};
ghost use Rattle.tt.specs.Iters.{rest_of};
ghost use Rattle.expand_items.specs.Positions.{angles_behind, is_block, begun, siblings_in, first_in, first_inside, behind, behind_attribute_sign, behind_punct, behind_ident, behind_leaf, behind_subtree, keeps_macros, ends_statement, is_statement, takes_semicolon, first_of_call, enclosure};

use crate::attribute::{begins_with_attribute, is_at_attribute_of, is_at_brackets};
use crate::expression::{
    Enclosure, are_statements, enclosure_at_start, fits_before, goes_on, is_invisible,
    needs_no_semicolon,
};
use crate::front::Front;
use crate::head::Head;
use mbe_pattern::is_at_punct;
use tt::{DelimiterKind, Ident, IdentIsRaw, Leaf, TtElement, TtIter};

/// The kind of the trees that lie side by side.
#[derive(Debug, Clone, Copy, PartialEq, Eq)]
pub enum Siblings {
    /// Items, as those of a file or a module are.
    Items,
    /// Statements, as those of a function's body are.
    Statements,
    /// Neither.
    Others,
}

/// The position of a tree among its siblings, as far as it matters to the tree.
#[derive(Clone, Copy)]
pub struct Position {
    siblings: Siblings,
    /// Whether a statement or an item may begin here.
    pub(crate) is_start: bool,
    /// What the words since the beginning of the item say.
    head: Head,
    /// The number of `<` of the item's header that are open here: braces in them are generic arguments.
    angles: usize,
    /// Whether `#[macro_use]` precedes, with nothing but attributes, idents and parentheses between.
    is_used: bool,
    /// Whether an attribute precedes, with nothing but attributes between.
    pub(crate) is_attributed: bool,
    /// Whether `#[macro_export]` precedes, with nothing but attributes between.
    is_exported: bool,
    /// Whether `#[rustc_builtin_macro]` does, or `#[rustc_builtin_macro(..)]`.
    is_built_in: bool,
    /// Whether `#` or `#!` is the last tree before.
    is_attribute: bool,
    /// Whether all siblings are under a condition that is not known to be true.
    is_under: bool,
    /// Whether a condition that is not known to be true is in force here: all siblings are under one, or one precedes the statement or the
    /// item that has begun.
    is_open: bool,
    /// Whether no brackets contain the siblings.
    is_top: bool,
    /// Whether the brackets of an attribute contain the siblings.
    is_in_attribute: bool,
    /// Whether brackets in those of an attribute do: the attribute gets their tokens as they are.
    is_verbatim: bool,
    /// What precedes the tree.
    front: Front,
}

impl Siblings {
    // Returns whether these siblings are statements or items.
    fn is_block(self) -> bool
        ensures { result ≡ is_block self }
    {
        match self {
            Siblings::Items | Siblings::Statements => true,
            Siblings::Others => false,
        }
    }
}

impl Position {
    /// Returns the position before the first of such siblings.
    pub fn begun(siblings: Siblings) -> Position
        ensures { result ≡ begun siblings }
    {
        Position {
            siblings,
            is_start: siblings.is_block(),
            head: Head::Unknown,
            angles: 0,
            is_used: false,
            is_attributed: false,
            is_exported: false,
            is_built_in: false,
            is_attribute: false,
            is_under: false,
            is_open: false,
            is_top: true,
            is_in_attribute: false,
            is_verbatim: false,
            front: Front::Free,
        }
    }

    // Returns what the trees in brackets of a kind are.
    fn siblings_in(self, kind: DelimiterKind) -> Siblings
        ensures { result ≡ siblings_in kind self }
    {
        if kind == DelimiterKind::Brace {
            self.head.held()
        } else {
            Siblings::Others
        }
    }

    /// Returns the position before the first of the trees in brackets of a kind that come here.
    pub fn first_in(self, kind: DelimiterKind) -> Position
        ensures { result ≡ first_in kind self }
    {
        Position {
            is_under: self.is_open,
            is_open: self.is_open,
            is_top: false,
            is_in_attribute: self.is_attribute && kind == DelimiterKind::Bracket,
            is_verbatim: self.is_verbatim || self.is_in_attribute,
            ..Position::begun(self.siblings_in(kind))
        }
    }

    /// Returns the position before the first of the trees in brackets of a kind that come here, with these trees behind them. What an
    /// invisible subtree contains is a statement if the subtree and a `;` are.
    pub fn first_inside(self, kind: DelimiterKind, behind: TtIter<'_>) -> Position
        ensures { result ≡ first_inside kind (rest_of behind.entry) self }
    {
        if self.is_start && is_invisible(kind) && is_at_punct(behind, ';') {
            Position {
                siblings: self.siblings,
                is_start: true,
                is_top: true,
                ..self.first_in(kind)
            }
        } else {
            self.first_in(kind)
        }
    }

    /// Returns the position after trees that end a statement or an item if `ends`.
    pub fn behind(self, ends: bool) -> Position
        ensures { result ≡ behind ends self }
    {
        Position {
            siblings: self.siblings,
            is_start: self.siblings.is_block() && ends,
            head: if ends { Head::Unknown } else { self.head },
            angles: if ends { 0 } else { self.angles },
            is_used: false,
            is_attributed: false,
            is_exported: false,
            is_built_in: false,
            is_attribute: false,
            is_under: self.is_under,
            is_open: if ends { self.is_under } else { self.is_open },
            is_top: self.is_top,
            is_in_attribute: self.is_in_attribute,
            is_verbatim: self.is_verbatim,
            front: Front::Bound,
        }
    }

    // Returns the position after `#`, before these trees.
    fn behind_attribute_sign(self, trees: TtIter<'_>, is_open: bool) -> Position
        ensures { result ≡ behind_attribute_sign is_open (rest_of trees.entry) self }
    {
        let is_exported = is_at_attribute_of("macro_export", trees.remaining().iter());
        let is_built_in = is_at_attribute_of("rustc_builtin_macro", trees.remaining().iter());
        let is_attributed = self.is_attributed || is_at_brackets(trees.remaining().iter());
        Position {
            is_used: self.is_used || is_at_attribute_of("macro_use", trees),
            is_attributed,
            is_exported: self.is_exported || is_exported,
            is_built_in: self.is_built_in || is_built_in,
            is_attribute: true,
            is_open: self.is_open || is_open,
            ..self
        }
    }

    // Returns the position after a punct, before these trees.
    fn behind_punct(self, char: char, trees: TtIter<'_>, is_open: bool) -> Position
        ensures { result ≡ behind_punct is_open char (rest_of trees.entry) self }
    {
        if char == '#' {
            self.behind_attribute_sign(trees, is_open)
        } else if char == '!' && self.is_attribute {
            self
        } else {
            Position {
                angles: self.angles_behind(char),
                ..self.behind(char == ';')
            }
        }
    }

    // Returns the number of `<` of the item's header that are open after a punct: `->` closes none.
    fn angles_behind(self, char: char) -> usize
        ensures { result ≡ angles_behind char self }
    {
        match char {
            ';' => 0,
            '<' if self.head.is_header() => self.angles.saturating_add(1),
            '>' if self.front != Front::Arrow => self.angles.saturating_sub(1),
            _ => self.angles,
        }
    }

    // Returns the position after an ident.
    fn behind_ident(self, ident: &Ident) -> Position
        ensures { result ≡ behind_ident ident.now self }
    {
        let head = match ident.is_raw {
            IdentIsRaw::No => self.head.behind(ident.sym.as_str()),
            IdentIsRaw::Yes => self.head,
        };
        Position {
            is_start: false,
            head,
            is_attributed: false,
            is_exported: false,
            is_built_in: false,
            is_attribute: false,
            front: Front::behind_ident(ident),
            ..self
        }
    }

    /// Returns the position after a leaf, before these trees; `is_open`: whether a condition begins with the leaf that is not known to be true
    /// (`is_open_condition`).
    pub fn behind_leaf(self, leaf: &Leaf, trees: TtIter<'_>, is_open: bool) -> Position
        ensures { result ≡ behind_leaf is_open leaf.now (rest_of trees.entry) self }
    {
        match leaf {
            Leaf::Literal(_) => self.behind(false),
            Leaf::Punct(punct) => Position {
                front: self.front.behind_punct(punct),
                ..self.behind_punct(punct.char, trees, is_open)
            },
            Leaf::Ident(ident) => self.behind_ident(ident),
        }
    }

    /// Returns the position after a subtree of a kind.
    pub fn behind_subtree(self, kind: DelimiterKind) -> Position
        ensures { result ≡ behind_subtree kind self }
    {
        if self.is_attribute {
            return Position {
                is_attribute: false,
                ..self
            };
        }
        Position {
            is_used: self.is_used && kind == DelimiterKind::Parenthesis,
            ..self.behind(kind == DelimiterKind::Brace && self.angles == 0)
        }
    }

    /// Returns whether a condition, `#[cfg(..)]`, that is not known to be true is in force here: before the statement or the item that has
    /// begun, or before one that contains it.
    pub fn is_open(self) -> bool
        ensures { result ≡ self.is_open }
    {
        self.is_open
    }

    /// Returns whether `#[macro_export]` precedes, with nothing but attributes between.
    pub fn is_exported(self) -> bool
        ensures { result ≡ self.is_exported }
    {
        self.is_exported
    }

    /// Returns whether `#[rustc_builtin_macro]` or `#[rustc_builtin_macro(..)]` precedes, with nothing but attributes between.
    pub fn is_built_in(self) -> bool
        ensures { result ≡ self.is_built_in }
    {
        self.is_built_in
    }

    // Returns whether brackets in those of an attribute contain the siblings.
    pub(crate) fn is_verbatim(self) -> bool
        ensures { result ≡ self.is_verbatim }
    {
        self.is_verbatim
    }

    /// Returns what precedes the tree.
    pub(crate) fn front(self) -> Front
        ensures { result ≡ self.front }
    {
        self.front
    }

    /// Returns what the siblings are.
    pub fn siblings(self) -> Siblings
        ensures { result ≡ self.siblings }
    {
        self.siblings
    }

    /// Returns whether what a subtree of a kind with these children defines stays in scope after it: under `#[macro_use]`, or if it begins
    /// with `#![macro_use]`.
    pub fn keeps_macros(self, kind: DelimiterKind, children: TtIter<'_>) -> bool
        ensures { result ≡ keeps_macros kind (rest_of children.entry) self }
    {
        kind == DelimiterKind::Brace
            && !self.is_attribute
            && (self.is_used || begins_with_attribute("macro_use", children))
    }

    // Returns whether a call with so many trees of attributes and a subtree of a kind ends a statement or an item before these trees.
    fn ends_statement(self, attributes: usize, kind: DelimiterKind, behind: TtIter<'_>) -> bool
        ensures { result ≡ ends_statement attributes kind (rest_of behind.entry) self }
    {
        let is_braced = kind == DelimiterKind::Brace;
        if behind.is_empty() {
            return is_braced || self.siblings == Siblings::Items || self.is_top || attributes > 0;
        }
        is_at_punct(behind.remaining().iter(), ';') || is_braced && !goes_on(behind)
    }

    /// Returns whether a call with so many trees of attributes and a subtree of a kind is a statement or an item, before these trees. Without
    /// attributes, one in parentheses or brackets at the end of a block is an expression, unless an expansion ends there.
    pub fn is_statement(self, attributes: usize, kind: DelimiterKind, behind: TtIter<'_>) -> bool
        ensures { result ≡ is_statement attributes kind (rest_of behind.entry) self }
    {
        self.is_start && self.ends_statement(attributes, kind, behind)
    }

    /// Returns whether the `;` after such a call, of which an arm made these trees, is a part of it: at an item, because no `;` may come alone
    /// among items; and at a statement without attributes, if the trees need none.
    pub fn takes_semicolon(
        self,
        attributes: usize,
        kind: DelimiterKind,
        behind: TtIter<'_>,
        made: TtIter<'_>,
    ) -> bool
        ensures { result ≡ takes_semicolon attributes kind (rest_of behind.entry) (rest_of made.entry) self }
    {
        self.is_start
            && kind != DelimiterKind::Brace
            && is_at_punct(behind.remaining().iter(), ';')
            && (self.siblings == Siblings::Items
                || attributes == 0 && needs_no_semicolon(made, behind))
    }

    /// Returns the position before the first of the trees that such a call expands to.
    pub fn first_of_call(
        self,
        attributes: usize,
        kind: DelimiterKind,
        behind: TtIter<'_>,
    ) -> Position
        ensures { result ≡ first_of_call attributes kind (rest_of behind.entry) self }
    {
        let siblings = if self.is_statement(attributes, kind, behind) {
            self.siblings
        } else {
            Siblings::Others
        };
        Position {
            front: self.front.of_expansion(self.is_start),
            ..Position::begun(siblings)
        }
    }

    /// Returns how such a call's expansion, these trees, is enclosed.
    pub fn enclosure(
        self,
        attributes: usize,
        kind: DelimiterKind,
        behind: TtIter<'_>,
        expansion: TtIter<'_>,
    ) -> Enclosure
        ensures { result ≡ enclosure attributes kind (rest_of behind.entry) (rest_of expansion.entry) self }
    {
        if self.is_statement(attributes, kind, behind.remaining().iter()) {
            Enclosure::Bare
        } else if are_statements(expansion.remaining().iter()) {
            Enclosure::Refused
        } else if self.front.is_at_start(self.is_start) {
            enclosure_at_start(behind, expansion)
        } else if fits_before(expansion, behind) && self.front.is_free() {
            Enclosure::Bare
        } else {
            Enclosure::Opaque
        }
    }
}
