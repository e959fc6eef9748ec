//! Operands: primary and postfix expressions, and paths. They belong together whatever surrounds them, but for a few tokens behind them.
ghost use Rattle.std.specs.Prelude.{◌≡◌};
ghost use Rattle.tt.specs.Iters.{rest_of};
ghost use Rattle.expand_items.specs.Operands.{angles_behind, begins_operand, behind_ident, behind_kind, behind_leaf, behind_literal, behind_punct, belong_together, belongs_before, deeper, goes_on_with, inside, is_at_arguments, is_at_list, is_at_parenthesis, is_at_sign, is_list, is_literal, is_negative, opened, operand_of, shallower};

use crate::expression::goes_on;
use mbe_pattern::{is_at_punct, unit_size};
use tt::{DelimiterKind, Ident, IdentIsRaw, Leaf, TtElement, TtIter};

/// The number of angle brackets that may be open inside the outermost ones.
const MOST_ANGLES: usize = 100;

/// Open angle brackets.
#[derive(Clone, Copy)]
struct Angles {
    /// The number of those inside the outermost ones.
    depth: usize,
    /// Whether no `::` precedes the outermost ones: they belong to a type.
    is_type: bool,
    /// Whether `-` or `=` is the last tree: a `>` behind it closes nothing.
    is_arrow: bool,
}

/// What trees are as the beginning of an operand.
#[derive(Clone, Copy)]
enum Operand {
    /// There are none.
    Nothing,
    /// A path.
    Path,
    /// A path that ends with arguments of a type, as in `A<B>`.
    Generic,
    /// An expression that ends with `.` and a name.
    Field,
    /// Another primary or postfix expression.
    Whole,
    /// A path and `!`.
    Bang,
    /// An expression and `.`.
    Dot,
    /// An expression, a path or nothing, and `:`.
    Colon,
    /// The same, and `::`.
    Colons,
    /// They end in angle brackets that are open.
    Angles(Angles),
    /// They begin no operand.
    Other,
}

// Returns whether a word or a raw ident begins an operand.
fn begins_operand(ident: &Ident) -> bool
    ensures { result ≡ begins_operand ident.now.is_raw ident.now.sym }
{
    match ident.is_raw {
        IdentIsRaw::Yes => true,
        IdentIsRaw::No => match ident.sym.as_str() {
            "return" | "break" | "yield" | "become" | "do" | "dyn" | "impl" => false,
            _ => true,
        },
    }
}

// Returns whether a subtree of a kind has parentheses or square brackets.
fn is_list(kind: DelimiterKind) -> bool
    ensures { result ≡ is_list kind }
{
    kind == DelimiterKind::Parenthesis || kind == DelimiterKind::Bracket
}

// Returns what an expression is with a punct more.
fn goes_on_with(char: char) -> Operand
    ensures { result ≡ goes_on_with char }
{
    match char {
        '.' => Operand::Dot,
        '?' => Operand::Whole,
        _ => Operand::Other,
    }
}

// Returns the operand with a `<` more, of a type or not.
fn opened(is_type: bool) -> Operand
    ensures { result ≡ opened is_type }
{
    Operand::Angles(Angles {
        depth: 0,
        is_type,
        is_arrow: false,
    })
}

impl Angles {
    // Returns the operand with a `<` more.
    fn deeper(self) -> Operand
        ensures { result ≡ deeper self }
    {
        if self.depth < MOST_ANGLES {
            Operand::Angles(Angles {
                depth: self.depth + 1,
                is_arrow: false,
                ..self
            })
        } else {
            Operand::Other
        }
    }

    // Returns the operand with a `>` more.
    fn shallower(self) -> Operand
        ensures { result ≡ shallower self }
    {
        if self.depth > 0 {
            Operand::Angles(Angles {
                depth: self.depth - 1,
                is_arrow: false,
                ..self
            })
        } else if self.is_type {
            Operand::Generic
        } else {
            Operand::Path
        }
    }

    // Returns the operand with another tree more, `-` or `=` if `is_arrow`.
    fn inside(self, is_arrow: bool) -> Operand
        ensures { result ≡ inside is_arrow self }
    {
        Operand::Angles(Angles { is_arrow, ..self })
    }

    // Returns the operand with a punct more.
    fn behind_punct(self, char: char) -> Operand
        ensures { result ≡ angles_behind char self }
    {
        if char == '<' {
            self.deeper()
        } else if char == '>' && !self.is_arrow {
            self.shallower()
        } else {
            self.inside(char == '-' || char == '=')
        }
    }
}

impl Operand {
    // Returns what the trees are with a punct more.
    fn behind_punct(self, char: char) -> Operand
        ensures { result ≡ behind_punct char self }
    {
        match self {
            Operand::Nothing | Operand::Path | Operand::Field if char == ':' => Operand::Colon,
            Operand::Colon if char == ':' => Operand::Colons,
            Operand::Nothing | Operand::Colons if char == '<' => opened(false),
            Operand::Path if char == '<' => opened(true),
            Operand::Path if char == '!' => Operand::Bang,
            Operand::Path | Operand::Field | Operand::Whole => goes_on_with(char),
            Operand::Angles(angles) => angles.behind_punct(char),
            _ => Operand::Other,
        }
    }

    // Returns what the trees are with an ident more.
    fn behind_ident(self, ident: &Ident) -> Operand
        ensures { result ≡ behind_ident ident.now self }
    {
        match self {
            Operand::Nothing => {
                if begins_operand(ident) {
                    Operand::Path
                } else {
                    Operand::Other
                }
            }
            Operand::Colons => Operand::Path,
            Operand::Dot => Operand::Field,
            Operand::Angles(angles) => angles.inside(false),
            _ => Operand::Other,
        }
    }

    // Returns what the trees are with a literal more.
    fn behind_literal(self) -> Operand
        ensures { result ≡ behind_literal self }
    {
        match self {
            Operand::Nothing | Operand::Dot => Operand::Whole,
            Operand::Angles(angles) => angles.inside(false),
            _ => Operand::Other,
        }
    }

    // Returns what the trees are with a leaf more.
    fn behind_leaf(self, leaf: &Leaf) -> Operand
        ensures { result ≡ behind_leaf leaf.now self }
    {
        match leaf {
            Leaf::Literal(_) => self.behind_literal(),
            Leaf::Punct(punct) => self.behind_punct(punct.char),
            Leaf::Ident(ident) => self.behind_ident(ident),
        }
    }

    // Returns what the trees are with a subtree of a kind more.
    fn behind_subtree(self, kind: DelimiterKind) -> Operand
        ensures { result ≡ behind_kind kind self }
    {
        match self {
            Operand::Nothing | Operand::Path | Operand::Field | Operand::Whole | Operand::Bang
                if is_list(kind) => Operand::Whole,
            Operand::Angles(angles) => angles.inside(false),
            _ => Operand::Other,
        }
    }

    // Returns whether an operand of this form belongs together before these trees.
    fn belongs_before(self, behind: TtIter<'_>) -> bool
        ensures { result ≡ belongs_before self (rest_of behind.entry) }
    {
        match self {
            Operand::Path => !is_at_sign(behind),
            Operand::Generic => {
                !is_at_sign(behind.remaining().iter()) && !is_at_arguments(behind)
            }
            Operand::Field => !is_at_arguments(behind),
            Operand::Whole => !is_at_punct(behind, ':'),
            _ => false,
        }
    }
}

// Returns whether parentheses come first.
fn is_at_parenthesis(mut trees: TtIter<'_>) -> bool
    ensures { result ≡ is_at_parenthesis (rest_of trees.entry) }
{
    match trees.next() {
        Some(TtElement::Subtree(header, _)) => {
            header.delimiter.kind == DelimiterKind::Parenthesis
        }
        _ => false,
    }
}

// Returns whether parentheses or square brackets come first.
fn is_at_list(mut trees: TtIter<'_>) -> bool
    ensures { result ≡ is_at_list (rest_of trees.entry) }
{
    match trees.next() {
        Some(TtElement::Subtree(header, _)) => is_list(header.delimiter.kind),
        _ => false,
    }
}

// Returns whether `<`, or a `!` that is a token, comes first: behind a path it begins arguments, or makes a call.
fn is_at_sign(trees: TtIter<'_>) -> bool
    ensures { result ≡ is_at_sign (rest_of trees.entry) }
{
    is_at_punct(trees.remaining().iter(), '<')
        || unit_size(trees.remaining().iter()) == 1 && is_at_punct(trees, '!')
}

// Returns whether `:` or parentheses come first: behind a field they begin the arguments of a method.
fn is_at_arguments(trees: TtIter<'_>) -> bool
    ensures { result ≡ is_at_arguments (rest_of trees.entry) }
{
    is_at_punct(trees.remaining().iter(), ':') || is_at_parenthesis(trees)
}

// Returns what trees are.
fn operand_of(mut trees: TtIter<'_>) -> Operand
    ensures { result ≡ operand_of (rest_of trees.entry) }
{
    let mut operand = Operand::Nothing;
    'trees: while let Some(tree) = trees.next() {
        operand = match tree {
            TtElement::Leaf(leaf) => operand.behind_leaf(&leaf),
            TtElement::Subtree(header, _) => operand.behind_subtree(header.delimiter.kind),
        };
    }
    operand
}

// Returns whether a literal is the only tree.
fn is_literal(mut trees: TtIter<'_>) -> bool
    ensures { result ≡ is_literal (rest_of trees.entry) }
{
    match trees.next() {
        Some(TtElement::Leaf(Leaf::Literal(_))) => trees.is_empty(),
        _ => false,
    }
}

// Returns whether a `-` and a literal are all trees.
fn is_negative(mut trees: TtIter<'_>) -> bool
    ensures { result ≡ is_negative (rest_of trees.entry) }
{
    trees.expect_char('-').is_ok() && is_literal(trees)
}

/// Returns whether trees belong together before others, whatever precedes them: an operand, or a negative literal that no method, `?` or
/// brackets follow.
pub(crate) fn belong_together(trees: TtIter<'_>, behind: TtIter<'_>) -> bool
    ensures { result ≡ belong_together (rest_of trees.entry) (rest_of behind.entry) }
{
    operand_of(trees.remaining().iter()).belongs_before(behind.remaining().iter())
        || is_negative(trees) && !goes_on(behind.remaining().iter()) && !is_at_list(behind)
}
