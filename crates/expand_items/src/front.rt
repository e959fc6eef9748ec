//! What precedes a tree among its siblings, as far as it matters to an expression there.
ghost use Rattle.std.specs.Prelude.{◌≡◌};
ghost use Rattle.expand_items.specs.Fronts.{front_behind, front_behind_ident, front_behind_kind, front_of_expansion, introduces, is_at_start, is_cast, is_free, is_glued, joint_front};

use tt::{DelimiterKind, Ident, IdentIsRaw, Punct, Spacing};

/// What precedes a tree.
#[derive(Debug, Clone, Copy, PartialEq, Eq)]
pub(crate) enum Front {
    /// The beginning of parentheses, of square brackets or of an expansion, `,`, an `=` that is a token, or a word such as `return`: no
    /// operator before it takes a part of an expression there.
    Free,
    /// A `:` that is a token, before a type or the value of a field.
    Colon,
    /// An `=` or `-` that is joint with the next punct: the beginning of an arrow.
    Arrow,
    /// The beginning of braces, braces, `;`, an arrow, or the beginning of an expansion at the beginning of a statement or an arm: an
    /// expression there ends with the block that it begins with.
    Start,
    /// Another punct that is joint with the next tree.
    Joint,
    /// The word `as`, before a type.
    Cast,
    /// Any other tree.
    Bound,
}

impl Front {
    // Returns whether the next punct may be a part of the last token.
    fn is_glued(self) -> bool
        ensures { result ≡ is_glued self }
    {
        match self {
            Front::Arrow | Front::Joint => true,
            Front::Free | Front::Colon | Front::Start | Front::Cast | Front::Bound => false,
        }
    }

    /// Returns whether no operator before an expression there takes a part of it.
    pub(crate) fn is_free(self) -> bool
        ensures { result ≡ is_free self }
    {
        match self {
            Front::Free | Front::Colon => true,
            Front::Arrow | Front::Start | Front::Joint | Front::Cast | Front::Bound => false,
        }
    }

    /// Returns whether `as` is before a type there.
    pub(crate) fn is_cast(self) -> bool
        ensures { result ≡ is_cast self }
    {
        self == Front::Cast
    }

    /// Returns what precedes the tree after a punct.
    pub(crate) fn behind_punct(self, punct: &Punct) -> Front
        ensures { result ≡ front_behind punct.now self }
    {
        match punct.char {
            ',' => Front::Free,
            ';' => Front::Start,
            '=' if !self.is_glued() => joint_front(punct.spacing, Front::Arrow, Front::Free),
            '-' if !self.is_glued() => joint_front(punct.spacing, Front::Arrow, Front::Bound),
            ':' if !self.is_glued() => joint_front(punct.spacing, Front::Joint, Front::Colon),
            '>' if self == Front::Arrow => Front::Start,
            _ => joint_front(punct.spacing, Front::Joint, Front::Bound),
        }
    }

    /// Returns what precedes the tree after an ident.
    pub(crate) fn behind_ident(ident: &Ident) -> Front
        ensures { result ≡ front_behind_ident ident.now.is_raw ident.now.sym }
    {
        match ident.is_raw {
            IdentIsRaw::No => introduces(ident.sym.as_str()),
            IdentIsRaw::Yes => Front::Bound,
        }
    }

    /// Returns what precedes the tree after a subtree of a kind.
    pub(crate) fn behind_subtree(kind: DelimiterKind) -> Front
        ensures { result ≡ front_behind_kind kind }
    {
        if kind == DelimiterKind::Brace {
            Front::Start
        } else {
            Front::Bound
        }
    }

    /// Returns what precedes the first tree of the expansion of a call there; `is_start`: whether a statement or an item may begin at the
    /// call.
    pub(crate) fn of_expansion(self, is_start: bool) -> Front
        ensures { result ≡ front_of_expansion is_start self }
    {
        if self.is_at_start(is_start) {
            Front::Start
        } else {
            Front::Free
        }
    }

    /// Returns whether an expression there ends with the block that it begins with: at the beginning of a statement or an arm.
    pub(crate) fn is_at_start(self, is_start: bool) -> bool
        ensures { result ≡ is_at_start is_start self }
    {
        is_start || self == Front::Start
    }
}

// Returns what precedes the tree after a word: an expression after `return` and the like goes as far as it can, and a type comes after
// `as`.
fn introduces(word: &str) -> Front
    ensures { result ≡ introduces word.now }
{
    match word {
        "return" | "break" | "if" | "while" | "match" | "in" => Front::Free,
        "as" => Front::Cast,
        _ => Front::Bound,
    }
}

// Returns one of two, by whether a punct is joint with the next.
fn joint_front(spacing: Spacing, joint: Front, alone: Front) -> Front
    ensures { result ≡ joint_front spacing joint alone }
{
    match spacing {
        Spacing::Joint => joint,
        Spacing::Alone | Spacing::JointHidden => alone,
    }
}
