//! What a token is to its neighbours, and which neighbours touch where rustfmt writes the text.
ghost use Rattle.std.specs.Prelude.{◌≡◌};
ghost use Rattle.syntax_layout.specs.Parts.{ends_piece, ends_value, is_dot, opens, takes_angle, takes_bracket, touches};

/// What a token is to its neighbours.
#[derive(Debug, Clone, Copy, PartialEq, Eq)]
pub enum Part {
    /// No token: what precedes the first.
    Start,
    /// `(`, `[`, and a `{` among the names of a `use`.
    Open,
    /// Any other `{`.
    Brace,
    /// `)`, `]`, and a `}` among the names of a `use`.
    Close,
    /// Any other `}`.
    EndBrace,
    /// `,` and `;`.
    Comma,
    /// The `:` before a type or a bound.
    Colon,
    /// The `?` after a value.
    Question,
    /// The `!` of a call of a macro.
    Bang,
    /// The `|` after the parameters of a closure.
    Bar,
    /// `.`, `..` and `..=`.
    Dot,
    /// `::`.
    Path,
    /// The `<` before generic arguments.
    OpenAngle,
    /// The `>` after generic arguments.
    CloseAngle,
    /// A sign between two operands, and `=`, `->`, `=>`.
    Operator,
    /// A sign before its operand, and `#`, `$`.
    Prefix,
    /// A name that generic arguments do not follow.
    Name,
    /// The name of a type, or of a function that is defined.
    Type,
    /// A literal.
    Literal,
    /// A lifetime or a label.
    Lifetime,
    /// A keyword that touches no bracket.
    Keyword,
    /// `fn` and `pub`: a bracket may touch them.
    Fn,
    /// `for`, `impl` and `use`: generic arguments may touch them.
    For,
}

/// Returns whether what follows touches it.
pub fn opens(part: Part) -> bool
    ensures { result ≡ opens part }
{
    matches!(
        part,
        Part::Start | Part::Open | Part::OpenAngle | Part::Prefix | Part::Path
    )
}

/// Returns whether a value ends with it, so that a sign after it is an operator.
pub fn ends_value(part: Part) -> bool
    ensures { result ≡ ends_value part }
{
    matches!(
        part,
        Part::Name | Part::Type | Part::Literal | Part::Close | Part::Question
    )
}

/// Returns whether a value, a block or generic arguments end with it.
pub fn ends_piece(part: Part) -> bool
    ensures { result ≡ ends_piece part }
{
    matches!(part, Part::EndBrace | Part::CloseAngle) || ends_value(part)
}

// Returns whether it is `.`, `..` or `..=`.
fn is_dot(part: Part) -> bool
    ensures { result ≡ is_dot part }
{
    matches!(part, Part::Dot)
}

// Returns whether a `(` or `[` after it touches it.
fn takes_bracket(part: Part) -> bool
    ensures { result ≡ takes_bracket part }
{
    matches!(
        part,
        Part::Name
            | Part::Type
            | Part::Literal
            | Part::Close
            | Part::CloseAngle
            | Part::Question
            | Part::Bang
            | Part::Fn
    )
}

// Returns whether generic arguments after it touch it.
fn takes_angle(part: Part) -> bool
    ensures { result ≡ takes_angle part }
{
    matches!(part, Part::Type | Part::Fn | Part::For)
}

/// Returns whether two tokens touch.
pub fn touches(before: Part, next: Part) -> bool
    ensures { result ≡ touches before next }
{
    match next {
        Part::Close
        | Part::CloseAngle
        | Part::Comma
        | Part::Colon
        | Part::Question
        | Part::Bang
        | Part::Bar => true,
        Part::EndBrace => matches!(before, Part::Brace),
        Part::Brace => matches!(before, Part::Start | Part::Open),
        Part::Open => opens(before) || (is_dot(before) || takes_bracket(before)),
        Part::OpenAngle => opens(before) || (is_dot(before) || takes_angle(before)),
        Part::Dot | Part::Path => opens(before) || (is_dot(before) || ends_piece(before)),
        Part::Operator | Part::Keyword | Part::Fn | Part::For => opens(before),
        Part::Start | Part::Prefix | Part::Name | Part::Type | Part::Literal | Part::Lifetime =>
            opens(before) || is_dot(before),
    }
}
