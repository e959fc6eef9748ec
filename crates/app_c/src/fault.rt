//! The faults that calls return, and their numbers.

/// The reason why a call wrote no bytes. Its number is the result of the call; 0 means no
/// fault. A number is used once, and never for another fault.
#[derive(Clone, Copy)]
pub enum Fault {
    /// Memory ran out.
    Memory = 1,
    /// The result is longer than the output. Nothing is written there.
    NoRoom = 2,
    /// The text is not UTF-8.
    NotUtf8 = 3,
    /// The text has 4,294,967,296 bytes or more.
    TextTooLong = 4,
    /// The trees have too many tokens.
    TooManyTokens = 5,
    /// The trees have too many span parts.
    TooManySpanParts = 6,
    /// The trees have too many symbols.
    TooManySymbols = 7,
    /// The trees have too many bytes.
    TooManyBytes = 8,
    /// Another limit of trees is exceeded.
    OtherLimit = 9,
    /// A closing bracket without an open one.
    Unopened = 10,
    /// A closing bracket that does not match the innermost open one.
    Mismatched = 11,
    /// The innermost bracket still open at the end.
    Unclosed = 12,
    /// `/*` without a closing `*/`.
    UnterminatedComment = 20,
    /// A literal that is never closed.
    UnterminatedLiteral = 21,
    /// The hashes of a raw literal without a quote behind them.
    RawWithoutQuote = 22,
    /// More than 255 hashes.
    TooManyHashes = 23,
    /// A suffix of more than 255 bytes.
    SuffixTooLong = 24,
    /// `r#` before a name that is never raw.
    NeverRaw = 25,
    /// A character that begins no token.
    UnknownCharacter = 26,
    /// A name right before a quote or a `#` that is no prefix of a literal.
    UnknownPrefix = 27,
    /// A name that contains emoji.
    InvalidIdent = 28,
    /// `##` or `#"`.
    GuardedPrefix = 29,
    /// The letter of a base without a digit behind it.
    NoDigits = 30,
    /// The `e` of a float without a digit behind it.
    EmptyExponent = 31,
    /// A float that is not written in base ten.
    FloatOfAnotherBase = 32,
    /// A digit that the number's base does not have.
    ForeignDigit = 33,
    /// A byte or a byte string with a character beyond ASCII.
    BeyondAscii = 34,
    /// A carriage return without a line feed behind it.
    BareReturn = 35,
    /// An escape that such a literal does not have.
    UnknownEscape = 36,
    /// `\x` without two digits of base 16.
    BadHexEscape = 37,
    /// `\x80` or more, if that would be no character.
    HexEscapeTooLarge = 38,
    /// `\u` that spells no character.
    BadUnicodeEscape = 39,
    /// A character that a character literal allows only behind a backslash.
    WantsEscape = 40,
    /// A character literal without a character.
    EmptyChar = 41,
    /// A character literal with several characters.
    SeveralChars = 42,
    /// A null in a C string.
    NullInCStr = 43,
    /// `'` and a digit.
    LifetimeBeginsWithDigit = 44,
    /// A condition is no `NAME` and no `NAME="VALUE"`.
    NoCfg = 50,
    /// The bytes end too early.
    BytesTooShort = 60,
    /// The bytes have another format, or another version of this one.
    BytesOfOtherFormat = 61,
    /// A symbol's text is not UTF-8.
    BytesWithoutText = 62,
    /// The bytes contain no tree.
    BytesWithoutTree = 63,
    /// The bytes contain a tree that is stored as other bytes.
    BytesStoredOtherwise = 64,
    /// The bytes of the input end too early.
    InputTooShort = 70,
    /// The bytes of the input have another format.
    InputOfOtherFormat = 71,
    /// A symbol's text in the bytes of the input is not UTF-8.
    InputWithoutText = 72,
    /// The bytes of the input contain no tree.
    InputWithoutTree = 73,
    /// The bytes of the input contain a tree that is stored as other bytes.
    InputStoredOtherwise = 74,
    /// No pattern comes where an arm should begin.
    NoPattern = 81,
    /// A `$` of a pattern begins nothing.
    BeginsNothing = 82,
    /// A variable names a fragment that does not exist.
    UnknownFragment = 83,
    /// A warning: the definition of a call's macro has a fault, so the call stays.
    Left = 84,
    /// Two variables have the same name.
    NameTwice = 85,
    /// A repetition has a separator but never two rounds.
    NeedlessSeparator = 86,
    /// The body of a repetition may match zero trees.
    EmptyRepetition = 87,
    /// No `=>` follows a pattern.
    NoArrow = 88,
    /// No template follows `=>`.
    NoTemplate = 89,
    /// A variable still repeats where it is used.
    StillRepeats = 90,
    /// Nothing repeats in a repetition of a template.
    NothingRepeats = 91,
    /// Neither the end nor `;` follows a template.
    NoSemicolon = 92,
    /// A warning: a call of a macro that is built into the compiler stays.
    BuiltIn = 93,
    /// A warning: which definition of a call's macro holds depends on `#[cfg(..)]`, so the call stays.
    SeveralDefinitions = 94,
    /// A warning: no macro of the name after `crate::` has `#[macro_export]`, so the call stays.
    NotExported = 95,
    /// A warning: an expansion binds a name of its input, and does not keep the two apart.
    Captured = 96,
    /// A warning: the attributes of a call cannot apply to its expansion, so the call stays.
    Conditional = 97,
    /// No arm matches the input.
    NoMatch = 100,
    /// An arm matches the input in two ways.
    Ambiguous = 101,
    /// Variables of a repetition have different numbers of rounds.
    LengthsDiffer = 102,
    /// A repetition that needs a round has none.
    NoRound = 103,
    /// Too many expansions are nested.
    TooDeep = 104,
    /// A leaf of the tree cannot be written as a text that reads back.
    NotWritable = 105,
    /// The text would have 4,294,967,295 bytes or more.
    MadeTooLong = 106,
    /// The expansion of a call that is no statement is statements.
    Statements = 107,
    /// A call and the calls in its result would write too many tokens.
    OverMaxTokens = 108,
}

impl Fault {
    ghost use Rattle.std.specs.Prelude.{◌≡◌};
    ghost use Rattle.app_c.specs.Faults.{number_of};

    /// Returns the fault's number.
    pub fn number(&self) -> u32
        ensures { result ≡ number_of self.now }
    {
        *self as u32
    }
}
