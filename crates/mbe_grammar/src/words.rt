//! Words: idents that the grammar names, and those that are reserved.
ghost use Rattle.std.specs.Prelude.{◌≡◌};
ghost use Rattle.mbe_grammar.specs.Words.{word_from_a_or_b, word_from_c_or_d, word_from_e_to_g, word_from_i_or_l, word_from_m, word_from_o_to_r, word_from_s, word_from_t, word_from_u_to_y, word_from_other, word_beginning, word_named, word_as, word_of, is_reserved, is_path_segment, is_truth_value, is_first_keyword, begins_expression};

use tt::{Ident, IdentIsRaw};

/// What an ident is to the grammar.
#[derive(Clone, Copy, PartialEq, Eq)]
pub enum Word {
    /// A name: none of the other words.
    Name,
    /// Reserved for a later edition.
    Reserved,
    /// `as`.
    As,
    /// `async`.
    Async,
    /// `await`.
    Await,
    /// `box`.
    Box,
    /// `break`.
    Break,
    /// `const`.
    Const,
    /// `continue`.
    Continue,
    /// `crate`.
    Crate,
    /// `do`.
    Do,
    /// `dyn`.
    Dyn,
    /// `else`.
    Else,
    /// `enum`.
    Enum,
    /// `extern`.
    Extern,
    /// `false`.
    False,
    /// `fn`.
    Fn,
    /// `for`.
    For,
    /// `gen`.
    Gen,
    /// `if`.
    If,
    /// `impl`.
    Impl,
    /// `in`.
    In,
    /// `let`.
    Let,
    /// `loop`.
    Loop,
    /// `macro`.
    Macro,
    /// `match`.
    Match,
    /// `mod`.
    Mod,
    /// `move`.
    Move,
    /// `mut`.
    Mut,
    /// `pub`.
    Pub,
    /// `ref`.
    Ref,
    /// `return`.
    Return,
    /// `self`.
    SelfValue,
    /// `Self`.
    SelfType,
    /// `static`.
    Static,
    /// `struct`.
    Struct,
    /// `super`.
    Super,
    /// `trait`.
    Trait,
    /// `true`.
    True,
    /// `try`.
    Try,
    /// `type`.
    Type,
    /// `unsafe`.
    Unsafe,
    /// `use`.
    Use,
    /// `where`.
    Where,
    /// `while`.
    While,
    /// `yield`.
    Yield,
    /// `_`.
    Underscore,
    /// `auto`.
    Auto,
    /// `default`.
    Default,
    /// `macro_rules`.
    MacroRules,
    /// `raw`.
    Raw,
    /// `safe`.
    Safe,
    /// `union`.
    Union,
    /// `yeet`.
    Yeet,
}

impl Word {
    // Returns the word of a text that begins with `a` or `b`.
    fn from_a_or_b(text: &str) -> Word
        ensures { result ≡ word_from_a_or_b text.now }
    {
        match text {
            "abstract" => Word::Reserved,
            "as" => Word::As,
            "async" => Word::Async,
            "auto" => Word::Auto,
            "await" => Word::Await,
            "become" => Word::Reserved,
            "box" => Word::Box,
            "break" => Word::Break,
            _ => Word::Name,
        }
    }

    // Returns the word of a text that begins with `c` or `d`.
    fn from_c_or_d(text: &str) -> Word
        ensures { result ≡ word_from_c_or_d text.now }
    {
        match text {
            "const" => Word::Const,
            "continue" => Word::Continue,
            "crate" => Word::Crate,
            "default" => Word::Default,
            "do" => Word::Do,
            "dyn" => Word::Dyn,
            _ => Word::Name,
        }
    }

    // Returns the word of a text that begins with `e`, `f` or `g`.
    fn from_e_to_g(text: &str) -> Word
        ensures { result ≡ word_from_e_to_g text.now }
    {
        match text {
            "else" => Word::Else,
            "enum" => Word::Enum,
            "extern" => Word::Extern,
            "false" => Word::False,
            "final" => Word::Reserved,
            "fn" => Word::Fn,
            "for" => Word::For,
            "gen" => Word::Gen,
            _ => Word::Name,
        }
    }

    // Returns the word of a text that begins with `i` or `l`.
    fn from_i_or_l(text: &str) -> Word
        ensures { result ≡ word_from_i_or_l text.now }
    {
        match text {
            "if" => Word::If,
            "impl" => Word::Impl,
            "in" => Word::In,
            "let" => Word::Let,
            "loop" => Word::Loop,
            _ => Word::Name,
        }
    }

    // Returns the word of a text that begins with `m`.
    fn from_m(text: &str) -> Word
        ensures { result ≡ word_from_m text.now }
    {
        match text {
            "macro" => Word::Macro,
            "macro_rules" => Word::MacroRules,
            "match" => Word::Match,
            "mod" => Word::Mod,
            "move" => Word::Move,
            "mut" => Word::Mut,
            _ => Word::Name,
        }
    }

    // Returns the word of a text that begins with `o`, `p` or `r`.
    fn from_o_to_r(text: &str) -> Word
        ensures { result ≡ word_from_o_to_r text.now }
    {
        match text {
            "override" => Word::Reserved,
            "priv" => Word::Reserved,
            "pub" => Word::Pub,
            "raw" => Word::Raw,
            "ref" => Word::Ref,
            "return" => Word::Return,
            _ => Word::Name,
        }
    }

    // Returns the word of a text that begins with `s`.
    fn from_s(text: &str) -> Word
        ensures { result ≡ word_from_s text.now }
    {
        match text {
            "safe" => Word::Safe,
            "self" => Word::SelfValue,
            "static" => Word::Static,
            "struct" => Word::Struct,
            "super" => Word::Super,
            _ => Word::Name,
        }
    }

    // Returns the word of a text that begins with `t`.
    fn from_t(text: &str) -> Word
        ensures { result ≡ word_from_t text.now }
    {
        match text {
            "trait" => Word::Trait,
            "true" => Word::True,
            "try" => Word::Try,
            "type" => Word::Type,
            "typeof" => Word::Reserved,
            _ => Word::Name,
        }
    }

    // Returns the word of a text that begins with `u`, `v`, `w` or `y`.
    fn from_u_to_y(text: &str) -> Word
        ensures { result ≡ word_from_u_to_y text.now }
    {
        match text {
            "union" => Word::Union,
            "unsafe" => Word::Unsafe,
            "unsized" => Word::Reserved,
            "use" => Word::Use,
            "virtual" => Word::Reserved,
            "where" => Word::Where,
            "while" => Word::While,
            "yeet" => Word::Yeet,
            "yield" => Word::Yield,
            _ => Word::Name,
        }
    }

    // Returns the word of a text that begins with `S` or `_`.
    fn from_other(text: &str) -> Word
        ensures { result ≡ word_from_other text.now }
    {
        match text {
            "Self" => Word::SelfType,
            "_" => Word::Underscore,
            _ => Word::Name,
        }
    }

    // Returns the word of a text that begins with that byte.
    fn beginning(first: u8, text: &str) -> Word
        ensures { result ≡ word_beginning first text.now }
    {
        match first {
            b'a' | b'b' => Word::from_a_or_b(text),
            b'c' | b'd' => Word::from_c_or_d(text),
            b'e' | b'f' | b'g' => Word::from_e_to_g(text),
            b'i' | b'l' => Word::from_i_or_l(text),
            b'm' => Word::from_m(text),
            b'o' | b'p' | b'r' => Word::from_o_to_r(text),
            b's' => Word::from_s(text),
            b't' => Word::from_t(text),
            b'u' | b'v' | b'w' | b'y' => Word::from_u_to_y(text),
            b'S' | b'_' => Word::from_other(text),
            _ => Word::Name,
        }
    }

    // Returns the word of that text.
    fn named(text: &str) -> Word
        ensures { result ≡ word_named text.now }
    {
        match text.as_bytes().first() {
            Some(first) => Word::beginning(*first, text),
            None => Word::Name,
        }
    }

    /// Returns the word that an ident of that text is; after `r#` it is a name.
    pub(crate) fn of_text(text: &str, is_raw: IdentIsRaw) -> Word
        ensures { result ≡ word_as is_raw text.now }
    {
        match is_raw {
            IdentIsRaw::No => Word::named(text),
            IdentIsRaw::Yes => Word::Name,
        }
    }

    /// Returns the word that an ident is; after `r#` it is a name.
    pub fn of(ident: &Ident) -> Word
        ensures { result ≡ word_of ident.now }
    {
        Word::of_text(ident.sym.as_str(), ident.is_raw)
    }

    /// Returns whether no name may be spelled like this word.
    pub fn is_reserved(self) -> bool
        ensures { result ≡ is_reserved self }
    {
        !matches!(
            self,
            Word::Name
                | Word::Auto
                | Word::Default
                | Word::MacroRules
                | Word::Raw
                | Word::Safe
                | Word::Union
                | Word::Yeet
        )
    }

    /// Returns whether a path may contain the word: a name, `self`, `Self`, `super` or `crate`.
    pub(crate) fn is_path_segment(self) -> bool
        ensures { result ≡ is_path_segment self }
    {
        !self.is_reserved()
            || matches!(
                self,
                Word::SelfValue | Word::SelfType | Word::Super | Word::Crate
            )
    }

    /// Returns whether the word is `true` or `false`.
    pub(crate) fn is_truth_value(self) -> bool
        ensures { result ≡ is_truth_value self }
    {
        matches!(self, Word::True | Word::False)
    }

    /// Returns whether an expression may begin with the word.
    pub(crate) fn begins_expression(self) -> bool
        ensures { result ≡ begins_expression self }
    {
        self.is_path_segment() || self.is_truth_value() || self.is_first_keyword()
    }

    // Returns whether the word is a keyword that an expression begins with.
    fn is_first_keyword(self) -> bool
        ensures { result ≡ is_first_keyword self }
    {
        matches!(
            self,
            Word::Async
                | Word::Do
                | Word::Box
                | Word::Break
                | Word::Const
                | Word::Continue
                | Word::For
                | Word::Gen
                | Word::If
                | Word::Let
                | Word::Loop
                | Word::Match
                | Word::Move
                | Word::Return
                | Word::Static
                | Word::Try
                | Word::Unsafe
                | Word::While
                | Word::Yield
        )
    }
}
