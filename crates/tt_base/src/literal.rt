//! Literals: one text with a suffix at its end.
ghost use Rattle.std.specs.Prelude.{◌≡◌, ◌-◌, ◌≤◌, ◌++◌, length, IsCharBoundary, IfOk, IfErr, IsTrue, ◌↔◌, MatchOption, Some, if◌then◌else◌, nat_lt, ⊤};
ghost use Rattle.std.proofs.Props.{props};
ghost use Rattle.tt_base.specs.declared.fault.TtFault.TheVariants.{Memory, SuffixTooLong};

use crate::fault::TtFault;
use crate::span::Span;
use crate::symbol::Symbol;
use std::alloc::{AllocError, Global};

/// The kind of a literal. A raw kind has the number of its hashes. `Debug` writes the name, and the hashes of a raw kind.
#[derive(Clone, Copy, PartialEq, Eq, Hash)]
pub enum LitKind {
    Byte,
    Char,
    Integer,
    Float,
    Str,
    StrRaw(u8),
    ByteStr,
    ByteStrRaw(u8),
    CStr,
    CStrRaw(u8),
    /// A text that is no literal.
    Err(()),
}

/// A literal without a span.
#[derive(Debug, Clone, PartialEq, Drop)]
pub struct Lit {
    pub kind: LitKind,
    /// The text without the suffix.
    pub symbol: Symbol,
    pub suffix: Option<Symbol>,
}

/// A literal: one text, the last `suffix_len` bytes of which are the suffix.
#[derive(Debug, PartialEq, Eq, Hash, Drop)]
pub struct Literal {
    symbol: Symbol,
    span: Span,
    kind: LitKind,
    suffix_len: u8,
    ghost fits: { suffix_len ≤ length symbol },
    ghost cuts: { IsCharBoundary symbol (length symbol - suffix_len) } by { Prim.hlevel props },
}

impl Literal {
    ghost use Rattle.tt_base.specs.Literal.{IsLiteral, CutsText, symbol_of, span_of, kind_of, suffix_len_of, text_of, suffix_of};

    /// Returns the literal of that text and that suffix. Copies the text only once if the suffix is empty. Fails if the suffix has more
    /// than 255 bytes (`SuffixTooLong`), otherwise only if memory runs out.
    pub fn new(
        alloc: Global,
        text: &str,
        span: Span,
        kind: LitKind,
        suffix: &str,
    ) -> Result<Literal, TtFault>
        ensures ok { IfOk result (λ literal. IsLiteral literal (text.now ++ suffix.now) span kind (length suffix.now)) }
        ensures short { IfOk result (λ _. length suffix.now ≤ 255) }
        ensures err { IfErr result (λ fault. fault ≡ (if nat_lt 255 (length suffix.now) then SuffixTooLong else Memory)) }
    {
        let Ok(suffix_len) = u8::try_from(suffix.len()) else {
            return Err(TtFault::SuffixTooLong);
        };
        if suffix.is_empty() {
            return Literal::new_no_suffix(alloc, text, span, kind);
        }
        let mut joined = String::from_str(alloc, text)?;
        joined.push_str(suffix)?;
        Ok(Literal {
            symbol: Symbol::new(alloc, joined.as_str())?,
            span,
            kind,
            suffix_len,
        })
    }

    /// Returns the literal of that text, with no suffix. Fails only if memory runs out.
    pub fn new_no_suffix(
        alloc: Global,
        text: &str,
        span: Span,
        kind: LitKind,
    ) -> Result<Literal, TtFault>
        ensures ok { IfOk result (λ literal. IsLiteral literal text.now span kind 0) }
        ensures err { IfErr result (λ fault. fault ≡ Memory) }
    {
        Ok(Literal {
            symbol: Symbol::new(alloc, text)?,
            span,
            kind,
            suffix_len: 0,
        })
    }

    // Returns whether the last `suffix_len` bytes of the text begin at a character.
    #[inline(never)]
    fn cuts(symbol: &Symbol, suffix_len: u8) -> bool
        ensures { IsTrue result ↔ CutsText symbol.now suffix_len }
    {
        let text = symbol.as_str();
        let suffix = suffix_len as usize;
        suffix <= text.len() && text.is_char_boundary(text.len() - suffix)
    }

    /// Returns the literal whose text and suffix are the symbol, or `None` if the last `suffix_len` bytes do not begin at a character.
    /// Does not read the text if `suffix_len` is 0.
    #[inline(always)]
    pub fn from_parts(symbol: Symbol, span: Span, kind: LitKind, suffix_len: u8) -> Option<Literal>
        ensures { MatchOption result (¬ (CutsText symbol suffix_len)) (λ literal. IsLiteral literal symbol span kind suffix_len) }
    {
        if suffix_len != 0 && !Literal::cuts(&symbol, suffix_len) {
            return None;
        }
        Some(Literal {
            symbol,
            span,
            kind,
            suffix_len,
        })
    }

    /// Returns the literal with another span.
    pub fn with_span(mut self, span: Span) -> Literal
        ensures { IsLiteral result (symbol_of self) span (kind_of self) (suffix_len_of self) }
    {
        self.span = span;
        self
    }

    /// Returns the text without the suffix, and the suffix, which may be empty.
    pub fn text_and_suffix(&self) -> (&str, &str)
        ensures text { result.0.now ≡ text_of self.now }
        ensures suffix { result.1.now ≡ suffix_of self.now }
    {
        let both = self.symbol.as_str();
        both.split_at(both.len() - self.suffix_len as usize)
    }

    /// Returns the text without the suffix.
    pub fn text(&self) -> &str
        ensures { result.now ≡ text_of self.now }
    {
        self.text_and_suffix().0
    }

    /// Returns the suffix, which may be empty.
    pub fn suffix(&self) -> &str
        ensures { result.now ≡ suffix_of self.now }
    {
        self.text_and_suffix().1
    }

    /// Returns the text and the suffix as one symbol.
    pub fn symbol(&self) -> &Symbol
        ensures { result.now ≡ symbol_of self.now }
    {
        &self.symbol
    }

    /// Returns the span.
    pub fn span(&self) -> &Span
        ensures { result.now ≡ span_of self.now }
    {
        &self.span
    }

    /// Returns the kind.
    pub fn kind(&self) -> LitKind
        ensures { result ≡ kind_of self.now }
    {
        self.kind
    }

    /// Returns the number of bytes of the suffix.
    pub fn suffix_len(&self) -> u8
        ensures { result ≡ suffix_len_of self.now }
    {
        self.suffix_len
    }
}

impl Clone for Literal {
    ghost is_clone = { λ literal copy. copy ≡ literal };

    ghost is_infallible = { λ _. ⊤ };

    fn clone(&self) -> Result<Literal, AllocError> {
        Ok(Literal {
            symbol: self.symbol.clone()?,
            span: self.span,
            kind: self.kind,
            suffix_len: self.suffix_len,
        })
    }
}
