//! Names and keywords.
ghost use Rattle.std.specs.Prelude.{◌≡◌, ◌↔◌, IsTrue, IfOk, IfErr, Some};
ghost use Rattle.tt_base.specs.declared.fault.TtFault.TheVariants.{Memory};

use crate::fault::TtFault;
use crate::span::Span;
use crate::symbol::Symbol;
use std::alloc::Global;
use std::fmt;

/// Whether a text has `r#` before the ident. The numbers are those of `docs/FORMATS.md`, "Numbers of kinds".
#[derive(Debug, Clone, Copy, PartialEq, Eq, Hash)]
pub enum IdentIsRaw {
    No = 0,
    Yes = 1,
}

impl IdentIsRaw {
    ghost use Rattle.tt_base.specs.LeafText.{raw_prefix};
    ghost use Rattle.tt_base.specs.Token.{rawness_of, without_raw_prefix};

    /// Returns whether this is `Yes`.
    pub fn yes(self) -> bool
        ensures { IsTrue result ↔ (self ≡ IdentIsRaw.Yes) }
    {
        matches!(self, IdentIsRaw::Yes)
    }

    /// Returns whether this is `No`.
    pub fn no(&self) -> bool
        ensures { IsTrue result ↔ (self.now ≡ IdentIsRaw.No) }
    {
        matches!(self, IdentIsRaw::No)
    }

    /// Returns the text before the name: `r#` or nothing.
    pub fn as_str(self) -> &'static str
        ensures { result.now ≡ raw_prefix self }
    {
        match self {
            IdentIsRaw::No => "",
            IdentIsRaw::Yes => "r#",
        }
    }

    /// Returns whether the text begins with `r#`, and the text without one leading `r#`.
    pub fn split_from_symbol(text: &str) -> (Self, &str)
        ensures rawness { result.0 ≡ rawness_of text.now }
        ensures name { result.1.now ≡ without_raw_prefix text.now }
    {
        match text.strip_prefix("r#") {
            Some(name) => (IdentIsRaw::Yes, name),
            None => (IdentIsRaw::No, text),
        }
    }
}

/// A name or a keyword.
#[derive(Debug, Clone, PartialEq, Eq, Hash, Drop)]
pub struct Ident {
    /// The name, without the `r#` of a raw ident.
    pub sym: Symbol,
    pub span: Span,
    pub is_raw: IdentIsRaw,
}

impl Ident {
    ghost use Rattle.tt_base.specs.Token.{ident_from};

    /// Returns the ident with that text. If the text begins with `r#`, the ident is raw, and its name is the rest. Fails only if memory
    /// runs out.
    pub fn new(alloc: Global, text: &str, span: Span) -> Result<Ident, TtFault>
        ensures ok { IfOk result (λ ident. ident ≡ ident_from text.now span) }
        ensures err { IfErr result (λ fault. fault ≡ Memory) }
    {
        let (is_raw, text) = IdentIsRaw::split_from_symbol(text);
        let sym = Symbol::new(alloc, text)?;
        Ok(Ident { sym, span, is_raw })
    }
}

impl fmt::Display for Ident {
    ghost use Rattle.tt_base.specs.LeafText.{ident_text};

    ghost output = { λ ident. Some (ident_text ident) };

    fn fmt<W: fmt::Write>(&self, f: &mut fmt::Formatter<W>) -> fmt::Result {
        f.write_str(self.is_raw.as_str())?;
        fmt::Display::fmt(&self.sym, f)
    }
}
