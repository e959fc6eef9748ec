//! What follows the first word of a line.
ghost use Rattle.hex.specs.Hex.{IsBytes, encode_lower};
ghost use Rattle.std.specs.Prelude.{◌≡◌, IfOk, IfErr, ℕ, List, [], ◌∷◌, All, IsUtf8, map, encode_utf8};
ghost use Rattle.std.specs.Char.{IsScalar};
ghost use Rattle.tt_base.specs.Fits.{LeafFits, TokenFits};
ghost use Rattle.tt_base.specs.declared.fault.TtFault.TheVariants.{Memory};
ghost use Rattle.app_language.specs.Reading.{ReadsPieces};
ghost use Rattle.app_language.specs.Token.{leaf_words, token_words};

use crate::command::tokens::{character, leaf, token};
use crate::command::word::{Word, next};
use crate::digits::Digits;
use crate::many::Many;
use tt_base::{Leaf, Symbol, Texts, TokenTree, TtFault, new_symbol};

/// The values that the pieces after the first word of a line spell.
pub trait Part: Sized {
    ghost pieces: { Self → List (List ℕ) };

    ghost fits: { Self → Type 0 };

    /// Reads the values that the text spells, each piece after a space.
    fn read(texts: &mut Texts, text: &[u8]) -> Result<Option<Self>, TtFault>
        ensures reads { IfOk result (ReadsPieces pieces fits text.now) }
        ensures err { IfErr result (λ fault. fault ≡ Memory) };
}

// Nothing follows.
impl Part for () {
    ghost pieces = { λ _. [] };

    ghost fits = { λ _. Unit {0} };

    fn read(_texts: &mut Texts, text: &[u8]) -> Result<Option<()>, TtFault> {
        if text.is_empty() {
            return Ok(Some(()));
        }
        Ok(None)
    }
}

// A word, and further parts.
impl<W: Word + Drop, P: Part> Part for (W, P) {
    ghost pieces = { λ p. W.spelling p.0 ∷ P.pieces p.1 };

    ghost fits = { λ p. W.fits p.0 × P.fits p.1 };

    fn read(texts: &mut Texts, text: &[u8]) -> Result<Option<(W, P)>, TtFault> {
        let Some((word, rest)) = next(text) else {
            return Ok(None);
        };
        let Some(more) = P::read(texts, rest)? else {
            return Ok(None);
        };
        Ok(Some((word, more)))
    }
}

// Any number of words of one kind.
impl<W: Word + Drop> Part for Many<W> {
    ghost pieces = { map W.spelling };

    ghost fits = { All W.fits };

    fn read(texts: &mut Texts, text: &[u8]) -> Result<Option<Many<W>>, TtFault> {
        let mut items = Vec::new(texts.alloc());
        let mut rest = text;
        while !rest.is_empty() {
            let Some((word, more)) = next(rest) else {
                return Ok(None);
            };
            items.push(word)?;
            rest = more;
        }
        Ok(Some(Many::new(items)))
    }
}

// One character, which is the whole rest.
impl Part for char {
    ghost pieces = { λ char. encode_utf8 char ∷ [] };

    ghost fits = { IsScalar };

    fn read(_texts: &mut Texts, text: &[u8]) -> Result<Option<char>, TtFault> {
        let Some(text) = text.strip_prefix(b" ".as_slice()) else {
            return Ok(None);
        };
        Ok(character(text))
    }
}

// Bytes, which are the whole rest.
impl Part for Digits {
    ghost pieces = { λ bytes. encode_lower bytes ∷ [] };

    ghost fits = { IsBytes };

    fn read(texts: &mut Texts, text: &[u8]) -> Result<Option<Digits>, TtFault> {
        let Some(text) = text.strip_prefix(b" ".as_slice()) else {
            return Ok(None);
        };
        Digits::read(texts.alloc(), text)
    }
}

// A text, which is the whole rest.
impl Part for Symbol {
    ghost pieces = { λ text. text ∷ [] };

    ghost fits = { IsUtf8 };

    fn read(texts: &mut Texts, text: &[u8]) -> Result<Option<Symbol>, TtFault> {
        let Some(text) = text.strip_prefix(b" ".as_slice()) else {
            return Ok(None);
        };
        new_symbol(texts.alloc(), text)
    }
}

// A leaf, which is the whole rest.
impl Part for Leaf {
    ghost pieces = { λ leaf. leaf_words leaf ∷ [] };

    ghost fits = { LeafFits };

    fn read(texts: &mut Texts, text: &[u8]) -> Result<Option<Leaf>, TtFault> {
        let Some(text) = text.strip_prefix(b" ".as_slice()) else {
            return Ok(None);
        };
        leaf(texts, text)
    }
}

// A token, which is the whole rest.
impl Part for TokenTree {
    ghost pieces = { λ token. token_words token ∷ [] };

    ghost fits = { TokenFits };

    fn read(texts: &mut Texts, text: &[u8]) -> Result<Option<TokenTree>, TtFault> {
        let Some(text) = text.strip_prefix(b" ".as_slice()) else {
            return Ok(None);
        };
        token(texts, text)
    }
}
