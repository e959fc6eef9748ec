//! Kinds of delimiters and literals, spacings and rawness, one word each.
ghost use Rattle.tt_base.specs.Fits.{KindFits};
ghost use Rattle.app_language.specs.Token.{kind_word, spacing_word, raw_word, literal_kind_word};
ghost use Rattle.app_language.specs.WordLaws.{spaceless_kind, spaceless_spacing, spaceless_rawness, spaceless_literal_kind};

use crate::command::front::{
    after_alone, after_hidden, after_int, after_joint, after_plain, after_raw, after_str,
};
use crate::command::word::{Word, cut, is, named};
use tt_base::{DelimiterKind, IdentIsRaw, LitKind, Spacing};

impl Word for DelimiterKind {
    ghost spelling = { kind_word };

    ghost fits = { λ _. Unit {0} };

    fn read(word: &[u8]) -> Option<DelimiterKind> {
        named!(word;
            b"paren" => DelimiterKind::Parenthesis,
            b"brace" => DelimiterKind::Brace,
            b"bracket" => DelimiterKind::Bracket,
            b"invisible" => DelimiterKind::Invisible,
            b"opaque" => DelimiterKind::InvisibleOpaque
        )
    }

    ghost has_no_space = { λ kind _. spaceless_kind kind };
}

impl Word for Spacing {
    ghost spelling = { spacing_word };

    ghost fits = { λ _. Unit {0} };

    fn read(word: &[u8]) -> Option<Spacing> {
        named!(word;
            b"alone" => Spacing::Alone,
            b"joint" => Spacing::Joint,
            b"hidden" => Spacing::JointHidden
        )
    }

    #[inline(always)]
    fn read_before_space(text: &[u8]) -> Option<(Spacing, &[u8])> {
        if let Some(rest) = after_alone(text) {
            return Some((Spacing::Alone, rest));
        }
        if let Some(rest) = after_joint(text) {
            return Some((Spacing::Joint, rest));
        }
        let rest = after_hidden(text)?;
        Some((Spacing::JointHidden, rest))
    }

    ghost has_no_space = { λ spacing _. spaceless_spacing spacing };
}

impl Word for IdentIsRaw {
    ghost spelling = { raw_word };

    ghost fits = { λ _. Unit {0} };

    fn read(word: &[u8]) -> Option<IdentIsRaw> {
        named!(word;
            b"plain" => IdentIsRaw::No,
            b"raw" => IdentIsRaw::Yes
        )
    }

    #[inline(always)]
    fn read_before_space(text: &[u8]) -> Option<(IdentIsRaw, &[u8])> {
        if let Some(rest) = after_plain(text) {
            return Some((IdentIsRaw::No, rest));
        }
        let rest = after_raw(text)?;
        Some((IdentIsRaw::Yes, rest))
    }

    ghost has_no_space = { λ is_raw _. spaceless_rawness is_raw };
}

impl Word for LitKind {
    ghost spelling = { literal_kind_word };

    ghost fits = { KindFits };

    fn read(word: &[u8]) -> Option<LitKind> {
        if let Some(count) = word.strip_prefix(b"rstr:".as_slice()) {
            return Some(LitKind::StrRaw(u8::read(count)?));
        }
        if let Some(count) = word.strip_prefix(b"rbstr:".as_slice()) {
            return Some(LitKind::ByteStrRaw(u8::read(count)?));
        }
        if let Some(count) = word.strip_prefix(b"rcstr:".as_slice()) {
            return Some(LitKind::CStrRaw(u8::read(count)?));
        }
        named!(word;
            b"int" => LitKind::Integer,
            b"str" => LitKind::Str,
            b"char" => LitKind::Char,
            b"float" => LitKind::Float,
            b"byte" => LitKind::Byte,
            b"bstr" => LitKind::ByteStr,
            b"cstr" => LitKind::CStr,
            b"err" => LitKind::Err(())
        )
    }

    // The kinds of most literals are recognized at once.
    #[inline(always)]
    fn read_before_space(text: &[u8]) -> Option<(LitKind, &[u8])> {
        if let Some(rest) = after_int(text) {
            return Some((LitKind::Integer, rest));
        }
        if let Some(rest) = after_str(text) {
            return Some((LitKind::Str, rest));
        }
        let (word, rest) = cut(text, b' ')?;
        let kind = LitKind::read(word)?;
        Some((kind, rest))
    }

    ghost has_no_space = { spaceless_literal_kind };
}
