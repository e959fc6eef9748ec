//! The texts of literals and of their kinds.
ghost use Rattle.std.specs.Prelude.{◌++◌, codes, Some};
ghost use Rattle.std.specs.Fmt.{WritesOnOk};
ghost use Rattle.tt_base.specs.DebugText.{kind_text};
ghost use Rattle.tt_base.specs.LeafText.{hashes, literal_text};

use crate::literal::{LitKind, Literal};
use std::fmt;

// Writes that many `#`.
#[derive(Clone, Copy)]
struct Hashes(u8);

impl fmt::Display for Hashes {
    ghost output = { λ count. Some (hashes count.0) };

    fn fmt<W: fmt::Write>(&self, f: &mut fmt::Formatter<W>) -> fmt::Result {
        for _ in 0..self.0 {
            f.write_str("#")?;
        }
        Ok(())
    }
}

impl fmt::Display for Literal {
    ghost output = { λ literal. Some (literal_text literal) };

    fn fmt<W: fmt::Write>(&self, f: &mut fmt::Formatter<W>) -> fmt::Result {
        let (text, suffix) = self.text_and_suffix();
        match self.kind() {
            LitKind::Byte => write!(f, "b'{text}'{suffix}"),
            LitKind::Char => write!(f, "'{text}'{suffix}"),
            LitKind::Integer | LitKind::Float | LitKind::Err(()) => write!(f, "{text}{suffix}"),
            LitKind::Str => write!(f, "\"{text}\"{suffix}"),
            LitKind::ByteStr => write!(f, "b\"{text}\"{suffix}"),
            LitKind::CStr => write!(f, "c\"{text}\"{suffix}"),
            LitKind::StrRaw(count) => write_raw(f, "r", Hashes(count), text, suffix),
            LitKind::ByteStrRaw(count) => write_raw(f, "br", Hashes(count), text, suffix),
            LitKind::CStrRaw(count) => write_raw(f, "cr", Hashes(count), text, suffix),
        }
    }
}

// Writes a raw string between its quotes and hashes.
fn write_raw<W: fmt::Write>(
    f: &mut fmt::Formatter<W>,
    prefix: &str,
    fence: Hashes,
    text: &str,
    suffix: &str,
) -> fmt::Result
    ensures { WritesOnOk W.write_str_gives f.old result
        (prefix.now ++ hashes fence.0 ++ codes "\"" ++ text.now ++ codes "\"" ++ hashes fence.0 ++ suffix.now) f.new }
{
    write!(f, "{prefix}{fence}\"{text}\"{fence}{suffix}")
}

impl fmt::Debug for LitKind {
    ghost debug_output = { λ kind. Some (kind_text kind) };

    fn fmt<W: fmt::Write>(&self, f: &mut fmt::Formatter<W>) -> fmt::Result {
        match self {
            LitKind::Byte => f.write_str("Byte"),
            LitKind::Char => f.write_str("Char"),
            LitKind::Integer => f.write_str("Integer"),
            LitKind::Float => f.write_str("Float"),
            LitKind::Str => f.write_str("Str"),
            LitKind::StrRaw(count) => write!(f, "StrRaw({count})"),
            LitKind::ByteStr => f.write_str("ByteStr"),
            LitKind::ByteStrRaw(count) => write!(f, "ByteStrRaw({count})"),
            LitKind::CStr => f.write_str("CStr"),
            LitKind::CStrRaw(count) => write!(f, "CStrRaw({count})"),
            LitKind::Err(()) => f.write_str("Err(())"),
        }
    }
}
