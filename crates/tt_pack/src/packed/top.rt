//! Changes the delimiter of a stored tree's top in place.
ghost use Rattle.std.specs.Prelude.{◌≡◌};
ghost use Rattle.tt_base.specs.Edits.{with_kind, with_spans};
ghost use Rattle.tt_pack.specs.Packed.{with_top};

use crate::packed::Packed;
use crate::reader::{Reader, TOP_BYTES};
use crate::table::TOP_PARTS;
use tt_base::{DelimSpan, Delimiter, DelimiterKind, SpanPart, Subtree, TokenTree};
use tt_codec::HeaderEntry;

impl Packed {
    /// Changes the kind of the top's delimiter in place. Readers return all other tokens as before.
    pub fn set_top_kind(&mut self, kind: DelimiterKind)
        ensures { self.new ≡ with_kind kind self.old }
    {
        let Delimiter {
            open_span,
            close,
            ..
        } = self.top_delimiter();
        self.set_top(Delimiter {
            open_span,
            close,
            kind,
        });
    }

    /// Changes the spans of the top's delimiter in place. Readers return all other tokens as before.
    pub fn set_top_spans(&mut self, spans: DelimSpan)
        ensures { self.new ≡ with_spans spans self.old }
    {
        let Delimiter { kind, .. } = self.top_delimiter();
        self.set_top(Delimiter {
            open_span: spans.open_span,
            close: spans.close,
            kind,
        });
    }

    // Returns the top's delimiter.
    fn top_delimiter(&self) -> Delimiter
        ensures { result ≡ self.now.delimiter }
    {
        match Reader::start(self).advance() {
            Some(TokenTree::Subtree(top)) => top.delimiter,
            _ => unreachable!(),
        }
    }

    // Writes the top's header over the old one, and its two parts over the last two.
    fn set_top(&mut self, delimiter: Delimiter)
        ensures { self.new ≡ with_top delimiter self.old }
    {
        let part = self.parts.len() - TOP_PARTS;
        let top = Subtree {
            delimiter,
            len: (self.len - 1) as u32,
        };
        let child_bytes = (self.bytes.len() - TOP_BYTES) as u32;
        let entry = HeaderEntry::of_top(part as u32, top, child_bytes);
        entry.overwrite(self.bytes.as_mut_slice());
        self.parts[part] = SpanPart::from_span(&delimiter.open_span);
        self.parts[part + 1] = SpanPart::from_span(&delimiter.close);
    }
}
