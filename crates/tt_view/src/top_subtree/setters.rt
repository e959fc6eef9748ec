//! Changes the delimiter of a tree's top in place.
ghost use Rattle.std.specs.Prelude.{◌≡◌};
ghost use Rattle.tt_base.specs.Edits.{with_kind, with_spans};

use crate::top_subtree::TopSubtree;
use tt_base::{DelimSpan, DelimiterKind};

impl TopSubtree {
    /// Changes the kind of the top's delimiter in place.
    pub fn set_top_subtree_delimiter_kind(&mut self, kind: DelimiterKind)
        ensures { self.new ≡ with_kind kind self.old }
    {
        self.packed.set_top_kind(kind);
    }

    /// Changes the two spans of the top's delimiter in place.
    pub fn set_top_subtree_delimiter_span(&mut self, span: DelimSpan)
        ensures { self.new ≡ with_spans span self.old }
    {
        self.packed.set_top_spans(span);
    }
}
