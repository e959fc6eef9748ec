//! The different values of a list of tokens, found token by token.
ghost use Rattle.std.specs.Prelude.{ℕ, List, IfOk, IfSome, IfNone};
ghost use Rattle.tt_base.specs.declared.span.SpanPart.{SpanPart};
ghost use Rattle.tt_base.specs.Span.{part_of};
ghost use Rattle.tt_pack.specs.Meeting.{CanMeet, MeetsPart, MeetsSymbol};

use std::alloc::AllocError;
use tt_base::{Span, Symbol};

/// The different parts and symbols of a list of tokens. The index of each is its place in the order of first uses, parts and symbols
/// apart.
pub(crate) trait Values {
    /// The parts and the symbols used so far, each as often as it was used.
    ghost has_met: { Self → List SpanPart → List (List ℕ) → Type 0 };

    /// Whether a value may have no place.
    ghost may_lack: { Type 0 };

    /// Adds one use of a span's part, and returns the part's index, or `None` if there is no place for it. Looks first at the index of
    /// another use.
    fn part_index(&mut self, other: u32, span: &Span) -> Result<Option<u32>, AllocError>
        requires { CanMeet has_met self.old 1 0 }
        ensures met { IfOk result (λ found. IfSome found (MeetsPart has_met self.old self.new (part_of span.now))) }
        ensures none { IfOk result (λ found. IfNone found may_lack) };

    /// Adds one use of a symbol, and returns the symbol's index, or `None` if there is no place for it.
    fn symbol_index(&mut self, symbol: &Symbol) -> Result<Option<u32>, AllocError>
        requires { CanMeet has_met self.old 0 1 }
        ensures met { IfOk result (λ found. IfSome found (MeetsSymbol has_met self.old self.new symbol.now)) }
        ensures none { IfOk result (λ found. IfNone found may_lack) };
}
