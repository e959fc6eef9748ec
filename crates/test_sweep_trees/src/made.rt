//! Calls that make something new, of what they are lent.
use crate::prepared::Prepared;
use std::alloc::Global;
use test_sweep::{Call, When, braces, judge, plus, span, ten};
use tt::{
    DelimSpan, Ident, LitKind, Literal, LiteralScan, Symbol, TopSubtree, TtFault, debug_text,
    display_text, pretty, token_to_literal,
};
use tt_pack::laws;

/// How that call of the group ended.
pub fn judged<R: Print>(rt: &R, given: Prepared<'_>, call: &str) -> &'static str {
    judge(rt, &mut Making { call, given })
}

// A call that makes something new, and what it is lent.
#[derive(Clone, Copy)]
struct Making<'a> {
    call: &'a str,
    given: Prepared<'a>,
}

impl Call for Making<'_> {
    fn make(&mut self) -> Result<bool, TtFault> {
        let alloc = self.given.alloc;
        match self.call {
            "Symbol::new" => Ok(Symbol::new(alloc, "a name")?.as_str() == "a name"),
            "Ident::new" => Ok(is_raw_type(&Ident::new(alloc, "r#type", span(1))?)),
            "Literal::new" | "Literal::new_no_suffix" | "token_to_literal" => self.literal(),
            "symbol_bytes" | "span_bytes" | "token_bytes" => self.bytes(),
            "display_text" | "pretty" | "debug_text" => self.text(),
            "Packed::clone" => Ok(self.given.packed.clone(alloc)? == *self.given.packed),
            _ => self.tree(),
        }
    }

    fn is_left(&self, _when: When) -> Result<bool, TtFault> {
        Ok(*self.given.tree == *self.given.copy)
    }
}

fn is_raw_type(ident: &Ident) -> bool {
    ident.sym.as_str() == "type" && ident.is_raw.yes() && ident.span == span(1)
}

// The text of the long tree, by Display and by `pretty`.
const LONG_TEXT: &str = "{[a +] [b +] [c +] [d +] [e +] [f +] [g +] [h +]}";

// The lines of parentheses over an ident and a plus.
const LINES: &str =
    "SUBTREE () 0:0@0..0#0 0:0@0..0#0\n  IDENT   a 0:1@0..0#0\n  PUNCH   + [joint] 0:2@0..0#0";

impl Making<'_> {
    // A literal: `1u8`, or `"ab"`.
    fn literal(&self) -> Result<bool, TtFault> {
        let alloc = self.given.alloc;
        let (kind, text, suffix) = match self.call {
            "Literal::new_no_suffix" => (LitKind::Str, "ab", ""),
            _ => (LitKind::Integer, "1", "u8"),
        };
        let made = match self.call {
            "Literal::new" => Literal::new(alloc, "1", span(1), kind, "u8")?,
            "Literal::new_no_suffix" => Literal::new_no_suffix(alloc, "ab", span(1), kind)?,
            _ => token_to_literal(alloc, "1u8", span(1), Some((LiteralScan::Int, 1)))?,
        };
        Ok(made.kind() == kind && made.text() == text && made.suffix() == suffix)
    }

    // The bytes of a symbol, of a span, or of a plus whose part is the first.
    fn bytes(&self) -> Result<bool, TtFault> {
        let alloc = self.given.alloc;
        let parts = self.given.ten.span_part_table();
        let (made, bytes) = match self.call {
            "symbol_bytes" => (
                Some(laws::symbol_bytes(alloc, 64, 0)?),
                b"\x02\x02".as_slice(),
            ),
            "span_bytes" => (
                Some(laws::span_bytes(alloc, 16, 0, 1, 0, false)?),
                b"\x40\x40\x00\x00\x02\x00\x00\x00".as_slice(),
            ),
            _ => (
                laws::token_bytes(alloc, &plus(1).into(), parts, &[], 0)?,
                b"\x01\x00\x00\x00\x57".as_slice(),
            ),
        };
        Ok(made.is_some_and(|made| made.as_slice() == bytes))
    }

    // The text of a tree.
    fn text(&self) -> Result<bool, TtFault> {
        let given = self.given;
        let trees = given.tree.as_token_trees();
        let (made, text) = match self.call {
            "display_text" => (display_text(given.alloc, trees)?, LONG_TEXT),
            "pretty" => (pretty(given.alloc, trees)?, LONG_TEXT),
            _ => (debug_text(given.alloc, given.sum.as_token_trees())?, LINES),
        };
        Ok(made.as_str() == text)
    }

    // A tree.
    fn tree(&self) -> Result<bool, TtFault> {
        let given = self.given;
        let (alloc, tree) = (given.alloc, given.tree);
        let made = match self.call {
            "empty" => TopSubtree::empty(alloc, DelimSpan::from_single(span(0)))?,
            "invisible_from_leaves" => TopSubtree::invisible_from_leaves(alloc, span(0), ten())?,
            "from_token_trees" => {
                TopSubtree::from_token_trees(alloc, braces(), tree.token_trees())?
            }
            "from_subtree" => TopSubtree::from_subtree(alloc, tree.view())?,
            "TopSubtree::clone" => tree.clone(alloc)?,
            _ => return Ok(false),
        };
        Ok(made == *self.wanted())
    }

    // What that tree has to be.
    fn wanted(&self) -> &TopSubtree {
        match self.call {
            "empty" => self.given.empty,
            "invisible_from_leaves" => self.given.ten,
            _ => self.given.tree,
        }
    }
}
