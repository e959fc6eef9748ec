//! The tokens of a list in numbers, under the two tables that are stored for them.
ghost use Rattle.std.specs.Prelude.{◌≡◌, ◌+◌, ◌<◌, ◌^◌, List, drop, length};
ghost use Rattle.std.specs.List.{AllByRecursion};
ghost use Rattle.tt_base.specs.declared.token_tree.TokenTree.{TokenTree};
ghost use Rattle.tt_base.specs.Forest.{IsWhole};
ghost use Rattle.tt_tables.specs.Tables.{Tables, Knows, tables_from};
ghost use Rattle.tt_pack.specs.Room.{HasRoomForAll};
ghost use Rattle.tt_pack.specs.WriterOf.{HasWritten};
ghost use Rattle.tt_pack.specs.Writing.{IsEntryAt};

use crate::writer::Writer;
use tt_base::{SpanPart, Symbol};
use tt_codec::Entry;

/// The tokens of a list, each in numbers.
pub(crate) trait Numbered {
    /// The flat list.
    ghost list: { Self → List TokenTree };

    /// The tables that the numbers name.
    ghost tables: { Self → Tables };

    /// What the type knows of its values: it has the index of each value that a token uses.
    ghost leads: { Self → Type 0 };

    /// Returns a number of bytes with room for all tokens, or more than any block of memory has.
    fn room(&self) -> usize
        requires { leads self.now }
        ensures { HasRoomForAll (list self.now) result };

    /// Returns the token at the index in numbers. The tokens after it are written, so a header knows how many bytes its subtree takes.
    fn entry(&self, index: usize, written: &Writer) -> Entry
        requires index { index < length (list self.now) }
        requires few { length (list self.now) < 2 ^ 32 }
        requires whole { IsWhole (drop index (list self.now)) }
        requires known { AllByRecursion (Knows (tables self.now)) (drop index (list self.now)) }
        requires leads { leads self.now }
        requires written { HasWritten (tables self.now) (drop (index + 1) (list self.now)) written.now }
        ensures { IsEntryAt (tables self.now) (list self.now) index result };

    /// Returns the two tables, and drops the rest.
    fn into_tables(self) -> (Vec<SpanPart>, Vec<Symbol>)
        ensures { tables_from result.0.items result.1.items ≡ tables self };
}
