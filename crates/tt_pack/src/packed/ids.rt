//! Changes the ids of a stored tree's spans in place.
ghost use Rattle.std.specs.Prelude.{◌≡◌, ◌≤◌, ◌↔◌, length, IsTrue, IfOk};
ghost use Rattle.std.specs.List.{IsDistinct};
ghost use Rattle.tt_tables.specs.AstIds.{ids_changed, part_with_id, parts_with_ids, under_parts, KeepApart};
ghost use Rattle.tt_tables.specs.Stored.{packed, root_parts, IsWithinLimits};
ghost use Rattle.tt_tables.specs.Uses.{same_part};

use crate::packed::Packed;
use crate::table::TOP_PARTS;
use indexmap::IndexSet;
use std::alloc::{AllocError, Global};
use tt_base::{ErasedFileAstId, SpanAnchor, SpanPart};

// Returns the part with another id.
fn with_id(id: ErasedFileAstId, part: SpanPart) -> SpanPart
    ensures { result ≡ part_with_id id part }
{
    SpanPart {
        anchor: SpanAnchor {
            file_id: part.anchor.file_id,
            ast_id: id,
        },
        ctx: part.ctx,
    }
}

// Sets the id of each part.
fn put_ids(parts: &mut [SpanPart], ids: &[ErasedFileAstId])
    requires { length ids.now ≡ length parts.old }
    ensures { parts.new ≡ parts_with_ids ids.now parts.old }
{
    for index in 0..parts.len() {
        parts[index] = with_id(ids[index], parts[index]);
    }
}

// Returns whether the parts are all different after they get these ids.
fn are_apart(alloc: Global, parts: &[SpanPart], ids: &[ErasedFileAstId]) -> Result<bool, AllocError>
    requires { length parts.now ≤ length ids.now }
    ensures { IfOk result (λ apart. IsTrue apart ↔ IsDistinct same_part (parts_with_ids ids.now parts.now)) }
{
    let mut found = IndexSet::with_capacity(alloc, parts.len())?;
    for index in 0..parts.len() {
        if !found.insert(with_id(ids[index], parts[index]))? {
            return Ok(false);
        }
    }
    Ok(true)
}

impl Packed {
    /// Returns whether the entries of the table of span parts below the top are all different after they get these ids. There is one id
    /// for each entry of the table. Fails only if memory for a set of the entries runs out.
    pub fn ids_keep_apart(&self, alloc: Global, ids: &[ErasedFileAstId]) -> Result<bool, AllocError>
        requires { length ids.now ≡ length (root_parts self.now) }
        ensures { IfOk result (λ apart. IsTrue apart ↔ KeepApart ids.now self.now) }
    {
        let below = self.parts.len() - TOP_PARTS;
        are_apart(alloc, &self.parts[..below], ids)
    }

    /// Changes the ids of all spans in place. There is one id for each entry of the table of span parts, and `ids_keep_apart` returns
    /// true for them. Each span takes the id for its entry. The bytes and the symbols stay.
    pub fn set_ids(&mut self, ids: &[ErasedFileAstId])
        requires count { length ids.now ≡ length (root_parts self.old) }
        requires apart { KeepApart ids.now self.old }
        ensures value { self.new ≡ ids_changed ids.now self.old }
        ensures stored { packed self.new ≡ under_parts (parts_with_ids ids.now (root_parts self.old)) (packed self.old) }
        ensures limits { IsWithinLimits self.new }
    {
        put_ids(self.parts.as_mut_slice(), ids);
    }
}
