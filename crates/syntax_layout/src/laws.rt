//! Laws: no layout, and no comment in place of an attribute, changes how a text is read. Each law is the contract of a function that does nothing.
ghost use Rattle.std.specs.Prelude.{◌≡◌, List, ℕ, true};
ghost use Rattle.std.specs.Str.{IsUtf8};
ghost use Rattle.tt_base.specs.Forest.{Forest, Root};
ghost use Rattle.tt_base.specs.declared.span.SpanPart.{SpanPart};
ghost use Rattle.syntax_layout.specs.Documented.{IsDocumented};
ghost use Rattle.syntax_layout.specs.Gap.{AreGaps};
ghost use Rattle.syntax_layout.specs.Layout.{IsLaidOut};
ghost use Rattle.syntax_edit.specs.Splices.{IsSpelling};
ghost use Rattle.syntax_parse.specs.Parsed.{IsParse};
ghost use Rattle.syntax_parse.specs.Refusal.{IsFaultOf};
ghost use Rattle.syntax_parse.specs.Spelled.{spelled};
ghost use Rattle.syntax_parse.specs.declared.fault.SyntaxFault.{SyntaxFault};
ghost use Rattle.syntax_unparse.specs.Settled.{sorts};
ghost use Rattle.syntax_unparse.specs.Text.{text_of};
ghost use Rattle.syntax_unparse.specs.Writable.{IsWritable};

/// A text that is laid out with any gaps is read as the same trees: the same leaves and brackets with the same spacings, spans aside.
pub fn read_as_before()
    ensures { (part other : SpanPart) → (text written : List ℕ) → (gaps : List (List ℕ)) → (root again : Root) → IsUtf8 text → AreGaps gaps → IsParse part text root
        → IsLaidOut text gaps written → IsParse other written again
        → sorts (spelled again.children) ≡ sorts (spelled root.children) }
{}

/// And it has no fault of syntax.
pub fn no_fault_found()
    ensures { (part : SpanPart) → (text written : List ℕ) → (gaps : List (List ℕ)) → (root : Root) → (fault : SyntaxFault) → IsUtf8 text → AreGaps gaps → IsParse part text root
        → IsLaidOut text gaps written → IsFaultOf written fault → ⊥ }
{}

/// A text that reads back as trees also does so if it is laid out with any gaps.
pub fn laid_out_spells()
    ensures { (trees : Forest) → (text written : List ℕ) → (gaps : List (List ℕ)) → AreGaps gaps → IsSpelling trees text → IsLaidOut text gaps written → IsSpelling trees written }
{}

/// So the Rust text of trees that can be written reads back as them with any gaps.
pub fn tree_text_spells()
    ensures { (trees : Forest) → (written : List ℕ) → (gaps : List (List ℕ)) → AreGaps gaps → IsWritable trees → IsLaidOut (text_of trees) gaps written → IsSpelling trees written }
{}

/// A text that reads back as trees also does so if its documenting attributes are written as comments.
pub fn documented_spells()
    ensures { (trees : Forest) → (text written : List ℕ) → IsSpelling trees text → IsDocumented true text written → IsSpelling trees written }
{}
