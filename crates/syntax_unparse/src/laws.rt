//! Laws of the definitions that the contracts cite. Each is the contract of a function that does nothing.
ghost use Rattle.std.specs.Prelude.{◌≡◌, ◌≢◌, ◌+◌, ◌^◌, ◌<◌, ◌++◌, codes, false, length, List, ℕ};
ghost use Rattle.tt_base.specs.Forest.{Forest, Root};
ghost use Rattle.tt_base.specs.LeafText.{ident_text};
ghost use Rattle.tt_base.specs.TreeText.{display};
ghost use Rattle.tt_base.specs.declared.delimiter.Delimiter.{Delimiter};
ghost use Rattle.tt_base.specs.declared.ident.Ident.{Ident};
ghost use Rattle.tt_base.specs.declared.span.SpanPart.{SpanPart};
ghost use Rattle.syntax_parse.specs.Parsed.{IsParse};
ghost use Rattle.syntax_parse.specs.Refusal.{IsFaultOf};
ghost use Rattle.syntax_parse.specs.Spelled.{spelled};
ghost use Rattle.syntax_parse.specs.declared.fault.SyntaxFault.{SyntaxFault};
ghost use Rattle.syntax_unparse.specs.Displayed.{IsDisplayed, IsPlain, with_nothing};
ghost use Rattle.syntax_unparse.specs.Marks.{marks};
ghost use Rattle.syntax_unparse.specs.Settled.{ReadsBack, settled, sorts};
ghost use Rattle.syntax_unparse.specs.Text.{text_of};
ghost use Rattle.syntax_unparse.specs.Writable.{IsWritable, IsWriteFault};
ghost use Rattle.syntax_unparse.specs.declared.behind.Behind.TheVariants.{Opening};
ghost use Rattle.syntax_unparse.specs.declared.fault.WriteFault.{WriteFault};
ghost use Rattle.syntax_unparse.specs.declared.fault.WriteFault.TheVariants.{Memory};

/// The text of trees that can be written has only valid tokens, its brackets match, and its pieces are the
/// settled leaves and brackets of the trees.
pub fn reads_back()
    ensures { (trees : Forest) → IsWritable trees → ReadsBack trees (text_of trees) }
{}

/// So the trees read from such a text have the settled leaves and brackets of the trees, without their spans.
pub fn read_as_settled()
    ensures { (trees : Forest) → (text : List ℕ) → (part : SpanPart) → (root : Root) → ReadsBack trees text → IsParse part text root
        → sorts (spelled root.children) ≡ settled (marks 0 trees) }
{}

/// And the text has no fault of syntax.
pub fn no_syntax_fault()
    ensures { (trees : Forest) → (text : List ℕ) → (fault : SyntaxFault) → ReadsBack trees text → IsFaultOf text fault → ⊥ }
{}

/// Trees that are not written have one fault, unless memory runs out.
pub fn one_fault()
    ensures { (trees : Forest) → (one other : WriteFault) → IsWriteFault trees one → IsWriteFault trees other → one ≢ Memory → other ≢ Memory → one ≡ other }
{}

/// Trees that can be written, with a text that is not too long, have no fault, unless memory runs out.
pub fn no_fault()
    ensures { (trees : Forest) → (fault : WriteFault) → IsWritable trees → 1 + length (text_of trees) < 2 ^ 32 → IsWriteFault trees fault → fault ≡ Memory }
{}

/// The text is that of Display if each subtree has the same brackets in both, or none in both, and the text
/// has a space exactly where Display has one.
pub fn as_displayed()
    ensures { (trees : Forest) → IsDisplayed false Opening trees → text_of trees ≡ display trees }
{}

/// The condition holds if each subtree has brackets, no `'` is alone, and no string follows a `#` that is joint or joint hidden.
pub fn plain_displayed()
    ensures { (trees : Forest) → IsPlain Opening trees → IsDisplayed false Opening trees }
{}

/// An empty subtree without brackets after a name is a space in Display, and nothing in the Rust text.
pub fn empty_subtree()
    ensures { (name : Ident) → (delimiter : Delimiter) → (text_of (with_nothing name delimiter) ≡ ident_text name)
        × (display (with_nothing name delimiter) ≡ ident_text name ++ codes " ") }
{}
