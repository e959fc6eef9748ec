//! Laws: a token of a text stays the same if what follows it changes. So a text in which trees replace parts is
//! read as its own pieces and as those trees.
ghost use Rattle.std.specs.Prelude.{◌≡◌, ◌≢◌, ℕ, true, false, List, [], ◌∷◌, ◌++◌};
ghost use Rattle.std.specs.Str.{IsUtf8};
ghost use Rattle.tt_base.specs.Forest.{Root};
ghost use Rattle.tt_base.specs.declared.span.SpanPart.{SpanPart};
ghost use Rattle.syntax_edit.specs.Texts.{begun, joined, with_all};
ghost use Rattle.syntax_lex.specs.Reading.{reading};
ghost use Rattle.syntax_lex.specs.declared.token.TokenKind.{TokenKind};
ghost use Rattle.syntax_edit.specs.Calls.{IsWoven};
ghost use Rattle.syntax_edit.specs.Kept.{ends_in_line, is_number, is_parting, is_sound};
ghost use Rattle.syntax_edit.specs.Splices.{ArePlaces, Splice, replacements_of, woven};
ghost use Rattle.syntax_lex.specs.Stops.{is_ended};
ghost use Rattle.syntax_parse.specs.Parsed.{IsParse};
ghost use Rattle.syntax_parse.specs.Refusal.{IsFaultOf};
ghost use Rattle.syntax_parse.specs.Spelled.{Sort, spelled};
ghost use Rattle.syntax_parse.specs.declared.fault.SyntaxFault.{SyntaxFault};
ghost use Rattle.syntax_unparse.specs.Settled.{sorts};

/// A token of a text with a kept part after it is the same token, and ends there, whatever follows the kept part. This holds for each sound
/// token, except a number if the kept part is only a point.
pub fn token_kept()
    ensures { (text kept rest other : List ℕ) → (kind : TokenKind) → text ≢ [] → kept ≢ [] → reading (text ++ (kept ++ rest)) ≡ (kind, kept ++ rest) → is_sound kind ≡ true
        → (is_number kind ≡ true → kept ≢ 46 ∷ [])
        → reading (text ++ (kept ++ other)) ≡ (kind, kept ++ other) }
{}

/// A sound token that takes all of a text is the same token, and ends there, if white space of ASCII, a bracket, a comma or a semicolon
/// follows it. This holds for all sound tokens except comments and white space.
pub fn token_parted()
    ensures { (text rest : List ℕ) → (c : ℕ) → (kind : TokenKind) → text ≢ [] → reading text ≡ (kind, []) → is_sound kind ≡ true → is_ended kind ≡ true → is_parting c ≡ true
        → reading (text ++ c ∷ rest) ≡ (kind, c ∷ rest) }
{}

/// And no such token of two characters or more ends with such a character.
pub fn never_last()
    ensures { (front : List ℕ) → (c : ℕ) → (kind : TokenKind) → front ≢ [] → reading (front ++ c ∷ []) ≡ (kind, []) → is_sound kind ≡ true → is_ended kind ≡ true
        → is_parting c ≢ true }
{}

/// Two joined texts are read as both, if the first does not end in a comment to the end of a line.
pub fn read_joined()
    ensures { (part other again_part : SpanPart) → (front back : List ℕ) → (first second again : Root) → IsUtf8 front → IsUtf8 back → (parse : IsParse part front first) → IsParse other back second
        → ends_in_line parse.tokens ≡ false → IsParse again_part (joined front back) again
        → sorts (spelled again.children) ≡ sorts (spelled first.children) ++ sorts (spelled second.children) }
{}

/// A text in which trees replace parts is read as its pieces outside of the places, and as the settled leaves
/// and brackets of the trees in each place.
pub fn read_spliced()
    ensures { (part other : SpanPart) → (text : List ℕ) → (root again : Root) → (splices : List Splice) → IsUtf8 text → (parse : IsParse part text root)
        → ArePlaces splices 0 text parse.tokens → IsParse other (with_all (replacements_of splices) (begun text)) again
        → sorts (spelled again.children) ≡ woven splices (spelled root.children) }
{}

/// And that text has no fault of syntax.
pub fn no_fault_spliced()
    ensures { (part : SpanPart) → (text : List ℕ) → (root : Root) → (splices : List Splice) → (fault : SyntaxFault) → IsUtf8 text → (parse : IsParse part text root)
        → ArePlaces splices 0 text parse.tokens → IsFaultOf (with_all (replacements_of splices) (begun text)) fault → ⊥ }
{}

/// Trees replace calls among the pieces of a text. Each call begins after no `'` and after no point that follows a literal. Then the text
/// is read as the other pieces, and as the settled leaves and brackets of the trees.
pub fn read_woven()
    ensures { (part other : SpanPart) → (text : List ℕ) → (root again : Root) → (splices : List Splice) → (all : List Sort) → IsUtf8 text → IsParse part text root
        → IsWoven [] (spelled root.children) splices all → IsParse other (with_all (replacements_of splices) (begun text)) again
        → sorts (spelled again.children) ≡ all }
{}

/// And that text has no fault of syntax.
pub fn no_fault_woven()
    ensures { (part : SpanPart) → (text : List ℕ) → (root : Root) → (splices : List Splice) → (all : List Sort) → (fault : SyntaxFault) → IsUtf8 text → IsParse part text root
        → IsWoven [] (spelled root.children) splices all → IsFaultOf (with_all (replacements_of splices) (begun text)) fault → ⊥ }
{}
