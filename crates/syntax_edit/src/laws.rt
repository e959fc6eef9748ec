//! Laws: a token that is read from a text is the same token alone, so trees that were read can be written, and are read again.
ghost use Rattle.std.specs.Prelude.{◌≡◌, ◌≢◌, ℕ, true, List, [], ◌++◌, take};
ghost use Rattle.std.specs.Str.{chars, IsUtf8};
ghost use Rattle.tt_base.specs.Forest.{Root};
ghost use Rattle.tt_base.specs.declared.span.SpanPart.{SpanPart};
ghost use Rattle.syntax_lex.specs.Reading.{first_token_of, reading};
ghost use Rattle.syntax_lex.specs.declared.token.Token.{Token};
ghost use Rattle.syntax_lex.specs.declared.token.TokenKind.{TokenKind};
ghost use Rattle.syntax_edit.specs.Whole.{is_whole};
ghost use Rattle.syntax_parse.specs.Parsed.{IsParse};
ghost use Rattle.syntax_parse.specs.Role.{role_in};
ghost use Rattle.syntax_parse.specs.Spelled.{spelled};
ghost use Rattle.syntax_parse.specs.declared.role.Role.TheVariants.{Leaf};
ghost use Rattle.syntax_unparse.specs.Marks.{marks};
ghost use Rattle.syntax_unparse.specs.Settled.{sorts};
ghost use Rattle.syntax_unparse.specs.Text.{text_of};
ghost use Rattle.syntax_unparse.specs.Writable.{IsOneToken, IsWritable, first_kind};

/// A token of a text is the same token if it takes all of the text. This holds for all tokens except comments, white space, prefixes,
/// names with emoji, and what is not closed.
pub fn token_alone()
    ensures { (text rest : List ℕ) → (kind : TokenKind) → text ≢ [] → reading (text ++ rest) ≡ (kind, rest) → is_whole kind ≡ true
        → reading text ≡ (kind, []) }
{}

/// The bytes of such a token that means leaves are one token, of the same kind.
pub fn leaf_alone()
    ensures { (text : List ℕ) → (token : Token) → IsUtf8 text → chars text ≢ [] → token ≡ first_token_of (chars text) → is_whole token.kind ≡ true
        → role_in token.kind (take token.len text) ≡ Leaf
        → IsOneToken (take token.len text) × (first_kind (take token.len text) ≡ token.kind) }
{}

/// Trees that were read from a text can be written.
pub fn read_is_writable()
    ensures { (part : SpanPart) → (text : List ℕ) → (root : Root) → IsUtf8 text → IsParse part text root → IsWritable root.children }
{}

/// And their text is read as the same trees: the same leaves and brackets with the same spacings, spans aside.
pub fn read_again()
    ensures { (part other : SpanPart) → (text : List ℕ) → (root again : Root) → IsUtf8 text → IsParse part text root
        → IsParse other (text_of root.children) again
        → sorts (spelled again.children) ≡ sorts (spelled root.children) }
{}
