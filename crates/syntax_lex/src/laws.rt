//! Laws of the definitions that the contracts cite. Each is the contract of a function that does nothing.
ghost use Rattle.std.specs.Prelude.{◌≡◌, ◌≢◌, ◌↔◌, ℕ, true, false, List, [], ◌∷◌, ◌++◌, replicate};
ghost use Rattle.std.specs.Iterator.{Drains};
ghost use Rattle.std.specs.Str.{chars};
ghost use Rattle.syntax_lex.specs.Class.{is_whitespace};
ghost use Rattle.syntax_lex.specs.Clear.{Clear};
ghost use Rattle.syntax_lex.specs.Closing.{behind_comment, behind_quote, behind_raw};
ghost use Rattle.syntax_lex.specs.Ends.{IsEnd};
ghost use Rattle.syntax_lex.specs.Front.{byte_length, first};
ghost use Rattle.syntax_lex.specs.Grammar.{IsCommentText, IsRawText, IsStringText};
ghost use Rattle.syntax_lex.specs.Opening.{symbol};
ghost use Rattle.syntax_lex.specs.Reading.{AreTokensOf, bytes_of, reading};
ghost use Rattle.syntax_lex.specs.Stops.{Stops, is_ended, is_glued, is_sign, is_sound};
ghost use Rattle.syntax_lex.specs.Tokens.{gives};
ghost use Rattle.syntax_lex.specs.declared.token.Token.{Token};
ghost use Rattle.syntax_lex.specs.declared.token.TokenKind.{TokenKind};
ghost use Rattle.syntax_lex.specs.declared.token.TokenKind.TheVariants.{Whitespace};
ghost use Rattle.syntax_lex.specs.declared.tokens.Tokenize.{Tokenize};

/// A token takes at least the first character, and the rest after it is an end of the text.
pub fn what_is_left()
    ensures { (c : ℕ) → (cs : List ℕ) → IsEnd (reading (c ∷ cs)).1 cs }
{}

/// A text has one list of tokens.
pub fn one_list()
    ensures { (a b : List Token) → (text : List ℕ) → AreTokensOf a text → AreTokensOf b text → a ≡ b }
{}

/// Its tokens take its bytes, no more and no fewer.
pub fn all_bytes()
    ensures { (tokens : List Token) → (text : List ℕ) → AreTokensOf tokens text → bytes_of tokens ≡ byte_length text }
{}

/// A closed string is the text of a string, then a quote, then the rest.
pub fn string_closed()
    ensures { (cs rest : List ℕ) → behind_quote false cs ≡ (true, rest) → (body : List ℕ) × IsStringText body × (cs ≡ body ++ 34 ∷ rest) }
{}

/// The text of a string with a quote after it is read as a closed string, whatever follows.
pub fn string_read()
    ensures { (body rest : List ℕ) → IsStringText body → behind_quote false (body ++ 34 ∷ rest) ≡ (true, rest) }
{}

/// A closed raw text of `n` hashes ends with a quote and `n` hashes, and no earlier quote has as many after it.
pub fn raw_closed()
    ensures { (n : ℕ) → (cs rest : List ℕ) → behind_raw n cs ≡ (true, rest) → (body : List ℕ) × IsRawText n body × (cs ≡ body ++ 34 ∷ (replicate n 35 ++ rest)) }
{}

/// A raw text of `n` hashes with a quote and `n` hashes after it is read as closed, whatever follows.
pub fn raw_read()
    ensures { (n : ℕ) → (body rest : List ℕ) → IsRawText n body → behind_raw n (body ++ 34 ∷ (replicate n 35 ++ rest)) ≡ (true, rest) }
{}

/// After its first `/*`, a closed comment has one `*/` more than `/*`, and no shorter part from there has more `*/` than `/*`. With the
/// first `/*` included, both are equally many at the end, and each shorter part has more `/*`.
pub fn comment_closed()
    ensures { (cs rest : List ℕ) → behind_comment 0 cs ≡ (true, rest) → (body : List ℕ) × IsCommentText 0 body × (cs ≡ body ++ rest) }
{}

/// Such a text is read as a closed comment, whatever follows.
pub fn comment_read()
    ensures { (body rest : List ℕ) → IsCommentText 0 body → behind_comment 0 (body ++ rest) ≡ (true, rest) }
{}

/// The calls of `next`, up to the first `None`, give the tokens of the text.
pub fn in_order()
    ensures { (s : Tokenize) → (tokens : List Token) → Drains gives s tokens → AreTokensOf tokens (chars s.rest.now) }
{}

/// A text before a rest is read as a sound token that is ended, with that rest left, exactly if the text alone is read as the token, and
/// the token is clear of the next two characters.
pub fn token_clear()
    ensures { (text rest : List ℕ) → (kind : TokenKind) → text ≢ [] → is_sound kind ≡ true → is_ended kind ≡ true
        → (reading (text ++ rest) ≡ (kind, rest)) ↔ ((reading text ≡ (kind, [])) × Clear kind text rest) }
{}

/// A token that takes all of a text is the same token and ends there if a space, a bracket or nothing follows it. This holds for all tokens
/// except comments, white space, and what is not closed.
pub fn token_ends()
    ensures { (text rest : List ℕ) → (kind : TokenKind) → text ≢ [] → reading text ≡ (kind, []) → is_ended kind ≡ true → Stops rest
        → reading (text ++ rest) ≡ (kind, rest) }
{}

/// A punct or a bracket is a token whatever follows it, unless the two make a comment or a prefix.
pub fn sign_ends()
    ensures { (c : ℕ) → (rest : List ℕ) → is_sign c ≡ true → is_glued c (first rest) ≡ false → reading (c ∷ rest) ≡ (symbol c, rest) }
{}

/// A space is a token if no white space follows it.
pub fn space_ends()
    ensures { (rest : List ℕ) → is_whitespace (first rest) ≡ false → reading (32 ∷ rest) ≡ (Whitespace, rest) }
{}
