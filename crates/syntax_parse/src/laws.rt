//! Laws of the definitions that the contracts cite. Each is the contract of a function that does nothing.
ghost use Rattle.std.specs.Prelude.{◌≡◌, ◌↔◌, ◌++◌, IsTrue, List, ℕ, None, IsUtf8};
ghost use Rattle.tt_base.specs.Forest.{Forest};
ghost use Rattle.syntax_lex.specs.declared.token.LiteralKind.{LiteralKind};
ghost use Rattle.syntax_parse.specs.Inside.{inside_fault};
ghost use Rattle.syntax_parse.specs.LiteralText.{IsLiteralText, closing, is_quoted, opening};
ghost use Rattle.syntax_parse.specs.Spelled.{spelled};

/// Trees with the same spelling are equal, so a text has one tree.
pub fn one_spelling()
    ensures { (a b : Forest) → spelled a ≡ spelled b → a ≡ b }
{}

/// Nothing is wrong inside of a literal in quotes that is not raw exactly if the Rust reference lets a literal of
/// its kind hold the text between its quotes.
pub fn literal_text()
    ensures { (kind : LiteralKind) → (body : List ℕ) → IsTrue (is_quoted kind) → IsUtf8 body
        → (inside_fault kind (opening kind ++ (body ++ closing kind)) ≡ None) ↔ IsLiteralText kind body }
{}
