//! Words what may follow a fragment.
ghost use Rattle.std.specs.Prelude.{◌≡◌, option_map};
ghost use Rattle.mbe_follow.specs.Allowed.{allowed_behind, allowed_behind_grammar};

use mbe_pattern::{Fragment, GrammarFragment};

// Returns what may follow a fragment of Rust's grammar.
fn allowed_behind_grammar(fragment: GrammarFragment) -> Option<&'static str>
    ensures { option_map (λ text. text.now) result ≡ allowed_behind_grammar fragment }
{
    match fragment {
        GrammarFragment::Expr | GrammarFragment::Expr2021 | GrammarFragment::Stmt => {
            Some("`=>`, `,` or `;`")
        }
        GrammarFragment::Ty | GrammarFragment::Path => {
            Some("`{`, `[`, `=>`, `,`, `>`, `=`, `:`, `;`, `|`, `as` or `where`")
        }
        GrammarFragment::Pat => Some("`=>`, `,`, `=`, `if` or `in`"),
        GrammarFragment::PatParam => Some("`=>`, `,`, `=`, `|`, `if` or `in`"),
        GrammarFragment::Item | GrammarFragment::Meta => None,
    }
}

/// Returns what may follow a fragment, as rustc words it, or none if anything may.
pub fn allowed_behind(fragment: Fragment) -> Option<&'static str>
    ensures { option_map (λ text. text.now) result ≡ allowed_behind fragment }
{
    match fragment {
        Fragment::Ident | Fragment::Literal | Fragment::Lifetime | Fragment::Block | Fragment::Tt =>
            None,
        Fragment::Vis => Some("`,`, an ident or a type"),
        Fragment::Grammar(which) => allowed_behind_grammar(which),
    }
}
