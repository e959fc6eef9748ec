//! Laws of expanded texts: each is the contract of a function without effect.
ghost use Rattle.std.specs.Prelude.{◌≡◌, ℕ, [], List, codes, string_bytes, true};
ghost use Rattle.tt.specs.Forest.{Root};
ghost use Rattle.expand_text.specs.Expansion.{IsExpanded};
ghost use Rattle.expand_text.specs.Lacking.{Lacks};
ghost use Rattle.expand_text.specs.Left.{NoneIsLeft};
ghost use Rattle.expand_text.specs.Limits.{KeepLimits};
ghost use Rattle.expand_text.specs.declared.options.ExpandOptions.{ExpandOptions};
ghost use Rattle.expand_text.specs.declared.text.Expanded.{Expanded};
ghost use Rattle.syntax_edit.specs.Places.{text_part};
ghost use Rattle.syntax_parse.specs.Parsed.{IsParse};

/// A text without the word `macro_rules` stays as it is, and has no findings.
pub fn unchanged()
    ensures { (options : ExpandOptions) → (source : List ℕ) → (it : Expanded) → IsExpanded options source it
        → ((tree : Root) → IsParse text_part source tree → Lacks (codes "macro_rules") tree.children)
        → (string_bytes it.text ≡ source) × (it.findings.items ≡ []) }
{}

/// States that a text has only one expansion: any two leave the same trees, with the same calls replaced, and have the same findings and the
/// same callers. On one line they also have the same text; otherwise each text reads back as the same trees. This holds if no finding names an
/// exceeded limit of trees, because if a tree exceeds several limits, any one of them may be named.
pub fn one_answer()
    ensures { (options : ExpandOptions) → (source : List ℕ) → (it other : Expanded) → (is : IsExpanded options source it) → (was : IsExpanded options source other)
        → KeepLimits it.findings.items → KeepLimits other.findings.items
        → (is.outcome ≡ was.outcome) × (it.findings.items ≡ other.findings.items) × (it.callers.items ≡ other.callers.items)
        × (options.one_line ≡ true → string_bytes it.text ≡ string_bytes other.text) }
{}

/// States that if nothing is found in a text, then no call of a macro in scope is left, neither in the text nor in what a call expands to.
pub fn no_call_is_left()
    ensures { (options : ExpandOptions) → (source : List ℕ) → (it : Expanded) → (is : IsExpanded options source it) → it.findings.items ≡ [] → NoneIsLeft is.expands_to }
{}
