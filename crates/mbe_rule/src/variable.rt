//! Reads variables of a pattern and uses in a template from siblings.
ghost use Rattle.std.specs.Prelude.{◌≡◌, IfSome, IsNone};
ghost use Rattle.tt.specs.Iters.{rest_of};
ghost use Rattle.tt.specs.Moves.{after_tree};
ghost use Rattle.mbe_rule.specs.Variables.{is_dollar as is_dollar_leaf, name_of, fragment_of, name_in, variable_in, variable_at as variable_there, use_at as use_there};

use tt::{Ident, IdentIsRaw, Leaf, Symbol, TtIter};

/// The name of a variable: its text, and whether it is raw.
#[derive(PartialEq, Eq, Hash, Drop)]
pub(crate) struct Name {
    pub(crate) text: Symbol,
    pub(crate) is_raw: IdentIsRaw,
}

/// What a variable takes: an ident other than `_`, a literal or a truth value, or any tree.
#[derive(Clone, Copy)]
pub(crate) enum Fragment {
    Ident,
    Literal,
    Tt,
}

/// A variable of a pattern.
#[derive(Drop)]
pub(crate) struct Variable {
    pub(crate) name: Name,
    pub(crate) fragment: Fragment,
}

/// Returns whether the leaf is the punct `$`.
pub(crate) fn is_dollar(leaf: &Leaf) -> bool
    ensures { result ≡ is_dollar_leaf leaf.now }
{
    match leaf {
        Leaf::Punct(punct) => punct.char == '$',
        Leaf::Literal(_) | Leaf::Ident(_) => false,
    }
}

impl Name {
    // Returns the name that an ident spells.
    fn of(ident: Ident) -> Name
        ensures { result ≡ name_of ident }
    {
        Name {
            text: ident.sym,
            is_raw: ident.is_raw,
        }
    }
}

impl Fragment {
    // Returns the fragment that an ident names, if it names one.
    fn named(ident: &Ident) -> Option<Fragment>
        ensures { result ≡ fragment_of ident.now }
    {
        match (ident.is_raw, ident.sym.as_str()) {
            (IdentIsRaw::No, "ident") => Some(Fragment::Ident),
            (IdentIsRaw::No, "literal") => Some(Fragment::Literal),
            (IdentIsRaw::No, "tt") => Some(Fragment::Tt),
            _ => None,
        }
    }
}

/// Returns the name at the front, if there is one. Passes the first tree.
pub(crate) fn name_in(siblings: &mut TtIter<'_>) -> Option<Name>
    ensures value { result ≡ name_in (rest_of siblings.old) }
    ensures rest { rest_of siblings.new ≡ after_tree (rest_of siblings.old) }
{
    let ident = siblings.expect_ident().ok()?;
    Some(Name::of(ident))
}

/// Returns and passes the variable whose name, colon and fragment come first, if they do.
pub(crate) fn variable_in(siblings: &mut TtIter<'_>) -> Option<Variable>
    ensures value { result ≡ variable_in (rest_of siblings.old) }
    ensures rest { IfSome result (λ _. rest_of siblings.new ≡ after_tree (after_tree (after_tree (rest_of siblings.old)))) }
{
    let name = name_in(siblings)?;
    siblings.expect_char(':').ok()?;
    let ident = siblings.expect_ident_or_underscore().ok()?;
    let fragment = Fragment::named(&ident)?;
    Some(Variable { name, fragment })
}

/// Returns and passes the variable that begins with the leaf, if there is one; the siblings follow the leaf.
pub(crate) fn variable_at(leaf: &Leaf, siblings: &mut TtIter<'_>) -> Option<Variable>
    ensures value { result ≡ variable_there leaf.now (rest_of siblings.old) }
    ensures some { IfSome result (λ _. rest_of siblings.new ≡ after_tree (after_tree (after_tree (rest_of siblings.old)))) }
    ensures none { IsNone result → rest_of siblings.new ≡ rest_of siblings.old }
{
    if !is_dollar(leaf) {
        return None;
    }
    let mut ahead = siblings.remaining().iter();
    let variable = variable_in(&mut ahead)?;
    *siblings = ahead;
    Some(variable)
}

/// Returns and passes the name that the leaf uses, if it uses one; the siblings follow the leaf.
pub(crate) fn use_at(leaf: &Leaf, siblings: &mut TtIter<'_>) -> Option<Name>
    ensures value { result ≡ use_there leaf.now (rest_of siblings.old) }
    ensures some { IfSome result (λ _. rest_of siblings.new ≡ after_tree (rest_of siblings.old)) }
    ensures none { IsNone result → rest_of siblings.new ≡ rest_of siblings.old }
{
    if !is_dollar(leaf) {
        return None;
    }
    let mut ahead = siblings.remaining().iter();
    let name = name_in(&mut ahead)?;
    *siblings = ahead;
    Some(name)
}
