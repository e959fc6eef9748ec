//! What a parser expects next. Each call takes one element, also if that element is not the expected one.
ghost use Rattle.std.specs.Prelude.{◌≡◌, ◌∷◌, [], codes, is_ok, is_some, IfOk, IfErr, false};
ghost use Rattle.std.specs.Result.{result_ok};
ghost use Rattle.tt_base.specs.Expectations.{first_leaf_as, as_leaf, as_punct, as_ident_or_underscore, unless_underscore, as_literal, is_punct_of, is_at_node};

use crate::iter::{TtElement, TtIter};
use tt_base::{Ident, Leaf, Punct, Subtree};

impl<'a> TtIter<'a> {
    ghost use Rattle.tt_view.specs.Iters.{rest_of, PassesOne, IsFirstSubtree};

    // Takes the next element, and returns it if it is a leaf.
    fn take_leaf(&mut self) -> Option<Leaf>
        ensures answer { result ≡ first_leaf_as as_leaf (rest_of self.old) }
        ensures passes { PassesOne self.old self.new }
    {
        match self.take_element()? {
            TtElement::Leaf(leaf) => Some(leaf),
            TtElement::Subtree(_, _) => None,
        }
    }

    // Takes the next element, and returns it if it is a punct.
    fn take_punct(&mut self) -> Option<Punct>
        ensures answer { result ≡ first_leaf_as as_punct (rest_of self.old) }
        ensures passes { PassesOne self.old self.new }
    {
        match self.take_leaf()? {
            Leaf::Punct(punct) => Some(punct),
            Leaf::Literal(_) | Leaf::Ident(_) => None,
        }
    }

    // Takes the next element, and returns it if it is an ident.
    fn take_ident(&mut self) -> Option<Ident>
        ensures answer { result ≡ first_leaf_as as_ident_or_underscore (rest_of self.old) }
        ensures passes { PassesOne self.old self.new }
    {
        match self.take_leaf()? {
            Leaf::Ident(ident) => Some(ident),
            Leaf::Literal(_) | Leaf::Punct(_) => None,
        }
    }

    /// Takes the next element. Returns `Ok` exactly if it is a punct of that character.
    pub fn expect_char(&mut self, char: char) -> Result<(), ()>
        ensures answer { is_ok result ≡ is_punct_of (char ∷ []) (first_leaf_as as_punct (rest_of self.old)) }
        ensures passes { PassesOne self.old self.new }
    {
        self.expect_any_char(&[char])
    }

    /// Takes the next element. Returns `Ok` exactly if it is a punct of one of those characters.
    pub fn expect_any_char(&mut self, chars: &[char]) -> Result<(), ()>
        ensures answer { is_ok result ≡ is_punct_of chars.now (first_leaf_as as_punct (rest_of self.old)) }
        ensures passes { PassesOne self.old self.new }
    {
        match self.take_punct() {
            Some(punct) if chars.contains(&punct.char) => Ok(()),
            _ => Err(()),
        }
    }

    /// Takes the next element. Returns its header and an iterator over what it holds, or an error if it is no subtree.
    pub fn expect_subtree(&mut self) -> Result<(Subtree, TtIter<'a>), ()>
        ensures ok { IfOk result (λ found. IsFirstSubtree (rest_of self.old) found.0 found.1) }
        ensures err { IfErr result (λ _. is_at_node (rest_of self.old) ≡ false) }
        ensures passes { PassesOne self.old self.new }
    {
        match self.take_element() {
            Some(TtElement::Subtree(subtree, below)) => Ok((subtree, below)),
            _ => Err(()),
        }
    }

    /// Takes the next element. Returns it, or an error if it is no leaf.
    pub fn expect_leaf(&mut self) -> Result<Leaf, ()>
        ensures answer { result_ok result ≡ first_leaf_as as_leaf (rest_of self.old) }
        ensures passes { PassesOne self.old self.new }
    {
        self.take_leaf().ok_or(())
    }

    /// Takes the next element. Returns `Ok` exactly if it is the punct `$`.
    pub fn expect_dollar(&mut self) -> Result<(), ()>
        ensures answer { is_ok result ≡ is_punct_of (codes "$") (first_leaf_as as_punct (rest_of self.old)) }
        ensures passes { PassesOne self.old self.new }
    {
        self.expect_char('$')
    }

    /// Takes the next element. Returns `Ok` exactly if it is the punct `,`.
    pub fn expect_comma(&mut self) -> Result<(), ()>
        ensures answer { is_ok result ≡ is_punct_of (codes ",") (first_leaf_as as_punct (rest_of self.old)) }
        ensures passes { PassesOne self.old self.new }
    {
        self.expect_char(',')
    }

    /// Takes the next element. Returns it, or an error if it is no ident other than `_`.
    pub fn expect_ident(&mut self) -> Result<Ident, ()>
        ensures answer { result_ok result ≡ unless_underscore (first_leaf_as as_ident_or_underscore (rest_of self.old)) }
        ensures passes { PassesOne self.old self.new }
    {
        match self.take_ident() {
            Some(ident) if ident.sym.as_str() != "_" => Ok(ident),
            _ => Err(()),
        }
    }

    /// Takes the next element. Returns it, or an error if it is no ident.
    pub fn expect_ident_or_underscore(&mut self) -> Result<Ident, ()>
        ensures answer { result_ok result ≡ first_leaf_as as_ident_or_underscore (rest_of self.old) }
        ensures passes { PassesOne self.old self.new }
    {
        self.take_ident().ok_or(())
    }

    /// Takes the next element. Returns it, or an error if it is neither a literal nor one of the idents `true` and `false`.
    pub fn expect_literal(&mut self) -> Result<Leaf, ()>
        ensures answer { result_ok result ≡ first_leaf_as as_literal (rest_of self.old) }
        ensures passes { PassesOne self.old self.new }
    {
        let Some(leaf) = self.take_leaf() else {
            return Err(());
        };
        if is_literal(&leaf) { Ok(leaf) } else { Err(()) }
    }

    /// Takes the next element. Returns it, or an error if it is no punct.
    pub fn expect_single_punct(&mut self) -> Result<Punct, ()>
        ensures answer { result_ok result ≡ first_leaf_as as_punct (rest_of self.old) }
        ensures passes { PassesOne self.old self.new }
    {
        self.take_punct().ok_or(())
    }
}

// Returns whether a macro accepts the leaf as a literal.
fn is_literal(leaf: &Leaf) -> bool
    ensures { result ≡ is_some (as_literal leaf.now) }
{
    match leaf {
        Leaf::Literal(_) => true,
        Leaf::Punct(_) => false,
        Leaf::Ident(ident) => matches!(ident.sym.as_str(), "true" | "false"),
    }
}
