//! Symbols, and copies of tokens that have some.
ghost use Rattle.std.specs.Prelude.{◌≡◌};

use crate::holds::holds;
use std::alloc::Global;
use std::collections::HashSet;
use std::mem::size_of;
use std::test::Fail;
use tt_base::{Ident, Leaf, LitKind, Literal, Punct, Symbol, TokenTree, TtFault};

// A text, how Display and Debug write a symbol of it, and whether a set that has the symbols above takes it.
const TEXTS: [(&str, &str, bool); 3] = [
    ("r#fn", "r#fn \"r#fn\"", true),
    ("r#fn", "r#fn \"r#fn\"", false),
    ("", " \"\"", true),
];

// Whether the symbol is written so.
fn is_told_as(alloc: Global, symbol: &Symbol, told: &str) -> Result<bool, TtFault> {
    Ok(format!(in alloc; "{symbol} {symbol:?}")?.as_str() == told)
}

#[test]
fn a_symbol_is_its_text(rt: HostRuntime) -> Result<(), Fail> {
    let mut seen = HashSet::new(rt.alloc());
    for (text, told, is_new) in &TEXTS {
        let symbol = Symbol::new(rt.alloc(), text)?;
        holds(is_told_as(rt.alloc(), &symbol, told))?;
        holds(Ok(seen.insert(symbol)? == *is_new))?;
    }
    Ok(())
}

// The other arm is proved not to be reached, so the clone takes no memory.
fn copy_of(token: &TokenTree) -> TokenTree
    ensures { result ≡ token.now }
{
    match token.clone() {
        Ok(copy) => copy,
        Err(_) => unreachable!(),
    }
}

// Whether the token is its copy, one by one and among all: `cloned` may be called only where no clone can fail.
fn has_a_copy(token: &TokenTree) -> bool {
    let all = std::slice::from_ref(token);
    copy_of(token) == *token && all.iter().cloned().eq(all.iter().cloned())
}

// An ident.
fn name(alloc: Global) -> Result<TokenTree, TtFault> {
    let ident = Ident::new(alloc, "r#struct", Punct::default().span)?;
    Ok(Leaf::from(ident).into())
}

// A literal.
fn number(alloc: Global) -> Result<TokenTree, TtFault> {
    let span = Punct::default().span;
    let literal = Literal::new(alloc, "7", span, LitKind::Integer, "u8")?;
    Ok(Leaf::from(literal).into())
}

#[test]
fn tokens_are_copied(rt: HostRuntime) -> Result<(), Fail> {
    holds(Ok(has_a_copy(&name(rt.alloc())?)))?;
    holds(Ok(has_a_copy(&number(rt.alloc())?)))
}

// A symbol has the size of a pointer.
#[test]
fn a_symbol_is_one_word() -> Result<(), Fail> {
    holds(Ok(size_of::<Symbol>() == size_of::<usize>()))?;
    holds(Ok(size_of::<TokenTree>() == 56))
}
