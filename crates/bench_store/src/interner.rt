//! Equal texts as one symbol.
use std::alloc::Global;
use std::collections::HashSet;
use tt::{Ident, Leaf, Literal, Symbol, TokenTree, TtFault};

/// Makes equal texts one symbol, as a front end does that interns its names.
#[derive(Drop)]
pub struct Interner {
    known: HashSet<Symbol>,
}

impl Interner {
    /// No text is known yet.
    pub fn new(alloc: Global) -> Interner {
        Interner {
            known: HashSet::new(alloc),
        }
    }

    /// The token, whose symbol is the first one with that text.
    pub fn token(&mut self, token: TokenTree) -> Result<TokenTree, TtFault> {
        match token {
            TokenTree::Leaf(Leaf::Ident(ident)) => {
                let Ident { sym, span, is_raw } = ident;
                let sym = self.symbol(sym)?;
                Ok(TokenTree::Leaf(Leaf::Ident(Ident { sym, span, is_raw })))
            }
            TokenTree::Leaf(Leaf::Literal(literal)) => {
                let literal = self.literal(literal)?;
                Ok(TokenTree::Leaf(Leaf::Literal(literal)))
            }
            other => Ok(other),
        }
    }

    // The literal, whose symbol is the first one with that text.
    fn literal(&mut self, literal: Literal) -> Result<Literal, TtFault> {
        let symbol = self.symbol(literal.symbol().clone()?)?;
        let (span, kind) = (*literal.span(), literal.kind());
        match Literal::from_parts(symbol, span, kind, literal.suffix_len()) {
            Some(shared) => Ok(shared),
            None => Ok(literal),
        }
    }

    // The first symbol with that text.
    fn symbol(&mut self, symbol: Symbol) -> Result<Symbol, TtFault> {
        if let Some(first) = self.known.get(&symbol) {
            return Ok(first.clone()?);
        }
        self.known.insert(symbol.clone()?)?;
        Ok(symbol)
    }
}
