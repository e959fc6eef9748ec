//! Whether interned tokens are those of some trees.
ghost use Rattle.std.specs.Prelude.{List, map, IsTrue, IfOk};
ghost use Rattle.tt_base.specs.declared.token_tree.TokenTree.{TokenTree as Token};
ghost use Rattle.tt_base.specs.Forest.{IsWhole};
ghost use Rattle.tt_base.specs.Levels.{open_levels, TakesToken};
ghost use Rattle.tt_bytes.specs.Shape.{IsALeaf};
ghost use Rattle.tt_tables.specs.Held.{whole};
ghost use Rattle.tt_tables.specs.Names.{Names, AllName};
ghost use Rattle.tt_tables.specs.Tables.{Tables};

use std::alloc::{AllocError, Global};
use tt::{Delimiter, Leaf, Punct, Spacing, Subtree, TokenTree};
use tt_base::Levels;
use tt_tables::InternedToken;

// Takes a token, whatever values it names. Returns whether it fits.
#[inline(always)]
fn take(
    levels: &mut Levels,
    leaf: &TokenTree,
    delimiter: Delimiter,
    token: &InternedToken,
) -> Result<bool, AllocError>
    ensures { IfOk result (λ fits. (tables : Tables) → (it : Token) → Names tables token.now (whole it) → IsALeaf leaf.now → TakesToken (open_levels levels.old) it (open_levels levels.new) fits) }
{
    match token {
        InternedToken::Header(header) => levels.take(&TokenTree::Subtree(Subtree {
            delimiter,
            len: header.len,
        })),
        InternedToken::Leaf(_) => levels.take(leaf),
        InternedToken::Open(..) => Ok(false),
    }
}

/// Returns whether the tokens, whatever values they name, are those of some trees. Fails only if memory runs out.
pub(crate) fn are_whole(
    alloc: Global,
    delimiter: Delimiter,
    tokens: &[InternedToken],
) -> Result<bool, AllocError>
    ensures { IfOk result (λ answer. IsTrue answer → (tables : Tables) → (list : List Token) → AllName tables tokens.now (map whole list) → IsWhole list) }
{
    let leaf = TokenTree::Leaf(Leaf::Punct(Punct {
        char: ' ',
        spacing: Spacing::Alone,
        span: delimiter.open_span,
    }));
    let mut levels = Levels::new(alloc, tokens.len());
    for index in 0..tokens.len() {
        let Some(token) = tokens.get(index) else {
            return Ok(false);
        };
        if !take(&mut levels, &leaf, delimiter, token)? {
            return Ok(false);
        }
    }
    Ok(levels.is_done())
}
