//! Reading what is stored, token by token, and what a header holds in one step.
ghost use Rattle.std.specs.Prelude.{◌≤◌, ◌<◌, ◌-◌};

use crate::holds::holds;
use crate::lists::{brace, braces, gives, header, ident, is_at, is_at_end, is_read, punct, stored};
use std::alloc::Global;
use std::test::Fail;
use tt_base::{DelimiterKind, Spacing, TokenTree, TtFault};
use tt_pack::{Packed, Reader};

// A header at an index of a list. It holds so many of the tokens behind it.
fn parentheses(index: u32, len: u32) -> TokenTree
    requires index { index < 100000 }
    requires len { len < 100000 }
{
    let start = index * 2;
    let end = start + len * 2 + 1;
    let part = index % 3;
    header(
        DelimiterKind::Parenthesis,
        (part, start, start + 1),
        (part, end, end + 1),
        len,
    )
}

// A leaf at an index of a list.
fn leaf(alloc: Global, index: u32) -> Result<TokenTree, TtFault>
    requires { index < 100000 }
{
    let start = index * 2;
    let spot = (index % 3, start, start + 1);
    match index % 7 {
        0 => ident(alloc, "a", spot),
        1 => ident(alloc, "b", spot),
        2 => ident(alloc, "r#type", spot),
        3 | 4 => Ok(punct('+', Spacing::Alone, spot)),
        _ => Ok(punct('→', Spacing::Alone, spot)),
    }
}

// A token at an index of a list of so many. Of five in a row the first holds all that follow it, the second one leaf, and the
// others are leaves.
fn token(alloc: Global, index: u32, count: u32) -> Result<TokenTree, TtFault>
    requires index { index < count }
    requires count { count ≤ 100000 }
{
    match index % 5 {
        0 => Ok(parentheses(index, count - 1 - index)),
        1 => Ok(parentheses(index, 1)),
        _ => leaf(alloc, index),
    }
}

// A list of so many of them.
fn nested(alloc: Global, count: u32) -> Result<Vec<TokenTree>, TtFault>
    requires { count ≤ 100000 }
{
    let mut tokens = Vec::new(alloc);
    for index in 0..count {
        tokens.push(token(alloc, index, count)?)?;
    }
    Ok(tokens)
}

#[test]
fn a_long_list(rt: HostRuntime) -> Result<(), Fail> {
    let tokens = nested(rt.alloc(), 100000)?;
    let tree = stored(rt.alloc(), tokens.as_slice())?;
    holds(Ok(is_read(&tree, tokens.as_slice())))
}

// Whether the reader gives the tokens of the braces one after another.
fn goes_through(reader: &mut Reader<'_>, tokens: &[TokenTree]) -> bool {
    let [header, name, semicolon] = tokens else {
        return false;
    };
    gives(reader, header)
        && is_at(reader, 33, 1)
        && gives(reader, name)
        && is_at(reader, 38, 2)
        && gives(reader, semicolon)
        && is_at_end(reader, 43, 3)
}

#[test]
fn one_token_after_another(rt: HostRuntime) -> Result<(), Fail> {
    let tokens = braces(rt.alloc())?;
    let tree = stored(rt.alloc(), tokens.as_slice())?;
    let mut reader = Reader::start(&tree);
    holds(Ok(is_at(&reader, 0, 0)))?;
    holds(Ok(goes_through(&mut reader, tokens.as_slice())))
}

// The reader of what the braces hold, which a reader in front of them passes in one step.
fn below<'a>(reader: &mut Reader<'a>) -> Option<Reader<'a>> {
    let (found, below) = reader.advance_skip()?;
    if found == brace() { Some(below) } else { None }
}

// Whether the reader is at the end behind one step, and stays there.
fn stays(reader: &mut Reader<'_>) -> bool {
    is_at(reader, 43, 1) && reader.advance_skip().is_none() && is_at_end(reader, 43, 1)
}

// Whether the braces are passed in one step, and what they hold is read behind it.
fn is_passed(tree: &Packed, name: &TokenTree) -> bool {
    let mut reader = Reader::start(tree);
    let Some(mut below) = below(&mut reader) else {
        return false;
    };
    stays(&mut reader) && is_at(&below, 33, 1) && gives(&mut below, name) && is_at(&below, 38, 2)
}

#[test]
fn all_that_a_header_holds(rt: HostRuntime) -> Result<(), Fail> {
    let name = ident(rt.alloc(), "a", (0, 2, 3))?;
    let tree = stored(rt.alloc(), braces(rt.alloc())?.as_slice())?;
    holds(Ok(is_passed(&tree, &name)))
}
