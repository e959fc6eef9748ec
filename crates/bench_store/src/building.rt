//! The calls of the builder that make trees again.
use std::alloc::Global;
use tt::{
    Delimiter, DelimiterKind, Leaf, Span, Subtree, TokenTree, TopSubtree, TopSubtreeBuilder,
    TtFault,
};

/// A call of the builder.
#[derive(Clone, Drop)]
pub enum Call {
    Open(DelimiterKind, Span),
    Push(Leaf),
    Close(Span),
}

// A subtree that is open, and where it ends.
#[derive(Clone, Copy)]
struct Opened {
    end: usize,
    close: Span,
}

/// Of each list the top's delimiter, and the calls that build what it holds below its top.
pub fn all_calls(
    alloc: Global,
    lists: &[Vec<TokenTree>],
) -> Result<Vec<(Delimiter, Vec<Call>)>, TtFault> {
    let mut all = Vec::new(alloc);
    for list in lists {
        all.push(calls(alloc, list)?)?;
    }
    Ok(all)
}

// The calls of one list, and the delimiter of its top.
fn calls(alloc: Global, list: &[TokenTree]) -> Result<(Delimiter, Vec<Call>), TtFault> {
    let Some((TokenTree::Subtree(top), below)) = list.split_first() else {
        return Err(TtFault::NotOneSubtree);
    };
    let mut calls = Vec::new(alloc);
    let mut open = Vec::new(alloc);
    push_calls(&mut calls, &mut open, below)?;
    close_ended(&mut calls, &mut open, below.len())?;
    Ok((top.delimiter, calls))
}

// The calls for tokens, but for those that close what is open behind them.
fn push_calls(
    calls: &mut Vec<Call>,
    open: &mut Vec<Opened>,
    tokens: &[TokenTree],
) -> Result<(), TtFault> {
    for (place, token) in tokens.iter().enumerate() {
        close_ended(calls, open, place)?;
        match token {
            TokenTree::Leaf(leaf) => calls.push(Call::Push(leaf.clone()?))?,
            TokenTree::Subtree(header) => push_open(calls, open, header, place)?,
        }
    }
    Ok(())
}

// Opens the subtree of the header at a place.
fn push_open(
    calls: &mut Vec<Call>,
    open: &mut Vec<Opened>,
    header: &Subtree,
    place: usize,
) -> Result<(), TtFault> {
    let Delimiter {
        open_span,
        close,
        kind,
    } = header.delimiter;
    calls.push(Call::Open(kind, open_span))?;
    let end = place.saturating_add(header.usize_len()).saturating_add(1);
    open.push(Opened { end, close })?;
    Ok(())
}

// Closes the subtrees that end at a place.
fn close_ended(calls: &mut Vec<Call>, open: &mut Vec<Opened>, place: usize) -> Result<(), TtFault> {
    for _ in 0..open.len() {
        match open.last() {
            Some(last) if last.end == place => calls.push(Call::Close(last.close))?,
            _ => return Ok(()),
        }
        let _closed = open.pop();
    }
    Ok(())
}

/// The tree that the calls build.
pub fn build(alloc: Global, top: Delimiter, calls: Vec<Call>) -> Result<TopSubtree, TtFault> {
    let mut builder = TopSubtreeBuilder::new(alloc, top)?;
    make_all(&mut builder, calls)?;
    built(builder)
}

fn make_all(builder: &mut TopSubtreeBuilder, calls: Vec<Call>) -> Result<(), TtFault> {
    for call in calls {
        make(builder, call)?;
    }
    Ok(())
}

fn make(builder: &mut TopSubtreeBuilder, call: Call) -> Result<(), TtFault> {
    match call {
        Call::Open(kind, span) => builder.open(kind, span),
        Call::Push(leaf) => Ok(builder.push(leaf)?),
        Call::Close(span) if builder.is_open() => builder.close(span),
        Call::Close(_) => Ok(()),
    }
}

/// The tree of what the builder holds. No subtree is open in it.
pub fn built(builder: TopSubtreeBuilder) -> Result<TopSubtree, TtFault> {
    if builder.is_open() {
        return Err(TtFault::NotOneSubtree);
    }
    Ok(builder.build()?)
}
