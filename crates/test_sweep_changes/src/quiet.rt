//! Calls of a builder that take no memory: they are made with every request refused.
use crate::alike::close_at;
use std::alloc::Global;
use std::fmt;
use std::fmt::Write;
use test_sweep::{Call, When, invisible, judge, plus, span};
use tt::{DelimiterKind, SubtreeBuilderRestorePoint, Symbol, TopSubtreeBuilder, TtFault};

/// How that group of calls ended.
pub fn judged<R: Print>(rt: &R, alloc: Global, call: &str) -> Result<&'static str, TtFault> {
    let name = Symbol::new(alloc, "a")?;
    let mut builder = builder(alloc)?;
    let mut call = Quiet {
        call,
        name: &name,
        builder: &mut builder,
    };
    Ok(judge(rt, &mut call))
}

// A builder of an invisible top, with a point, a closed invisible subtree over a plus, and an open brace.
fn builder(alloc: Global) -> Result<TopSubtreeBuilder, TtFault> {
    let mut builder = TopSubtreeBuilder::new(alloc, invisible())?;
    fill(&mut builder)?;
    Ok(builder)
}

fn fill(builder: &mut TopSubtreeBuilder) -> Result<(), TtFault> {
    builder.restore_point()?;
    builder.open(DelimiterKind::Brace, span(0))?;
    builder.open(DelimiterKind::Invisible, span(0))?;
    builder.extend([plus(0)].into_iter())?;
    close_at(builder, span(0))
}

// A group of calls, a name that the builder does not use, and the builder.
#[derive(Drop)]
struct Quiet<'a> {
    call: &'a str,
    name: &'a Symbol,
    builder: &'a mut TopSubtreeBuilder,
}

impl Call for Quiet<'_> {
    fn make(&mut self) -> Result<bool, TtFault> {
        match self.call {
            "builders" => {
                Ok(
                    is_shown(self.builder)
                        && counts(self.builder, self.name)
                        && go_back(self.builder),
                )
            }
            _ => Ok(false),
        }
    }

    // None of these calls may be refused.
    fn is_left(&self, when: When) -> Result<bool, TtFault> {
        match when {
            When::Refused => Ok(false),
            When::Done => Ok(true),
        }
    }
}

// Lets a text go.
#[derive(Drop)]
struct Nowhere;

impl fmt::Write for Nowhere {
    fn write_str(&mut self, _text: &str) -> fmt::Result {
        Ok(())
    }
}

// Whether the builder has a Debug text.
fn is_shown(builder: &TopSubtreeBuilder) -> bool {
    let mut nowhere = Nowhere;
    write!(nowhere, "{builder:?}").is_ok()
}

// Whether the builder uses one part four times, the close of its brace left out, and no symbol.
fn counts(builder: &TopSubtreeBuilder, name: &Symbol) -> bool {
    builder.distinct_counts() == (1, 0)
        && builder.span_part_uses(&span(0)) == 4
        && builder.symbol_uses(name) == 0
}

// Its invisible subtree is taken away, its brace closed, and its point restored.
fn go_back(builder: &mut TopSubtreeBuilder) -> bool {
    builder.remove_last_subtree_if_invisible();
    let open = builder.expected_delimiters().next();
    let is_closed = close_at(builder, span(0)).is_ok() && !builder.is_open();
    let point = SubtreeBuilderRestorePoint::from_number(0);
    open == Some(DelimiterKind::Brace)
        && is_closed
        && point.number() == 0
        && builder.restore(point)
        && !builder.is_open()
        && builder.points_taken() == 1
}
