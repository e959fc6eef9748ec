//! A rule of ten variables, and an input for it.
use crate::building::built;
use crate::error::BenchError;
use mbe_rule::{Rule, RuleFault};
use std::alloc::Global;
use tt::{Delimiter, Ident, Leaf, Punct, Spacing, Span, TopSubtree, TopSubtreeBuilder, TtFault};

// The names of the rule's variables.
const NAMES: [&str; 10] = ["a", "b", "c", "d", "e", "f", "g", "h", "i", "j"];

/// A rule and an input that are made of one tree. The pattern has a variable for each name, which takes any tree, and then
/// all that the tree holds. The template uses each variable twice. The input has the tree for each name, and then all that
/// the tree holds.
#[derive(Drop)]
pub struct Expansion {
    pattern: TopSubtree,
    template: TopSubtree,
    input: TopSubtree,
}

impl Expansion {
    /// The rules and the inputs of the trees.
    pub fn all(alloc: Global, trees: &[TopSubtree]) -> Result<Vec<Expansion>, TtFault> {
        let mut all = Vec::new(alloc);
        for tree in trees {
            all.push(Expansion::new(alloc, tree)?)?;
        }
        Ok(all)
    }

    // The rule and the input of one tree.
    fn new(alloc: Global, tree: &TopSubtree) -> Result<Expansion, TtFault> {
        Ok(Expansion {
            pattern: made(alloc, Part::Pattern, tree)?,
            template: made(alloc, Part::Template, tree)?,
            input: made(alloc, Part::Input, tree)?,
        })
    }

    // The rule, and its input.
    fn instance(&self, alloc: Global) -> Result<Instance<'_>, RuleFault> {
        Ok(Instance {
            rule: Rule::new(alloc, self.pattern.view(), self.template.view())?,
            input: &self.input,
        })
    }
}

/// A rule, and an input that is an instance of its pattern.
#[derive(Drop)]
pub struct Instance<'a> {
    rule: Rule<'a>,
    input: &'a TopSubtree,
}

impl<'a> Instance<'a> {
    /// The rules, each with its input. A rule has a fault if its tree holds a `$`.
    pub fn all(alloc: Global, expansions: &'a [Expansion]) -> Result<Vec<Instance<'a>>, RuleFault> {
        let mut all = Vec::new(alloc);
        for expansion in expansions {
            all.push(expansion.instance(alloc)?)?;
        }
        Ok(all)
    }

    /// The expansion of the input.
    pub fn expand(&self, alloc: Global) -> Result<TopSubtree, BenchError> {
        match self.rule.expand(alloc, self.input.token_trees())? {
            Some(tree) => Ok(tree),
            None => Err(BenchError::NoMatch),
        }
    }
}

fn span() -> Span {
    Punct::default().span
}

// One of the trees of a rule and an input.
#[derive(Clone, Copy)]
enum Part {
    Pattern,
    Template,
    Input,
}

// That tree under an invisible delimiter, made of the tree.
fn made(alloc: Global, part: Part, tree: &TopSubtree) -> Result<TopSubtree, TtFault> {
    let mut builder = TopSubtreeBuilder::new(alloc, Delimiter::invisible_spanned(span()))?;
    fill(alloc, &mut builder, part, tree)?;
    built(builder)
}

fn fill(
    alloc: Global,
    builder: &mut TopSubtreeBuilder,
    part: Part,
    tree: &TopSubtree,
) -> Result<(), TtFault> {
    match part {
        Part::Pattern => push_pattern(alloc, builder, tree),
        Part::Template => push_template(alloc, builder),
        Part::Input => push_input(builder, tree),
    }
}

fn push_punct(builder: &mut TopSubtreeBuilder, char: char) -> Result<(), TtFault> {
    let punct = Punct {
        char,
        spacing: Spacing::Alone,
        span: span(),
    };
    Ok(builder.push(Leaf::Punct(punct))?)
}

fn push_ident(alloc: Global, builder: &mut TopSubtreeBuilder, name: &str) -> Result<(), TtFault> {
    let ident = Ident::new(alloc, name, span())?;
    Ok(builder.push(Leaf::Ident(ident))?)
}

fn push_use(alloc: Global, builder: &mut TopSubtreeBuilder, name: &str) -> Result<(), TtFault> {
    push_punct(builder, '$')?;
    push_ident(alloc, builder, name)
}

fn push_pattern(
    alloc: Global,
    builder: &mut TopSubtreeBuilder,
    tree: &TopSubtree,
) -> Result<(), TtFault> {
    for name in NAMES.iter() {
        push_variable(alloc, builder, name)?;
    }
    builder.extend_with_tt(tree.token_trees())
}

fn push_variable(
    alloc: Global,
    builder: &mut TopSubtreeBuilder,
    name: &str,
) -> Result<(), TtFault> {
    push_use(alloc, builder, name)?;
    push_punct(builder, ':')?;
    push_ident(alloc, builder, "tt")
}

fn push_template(alloc: Global, builder: &mut TopSubtreeBuilder) -> Result<(), TtFault> {
    for name in NAMES.iter() {
        push_use(alloc, builder, name)?;
        push_use(alloc, builder, name)?;
    }
    Ok(())
}

fn push_input(builder: &mut TopSubtreeBuilder, tree: &TopSubtree) -> Result<(), TtFault> {
    for _ in 0..NAMES.len() {
        builder.extend_with_tt(tree.as_token_trees())?;
    }
    builder.extend_with_tt(tree.token_trees())
}
