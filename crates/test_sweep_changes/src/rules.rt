//! Calls that make a rule of two trees, and use it on a third.
use mbe_rule::{Rule, RuleFault};
use std::alloc::Global;
use test_sweep::{Call, When, flat_tree, judge, leaves_of};
use tt::{TopSubtree, TtFault};

// `$x:ident;`
const PATTERN: [(&str, u32); 5] = [("$", 0), ("x", 1), (":", 0), ("ident", 2), (";", 0)];

// `$x $x`
const TEMPLATE: [(&str, u32); 4] = [("$", 0), ("x", 3), ("$", 0), ("x", 4)];

// `a;`
const INPUT: [(&str, u32); 2] = [("a", 5), (";", 0)];

// Its expansion: `a a`.
const EXPANDED: [(&str, u32); 2] = [("a", 5), ("a", 5)];

/// How that call of the group ended.
pub fn judged<R: Print>(rt: &R, alloc: Global, call: &str) -> Result<&'static str, TtFault> {
    let trees = trees(alloc)?;
    let [pattern, template, input, after] = trees.as_slice() else {
        return Err(TtFault::NoSuchPlace);
    };
    let rule = rule_of(alloc, pattern, template)?;
    let mut call = Ruling {
        call,
        alloc,
        pattern,
        template,
        rule: &rule,
        input,
        after,
    };
    Ok(judge(rt, &mut call))
}

// The trees of a rule, an input for it, and its expansion.
fn trees(alloc: Global) -> Result<Vec<TopSubtree>, TtFault> {
    let mut trees = Vec::new(alloc);
    trees.push(flat_tree(alloc, &leaves_of(alloc, &PATTERN)?)?)?;
    trees.push(flat_tree(alloc, &leaves_of(alloc, &TEMPLATE)?)?)?;
    trees.push(flat_tree(alloc, &leaves_of(alloc, &INPUT)?)?)?;
    trees.push(flat_tree(alloc, &leaves_of(alloc, &EXPANDED)?)?)?;
    Ok(trees)
}

// The rule of both. The two have no fault, so there is a rule or no memory.
fn rule_of<'a>(
    alloc: Global,
    pattern: &'a TopSubtree,
    template: &'a TopSubtree,
) -> Result<Rule<'a>, TtFault> {
    match Rule::new(alloc, pattern.view(), template.view()) {
        Ok(rule) => Ok(rule),
        Err(RuleFault::Memory) => Err(TtFault::Memory),
        Err(_) => Err(TtFault::NotOneSubtree),
    }
}

// The trees of a rule, that rule, an input for it, and its expansion.
#[derive(Clone, Copy)]
struct Ruling<'a> {
    call: &'a str,
    alloc: Global,
    pattern: &'a TopSubtree,
    template: &'a TopSubtree,
    rule: &'a Rule<'a>,
    input: &'a TopSubtree,
    after: &'a TopSubtree,
}

impl Call for Ruling<'_> {
    fn make(&mut self) -> Result<bool, TtFault> {
        match self.call {
            "Rule::new" => self.is_made(),
            "expand" => self.expands(),
            _ => Ok(false),
        }
    }

    // It has only references.
    fn is_left(&self, _when: When) -> Result<bool, TtFault> {
        Ok(true)
    }
}

impl Ruling<'_> {
    fn is_made(&self) -> Result<bool, TtFault> {
        rule_of(self.alloc, self.pattern, self.template)?;
        Ok(true)
    }

    fn expands(&self) -> Result<bool, TtFault> {
        match self.rule.expand(self.alloc, self.input.token_trees())? {
            Some(tree) => Ok(tree == *self.after),
            None => Ok(false),
        }
    }
}
