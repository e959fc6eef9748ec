//! A rule: a pattern and a template.
ghost use Rattle.std.specs.Prelude.{◌≡◌, ◌⊎◌, None, Some, IfOk, IfErr, IfSome, MatchOption};
ghost use Rattle.tt.specs.SubtreeViews.{root_of};
ghost use Rattle.tt.specs.Views.{trees_of};
ghost use Rattle.tt.specs.Stored.{IsWithinLimits};
ghost use Rattle.mbe_rule.specs.declared.fault.RuleFault.TheVariants.{Memory as NoMemory};
ghost use Rattle.mbe_rule.specs.Variables.{names_in};
ghost use Rattle.mbe_rule.specs.Faults.{rule_fault};

use crate::fault::RuleFault;
use crate::matching::trees_taken;
use crate::names::{check_template, pattern_names};
use crate::transcribe::transcribed;
use crate::variable::Name;
use indexmap::IndexSet;
use std::alloc::Global;
use tt::{SubtreeView, TokenTreesView, TopSubtree, TtFault};

/// A pattern and a template that have no fault. It borrows both.
#[derive(Drop)]
pub struct Rule<'a> {
    pattern: SubtreeView<'a>,
    template: SubtreeView<'a>,
    // the names of the pattern's variables, in reading order
    names: IndexSet<Name>,
    ghost named: { names.keys ≡ names_in (root_of pattern).children },
}

impl<'a> Rule<'a> {
    ghost use Rattle.mbe_rule.specs.Expansions.{IsNoInstance, IsExpansion, IsExpandFault};
    ghost use Rattle.mbe_rule.specs.RuleOf.{pattern_of_rule, template_of_rule};

    /// Returns the rule of a pattern and a template. The pattern is what the first subtree holds, the template what the second holds.
    ///
    /// Otherwise returns the first fault: the pattern is judged before the template, each in reading order. Returns
    /// `RuleFault::Memory` if memory runs out.
    pub fn new(
        alloc: Global,
        pattern: SubtreeView<'a>,
        template: SubtreeView<'a>,
    ) -> Result<Rule<'a>, RuleFault>
        ensures ok { IfOk result (λ rule. rule_fault (root_of pattern.entry).children (root_of template.entry).children ≡ None) }
        ensures pattern { IfOk result (λ rule. pattern_of_rule rule ≡ (root_of pattern.entry).children) }
        ensures template { IfOk result (λ rule. template_of_rule rule ≡ root_of template.entry) }
        ensures fault { IfErr result (λ fault. (fault ≡ NoMemory) ⊎ (rule_fault (root_of pattern.entry).children (root_of template.entry).children ≡ Some fault)) }
    {
        let names = pattern_names(alloc, pattern.token_trees())?;
        check_template(alloc, template.token_trees(), &names)?;
        Ok(Rule {
            pattern,
            template,
            names,
        })
    }

    /// Returns what the rule makes of the input: the template under its own delimiter, each use of a variable replaced by the tree that the
    /// variable took. Returns `None` if the input is no instance of the pattern.
    ///
    /// The fault is `Memory` if memory runs out, or one of 7 to 10 (`TtFault::number`) if the result exceeds that limit.
    pub fn expand(
        &self,
        alloc: Global,
        input: TokenTreesView<'_>,
    ) -> Result<Option<TopSubtree>, TtFault>
        ensures answer { IfOk result (λ answer. MatchOption answer (IsNoInstance (pattern_of_rule self.now) (trees_of input.entry)) (λ tree. IsExpansion (pattern_of_rule self.now) (template_of_rule self.now) (trees_of input.entry) tree)) }
        ensures limits { IfOk result (λ answer. IfSome answer (λ tree. IsWithinLimits tree)) }
        ensures fault { IfErr result (λ fault. IsExpandFault (pattern_of_rule self.now) (template_of_rule self.now) (trees_of input.entry) fault) }
    {
        match trees_taken(alloc, self.pattern.iter(), input.iter())? {
            Some(taken) => {
                let tree = transcribed(alloc, self.template, &self.names, &taken)?;
                Ok(Some(tree))
            }
            None => Ok(None),
        }
    }
}
