//! One rule, used on two inputs.
ghost use Rattle.std.specs.Prelude.{IfOk, IfErr};
ghost use Rattle.tt.specs.Views.{trees_of};
ghost use Rattle.test_contracts.specs.Macros.{IsExpanded, IsMacroFault};

use mbe_rule::{Rule, RuleFault};
use std::alloc::Global;
use tt::{TokenTreesView, TopSubtree, TtFault};

/// Why two inputs are not expanded.
#[derive(Debug, Drop)]
pub enum MacroFault {
    /// There is no such rule.
    Rule(RuleFault),
    /// One of the two is refused.
    Expansion(TtFault),
}

impl From<RuleFault> for MacroFault {
    ghost use Rattle.std.specs.Prelude.{◌≡◌};
    ghost use Rattle.test_contracts.specs.declared.macros.MacroFault.TheVariants.{Rule};

    ghost from_gives = { λ fault all. all ≡ Rule fault };

    fn from(fault: RuleFault) -> MacroFault {
        MacroFault::Rule(fault)
    }
}

impl From<TtFault> for MacroFault {
    ghost use Rattle.std.specs.Prelude.{◌≡◌};
    ghost use Rattle.test_contracts.specs.declared.macros.MacroFault.TheVariants.{Expansion};

    ghost from_gives = { λ fault all. all ≡ Expansion fault };

    fn from(fault: TtFault) -> MacroFault {
        MacroFault::Expansion(fault)
    }
}

/// The expansions of two inputs: a tree each, or none if the input is no instance.
#[derive(Drop)]
pub struct Expansions {
    pub left: Option<TopSubtree>,
    pub right: Option<TopSubtree>,
}

/// Returns the expansions of two inputs by the rule of a pattern and a template. Makes the rule once.
pub fn expand_both(
    alloc: Global,
    pattern: &TopSubtree,
    template: &TopSubtree,
    left: TokenTreesView<'_>,
    right: TokenTreesView<'_>,
) -> Result<Expansions, MacroFault>
    ensures left { IfOk result (λ both. IsExpanded pattern.now template.now (trees_of left.entry) both.left) }
    ensures right { IfOk result (λ both. IsExpanded pattern.now template.now (trees_of right.entry) both.right) }
    ensures fault { IfErr result (λ fault. IsMacroFault pattern.now template.now (trees_of left.entry) (trees_of right.entry) fault) }
{
    let rule = Rule::new(alloc, pattern.view(), template.view())?;
    let left = rule.expand(alloc, left)?;
    let right = rule.expand(alloc, right)?;
    Ok(Expansions { left, right })
}
