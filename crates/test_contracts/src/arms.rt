//! A macro of several arms, used on an input.
ghost use Rattle.std.specs.Prelude.{IfOk, IfErr};
ghost use Rattle.tt.specs.Views.{trees_of};
ghost use Rattle.test_contracts.specs.Arms.{Expands, IsArmsFault};

use mbe_rules::{ExpandError, Expansion, MacroRules, RulesError};
use std::alloc::Global;
use tt::TokenTreesView;

/// Why an input is not expanded.
#[derive(Debug, Drop)]
pub enum ArmsFault {
    /// There is no such macro.
    Rules(RulesError),
    /// The arm that takes the input is refused.
    Expansion(ExpandError),
}

impl From<RulesError> for ArmsFault {
    ghost use Rattle.std.specs.Prelude.{◌≡◌};
    ghost use Rattle.test_contracts.specs.declared.arms.ArmsFault.TheVariants.{Rules};

    ghost from_gives = { λ error fault. fault ≡ Rules error };

    fn from(error: RulesError) -> ArmsFault {
        ArmsFault::Rules(error)
    }
}

impl From<ExpandError> for ArmsFault {
    ghost use Rattle.std.specs.Prelude.{◌≡◌};
    ghost use Rattle.test_contracts.specs.declared.arms.ArmsFault.TheVariants.{Expansion};

    ghost from_gives = { λ error fault. fault ≡ Expansion error };

    fn from(error: ExpandError) -> ArmsFault {
        ArmsFault::Expansion(error)
    }
}

/// Returns the expansion of an input by the macro of these arms.
pub fn expand_macro(
    alloc: Global,
    arms: TokenTreesView<'_>,
    input: TokenTreesView<'_>,
) -> Result<Expansion, ArmsFault>
    ensures ok { IfOk result (Expands (trees_of arms.entry) (trees_of input.entry)) }
    ensures fault { IfErr result (IsArmsFault (trees_of arms.entry) (trees_of input.entry)) }
{
    let rules = MacroRules::new(alloc, arms.iter())?;
    let expansion = rules.expand(alloc, input.iter())?;
    Ok(expansion)
}
