//! What a builder holds after a failure, and which failure comes first.
ghost use Rattle.std.specs.Prelude.{◌≡◌, ◌⊎◌, ◌^◌, ◌-◌, ◌<◌, IfErr, OnErr};
ghost use Rattle.tt.specs.Building.{IsGrowthFault};
ghost use Rattle.tt_base.specs.declared.fault.TtFault.TheVariants.{Memory, PointsSpent};

use tt::{Leaf, Refused, SubtreeBuilderRestorePoint, TopSubtreeBuilder, TtFault};

/// Appends two leaves. After a failure the builder holds what it held, and not one of them.
pub fn push_both(builder: &mut TopSubtreeBuilder, first: Leaf, second: Leaf) -> Result<(), TtFault>
    ensures { OnErr result (builder.new ≡ builder.old) }
{
    builder.extend([first, second].into_iter())
}

/// Appends a leaf. If there is no room for one more token, that is the fault, whatever memory is left.
pub fn push(builder: &mut TopSubtreeBuilder, leaf: Leaf) -> Result<(), Refused<Leaf>>
    ensures { IfErr result (λ refused. IsGrowthFault 1 builder.old refused.fault) }
{
    builder.push(leaf)
}

/// Takes a restore point. If all numbers of points are used, that is the fault, whatever memory is left.
pub fn restore_point(builder: &mut TopSubtreeBuilder) -> Result<SubtreeBuilderRestorePoint, TtFault>
    ensures { IfErr result (λ fault. ((fault ≡ Memory) × (builder.old.taken < 2 ^ 64 - 1)) ⊎ ((fault ≡ PointsSpent) × (builder.old.taken ≡ 2 ^ 64 - 1))) }
{
    builder.restore_point()
}
