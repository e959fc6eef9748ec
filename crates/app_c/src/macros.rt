//! Macros whose arms and input are trees in bytes.
ghost use Rattle.std.specs.Prelude.{IfOk, IfErr};
ghost use Rattle.app_c.specs.Expanding.{AreBytesOfExpansion, HasNoBytesOf, HasNoExpansion, IsExpansionOf};

use crate::bytes::{bytes_of_tree, input_of_bytes, tree_of_bytes};
use crate::failure::{Failure, expand_failure, rules_failure};
use crate::fault::Fault;
use mbe_rules::{Expansion, MacroRules};
use std::alloc::Global;
use tt::TopSubtree;

// Returns the expansion of the input by the macro of these arms.
fn expanded(alloc: Global, arms: &TopSubtree, input: &TopSubtree) -> Result<TopSubtree, Failure>
    ensures ok { IfOk result (IsExpansionOf arms.now input.now) }
    ensures err { IfErr result (HasNoExpansion arms.now input.now) }
{
    match MacroRules::new(alloc, arms.token_trees().iter()) {
        Ok(rules) => match rules.expand(alloc, input.token_trees().iter()) {
            Ok(Expansion::Tree(tree)) => Ok(tree),
            Ok(Expansion::NoMatch(at)) => Err(Failure {
                fault: Fault::NoMatch,
                at,
            }),
            Ok(Expansion::Ambiguous(arm)) => Err(Failure {
                fault: Fault::Ambiguous,
                at: arm,
            }),
            Err(error) => Err(expand_failure(error)),
        },
        Err(error) => Err(rules_failure(error)),
    }
}

/// Returns the bytes of the expansion of an input by the macro of these arms.
pub(crate) fn expanded_bytes(alloc: Global, arms: &[u8], input: &[u8]) -> Result<Vec<u8>, Failure>
    ensures ok { IfOk result (λ bytes. AreBytesOfExpansion arms.now input.now bytes.items) }
    ensures err { IfErr result (HasNoBytesOf arms.now input.now) }
{
    let arms = tree_of_bytes(alloc, arms)?;
    let input = input_of_bytes(alloc, input)?;
    let tree = expanded(alloc, &arms, &input)?;
    bytes_of_tree(alloc, &tree)
}
