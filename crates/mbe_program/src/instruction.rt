//! Instructions of a program.
use mbe_pattern::{RepeatKind, Variable};
use tt::{DelimiterKind, Leaf};

/// An instruction. A jump says how many instructions are left at its place.
#[derive(Drop)]
pub enum Instruction {
    /// The variable takes the trees at the front.
    Take(Variable),
    /// The first token has these leaves; spans and spacing do not count.
    Pass(Vec<Leaf>),
    /// The first tree is a subtree of this kind; the run enters it.
    Enter(DelimiterKind),
    /// The subtree, or the input, is at its end; the run leaves it.
    Leave,
    /// A repetition begins: at its first round, or behind it if it may have none.
    Begin(RepeatKind, usize, usize),
    /// A round closes: the run goes on behind it, or at another round if the repetition may have more.
    Close(RepeatKind, usize),
}
