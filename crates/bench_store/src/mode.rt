//! What can be timed.
use crate::error::BenchError;
use crate::texts::Text;
use crate::walk::Walk;
use std::str::FromStr;

/// What is timed.
#[derive(Clone, Copy)]
pub enum Mode {
    /// Packing a list, and letting the list go.
    Pack,
    /// Building a tree by opening and closing its subtrees.
    Build,
    /// Rewriting a tree by a callback that keeps each token.
    Rewrite,
    /// Giving the spans of a tree new ids.
    Ids,
    /// Expanding a rule of ten variables.
    Expand,
    /// Reading a tree from one piece of bytes.
    Load,
    /// Something that leaves a tree as it is.
    Read(Reading),
}

/// What leaves a tree as it is.
#[derive(Clone, Copy)]
pub enum Reading {
    /// Reading a tree.
    Walk(Walk),
    /// Printing a tree.
    Print(Text),
    /// Comparing a tree with its twin.
    Equal,
    /// Hashing a tree by a fast hasher, `FoldHasher`.
    Fold,
    /// Hashing a tree by the default hasher, which is SipHash.
    Sip,
    /// Copying a tree.
    Clone,
    /// Writing a tree as one piece of bytes.
    Save,
    /// Letting a copy of a tree go.
    Drop,
}

impl FromStr for Mode {
    type Err = BenchError;

    fn from_str(name: &str) -> Result<Mode, BenchError> {
        match name {
            "pack" => Ok(Mode::Pack),
            "build" => Ok(Mode::Build),
            "rewrite" => Ok(Mode::Rewrite),
            "ids" => Ok(Mode::Ids),
            "expand" => Ok(Mode::Expand),
            "load" => Ok(Mode::Load),
            _ => Ok(Mode::Read(name.parse()?)),
        }
    }
}

impl FromStr for Reading {
    type Err = BenchError;

    fn from_str(name: &str) -> Result<Reading, BenchError> {
        match name {
            "flat" => Ok(Reading::Walk(Walk::Flat)),
            "flat_whole" => Ok(Reading::Walk(Walk::FlatWhole)),
            "skip" => Ok(Reading::Walk(Walk::Skip)),
            "siblings" => Ok(Reading::Walk(Walk::Siblings)),
            "siblings_whole" => Ok(Reading::Walk(Walk::SiblingsWhole)),
            "walk" => Ok(Reading::Walk(Walk::Cursor)),
            "show" => Ok(Reading::Print(Text::Show)),
            "display" => Ok(Reading::Print(Text::Display)),
            "pretty" => Ok(Reading::Print(Text::Pretty)),
            "debug" => Ok(Reading::Print(Text::Debug)),
            "equal" => Ok(Reading::Equal),
            "fold" => Ok(Reading::Fold),
            "sip" => Ok(Reading::Sip),
            "clone" => Ok(Reading::Clone),
            "save" => Ok(Reading::Save),
            "drop" => Ok(Reading::Drop),
            _ => Err(BenchError::Usage),
        }
    }
}
