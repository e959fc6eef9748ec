//! A tree as one piece of bytes, and the tree of such a piece.
#![tactic(auto)]

mod compare;
mod decode;
mod distinct;
mod fault;
mod front;
pub mod laws;
mod numbers;
mod piece;
mod quick;
mod read;
mod taking;
mod uses;
mod whole;
mod write;

pub use fault::BytesFault;
pub use read::from_bytes;
pub use write::to_bytes;
