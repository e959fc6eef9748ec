//! The packed form of token trees: bytes that name the entries of two tables. Writes tokens as bytes, and reads them back.
#![tactic(auto)]

mod counted;
mod few;
mod first_uses;
mod interned;
mod kind_reader;
pub mod laws;
mod numbered;
mod pack;
mod packed;
mod reader;
mod room;
mod small;
mod table;
mod tables;
mod token_kind;
mod token_reader;
mod uses;
mod values;
mod writer;

pub use packed::Packed;
pub use reader::Reader;
pub use token_kind::TokenKind;
pub use tt_codec::Encodable;
