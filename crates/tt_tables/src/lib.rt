//! Tokens in numbers under two tables, one of span parts and one of symbols, and lists that grow under such tables.
//!
//! `Interner` gives each different value a place. `InternedTokens` is a list of tokens that name their span parts and symbols by places.
//! Such a list takes less memory than the tokens, shares no texts with other lists, and is written without a search for any value.
//!
//! `specs/` has the tables of a list, and what is stored for a tree; `proofs/` has the proof that this determines the tree.
#![tactic(auto)]

mod counted;
mod interner;
mod node;
mod numbers;
mod small;
mod small_read;
mod small_tokens;
mod tables;
mod tables_read;
mod token;
mod tokens;
mod uncount;

pub use counted::CountedTokens;
pub use interner::Interner;
pub use small_tokens::SmallTokens;
pub use tables::Tables;
pub use token::InternedToken;
pub use tokens::InternedTokens;
