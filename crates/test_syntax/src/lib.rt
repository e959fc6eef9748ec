//! Examples of tokens, trees and texts, by the calls of `syntax_lex`, `syntax_parse` and `syntax_unparse`.
#![tactic(auto)]

#[cfg(test)]
mod tokens;
#[cfg(test)]
mod trees;
#[cfg(test)]
mod written;
